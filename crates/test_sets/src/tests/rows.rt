// Small runs on one thread.
ghost use Rattle.std.specs.Prelude.{◌≡◌, ◌+◌, ◌<◌, ◌≤◌, [], ◌∷◌, None, length, IfOk, IfSome, false, true, slice_index};
ghost use Rattle.cl_value.specs.Acts.{is_eval};
ghost use Rattle.cl_value.specs.Views.{plain_what};
ghost use Rattle.cl_ticket.specs.Participants.{Root};
ghost use Rattle.cl_ticket.specs.Rule.{depth_of};
ghost use Rattle.cl_ticket.specs.Steps.{full_mark, evals_in, participant};
ghost use Rattle.cl_ticket.specs.Tokens.{new_process_token, new_set_tokens};

use super::set_state::SetState;
use cl_ground::NoMemory;
use cl_ticket::{
    Blank, Closed, Plan, ProcSeat, SetSeat, Tickets, close, enter, gather, halt, leave_full, make,
    see_halt,
};
use cl_value::What;
use std::alloc::Global;

// The one set of a new table.
fn one_state<K: Plan>(mut seats: Vec<SetSeat<K>>, limit: u32) -> Option<SetState<K>>
    requires limit { limit ≡ K.entries }
    requires places { seats.items ≡ new_set_tokens 1 }
{
    let first = seats.pop()?;
    Some(SetState::new(first, limit))
}

// Hands in one set, where as many evals were done as processes were gathered.
fn close_one<K: Plan>(
    alloc: Global,
    tickets: Tickets<K>,
    set: SetState<K>,
    main: ProcSeat<K>,
    gathered: u64,
) -> Result<Option<Closed>, NoMemory>
    requires one { length K.shapes ≡ 1 }
    requires gathered { length main.gathered ≡ gathered }
{
    let Ok(mut ended) = Vec::with_capacity(alloc, 1) else {
        return Err(NoMemory);
    };
    if set.evals != gathered || main.name() != 0 {
        return Ok(None);
    }
    ended.push_reserved(set.into_seat());
    Ok(Some(close(tickets, ended, main)))
}

// Who enters a set and leaves it as full is marked with the set's acts.
pub fn finds_it_full<K: Plan>(
    tickets: &Tickets<K>,
    set: &mut SetSeat<K>,
    guest: ProcSeat<K>,
) -> ProcSeat<K>
    requires alone { set.old.guest ≡ None }
    ensures set { set.new ≡ set.old }
    ensures mark { result.participant.full ≡ full_mark set.old.history ∷ guest.participant.full }
    ensures acts { result.participant.acts ≡ guest.participant.acts }
    ensures gathered { result.gathered ≡ guest.gathered }
{
    enter(tickets, set, guest);
    leave_full(tickets, set)
}

// A child of a child of process 0.
pub fn grandchild<K: Plan>(
    tickets: &Tickets<K>,
    set: &mut SetState<K>,
    main: ProcSeat<K>,
    eval: &What,
) -> Option<(ProcSeat<K>, ProcSeat<K>, ProcSeat<K>)>
    requires main { depth_of main.participant.origin ≡ 0 }
    requires eval { is_eval (plain_what eval.now) ≡ true }
    ensures depth { IfSome result (λ r. depth_of r.2.participant.origin ≡ 2) }
    ensures gathered { IfSome result (λ r. (r.0.gathered ≡ main.gathered) × (r.1.gathered ≡ []) × (r.2.gathered ≡ [])) }
{
    if set.is_full() {
        return None;
    }
    let (main, child, _) = set.eval(tickets, main, 0, eval);
    if set.is_full() {
        return None;
    }
    let (child, grandchild, _) = set.eval(tickets, child, 1, eval);
    Some((main, child, grandchild))
}

// A grandchild, and a full set. The answer has the two names, and the next ticket.
pub fn family<K: Plan>(
    alloc: Global,
    blank: Blank,
    eval: &What,
    limit: u32,
) -> Result<Option<(u64, u64, u64)>, NoMemory>
    requires table { blank.table ≡ K.table }
    requires shapes { (blank.sets ≡ length K.shapes) × (length K.shapes ≡ 1) }
    requires limit { (limit ≡ K.entries) × (K.entries ≤ 16777216) }
    requires eval { is_eval (plain_what eval.now) ≡ true }
{
    let (tickets, seats, main) = make::<K>(alloc, blank)?;
    let Some(mut set) = one_state(seats, limit) else {
        return Ok(None);
    };
    let Some((main, mut child, grandchild)) = grandchild(&tickets, &mut set, main, eval) else {
        return Ok(None);
    };
    let names = (child.name(), grandchild.name());
    gather(&tickets, &mut child, grandchild);
    let mut main = finds_it_full(&tickets, &mut set.seat, main);
    gather(&tickets, &mut main, child);
    let closed = close_one(alloc, tickets, set, main, 2)?;
    Ok(closed.map(|closed| (names.0, names.1, closed.next)))
}

// Process 1 fails first, and process 0 sees it.
pub fn fails<K: Plan>(tickets: &Tickets<K>, main: &mut ProcSeat<K>, child: &mut ProcSeat<K>) -> bool
    ensures main { main.new.gathered ≡ main.old.gathered }
    ensures child { child.new.gathered ≡ child.old.gathered }
{
    let before = see_halt(tickets, main);
    let first = halt(tickets, child);
    let second = halt(tickets, main);
    let after = see_halt(tickets, main);
    before.is_none() && first == 1 && second == 1 && after == Some(1)
}

// Whether it goes so, and what stands in the table then.
pub fn a_failure<K: Plan>(
    alloc: Global,
    blank: Blank,
    eval: &What,
    limit: u32,
) -> Result<bool, NoMemory>
    requires table { blank.table ≡ K.table }
    requires shapes { (blank.sets ≡ length K.shapes) × (length K.shapes ≡ 1) }
    requires limit { (limit ≡ K.entries) × (K.entries ≤ 16777216) }
    requires eval { is_eval (plain_what eval.now) ≡ true }
{
    let (tickets, seats, main) = make::<K>(alloc, blank)?;
    let Some(mut set) = one_state(seats, limit) else {
        return Ok(false);
    };
    if set.is_full() {
        return Ok(false);
    }
    let (mut main, mut child, _) = set.eval(&tickets, main, 0, eval);
    let so = fails(&tickets, &mut main, &mut child);
    gather(&tickets, &mut main, child);
    let closed = close_one(alloc, tickets, set, main, 1)?;
    Ok(so && closed.is_some_and(|closed| closed.halt == 2))
}
