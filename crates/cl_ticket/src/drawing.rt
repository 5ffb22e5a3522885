// Tickets, and the processes that evals make.
ghost use Rattle.std.specs.Prelude.{◌≡◌, ◌<◌, [], ◌∷◌, length, if◌then◌else◌};
ghost use Rattle.cl_value.specs.Plain.{Lives};
ghost use Rattle.cl_value.specs.Acts.{is_eval};
ghost use Rattle.cl_value.specs.Views.{plain_what};
ghost use Rattle.cl_ticket.specs.Weights.{Each};
ghost use Rattle.cl_ticket.specs.Rule.{name_of};
ghost use Rattle.cl_ticket.specs.Steps.{act_of, birth_in, set_in, has_one, IsSet, Drawn};
ghost use Rattle.cl_ticket.specs.Starts.{start_of, live_of};
ghost use Rattle.cl_ticket.specs.Tokens.{guest_of, with_drawn, all_born, newborn, HasGuest};

use crate::table::{Bears, DrawnAct, Draws, TicketSeat};
use crate::tokens::{Plan, ProcSeat, SetSeat, Tickets};
use cl_value::What;
use std::marker::{Brand, PhantomData};

// What is done is picked by the call.
fn draw_as<K: Plan, W: DrawnAct>(
    tickets: &Tickets<K>,
    seat: &mut TicketSeat,
    _site: u32,
    _what: &What,
) -> u64
    requires table { seat.old.table_id ≡ tickets.now.table.shared.table_id }
    requires view { IsSet seat.old.me.0 × has_one seat.old.me.0.participants × (seat.old.me.1 ≡ []) }
    requires room { length (set_in seat.old.me.0.sets).acts < 16777216 }
    ensures drawn { Drawn W.site W.what seat.old.me.0 result seat.new.me.0 }
    ensures seat { (seat.new.me.1 ≡ []) × (seat.new.table_id ≡ seat.old.table_id) }
{
    tickets.table.shared.fetch_add::<Draws<W>>(seat, 0, 1)
}

// The ticket of the last eval.
fn last_eval(what: &What, ticket: u64, before: u64) -> u64
    ensures { result ≡ if is_eval (plain_what what.now) then ticket else before }
{
    if matches!(what, What::Eval(_)) {
        ticket
    } else {
        before
    }
}

/// Draws the ticket of an act of the guest: at this site, it did this. The act is then the last one of the
/// set and of the guest, and an `eval` waits for its process. Takes no memory, and nothing is copied.
pub fn draw<K: Plan>(tickets: &Tickets<K>, set: &mut SetSeat<K>, site: u32, what: &What) -> u64
    requires guest { HasGuest set.old }
    requires room { length set.old.history.acts < K.entries }
    ensures drawn { set.new ≡ with_drawn set.old (act_of site (plain_what what.now) (guest_of set.old).participant result) }
    ensures above_set { Each (λ a. a.ticket < result) set.old.history.acts }
    ensures above_guest { Each (λ a. a.ticket < result) (guest_of set.old).participant.acts }
    ensures above_name { name_of (guest_of set.old).participant.origin < result }
{
    let ticket = draw_as::<K, Brand>(tickets, &mut set.seat, site, what);
    set.last = last_eval(what, ticket, set.last);
    ticket
}

/// The token of the process that an `eval` made, where it is the one eval drawn in this set that waits for its
/// process. The process has the eval's ticket as its name, begins with the eval's live tuple, and is one deeper
/// than the process that did the eval. Takes no memory.
#[tactic(auto, using(crate::proofs::Moves::bears_as))]
pub fn born<K: Plan>(tickets: &Tickets<K>, set: &mut SetSeat<K>) -> ProcSeat<K>
    requires one { set.old.unborn ≡ birth_in set.old.unborn ∷ [] }
    ensures set { set.new ≡ all_born set.old }
    ensures process { result ≡ newborn (birth_in set.old.unborn) }
    ensures name { name_of result.participant.origin ≡ (birth_in set.old.unborn).act.ticket }
    ensures start { start_of result.participant.origin ≡ Lives (birth_in set.old.unborn).act.site (live_of (birth_in set.old.unborn).act.what) (birth_in set.old.unborn).depth }
{
    let seat = tickets.table.shared.split_seat::<Bears>(&mut set.seat);
    let name = set.last;
    set.last = 0;
    ProcSeat {
        seat,
        name,
        run: PhantomData,
    }
}
