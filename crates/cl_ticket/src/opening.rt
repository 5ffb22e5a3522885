// A table with its sets and process 0.
ghost use Rattle.cl_ground.specs.declared.limits.TheConstants.{MOST_SITES};
ghost use Rattle.std.specs.Prelude.{◌≡◌, ◌+◌, ◌<◌, ◌≤◌, [], length, IfOk, vec_len, vec_capacity};
ghost use Rattle.cl_value.specs.Plain.{Main};
ghost use Rattle.cl_ticket.specs.Participants.{Root};
ghost use Rattle.cl_ticket.specs.Rule.{opening_view};
ghost use Rattle.cl_ticket.specs.Steps.{participant};
ghost use Rattle.cl_ticket.specs.Starts.{start_of};
ghost use Rattle.cl_ticket.specs.Tokens.{new_process_token, new_set_token, new_set_tokens};

use crate::table::{Opens, OpensLast, TicketSeat};
use crate::tokens::{Blank, Plan, ProcSeat, SetSeat, Tickets};
use atomic_table::Table;
use cl_ground::NoMemory;
use std::alloc::Global;
use std::marker::PhantomData;

// The next set.
fn open_next<K: Plan>(tickets: &Tickets<K>, opener: &mut TicketSeat, number: u32) -> SetSeat<K>
    requires table { opener.old.table_id ≡ tickets.now.table.shared.table_id }
    requires view { (opener.old.me ≡ (opening_view number, [])) × (number < MOST_SITES) }
    ensures table { opener.new.table_id ≡ opener.old.table_id }
    ensures opener { opener.new.me ≡ (opening_view (number + 1), []) }
    ensures set { result ≡ new_set_token number }
{
    let seat = tickets.table.shared.split_seat::<Opens>(opener);
    SetSeat {
        seat,
        number,
        guest: 0,
        last: 0,
        run: PhantomData,
    }
}

// The last set, and process 0.
fn open_last<K: Plan>(
    tickets: &Tickets<K>,
    mut opener: TicketSeat,
    number: u32,
) -> (SetSeat<K>, ProcSeat<K>)
    requires table { opener.table_id ≡ tickets.now.table.shared.table_id }
    requires view { (opener.me ≡ (opening_view number, [])) × (number < MOST_SITES) × (number + 1 ≡ length K.shapes) }
    ensures set { result.0 ≡ new_set_token number }
    ensures process { result.1 ≡ new_process_token (participant (Root (length K.shapes)) []) }
{
    let seat = tickets.table.shared.split_seat::<OpensLast>(&mut opener);
    (
        SetSeat {
            seat,
            number,
            guest: 0,
            last: 0,
            run: PhantomData,
        },
        ProcSeat {
            seat: opener,
            name: 0,
            run: PhantomData,
        },
    )
}

// All sets but the last.
fn open_all<K: Plan>(
    tickets: &Tickets<K>,
    opener: &mut TicketSeat,
    seats: &mut Vec<SetSeat<K>>,
    last: u32,
)
    requires table { opener.old.table_id ≡ tickets.now.table.shared.table_id }
    requires view { (opener.old.me ≡ (opening_view 0, [])) × (last < MOST_SITES) }
    requires room { (seats.old.items ≡ []) × (last < vec_capacity seats.old) }
    ensures room { vec_capacity seats.new ≡ vec_capacity seats.old }
    ensures table { opener.new.table_id ≡ opener.old.table_id }
    ensures opener { opener.new.me ≡ (opening_view last, []) }
    ensures sets { (seats.new.items ≡ new_set_tokens last) × (vec_len seats.new ≡ last) }
{
    for number in 0..last {
        seats.push_reserved(open_next(tickets, opener, number));
    }
}

/// A fresh table for so many sets. `NoMemory` comes where the allocator refused its two words.
pub fn begin_table(alloc: Global, sets: u32) -> Result<Blank, NoMemory>
    requires { (0 < sets) × (sets ≤ MOST_SITES) }
    ensures { IfOk result (λ blank. blank.sets ≡ sets) }
{
    match Table::of_words(alloc, &[1, 0], &()) {
        Ok((table, opener)) => Ok(Blank {
            table,
            opener,
            sets,
        }),
        Err(_) => Err(NoMemory),
    }
}

/// The table of the run, a token for each of its sets in order of number, and that of process 0. `NoMemory`
/// comes where the allocator refused the list of tokens.
pub fn make<K: Plan>(
    alloc: Global,
    blank: Blank,
) -> Result<(Tickets<K>, Vec<SetSeat<K>>, ProcSeat<K>), NoMemory>
    requires table { blank.table ≡ K.table }
    requires shapes { blank.sets ≡ length K.shapes }
    requires limit { K.entries ≤ 16777216 }
    ensures sets { IfOk result (λ r. r.1.items ≡ new_set_tokens (length K.shapes)) }
    ensures process { IfOk result (λ r. r.2 ≡ new_process_token (participant (Root (length K.shapes)) [])) }
    ensures start { IfOk result (λ r. start_of r.2.participant.origin ≡ Main) }
{
    let Blank {
        table,
        mut opener,
        sets,
    } = blank;
    let Ok(mut seats) = Vec::with_capacity(alloc, sets as usize) else {
        return Err(NoMemory);
    };
    let tickets: Tickets<K> = Tickets {
        table,
        run: PhantomData,
    };
    let last = sets - 1;
    open_all(&tickets, &mut opener, &mut seats, last);
    let (set, main) = open_last(&tickets, opener, last);
    seats.push_reserved(set);
    Ok((tickets, seats, main))
}
