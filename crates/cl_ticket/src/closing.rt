// Processes that have ended are gathered, and at the end the table is closed.
ghost use Rattle.std.specs.Prelude.{◌≡◌, ◌+◌, ◌-◌, ◌++◌, [], ◌∷◌, length, map, All, None};
ghost use Rattle.std.specs.Slots.{slots_items, slots_len, IsFull};
ghost use lib.ListN.{get_elem?};
ghost use mathlib.Core.Option.{some};
ghost use Rattle.cl_value.specs.Acts.{names_made};
ghost use Rattle.cl_value.specs.Tickets.{by_ticket, NumberedFrom};
ghost use Rattle.cl_ticket.specs.Weights.{Each};
ghost use Rattle.cl_ticket.specs.Participants.{Root};
ghost use Rattle.cl_ticket.specs.Rule.{name_of, Ruled};
ghost use Rattle.cl_ticket.specs.Steps.{end_view, evals_in};
ghost use Rattle.cl_ticket.specs.Points.{names_of, Differ, SameNumbers, AreBelow, OwnActs, HaveOwners, IsMadeBy, FullMarks, HaltMarks, IsHalter};
ghost use Rattle.cl_ticket.specs.Tokens.{participants_of, with_gathered};

use crate::table::{Both, TicketSeat};
use crate::tokens::{Plan, ProcSeat, SetSeat, Tickets};
use std::alloc::Global;

/// Takes in a process that has ended, and all that it had gathered. Takes no memory.
pub fn gather<K: Plan>(tickets: &Tickets<K>, into: &mut ProcSeat<K>, ended: ProcSeat<K>)
    ensures gathered { into.new ≡ with_gathered into.old ended }
{
    let ProcSeat {
        seat,
        name: _,
        run: _,
    } = ended;
    tickets.table.shared.join_seat::<Both>(&mut into.seat, seat);
}

/// What the table had at the end.
#[derive(Drop)]
pub struct Closed {
    /// One more than the number of acts.
    pub next: u64,
    /// 0, or one more than the name of the process that failed first.
    pub halt: u64,
}

// The set goes to who closes.
fn take_in<K: Plan>(tickets: &Tickets<K>, main: &mut TicketSeat, set: SetSeat<K>)
    requires table { main.old.table_id ≡ tickets.now.table.shared.table_id }
    requires empty { (set.guest ≡ None) × (set.unborn ≡ []) }
    requires main { main.old.me ≡ (end_view main.old.me.0.participants main.old.me.0.sets, []) }
    ensures table { main.new.table_id ≡ main.old.table_id }
    ensures view { main.new.me ≡ (end_view main.old.me.0.participants (main.old.me.0.sets ++ set.history ∷ []), []) }
{
    let SetSeat {
        seat,
        number: _,
        guest: _,
        last: _,
        run: _,
    } = set;
    tickets.table.shared.join_seat::<Both>(main, seat);
}

// All sets go to who closes.
fn take_all<K: Plan>(tickets: &Tickets<K>, main: &mut TicketSeat, sets: Vec<SetSeat<K>>)
    requires table { main.old.table_id ≡ tickets.now.table.shared.table_id }
    requires empty { All (λ s. (s.guest ≡ None) × (s.unborn ≡ [])) sets.items }
    requires main { main.old.me ≡ (end_view main.old.me.0.participants [], []) }
    ensures table { main.new.table_id ≡ main.old.table_id }
    ensures view { main.new.me ≡ (end_view main.old.me.0.participants (map (λ s. s.history) sets.items), []) }
{
    for set in sets {
        take_in(tickets, main, set);
    }
}

// What stands in the two words.
fn words_of(table: &atomic_table::Closed<(), Global>) -> Closed
    requires two { (slots_len table.now.words ≡ 2) × IsFull table.now.words }
    ensures next { get_elem? (slots_items table.now.words) 0 ≡ some result.next }
    ensures halt { get_elem? (slots_items table.now.words) 1 ≡ some result.halt }
{
    Closed {
        next: table.word(0),
        halt: table.word(1),
    }
}

/// Ends the run: process 0 hands in all sets, and has gathered as many processes as evals were done. Then no
/// other token stands, so what is told holds of the processes and the sets that are handed in alone. Takes no
/// memory.
pub fn close<K: Plan>(tickets: Tickets<K>, sets: Vec<SetSeat<K>>, main: ProcSeat<K>) -> Closed
    requires empty { All (λ s. (s.guest ≡ None) × (s.unborn ≡ [])) sets.items }
    requires main { name_of main.participant.origin ≡ 0 }
    requires sets { length sets.items ≡ length K.shapes }
    requires gathered { length main.gathered ≡ evals_in (map (λ s. s.history) sets.items) }
    ensures tickets { NumberedFrom 1 (by_ticket (map (λ s. s.history) sets.items)) }
    ensures next { result.next ≡ length (by_ticket (map (λ s. s.history) sets.items)) + 1 }
    ensures numbers { AreBelow (length K.shapes) (map (λ s. s.history.set) sets.items) }
    ensures root { main.participant.origin ≡ Root (length K.shapes) }
    ensures names { Differ (names_of (participants_of main)) }
    ensures made { SameNumbers (names_of main.gathered) (names_made (by_ticket (map (λ s. s.history) sets.items))) }
    ensures acts { OwnActs (map (λ s. s.history) sets.items) (participants_of main) }
    ensures owners { HaveOwners (map (λ s. s.history) sets.items) (participants_of main) }
    ensures starts { Each (IsMadeBy (participants_of main)) main.gathered }
    ensures full { FullMarks (map (λ s. s.history) sets.items) (participants_of main) }
    ensures halt { HaltMarks result.halt (participants_of main) }
    ensures halter { IsHalter result.halt (participants_of main) }
    ensures ruled { Ruled (result.next - 1) (end_view (participants_of main) (map (λ s. s.history) sets.items) ∷ []) }
{
    let ProcSeat {
        seat: mut closer,
        name: _,
        run: _,
    } = main;
    take_all(&tickets, &mut closer, sets);
    let Tickets { table, run: _ } = tickets;
    let table = table.close_with(closer);
    let closed = words_of(&table);
    table.free();
    closed
}
