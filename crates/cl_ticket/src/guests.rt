// A process in a set: it enters, and it leaves.
ghost use Rattle.std.specs.Prelude.{◌≡◌, None, Some};
ghost use Rattle.cl_ticket.specs.Tokens.{guest_of, with_guest, marked_guest, HasGuest};

use crate::table::{Both, Leaves, LeavesFull};
use crate::tokens::{Plan, ProcSeat, SetSeat, Tickets};
use std::marker::PhantomData;

/// The process enters the set and stands in it as its guest, with those that it has gathered. Takes no memory.
pub fn enter<K: Plan>(tickets: &Tickets<K>, set: &mut SetSeat<K>, guest: ProcSeat<K>)
    requires alone { set.old.guest ≡ None }
    ensures stands { set.new ≡ with_guest set.old (Some guest) }
{
    let ProcSeat { seat, name, run: _ } = guest;
    tickets.table.shared.join_seat::<Both>(&mut set.seat, seat);
    set.guest = name;
}

/// The guest leaves the set, with its acts and those that it has gathered. Takes no memory.
#[tactic(auto, using(crate::proofs::Moves::leaves_as))]
pub fn leave<K: Plan>(tickets: &Tickets<K>, set: &mut SetSeat<K>) -> ProcSeat<K>
    requires guest { HasGuest set.old }
    ensures set { set.new ≡ with_guest set.old None }
    ensures process { result ≡ guest_of set.old }
{
    let seat = tickets.table.shared.split_seat::<Leaves>(&mut set.seat);
    let name = set.guest;
    set.guest = 0;
    ProcSeat {
        seat,
        name,
        run: PhantomData,
    }
}

/// The guest leaves the set, which is full for it: it is marked with the number of the set and the set's acts.
/// Takes no memory.
#[tactic(auto, using(crate::proofs::Moves::leaves_full_as))]
pub fn leave_full<K: Plan>(tickets: &Tickets<K>, set: &mut SetSeat<K>) -> ProcSeat<K>
    requires guest { HasGuest set.old }
    ensures set { set.new ≡ with_guest set.old None }
    ensures process { result ≡ marked_guest set.old }
{
    let seat = tickets.table.shared.split_seat::<LeavesFull>(&mut set.seat);
    let name = set.guest;
    set.guest = 0;
    ProcSeat {
        seat,
        name,
        run: PhantomData,
    }
}
