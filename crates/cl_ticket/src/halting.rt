// Who failed first.
ghost use Rattle.std.specs.Prelude.{◌≡◌, suc, ◌≤◌, Some};
ghost use Rattle.cl_ticket.specs.Weights.{Each};
ghost use Rattle.cl_ticket.specs.Rule.{Agrees};
ghost use Rattle.cl_ticket.specs.Steps.{seen, standing};
ghost use Rattle.cl_ticket.specs.Tokens.{participants_of, after_halt, after_sight};

use crate::table::{Halts, Sights};
use crate::tokens::{Plan, ProcSeat, Tickets};

// Who failed first, by what was found where the name of who did stands.
fn first_of(name: u64, found: u64) -> u64
    requires room { name ≤ 17179869185 }
    ensures { suc result ≡ standing (suc name) found }
{
    if found == 0 { name } else { found - 1 }
}

/// The process failed. The answer is the name of the process that failed first, which may be this one. Takes
/// no memory.
pub fn halt<K: Plan>(tickets: &Tickets<K>, seat: &mut ProcSeat<K>) -> u64
    ensures failed { seat.new ≡ after_halt seat.old result }
    ensures agrees { Each (Agrees (seen (Some result))) (participants_of seat.old) }
{
    let mine = seat.name + 1;
    let found = tickets
        .table
        .shared
        .compare_exchange::<Halts>(&mut seat.seat, 1, 0, mine);
    first_of(seat.name, found)
}

/// The name of the process that failed first, or `None` where nobody had failed when it looked. The process
/// keeps what it saw, and what it and those that it has gathered knew before agrees with it. Takes no memory.
pub fn see_halt<K: Plan>(tickets: &Tickets<K>, seat: &mut ProcSeat<K>) -> Option<u64>
    ensures saw { seat.new ≡ after_sight seat.old result }
    ensures agrees { Each (Agrees (seen result)) (participants_of seat.old) }
{
    let found = tickets.table.shared.load::<Sights>(&mut seat.seat, 1);
    if found == 0 { None } else { Some(found - 1) }
}
