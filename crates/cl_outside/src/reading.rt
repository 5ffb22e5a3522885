use crate::{Failed, Source};
use cl_ground::Items;
use std::alloc::Global;

/// Why not all was read.
#[derive(Clone, Copy, Debug, PartialEq, Eq)]
pub enum ReadEnd {
    /// A read failed. At most `max` bytes are lost.
    Fault,
    /// There are more bytes than the limit. One more than the limit are lost.
    TooLarge,
    /// A growth was refused by the allocator. At most `max` bytes are lost.
    NoMemory,
}

// The most bytes of one read.
const BUFFER: usize = 4096;

ghost use Rattle.std.specs.Prelude.{◌≡◌, ◌⊎◌, ◌+◌, ◌-◌, ◌^◌, ◌<◌, ◌≤◌, length, IfOk, IsErrOf};
ghost use Rattle.cl_ground.specs.Room.{Room};
ghost use Rattle.cl_outside.specs.Faults.{Rose};
ghost use Rattle.cl_outside.specs.Streams.{TakesAll, Loses, LosesUpTo};

/// Reads all there is, up to `max` bytes.
///
/// `TooLarge` comes where there is one byte more, and then that many are lost. `Fault` comes where a read
/// failed, and `NoMemory` where a growth was refused, which is before the read that it was for. After these
/// two at most `max` bytes are lost.
pub fn read_all<I: Source>(alloc: Global, src: &mut I, max: usize) -> Result<Items<u8>, ReadEnd>
    requires { max < 2 ^ 64 - 1 }

    ensures all { IfOk result (λ all. TakesAll all.items (I.left src.old) (I.left src.new)) }
    ensures few { IfOk result (λ all. length all.items ≤ max) }
    ensures too_large { IsErrOf result ReadEnd.TooLarge → Loses (max + 1) (I.left src.old) (I.left src.new) }
    ensures lost { IsErrOf result ReadEnd.Fault ⊎ IsErrOf result ReadEnd.NoMemory → LosesUpTo max (I.left src.old) (I.left src.new) }

    // The count of faults never falls, and it rises only where a fault is told.
    ensures later { I.faults src.old ≤ I.faults src.new }
    ensures fault { IsErrOf result ReadEnd.Fault → Rose (I.faults src.old) (I.faults src.new) }
    ensures kept { IsErrOf result ReadEnd.Fault ⊎ (I.faults src.new ≡ I.faults src.old) }
{
    let mut all = Items::new(alloc);
    let mut buffer = [0; BUFFER];
    while all.len() <= max {
        let want = BUFFER.min(max + 1 - all.len());
        if all.reserve(want).is_err() {
            return Err(ReadEnd::NoMemory);
        }
        match src.read(&mut buffer[..want]) {
            Ok(0) => return Ok(all),
            Ok(count) => all.push_all(&buffer[..count]),
            Err(Failed) => return Err(ReadEnd::Fault),
        }
    }
    Err(ReadEnd::TooLarge)
}
