use crate::{Failed, Sink};

/// Why not all was written.
#[derive(Clone, Copy, Debug, PartialEq, Eq)]
pub enum WriteEnd {
    /// A write failed, after so many bytes were written.
    Fault { written: usize },
}

ghost use Rattle.std.specs.Prelude.{◌≡◌, ◌<◌, ◌≤◌, length, take, OnOk, OnErr, IfErr};
ghost use Rattle.cl_outside.specs.Ends.{written_of};
ghost use Rattle.cl_outside.specs.Faults.{Rose};
ghost use Rattle.cl_outside.specs.Streams.{Appends};

/// Writes all these bytes. It takes no memory.
///
/// `Fault` comes where a write failed, and says how many of the first bytes were written before.
pub fn write_all<O: Sink>(sink: &mut O, bytes: &[u8]) -> Result<(), WriteEnd>
    ensures ok { OnOk result (Appends (O.written sink.old) bytes.now (O.written sink.new)) }
    ensures few { IfErr result (λ end. written_of end < length bytes.now) }
    ensures part { IfErr result (λ end. Appends (O.written sink.old) (take (written_of end) bytes.now) (O.written sink.new)) }

    // The count of faults never falls, and it rises only where a fault is told.
    ensures later { O.faults sink.old ≤ O.faults sink.new }
    ensures fault { OnErr result (Rose (O.faults sink.old) (O.faults sink.new)) }
    ensures kept { OnOk result (O.faults sink.new ≡ O.faults sink.old) }
{
    let mut written = 0;
    while written < bytes.len() {
        match sink.write(&bytes[written..]) {
            Ok(count) => written += count,
            Err(Failed) => return Err(WriteEnd::Fault { written }),
        }
    }
    Ok(())
}
