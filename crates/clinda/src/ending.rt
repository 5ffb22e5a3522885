//! How a call of the top ends, and what it writes at its end.

ghost use Rattle.std.specs.Prelude.{◌≡◌, ◌≤◌, length};
ghost use Rattle.clinda.specs.Refusals.{printed};
ghost use Rattle.clinda.specs.Saying.{Said, Speaks};
ghost use Rattle.clinda.specs.Making.{refusal_saying};

use crate::refusal::refusal_text;
use cl_front::Refusal;
use cl_ground::NoMemory;
use cl_outside::{Sink, WriteEnd, write_all};
use cl_value::RunReport;
use std::alloc::Global;

/// How a call of the top ended.
#[derive(Drop)]
pub struct TopEnd {
    /// The exit status.
    ///
    /// - 0: the process ended, or the text was printed.
    /// - 1: the words spell no command.
    /// - 2: the source was refused.
    /// - 3: the process ended by a trap.
    /// - 4: a read failed.
    /// - 5: a write failed.
    /// - 7: the process waits for good.
    /// - 8: want of memory.
    /// - 9: the process ended at a full history.
    pub status: u8,
    /// There exactly where a process was run; with status 8 it may be missing.
    pub report: Option<RunReport>,
}

/// A call that ran no process.
pub fn without_report(status: u8) -> TopEnd
    ensures { result ≡ record { status = status; report = None } }
{
    TopEnd {
        status,
        report: None,
    }
}

/// Writes a text at the end of a call. Its status is the one that was found, or 5 where a write failed.
pub fn say<O: Sink>(out: &mut O, text: &[u8], status: u8) -> u8
    ensures { Said text.now status result (O.written out.old) (O.written out.new) (O.faults out.old) (O.faults out.new) }
{
    match write_all(out, text) {
        Ok(()) => status,
        Err(WriteEnd::Fault { .. }) => 5,
    }
}

// Writes the text of a refusal. The status is 2, 5 where a write failed, and 8 where memory ran out for the text.
fn say_refusal<O: Sink>(alloc: Global, source: &[u8], refusal: Refusal, out: &mut O) -> u8
    requires { length source.now ≤ 67108864 }
    ensures { Speaks (refusal_saying (printed source.now refusal)) result (O.written out.old) (O.written out.new) (O.faults out.old) (O.faults out.new) }
{
    match refusal_text(alloc, source, refusal) {
        Ok(text) => say(out, text.as_bytes(), 2),
        Err(NoMemory) => 8,
    }
}

/// Ends a call whose source is refused so.
pub fn refuse<O: Sink>(alloc: Global, source: &[u8], refusal: Refusal, out: &mut O) -> TopEnd
    requires { length source.now ≤ 67108864 }
    ensures report { result.report ≡ None }
    ensures said { Speaks (refusal_saying (printed source.now refusal)) result.status (O.written out.old) (O.written out.new) (O.faults out.old) (O.faults out.new) }
{
    without_report(say_refusal(alloc, source, refusal, out))
}
