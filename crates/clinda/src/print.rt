//! The command `print`: the canonical text of a source.

ghost use Rattle.std.specs.Prelude.{◌≤◌, length, option_map};
ghost use Rattle.cl_ground.specs.declared.limits.TheConstants.{MOST_BYTES};
ghost use Rattle.cl_value.specs.Views.{plain_run};
ghost use Rattle.clinda.specs.Saying.{Speaks};
ghost use Rattle.clinda.specs.Making.{Ended};
ghost use Rattle.clinda.specs.Printing.{text_saying, print_maker};

use crate::ending::{TopEnd, refuse, say, without_report};
use cl_ast::Unit;
use cl_front::{FrontEnd, read_source};
use cl_ground::NoMemory;
use cl_outside::Sink;
use std::alloc::Global;

// Writes the canonical text of a tree. The status is 0, 5 where a write failed, and 8 where memory ran out for the text.
fn say_tree<O: Sink>(alloc: Global, unit: &Unit, out: &mut O) -> u8
    ensures { Speaks (text_saying unit.now.items) result (O.written out.old) (O.written out.new) (O.faults out.old) (O.faults out.new) }
{
    match cl_print::print(alloc, unit) {
        Ok(bytes) => say(out, bytes.as_slice(), 0),
        Err(NoMemory) => 8,
    }
}

/// Writes the canonical text of a source, or refuses it.
pub fn print_source<O: Sink>(alloc: Global, source: &[u8], out: &mut O) -> TopEnd
    requires { length source.now ≤ MOST_BYTES }
    ensures { Ended print_maker source.now result.status (option_map plain_run result.report)
        (O.written out.old) (O.written out.new) (O.faults out.old) (O.faults out.new) }
{
    match read_source(alloc, source) {
        Ok(unit) => without_report(say_tree(alloc, &unit, out)),
        Err(FrontEnd::Refused(refusal)) => refuse(alloc, source, refusal, out),
        Err(FrontEnd::NoMemory) => without_report(8),
    }
}
