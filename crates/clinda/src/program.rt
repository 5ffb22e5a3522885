//! What the program makes of its arguments.

ghost use Rattle.std.specs.Prelude.{◌≡◌, drop, Option};
ghost use Rattle.std.specs.Process.{exit_status};
ghost use Rattle.cl_value.specs.Plain.{PlainRun};
ghost use Rattle.clinda.specs.Words.{words_in};
ghost use Rattle.clinda.specs.Doors.{Plain};
ghost use Rattle.clinda.specs.Answering.{seen, Answered};

use crate::top::clinda_plain;
use cl_outside::{Sink, Source};
use std::alloc::Global;
use std::process::ExitCode;

// The words behind the program's name.
fn words_behind(arguments: &[String]) -> &[String]
    ensures { result.now ≡ drop 1 arguments.now }
{
    match arguments {
        [] => arguments,
        [_, words @ ..] => words,
    }
}

/// Does the command that the words behind the program's name spell, and gives the status of that call of
/// `clinda_plain`.
pub fn run<I: Source, O: Sink>(
    alloc: Global,
    arguments: &[String],
    src: &mut I,
    out: &mut O,
) -> ExitCode
    ensures { (report : Option PlainRun) × Answered Plain (words_in (drop 1 arguments.now)) (exit_status result) report
        (seen I.left O.written I.faults O.faults src.old out.old)
        (seen I.left O.written I.faults O.faults src.new out.new) }
{
    let end = clinda_plain(alloc, words_behind(arguments), src, out);
    ExitCode::from(end.status)
}
