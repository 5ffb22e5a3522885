ghost use Rattle.std.specs.Prelude.{◌≡◌, ◌≤◌, length, Some, option_map, IfSome, IfNone};
ghost use Rattle.cl_ground.specs.declared.limits.TheConstants as limits;
ghost use Rattle.cl_value.specs.Views.{plain_run};
ghost use Rattle.clinda.specs.Words.{words_in};
ghost use Rattle.clinda.specs.Doors.{Plain, is_served, Opens, OpensNone};
ghost use Rattle.clinda.specs.Inputs.{limit_of};
ghost use Rattle.clinda.specs.Making.{Ended};
ghost use Rattle.clinda.specs.Makers.{maker};
ghost use Rattle.clinda.specs.Answering.{seen, Done, Answered};
ghost use Rattle.clinda.specs.Top.{WordsClause, ReadClause, TooLargeClause, SourceClause, WrittenClause, RunClause, StuckClause, StatusesClause, HaltedClause, ReadFaultClause, LostClause, WriteFaultClause, MemoryClause, ReportClause};

use crate::ending::{TopEnd, say, without_report};
use crate::print::print_source;
use crate::refusal::{too_large, words_refused};
use crate::seq::run_source;
use crate::words::{Command, Verb, command_of};
use cl_ground::MOST_BYTES;
use cl_outside::{ReadEnd, Sink, Source, read_all};
use std::alloc::Global;

// The most bytes that a command reads.
fn most_bytes(verb: Verb) -> usize
    ensures limit { limit_of verb ≡ Some result }
    ensures few { result ≤ limits.MOST_BYTES }
{
    match verb {
        Verb::Seq | Verb::Print => MOST_BYTES,
    }
}

// Whether the call without threads serves a command.
fn is_served(verb: Verb) -> bool
    ensures { result ≡ is_served Plain verb }
{
    match verb {
        Verb::Seq | Verb::Print => true,
    }
}

// The command that the words spell, where the call without threads serves it.
fn served_command(words: &[String]) -> Option<Command>
    ensures opened { IfSome result (Opens Plain (words_in words.now)) }
    ensures none { IfNone result (OpensNone Plain (words_in words.now)) }
{
    let command = command_of(words)?;
    if !is_served(command.verb) {
        return None;
    }
    Some(command)
}

// Does a command with its source, and ends the call by it.
fn make<O: Sink>(alloc: Global, command: Command, source: &[u8], out: &mut O) -> TopEnd
    requires { length source.now ≤ limits.MOST_BYTES }
    ensures { Ended (maker command) source.now result.status (option_map plain_run result.report)
        (O.written out.old) (O.written out.new) (O.faults out.old) (O.faults out.new) }
{
    match command.verb {
        Verb::Seq => run_source(alloc, source, command.limits(), out),
        Verb::Print => print_source(alloc, source, out),
    }
}

// Reads a source, and does the command with it.
fn read_and_make<I: Source, O: Sink>(
    alloc: Global,
    command: Command,
    src: &mut I,
    out: &mut O,
) -> TopEnd
    ensures { Done command result.status (option_map plain_run result.report)
        (seen I.left O.written I.faults O.faults src.old out.old)
        (seen I.left O.written I.faults O.faults src.new out.new) }
{
    match read_all(alloc, src, most_bytes(command.verb)) {
        Ok(source) => make(alloc, command, source.as_slice(), out),
        Err(ReadEnd::Fault) => without_report(4),
        Err(ReadEnd::TooLarge) => without_report(say(out, too_large(), 2)),
        Err(ReadEnd::NoMemory) => without_report(8),
    }
}

// Does the command that the words spell.
fn answer<I: Source, O: Sink>(alloc: Global, words: &[String], src: &mut I, out: &mut O) -> TopEnd
    ensures { Answered Plain (words_in words.now) result.status (option_map plain_run result.report)
        (seen I.left O.written I.faults O.faults src.old out.old)
        (seen I.left O.written I.faults O.faults src.new out.new) }
{
    match served_command(words) {
        Some(command) => read_and_make(alloc, command, src, out),
        None => without_report(say(out, words_refused(), 1)),
    }
}

/// Does the command that the words spell: `seq SEED [steps=N]` reads a source to its end, runs it and writes the
/// text of its run, and `print` reads one and writes its canonical text. It returns for all words, sources and sinks.
///
/// The statuses are those of `TopEnd`. Want of memory may come at any place behind the words. A read that
/// fails comes before the source is judged, and a write that fails makes the status 5 in place of the one
/// found so.
pub fn clinda_plain<I: Source, O: Sink>(
    alloc: Global,
    words: &[String],
    src: &mut I,
    out: &mut O,
) -> TopEnd
    // All ways in which a call can go, whether or not the source and the sink tell their bytes.
    ensures answered { Answered Plain (words_in words.now) result.status (option_map plain_run result.report)
        (seen I.left O.written I.faults O.faults src.old out.old) (seen I.left O.written I.faults O.faults src.new out.new) }
    // Status 1 comes exactly where the words spell no command; then nothing is read.
    ensures words { WordsClause Plain (words_in words.now) result.status (option_map plain_run result.report)
        (seen I.left O.written I.faults O.faults src.old out.old) (seen I.left O.written I.faults O.faults src.new out.new) }
    // What was left was read to its end, or one byte more than the limit.
    ensures read { ReadClause Plain (words_in words.now) result.status (option_map plain_run result.report)
        (seen I.left O.written I.faults O.faults src.old out.old) (seen I.left O.written I.faults O.faults src.new out.new) }
    // A source of more bytes than the limit is refused.
    ensures too_large { TooLargeClause Plain (words_in words.now) result.status (option_map plain_run result.report)
        (seen I.left O.written I.faults O.faults src.old out.old) (seen I.left O.written I.faults O.faults src.new out.new) }
    // A source is refused exactly where the command takes it for no program, by one kind at one place.
    ensures source { SourceClause Plain (words_in words.now) result.status (option_map plain_run result.report)
        (seen I.left O.written I.faults O.faults src.old out.old) (seen I.left O.written I.faults O.faults src.new out.new) }
    // A program gives the text and the status that its command has for it.
    ensures written { WrittenClause Plain (words_in words.now) result.status (option_map plain_run result.report)
        (seen I.left O.written I.faults O.faults src.old out.old) (seen I.left O.written I.faults O.faults src.new out.new) }
    // The report is that of a good run of the program that is the source.
    ensures run { RunClause Plain (words_in words.now) (option_map plain_run result.report) (seen I.left O.written I.faults O.faults src.old out.old) }
    // Status 7 comes exactly where the run is stuck and no process failed.
    ensures stuck { StuckClause Plain (words_in words.now) result.status (option_map plain_run result.report) (seen I.left O.written I.faults O.faults src.old out.old) }
    // Each command has its list of statuses.
    ensures statuses { StatusesClause Plain (words_in words.now) result.status }
    // Status 3, 6 and 9 come exactly where a process halted the run by a trap, want of a thread or a full history.
    ensures halted { HaltedClause result.status (option_map plain_run result.report) }
    // Status 4 comes only where a read failed; then nothing is written.
    ensures read_fault { ReadFaultClause result.status (option_map plain_run result.report)
        (seen I.left O.written I.faults O.faults src.old out.old) (seen I.left O.written I.faults O.faults src.new out.new) }
    // Where a read failed, and where memory ran out for the source, no more was read than the limit.
    ensures lost { LostClause Plain (words_in words.now) result.status (option_map plain_run result.report)
        (seen I.left O.written I.faults O.faults src.old out.old) (seen I.left O.written I.faults O.faults src.new out.new) }
    // Status 5 comes only where a write failed.
    ensures write_fault { WriteFaultClause result.status
        (seen I.left O.written I.faults O.faults src.old out.old) (seen I.left O.written I.faults O.faults src.new out.new) }
    // At status 5 what was written is a front of the text, at status 8 the whole text or nothing.
    ensures memory { MemoryClause Plain (words_in words.now) result.status (option_map plain_run result.report)
        (seen I.left O.written I.faults O.faults src.old out.old) (seen I.left O.written I.faults O.faults src.new out.new) }
    // A report is there exactly where the command runs a source and the source is a program.
    ensures report { ReportClause Plain (words_in words.now) result.status (option_map plain_run result.report)
        (seen I.left O.written I.faults O.faults src.old out.old) (seen I.left O.written I.faults O.faults src.new out.new) }
{
    answer(alloc, words, src, out)
}
