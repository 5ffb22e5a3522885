//! The lines of reports and of the status.

ghost use Rattle.std.specs.Prelude.{◌≡◌, ◌++◌, codes, length, map};
ghost use Rattle.std.specs.Fmt.{decimal};
ghost use Rattle.cl_value.specs.Views.{plain_end, plain_report};
ghost use Rattle.cl_value.specs.Text.{tuple_text, trap_text, end_text, output_text, process_line, reports_text, status_line};
ghost use Rattle.cl_value.specs.Text as printed;
ghost use Rattle.cl_text.specs.Stages.{stage, Puts};
ghost use Rattle.cl_text.specs.Tables.{texts_of};

use cl_outside::Sink;
use cl_text::OutputBuffer;
use cl_value::{End, Report, Trap, Tuple};

// The name of a trap.
fn name_of(trap: Trap) -> &'static [u8]
    ensures { result.now ≡ trap_text trap }
{
    match trap {
        Trap::Overflow => b"Overflow",
        Trap::DivideByZero => b"DivideByZero",
        Trap::IndexRange => b"IndexRange",
        Trap::StepLimit => b"StepLimit",
        Trap::CallDepth => b"CallDepth",
        Trap::CellLimit => b"CellLimit",
        Trap::OutputLimit => b"OutputLimit",
        Trap::EvalDepth => b"EvalDepth",
    }
}

/// Puts words and a number.
pub(crate) fn put_numbered<O: Sink>(
    buffer: &mut OutputBuffer,
    out: &mut O,
    words: &[u8],
    number: u64,
)
    ensures { Puts (words.now ++ decimal number) (stage (O.written out.old) (O.faults out.old) buffer.old) (stage (O.written out.new) (O.faults out.new) buffer.new) }
{
    buffer.put(out, words);
    buffer.put_number(out, number);
}

// Puts words, and others behind them.
fn put_both<O: Sink>(buffer: &mut OutputBuffer, out: &mut O, words: &[u8], others: &[u8])
    ensures { Puts (words.now ++ others.now) (stage (O.written out.old) (O.faults out.old) buffer.old) (stage (O.written out.new) (O.faults out.new) buffer.new) }
{
    buffer.put(out, words);
    buffer.put(out, others);
}

// Puts the end of a process that ended with these values.
fn put_ended<O: Sink>(buffer: &mut OutputBuffer, out: &mut O, texts: &[&[u8]], values: &Tuple)
    ensures { Puts (codes "ended " ++ tuple_text (texts_of texts.now) values.now.items) (stage (O.written out.old) (O.faults out.old) buffer.old) (stage (O.written out.new) (O.faults out.new) buffer.new) }
{
    buffer.put(out, b"ended ");
    buffer.put_tuple(out, texts, values.fields());
}

// Puts the end of a process.
fn put_end<O: Sink>(buffer: &mut OutputBuffer, out: &mut O, texts: &[&[u8]], end: &End)
    ensures { Puts (end_text (texts_of texts.now) (plain_end end.now)) (stage (O.written out.old) (O.faults out.old) buffer.old) (stage (O.written out.new) (O.faults out.new) buffer.new) }
{
    match end {
        End::Ended(values) => put_ended(buffer, out, texts, values),
        End::Trapped(trap) => put_both(buffer, out, b"trapped ", name_of(*trap)),
        End::NoThread => buffer.put(out, b"refused thread"),
        End::HistoryFull(set) => put_numbered(buffer, out, b"full set ", u64::from(*set)),
        End::NoMemory => buffer.put(out, b"memory"),
        End::Stopped { by } => put_numbered(buffer, out, b"stopped by ", *by),
        End::Waiting => buffer.put(out, b"waiting"),
    }
}

// How many acts a process did.
fn acts_of(report: &Report) -> u64
    ensures { result ≡ length (plain_report report.now).acts }
{
    report.acts.len() as u64
}

// Puts the line of a process.
fn put_process_line<O: Sink>(
    buffer: &mut OutputBuffer,
    out: &mut O,
    texts: &[&[u8]],
    report: &Report,
)
    ensures { Puts (process_line (texts_of texts.now) (plain_report report.now)) (stage (O.written out.old) (O.faults out.old) buffer.old) (stage (O.written out.new) (O.faults out.new) buffer.new) }
{
    let acts = acts_of(report);
    put_numbered(buffer, out, b"process ", report.name);
    buffer.put(out, b" ");
    put_end(buffer, out, texts, &report.end);
    buffer.put(out, b" acts ");
    buffer.put_number(out, acts);
    buffer.put(out, b"\n");
}

// The last byte, or LF where there is none.
fn last_byte(bytes: &[u8]) -> u8
    ensures { result ≡ printed.last_byte bytes.now }
{
    match bytes.last() {
        Some(byte) => *byte,
        None => b'\n',
    }
}

// Puts what a process printed, with an LF where it doesn't end with one.
fn put_output<O: Sink>(buffer: &mut OutputBuffer, out: &mut O, output: &[u8])
    ensures { Puts (output_text output.now) (stage (O.written out.old) (O.faults out.old) buffer.old) (stage (O.written out.new) (O.faults out.new) buffer.new) }
{
    if last_byte(output) == b'\n' {
        buffer.put(out, output);
    } else {
        put_both(buffer, out, output, b"\n");
    }
}

// Puts the line of a process and what it printed.
fn put_report<O: Sink>(buffer: &mut OutputBuffer, out: &mut O, texts: &[&[u8]], report: &Report)
    ensures { Puts (process_line (texts_of texts.now) (plain_report report.now) ++ output_text (plain_report report.now).output) (stage (O.written out.old) (O.faults out.old) buffer.old) (stage (O.written out.new) (O.faults out.new) buffer.new) }
{
    put_process_line(buffer, out, texts, report);
    put_output(buffer, out, report.output.as_slice());
}

/// Puts the line of each process and what it printed.
pub(crate) fn put_reports<O: Sink>(
    buffer: &mut OutputBuffer,
    out: &mut O,
    texts: &[&[u8]],
    reports: &[Report],
)
    ensures { Puts (reports_text (texts_of texts.now) (map plain_report reports.now)) (stage (O.written out.old) (O.faults out.old) buffer.old) (stage (O.written out.new) (O.faults out.new) buffer.new) }
{
    for report in reports {
        put_report(buffer, out, texts, report);
    }
}

/// Puts the last line.
pub(crate) fn put_status_line<O: Sink>(
    buffer: &mut OutputBuffer,
    out: &mut O,
    status: u64,
    processes: u64,
    acts: u64,
)
    ensures { Puts (status_line status processes acts) (stage (O.written out.old) (O.faults out.old) buffer.old) (stage (O.written out.new) (O.faults out.new) buffer.new) }
{
    put_numbered(buffer, out, b"status ", status);
    buffer.put(out, b" processes ");
    buffer.put_number(out, processes);
    buffer.put(out, b" acts ");
    buffer.put_number(out, acts);
    buffer.put(out, b"\n");
}
