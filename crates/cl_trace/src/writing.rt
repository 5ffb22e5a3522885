use crate::reports::{put_reports, put_status_line};
use cl_ground::NoMemory;
use cl_outside::{Failed, Sink};
use cl_text::OutputBuffer;
use cl_value::{History, RunReport};
use std::alloc::Global;

// How many bytes are held back before they are written.
const HELD_BACK: usize = 8192;

/// Why not all of a text was written.
#[derive(Clone, Copy, Debug, PartialEq, Eq)]
pub enum TextEnd {
    /// A write failed. A front of the text was written.
    Fault,
    /// The allocator refused the room of a buffer. Nothing was written.
    NoMemory,
}

ghost use Rattle.std.specs.Prelude.{◌≡◌, ◌<◌, ◌^◌, OnOk, IfErr, map, length};
ghost use Rattle.cl_value.specs.Views.{plain_history, plain_run};
ghost use Rattle.cl_value.specs.Tickets.{acts_in, by_ticket};
ghost use Rattle.cl_value.specs.Text.{run_text};
ghost use Rattle.cl_text.specs.Stages.{stage, Puts, Wrote, Broke};
ghost use Rattle.cl_text.specs.Tables.{texts_of};
ghost use Rattle.cl_trace.specs.Endings.{IfFault, IfNoMemory};

// The number of acts in all histories.
fn acts_in_all(histories: &[History]) -> usize
    requires { length (acts_in (map plain_history histories.now)) < 2 ^ 64 }
    ensures { result ≡ length (by_ticket (map plain_history histories.now)) }
{
    let mut acts = 0;
    for history in histories {
        acts += history.acts.len();
    }
    acts
}

// Puts the whole text.
fn put_run<O: Sink>(buffer: &mut OutputBuffer, out: &mut O, report: &RunReport, texts: &[&[u8]])
    requires { length (acts_in (plain_run report.now).histories) < 2 ^ 64 }
    ensures { Puts (run_text (texts_of texts.now) (plain_run report.now).reports (length (by_ticket (plain_run report.now).histories)) report.now.status) (stage (O.written out.old) (O.faults out.old) buffer.old) (stage (O.written out.new) (O.faults out.new) buffer.new) }
{
    let reports = report.reports.as_slice();
    let acts = acts_in_all(report.histories.as_slice()) as u64;
    let processes = reports.len() as u64;
    put_reports(buffer, out, texts, reports);
    put_status_line(buffer, out, u64::from(report.status), processes, acts);
}

/// Writes the text of a run: the line of each process and what it printed, and the line of the status.
///
/// It takes memory for one buffer before its first byte, and none later.
pub fn write_text<O: Sink>(
    alloc: Global,
    out: &mut O,
    report: &RunReport,
    texts: &[&[u8]],
) -> Result<(), TextEnd>
    requires { length (acts_in (plain_run report.now).histories) < 2 ^ 64 }
    // All of the text was written, and no write failed.
    ensures ok { OnOk result (Wrote (run_text (texts_of texts.now) (plain_run report.now).reports (length (by_ticket (plain_run report.now).histories)) report.now.status) (O.written out.old) (O.written out.new) (O.faults out.old) (O.faults out.new)) }
    // `Fault`: a front of the text was written, and a write failed.
    ensures fault { IfErr result (λ end. IfFault end (Broke (run_text (texts_of texts.now) (plain_run report.now).reports (length (by_ticket (plain_run report.now).histories)) report.now.status) (O.written out.old) (O.written out.new) (O.faults out.old) (O.faults out.new))) }
    // `NoMemory`: nothing was written, and no write failed.
    ensures memory { IfErr result (λ end. IfNoMemory end ((O.written out.new ≡ O.written out.old) × (O.faults out.new ≡ O.faults out.old))) }
{
    let Ok(mut buffer) = OutputBuffer::with_room(alloc, HELD_BACK) else {
        return Err(TextEnd::NoMemory);
    };
    put_run(&mut buffer, out, report, texts);
    match buffer.finish(out) {
        Ok(()) => Ok(()),
        Err(Failed) => Err(TextEnd::Fault),
    }
}
