ghost use Rattle.std.specs.Prelude.{◌≡◌, ◌+◌, ◌^◌, ◌<◌, ◌++◌, OnOk, IfOk, map, length};
ghost use Rattle.cl_value.specs.Views.{plain_end, plain_report, plain_history, plain_run};
ghost use Rattle.cl_value.specs.Tickets.{by_ticket, acts_in};
ghost use Rattle.cl_value.specs.Text.{trap_text, output_text, process_line, reports_text, status_line, run_text};
ghost use Rattle.cl_value.specs.Text as printed;
ghost use Rattle.cl_text.specs.Tables.{texts_of};

use cl_ground::NoMemory;
use cl_text::Text;
use cl_value::{End, History, Report, RunReport, Trap};
use std::alloc::Global;

// The name of a trap.
fn name_of(trap: Trap) -> &'static [u8]
    ensures { result.now ≡ trap_text trap }
{
    match trap {
        Trap::Overflow => b"Overflow",
        Trap::DivideByZero => b"DivideByZero",
        Trap::IndexRange => b"IndexRange",
        Trap::StepLimit => b"StepLimit",
        Trap::CallDepth => b"CallDepth",
        Trap::CellLimit => b"CellLimit",
        Trap::OutputLimit => b"OutputLimit",
        Trap::EvalDepth => b"EvalDepth",
    }
}

// Puts the end of a process at the end.
fn add_end(alloc: Global, text: &mut Text, texts: &[&[u8]], end: &End) -> Result<(), NoMemory>
    ensures ok { OnOk result (text.new ≡ text.old ++ printed.end_text (texts_of texts.now) (plain_end end.now)) }
{
    match end {
        End::Ended(values) => {
            text.add(b"ended ")?;
            text.add_tuple(alloc, texts, values.fields())
        }
        End::Trapped(trap) => {
            text.add(b"trapped ")?;
            text.add(name_of(*trap))
        }
        End::NoThread => text.add(b"refused thread"),
        End::HistoryFull(set) => {
            text.add(b"full set ")?;
            text.add_number(u64::from(*set))
        }
        End::NoMemory => text.add(b"memory"),
        End::Stopped { by } => {
            text.add(b"stopped by ")?;
            text.add_number(*by)
        }
        End::Waiting => text.add(b"waiting"),
    }
}

// Puts the line of a process at the end.
fn add_process_line(
    alloc: Global,
    text: &mut Text,
    texts: &[&[u8]],
    report: &Report,
) -> Result<(), NoMemory>
    ensures ok { OnOk result (text.new ≡ text.old ++ process_line (texts_of texts.now) (plain_report report.now)) }
{
    text.add(b"process ")?;
    text.add_number(report.name)?;
    text.add(b" ")?;
    add_end(alloc, text, texts, &report.end)?;
    text.add(b" acts ")?;
    text.add_number(report.acts.len() as u64)?;
    text.add(b"\n")
}

// Puts what a process printed at the end, with an LF where it doesn't end with one.
fn add_output(text: &mut Text, output: &[u8]) -> Result<(), NoMemory>
    ensures ok { OnOk result (text.new ≡ text.old ++ output_text output.now) }
{
    text.add(output)?;
    if last_byte(output) == b'\n' {
        return Ok(());
    }
    text.add(b"\n")
}

// The last byte, or LF where there is none.
fn last_byte(bytes: &[u8]) -> u8
    ensures { result ≡ printed.last_byte bytes.now }
{
    match bytes.last() {
        Some(byte) => *byte,
        None => b'\n',
    }
}

// Puts the line of each process and what it printed at the end.
fn add_reports(
    alloc: Global,
    text: &mut Text,
    texts: &[&[u8]],
    reports: &[Report],
) -> Result<(), NoMemory>
    ensures ok { OnOk result (text.new ≡ text.old ++ reports_text (texts_of texts.now) (map plain_report reports.now)) }
{
    for report in reports {
        add_process_line(alloc, text, texts, report)?;
        add_output(text, report.output.as_slice())?;
    }
    Ok(())
}

// Puts the last line at the end.
fn add_status_line(
    text: &mut Text,
    status: u8,
    processes: usize,
    acts: usize,
) -> Result<(), NoMemory>
    ensures ok { OnOk result (text.new ≡ text.old ++ status_line status processes acts) }
{
    text.add(b"status ")?;
    text.add_number(u64::from(status))?;
    text.add(b" processes ")?;
    text.add_number(processes as u64)?;
    text.add(b" acts ")?;
    text.add_number(acts as u64)?;
    text.add(b"\n")
}

// The number of acts in all histories.
fn acts_in_all(histories: &[History]) -> usize
    requires { length (acts_in (map plain_history histories.now)) < 2 ^ 64 }
    ensures { result ≡ length (by_ticket (map plain_history histories.now)) }
{
    let mut acts = 0;
    for history in histories {
        acts += history.acts.len();
    }
    acts
}

/// The text of a run: the line of each process and what it printed, and the line of the status.
pub fn render(alloc: Global, report: &RunReport, texts: &[&[u8]]) -> Result<Text, NoMemory>
    requires { length (acts_in (plain_run report.now).histories) < 2 ^ 64 }
    ensures { IfOk result (λ text. text ≡ run_text (texts_of texts.now) (plain_run report.now).reports (length (by_ticket (plain_run report.now).histories)) report.now.status) }
{
    let mut text = Text::new(alloc);
    let reports = report.reports.as_slice();
    add_reports(alloc, &mut text, texts, reports)?;
    let acts = acts_in_all(report.histories.as_slice());
    add_status_line(&mut text, report.status, reports.len(), acts)?;
    Ok(text)
}
