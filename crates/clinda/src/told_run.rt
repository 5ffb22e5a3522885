//! Writes the text of a run.

ghost use Rattle.std.specs.Prelude.{◌^◌, ◌<◌, length};
ghost use Rattle.cl_value.specs.Views.{plain_run};
ghost use Rattle.cl_value.specs.Tickets.{by_ticket, acts_in};
ghost use Rattle.cl_value.specs.Text.{run_text};
ghost use Rattle.cl_text.specs.Tables.{texts_of};
ghost use Rattle.clinda.specs.Saying.{Speaks};

use crate::ending::say;
use crate::report_text::render;
use cl_ground::NoMemory;
use cl_outside::Sink;
use cl_value::RunReport;
use std::alloc::Global;

/// Writes the text of a run over these texts. The status is the run's, 5 where a write failed, and 8 where memory ran
/// out for the text: then nothing was written.
pub fn say_run<O: Sink>(alloc: Global, out: &mut O, report: &RunReport, texts: &[&[u8]]) -> u8
    requires { length (acts_in (plain_run report.now).histories) < 2 ^ 64 }
    ensures { Speaks (record { text = run_text (texts_of texts.now) (plain_run report.now).reports (length (by_ticket (plain_run report.now).histories)) report.now.status; status = report.now.status }) result
        (O.written out.old) (O.written out.new) (O.faults out.old) (O.faults out.new) }
{
    match render(alloc, report, texts) {
        Ok(text) => say(out, text.as_bytes(), report.status),
        Err(NoMemory) => 8,
    }
}
