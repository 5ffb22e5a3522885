ghost use Rattle.std.specs.Prelude.{◌≡◌, ◌++◌, OnOk};
ghost use Rattle.cl_value.specs.Views.{plain_act};
ghost use Rattle.cl_text.specs.Stages.{Grown};
ghost use Rattle.cl_text.specs.Tables.{texts_of};
ghost use Rattle.cl_trace.specs.Lines.{act_line};

use crate::lines::put_act;
use cl_ground::NoMemory;
use cl_outside::Failed;
use cl_text::{Growing, OutputBuffer, Text};
use cl_value::Act;
use std::alloc::Global;
use std::mem;

// Writes the line of an act to a sink in memory.
fn write_line(alloc: Global, sink: &mut Growing, act: &Act, texts: &[&[u8]]) -> Result<(), NoMemory>
    ensures { OnOk result (sink.new.bytes ≡ sink.old.bytes ++ act_line (texts_of texts.now) (plain_act act.now)) }
{
    let mut buffer = OutputBuffer::without_room(alloc);
    put_act(&mut buffer, sink, texts, act);
    match buffer.finish(sink) {
        Ok(()) => Ok(()),
        Err(Failed) => Err(NoMemory),
    }
}

/// Puts the line of an act at the end of a text: its ticket, process and site, and what was done, LF included. A text
/// whose number lies beyond the table has no bytes. `NoMemory` comes where the allocator refused the line's room.
pub fn write_act(alloc: Global, act: &Act, texts: &[&[u8]], into: &mut Text) -> Result<(), NoMemory>
    // The line of the act was put at the end.
    ensures line { OnOk result (into.new ≡ into.old ++ act_line (texts_of texts.now) (plain_act act.now)) }
{
    let text = mem::replace(into, Text::new(alloc));
    let mut sink = Growing::of(text.into_items());
    let end = write_line(alloc, &mut sink, act, texts);
    *into = Text::of(sink.into_bytes());
    end
}
