//! The line of an act.

ghost use Rattle.std.specs.Prelude.{◌≡◌, ◌++◌, codes, map};
ghost use Rattle.std.specs.Fmt.{decimal};
ghost use Rattle.cl_value.specs.LiveViews.{plain_part, plain_live};
ghost use Rattle.cl_value.specs.Views.{plain_what, plain_act};
ghost use Rattle.cl_value.specs.Text.{tuple_text};
ghost use Rattle.cl_text.specs.Stages.{stage, Puts};
ghost use Rattle.cl_text.specs.Tables.{texts_of};
ghost use Rattle.cl_trace.specs.Lines.{formal_text, slot_text, more_slots_text, slots_text, template_text, part_text, more_parts_text, parts_text, live_text, what_text, act_line};

use crate::reports::put_numbered;
use cl_outside::Sink;
use cl_text::OutputBuffer;
use cl_value::{Act, FieldType, Live, LiveField, Slot, Template, Tuple, Value, What};

// A formal of a type, as it is printed.
fn formal_of(field_type: FieldType) -> &'static [u8]
    ensures { result.now ≡ formal_text field_type }
{
    match field_type {
        FieldType::Int => b"?int",
        FieldType::Long => b"?long",
        FieldType::Char => b"?char",
        FieldType::Text => b"?text",
    }
}

// Puts a field of a template.
fn put_slot<O: Sink>(buffer: &mut OutputBuffer, out: &mut O, texts: &[&[u8]], slot: &Slot)
    ensures { Puts (slot_text (texts_of texts.now) slot.now) (stage (O.written out.old) (O.faults out.old) buffer.old) (stage (O.written out.new) (O.faults out.new) buffer.new) }
{
    match slot {
        Slot::Actual(value) => buffer.put_value(out, texts, value),
        Slot::Formal(field_type) => buffer.put(out, formal_of(*field_type)),
    }
}

// Puts fields of a template, each behind a comma.
fn put_more_slots<O: Sink>(buffer: &mut OutputBuffer, out: &mut O, texts: &[&[u8]], slots: &[Slot])
    ensures { Puts (more_slots_text (texts_of texts.now) slots.now) (stage (O.written out.old) (O.faults out.old) buffer.old) (stage (O.written out.new) (O.faults out.new) buffer.new) }
{
    for slot in slots {
        buffer.put(out, b",");
        put_slot(buffer, out, texts, slot);
    }
}

// Puts fields of a template, joined by commas.
fn put_slots<O: Sink>(buffer: &mut OutputBuffer, out: &mut O, texts: &[&[u8]], slots: &[Slot])
    ensures { Puts (slots_text (texts_of texts.now) slots.now) (stage (O.written out.old) (O.faults out.old) buffer.old) (stage (O.written out.new) (O.faults out.new) buffer.new) }
{
    if let [first, rest @ ..] = slots {
        put_slot(buffer, out, texts, first);
        put_more_slots(buffer, out, texts, rest);
    }
}

// Puts a template.
fn put_template<O: Sink>(
    buffer: &mut OutputBuffer,
    out: &mut O,
    texts: &[&[u8]],
    template: &Template,
)
    ensures { Puts (template_text (texts_of texts.now) template.now.items) (stage (O.written out.old) (O.faults out.old) buffer.old) (stage (O.written out.new) (O.faults out.new) buffer.new) }
{
    let slots = template.slots();
    buffer.put(out, b"(");
    put_slots(buffer, out, texts, slots);
    buffer.put(out, b")");
}

// Puts a call that a new process computes.
fn put_call<O: Sink>(
    buffer: &mut OutputBuffer,
    out: &mut O,
    texts: &[&[u8]],
    function: u32,
    arguments: &[Value],
)
    ensures { Puts (codes "!" ++ decimal function ++ tuple_text (texts_of texts.now) arguments.now) (stage (O.written out.old) (O.faults out.old) buffer.old) (stage (O.written out.new) (O.faults out.new) buffer.new) }
{
    put_numbered(buffer, out, b"!", u64::from(function));
    buffer.put_tuple(out, texts, arguments);
}

// Puts a field of a live tuple.
fn put_part<O: Sink>(buffer: &mut OutputBuffer, out: &mut O, texts: &[&[u8]], part: &LiveField)
    ensures { Puts (part_text (texts_of texts.now) (plain_part part.now)) (stage (O.written out.old) (O.faults out.old) buffer.old) (stage (O.written out.new) (O.faults out.new) buffer.new) }
{
    match part {
        LiveField::Ready(value) => buffer.put_value(out, texts, value),
        LiveField::Call {
            function,
            arguments,
            gives: _,
        } => put_call(buffer, out, texts, *function, arguments.as_slice()),
    }
}

// Puts a field of a live tuple behind a comma.
fn put_next_part<O: Sink>(buffer: &mut OutputBuffer, out: &mut O, texts: &[&[u8]], part: &LiveField)
    ensures { Puts (codes "," ++ part_text (texts_of texts.now) (plain_part part.now)) (stage (O.written out.old) (O.faults out.old) buffer.old) (stage (O.written out.new) (O.faults out.new) buffer.new) }
{
    buffer.put(out, b",");
    put_part(buffer, out, texts, part);
}

// Puts fields of a live tuple, each behind a comma.
fn put_more_parts<O: Sink>(
    buffer: &mut OutputBuffer,
    out: &mut O,
    texts: &[&[u8]],
    parts: &[LiveField],
)
    ensures { Puts (more_parts_text (texts_of texts.now) (map plain_part parts.now)) (stage (O.written out.old) (O.faults out.old) buffer.old) (stage (O.written out.new) (O.faults out.new) buffer.new) }
{
    for part in parts {
        put_next_part(buffer, out, texts, part);
    }
}

// Puts fields of a live tuple, joined by commas.
fn put_parts<O: Sink>(buffer: &mut OutputBuffer, out: &mut O, texts: &[&[u8]], parts: &[LiveField])
    ensures { Puts (parts_text (texts_of texts.now) (map plain_part parts.now)) (stage (O.written out.old) (O.faults out.old) buffer.old) (stage (O.written out.new) (O.faults out.new) buffer.new) }
{
    if let [first, rest @ ..] = parts {
        put_part(buffer, out, texts, first);
        put_more_parts(buffer, out, texts, rest);
    }
}

// Puts a live tuple.
fn put_live<O: Sink>(buffer: &mut OutputBuffer, out: &mut O, texts: &[&[u8]], live: &Live)
    ensures { Puts (live_text (texts_of texts.now) (plain_live live.now)) (stage (O.written out.old) (O.faults out.old) buffer.old) (stage (O.written out.new) (O.faults out.new) buffer.new) }
{
    let parts = live.fields();
    buffer.put(out, b"(");
    put_parts(buffer, out, texts, parts);
    buffer.put(out, b")");
}

// Puts the word of an operation and a tuple.
fn put_with_tuple<O: Sink>(
    buffer: &mut OutputBuffer,
    out: &mut O,
    texts: &[&[u8]],
    word: &[u8],
    tuple: &Tuple,
)
    ensures { Puts (word.now ++ tuple_text (texts_of texts.now) tuple.now.items) (stage (O.written out.old) (O.faults out.old) buffer.old) (stage (O.written out.new) (O.faults out.new) buffer.new) }
{
    let values = tuple.fields();
    buffer.put(out, word);
    buffer.put_tuple(out, texts, values);
}

// Puts the word of an operation and a template.
fn put_with_template<O: Sink>(
    buffer: &mut OutputBuffer,
    out: &mut O,
    texts: &[&[u8]],
    word: &[u8],
    template: &Template,
)
    ensures { Puts (word.now ++ template_text (texts_of texts.now) template.now.items) (stage (O.written out.old) (O.faults out.old) buffer.old) (stage (O.written out.new) (O.faults out.new) buffer.new) }
{
    buffer.put(out, word);
    put_template(buffer, out, texts, template);
}

// Puts the word of an operation, a template and a tuple.
fn put_with_both<O: Sink>(
    buffer: &mut OutputBuffer,
    out: &mut O,
    texts: &[&[u8]],
    word: &[u8],
    template: &Template,
    tuple: &Tuple,
)
    ensures { Puts (word.now ++ template_text (texts_of texts.now) template.now.items ++ codes " " ++ tuple_text (texts_of texts.now) tuple.now.items) (stage (O.written out.old) (O.faults out.old) buffer.old) (stage (O.written out.new) (O.faults out.new) buffer.new) }
{
    let values = tuple.fields();
    put_with_template(buffer, out, texts, word, template);
    buffer.put(out, b" ");
    buffer.put_tuple(out, texts, values);
}

// Puts the word of an operation and a live tuple.
fn put_with_live<O: Sink>(
    buffer: &mut OutputBuffer,
    out: &mut O,
    texts: &[&[u8]],
    word: &[u8],
    live: &Live,
)
    ensures { Puts (word.now ++ live_text (texts_of texts.now) (plain_live live.now)) (stage (O.written out.old) (O.faults out.old) buffer.old) (stage (O.written out.new) (O.faults out.new) buffer.new) }
{
    buffer.put(out, word);
    put_live(buffer, out, texts, live);
}

// Puts what was done.
fn put_what<O: Sink>(buffer: &mut OutputBuffer, out: &mut O, texts: &[&[u8]], what: &What)
    ensures { Puts (what_text (texts_of texts.now) (plain_what what.now)) (stage (O.written out.old) (O.faults out.old) buffer.old) (stage (O.written out.new) (O.faults out.new) buffer.new) }
{
    match what {
        What::Out(tuple) => put_with_tuple(buffer, out, texts, b"out ", tuple),
        What::In(template, tuple) => put_with_both(buffer, out, texts, b"in ", template, tuple),
        What::Rd(template, tuple) => put_with_both(buffer, out, texts, b"rd ", template, tuple),
        What::InpHit(template, tuple) => put_with_both(
            buffer,
            out,
            texts,
            b"inp-hit ",
            template,
            tuple,
        ),
        What::InpMiss(template) => put_with_template(buffer, out, texts, b"inp-miss ", template),
        What::RdpHit(template, tuple) => put_with_both(
            buffer,
            out,
            texts,
            b"rdp-hit ",
            template,
            tuple,
        ),
        What::RdpMiss(template) => put_with_template(buffer, out, texts, b"rdp-miss ", template),
        What::Eval(live) => put_with_live(buffer, out, texts, b"eval ", live),
        What::Land(tuple) => put_with_tuple(buffer, out, texts, b"land ", tuple),
    }
}

/// Puts the line of an act.
pub(crate) fn put_act<O: Sink>(buffer: &mut OutputBuffer, out: &mut O, texts: &[&[u8]], act: &Act)
    ensures { Puts (act_line (texts_of texts.now) (plain_act act.now)) (stage (O.written out.old) (O.faults out.old) buffer.old) (stage (O.written out.new) (O.faults out.new) buffer.new) }
{
    buffer.put_number(out, act.ticket);
    buffer.put(out, b" ");
    buffer.put_number(out, act.proc);
    buffer.put(out, b" ");
    buffer.put_number(out, u64::from(act.site));
    buffer.put(out, b" ");
    put_what(buffer, out, texts, &act.what);
    buffer.put(out, b"\n");
}
