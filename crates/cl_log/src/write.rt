//! Values, slots and fields as bytes. Nothing here takes memory: room was made before.

ghost use Rattle.std.specs.Prelude.{◌≡◌, ◌+◌, ◌*◌, ◌<◌, ◌≤◌, ◌++◌, map, length, IsTrue, vec_len, vec_capacity};
ghost use Rattle.std.specs.List.{AllByRecursion};
ghost use Rattle.cl_value.specs.LiveViews.{plain_part};
ghost use Rattle.cl_value.specs.Matching.{matches, type_of};
ghost use Rattle.cl_log.specs.Values.{type_code, content, marked, values_of, mark_of, hits_of, slot_of, slots_of, part_of, parts_of, HasBytes};
ghost use Rattle.cl_log.specs.Spelling.{SlotHasBytes, PartHasBytes};
ghost use Rattle.cl_log.specs.Space.{part_room, parts_room};
ghost use Rattle.cl_log.specs.declared.number.TheConstants.{NUMBER_ROOM};
ghost use Rattle.cl_log.specs.declared.write.TheConstants.{VALUE_ROOM};

use crate::number::{NUMBER_ROOM, put_number, unsigned_int, unsigned_long};
use cl_value::{FieldType, LiveField, Slot, Value};

/// The most bytes that a field takes, but for a call.
pub const VALUE_ROOM: usize = 11;

// Added to the byte of a type: a formal, or a call.
const MARK: u8 = 128;

fn code(field_type: FieldType) -> u8
    ensures value { result ≡ type_code field_type }
    ensures few { result < 4 }
{
    match field_type {
        FieldType::Int => 0,
        FieldType::Long => 1,
        FieldType::Char => 2,
        FieldType::Text => 3,
    }
}

// A value without its type.
fn put_content(out: &mut Vec<u8>, value: &Value)
    requires { vec_len out.old + NUMBER_ROOM ≤ vec_capacity out.old }
    ensures bytes { out.new.items ≡ out.old.items ++ content value.now }
    ensures fits { HasBytes value.now }
    ensures room { vec_len out.new ≤ vec_len out.old + NUMBER_ROOM }
    ensures capacity { vec_capacity out.new ≡ vec_capacity out.old }
{
    match *value {
        Value::Int(n) => put_number(out, u64::from(unsigned_int(n))),
        Value::Long(n) => put_number(out, unsigned_long(n)),
        Value::Char(n) => put_number(out, u64::from(n)),
        Value::Text(n) => put_number(out, u64::from(n)),
    }
}

// A value behind the byte of its type.
#[tactic(auto, unfolding(crate::specs::Values::marked))]
fn put_marked(out: &mut Vec<u8>, mark: u8, value: &Value)
    requires mark { mark ≤ 128 }
    requires space { vec_len out.old + VALUE_ROOM ≤ vec_capacity out.old }
    ensures bytes { out.new.items ≡ out.old.items ++ marked mark value.now }
    ensures fits { HasBytes value.now }
    ensures room { vec_len out.new ≤ vec_len out.old + VALUE_ROOM }
    ensures capacity { vec_capacity out.new ≡ vec_capacity out.old }
{
    out.push_reserved(mark + code(value.type_of()));
    put_content(out, value);
}

/// Puts values last. It takes no memory.
#[tactic(auto, unfolding(crate::specs::Values::values_of))]
pub fn put_values(out: &mut Vec<u8>, values: &[Value])
    requires { vec_len out.old + VALUE_ROOM * length values.now ≤ vec_capacity out.old }
    ensures bytes { out.new.items ≡ out.old.items ++ values_of values.now }
    ensures fit { AllByRecursion HasBytes values.now }
    ensures room { vec_len out.new ≤ vec_len out.old + VALUE_ROOM * length values.now }
    ensures capacity { vec_capacity out.new ≡ vec_capacity out.old }
{
    match values {
        [] => {}
        [value, rest @ ..] => {
            put_marked(out, 0, value);
            put_values(out, rest);
        }
    }
}

fn mark(slot: Slot) -> u8
    ensures value { result ≡ mark_of slot }
    ensures few { result ≤ 128 }
{
    match slot {
        Slot::Actual(_) => 0,
        Slot::Formal(_) => MARK,
    }
}

/// Puts the values of a tuple last, those of the template's formals marked. It takes no memory.
#[tactic(auto, unfolding(crate::specs::Values::hits_of))]
pub fn put_hits(out: &mut Vec<u8>, slots: &[Slot], values: &[Value])
    requires matching { IsTrue (matches slots.now values.now) }
    requires space { vec_len out.old + VALUE_ROOM * length values.now ≤ vec_capacity out.old }
    ensures bytes { out.new.items ≡ out.old.items ++ hits_of slots.now values.now }
    ensures fit { AllByRecursion HasBytes values.now }
    ensures room { vec_len out.new ≤ vec_len out.old + VALUE_ROOM * length values.now }
    ensures capacity { vec_capacity out.new ≡ vec_capacity out.old }
{
    match slots {
        [] => {}
        [slot, slots @ ..] => match values {
            [] => {}
            [value, values @ ..] => {
                put_marked(out, mark(*slot), value);
                put_hits(out, slots, values);
            }
        },
    }
}

#[tactic(auto, unfolding(crate::specs::Values::slot_of))]
fn put_slot(out: &mut Vec<u8>, slot: &Slot)
    requires { vec_len out.old + VALUE_ROOM ≤ vec_capacity out.old }
    ensures bytes { out.new.items ≡ out.old.items ++ slot_of slot.now }
    ensures fits { SlotHasBytes slot.now }
    ensures room { vec_len out.new ≤ vec_len out.old + VALUE_ROOM }
    ensures capacity { vec_capacity out.new ≡ vec_capacity out.old }
{
    match slot {
        Slot::Actual(value) => put_marked(out, 0, value),
        Slot::Formal(field_type) => out.push_reserved(MARK + code(*field_type)),
    }
}

/// Puts the slots of a template that missed last. It takes no memory.
#[tactic(auto, unfolding(crate::specs::Values::slots_of))]
pub fn put_slots(out: &mut Vec<u8>, slots: &[Slot])
    requires { vec_len out.old + VALUE_ROOM * length slots.now ≤ vec_capacity out.old }
    ensures bytes { out.new.items ≡ out.old.items ++ slots_of slots.now }
    ensures fit { AllByRecursion SlotHasBytes slots.now }
    ensures room { vec_len out.new ≤ vec_len out.old + VALUE_ROOM * length slots.now }
    ensures capacity { vec_capacity out.new ≡ vec_capacity out.old }
{
    match slots {
        [] => {}
        [slot, rest @ ..] => {
            put_slot(out, slot);
            put_slots(out, rest);
        }
    }
}

#[tactic(auto, unfolding(crate::specs::Values::part_of))]
fn put_part(out: &mut Vec<u8>, part: &LiveField)
    requires { vec_len out.old + part_room (plain_part part.now) ≤ vec_capacity out.old }
    ensures bytes { out.new.items ≡ out.old.items ++ part_of (plain_part part.now) }
    ensures fits { PartHasBytes (plain_part part.now) }
    ensures room { vec_len out.new ≤ vec_len out.old + part_room (plain_part part.now) }
    ensures capacity { vec_capacity out.new ≡ vec_capacity out.old }
{
    match part {
        LiveField::Ready(value) => put_marked(out, 0, value),
        LiveField::Call {
            function,
            arguments,
            gives,
        } => {
            out.push_reserved(MARK + code(*gives));
            put_number(out, u64::from(*function));
            put_number(out, arguments.len() as u64);
            put_values(out, arguments.as_slice());
        }
    }
}

/// Puts the fields of a live tuple last. It takes no memory.
#[tactic(auto, unfolding(crate::specs::Values::parts_of))]
pub fn put_parts(out: &mut Vec<u8>, parts: &[LiveField])
    requires { vec_len out.old + parts_room (map plain_part parts.now) ≤ vec_capacity out.old }
    ensures bytes { out.new.items ≡ out.old.items ++ parts_of (map plain_part parts.now) }
    ensures fit { AllByRecursion PartHasBytes (map plain_part parts.now) }
    ensures room { vec_len out.new ≤ vec_len out.old + parts_room (map plain_part parts.now) }
    ensures capacity { vec_capacity out.new ≡ vec_capacity out.old }
{
    match parts {
        [] => {}
        [part, rest @ ..] => {
            put_part(out, part);
            put_parts(out, rest);
        }
    }
}
