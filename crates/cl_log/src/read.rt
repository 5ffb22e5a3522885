//! Values, slots and fields from bytes. Nothing here takes memory: room was made before.

ghost use Rattle.std.specs.Prelude.{◌≡◌, ◌+◌, ◌≤◌, ◌++◌, length};
ghost use Rattle.cl_ground.specs.Room.{capacity_of};
ghost use Rattle.cl_log.specs.Values.{type_at, content_at, value_at, values_at, slot_at, hit_at, hits_at, miss_at, misses_at};
ghost use Rattle.cl_log.specs.Values as spec;
ghost use Rattle.cl_log.specs.Seen.{call_seen, part_seen, parts_seen};

use crate::number::{number_at, signed_int, signed_long};
use crate::part::SeenPart;
use cl_ground::Items;
use cl_value::{FieldType, Slot, Value};

// The type of a byte that tells one, marked or not.
fn type_at(byte: u8) -> FieldType
    ensures { result ≡ type_at byte }
{
    match byte % 128 {
        0 => FieldType::Int,
        1 => FieldType::Long,
        2 => FieldType::Char,
        _ => FieldType::Text,
    }
}

// The value of a type with which bytes begin, and the bytes behind it.
fn content_at(of: FieldType, bytes: &[u8]) -> (Value, &[u8])
    ensures { (result.0, result.1.now) ≡ spec.content_at of bytes.now }
{
    let (number, rest) = number_at(bytes);
    let value = match of {
        FieldType::Int => Value::Int(signed_int((number % 4_294_967_296) as u32)),
        FieldType::Long => Value::Long(signed_long(number)),
        FieldType::Char => Value::Char((number % 256) as u8),
        FieldType::Text => Value::Text((number % 4_294_967_296) as u32),
    };
    (value, rest)
}

// The value with which bytes begin, and the bytes behind it.
#[tactic(auto, unfolding(crate::specs::Values::value_at))]
fn value_at(bytes: &[u8]) -> (Value, &[u8])
    ensures { (result.0, result.1.now) ≡ spec.value_at bytes.now }
{
    match bytes {
        [] => content_at(FieldType::Text, bytes),
        [byte, rest @ ..] => content_at(type_at(*byte), rest),
    }
}

/// Reads so many values, and gives the bytes behind them. It takes no memory.
#[tactic(auto, unfolding(crate::specs::Values::values_at))]
pub fn read_values<'a>(values: &mut Items<Value>, count: usize, bytes: &'a [u8]) -> &'a [u8]
    requires { count ≤ values.old.spare }
    ensures values { values.new.items ≡ values.old.items ++ (values_at count bytes.now).0 }
    ensures rest { result.now ≡ (values_at count bytes.now).1 }
    ensures spare { values.new.spare + count ≡ values.old.spare }
    ensures room { capacity_of values.new ≡ capacity_of values.old }
{
    if count == 0 {
        return bytes;
    }
    let (value, rest) = value_at(bytes);
    values.push(value);
    read_values(values, count - 1, rest)
}

// The slot before a value: a formal where the byte is marked.
fn slot_at(byte: u8, value: &Value) -> Slot
    ensures { result ≡ slot_at byte value.now }
{
    if byte < 128 {
        Slot::Actual(*value)
    } else {
        Slot::Formal(value.type_of())
    }
}

// A slot with its value, and the bytes behind them.
#[tactic(auto, unfolding(crate::specs::Values::hit_at))]
fn hit_at(bytes: &[u8]) -> (Slot, Value, &[u8])
    ensures { (result.0, result.1, result.2.now) ≡ spec.hit_at bytes.now }
{
    match bytes {
        [] => {
            let (value, rest) = content_at(FieldType::Text, bytes);
            (Slot::Actual(value), value, rest)
        }
        [byte, rest @ ..] => {
            let (value, rest) = content_at(type_at(*byte), rest);
            (slot_at(*byte, &value), value, rest)
        }
    }
}

/// Reads so many slots with their values, and gives the bytes behind them. It takes no memory.
#[tactic(auto, unfolding(crate::specs::Values::hits_at))]
pub fn read_hits<'a>(
    slots: &mut Items<Slot>,
    values: &mut Items<Value>,
    count: usize,
    bytes: &'a [u8],
) -> &'a [u8]
    requires slots { count ≤ slots.old.spare }
    requires values { count ≤ values.old.spare }
    ensures slots { slots.new.items ≡ slots.old.items ++ (hits_at count bytes.now).0 }
    ensures values { values.new.items ≡ values.old.items ++ (hits_at count bytes.now).1 }
    ensures rest { result.now ≡ (hits_at count bytes.now).2 }
    ensures spare_slots { slots.new.spare + count ≡ slots.old.spare }
    ensures spare_values { values.new.spare + count ≡ values.old.spare }
    ensures room_slots { capacity_of slots.new ≡ capacity_of slots.old }
    ensures room_values { capacity_of values.new ≡ capacity_of values.old }
{
    if count == 0 {
        return bytes;
    }
    let (slot, value, rest) = hit_at(bytes);
    slots.push(slot);
    values.push(value);
    read_hits(slots, values, count - 1, rest)
}

// A slot that missed, and the bytes behind it.
#[tactic(auto, unfolding(crate::specs::Values::miss_at))]
fn miss_at(bytes: &[u8]) -> (Slot, &[u8])
    ensures { (result.0, result.1.now) ≡ spec.miss_at bytes.now }
{
    match bytes {
        [] => {
            let (value, rest) = content_at(FieldType::Text, bytes);
            (Slot::Actual(value), rest)
        }
        [byte, rest @ ..] => {
            if *byte < 128 {
                let (value, rest) = content_at(type_at(*byte), rest);
                (Slot::Actual(value), rest)
            } else {
                (Slot::Formal(type_at(*byte)), rest)
            }
        }
    }
}

/// Reads so many slots that missed, and gives the bytes behind them. It takes no memory.
#[tactic(auto, unfolding(crate::specs::Values::misses_at))]
pub fn read_misses<'a>(slots: &mut Items<Slot>, count: usize, bytes: &'a [u8]) -> &'a [u8]
    requires { count ≤ slots.old.spare }
    ensures slots { slots.new.items ≡ slots.old.items ++ (misses_at count bytes.now).0 }
    ensures rest { result.now ≡ (misses_at count bytes.now).1 }
    ensures spare { slots.new.spare + count ≡ slots.old.spare }
    ensures room { capacity_of slots.new ≡ capacity_of slots.old }
{
    if count == 0 {
        return bytes;
    }
    let (slot, rest) = miss_at(bytes);
    slots.push(slot);
    read_misses(slots, count - 1, rest)
}

// A field of a live tuple; its arguments are put behind those before. The bytes behind it.
#[tactic(auto, unfolding(crate::specs::Seen::call_seen), using(crate::proofs::Seen::values_count))]
fn read_call<'a>(
    arguments: &mut Items<Value>,
    gives: FieldType,
    bytes: &'a [u8],
) -> (SeenPart, &'a [u8])
    requires { length (call_seen gives bytes.now).1 ≤ arguments.old.spare }
    ensures part { result.0 ≡ (call_seen gives bytes.now).0 }
    ensures arguments { arguments.new.items ≡ arguments.old.items ++ (call_seen gives bytes.now).1 }
    ensures rest { result.1.now ≡ (call_seen gives bytes.now).2 }
    ensures spare { arguments.new.spare + length (call_seen gives bytes.now).1 ≡ arguments.old.spare }
    ensures room { capacity_of arguments.new ≡ capacity_of arguments.old }
{
    let (function, rest) = number_at(bytes);
    let (count, rest) = number_at(rest);
    let function = (function % 4_294_967_296) as u32;
    let count = count as usize;
    let rest = read_values(arguments, count, rest);
    let part = SeenPart::Call {
        function,
        count,
        gives,
    };
    (part, rest)
}

// A field of a live tuple; its arguments are put behind those before. The bytes behind it.
#[tactic(auto, unfolding(crate::specs::Seen::part_seen))]
fn read_part<'a>(arguments: &mut Items<Value>, bytes: &'a [u8]) -> (SeenPart, &'a [u8])
    requires { length (part_seen bytes.now).1 ≤ arguments.old.spare }
    ensures part { result.0 ≡ (part_seen bytes.now).0 }
    ensures arguments { arguments.new.items ≡ arguments.old.items ++ (part_seen bytes.now).1 }
    ensures rest { result.1.now ≡ (part_seen bytes.now).2 }
    ensures spare { arguments.new.spare + length (part_seen bytes.now).1 ≡ arguments.old.spare }
    ensures room { capacity_of arguments.new ≡ capacity_of arguments.old }
{
    match bytes {
        [] => {
            let (value, rest) = content_at(FieldType::Text, bytes);
            (SeenPart::Ready(value), rest)
        }
        [byte, rest @ ..] => {
            if *byte < 128 {
                let (value, rest) = content_at(type_at(*byte), rest);
                (SeenPart::Ready(value), rest)
            } else {
                read_call(arguments, type_at(*byte), rest)
            }
        }
    }
}

/// Reads so many fields of a live tuple, and gives the bytes behind them. It takes no memory.
#[tactic(auto, unfolding(crate::specs::Seen::parts_seen))]
pub fn read_parts<'a>(
    parts: &mut Items<SeenPart>,
    arguments: &mut Items<Value>,
    count: usize,
    bytes: &'a [u8],
) -> &'a [u8]
    requires parts { count ≤ parts.old.spare }
    requires arguments { length (parts_seen count bytes.now).1 ≤ arguments.old.spare }
    ensures parts { parts.new.items ≡ parts.old.items ++ (parts_seen count bytes.now).0 }
    ensures arguments { arguments.new.items ≡ arguments.old.items ++ (parts_seen count bytes.now).1 }
    ensures rest { result.now ≡ (parts_seen count bytes.now).2 }
    ensures room_parts { capacity_of parts.new ≡ capacity_of parts.old }
    ensures room_arguments { capacity_of arguments.new ≡ capacity_of arguments.old }
{
    if count == 0 {
        return bytes;
    }
    let (part, rest) = read_part(arguments, bytes);
    parts.push(part);
    read_parts(parts, arguments, count - 1, rest)
}
