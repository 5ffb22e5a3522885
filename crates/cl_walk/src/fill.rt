//! What `printf` prints. (ISO/IEC 9899:1999, 7.19.6.1.)

ghost use Rattle.std.specs.Prelude.{◌≡◌, ◌<◌, ◌≤◌, List, [], ◌∷◌, ◌++◌, length, MatchResult, MatchOption, IfSome};
ghost use Rattle.cl_meaning.specs.Printing as printing;
ghost use Rattle.cl_walk.specs.Formats.{part_prints, part_leaves};

use crate::stop::Stop;
use cl_ast::TypeName;
use cl_ground::Items;
use cl_state::{converted, number};
use cl_value::Value;
use itoa::Buffer;
use std::alloc::Global;

// What a format begins with.
#[derive(Clone, Copy)]
enum Part {
    // A number in decimal.
    Number,
    // The byte of a value.
    Character,
    // This byte.
    Byte(u8),
}

// The part of a letter behind a `%`, and what stands behind it. `l` goes with the letter that follows.
fn directive(letter: u8, behind: &[u8]) -> (Part, &[u8])
    ensures means { (values : List Value) → printing.filled (37 ∷ letter ∷ behind.now) values ≡ part_prints result.0 values ++ printing.filled result.1.now (part_leaves result.0 values) }
    ensures less { length result.1.now ≤ length behind.now }
{
    if letter == b'd' {
        (Part::Number, behind)
    } else if letter == b'c' {
        (Part::Character, behind)
    } else if letter == b'%' {
        (Part::Byte(b'%'), behind)
    } else {
        match behind {
            [] => (Part::Byte(letter), behind),
            [_, rest @ ..] => (Part::Number, rest),
        }
    }
}

// The part behind a `%`.
fn behind_percent(behind: &[u8]) -> (Part, &[u8])
    ensures means { (values : List Value) → printing.filled (37 ∷ behind.now) values ≡ part_prints result.0 values ++ printing.filled result.1.now (part_leaves result.0 values) }
    ensures less { length result.1.now ≤ length behind.now }
{
    match behind {
        [] => (Part::Byte(b'%'), behind),
        [letter, rest @ ..] => directive(*letter, rest),
    }
}

// The first part of a format, and what stands behind it.
fn first_part(format: &[u8]) -> Option<(Part, &[u8])>
    ensures means { MatchOption result (format.now ≡ []) (λ first. (values : List Value) → printing.filled format.now values ≡ part_prints first.0 values ++ printing.filled first.1.now (part_leaves first.0 values)) }
    ensures less { IfSome result (λ first. length first.1.now < length format.now) }
{
    match format {
        [] => None,
        [byte, rest @ ..] => {
            if *byte == b'%' {
                Some(behind_percent(rest))
            } else {
                Some((Part::Byte(*byte), rest))
            }
        }
    }
}

// The number of the first value, in decimal.
fn put_number(into: &mut Items<u8>, values: &[Value]) -> Result<(), Stop>
    ensures { MatchResult result (λ _. into.new.items ≡ into.old.items ++ printing.decimal_of values.now) (λ stop. stop ≡ Stop.NoMemory) }
{
    let n = match values.first() {
        Some(value) => number(*value),
        None => 0,
    };
    let mut buffer = Buffer::new();
    let digits = buffer.format(n).as_bytes();
    into.reserve(digits.len())?;
    into.push_all(digits);
    Ok(())
}

// The byte of the first value.
fn put_character(into: &mut Items<u8>, values: &[Value]) -> Result<(), Stop>
    ensures { MatchResult result (λ _. into.new.items ≡ into.old.items ++ printing.character_of values.now) (λ stop. stop ≡ Stop.NoMemory) }
{
    let value = match values.first() {
        Some(value) => *value,
        None => Value::Int(0),
    };
    match converted(TypeName::Char, value) {
        Ok(Value::Char(byte)) => put(into, byte),
        _ => Err(Stop::NoMemory),
    }
}

fn put(into: &mut Items<u8>, byte: u8) -> Result<(), Stop>
    ensures { MatchResult result (λ _. into.new.items ≡ into.old.items ++ byte ∷ []) (λ stop. stop ≡ Stop.NoMemory) }
{
    into.reserve(1)?;
    into.push(byte);
    Ok(())
}

// All but the first, where there is one.
fn behind(values: &[Value]) -> &[Value]
    ensures { result.now ≡ printing.behind_first values.now }
{
    match values {
        [_, rest @ ..] => rest,
        [] => values,
    }
}

// Prints a part with the first of these values where it wants one, and tells which values are left.
fn put_part<'v>(into: &mut Items<u8>, part: Part, values: &'v [Value]) -> Result<&'v [Value], Stop>
    ensures { MatchResult result (λ left. (into.new.items ≡ into.old.items ++ part_prints part values.now) × (left.now ≡ part_leaves part values.now)) (λ stop. stop ≡ Stop.NoMemory) }
{
    match part {
        Part::Number => {
            put_number(into, values)?;
            Ok(behind(values))
        }
        Part::Character => {
            put_character(into, values)?;
            Ok(behind(values))
        }
        Part::Byte(byte) => {
            put(into, byte)?;
            Ok(values)
        }
    }
}

/// The format with its directives filled in, from left to right. `NoMemory` comes where the allocator refused room for it.
pub fn filled(alloc: Global, format: &[u8], values: &[Value]) -> Result<Items<u8>, Stop>
    ensures { MatchResult result (λ bytes. bytes.items ≡ printing.filled format.now values.now) (λ stop. stop ≡ Stop.NoMemory) }
{
    let mut all = Items::new(alloc);
    let mut left = format;
    let mut values = values;
    while let Some((part, rest)) = first_part(left) {
        values = put_part(&mut all, part, values)?;
        left = rest;
    }
    Ok(all)
}
