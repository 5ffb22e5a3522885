//! The fields of operations, as they are printed.

ghost use Rattle.std.specs.Prelude.{◌≡◌, ◌++◌, map, OnOk};
ghost use Rattle.cl_ground.specs.Room.{Room};
ghost use Rattle.cl_value.specs.Text.{escaped, escaped_all, text_in, value_text};
ghost use Rattle.cl_sig.specs.Signatures.{PlainSignature};
ghost use Rattle.cl_report.specs.Analysis as analysis;

use crate::text::Text;
use cl_ground::{Items, NoMemory};
use cl_sig::{Kind, Mark};
use cl_value::{FieldType, Value};

// Puts the bytes of a string literal at the end, as they are printed.
fn add_escaped(text: &mut Text, bytes: &[u8]) -> Result<(), NoMemory>
    ensures { OnOk result (text.new ≡ text.old ++ escaped_all bytes.now) }
{
    for byte in bytes {
        add_byte(text, *byte)?;
    }
    Ok(())
}

// Puts one such byte at the end.
fn add_byte(text: &mut Text, byte: u8) -> Result<(), NoMemory>
    ensures { OnOk result (text.new ≡ text.old ++ escaped byte) }
{
    match byte {
        b'\n' => text.add(b"\\n"),
        b'\t' => text.add(b"\\t"),
        b'\r' => text.add(b"\\r"),
        b'\\' => text.add(b"\\\\"),
        b'"' => text.add(b"\\\""),
        other => text.add(&[other]),
    }
}

// The text of a number in the table, or nothing.
fn text_at(texts: &[Items<u8>], number: u32) -> &[u8]
    ensures { result.now ≡ text_in (map (λ xs. xs.items) texts.now) number }
{
    match texts.get(number as usize) {
        Some(text) => text.as_slice(),
        None => &[],
    }
}

// Puts a value at the end, as it is printed.
fn add_value(text: &mut Text, texts: &[Items<u8>], value: Value) -> Result<(), NoMemory>
    ensures { OnOk result (text.new ≡ text.old ++ value_text (map (λ xs. xs.items) texts.now) value) }
{
    match value {
        Value::Int(number) => text.add_signed(i64::from(number)),
        Value::Long(number) => {
            text.add_signed(number)?;
            text.add(b"L")
        }
        Value::Char(number) => {
            text.add_number(u64::from(number))?;
            text.add(b"C")
        }
        Value::Text(number) => {
            text.add(b"\"")?;
            add_escaped(text, text_at(texts, number))?;
            text.add(b"\"")
        }
    }
}

// A type by its word.
fn type_word(field_type: FieldType) -> &'static [u8]
    ensures { result.now ≡ analysis.type_word field_type }
{
    match field_type {
        FieldType::Int => b"int",
        FieldType::Long => b"long",
        FieldType::Char => b"char",
        FieldType::Text => b"text",
    }
}

/// An operation by its word.
pub fn kind_word(kind: Kind) -> &'static [u8]
    ensures { result.now ≡ analysis.kind_word kind }
{
    match kind {
        Kind::Out => b"out",
        Kind::In => b"in",
        Kind::Rd => b"rd",
        Kind::Inp => b"inp",
        Kind::Rdp => b"rdp",
        Kind::Eval => b"eval",
    }
}

// Puts a field at the end.
fn add_mark(text: &mut Text, texts: &[Items<u8>], mark: Mark) -> Result<(), NoMemory>
    ensures { OnOk result (text.new ≡ text.old ++ analysis.mark_text (map (λ xs. xs.items) texts.now) mark) }
{
    match mark {
        Mark::Constant(value) => add_value(text, texts, value),
        Mark::Actual(field_type) => text.add(type_word(field_type)),
        Mark::Formal(field_type) => {
            text.add(b"?")?;
            text.add(type_word(field_type))
        }
    }
}

// Puts fields at the end, each behind a comma.
fn add_more_marks(text: &mut Text, texts: &[Items<u8>], fields: &[Mark]) -> Result<(), NoMemory>
    ensures { OnOk result (text.new ≡ text.old ++ analysis.more_marks_text (map (λ xs. xs.items) texts.now) fields.now) }
{
    for mark in fields {
        text.add(b",")?;
        add_mark(text, texts, *mark)?;
    }
    Ok(())
}

// Puts fields at the end, joined by commas.
fn add_marks(text: &mut Text, texts: &[Items<u8>], fields: &[Mark]) -> Result<(), NoMemory>
    ensures { OnOk result (text.new ≡ text.old ++ analysis.marks_text (map (λ xs. xs.items) texts.now) fields.now) }
{
    match fields {
        [] => Ok(()),
        [first, rest @ ..] => {
            add_mark(text, texts, *first)?;
            add_more_marks(text, texts, rest)
        }
    }
}

/// Puts the fields of an operation at the end, in brackets.
pub fn add_fields(text: &mut Text, texts: &[Items<u8>], fields: &[Mark]) -> Result<(), NoMemory>
    ensures { OnOk result (text.new ≡ text.old ++ analysis.fields_text (map (λ xs. xs.items) texts.now) fields.now) }
{
    text.add(b"(")?;
    add_marks(text, texts, fields)?;
    text.add(b")")
}
