//! Numbers, character literals and strings.

ghost use Rattle.std.specs.Prelude.{◌≡◌, ◌==◌, ◌⊎◌, ◌<◌, ◌≤◌, length, map, true, false, option_map, IfOk, IfSome, Some, None, if◌then◌else◌};
ghost use Rattle.cl_ast.specs.Bytes.{is_digit, begins_with};
ghost use Rattle.cl_ast.specs.Lexemes.{character_meaning, value_on, fits_long, number_kind};
ghost use Rattle.cl_ast.specs.Rows.{string_row, after_string_row, character_at, after_prefix, decimal_row, after_decimal_row, suffix_row, after_suffix};
ghost use Rattle.cl_ast.specs.Ends.{is_line_cut, is_cut, bad_of, behind_digits, hexadecimal_end, decimal_end, number_end, string_end, character_end, literal_end};
ghost use Rattle.cl_ast.specs.Views.{plain_kind};
ghost use Rattle.cl_token.specs.Scanning.{meant, string_head};
ghost use Rattle.cl_token.specs.Views.{ReadsLiteral, ReadsIfLiteral};

use crate::byte::{
    Kind, begins, begins_of, behind_first, digit_value, escape_byte, is_character_byte,
    is_character_escape, is_escape, is_of, is_string_byte, is_x, split_run,
};
use crate::stop::{Read, Stop};
use cl_ast::{LexKind, TokenKind};
use cl_ground::{Items, NoMemory};
use std::alloc::Global;

// The greatest `int` and the greatest `long`.
const MOST_INT: u64 = 2147483647;

const MOST_LONG: u64 = 9223372036854775807;

// The value of digits of a base, unless it is too great for a `long`.
#[tactic(auto, using(crate::proofs::Values::wide_at))]
fn value_of(base: u64, digits: &[u8]) -> Option<u64>
    requires { 0 < base }
    ensures { result ≡ (if fits_long (value_on base 0 digits.now) then Some (value_on base 0 digits.now) else None) }
{
    let mut value: u64 = 0;
    for digit in digits {
        let raised = base.checked_mul(value)?;
        value = raised.checked_add(u64::from(digit_value(*digit)))?;
        if value > MOST_LONG {
            return None;
        }
    }
    Some(value)
}

// The token of a value with the suffix that may stand here, and the bytes behind it.
fn suffixed(value: u64, behind: &[u8]) -> Read<'_>
    requires { value ≤ 9223372036854775807 }
    ensures kind { plain_kind result.kind ≡ number_kind value (suffix_row behind.now) }
    ensures rest { result.rest.now ≡ after_suffix behind.now }
    ensures within { length result.rest.now ≤ length behind.now }
{
    match behind {
        [b'L' | b'l', rest @ ..] => Read {
            kind: TokenKind::Long(value as i64),
            rest,
        },
        _ => Read {
            kind: if value <= MOST_INT {
                TokenKind::Int(value as i32)
            } else {
                TokenKind::Long(value as i64)
            },
            rest: behind,
        },
    }
}

// The number behind its digits.
fn number_behind<'a>(
    base: u64,
    bytes: &'a [u8],
    digits: &[u8],
    behind: &'a [u8],
) -> Result<Read<'a>, Stop<'a>>
    requires { 0 < base }
    ensures end { ReadsLiteral result (behind_digits bytes.now (value_on base 0 digits.now) behind.now) }
    ensures within { IfOk result (λ read. length read.rest.now ≤ length behind.now) }
{
    let Some(value) = value_of(base, digits) else {
        return Err(Stop::Fault(LexKind::WideLiteral, bytes));
    };
    let read = suffixed(value, behind);
    if begins_of(Kind::NameByte, read.rest) {
        return Err(Stop::Fault(LexKind::BadByte, read.rest));
    }
    Ok(read)
}

// The bytes behind `0x` or `0X`.
fn after_prefix(bytes: &[u8]) -> Option<&[u8]>
    ensures value { option_map (λ r. r.now) result ≡ after_prefix bytes.now }
    ensures within { IfSome result (λ r. length r.now < length bytes.now) }
{
    match bytes {
        [b'0', x, digits @ ..] if is_x(*x) => Some(digits),
        _ => None,
    }
}

// A number behind its `0x`.
fn hexadecimal<'a>(bytes: &'a [u8], digits: &'a [u8]) -> Result<Read<'a>, Stop<'a>>
    ensures end { ReadsLiteral result (hexadecimal_end bytes.now digits.now) }
    ensures within { IfOk result (λ read. length read.rest.now ≤ length digits.now) }
{
    if !begins_of(Kind::HexadecimalDigit, digits) {
        return Err(Stop::Fault(LexKind::BadByte, digits));
    }
    let (row, behind) = split_run(Kind::HexadecimalDigit, digits);
    number_behind(16, bytes, row, behind)
}

// The digits of a decimal number, and the bytes behind them.
fn split_decimal(bytes: &[u8]) -> (&[u8], &[u8])
    requires { begins_with is_digit bytes.now ≡ true }
    ensures row { result.0.now ≡ decimal_row bytes.now }
    ensures behind { result.1.now ≡ after_decimal_row bytes.now }
    ensures within { length result.1.now < length bytes.now }
{
    if begins(b'0', bytes) {
        bytes.split_at(1)
    } else {
        split_run(Kind::Digit, bytes)
    }
}

// A number.
fn number(bytes: &[u8]) -> Result<Read<'_>, Stop<'_>>
    requires { begins_with is_digit bytes.now ≡ true }
    ensures end { ReadsLiteral result (number_end bytes.now) }
    ensures within { IfOk result (λ read. length read.rest.now < length bytes.now) }
{
    match after_prefix(bytes) {
        Some(digits) => hexadecimal(bytes, digits),
        None => {
            let (row, behind) = split_decimal(bytes);
            number_behind(10, bytes, row, behind)
        }
    }
}

// Whether the line or the source ends here.
fn is_line_cut(bytes: &[u8]) -> bool
    ensures { result ≡ is_line_cut bytes.now }
{
    match bytes {
        [] => true,
        [byte, ..] => *byte == b'\n',
    }
}

// Whether it ends here or behind a backslash.
fn is_cut(bytes: &[u8]) -> bool
    ensures { result ≡ is_cut bytes.now }
{
    match bytes {
        [] => true,
        [byte, rest @ ..] => *byte == b'\n' || (*byte == b'\\' && is_line_cut(rest)),
    }
}

// The bytes from the one that can't stand here: that behind a backslash, where there is one.
fn bad_of(bytes: &[u8]) -> &[u8]
    ensures { result.now ≡ bad_of bytes.now }
{
    match bytes {
        [b'\\', rest @ ..] => rest,
        _ => bytes,
    }
}

// Why a literal doesn't go on here.
fn broken<'a>(bytes: &'a [u8], behind: &'a [u8]) -> Stop<'a>
    ensures { StopsLiteral result (if is_cut behind.now then Fails LexKind.OpenString bytes.now else Fails LexKind.BadByte (bad_of behind.now)) }
{
    if is_cut(behind) {
        Stop::Fault(LexKind::OpenString, bytes)
    } else {
        Stop::Fault(LexKind::BadByte, bad_of(behind))
    }
}

ghost use Rattle.cl_ast.specs.Ends.{Fails};
ghost use Rattle.cl_token.specs.Views.{StopsLiteral};

// The first character of a string, as the byte that it means, and the bytes behind it.
fn string_head(bytes: &[u8]) -> Option<(u8, &[u8])>
    ensures value { option_map (λ x. (x.0, x.1.now)) result ≡ meant (string_head bytes.now) }
    ensures within { IfSome result (λ x. length x.1.now < length bytes.now) }
{
    match bytes {
        [byte, rest @ ..] if is_string_byte(*byte) => Some((*byte, rest)),
        [b'\\', letter, rest @ ..] if is_escape(*letter) => Some((escape_byte(*letter), rest)),
        _ => None,
    }
}

// The bytes that the characters of a string mean, and the bytes behind them.
#[tactic(auto, using(crate::proofs::Characters::string_stops))]
fn string_row(alloc: Global, more: &[u8]) -> Result<(Items<u8>, &[u8]), NoMemory>
    ensures text { IfOk result (λ x. x.0.items ≡ map character_meaning (string_row more.now)) }
    ensures rest { IfOk result (λ x. x.1.now ≡ after_string_row more.now) }
    ensures within { IfOk result (λ x. length x.1.now ≤ length more.now) }
{
    let mut text = Items::new(alloc);
    let mut rest = more;
    while let Some((byte, behind)) = string_head(rest) {
        text.reserve(1)?;
        text.push(byte);
        rest = behind;
    }
    Ok((text, rest))
}

// A string behind its opening quote.
fn string<'a>(alloc: Global, bytes: &'a [u8], more: &'a [u8]) -> Result<Read<'a>, Stop<'a>>
    ensures end { ReadsLiteral result (string_end bytes.now more.now) }
    ensures within { IfOk result (λ read. length read.rest.now ≤ length more.now) }
{
    let (text, behind) = string_row(alloc, more)?;
    if !begins(b'"', behind) {
        return Err(broken(bytes, behind));
    }
    Ok(Read {
        kind: TokenKind::Str(text),
        rest: behind_first(behind),
    })
}

// The character of a character literal, as the byte that it means, and the bytes behind it.
fn character_at(bytes: &[u8]) -> Option<(u8, &[u8])>
    ensures value { option_map (λ x. (x.0, x.1.now)) result ≡ meant (character_at bytes.now) }
    ensures within { IfSome result (λ x. length x.1.now < length bytes.now) }
{
    match bytes {
        [byte, rest @ ..] if is_character_byte(*byte) => Some((*byte, rest)),
        [b'\\', letter, rest @ ..] if is_character_escape(*letter) => {
            Some((escape_byte(*letter), rest))
        }
        _ => None,
    }
}

// A character literal behind its opening quote.
fn character<'a>(bytes: &'a [u8], more: &'a [u8]) -> Result<Read<'a>, Stop<'a>>
    ensures end { ReadsLiteral result (character_end bytes.now more.now) }
    ensures within { IfOk result (λ read. length read.rest.now ≤ length more.now) }
{
    let Some((byte, behind)) = character_at(more) else {
        return Err(broken(bytes, more));
    };
    if begins(b'\'', behind) {
        return Ok(Read {
            kind: TokenKind::Character(byte),
            rest: behind_first(behind),
        });
    }
    Err(if is_line_cut(behind) {
        Stop::Fault(LexKind::OpenString, bytes)
    } else {
        Stop::Fault(LexKind::BadByte, behind)
    })
}

/// A number or a literal of either quote, where one begins here.
pub fn literal(alloc: Global, bytes: &[u8]) -> Result<Option<Read<'_>>, Stop<'_>>
    ensures end { ReadsIfLiteral result (literal_end bytes.now) }
    ensures within { IfOk result (λ found. IfSome found (λ read. length read.rest.now < length bytes.now)) }
{
    let [byte, more @ ..] = bytes else {
        return Ok(None);
    };
    match *byte {
        b'\'' => Ok(Some(character(bytes, more)?)),
        b'"' => Ok(Some(string(alloc, bytes, more)?)),
        _ if is_of(Kind::Digit, *byte) => Ok(Some(number(bytes)?)),
        _ => Ok(None),
    }
}
