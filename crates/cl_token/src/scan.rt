//! One part of a source after another.

ghost use Rattle.cl_ground.specs.declared.limits.TheConstants.{MOST_BYTES};
ghost use Rattle.std.specs.Prelude.{◌≡◌, ◌==◌, ◌<◌, ◌≤◌, ◌∷◌, ◌&&◌, ◌||◌, false, map, length, IfOk};
ghost use Rattle.cl_ast.specs.Bytes.{is_line_end, is_space};
ghost use Rattle.cl_ast.specs.Views.{plain_kind, plain_token};
ghost use Rattle.cl_ast.specs.Ends.{literal_end};
ghost use Rattle.cl_token.specs.Scanning.{Goes, word_step, mark_step, slash_step, line_step, other_step, literal_step, step};
ghost use Rattle.cl_token.specs.Steps.{StepsTo};

use crate::byte::{Kind, is_letter, is_of, is_separator, split_run};
use crate::comment::after_close;
use crate::line::line;
use crate::literal::literal;
use crate::put::put;
use crate::stop::Stop;
use crate::table::{letters_kind, mark_at};
use cl_ast::{LexKind, Token, TokenKind};
use cl_ground::Items;
use std::alloc::Global;

/// A place between two parts of a source: the bytes behind it, and whether only spaces and tabs stand
/// before it in its line.
#[derive(Clone, Copy)]
pub struct Place<'a> {
    pub rest: &'a [u8],
    pub fresh: bool,
}

// A word or a name.
fn word<'a>(
    alloc: Global,
    tokens: &mut Items<Token>,
    total: usize,
    bytes: &'a [u8],
) -> Result<Place<'a>, Stop<'a>>
    requires { total ≤ MOST_BYTES }
    ensures step { StepsTo result (map plain_token tokens.new.items) (word_step total (map plain_token tokens.old.items) bytes.now) }
{
    let (row, rest) = split_run(Kind::NameByte, bytes);
    let kind = letters_kind(alloc, row)?;
    put(tokens, total, kind, bytes, rest)?;
    Ok(Place { rest, fresh: false })
}

// A mark.
fn mark<'a>(tokens: &mut Items<Token>, total: usize, bytes: &'a [u8]) -> Result<Place<'a>, Stop<'a>>
    requires { total ≤ MOST_BYTES }
    ensures step { StepsTo result (map plain_token tokens.new.items) (mark_step total (map plain_token tokens.old.items) bytes.now) }
    ensures within { IfOk result (λ place. length place.rest.now < length bytes.now) }
{
    let Some((mark, rest)) = mark_at(bytes) else {
        return Err(Stop::Fault(LexKind::BadByte, bytes));
    };
    put(tokens, total, TokenKind::Mark(mark), bytes, rest)?;
    Ok(Place { rest, fresh: false })
}

// A comment or a mark that begins with a `/`.
fn slash<'a>(
    tokens: &mut Items<Token>,
    total: usize,
    bytes: &'a [u8],
    behind: &'a [u8],
) -> Result<Place<'a>, Stop<'a>>
    requires small { total ≤ MOST_BYTES }
    requires whole { bytes.now ≡ 47 ∷ behind.now }
    ensures step { StepsTo result (map plain_token tokens.new.items) (slash_step total (map plain_token tokens.old.items) bytes.now behind.now) }
    ensures within { IfOk result (λ place. length place.rest.now < length bytes.now) }
{
    match behind {
        [b'/', text @ ..] => Ok(Place {
            rest: split_run(Kind::InLine, text).1,
            fresh: false,
        }),
        [b'*', text @ ..] => match after_close(text) {
            Some(rest) => Ok(Place { rest, fresh: false }),
            None => Err(Stop::Fault(LexKind::OpenComment, bytes)),
        },
        _ => mark(tokens, total, bytes),
    }
}

// A line with `#`.
fn directive<'a>(
    alloc: Global,
    tokens: &mut Items<Token>,
    total: usize,
    bytes: &'a [u8],
    behind: &'a [u8],
) -> Result<Place<'a>, Stop<'a>>
    requires small { total ≤ MOST_BYTES }
    requires whole { bytes.now ≡ 35 ∷ behind.now }
    ensures step { StepsTo result (map plain_token tokens.new.items) (line_step total (map plain_token tokens.old.items) bytes.now) }
    ensures within { IfOk result (λ place. length place.rest.now < length bytes.now) }
{
    match line(alloc, tokens, total, bytes, behind)? {
        Some(rest) => Ok(Place { rest, fresh: false }),
        None => Err(Stop::Fault(LexKind::BadDirective, bytes)),
    }
}

// A part that begins with no separator, letter, digit or quote.
fn other<'a>(
    alloc: Global,
    tokens: &mut Items<Token>,
    total: usize,
    place: &Place<'a>,
    byte: u8,
    behind: &'a [u8],
) -> Result<Place<'a>, Stop<'a>>
    requires small { total ≤ MOST_BYTES }
    requires whole { place.now.rest.now ≡ byte ∷ behind.now }
    ensures step { StepsTo result (map plain_token tokens.new.items) (other_step total (map plain_token tokens.old.items) place.now.fresh byte behind.now) }
    ensures within { IfOk result (λ after. length after.rest.now < length place.now.rest.now) }
{
    if place.fresh && byte == b'#' {
        directive(alloc, tokens, total, place.rest, behind)
    } else if byte == b'/' {
        slash(tokens, total, place.rest, behind)
    } else {
        mark(tokens, total, place.rest)
    }
}

// The part that begins with this byte.
#[tactic(auto, unfolding(crate::specs::Scanning::step))]
pub fn step<'a>(
    alloc: Global,
    tokens: &mut Items<Token>,
    total: usize,
    place: &Place<'a>,
    byte: u8,
    behind: &'a [u8],
) -> Result<Place<'a>, Stop<'a>>
    requires small { total ≤ MOST_BYTES }
    requires whole { place.now.rest.now ≡ byte ∷ behind.now }
    ensures step { StepsTo result (map plain_token tokens.new.items) (step total (map plain_token tokens.old.items) place.now.fresh byte behind.now) }
    ensures within { IfOk result (λ after. length after.rest.now < length place.now.rest.now) }
{
    if is_separator(byte) {
        return Ok(Place {
            rest: behind,
            fresh: byte == b'\n' || (place.fresh && is_of(Kind::Space, byte)),
        });
    }
    if is_letter(byte) {
        return word(alloc, tokens, total, place.rest);
    }
    match literal(alloc, place.rest)? {
        Some(read) => {
            let rest = read.rest;
            put(tokens, total, read.kind, place.rest, rest)?;
            Ok(Place { rest, fresh: false })
        }
        None => other(alloc, tokens, total, place, byte, behind),
    }
}
