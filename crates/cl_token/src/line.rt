//! Lines with `#`.

ghost use Rattle.cl_ground.specs.declared.limits.TheConstants.{MOST_BYTES};
ghost use Rattle.std.specs.Prelude.{◌≡◌, ◌<◌, ◌≤◌, ◌∷◌, ◌++◌, map, length, IfOk, IfSome, OnOk};
ghost use Rattle.cl_ast.specs.Views.{plain_kind, plain_token};
ghost use Rattle.cl_ast.specs.Pieces.{is_name_kind, is_literal_kind};
ghost use Rattle.cl_ast.specs.Ends.{after_minus, literal_end, behind_literal, define_end, line_end};
ghost use Rattle.cl_token.specs.Scanning.{minus_between, literal_tokens, define_between, line_tokens};
ghost use Rattle.cl_token.specs.Views.{ReadsLine};
ghost use Rattle.cl_token.specs.Heads.{TellsName, TellsHead, AddsTokens};

use crate::byte::{Kind, begins, begins_of, behind_first, is_letter, split_run};
use crate::comment::line_tail;
use crate::literal::literal;
use crate::put::put;
use crate::stop::{Read, Stop};
use crate::table::{is_same, letters_kind};
use cl_ast::{LexKind, Mark, Token, TokenKind};
use cl_ground::{Items, NoMemory};
use std::alloc::Global;

// Whether the bytes begin with a letter or `_`.
fn begins_letter(bytes: &[u8]) -> bool
    ensures { result ≡ begins_with is_letter bytes.now }
{
    match bytes {
        [byte, ..] => is_letter(*byte),
        [] => false,
    }
}

ghost use Rattle.cl_ast.specs.Bytes.{begins_with, is_letter};

// Whether the token is a name.
fn is_name(kind: &TokenKind) -> bool
    ensures { result ≡ is_name_kind (plain_kind kind.now) }
{
    matches!(kind, TokenKind::Name(_))
}

// The name that stands here, and the bytes behind it.
#[tactic(auto, using(crate::proofs::Names::is_named, crate::proofs::Names::not_named, crate::proofs::Names::unlettered))]
fn name(alloc: Global, named: &[u8]) -> Result<Option<Read<'_>>, NoMemory>
    ensures { IfOk result (λ found. TellsName found named.now) }
{
    if !begins_letter(named) {
        return Ok(None);
    }
    let (row, rest) = split_run(Kind::NameByte, named);
    let kind = letters_kind(alloc, row)?;
    if is_name(&kind) {
        Ok(Some(Read { kind, rest }))
    } else {
        Ok(None)
    }
}

/// A line that defines, behind its word and up to its value: the name and the places round it.
#[derive(Drop)]
pub struct Head<'a> {
    name: TokenKind,
    named: &'a [u8],
    after_name: &'a [u8],
    value: &'a [u8],
}

// The head of a line that defines, behind its word.
fn head_at(alloc: Global, behind: &[u8]) -> Result<Option<Head<'_>>, NoMemory>
    ensures { IfOk result (λ found. TellsHead found behind.now) }
{
    if !begins_of(Kind::Blank, behind) {
        return Ok(None);
    }
    let named = split_run(Kind::Blank, behind).1;
    let Some(read) = name(alloc, named)? else {
        return Ok(None);
    };
    if !begins_of(Kind::Blank, read.rest) {
        return Ok(None);
    }
    let value = split_run(Kind::Blank, read.rest).1;
    Ok(Some(Head {
        name: read.kind,
        named,
        after_name: read.rest,
        value,
    }))
}

// Puts the minus last that may stand here, and gives the place of the literal.
fn minus<'a>(tokens: &mut Items<Token>, total: usize, value: &'a [u8]) -> Result<&'a [u8], NoMemory>
    requires { total ≤ MOST_BYTES }
    ensures place { IfOk result (λ place. place.now ≡ after_minus value.now) }
    ensures within { IfOk result (λ place. length place.now ≤ length value.now) }
    ensures tokens { OnOk result (map plain_token tokens.new.items ≡ map plain_token tokens.old.items ++ minus_between total value.now) }
{
    if !begins(b'-', value) {
        return Ok(value);
    }
    let behind = behind_first(value);
    put(tokens, total, TokenKind::Mark(Mark::Minus), value, behind)?;
    Ok(split_run(Kind::Blank, behind).1)
}

// Whether the token is a literal that a line may define.
fn is_literal(kind: &TokenKind) -> bool
    ensures { result ≡ is_literal_kind (Some (plain_kind kind.now)) }
{
    matches!(
        kind,
        TokenKind::Int(_) | TokenKind::Long(_) | TokenKind::Character(_)
    )
}

ghost use Rattle.std.specs.Prelude.{Some};

// What becomes of a line whose literal stops so: a wide number and an open literal have their own fault.
fn stopped(stop: Stop<'_>) -> Result<Option<&[u8]>, Stop<'_>>
    ensures end { (end : LiteralEnd) → StopsLiteral stop.entry end → ReadsLine result (behind_literal end) }
    ensures none { IfOk result (λ found. IsNone found) }
{
    match stop {
        Stop::NoMemory => Err(Stop::NoMemory),
        Stop::Fault(LexKind::WideLiteral, bad) => Err(Stop::Fault(LexKind::WideLiteral, bad)),
        Stop::Fault(LexKind::OpenString, bad) => Err(Stop::Fault(LexKind::OpenString, bad)),
        Stop::Fault(_, _) => Ok(None),
    }
}

ghost use Rattle.std.specs.Prelude.{IsNone};
ghost use Rattle.cl_ast.specs.Ends.{LiteralEnd};
ghost use Rattle.cl_token.specs.Views.{StopsLiteral};

// Puts the literal last that must stand here, and gives the end of its line.
fn value<'a>(
    alloc: Global,
    tokens: &mut Items<Token>,
    total: usize,
    place: &'a [u8],
) -> Result<Option<&'a [u8]>, Stop<'a>>
    requires { total ≤ MOST_BYTES }
    ensures end { ReadsLine result (behind_literal (literal_end place.now)) }
    ensures within { IfOk result (λ found. IfSome found (λ rest. length rest.now ≤ length place.now)) }
    ensures tokens { AddsTokens result (map plain_token tokens.old.items) (map plain_token tokens.new.items) (literal_tokens total place.now (literal_end place.now)) }
{
    match literal(alloc, place) {
        Err(stop) => stopped(stop),
        Ok(None) => Ok(None),
        Ok(Some(read)) => {
            if !is_literal(&read.kind) {
                return Ok(None);
            }
            put(tokens, total, read.kind, place, read.rest)?;
            line_tail(read.rest)
        }
    }
}

// A line that defines, by its bytes and those behind its word.
fn define<'a>(
    alloc: Global,
    tokens: &mut Items<Token>,
    total: usize,
    bytes: &'a [u8],
    behind: &'a [u8],
) -> Result<Option<&'a [u8]>, Stop<'a>>
    requires { total ≤ MOST_BYTES }
    ensures end { ReadsLine result (define_end behind.now) }
    ensures within { IfOk result (λ found. IfSome found (λ rest. length rest.now ≤ length behind.now)) }
    ensures tokens { AddsTokens result (map plain_token tokens.old.items) (map plain_token tokens.new.items) (define_between total bytes.now behind.now) }
{
    let Some(head) = head_at(alloc, behind)? else {
        return Ok(None);
    };
    put(tokens, total, TokenKind::Define, bytes, behind)?;
    put(tokens, total, head.name, head.named, head.after_name)?;
    let place = minus(tokens, total, head.value)?;
    value(alloc, tokens, total, place)
}

/// Reads a line with `#`, by its bytes and those behind the `#`: puts its tokens last and gives the end of
/// the line. None comes where it has none of the forms.
pub fn line<'a>(
    alloc: Global,
    tokens: &mut Items<Token>,
    total: usize,
    bytes: &'a [u8],
    behind: &'a [u8],
) -> Result<Option<&'a [u8]>, Stop<'a>>
    requires small { total ≤ MOST_BYTES }
    requires whole { bytes.now ≡ 35 ∷ behind.now }
    ensures end { ReadsLine result (line_end behind.now) }
    ensures within { IfOk result (λ found. IfSome found (λ rest. length rest.now ≤ length behind.now)) }
    ensures tokens { AddsTokens result (map plain_token tokens.old.items) (map plain_token tokens.new.items) (line_tokens total bytes.now) }
{
    let (_, at_word) = split_run(Kind::Space, behind);
    let (word, after_word) = split_run(Kind::NameByte, at_word);
    if is_same(word, b"include") {
        Ok(Some(split_run(Kind::InLine, after_word).1))
    } else if is_same(word, b"define") {
        define(alloc, tokens, total, bytes, after_word)
    } else {
        Ok(None)
    }
}
