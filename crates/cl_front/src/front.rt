//! Reads a source of the whole language.

ghost use Rattle.std.specs.Prelude.{◌≡◌, ◌≤◌, ◌<◌, ◌^◌, map, drop, length, IfOk, IfErr};
ghost use Rattle.cl_ground.specs.declared.limits.TheConstants.{MOST_BYTES};
ghost use Rattle.cl_ast.specs.Views.{plain_token};
ghost use Rattle.cl_front.specs.Front.{place_of};
ghost use Rattle.cl_front.specs.Reading.{trees, IsTaken};
ghost use Rattle.cl_front.specs.Ends.{EndsSo, IsSplitOnce, StopsFront};

use crate::refusal::{Refusal, RefusalKind};
use cl_ast::{ParseEnd, Token, Unit};
use cl_parse::parse;
use cl_token::{LexEnd, lex};
use std::alloc::Global;

/// Why a source isn't read.
#[derive(Clone, Copy, Debug, PartialEq, Eq)]
pub enum FrontEnd {
    /// It is refused.
    Refused(Refusal),
    /// The allocator refused memory.
    NoMemory,
}

// Where a token begins, or where the source ends behind the last one.
fn place_of(source: &[u8], tokens: &[Token], token: u32) -> usize
    ensures { result ≡ place_of source.now (drop token (map plain_token tokens.now)) }
{
    match tokens.get(token as usize) {
        Some(token) => token.span.start as usize,
        None => source.len(),
    }
}

// The refusal of a source at one of its tokens.
fn refused_at(kind: RefusalKind, source: &[u8], tokens: &[Token], token: u32) -> FrontEnd
    ensures { result ≡ FrontEnd.Refused (record { kind = kind; place = place_of source.now (drop token (map plain_token tokens.now)) }) }
{
    FrontEnd::Refused(Refusal {
        kind,
        place: place_of(source, tokens, token),
    })
}

// Reads the tokens of a source.
fn read_tokens(alloc: Global, source: &[u8], tokens: &[Token]) -> Result<Unit, FrontEnd>
    requires size { length source.now ≤ MOST_BYTES }
    requires few { length tokens.now < 2 ^ 32 }
    requires split { IsSplitOnce source.now (map plain_token tokens.now) }
    ensures found { IfOk result (λ unit. IsTaken trees source.now unit.items) }
    ensures refused { IfErr result (EndsSo trees source.now) }
{
    match parse(alloc, tokens) {
        Ok(unit) => Ok(unit),
        Err(ParseEnd::Syntax { token }) => {
            Err(refused_at(RefusalKind::Syntax, source, tokens, token))
        }
        Err(ParseEnd::TooDeep { token }) => {
            Err(refused_at(RefusalKind::TooDeep, source, tokens, token))
        }
        Err(ParseEnd::NoMemory) => Err(FrontEnd::NoMemory),
    }
}

// Why a source has no tokens.
fn lexical_end(source: &[u8], end: LexEnd) -> FrontEnd
    requires { StopsFront source.now end }
    ensures { EndsSo trees source.now result }
{
    match end {
        LexEnd::Fault { place, kind } => FrontEnd::Refused(Refusal {
            kind: RefusalKind::Lex(kind),
            place: place as usize,
        }),
        LexEnd::NoMemory => FrontEnd::NoMemory,
    }
}

/// The tree of a source.
///
/// It is refused where it isn't tokens, at the first place where scanning can't go on, and else where its tokens
/// aren't a tree, at the token with which reading can't go on, or at the end. `NoMemory` comes where the allocator
/// refused memory.
pub fn read_source(alloc: Global, source: &[u8]) -> Result<Unit, FrontEnd>
    requires { length source.now ≤ MOST_BYTES }
    ensures found { IfOk result (λ unit. IsTaken trees source.now unit.items) }
    ensures refused { IfErr result (EndsSo trees source.now) }
{
    match lex(alloc, source) {
        Ok(tokens) => read_tokens(alloc, source, tokens.as_slice()),
        Err(end) => Err(lexical_end(source, end)),
    }
}
