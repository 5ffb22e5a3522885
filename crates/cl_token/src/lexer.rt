//! The lexer.

use crate::scan::{Place, step};
use crate::stop::Stop;
use cl_ast::{LexKind, Token};
use cl_ground::Items;
use std::alloc::Global;

/// Why there are no tokens.
#[derive(Clone, Copy, Debug, PartialEq, Eq)]
pub enum LexEnd {
    /// The source isn't tokens: the byte offset of its first fault, and what it is.
    Fault { place: u32, kind: LexKind },
    /// A growth was refused by the allocator.
    NoMemory,
}

ghost use Rattle.cl_ground.specs.declared.limits.TheConstants.{MOST_BYTES};
ghost use Rattle.std.specs.Prelude.{◌≡◌, ◌≤◌, ◌<◌, List, map, length, IfOk, IfSome};
ghost use Rattle.cl_ast.specs.Plain.{PlainToken};
ghost use Rattle.cl_ast.specs.Splits.{Splits};
ghost use Rattle.cl_ast.specs.Views.{plain_token};
ghost use Rattle.cl_token.specs.Scanning.{step_at};
ghost use Rattle.cl_token.specs.Steps.{Advances};
ghost use Rattle.cl_token.specs.Lexing.{TellsEnd, TellsFault, IsOnly, OneFault};

// The place behind the part that stands here, or none at the end of the source.
fn advance<'a>(
    alloc: Global,
    tokens: &mut Items<Token>,
    total: usize,
    place: &Place<'a>,
) -> Result<Option<Place<'a>>, Stop<'a>>
    requires { total ≤ MOST_BYTES }
    ensures step { Advances result (map plain_token tokens.old.items) (map plain_token tokens.new.items) place.now.rest.now (step_at total (map plain_token tokens.old.items) place.now.fresh place.now.rest.now) }
    ensures within { IfOk result (λ found. IfSome found (λ after. length after.rest.now < length place.now.rest.now)) }
{
    match place.rest {
        [] => Ok(None),
        [byte, behind @ ..] => Ok(Some(step(alloc, tokens, total, place, *byte, behind)?)),
    }
}

// What a stop in a source of so many bytes comes to.
fn end_of(total: usize, stop: Stop<'_>) -> LexEnd
    requires { total ≤ MOST_BYTES }
    ensures { TellsEnd stop.entry total result }
{
    match stop {
        Stop::Fault(kind, bad) => LexEnd::Fault {
            place: total.saturating_sub(bad.len()) as u32,
            kind,
        },
        Stop::NoMemory => LexEnd::NoMemory,
    }
}

/// The tokens of a source, with their places.
///
/// `Fault` comes exactly where the grammar splits the source into no tokens, and tells the first place where
/// scanning from the left can't go on. `NoMemory` comes where a growth was refused.
pub fn lex(alloc: Global, src: &[u8]) -> Result<Items<Token>, LexEnd>
    requires { length src.now ≤ MOST_BYTES }
    ensures tokens { IfOk result (λ tokens. Splits src.now (map plain_token tokens.items)) }
    ensures only { (tokens : List PlainToken) → Splits src.now tokens → IsOnly result tokens }
    ensures fault { TellsFault result src.now }
    ensures few { IfOk result (λ tokens. length tokens.items ≤ length src.now) }
{
    let mut tokens = Items::new(alloc);
    let mut place = Place {
        rest: src,
        fresh: true,
    };
    loop {
        match advance(alloc, &mut tokens, src.len(), &place) {
            Ok(Some(after)) => place = after,
            Ok(None) => return Ok(tokens),
            Err(stop) => return Err(end_of(src.len(), stop)),
        }
    }
}

/// Says of the definitions alone: a source has at most one first fault, one place and one kind.
pub fn one_fault()
    ensures { OneFault }
{}
