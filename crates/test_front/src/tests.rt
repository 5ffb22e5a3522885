mod fields;
mod lengths;
mod nesting;
mod printed;
mod refused;
mod signatures;
mod single_bytes;

ghost use Rattle.std.specs.Prelude.{◌≤◌, length};
ghost use Rattle.cl_ground.specs.declared.limits.TheConstants.{MOST_BYTES};

use cl_ast::{LexKind, ParseEnd, Token, Unit};
use cl_ground::MOST_BYTES;
use cl_parse::parse;
use cl_token::{LexEnd, lex};
use cl_types::{TypeEnd, TypeKind, check};
use std::alloc::{AllocError, Global};

// What reading and judging a source comes to.
#[derive(Clone, Copy, Debug, PartialEq, Eq)]
enum Verdict {
    // It has no faults.
    Typed,
    // Its bytes aren't tokens: the first place, and why.
    Bytes(u32, LexKind),
    // No tree goes on at this token.
    Syntax(u32),
    // The part that begins at this token stands too deep.
    TooDeep(u32),
    // The first fault of its tree: where, and what.
    Types(u32, TypeKind),
    // It is too long, or memory was wanted.
    Unread,
}

// A source, and what it comes to.
type Row = (&'static [u8], Verdict);

// The tree of tokens.
fn tree(alloc: Global, tokens: &[Token]) -> Result<Unit, Verdict>
    requires { length tokens.now ≤ MOST_BYTES }
{
    match parse(alloc, tokens) {
        Ok(unit) => Ok(unit),
        Err(ParseEnd::Syntax { token }) => Err(Verdict::Syntax(token)),
        Err(ParseEnd::TooDeep { token }) => Err(Verdict::TooDeep(token)),
        Err(ParseEnd::NoMemory) => Err(Verdict::Unread),
    }
}

// The tree of a source.
fn read(alloc: Global, source: &[u8]) -> Result<Unit, Verdict> {
    if source.len() > MOST_BYTES {
        return Err(Verdict::Unread);
    }
    match lex(alloc, source) {
        Ok(tokens) => tree(alloc, tokens.as_slice()),
        Err(LexEnd::Fault { place, kind }) => Err(Verdict::Bytes(place, kind)),
        Err(LexEnd::NoMemory) => Err(Verdict::Unread),
    }
}

// What judging a tree comes to.
fn judge_tree(alloc: Global, unit: Unit) -> Verdict {
    match check(alloc, unit) {
        Ok(_) => Verdict::Typed,
        Err(TypeEnd::Fault { place, kind }) => Verdict::Types(place, kind),
        Err(TypeEnd::NoMemory) => Verdict::Unread,
    }
}

// What reading and judging a source comes to.
fn judge(alloc: Global, source: &[u8]) -> Verdict {
    match read(alloc, source) {
        Ok(unit) => judge_tree(alloc, unit),
        Err(verdict) => verdict,
    }
}

// Whether the source comes to that.
fn is_so(alloc: Global, row: &Row) -> bool {
    judge(alloc, row.0) == row.1
}

// The first of the rows whose source comes to something else.
fn first_wrong(alloc: Global, rows: &[Row]) -> Option<&'static [u8]> {
    for row in rows {
        if !is_so(alloc, row) {
            return Some(row.0);
        }
    }
    None
}

// A front, then so many times a part, then a middle, then so many times a last part, then an end.
fn repeated(
    alloc: Global,
    ends: (&[u8], &[u8]),
    around: (&[u8], &[u8]),
    middle: &[u8],
    count: u32,
) -> Result<Vec<u8>, AllocError> {
    let mut source = Vec::from_slice(alloc, ends.0)?;
    for _ in 0..count {
        source.extend_from_slice(around.0)?;
    }
    source.extend_from_slice(middle)?;
    for _ in 0..count {
        source.extend_from_slice(around.1)?;
    }
    source.extend_from_slice(ends.1)?;
    Ok(source)
}
