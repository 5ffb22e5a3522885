//! Comments, and what may stand behind a literal in a line that defines it.

ghost use Rattle.std.specs.Prelude.{◌≡◌, ◌<◌, ◌≤◌, length, option_map, IfOk, IfSome};
ghost use Rattle.cl_ast.specs.Rows.{after_close};
ghost use Rattle.cl_ast.specs.Ends.{tail_end};
ghost use Rattle.cl_token.specs.Views.{ReadsLine};

use crate::byte::{Kind, begins, behind_first, is_of, split_run};
use crate::stop::Stop;
use cl_ast::LexKind;

/// The bytes behind the first `*/`.
pub fn after_close(bytes: &[u8]) -> Option<&[u8]>
    ensures value { option_map (λ r. r.now) result ≡ after_close bytes.now }
    ensures within { IfSome result (λ r. length r.now ≤ length bytes.now) }
{
    let mut rest = bytes;
    while let [byte, behind @ ..] = rest {
        if *byte == b'*' && begins(b'/', behind) {
            return Some(behind_first(behind));
        }
        rest = behind;
    }
    None
}

/// What stands at a place behind the literal of a line.
enum Tail<'a> {
    /// The end of the line or of the source.
    End(&'a [u8]),
    /// A blank or a comment, and these bytes behind it.
    More(&'a [u8]),
    /// A comment without its end.
    Open,
    /// Anything else.
    Other,
}

// What stands at a `/*`, by the bytes behind it.
#[tactic(auto, using(crate::proofs::Comments::block_ends, crate::proofs::Comments::block_opens))]
fn block_tail(text: &[u8]) -> Tail<'_>
    ensures { TellsTail result (47 ∷ 42 ∷ text.now) }
{
    match after_close(text) {
        Some(rest) => Tail::More(rest),
        None => Tail::Open,
    }
}

// What stands at a `//`, by the bytes behind it.
#[tactic(auto, using(crate::proofs::Comments::line_is))]
fn note_tail(text: &[u8]) -> Tail<'_>
    ensures { TellsTail result (47 ∷ 47 ∷ text.now) }
{
    Tail::End(split_run(Kind::InLine, text).1)
}

// What stands at a `/`, by the bytes behind it.
#[tactic(auto, using(crate::proofs::Comments::slash_is, crate::proofs::Comments::slash_alone))]
fn slash_tail(behind: &[u8]) -> Tail<'_>
    ensures { TellsTail result (47 ∷ behind.now) }
{
    let [next, text @ ..] = behind else {
        return Tail::Other;
    };
    if *next == b'/' {
        note_tail(text)
    } else if *next == b'*' {
        block_tail(text)
    } else {
        Tail::Other
    }
}

// What stands here, by the first byte and the bytes behind it.
#[tactic(auto, using(crate::proofs::Comments::blank_is, crate::proofs::Comments::end_is, crate::proofs::Comments::other_is))]
fn byte_tail<'a>(bytes: &'a [u8], byte: u8, behind: &'a [u8]) -> Tail<'a>
    requires { bytes.now ≡ byte ∷ behind.now }
    ensures { TellsTail result bytes.now }
{
    if byte == b'\n' {
        Tail::End(bytes)
    } else if is_of(Kind::Blank, byte) {
        Tail::More(behind)
    } else if byte == b'/' {
        slash_tail(behind)
    } else {
        Tail::Other
    }
}

// What stands here.
#[tactic(auto, using(crate::proofs::Comments::nothing))]
fn tail_at(bytes: &[u8]) -> Tail<'_>
    ensures { TellsTail result bytes.now }
{
    match bytes {
        [] => Tail::End(bytes),
        [byte, behind @ ..] => byte_tail(bytes, *byte, behind),
    }
}

ghost use Rattle.std.specs.Prelude.{◌∷◌};
ghost use Rattle.cl_token.specs.Tails.{TellsTail};

/// The bytes from the LF or the end behind blanks and comments.
pub fn line_tail(bytes: &[u8]) -> Result<Option<&[u8]>, Stop<'_>>
    ensures end { ReadsLine result (tail_end bytes.now) }
    ensures within { IfOk result (λ found. IfSome found (λ rest. length rest.now ≤ length bytes.now)) }
{
    let mut rest = bytes;
    loop {
        match tail_at(rest) {
            Tail::End(end) => return Ok(Some(end)),
            Tail::More(behind) => rest = behind,
            Tail::Open => return Err(Stop::Fault(LexKind::OpenComment, rest)),
            Tail::Other => return Ok(None),
        }
    }
}
