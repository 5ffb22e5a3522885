//! The tables of words and marks.

ghost use Rattle.std.specs.Prelude.{◌≡◌, ◌<◌, ◌≤◌, map, length, option_map, IfSome};
ghost use Rattle.std.specs.List.{list_any};
ghost use Rattle.cl_ast.specs.Lexemes.{same_bytes, look_up, word_of, is_reserved, mark_of, letters_kind};
ghost use Rattle.cl_ast.specs.Views.{plain_kind};
ghost use Rattle.cl_token.specs.Scanning.{mark_at};

use cl_ast::{MARKS, Mark, RESERVED, TokenKind, WORDS, Word};
use cl_ground::{Items, NoMemory};
use std::alloc::Global;

/// Whether the bytes are the same.
pub fn is_same(a: &[u8], b: &[u8]) -> bool
    ensures { result ≡ same_bytes a.now b.now }
{
    a == b
}

// The entry of a table with these bytes.
fn look_up<A: Copy>(mut table: &[(&[u8], A)], bytes: &[u8]) -> Option<A>
    ensures { result ≡ look_up (map (λ e. (e.0.now, e.1)) table.entry.now) bytes.now }
{
    while let [entry, rest @ ..] = table {
        if is_same(bytes, entry.0) {
            return Some(entry.1);
        }
        table = rest;
    }
    None
}

// The word of the grammar with these bytes.
#[tactic(auto, unfolding(cl_ast::specs::Lexemes::word_of))]
fn word_of(bytes: &[u8]) -> Option<Word>
    ensures { result ≡ word_of bytes.now }
{
    look_up(&WORDS, bytes)
}

// Whether the word is among those.
fn is_among(words: &[&[u8]], word: &[u8]) -> bool
    ensures { result ≡ list_any (same_bytes word.now) (map (λ w. w.now) words.now) }
{
    for other in words {
        if is_same(word, other) {
            return true;
        }
    }
    false
}

// Whether C reserves the bytes besides.
#[tactic(auto, unfolding(cl_ast::specs::Lexemes::is_reserved))]
fn is_reserved(bytes: &[u8]) -> bool
    ensures { result ≡ is_reserved bytes.now }
{
    is_among(&RESERVED, bytes)
}

// The mark with these bytes.
#[tactic(auto, unfolding(cl_ast::specs::Lexemes::mark_of))]
fn mark_of(bytes: &[u8]) -> Option<Mark>
    ensures { result ≡ mark_of bytes.now }
{
    look_up(&MARKS, bytes)
}

/// The token of letters: a word of the grammar, one that C reserves, or a name.
pub fn letters_kind(alloc: Global, bytes: &[u8]) -> Result<TokenKind, NoMemory>
    ensures { IfOk result (λ kind. plain_kind kind ≡ letters_kind bytes.now) }
{
    if let Some(word) = word_of(bytes) {
        return Ok(TokenKind::Word(word));
    }
    if is_reserved(bytes) {
        return Ok(TokenKind::Reserved);
    }
    Ok(TokenKind::Name(Items::from_slice(alloc, bytes)?))
}

ghost use Rattle.std.specs.Prelude.{IfOk};

/// The longest mark at the front, and the bytes behind it.
pub fn mark_at(bytes: &[u8]) -> Option<(Mark, &[u8])>
    ensures value { option_map (λ x. (x.0, x.1.now)) result ≡ mark_at bytes.now }
    ensures within { IfSome result (λ x. length x.1.now < length bytes.now) }
{
    if let [_, _, rest @ ..] = bytes {
        if let Some(mark) = mark_of(&bytes[..2]) {
            return Some((mark, rest));
        }
    }
    let [_, rest @ ..] = bytes else {
        return None;
    };
    match mark_of(&bytes[..1]) {
        Some(mark) => Some((mark, rest)),
        None => None,
    }
}
