use crate::{Mark, Span, Word};
use cl_ground::Items;

/// What a token is. (ISO/IEC 9899:1999, 6.4; which tokens there are: this project.)
#[derive(Drop)]
pub enum TokenKind {
    /// A name: a letter or `_`, then letters, digits and `_`, that is no word.
    Name(Items<u8>),
    /// A number of type `int`, from 0 to 2147483647.
    Int(i32),
    /// A number of type `long`, from 0 to 9223372036854775807.
    Long(i64),
    /// A character literal, by the byte that it means.
    Character(u8),
    /// A string literal, by the bytes that it means.
    Str(Items<u8>),
    /// A word that a rule of the grammar uses.
    Word(Word),
    /// A word that C reserves and no rule uses.
    Reserved,
    /// A mark.
    Mark(Mark),
    /// The front of a `#define` line, from its `#` to the word's last byte.
    Define,
}

/// A token and its place.
#[derive(Drop)]
pub struct Token {
    /// What it is.
    pub kind: TokenKind,
    /// Where it stands in its source.
    pub span: Span,
}
