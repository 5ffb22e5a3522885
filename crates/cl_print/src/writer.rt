//! Bytes that are put together token by token.

ghost use Rattle.std.specs.Prelude.{◌≡◌, ◌==◌, [], ◌++◌, ◌∷◌, map, OnOk, length};
ghost use Rattle.cl_ast.specs.Plain as kinds;
ghost use Rattle.cl_ast.specs.Lexemes.{character_spelling, characters_spelling};
ghost use Rattle.cl_ast.specs.Classes.{word_class, mark_class};
ghost use Rattle.cl_print.specs.Spelling.{bytes_of, word_bytes, mark_bytes, mark_gap, gap_bytes, in_string, in_character, spelling, one, after};
ghost use Rattle.cl_print.specs.Expressions.{constant_kind};

use cl_ast::{Constant, MARKS, Mark, Name, Text, WORDS, Word};
use cl_ground::{Items, NoMemory};
use itoa::Buffer;
use std::alloc::Global;
use std::marker::Model;

/// A text that grows. Contracts see its bytes in order.
#[derive(Drop)]
pub struct Writer {
    bytes: Items<u8>,
}

impl Model for Writer {
    ghost use Rattle.std.specs.Prelude.{List, ℕ};

    ghost Value = { List ℕ };

    ghost view = { λ w. w.bytes.items };
}

/// Whether two words are the same.
#[tactic(auto, using(crate::proofs::Words::same_word))]
fn is_word(a: Word, b: Word) -> bool
    ensures { result ≡ (word_class a == word_class b) }
{
    a == b
}

/// Whether two marks are the same.
#[tactic(auto, using(cl_ast::proofs::Marks::same_mark))]
fn is_mark(a: Mark, b: Mark) -> bool
    ensures { result ≡ (mark_class a == mark_class b) }
{
    a == b
}

/// The bytes beside the word in a table.
fn word_in<'a>(mut table: &[(&'a [u8], Word)], word: Word) -> &'a [u8]
    ensures { result.now ≡ bytes_of (λ x. word_class x == word_class word) (map (λ e. (e.0.now, e.1)) table.entry.now) }
{
    while let [entry, rest @ ..] = table {
        if is_word(entry.1, word) {
            return entry.0;
        }
        table = rest;
    }
    &[]
}

/// The bytes of a word.
#[tactic(auto, unfolding(crate::specs::Spelling::word_bytes))]
fn word_bytes(word: Word) -> &'static [u8]
    ensures { result.now ≡ word_bytes word }
{
    word_in(&WORDS, word)
}

/// The bytes beside the mark in a table.
fn mark_in<'a>(mut table: &[(&'a [u8], Mark)], mark: Mark) -> &'a [u8]
    ensures { result.now ≡ bytes_of (λ x. mark_class x == mark_class mark) (map (λ e. (e.0.now, e.1)) table.entry.now) }
{
    while let [entry, rest @ ..] = table {
        if is_mark(entry.1, mark) {
            return entry.0;
        }
        table = rest;
    }
    &[]
}

/// The bytes of a mark.
#[tactic(auto, unfolding(crate::specs::Spelling::mark_bytes))]
fn mark_bytes(mark: Mark) -> &'static [u8]
    ensures { result.now ≡ mark_bytes mark }
{
    mark_in(&MARKS, mark)
}

/// What stands behind a mark.
fn gap(mark: Mark) -> &'static [u8]
    ensures { result.now ≡ gap_bytes (mark_gap mark) }
{
    match mark {
        Mark::OpenBrace | Mark::CloseBrace | Mark::Semicolon => b"\n",
        _ => b" ",
    }
}

impl Writer {
    /// No bytes.
    pub fn new(alloc: Global) -> Writer
        ensures { result ≡ [] }
    {
        Writer {
            bytes: Items::new(alloc),
        }
    }

    /// The bytes.
    pub fn into_bytes(self) -> Items<u8>
        ensures { result.items ≡ self }
    {
        self.bytes
    }

    /// Puts bytes at the end.
    pub fn put(&mut self, bytes: &[u8]) -> Result<(), NoMemory>
        ensures { OnOk result (self.new ≡ self.old ++ bytes.now) }
    {
        self.bytes.reserve(bytes.len())?;
        self.bytes.push_all(bytes);
        Ok(())
    }

    /// Puts a word and a blank at the end.
    #[tactic(auto, using(crate::proofs::Lines::after_word))]
    pub fn word(&mut self, word: Word) -> Result<(), NoMemory>
        ensures { OnOk result (self.new ≡ after self.old (one (kinds.Keyword word))) }
    {
        self.put(word_bytes(word))?;
        self.put(b" ")
    }

    /// Puts a mark at the end, and a blank or LF.
    #[tactic(auto, using(crate::proofs::Lines::after_mark))]
    pub fn mark(&mut self, mark: Mark) -> Result<(), NoMemory>
        ensures { OnOk result (self.new ≡ after self.old (one (kinds.Punctuator mark))) }
    {
        self.put(mark_bytes(mark))?;
        self.put(gap(mark))
    }

    /// Puts a name and a blank at the end.
    #[tactic(auto, using(crate::proofs::Lines::after_name))]
    pub fn name(&mut self, name: &Name) -> Result<(), NoMemory>
        ensures { OnOk result (self.new ≡ after self.old (one (kinds.Name name.now.bytes))) }
    {
        self.put(name.bytes.as_slice())?;
        self.put(b" ")
    }

    /// Puts a byte of a string at the end, by an escape where it can't stand as it is.
    fn put_in_string(&mut self, byte: u8) -> Result<(), NoMemory>
        ensures { OnOk result (self.new ≡ self.old ++ character_spelling (in_string byte)) }
    {
        match byte {
            b'\n' => self.put(b"\\n"),
            b'\r' => self.put(b"\\r"),
            b'\\' => self.put(b"\\\\"),
            b'"' => self.put(b"\\\""),
            other => self.put(&[other]),
        }
    }

    /// Puts a string and a blank at the end.
    #[tactic(auto, using(crate::proofs::Lines::after_text))]
    pub fn text(&mut self, text: &Text) -> Result<(), NoMemory>
        ensures { OnOk result (self.new ≡ after self.old (one (kinds.Str text.now.bytes))) }
    {
        self.put(b"\"")?;
        self.put_all_in_string(text.bytes.as_slice())?;
        self.put(b"\" ")
    }

    fn put_all_in_string(&mut self, bytes: &[u8]) -> Result<(), NoMemory>
        ensures { OnOk result (self.new ≡ self.old ++ characters_spelling (map in_string bytes.now)) }
    {
        for byte in bytes {
            self.put_in_string(*byte)?;
        }
        Ok(())
    }

    /// Puts the byte of a character literal at the end, by an escape where it can't stand as it is.
    fn put_in_character(&mut self, byte: u8) -> Result<(), NoMemory>
        ensures { OnOk result (self.new ≡ self.old ++ character_spelling (in_character byte)) }
    {
        match byte {
            b'\n' => self.put(b"\\n"),
            b'\t' => self.put(b"\\t"),
            b'\r' => self.put(b"\\r"),
            0 => self.put(b"\\0"),
            b'\\' => self.put(b"\\\\"),
            b'\'' => self.put(b"\\'"),
            other => self.put(&[other]),
        }
    }

    /// Puts a number or a character at the end, and nothing behind it.
    #[tactic(auto, using(crate::proofs::Lines::int_spelling, crate::proofs::Lines::long_spelling, crate::proofs::Lines::character_spelled))]
    pub fn bare_constant(&mut self, value: Constant) -> Result<(), NoMemory>
        ensures { OnOk result (self.new ≡ self.old ++ spelling (constant_kind value)) }
    {
        let mut digits = Buffer::new();
        match value {
            Constant::Int(number) => self.put(digits.format(number).as_bytes()),
            Constant::Long(number) => {
                self.put(digits.format(number).as_bytes())?;
                self.put(b"L")
            }
            Constant::Character(byte) => {
                self.put(b"'")?;
                self.put_in_character(byte)?;
                self.put(b"'")
            }
        }
    }

    /// Puts a number or a character at the end, and a blank.
    #[tactic(auto, using(crate::proofs::Lines::after_constant))]
    pub fn constant(&mut self, value: Constant) -> Result<(), NoMemory>
        ensures { OnOk result (self.new ≡ after self.old (one (constant_kind value))) }
    {
        self.bare_constant(value)?;
        self.put(b" ")
    }
}
