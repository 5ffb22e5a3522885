//! What a process prints. (ISO/IEC 9899:1999, 7.19.6.1.)

ghost use Rattle.std.specs.Prelude.{◌≡◌, ◌<◌, ◌≤◌, List, length, Some, vec_capacity};
ghost use Rattle.cl_ground.specs.declared.limits.TheConstants.{MOST_PRINTED};
ghost use Rattle.cl_code.specs.Formats.{Piece, count_of, pieces};
ghost use Rattle.cl_vm.specs.Printing.{Added, Prints, bytes_of, first_byte, kind_of, piece_bytes, second_byte, takes_of};

use crate::arithmetic::byte_of;
use cl_ground::MOST_PRINTED;
use itoa::Buffer;

/// A piece of the text of a `printf`.
#[derive(Clone, Copy)]
pub enum PieceKind {
    /// A byte as it is.
    Byte(u8),
    /// A number in decimal.
    Decimal,
    /// The byte of a number modulo 256.
    Character,
}

fn first_byte(text: &[u8]) -> u8
    ensures { result ≡ first_byte text.now }
{
    match text {
        [] => 0,
        [byte, ..] => *byte,
    }
}

fn second_byte(text: &[u8]) -> u8
    ensures { result ≡ second_byte text.now }
{
    match text {
        [] => 0,
        [_, rest @ ..] => first_byte(rest),
    }
}

// The piece that begins with these two bytes, and how many it has.
fn piece_of(a: u8, b: u8) -> (PieceKind, usize)
    ensures kind { result.0 ≡ kind_of a b }
    ensures bytes { result.1 ≡ bytes_of a b }
{
    if a != b'%' {
        (PieceKind::Byte(a), 1)
    } else if b == b'd' {
        (PieceKind::Decimal, 2)
    } else if b == b'c' {
        (PieceKind::Character, 2)
    } else if b == b'%' {
        (PieceKind::Byte(b'%'), 2)
    } else {
        (PieceKind::Decimal, 3)
    }
}

// Adds bytes, into room that was made before, unless they would be too many.
fn add(output: &mut Vec<u8>, bytes: &[u8]) -> bool
    requires room { MOST_PRINTED ≤ vec_capacity output.old }
    requires few { length output.old.items ≤ MOST_PRINTED }
    ensures added { Added output.old.items result bytes.now output.new.items }
    ensures capacity { vec_capacity output.new ≡ vec_capacity output.old }
{
    if bytes.len() > MOST_PRINTED - output.len() {
        return false;
    }
    for byte in bytes {
        output.push_reserved(*byte);
    }
    true
}

// How many numbers a piece takes.
fn takes(piece: PieceKind) -> usize
    ensures { result ≡ takes_of piece }
{
    match piece {
        PieceKind::Byte(_) => 0,
        PieceKind::Decimal => 1,
        PieceKind::Character => 1,
    }
}

// Prints a piece, whose number is the first of these.
fn print_piece(output: &mut Vec<u8>, piece: PieceKind, numbers: &[i64]) -> bool
    requires room { MOST_PRINTED ≤ vec_capacity output.old }
    requires few { length output.old.items ≤ MOST_PRINTED }
    requires numbers { takes_of piece ≤ length numbers.now }
    ensures added { Added output.old.items result (piece_bytes piece numbers.now) output.new.items }
    ensures capacity { vec_capacity output.new ≡ vec_capacity output.old }
{
    match piece {
        PieceKind::Byte(byte) => add(output, &[byte]),
        PieceKind::Decimal => {
            let mut digits = Buffer::new();
            add(output, digits.format(numbers[0]).as_bytes())
        }
        PieceKind::Character => add(output, &[byte_of(numbers[0])]),
    }
}

/// Prints a text with these numbers, into room that was made before. Where the bytes would be too many, it prints
/// nothing and answers `false`.
pub fn print_text(output: &mut Vec<u8>, text: &[u8], numbers: &[i64]) -> bool
    requires right { (all : List Piece) × (pieces text.now ≡ Some all) × (count_of all ≤ length numbers.now) }
    requires room { MOST_PRINTED ≤ vec_capacity output.old }
    requires few { length output.old.items ≤ MOST_PRINTED }
    ensures prints { Prints output.old.items result output.new.items text.now numbers.now }
    ensures capacity { vec_capacity output.new ≡ vec_capacity output.old }
{
    let before = output.len();
    let mut i = 0;
    let mut k = 0;
    'pieces: while i < text.len() {
        let rest = &text[i..];
        let (piece, count) = piece_of(first_byte(rest), second_byte(rest));
        let left = &numbers[k..];
        if !print_piece(output, piece, left) {
            output.truncate(before);
            return false;
        }
        i += count;
        k += takes(piece);
    }
    true
}

/// How many numbers a text prints.
pub fn count_numbers(text: &[u8]) -> usize
    requires { (all : List Piece) × (pieces text.now ≡ Some all) }
    ensures { (all : List Piece) → pieces text.now ≡ Some all → result ≡ count_of all }
{
    let mut i = 0;
    let mut k = 0;
    'pieces: while i < text.len() {
        let rest = &text[i..];
        let (piece, count) = piece_of(first_byte(rest), second_byte(rest));
        i += count;
        k += takes(piece);
    }
    k
}
