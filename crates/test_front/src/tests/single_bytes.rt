// Each byte alone, and inside a string, a character and a comment.

use super::Verdict::{Bytes, Syntax, Types};
use super::{Verdict, judge};
use cl_ast::LexKind::{BadByte, BadDirective, OpenString};
use cl_types::TypeKind;
use std::alloc::Global;

// What a source comes to that has no tokens.
const NOTHING: Verdict = Types(0, TypeKind::NoMain);

// What a source comes to that is this byte alone.
fn alone(byte: u8) -> Verdict {
    match byte {
        b'\t'..=b'\r' | b' ' => NOTHING,
        b'"' | b'\'' => Bytes(0, OpenString),
        b'#' => Bytes(0, BadDirective),
        b'A'..=b'Z' | b'a'..=b'z' | b'_' => Syntax(1),
        b'0'..=b'9' => Syntax(0),
        _ => mark(byte),
    }
}

// What a source comes to that is this byte alone, which begins a mark or nothing.
fn mark(byte: u8) -> Verdict {
    if b"()[]{},;?=+-*/%!<>".contains(&byte) {
        Syntax(0)
    } else {
        Bytes(0, BadByte)
    }
}

// What it comes to between quotes that open a string.
fn in_string(byte: u8) -> Verdict {
    match byte {
        b'\n' | b'\\' => Bytes(0, OpenString),
        b'"' => Bytes(2, OpenString),
        b'\t' | 32..=126 | 128..=255 => Syntax(0),
        _ => Bytes(1, BadByte),
    }
}

// What it comes to between quotes that open a character.
fn in_character(byte: u8) -> Verdict {
    match byte {
        b'\n' | b'\\' => Bytes(0, OpenString),
        b'\'' => Bytes(1, BadByte),
        32..=126 => Syntax(0),
        _ => Bytes(1, BadByte),
    }
}

fn is_read_so(alloc: Global, byte: u8) -> bool {
    judge(alloc, &[byte]) == alone(byte)
        && judge(alloc, &[b'"', byte, b'"']) == in_string(byte)
        && judge(alloc, &[b'\'', byte, b'\'']) == in_character(byte)
        && judge(alloc, &[b'/', b'*', byte, b'*', b'/']) == NOTHING
}

#[test]
fn every_byte(rt: HostRuntime) {
    for byte in 0..=255u8 {
        assert!(rt; is_read_so(rt.alloc(), byte), "{byte}");
    }
}
