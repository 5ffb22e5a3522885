//! Kinds of bytes, and how many of one kind stand in a row.

ghost use Rattle.std.specs.Prelude.{◌≡◌, ◌≤◌, ◌==◌, length};
ghost use Rattle.cl_ast.specs.Bytes.{is_separator, is_letter, is_x, is_string_byte, is_character_byte, is_escape, is_character_escape, escape_byte, digit_value, begins_with};
ghost use Rattle.cl_ast.specs.Rows.{run, front_run, after_run, behind_first};
ghost use Rattle.cl_token.specs.Scanning.{kind_test};

/// A kind of byte.
#[derive(Clone, Copy)]
pub enum Kind {
    /// Space and tab.
    Space,
    /// What separates tokens inside a line.
    Blank,
    /// Any byte but LF.
    InLine,
    Digit,
    HexadecimalDigit,
    /// A letter, a digit or `_`.
    NameByte,
}

/// Whether the byte is of the kind.
pub fn is_of(kind: Kind, byte: u8) -> bool
    ensures { result ≡ kind_test kind byte }
{
    match kind {
        Kind::Space => byte == 32 || byte == 9,
        Kind::Blank => byte == 32 || byte == 9 || (11 <= byte && byte <= 13),
        Kind::InLine => byte != 10,
        Kind::Digit => 48 <= byte && byte <= 57,
        Kind::HexadecimalDigit => is_hexadecimal_digit(byte),
        Kind::NameByte => is_letter(byte) || (48 <= byte && byte <= 57),
    }
}

ghost use Rattle.cl_ast.specs.Bytes.{is_hexadecimal_digit};

fn is_hexadecimal_digit(byte: u8) -> bool
    ensures { result ≡ is_hexadecimal_digit byte }
{
    (48 <= byte && byte <= 57) || (65 <= byte && byte <= 70) || (97 <= byte && byte <= 102)
}

/// Whether the byte separates tokens.
pub fn is_separator(byte: u8) -> bool
    ensures { result ≡ is_separator byte }
{
    byte == 32 || (9 <= byte && byte <= 13)
}

/// Whether the byte is a letter or `_`.
pub fn is_letter(byte: u8) -> bool
    ensures { result ≡ is_letter byte }
{
    (65 <= byte && byte <= 90) || (97 <= byte && byte <= 122) || byte == 95
}

/// Whether the byte is `x` or `X`.
pub fn is_x(byte: u8) -> bool
    ensures { result ≡ is_x byte }
{
    byte == b'x' || byte == b'X'
}

/// Whether a string holds the byte as it is.
pub fn is_string_byte(byte: u8) -> bool
    ensures { result ≡ is_string_byte byte }
{
    byte == 9 || (32 <= byte && byte <= 126 && byte != 34 && byte != 92) || 128 <= byte
}

/// Whether a character literal holds the byte as it is.
pub fn is_character_byte(byte: u8) -> bool
    ensures { result ≡ is_character_byte byte }
{
    32 <= byte && byte <= 126 && byte != 39 && byte != 92
}

/// Whether a backslash and the letter are an escape.
pub fn is_escape(letter: u8) -> bool
    ensures { result ≡ is_escape letter }
{
    letter == b'n'
        || letter == b't'
        || letter == b'r'
        || letter == b'\\'
        || letter == b'\''
        || letter == b'"'
}

/// Whether they are one in a character literal.
pub fn is_character_escape(letter: u8) -> bool
    ensures { result ≡ is_character_escape letter }
{
    letter == b'0' || is_escape(letter)
}

/// The byte that the escape of a letter means.
pub fn escape_byte(letter: u8) -> u8
    ensures { result ≡ escape_byte letter }
{
    match letter {
        b'n' => b'\n',
        b't' => b'\t',
        b'r' => b'\r',
        b'0' => 0,
        _ => letter,
    }
}

/// The value of a digit of a base up to 16.
pub fn digit_value(byte: u8) -> u8
    ensures { result ≡ digit_value byte }
{
    if byte <= 57 {
        byte.saturating_sub(48)
    } else if byte <= 70 {
        byte.saturating_sub(55)
    } else {
        byte.saturating_sub(87)
    }
}

/// Whether the bytes begin with this one.
pub fn begins(wanted: u8, bytes: &[u8]) -> bool
    ensures { result ≡ begins_with (λ byte. byte == wanted) bytes.now }
{
    match bytes {
        [byte, ..] => *byte == wanted,
        [] => false,
    }
}

/// Whether the bytes begin with one of the kind.
pub fn begins_of(kind: Kind, bytes: &[u8]) -> bool
    ensures { result ≡ begins_with (kind_test kind) bytes.now }
{
    match bytes {
        [byte, ..] => is_of(kind, *byte),
        [] => false,
    }
}

/// The bytes behind the first.
pub fn behind_first(bytes: &[u8]) -> &[u8]
    ensures value { result.now ≡ behind_first bytes.now }
    ensures within { length result.now ≤ length bytes.now }
{
    match bytes {
        [_, rest @ ..] => rest,
        [] => bytes,
    }
}

// How many bytes of the kind stand at the front.
fn run_of(kind: Kind, bytes: &[u8]) -> usize
    ensures count { result ≡ run (kind_test kind) bytes.now }
    ensures within { result ≤ length bytes.now }
{
    for (i, byte) in bytes.iter().enumerate() {
        if !is_of(kind, *byte) {
            return i;
        }
    }
    bytes.len()
}

/// The bytes of the kind at the front, and those behind them.
pub fn split_run(kind: Kind, bytes: &[u8]) -> (&[u8], &[u8])
    ensures front { result.0.now ≡ front_run (kind_test kind) bytes.now }
    ensures rest { result.1.now ≡ after_run (kind_test kind) bytes.now }
    ensures within { length result.1.now ≤ length bytes.now }
{
    bytes.split_at(run_of(kind, bytes))
}
