//! Values and tuples as they are printed.

ghost use Rattle.std.specs.Prelude.{◌≡◌, [], ◌∷◌, ◌++◌, codes, MatchOption};
ghost use Rattle.std.specs.Fmt.{decimal, signed_decimal};
ghost use Rattle.cl_value.specs.Text.{escaped, escaped_all, text_in, value_text, more_values_text, values_text, tuple_text};
ghost use Rattle.cl_text.specs.Stages.{stage, Puts};
ghost use Rattle.cl_text.specs.Tables.{texts_of};

use crate::buffer::OutputBuffer;
use cl_outside::Sink;
use cl_value::Value;
use itoa::Buffer;

// A byte of a string literal as it is printed, where it isn't printed as it is.
fn escape_of(byte: u8) -> Option<&'static [u8]>
    ensures { MatchOption result (escaped byte ≡ byte ∷ []) (λ escape. escape.now ≡ escaped byte) }
{
    match byte {
        b'\n' => Some(b"\\n"),
        b'\t' => Some(b"\\t"),
        b'\r' => Some(b"\\r"),
        b'\\' => Some(b"\\\\"),
        b'"' => Some(b"\\\""),
        _ => None,
    }
}

// The text of a number in the table, or nothing.
fn text_at<'a>(texts: &[&'a [u8]], number: u32) -> &'a [u8]
    ensures { result.now ≡ text_in (texts_of texts.now) number }
{
    match texts.get(number as usize) {
        Some(text) => text,
        None => &[],
    }
}

impl OutputBuffer {
    /// Puts a number at the end, decimal without leading zeros. It takes no memory.
    pub fn put_number<O: Sink>(&mut self, out: &mut O, number: u64)
        ensures { Puts (decimal number) (stage (O.written out.old) (O.faults out.old) self.old) (stage (O.written out.new) (O.faults out.new) self.new) }
    {
        let mut digits = Buffer::new();
        self.put(out, digits.format(number).as_bytes());
    }

    /// Puts a number at the end, decimal without leading zeros, with `-` where it is negative. It takes no memory.
    pub fn put_signed<O: Sink>(&mut self, out: &mut O, number: i64)
        ensures { Puts (signed_decimal number) (stage (O.written out.old) (O.faults out.old) self.old) (stage (O.written out.new) (O.faults out.new) self.new) }
    {
        let mut digits = Buffer::new();
        self.put(out, digits.format(number).as_bytes());
    }

    // Puts a byte of a string literal at the end, as it is printed.
    fn put_escaped<O: Sink>(&mut self, out: &mut O, byte: u8)
        ensures { Puts (escaped byte) (stage (O.written out.old) (O.faults out.old) self.old) (stage (O.written out.new) (O.faults out.new) self.new) }
    {
        match escape_of(byte) {
            Some(escape) => self.put(out, escape),
            None => self.put(out, &[byte]),
        }
    }

    // Puts the bytes of a string literal at the end, as they are printed.
    fn put_all_escaped<O: Sink>(&mut self, out: &mut O, bytes: &[u8])
        ensures { Puts (escaped_all bytes.now) (stage (O.written out.old) (O.faults out.old) self.old) (stage (O.written out.new) (O.faults out.new) self.new) }
    {
        for byte in bytes {
            self.put_escaped(out, *byte);
        }
    }

    // Puts a string literal at the end, in quotes.
    fn put_quoted<O: Sink>(&mut self, out: &mut O, bytes: &[u8])
        ensures { Puts (codes "\"" ++ escaped_all bytes.now ++ codes "\"") (stage (O.written out.old) (O.faults out.old) self.old) (stage (O.written out.new) (O.faults out.new) self.new) }
    {
        self.put(out, b"\"");
        self.put_all_escaped(out, bytes);
        self.put(out, b"\"");
    }

    // Puts a `long` at the end, with `L` behind it.
    fn put_long<O: Sink>(&mut self, out: &mut O, number: i64)
        ensures { Puts (signed_decimal number ++ codes "L") (stage (O.written out.old) (O.faults out.old) self.old) (stage (O.written out.new) (O.faults out.new) self.new) }
    {
        self.put_signed(out, number);
        self.put(out, b"L");
    }

    // Puts a `char` at the end, as its number with `C` behind it.
    fn put_char<O: Sink>(&mut self, out: &mut O, number: u8)
        ensures { Puts (decimal number ++ codes "C") (stage (O.written out.old) (O.faults out.old) self.old) (stage (O.written out.new) (O.faults out.new) self.new) }
    {
        self.put_number(out, u64::from(number));
        self.put(out, b"C");
    }

    /// Puts a value at the end, as it is printed: an `int` in decimal, a `long` with `L` behind it, a `char` as its
    /// number with `C`, a text of the table in quotes, with escapes. A text whose number lies beyond the table has no
    /// bytes. It takes no memory.
    pub fn put_value<O: Sink>(&mut self, out: &mut O, texts: &[&[u8]], value: &Value)
        ensures { Puts (value_text (texts_of texts.now) value.now) (stage (O.written out.old) (O.faults out.old) self.old) (stage (O.written out.new) (O.faults out.new) self.new) }
    {
        match value {
            Value::Int(number) => self.put_signed(out, i64::from(*number)),
            Value::Long(number) => self.put_long(out, *number),
            Value::Char(number) => self.put_char(out, *number),
            Value::Text(number) => self.put_quoted(out, text_at(texts, *number)),
        }
    }

    // Puts values at the end, each behind a comma.
    fn put_more_values<O: Sink>(&mut self, out: &mut O, texts: &[&[u8]], values: &[Value])
        ensures { Puts (more_values_text (texts_of texts.now) values.now) (stage (O.written out.old) (O.faults out.old) self.old) (stage (O.written out.new) (O.faults out.new) self.new) }
    {
        for value in values {
            self.put(out, b",");
            self.put_value(out, texts, value);
        }
    }

    /// Puts values at the end, joined by commas. It takes no memory.
    pub fn put_values<O: Sink>(&mut self, out: &mut O, texts: &[&[u8]], values: &[Value])
        ensures { Puts (values_text (texts_of texts.now) values.now) (stage (O.written out.old) (O.faults out.old) self.old) (stage (O.written out.new) (O.faults out.new) self.new) }
    {
        if let [first, rest @ ..] = values {
            self.put_value(out, texts, first);
            self.put_more_values(out, texts, rest);
        }
    }

    /// Puts a tuple at the end, as it is printed: its values in brackets. It takes no memory.
    pub fn put_tuple<O: Sink>(&mut self, out: &mut O, texts: &[&[u8]], values: &[Value])
        ensures { Puts (tuple_text (texts_of texts.now) values.now) (stage (O.written out.old) (O.faults out.old) self.old) (stage (O.written out.new) (O.faults out.new) self.new) }
    {
        self.put(out, b"(");
        self.put_values(out, texts, values);
        self.put(out, b")");
    }
}
