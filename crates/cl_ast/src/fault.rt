/// Why a source isn't tokens.
#[derive(Clone, Copy, Debug, PartialEq, Eq)]
pub enum LexKind {
    /// A byte that can't stand where it does: it begins no token and separates none, or can't go on the
    /// literal or number that it stands in. Its place is that byte, or the end behind `0x`.
    BadByte,
    /// A character or string literal that meets the end of its line or of the source. Its place is the
    /// opening quote.
    OpenString,
    /// A `/*` without its `*/`. Its place is the `/`.
    OpenComment,
    /// A number beyond 9223372036854775807. Its place is its first byte.
    WideLiteral,
    /// A line with `#` that is no `#include` and no `#define` of a literal. Its place is the `#`.
    BadDirective,
}
