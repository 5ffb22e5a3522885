/// What `printf` writes at a place of its text. (ISO/IEC 9899:1999, 7.19.6.1.)
#[derive(Clone, Copy, Debug, PartialEq, Eq)]
pub enum Directive {
    /// `%d`, an `int` or a `char` in decimal.
    Decimal,
    /// `%ld`, a `long` in decimal.
    LongDecimal,
    /// `%c`, the byte that an `int` or a `char` is.
    Character,
}
