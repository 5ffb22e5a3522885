/// A mark: a bracket, an operator or another token of one or two bytes that are no letters. (ISO/IEC
/// 9899:1999, 6.4.6; which of C's marks there are: this project.)
#[derive(Clone, Copy, Debug, PartialEq, Eq)]
pub enum Mark {
    /// `(`
    OpenBracket,
    /// `)`
    CloseBracket,
    /// `[`
    OpenSquare,
    /// `]`
    CloseSquare,
    /// `{`
    OpenBrace,
    /// `}`
    CloseBrace,
    /// `,`
    Comma,
    /// `;`
    Semicolon,
    /// `?`
    Question,
    /// `=`
    Assign,
    /// `+=`
    PlusAssign,
    /// `-=`
    MinusAssign,
    /// `*=`
    TimesAssign,
    /// `++`
    Increment,
    /// `--`
    Decrement,
    /// `+`
    Plus,
    /// `-`
    Minus,
    /// `*`
    Times,
    /// `/`
    Divide,
    /// `%`
    Remainder,
    /// `!`
    Not,
    /// `<`
    Less,
    /// `<=`
    LessEqual,
    /// `>`
    Greater,
    /// `>=`
    GreaterEqual,
    /// `==`
    Equal,
    /// `!=`
    NotEqual,
    /// `&&`
    And,
    /// `||`
    Or,
}

/// The marks with their spellings, the longer ones first. The definition of tokens and the lexer share
/// this table.
pub const MARKS: [(&[u8], Mark); 29] = [
    (b"+=", Mark::PlusAssign),
    (b"-=", Mark::MinusAssign),
    (b"*=", Mark::TimesAssign),
    (b"++", Mark::Increment),
    (b"--", Mark::Decrement),
    (b"<=", Mark::LessEqual),
    (b">=", Mark::GreaterEqual),
    (b"==", Mark::Equal),
    (b"!=", Mark::NotEqual),
    (b"&&", Mark::And),
    (b"||", Mark::Or),
    (b"(", Mark::OpenBracket),
    (b")", Mark::CloseBracket),
    (b"[", Mark::OpenSquare),
    (b"]", Mark::CloseSquare),
    (b"{", Mark::OpenBrace),
    (b"}", Mark::CloseBrace),
    (b",", Mark::Comma),
    (b";", Mark::Semicolon),
    (b"?", Mark::Question),
    (b"=", Mark::Assign),
    (b"+", Mark::Plus),
    (b"-", Mark::Minus),
    (b"*", Mark::Times),
    (b"/", Mark::Divide),
    (b"%", Mark::Remainder),
    (b"!", Mark::Not),
    (b"<", Mark::Less),
    (b">", Mark::Greater),
];
