/// A word that a rule of the grammar uses. (ISO/IEC 9899:1999, 6.4.1; the words of tuple operations:
/// Gelernter 1985; `printf` as a word: this project.)
#[derive(Clone, Copy, Debug, PartialEq, Eq)]
pub enum Word {
    /// `int`
    Int,
    /// `long`
    Long,
    /// `char`
    Char,
    /// `void`
    Void,
    /// `if`
    If,
    /// `else`
    Else,
    /// `while`
    While,
    /// `do`
    Do,
    /// `for`
    For,
    /// `break`
    Break,
    /// `continue`
    Continue,
    /// `return`
    Return,
    /// `out`
    Out,
    /// `in`
    In,
    /// `rd`
    Rd,
    /// `inp`
    Inp,
    /// `rdp`
    Rdp,
    /// `eval`
    Eval,
    /// `printf`
    Printf,
}

/// The words with their spellings. The definition of tokens and the lexer share this table.
pub const WORDS: [(&[u8], Word); 19] = [
    (b"int", Word::Int),
    (b"long", Word::Long),
    (b"char", Word::Char),
    (b"void", Word::Void),
    (b"if", Word::If),
    (b"else", Word::Else),
    (b"while", Word::While),
    (b"do", Word::Do),
    (b"for", Word::For),
    (b"break", Word::Break),
    (b"continue", Word::Continue),
    (b"return", Word::Return),
    (b"out", Word::Out),
    (b"in", Word::In),
    (b"rd", Word::Rd),
    (b"inp", Word::Inp),
    (b"rdp", Word::Rdp),
    (b"eval", Word::Eval),
    (b"printf", Word::Printf),
];

/// The words that C reserves besides and no rule uses: none is a name. (ISO/IEC 9899:1999, 6.4.1.)
pub const RESERVED: [&[u8]; 20] = [
    b"auto",
    b"case",
    b"const",
    b"default",
    b"double",
    b"enum",
    b"extern",
    b"float",
    b"goto",
    b"register",
    b"short",
    b"signed",
    b"sizeof",
    b"static",
    b"struct",
    b"switch",
    b"typedef",
    b"union",
    b"unsigned",
    b"volatile",
];
