use crate::Span;
use sqlite_items::{Boxed, Items};

/// A type of values, as it is written. (ISO/IEC 9899:1999, 6.7.2.)
#[derive(Clone, Copy, Debug, PartialEq, Eq)]
pub enum TypeName {
    /// `int`
    Int,
    /// `long`
    Long,
    /// `char`
    Char,
}

/// The operator between two operands of an expression. (ISO/IEC 9899:1999, 6.5.5 to 6.5.14.)
#[derive(Clone, Copy, Debug, PartialEq, Eq)]
pub enum Operator {
    /// `||`
    Or,
    /// `&&`
    And,
    /// `==`
    Equal,
    /// `!=`
    NotEqual,
    /// `<`
    Less,
    /// `<=`
    LessEqual,
    /// `>`
    Greater,
    /// `>=`
    GreaterEqual,
    /// `+`
    Add,
    /// `-`
    Subtract,
    /// `*`
    Multiply,
    /// `/`
    Divide,
    /// `%`
    Remainder,
}

/// A tuple operation. (Gelernter 1985.)
#[derive(Clone, Copy, Debug, PartialEq, Eq)]
pub enum Verb {
    /// `out`
    Out,
    /// `in`
    In,
    /// `rd`
    Rd,
    /// `inp`
    Inp,
    /// `rdp`
    Rdp,
    /// `eval`
    Eval,
}

/// A name where it is used or declared.
#[derive(Drop)]
pub struct Name {
    /// Its bytes.
    pub bytes: Items<u8>,
    /// Its place.
    pub span: Span,
}

/// What a literal means.
#[derive(Clone, Copy, Debug, PartialEq, Eq)]
pub enum Constant {
    /// A number of type `int`, from 0 to 2147483647.
    Int(i32),
    /// A number of type `long`, from 0 to 9223372036854775807.
    Long(i64),
    /// A character, by its byte.
    Character(u8),
}

/// A literal.
#[derive(Clone, Copy, Debug, PartialEq, Eq)]
pub struct Literal {
    /// What it means.
    pub value: Constant,
    /// Its place.
    pub span: Span,
}

/// A string.
#[derive(Drop)]
pub struct Text {
    /// The bytes that it means.
    pub bytes: Items<u8>,
    /// Its place.
    pub span: Span,
}

/// An expression. Brackets round it aren't kept. (ISO/IEC 9899:1999, 6.5.)
#[cycle(tree)]
#[derive(Drop)]
pub enum Expr {
    /// A literal.
    Literal(Literal),
    /// A variable, or an element of an array.
    Place(Place),
    /// A call of a function.
    Call(Call),
    /// `inp` or `rdp`, which tell whether a tuple was there.
    Operation(Operation),
    /// Operands with operators of one level between them.
    Chain(Chain),
    /// `-` and its operand.
    Negate(Prefix),
    /// `!` and its operand.
    Not(Prefix),
}

/// An expression with the place of all its tokens, brackets round it too.
#[derive(Drop)]
pub struct Spanned {
    /// The expression.
    pub expr: Expr,
    /// The place, from its first token on.
    pub span: Span,
}

/// A name, with an index where it is an element of an array.
#[cycle(tree)]
#[derive(Drop)]
pub struct Place {
    /// The variable.
    pub name: Name,
    /// The index.
    pub index: Option<Boxed<Expr>>,
    /// Its place.
    pub span: Span,
}

/// A call of a function.
#[cycle(tree)]
#[derive(Drop)]
pub struct Call {
    /// The function.
    pub name: Name,
    /// The arguments, in order.
    pub arguments: Items<Expr>,
    /// Its place.
    pub span: Span,
}

/// A tuple operation.
#[cycle(tree)]
#[derive(Drop)]
pub struct Operation {
    /// Which it is.
    pub verb: Verb,
    /// The fields, in order; there is one at least.
    pub fields: Items<Field>,
    /// Its place.
    pub span: Span,
}

/// A field of an operation. (Gelernter 1985.)
#[cycle(tree)]
#[derive(Drop)]
pub enum Field {
    /// A string.
    Text(Text),
    /// `?` and the place that is given a value.
    Formal(Formal),
    /// An expression.
    Plain(Expr),
}

/// `?` and the place that is given a value.
#[cycle(tree)]
#[derive(Drop)]
pub struct Formal {
    /// The place.
    pub target: Place,
    /// Where it stands, from the `?` on.
    pub span: Span,
}

/// Operands with operators of one level between them, read from the left.
#[cycle(tree)]
#[derive(Drop)]
pub struct Chain {
    /// The first operand.
    pub first: Boxed<Expr>,
    /// Each operator with the operand behind it; there is one at least.
    pub others: Items<Link>,
    /// Its place.
    pub span: Span,
}

/// An operator with the operand behind it.
#[cycle(tree)]
#[derive(Drop)]
pub struct Link {
    /// The operator.
    pub operator: Operator,
    /// The operand.
    pub operand: Expr,
}

/// A prefix operator and its operand.
#[cycle(tree)]
#[derive(Drop)]
pub struct Prefix {
    /// The operand.
    pub operand: Boxed<Expr>,
    /// Its place, from the operator on.
    pub span: Span,
}
