use crate::Span;
use crate::tree::{Call, Expr, Literal, Name, Operation, Place, Spanned, Text, TypeName};
use sqlite_items::{Boxed, Items};

/// A statement. (ISO/IEC 9899:1999, 6.8; the operations: Gelernter 1985.)
#[cycle(statements)]
#[derive(Drop)]
pub enum Stmt {
    /// Statements in braces.
    Block(Block),
    /// `;`
    Empty(Span),
    /// A declaration of variables.
    Variables(Variables),
    /// A change of a variable.
    Assign(Assign),
    /// A call of a function.
    Call(Call),
    /// A tuple operation.
    Operation(Operation),
    /// `printf`
    Print(Print),
    /// `if`
    If(If),
    /// `while`
    While(While),
    /// `do`
    Do(Do),
    /// `for`
    For(For),
    /// `break;`
    Break(Span),
    /// `continue;`
    Continue(Span),
    /// `return`
    Return(Return),
}

/// Statements in braces.
#[cycle(statements)]
#[derive(Drop)]
pub struct Block {
    /// The statements, in order.
    pub statements: Items<Stmt>,
    /// Its place.
    pub span: Span,
}

/// A declaration of variables of one type.
#[derive(Drop)]
pub struct Variables {
    /// The type.
    pub type_name: TypeName,
    /// The variables, in order; there is one at least.
    pub declarators: Items<Declarator>,
    /// Its place.
    pub span: Span,
}

/// A variable that is declared.
#[derive(Drop)]
pub struct Declarator {
    /// Its name.
    pub name: Name,
    /// What is said of it besides.
    pub form: Form,
    /// Its place.
    pub span: Span,
}

/// What a declaration says of a variable besides its name.
#[derive(Drop)]
pub enum Form {
    /// Nothing.
    Bare,
    /// It is an array of this size.
    Array(Size),
    /// It has this initial value.
    Value(Spanned),
}

/// The size of an array.
#[derive(Drop)]
pub enum Size {
    /// A number.
    Number(Literal),
    /// The name of a constant.
    Name(Name),
}

/// A change of a variable or of an element.
#[derive(Drop)]
pub struct Assign {
    /// What is changed.
    pub place: Place,
    /// How it is changed.
    pub change: Change,
    /// Its place.
    pub span: Span,
}

/// How a variable is changed.
#[derive(Drop)]
pub enum Change {
    /// `=`
    Set(Expr),
    /// `+=`
    Add(Expr),
    /// `-=`
    Subtract(Expr),
    /// `*=`
    Multiply(Expr),
    /// `++`, before it or behind
    Increment,
    /// `--`, before it or behind
    Decrement,
}

/// `printf` with its text and arguments.
#[derive(Drop)]
pub struct Print {
    /// The format.
    pub format: Text,
    /// The arguments, in order.
    pub arguments: Items<Spanned>,
    /// Its place.
    pub span: Span,
}

/// `if` with its condition and statements.
#[cycle(statements)]
#[derive(Drop)]
pub struct If {
    /// The condition.
    pub test: Expr,
    /// The statement where it holds.
    pub yes: Boxed<Stmt>,
    /// The statement behind `else`.
    pub no: Option<Boxed<Stmt>>,
    /// Its place.
    pub span: Span,
}

/// `while` with its condition and statement.
#[cycle(statements)]
#[derive(Drop)]
pub struct While {
    /// The condition.
    pub test: Expr,
    /// The statement.
    pub body: Boxed<Stmt>,
    /// Its place.
    pub span: Span,
}

/// `do` with its statement and condition.
#[cycle(statements)]
#[derive(Drop)]
pub struct Do {
    /// The statement.
    pub body: Boxed<Stmt>,
    /// The condition.
    pub test: Expr,
    /// Its place.
    pub span: Span,
}

/// `for` with its head and statement.
#[cycle(statements)]
#[derive(Drop)]
pub struct For {
    /// The statement before all.
    pub first: Option<Boxed<Stmt>>,
    /// The condition.
    pub test: Option<Expr>,
    /// The statement behind each turn.
    pub step: Option<Boxed<Stmt>>,
    /// The statement.
    pub body: Boxed<Stmt>,
    /// Its place.
    pub span: Span,
}

/// `return`, perhaps with a value.
#[derive(Drop)]
pub struct Return {
    /// The value.
    pub value: Option<Expr>,
    /// Its place.
    pub span: Span,
}

/// A whole source. (ISO/IEC 9899:1999, 6.9.)
#[derive(Drop)]
pub struct Unit {
    /// Its items, in order.
    pub items: Items<Item>,
}

/// A part of a source outside all others. (ISO/IEC 9899:1999, 6.9.)
#[derive(Drop)]
pub enum Item {
    /// A constant that is defined.
    Define(Define),
    /// Variables that all functions share.
    Variables(Variables),
    /// A function.
    Function(Function),
}

/// `#define` with a name and a literal.
#[derive(Drop)]
pub struct Define {
    /// The name.
    pub name: Name,
    /// Whether a minus stands before the literal.
    pub is_negative: bool,
    /// The literal.
    pub literal: Literal,
    /// Its place.
    pub span: Span,
}

/// A parameter of a function.
#[derive(Drop)]
pub struct Parameter {
    /// Its type.
    pub type_name: TypeName,
    /// Its name.
    pub name: Name,
    /// Its place.
    pub span: Span,
}

/// A function.
#[derive(Drop)]
pub struct Function {
    /// The type of its result, `int` where none is written; none at `void`.
    pub result: Option<TypeName>,
    /// Its name.
    pub name: Name,
    /// Its parameters, in order; `(void)` and `()` are none.
    pub parameters: Items<Parameter>,
    /// Its statements.
    pub body: Block,
    /// Its place.
    pub span: Span,
}
