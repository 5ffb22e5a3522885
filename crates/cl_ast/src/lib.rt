//! Tokens and trees, and the grammar of the language.
//!
//! The types are those that the lexer and the parser give. `specs/` has the grammar over plain tokens and the
//! trees that its parts mean. The crate has no calls but those of its list.
#![tactic(auto)]

mod fault;
mod mark;
mod parse_end;
mod span;
mod statement;
mod token;
mod tree;
mod word;

pub use fault::LexKind;
pub use mark::{MARKS, Mark};
pub use parse_end::ParseEnd;
pub use span::Span;
pub use statement::{
    Assign, Block, Change, Declarator, Define, Do, For, Form, Function, If, Item, Parameter, Print,
    Return, Size, Stmt, Unit, Variables, While,
};
pub use token::{Token, TokenKind};
pub use tree::{
    Call, Chain, Constant, Expr, Field, Formal, Link, Literal, Name, Operation, Operator, Place,
    Prefix, Spanned, Text, TypeName, Verb,
};
pub use word::{RESERVED, WORDS, Word};
