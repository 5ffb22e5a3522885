//! Splits a source into its tokens.
//!
//! `lex` is Ok exactly where the grammar of tokens (`cl_ast`'s `specs/`) splits the source, and gives those
//! tokens; else it gives the first place where scanning from the left can't go on, and why.
#![tactic(auto)]

mod byte;
mod comment;
mod lexer;
mod line;
mod literal;
mod put;
mod scan;
mod stop;
mod table;

pub use cl_ast::LexKind;
pub use lexer::{LexEnd, lex};
