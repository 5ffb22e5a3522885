//! The canonical text of a source: all tokens of its tree, with one blank or one LF between them, and with
//! brackets round operands exactly where the grammar needs them.
#![tactic(auto)]

mod expression;
mod item;
mod statement;
mod writer;

pub use item::print;
