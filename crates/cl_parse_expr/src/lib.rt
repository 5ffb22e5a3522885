//! Expressions: from tokens to their trees, by recursive descent.
#![tactic(auto)]

mod class;
mod expr;
mod failure;
mod nodes;
mod public;
mod tokens;

pub use class::{Class, Level};
pub use expr::{arguments, fields, index, level, place};
pub use failure::Failure;
pub use nodes::{literal, name, span, text, verb};
pub use public::expression;
pub use tokens::{begins, take};
