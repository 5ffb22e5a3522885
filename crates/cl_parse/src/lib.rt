//! Whole sources: from tokens to their trees, by recursive descent.
#![tactic(auto)]

mod declare;
mod head;
mod item;
mod params;
mod simple;
mod spanned;
mod statement;
mod unit;

pub use unit::parse;
