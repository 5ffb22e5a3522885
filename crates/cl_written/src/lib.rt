//! Code that is written piece by piece, with the height of the stack before each instruction.
//!
//! What is written stays, and only open jumps are set later: so what `Made` of `cl_translation` says of a part
//! holds when more is written behind it.
#![tactic(auto)]

mod written;

pub use written::Written;
