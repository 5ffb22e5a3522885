//! What a walk of a tree works on: values with their arithmetic, and variables in their scopes.
#![tactic(auto)]

mod arithmetic;
mod globals;
mod locals;
mod scope;
mod variable;

pub use arithmetic::{converted, is_zero, literal, negated, number, operated, truth, zero_of};
pub use globals::Globals;
pub use locals::Locals;
pub use variable::Variable;
