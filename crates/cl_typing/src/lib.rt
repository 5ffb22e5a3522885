//! Types hold at run time: in a text without faults each value of an expression has the type that is judged of it, and a process keeps each
//! variable at its type.
//!
//! The crate has definitions and laws alone, and no calls.
#![tactic(auto)]
