//! Which code is the code of a text, and that it demands what the text demands.
//!
//! The crate has definitions and laws alone. A law is a call that does nothing, whose clause says what holds. (This project.)
#![tactic(auto)]

mod laws;

pub use laws::{the_code_demands_the_same, the_code_runs_alike};
