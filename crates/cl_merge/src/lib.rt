//! The histories of sets, put in order of their tickets, are one history of one bag.
//!
//! What is known of a run part by part, of each set by itself, of each process by itself and of the tickets, makes the whole run good. The
//! crate has definitions and laws alone. A law is a call that does nothing, whose clauses say what holds.
#![tactic(auto)]

mod laws;

pub use laws::{each_moment_is_legal, good_runs_carry_over, histories_grow, kept_runs_are_good};
