//! What the limits of a process change of its meaning: with more ticks it demands the same, unless with fewer it runs out of them.
//!
//! The crate has definitions and laws alone. A law is a call that does nothing, whose clauses say what holds. (Ticks and limits: this project.)
#![tactic(auto)]

mod ticks;

pub use ticks::{each_loop_goes_round, more_ticks_change_nothing_else};
