//! One set of sites: its store, its history, and the operations that are done on it.
//!
//! A `SetCore` keeps the tuples of its set in the store of the set's class, and each act that was done on
//! it in its history. `plan` does an operation on the store after all growths, `seal` gives it its ticket
//! and cannot fail. It knows no thread and no table of tickets.
#![tactic(auto)]

mod begin;
mod laws;
mod place;
mod set_core;
mod store;

pub use laws::{a_counter_never_compares, each_turn_is_kept};
pub use set_core::{Planned, SetCore};
