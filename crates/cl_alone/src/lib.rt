//! A run of one process over one list of tuples.
//!
//! The crate promises that the report of each run is a good run of what its text means, where all operations are one set.
#![tactic(auto)]

mod bounds;
mod log;
mod looking;
mod pause;
mod running;
mod seeking;
mod space;
mod stage;

pub use running::run_alone;
