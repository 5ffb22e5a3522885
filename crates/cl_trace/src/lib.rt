//! The text of a run, written line by line to a sink.
#![tactic(auto)]

mod act;
mod lines;
mod reports;
mod writing;

pub use act::write_act;
pub use writing::{TextEnd, write_text};
