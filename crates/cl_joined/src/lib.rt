//! What the sets of a run hand out, what the closed table of tickets tells and what each process hands back make a good run of the program.
//!
//! The crate leads from the words of `cl_set`, `cl_ticket` and `cl_code` to those of `cl_merge`. It has definitions and laws alone. A law is a
//! call that does nothing, whose clauses say what holds.
#![tactic(auto)]

mod laws;

pub use laws::{
    joined_runs_are_good, paired_are_reports, sets_are_apart, what_is_begun_may_happen,
};
