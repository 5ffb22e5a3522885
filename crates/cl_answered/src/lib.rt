//! What a machine answers is what its process does: the acts that answer it are those that the code demands.
//!
//! The crate leads from the answers of `cl_vm` to what a history asks of a process. It has definitions and laws alone. A law is a call that does
//! nothing, whose clauses say what holds.
#![tactic(auto)]

mod laws;

pub use laws::{each_act_goes_on, each_answer_is_demanded, each_end_is_over};
