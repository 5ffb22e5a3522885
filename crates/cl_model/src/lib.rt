//! The definitions in which the meaning of a program and the machine of a run are stated, and the laws of them.
//! It has no types. A law is a call that does nothing, whose clauses say what holds.
#![tactic(auto)]

mod agreeing;
mod counting;
mod processes;
mod turning;

pub use agreeing::agreeing_meanings_run_alike;
pub use counting::each_list_answers_as_its_bag;
pub use processes::{each_act_answers, each_process_did_its_acts};
pub use turning::words_have_one_run;
