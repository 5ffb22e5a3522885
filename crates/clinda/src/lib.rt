//! Reads a source and the words of a command, and runs the source or prints it.
//!
//! `top` has the top call, `clinda_plain`, whose clauses carry the headline from the bytes read to the bytes
//! written; `program` hands it the arguments of a program and gives its status. Below them stand, each upon those
//! after it in its row:
//!
//! - `words`: the command that the words spell, by a row for each verb.
//! - `seq`, `print`: what each command does with its source; `told_run`: the text of a run.
//! - `ending`: how a call ends, and the text of a refusal.
//! - `report_text`, `refusal`: the texts that are written.
//! - `laws`: what holds of the commands and the clauses at either of two top calls.
#![tactic(auto)]

mod ending;
mod laws;
mod limits;
mod print;
mod program;
mod refusal;
mod report_text;
mod seq;
mod told_run;
mod top;
mod words;

pub use ending::TopEnd;
pub use laws::{
    each_answer_widens, each_command_is_fine, the_clauses_follow, words_spell_one_command,
};
pub use program::run;
pub use top::clinda_plain;
