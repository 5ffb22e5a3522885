//! The code of a program: instructions for a machine with a stack, when a program is valid, and what its
//! code means.
//!
//! The definitions stand over plain data (`specs/Plain.antt`): the rules of a valid program
//! (`specs/Rules.antt`, `Valid.antt`), and what each of its processes demands after each list of replies
//! (`specs/Machine.antt`, `Process.antt`). The type `Program` holds valid programs alone.
#![tactic(auto)]

mod function;
mod instr;
mod laws;
mod parts;
mod program;

pub use function::Function;
pub use instr::Instr;
pub use laws::{
    each_act_is_an_instance, each_division_agrees, each_height_is_met, each_instance_begins,
    each_instruction_leads_on, each_process_demands, each_process_is_right, each_set_is_storable,
};
pub use parts::ProgramParts;
pub use program::Program;
