//! The texts that tell of a program: its operations with their sets, and its code.
//!
//! `report` gives the text of the analysis and `listing` the text of the code, each line by line as its
//! definition has it (`specs/Analysis.antt`, `specs/Listing.antt`).
#![tactic(auto)]

mod analysis;
mod field;
mod functions;
mod instruction;
mod position;
mod text;

pub use analysis::report;
pub use functions::listing;
pub use position::Position;
