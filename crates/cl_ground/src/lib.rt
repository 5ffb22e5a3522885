//! The ground of all crates: a list that is grown ahead of its pushes, and the limits of the language and of a run.
//!
//! Only `Items::reserve` takes memory, so a caller makes all its growths before its first effect. Each limit stands
//! here alone; definitions, contracts and code name it.
#![tactic(auto)]

mod items;
mod limits;

pub use items::{Items, NoMemory};
pub use limits::{
    DEFAULT_ENTRIES, DEFAULT_STEPS, MOST_ACTIVE, MOST_BYTES, MOST_CELLS, MOST_DEPTH, MOST_FIELDS,
    MOST_FUNCTIONS, MOST_NESTING, MOST_PRINTED, MOST_SITES, MOST_SIZE, MOST_STEPS,
};
