//! The store of a set each of whose tuples matches each of its templates: first in, first out.
//!
//! The crate promises what `TupleStore` says, without a comparison: `take` and `find` in constant time, and
//! `add` too but for the growths, each of which at least doubles the room.
#![tactic(auto)]

mod queue;

pub use queue::Queue;
