//! The store of a set whose tuples are all the same: one tuple and how often it is there.
//!
//! The crate promises what `TupleStore` says, in constant time, without a comparison.
#![tactic(auto)]

mod counter;

pub use counter::Counter;
