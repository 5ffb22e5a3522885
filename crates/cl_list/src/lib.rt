//! The searched list of tuples: the store of last resort, which takes any tuple and any template.
//!
//! The crate promises what `TupleStore` says, with at most one comparison for each tuple of the list.
#![tactic(auto)]

mod listed;

pub use listed::Listed;
