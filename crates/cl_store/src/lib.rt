//! What a store of tuples is, and the asks that are played over any store.
//!
//! `TupleStore` promises that a store is the list of its tuples in order of adding: what is added stands
//! last, what is taken or read is the first tuple that matches, and what is taken loses that place alone.
//! Each store says which tuples it admits, which templates it fits, and how many comparisons a call makes
//! at most. `play` is proved once over the trait, so that it holds of every store.
#![tactic(auto)]

mod next_tuple;
mod playing;
mod store;

pub use next_tuple::NextTuple;
pub use playing::play;
pub use store::TupleStore;
