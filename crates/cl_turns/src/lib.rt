//! The words of a seed, which say at each turn of a run on one thread whose turn it is, and the run that they make.
//!
//! The words are those of the kit's generator `Lcg64Xsh32`, which the two calls hand out one by one. (O'Neill, "PCG: a family of simple fast
//! space-efficient statistically good algorithms for random number generation"; one word a turn: this project.)
#![tactic(auto)]

mod words;

pub use words::{generator_of, next_word};
