//! Rules of a grammar, put together from parts: what they say, how they are read, and the laws of that.
//!
//! The crate has definitions and laws alone, and no calls.
#![tactic(auto)]
