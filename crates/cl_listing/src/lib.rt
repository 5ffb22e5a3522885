//! The numbers of a source's operations and of its texts, in the order of the text.
//!
//! A `Listing` is made once from a tree and tells them in constant time. `specs/Listing.antt` says what stands
//! in a tree, by recursion on it, and the contracts say that the listing keeps exactly that.
#![tactic(auto)]

mod expression;
mod item;
mod listing;
mod statement;

pub use listing::Listing;
