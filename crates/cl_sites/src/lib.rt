//! The signatures of a text's tuple operations, in the order of the text.
//!
//! `sites` puts together what `cl_types` tells of the fields of each operation and what `cl_listing` tells of
//! texts. `specs/Sites.antt` says what a signature is, and the contract that the list is exactly that.
#![tactic(auto)]

mod mark;
mod site;

pub use site::sites;
