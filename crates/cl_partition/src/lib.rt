//! The sets into which the sites of a program fall.
//!
//! Two sites are in one set exactly where a chain of sites that may match leads from one to the other
//! (`cl_sig/specs/Chains.antt`). `partition` finds them by one look at each pair of sites, keeping for each
//! site the least one to which it is joined so far, and numbers the sets by their least sites.
#![tactic(auto)]

mod labels;
mod laws;
mod numbering;

pub use laws::{partition_is_unique, sets_never_meet};
pub use numbering::partition;
