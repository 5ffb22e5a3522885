//! Which cases of the meaning a text without faults meets. The meaning is a total function, and some of its cases stand there only to make it
//! total: a text without faults whose declarations stand in blocks never meets them. And within which ranges values lie.
//!
//! The crate has definitions and laws alone. A law is a call that does nothing, whose clauses say what holds.
#![tactic(auto)]

mod calls;
mod places;
mod ranges;

pub use calls::{each_case_is_meant, each_number_is_there, each_operation_is_meant};
pub use places::{each_place_is_there, nothing_changes_an_outline};
pub use ranges::each_value_is_within_its_type;
