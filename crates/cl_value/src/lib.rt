//! Tuples, templates, operations, acts and reports, as every layer speaks of them.
//!
//! Each type is plain data for contracts: `specs/Views.antt` leads from a value to its plain form, in
//! which the definitions of this crate and of those above are written. The crate promises that
//! `Template::test` is matching and that a copy equals what it copies.
#![tactic(auto)]

mod act;
mod live;
mod process;
mod request;
mod steps;
mod template;
mod tuple;
mod value;

pub use act::{Act, What};
pub use live::{Live, LiveField};
pub use process::{End, History, Limits, Reply, Report, RunReport, Start, Trap};
pub use request::{Ask, Request};
pub use steps::Steps;
pub use template::{Slot, Template};
pub use tuple::Tuple;
pub use value::{FieldType, Value};
