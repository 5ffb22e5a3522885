//! Signatures of tuple operations, the sets into which they fall, and the classes of sets.
//!
//! Each type is plain data for contracts: `specs/Views.antt` leads from a value to its plain form, over
//! which the definitions stand (`specs/Instances.antt`, `Chains.antt`, `Classes.antt`, `Shapes.antt`). The
//! crate promises that `may_match` is its definition, and that each `Sets` numbers its sets by their least
//! sites.
#![tactic(auto)]

mod sets;
mod shape;
mod signature;

pub use sets::Sets;
pub use shape::{Class, SetShape};
pub use signature::{Kind, Mark, Signature, may_match};
