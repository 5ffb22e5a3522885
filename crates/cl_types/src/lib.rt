//! Scopes, types of expressions, the faults of a tree, and what the fields of its operations are.
//!
//! `specs/` lists all faults of a tree by a walk in the order of its text, and what the fields are in the same
//! order.
#![tactic(auto)]

mod context;
mod declare;
mod declared;
mod directive;
mod expression;
mod fault;
mod fields;
mod format;
mod item;
mod journal;
mod judge;
mod number;
mod public;
mod scopes;
mod statement;

use context::{Access, Context, Purpose, Reach};
pub use declared::Number;
use declared::{Declared, FunctionType};
use directive::Directive;
pub use fault::{Fault, TypeKind};
pub use fields::{FieldForm, Site};
use journal::Journal;
pub use public::{TypeEnd, Typed, check};
