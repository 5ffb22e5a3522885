//! A plain walk over a tree, which does what the meaning of the tree says, and asks a world for each tuple operation.
#![tactic(auto)]

mod call;
mod cells;
mod context;
mod expression;
mod field;
mod fill;
mod literal;
mod outer;
mod program;
mod public;
mod state;
mod statement;
mod stop;
mod world;

pub use public::{Ending, Walked, walk};
pub use world::{Answer, World};
