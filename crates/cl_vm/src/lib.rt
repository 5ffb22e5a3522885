//! The machine: a process of a program that is resumed with one reply after another.
#![tactic(auto)]

mod arithmetic;
mod asking;
mod buffers;
mod calls;
mod cells;
mod engine;
mod hearing;
mod laws;
mod memory;
mod numbers;
mod outermost;
mod output;
mod performing;
mod printing;
mod requests;
mod resuming;
mod starting;
mod step;
mod values;
mod vm;

pub use buffers::Buffers;
pub use engine::{Engine, Flow};
pub use laws::each_machine_answers_again;
pub use memory::Memory;
pub use starting::Progress;
pub use vm::{Demand, Reply, Vm};
