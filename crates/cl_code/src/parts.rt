use crate::{Function, Instr};
use cl_ground::Items;
use cl_sig::{Class, Sets, Signature};

/// What a program holds, valid or not. (This project.)
#[derive(Drop)]
pub struct ProgramParts {
    /// The instructions of all functions, in order.
    pub code: Items<Instr>,
    /// For each instruction how many numbers its frame has on the stack before it.
    pub heights: Items<u32>,
    /// The functions, in order of their entries.
    pub functions: Items<Function>,
    /// The number of the function at which process 0 begins.
    pub main: u32,
    /// What the global cells hold at first. 65,537 cells stand for every greater number: no process of the
    /// program does anything.
    pub globals: Items<i64>,
    /// The distinct string literals that stand as fields, in order of first use.
    pub texts: Items<Items<u8>>,
    /// The texts of the `printf`s.
    pub formats: Items<Items<u8>>,
    /// The signature of each tuple operation, its site.
    pub sites: Items<Signature>,
    /// For each site and each of its fields the function that a new process calls for it, if it is a call.
    pub calls: Items<Items<Option<u32>>>,
    /// The sets into which the sites fall.
    pub sets: Sets,
    /// The class of each set.
    pub classes: Items<Class>,
}
