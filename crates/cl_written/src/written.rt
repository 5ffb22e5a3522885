ghost use Rattle.std.specs.Prelude.{◌≡◌};
ghost use Rattle.cl_translation.specs.Made as made;

use cl_code::Instr;
use cl_ground::{Items, NoMemory};
use std::alloc::{AllocError, AllocFailed, Global};
use std::marker::Model;

/// Code as far as it is written, with the height of the stack before each instruction. (This project.)
///
/// Contracts see the instructions and the heights in order. There are as many heights as instructions, and
/// fewer than 2^32.
#[derive(Drop)]
pub struct Written {
    code: Vec<Instr>,
    heights: Items<u32>,
}

impl Model for Written {
    ghost use Rattle.std.specs.Prelude.{◌≡◌, ◌<◌, ◌^◌, length};
    ghost use Rattle.cl_translation.specs.Made as made;

    ghost Value = { made.Written };

    ghost view = { λ w. record { code = w.code.items; heights = w.heights.items } };

    ghost invariant = { λ w. (length w.heights.items ≡ length w.code.items) × (length w.code.items < 2 ^ 32) };
}

// A jump with this address; any other instruction as it is.
fn aimed(to: u32, instruction: Instr) -> Instr
    ensures { result ≡ made.aimed to instruction }
{
    match instruction {
        Instr::Jump(_) => Instr::Jump(to),
        Instr::JumpZero(_) => Instr::JumpZero(to),
        other => other,
    }
}

impl Written {
    ghost use Rattle.std.specs.Prelude.{◌≡◌, ◌<◌, [], ◌∷◌, ◌++◌, length, OnOk, OnErr, IfOk};
    ghost use Rattle.cl_ground.specs.Room.{Room};
    ghost use Rattle.cl_translation.specs.Made as made;
    ghost use Rattle.cl_written.specs.Jumps.{IsSetAt};

    /// No code.
    pub fn new(alloc: Global) -> Written
        ensures code { result.code ≡ [] }
        ensures heights { result.heights ≡ [] }
    {
        Written {
            code: Vec::new(alloc),
            heights: Items::new(alloc),
        }
    }

    /// The address behind what is written.
    pub fn behind(&self) -> u32
        ensures { result ≡ made.behind self.now }
    {
        self.code.len() as u32
    }

    /// Puts an instruction behind what is written, with the height of the stack before it.
    ///
    /// `NoMemory` comes where the allocator refused the room, or where the code would have 2^32 instructions;
    /// then what is written stays.
    pub fn add(&mut self, height: u32, instruction: Instr) -> Result<(), NoMemory>
        ensures code { OnOk result (self.new.code ≡ self.old.code ++ instruction ∷ []) }
        ensures heights { OnOk result (self.new.heights ≡ self.old.heights ++ height ∷ []) }
        ensures even { length self.old.heights ≡ length self.old.code }
        ensures refused { OnErr result (self.new ≡ self.old) }
    {
        if self.code.len() + 1 >= 4_294_967_296 {
            return Err(NoMemory);
        }
        self.heights.reserve(1)?;
        match self.code.push(instruction) {
            Ok(()) => {
                self.heights.push(height);
                Ok(())
            }
            Err(AllocFailed { .. }) => Err(NoMemory),
        }
    }

    /// Sets an open jump, at this address, to another.
    pub fn aim(&mut self, hole: u32, to: u32)
        requires { hole < made.behind self.old }
        ensures { IsSetAt self.old self.new hole to }
    {
        let at = hole as usize;
        let instruction = aimed(to, self.code[at]);
        self.code[at] = instruction;
    }
}
