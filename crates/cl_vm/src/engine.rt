ghost use Rattle.std.specs.Prelude.{◌≡◌, ◌<◌, ◌≤◌, length, Ok};
ghost use Rattle.cl_code.specs.Arithmetic.{truth};
ghost use Rattle.cl_vm.specs.Engine.{Gave, with_number};

use crate::Memory;
use crate::arithmetic::truth;
use cl_value::Trap;

/// Where an instruction leads.
#[derive(Clone, Copy)]
pub enum Flow {
    /// To the instruction at the place.
    On,
    /// Nowhere: it traps.
    Stop(Trap),
    /// Out of the outermost function, with this result.
    Over(i64),
    /// To the operation of this site, at which it stands.
    Ask(u32),
}

/// A process between two of its instructions.
#[derive(Drop)]
pub struct Engine {
    pub(crate) memory: Memory,
    /// The address of the next instruction.
    pub(crate) place: usize,
    /// How many ticks are left.
    pub(crate) ticks: u64,
    /// How many cells are in use, those of the globals among them.
    pub(crate) cells: usize,
    /// What it printed.
    pub(crate) output: Vec<u8>,
    /// How many `eval`s led to it.
    pub(crate) depth: u32,
}

impl Engine {
    // Pushes what was computed, or traps.
    #[inline(always)]
    pub(crate) fn give(&mut self, computed: Result<i64, Trap>) -> Flow
        requires { length self.old.memory.stack < self.old.memory.space }
        ensures { Gave computed self.old result self.new }
    {
        match computed {
            Ok(n) => {
                self.memory.push(n);
                Flow::On
            }
            Err(trap) => Flow::Stop(trap),
        }
    }

    // Takes two numbers; the second is the upper one.
    #[inline(always)]
    pub(crate) fn two(&mut self) -> (i64, i64)
        requires { 2 ≤ length self.old.memory.stack }
        ensures numbers { self.old ≡ with_number result.1 (with_number result.0 self.new) }
        ensures room { length self.new.memory.stack < self.new.memory.space }
    {
        let y = self.memory.pop();
        let x = self.memory.pop();
        (x, y)
    }

    // Takes a number.
    #[inline(always)]
    pub(crate) fn one(&mut self) -> i64
        requires { 1 ≤ length self.old.memory.stack }
        ensures numbers { self.old ≡ with_number result self.new }
        ensures room { length self.new.memory.stack < self.new.memory.space }
    {
        self.memory.pop()
    }

    // Pushes 1 or 0.
    #[inline(always)]
    pub(crate) fn tell(&mut self, test: bool) -> Flow
        requires { length self.old.memory.stack < self.old.memory.space }
        ensures { Gave (Ok (truth test)) self.old result self.new }
    {
        self.memory.push(truth(test));
        Flow::On
    }
}
