//! What instructions do with ticks and functions. (Limits: this project.)

ghost use Rattle.std.specs.Prelude.{◌≡◌, ◌<◌, ◌≤◌, ◌+◌, ◌^◌, length, None};
ghost use Rattle.cl_ground.specs.declared.limits.TheConstants.{MOST_CELLS};
ghost use Rattle.cl_code.specs.Plain.{plain_function};
ghost use Rattle.cl_code.specs.Rules.{frame_size};
ghost use Rattle.cl_vm.specs.Engine.{Calls, Returns, Ticks, call_traps};

use crate::{Engine, Flow};
use cl_code::Function;
use cl_ground::{MOST_ACTIVE, MOST_CELLS};
use cl_value::Trap;

impl Engine {
    /// Counts a tick.
    #[inline(always)]
    pub(crate) fn tick(&mut self) -> Flow
        ensures { Ticks self.old result self.new }
    {
        if self.ticks == 0 {
            return Flow::Stop(Trap::StepLimit);
        }
        self.ticks -= 1;
        Flow::On
    }

    /// Enters a function, whose arguments are the topmost numbers. It goes on at the place.
    pub(crate) fn call(&mut self, function: &Function) -> Flow
        requires arguments { length function.now.parameters.items ≤ length self.old.memory.stack }
        requires place { self.old.place < 2 ^ 32 }
        requires limit { self.old.cells ≤ MOST_CELLS }
        requires roomy { call_traps (plain_function function.now) self.old ≡ None → (length function.now.parameters.items ≤ frame_size (plain_function function.now)) × (frame_size (plain_function function.now) ≤ self.old.memory.cell_room) × (0 < self.old.memory.frame_room) }
        ensures { Calls (plain_function function.now) self.old result self.new }
    {
        if self.ticks == 0 {
            return Flow::Stop(Trap::StepLimit);
        }
        if self.memory.depth() >= MOST_ACTIVE - 1 {
            return Flow::Stop(Trap::CallDepth);
        }
        let cells = function.cells as usize;
        if self.cells + cells > MOST_CELLS {
            return Flow::Stop(Trap::CellLimit);
        }
        self.memory.enter(
            self.place as u32,
            function.cells,
            function.parameters.len(),
            cells + function.temporaries as usize,
        );
        self.ticks -= 1;
        self.cells += cells;
        self.place = function.entry as usize;
        Flow::On
    }

    /// Leaves the active function with the topmost number.
    #[inline(always)]
    pub(crate) fn give_back(&mut self) -> Flow
        requires { 1 ≤ length self.old.memory.stack }
        ensures { Returns self.old result self.new }
    {
        let n = self.one();
        match self.memory.leave() {
            None => Flow::Over(n),
            Some(waiting) => {
                self.place = waiting.place as usize;
                self.cells = self.cells.saturating_sub(waiting.claimed as usize);
                self.memory.push(n);
                Flow::On
            }
        }
    }
}
