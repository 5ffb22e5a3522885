//! Functions that nothing waits for: the main function, and those of the calls in a live tuple.

ghost use Rattle.std.specs.Prelude.{◌≡◌, ◌+◌, ◌<◌, ◌≤◌, ◌∷◌, length, map, slice_get, ℕ, List, Some};
ghost use Rattle.cl_ground.specs.declared.limits.TheConstants.{MOST_CELLS};
ghost use Rattle.cl_code.specs.Plain.{plain_function, plain_program};
ghost use Rattle.cl_code.specs.Rules.{frame_size};
ghost use Rattle.cl_model.specs.Numbers.{number};
ghost use Rattle.cl_value.specs.Plain.{Call, PlainPart, PlainReply};
ghost use Rattle.cl_value.specs.declared.value.Value.{Value as AnyValue};
ghost use Rattle.cl_code.specs.Process.{result_as};
ghost use Rattle.cl_vm.specs.Begins.{progress_of};
ghost use Rattle.cl_vm.specs.Engine.{onward};
ghost use Rattle.cl_vm.specs.Memory.{with_added};
ghost use Rattle.cl_vm.specs.Outermost.{ArgumentsFit, ClaimsGlobals, EntersFirst, IsFine, IsIdle, IsSound, behind_call, between, came, claimed_at, entering};
ghost use Rattle.cl_vm.specs.Runs.{IsBased, Runs};

use crate::hearing::number_of;
use crate::values::result_as;
use crate::{Engine, Flow, Memory, Progress};
use cl_code::{Function, Program};
use cl_ground::MOST_CELLS;
use cl_value::{FieldType, Trap, Value};

// Adds values as cells of the active function, in room that was made before.
fn add_arguments(memory: &mut Memory, values: &[Value])
    requires { length values.now ≤ memory.old.cell_room }
    ensures { memory.new ≡ with_added (map number values.now) memory.old }
{
    match values {
        [] => {}
        [value, rest @ ..] => {
            memory.add_cell(number_of(*value));
            add_arguments(memory, rest);
        }
    }
}

// What the result of a function comes to, which gives a value of this type.
fn finished(gives: Option<FieldType>, n: i64) -> Progress
    ensures { result ≡ progress_of (result_as gives n) }
{
    match result_as(gives, n) {
        Ok(value) => Progress::Finished(value),
        Err(trap) => Progress::Trapped(trap),
    }
}

/// The function of this number.
pub fn function_of(program: &Program, k: u32) -> &Function
    requires { k < length (plain_program program.now).functions }
    ensures { slice_get (plain_program program.now).functions k ≡ Some (plain_function result.now) }
{
    let parts = program.parts();
    parts.functions.at(k as usize)
}

impl Engine {
    /// Claims the cells of the globals.
    pub(crate) fn claim_globals(&mut self, program: &Program) -> Flow
        ensures { ClaimsGlobals (plain_program program.now) self.old result self.new }
    {
        let globals = program.parts().globals.len();
        if globals > MOST_CELLS {
            return Flow::Stop(Trap::CellLimit);
        }
        self.cells = globals;
        Flow::On
    }

    /// Enters a function with these arguments, where none is active.
    pub(crate) fn enter_first(&mut self, function: &Function, arguments: &[Value]) -> Flow
        requires limit { self.old.cells ≤ MOST_CELLS }
        requires arguments { self.old.cells + function.now.cells ≤ MOST_CELLS → length arguments.now ≤ frame_size (plain_function function.now) }
        requires room { self.old.cells + function.now.cells ≤ MOST_CELLS → frame_size (plain_function function.now) ≤ self.old.memory.cell_room + length self.old.memory.frame }
        ensures { EntersFirst (plain_function function.now) (map number arguments.now) self.old result self.new }
    {
        let cells = function.cells as usize;
        if self.cells + cells > MOST_CELLS {
            return Flow::Stop(Trap::CellLimit);
        }
        self.memory.restart();
        add_arguments(&mut self.memory, arguments);
        let size = cells + function.temporaries as usize;
        self.memory.extend(size - arguments.len());
        self.cells += cells;
        self.place = function.entry as usize;
        Flow::On
    }

    /// Does the function that nothing waits for, which claimed so many cells and gives a value of this type, up to an
    /// operation or its end.
    pub(crate) fn run_function(
        &mut self,
        program: &Program,
        claimed: u32,
        gives: Option<FieldType>,
    ) -> Progress
        requires { Runs (plain_program program.now) self.old }
        ensures sound { (depth : ℕ) → IsBased depth claimed self.old → IsSound (plain_program program.now) depth claimed result self.new }
        ensures leads { (depth : ℕ) (rest : List PlainPart) (done : List AnyValue) (replies : List PlainReply) → onward (plain_program program.now) (behind_call (plain_program program.now) depth claimed gives rest done) self.old replies ≡ came (plain_program program.now) depth claimed gives rest done result self.new replies }
    {
        match self.run(program) {
            Flow::Stop(trap) => Progress::Trapped(trap),
            Flow::Over(n) => {
                self.cells = self.cells.saturating_sub(claimed as usize);
                finished(gives, n)
            }
            Flow::Ask(site) => Progress::Op(site),
            Flow::On => unreachable!(),
        }
    }

    /// Enters the function of this number with these arguments, where none is active, and does it up to an operation or
    /// its end. It gives a value of this type.
    pub(crate) fn begin_function(
        &mut self,
        program: &Program,
        k: u32,
        arguments: &[Value],
        gives: Option<FieldType>,
    ) -> Progress
        requires idle { IsIdle (plain_program program.now) self.old }
        requires fits { ArgumentsFit (plain_program program.now) k arguments.now }
        requires fine { (rest : List PlainPart) × (done : List AnyValue) × IsFine (entering (plain_program program.now) k (map number arguments.now) gives rest done self.old) }
        ensures sound { IsSound (plain_program program.now) self.old.depth (claimed_at (plain_program program.now) k) result self.new }
        ensures leads { (rest : List PlainPart) (done : List AnyValue) (replies : List PlainReply) → entering (plain_program program.now) k (map number arguments.now) gives rest done self.old replies ≡ came (plain_program program.now) self.old.depth (claimed_at (plain_program program.now) k) gives rest done result self.new replies }
    {
        let function = function_of(program, k);
        match self.enter_first(function, arguments) {
            Flow::On => self.run_function(program, function.cells, gives),
            Flow::Stop(trap) => Progress::Trapped(trap),
            Flow::Over(_) | Flow::Ask(_) => unreachable!(),
        }
    }

    /// The same of a call in a live tuple, which counts a tick before.
    pub(crate) fn begin_call(
        &mut self,
        program: &Program,
        k: u32,
        arguments: &[Value],
        gives: FieldType,
    ) -> Progress
        requires idle { IsIdle (plain_program program.now) self.old }
        requires fits { ArgumentsFit (plain_program program.now) k arguments.now }
        requires fine { (rest : List PlainPart) × (done : List AnyValue) × IsFine (between (plain_program program.now) self.old.depth (Call k arguments.now gives ∷ rest) done self.old) }
        ensures sound { IsSound (plain_program program.now) self.old.depth (claimed_at (plain_program program.now) k) result self.new }
        ensures leads { (rest : List PlainPart) (done : List AnyValue) (replies : List PlainReply) → between (plain_program program.now) self.old.depth (Call k arguments.now gives ∷ rest) done self.old replies ≡ came (plain_program program.now) self.old.depth (claimed_at (plain_program program.now) k) (Some gives) rest done result self.new replies }
    {
        match self.tick() {
            Flow::On => self.begin_function(program, k, arguments, Some(gives)),
            Flow::Stop(trap) => Progress::Trapped(trap),
            Flow::Over(_) | Flow::Ask(_) => unreachable!(),
        }
    }
}
