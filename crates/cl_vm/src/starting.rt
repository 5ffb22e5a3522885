//! An engine before its process begins. (Limits: this project.)

ghost use Rattle.std.specs.Prelude.{◌≡◌, ◌≤◌, IfOk, length, map};
ghost use Rattle.cl_ground.specs.declared.limits.TheConstants.{MOST_CELLS};
ghost use Rattle.cl_code.specs.Plain.{plain_function, plain_program};
ghost use Rattle.cl_vm.specs.Begins.{IsFresh, highest_of, most_of};
ghost use Rattle.cl_vm.specs.Parts.{widest_of};

use crate::{Engine, Memory};
use cl_code::{Function, Program};
use cl_ground::{MOST_ACTIVE, MOST_CELLS, MOST_PRINTED, NoMemory};
use cl_value::{Trap, Value};
use std::alloc::Global;

/// What a function came to that nothing waits for.
#[derive(Clone, Copy, Debug, PartialEq, Eq)]
pub enum Progress {
    /// It stands at the operation of this site.
    Op(u32),
    /// It gave this value.
    Finished(Value),
    /// It can't go on.
    Trapped(Trap),
}

// The highest stack of these functions.
fn highest_of(functions: &[Function]) -> u32
    ensures { result ≡ highest_of (map plain_function functions.now) }
{
    match functions {
        [] => 0,
        [function, rest @ ..] => function.stack.max(highest_of(rest)),
    }
}

// The most temporaries of these functions.
fn most_of(functions: &[Function]) -> u32
    ensures { result ≡ most_of (map plain_function functions.now) }
{
    match functions {
        [] => 0,
        [function, rest @ ..] => function.temporaries.max(most_of(rest)),
    }
}

/// The most parameters of these functions.
pub fn widest_of(functions: &[Function]) -> usize
    ensures { result ≡ widest_of (map plain_function functions.now) }
{
    match functions {
        [] => 0,
        [function, rest @ ..] => function.parameters.len().max(widest_of(rest)),
    }
}

// The globals, where a process may have so many.
fn globals_of(program: &Program) -> &[i64]
    ensures few { length result.now ≤ MOST_CELLS }
    ensures same { length (plain_program program.now).globals ≤ MOST_CELLS → result.now ≡ (plain_program program.now).globals }
{
    let parts = program.parts();
    let globals = parts.globals.as_slice();
    if globals.len() > MOST_CELLS {
        &globals[..0]
    } else {
        globals
    }
}

impl Engine {
    /// An engine with room for all that the program needs. `NoMemory` comes where the allocator refused that room.
    pub(crate) fn new(
        alloc: Global,
        program: &Program,
        steps: u64,
        depth: u32,
    ) -> Result<Engine, NoMemory>
        ensures { IfOk result (IsFresh (plain_program program.now) steps depth) }
    {
        let functions = program.functions();
        let highest = highest_of(functions) as usize;
        let most = most_of(functions) as usize;
        let globals = globals_of(program);
        let memory = Memory::new(
            alloc,
            globals,
            MOST_CELLS + MOST_ACTIVE * most,
            MOST_ACTIVE * highest,
            MOST_ACTIVE - 1,
        )?;
        let Ok(output) = Vec::with_capacity(alloc, MOST_PRINTED) else {
            return Err(NoMemory);
        };
        Ok(Engine {
            memory,
            place: 0,
            ticks: steps,
            cells: 0,
            output,
            depth,
        })
    }
}
