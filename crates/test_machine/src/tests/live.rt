// What an `eval` asks for, and the process that it makes.

ghost use Rattle.std.specs.Prelude.{◌≤◌};
ghost use Rattle.cl_ground.specs.declared.limits.TheConstants.{MOST_DEPTH, MOST_STEPS};

use super::programs::{Outline, TEXT, function, operation, program_of, three, two};
use super::trial::{made_goes, main_goes};
use super::wanted::{Ending, Exchange, Part, Told, Wanted};
use cl_code::{Instr, Program};
use cl_ground::NoMemory;
use cl_sig::{Kind, Mark};
use cl_value::{FieldType, Trap, Value};
use std::alloc::Global;
use std::test::Fail;

const INT: Mark = Mark::Actual(FieldType::Int);

const LONG: Mark = Mark::Actual(FieldType::Long);

// eval("x", g(1, 2), h(3)); return 0; int g(int a, char b) { return a - b; } long h(int n) { long m; return n + m; }
fn evaluates(alloc: Global) -> Result<Program, NoMemory> {
    let code = [
        Instr::PushInt(1),
        Instr::PushInt(2),
        Instr::PushInt(3),
        Instr::Perform(0),
        Instr::PushInt(0),
        Instr::Return,
        Instr::LoadLocal(0),
        Instr::LoadLocal(1),
        Instr::SubInt,
        Instr::Return,
        Instr::LoadLocal(0),
        Instr::LoadLocal(1),
        Instr::AddLong,
        Instr::Return,
    ];
    let heights = [0, 1, 2, 3, 0, 1, 0, 1, 2, 1, 0, 1, 2, 1];
    let main = function(alloc, 0, &[], FieldType::Int, 0)?;
    let g = function(
        alloc,
        6,
        &[FieldType::Int, FieldType::Char],
        FieldType::Int,
        2,
    )?;
    let h = function(alloc, 10, &[FieldType::Int], FieldType::Long, 2)?;
    let formals = [
        TEXT,
        Mark::Formal(FieldType::Int),
        Mark::Formal(FieldType::Long),
    ];
    let functions = three(alloc, main, g, h)?;
    let producer = operation(alloc, Kind::Eval, &[TEXT, INT, LONG])?;
    let consumer = operation(alloc, Kind::In, &formals)?;
    let outline = Outline {
        functions,
        producer,
        consumer,
    };
    program_of(
        alloc,
        &code,
        &heights,
        outline,
        &[None, Some(1), Some(2)],
        b"",
    )
}

const FIELD: Value = Value::Text(0);

// An `eval` at site 0, which is done.
fn begun<'a>(parts: &'a [Part<'a>]) -> Exchange<'a> {
    Exchange {
        site: 0,
        wanted: Wanted::Eval(parts),
        told: Told::Done,
    }
}

#[test]
fn an_eval_asks_for_its_calls(rt: HostRuntime) -> Result<(), Fail> {
    let alloc = rt.alloc();
    let first = [Value::Int(1), Value::Char(2)];
    let parts = [
        Part::Ready(FIELD),
        Part::Call(1, &first, FieldType::Int),
        Part::Call(2, &[Value::Int(3)], FieldType::Long),
    ];
    let ending = Ending::Finished(Value::Int(0), b"");
    let holds = main_goes(alloc, evaluates(alloc)?, 0, &[begun(&parts)], ending)?;
    assert!(rt; holds);
    Ok(())
}

// Whether the process that its `eval` makes, with so many ticks, ends so.
fn evaluated(alloc: Global, steps: u64, ending: Ending) -> Result<bool, NoMemory>
    requires { steps ≤ MOST_STEPS }
{
    let program = evaluates(alloc)?;
    made_goes(alloc, program, 1, steps, &[], ending)
}

// Each call counts a tick, and begins with cells of its own.
#[test]
fn the_process_of_an_eval_lands(rt: HostRuntime) -> Result<(), Fail> {
    let alloc = rt.alloc();
    let landed = [FIELD, Value::Int(-1), Value::Long(3)];
    let holds = evaluated(alloc, 2, Ending::Lands(0, &landed))?;
    assert!(rt; holds);
    let holds = evaluated(alloc, 1, Ending::Trapped(Trap::StepLimit, 0))?;
    assert!(rt; holds);
    Ok(())
}

// eval("x", g(0)); return 0; int g(int n) { eval("x", g(argument)); return 5; }
fn deepens(alloc: Global, argument: i64) -> Result<Program, NoMemory> {
    let code = [
        Instr::PushInt(0),
        Instr::Perform(0),
        Instr::PushInt(0),
        Instr::Return,
        Instr::PushLong(argument),
        Instr::Perform(0),
        Instr::PushInt(5),
        Instr::Return,
    ];
    let heights = [0, 1, 0, 1, 0, 1, 0, 1];
    let main = function(alloc, 0, &[], FieldType::Int, 0)?;
    let g = function(alloc, 4, &[FieldType::Int], FieldType::Int, 1)?;
    let functions = two(alloc, main, g)?;
    let producer = operation(alloc, Kind::Eval, &[TEXT, INT])?;
    let consumer = operation(alloc, Kind::In, &[TEXT, Mark::Formal(FieldType::Int)])?;
    let outline = Outline {
        functions,
        producer,
        consumer,
    };
    program_of(alloc, &code, &heights, outline, &[None, Some(1)], b"")
}

// Whether the process that its `eval` makes at this depth goes so.
fn deepened(
    alloc: Global,
    argument: i64,
    depth: u32,
    exchanges: &[Exchange],
    ending: Ending,
) -> Result<bool, NoMemory>
    requires some { 1 ≤ depth }
    requires few { depth ≤ MOST_DEPTH }
{
    let program = deepens(alloc, argument)?;
    made_goes(alloc, program, depth, 1, exchanges, ending)
}

#[test]
fn a_process_of_depth_63_makes_one(rt: HostRuntime) -> Result<(), Fail> {
    let parts = [
        Part::Ready(FIELD),
        Part::Call(1, &[Value::Int(9)], FieldType::Int),
    ];
    let landed = [FIELD, Value::Int(5)];
    let ending = Ending::Lands(0, &landed);
    let holds = deepened(rt.alloc(), 9, 63, &[begun(&parts)], ending)?;
    assert!(rt; holds);
    Ok(())
}

// An argument that doesn't fit its parameter traps before the depth is tested.
#[test]
fn a_process_of_depth_64_makes_none(rt: HostRuntime) -> Result<(), Fail> {
    let alloc = rt.alloc();
    let holds = deepened(alloc, 9, 64, &[], Ending::Trapped(Trap::EvalDepth, 0))?;
    assert!(rt; holds);
    let wide = Ending::Trapped(Trap::Overflow, 0);
    let holds = deepened(alloc, 2_147_483_648, 64, &[], wide)?;
    assert!(rt; holds);
    Ok(())
}
