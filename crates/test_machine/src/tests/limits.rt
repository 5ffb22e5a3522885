// What a process may not exceed: ticks, cells, functions and output.

ghost use Rattle.std.specs.Prelude.{◌≤◌};
ghost use Rattle.cl_ground.specs.declared.limits.TheConstants.{MOST_STEPS};

use super::instructions::ends;
use super::programs::{Outline, TEXT, function, operation, program_of, two};
use super::trial::main_goes;
use super::wanted::Ending;
use cl_code::{Instr, Program};
use cl_ground::NoMemory;
use cl_sig::{Kind, Mark};
use cl_value::{FieldType, Trap, Value};
use std::alloc::Global;
use std::test::Fail;

// How a process ends that gives 0 and printed this.
fn zero(output: &[u8]) -> Ending<'_> {
    Ending::Finished(Value::Long(0), output)
}

// for(i=0;i<5;i++)s+=i%7; printf("%d\n",s); return 0;
fn loop_ends(alloc: Global, steps: u64, ending: Ending) -> Result<bool, NoMemory>
    requires { steps ≤ MOST_STEPS }
{
    let code = [
        Instr::PushInt(0),
        Instr::StoreLocal(0),
        Instr::Jump(14),
        Instr::Tick,
        Instr::LoadLocal(1),
        Instr::LoadLocal(0),
        Instr::PushInt(7),
        Instr::RemInt,
        Instr::AddInt,
        Instr::StoreLocal(1),
        Instr::LoadLocal(0),
        Instr::PushInt(1),
        Instr::AddInt,
        Instr::StoreLocal(0),
        Instr::LoadLocal(0),
        Instr::PushInt(5),
        Instr::Less,
        Instr::Not,
        Instr::JumpZero(3),
        Instr::LoadLocal(1),
        Instr::Print(0),
        Instr::PushInt(0),
        Instr::Return,
    ];
    let heights = [
        0, 1, 0, 0, 0, 1, 2, 3, 2, 1, 0, 1, 2, 1, 0, 1, 2, 1, 1, 0, 1, 0, 1,
    ];
    ends(alloc, 2, b"%d\n", &code, &heights, steps, ending)
}

#[test]
fn a_loop_counts_ticks(rt: HostRuntime) -> Result<(), Fail> {
    let alloc = rt.alloc();
    let holds = loop_ends(alloc, 5, zero(b"10\n"))?;
    assert!(rt; holds);
    let holds = loop_ends(alloc, 4, Ending::Trapped(Trap::StepLimit, 0))?;
    assert!(rt; holds);
    Ok(())
}

// The three globals count too.
#[test]
fn cells_are_limited(rt: HostRuntime) -> Result<(), Fail> {
    let alloc = rt.alloc();
    let code = [Instr::PushInt(0), Instr::Return];
    let holds = ends(alloc, 65_533, b"", &code, &[0, 1], 0, zero(b""))?;
    assert!(rt; holds);
    let trapped = Ending::Trapped(Trap::CellLimit, 0);
    let holds = ends(alloc, 65_534, b"", &code, &[0, 1], 0, trapped)?;
    assert!(rt; holds);
    Ok(())
}

#[test]
fn output_is_limited(rt: HostRuntime) -> Result<(), Fail> {
    let code = [Instr::Tick, Instr::Print(0), Instr::Jump(0)];
    let trapped = Ending::Trapped(Trap::OutputLimit, 65_536);
    let holds = ends(rt.alloc(), 0, b"x", &code, &[0, 0, 0], 65_537, trapped)?;
    assert!(rt; holds);
    Ok(())
}

// return g(depth); int g(int n) { if (n) return 1 + g(n - 1); return 0; }
fn descends(alloc: Global, depth: i32) -> Result<Program, NoMemory> {
    let code = [
        Instr::PushInt(depth),
        Instr::Call(1),
        Instr::Return,
        Instr::LoadLocal(0),
        Instr::JumpZero(12),
        Instr::PushInt(1),
        Instr::LoadLocal(0),
        Instr::PushInt(1),
        Instr::SubInt,
        Instr::Call(1),
        Instr::AddInt,
        Instr::Return,
        Instr::PushInt(0),
        Instr::Return,
    ];
    let heights = [0, 1, 1, 0, 1, 0, 1, 2, 3, 2, 2, 1, 0, 1];
    let main = function(alloc, 0, &[], FieldType::Int, 0)?;
    let g = function(alloc, 3, &[FieldType::Int], FieldType::Int, 1)?;
    let functions = two(alloc, main, g)?;
    let producer = operation(alloc, Kind::Out, &[TEXT, Mark::Actual(FieldType::Int)])?;
    let consumer = operation(alloc, Kind::In, &[TEXT, Mark::Formal(FieldType::Int)])?;
    let outline = Outline {
        functions,
        producer,
        consumer,
    };
    program_of(alloc, &code, &heights, outline, &[], b"")
}

// Whether process 0 of that, with so many ticks, ends so.
fn descended(alloc: Global, depth: i32, steps: u64, ending: Ending) -> Result<bool, NoMemory>
    requires { steps ≤ MOST_STEPS }
{
    let program = descends(alloc, depth)?;
    main_goes(alloc, program, steps, &[], ending)
}

// 255 calls may be active beside the first function. The tick of one more is counted before it traps.
#[test]
fn functions_are_limited(rt: HostRuntime) -> Result<(), Fail> {
    let alloc = rt.alloc();
    let most = Ending::Finished(Value::Int(254), b"");
    let holds = descended(alloc, 254, 255, most)?;
    assert!(rt; holds);
    let holds = descended(alloc, 255, 256, Ending::Trapped(Trap::CallDepth, 0))?;
    assert!(rt; holds);
    let holds = descended(alloc, 255, 255, Ending::Trapped(Trap::StepLimit, 0))?;
    assert!(rt; holds);
    Ok(())
}
