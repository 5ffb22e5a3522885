// What a process asks for, and what it does behind replies.

use super::programs::{Outline, TEXT, function, one, operation, program_of};
use super::trial::main_goes;
use super::wanted::{Ending, Exchange, Told, Wanted};
use cl_code::{Instr, Program};
use cl_ground::NoMemory;
use cl_sig::{Kind, Mark};
use cl_value::{FieldType, Slot, Trap, Value};
use std::alloc::Global;
use std::test::Fail;

const INT: Mark = Mark::Actual(FieldType::Int);

const FORMAL: Mark = Mark::Formal(FieldType::Int);

// int a[3]; int n; out("x", 7, 8); in("x", ?a[index], ?n); return a[1] - n;
fn asks_two(alloc: Global, index: i32) -> Result<Program, NoMemory> {
    let code = [
        Instr::PushInt(7),
        Instr::PushInt(8),
        Instr::Perform(0),
        Instr::PushInt(index),
        Instr::CheckIndex(3),
        Instr::Perform(1),
        Instr::StoreLocal(3),
        Instr::StoreLocalAt(0, 3),
        Instr::PushInt(1),
        Instr::LoadLocalAt(0, 3),
        Instr::LoadLocal(3),
        Instr::SubInt,
        Instr::Return,
    ];
    let heights = [0, 1, 2, 0, 1, 1, 3, 2, 0, 1, 1, 2, 1];
    let main = function(alloc, 0, &[], FieldType::Int, 4)?;
    let functions = one(alloc, main)?;
    let producer = operation(alloc, Kind::Out, &[TEXT, INT, INT])?;
    let consumer = operation(alloc, Kind::In, &[TEXT, FORMAL, FORMAL])?;
    let outline = Outline {
        functions,
        producer,
        consumer,
    };
    program_of(alloc, &code, &heights, outline, &[], b"")
}

const FIELD: Value = Value::Text(0);

const RECEIVES: Slot = Slot::Formal(FieldType::Int);

// An `out` at site 0, which is done.
fn put(values: &[Value]) -> Exchange<'_> {
    Exchange {
        site: 0,
        wanted: Wanted::Out(values),
        told: Told::Done,
    }
}

// Whether process 0 of that goes so.
fn asks_two_goes(
    alloc: Global,
    index: i32,
    exchanges: &[Exchange],
    ending: Ending,
) -> Result<bool, NoMemory> {
    let program = asks_two(alloc, index)?;
    main_goes(alloc, program, 0, exchanges, ending)
}

// Two formals receive the second and the third field.
#[test]
fn an_element_and_a_variable_receive(rt: HostRuntime) -> Result<(), Fail> {
    let took = Exchange {
        site: 1,
        wanted: Wanted::In(&[Slot::Actual(FIELD), RECEIVES, RECEIVES]),
        told: Told::Got(&[FIELD, Value::Int(9), Value::Int(4)]),
    };
    let exchanges = [put(&[FIELD, Value::Int(7), Value::Int(8)]), took];
    let ending = Ending::Finished(Value::Int(5), b"");
    let holds = asks_two_goes(rt.alloc(), 1, &exchanges, ending)?;
    assert!(rt; holds);
    Ok(())
}

// The index of a formal is tested before the operation is asked for.
#[test]
fn an_index_of_a_formal_is_tested_first(rt: HostRuntime) -> Result<(), Fail> {
    let exchanges = [put(&[FIELD, Value::Int(7), Value::Int(8)])];
    let ending = Ending::Trapped(Trap::IndexRange, 0);
    let holds = asks_two_goes(rt.alloc(), 3, &exchanges, ending)?;
    assert!(rt; holds);
    Ok(())
}

// int n; if (inp("x", ?n)) { printf("%d", n); return 1; } return n + 40;
fn tries(alloc: Global) -> Result<Program, NoMemory> {
    let code = [
        Instr::Perform(1),
        Instr::JumpZero(5),
        Instr::Print(0),
        Instr::PushInt(1),
        Instr::Return,
        Instr::PushInt(40),
        Instr::AddInt,
        Instr::Return,
    ];
    let heights = [0, 2, 1, 0, 1, 1, 2, 1];
    let main = function(alloc, 0, &[], FieldType::Int, 0)?;
    let functions = one(alloc, main)?;
    let producer = operation(alloc, Kind::Out, &[TEXT, INT])?;
    let consumer = operation(alloc, Kind::Inp, &[TEXT, FORMAL])?;
    let outline = Outline {
        functions,
        producer,
        consumer,
    };
    program_of(alloc, &code, &heights, outline, &[], b"%d")
}

// Whether process 0 of that goes so, where its `inp` is told this.
fn tries_goes(alloc: Global, told: Told, ending: Ending) -> Result<bool, NoMemory> {
    let exchange = Exchange {
        site: 1,
        wanted: Wanted::Inp(&[Slot::Actual(FIELD), RECEIVES]),
        told,
    };
    let program = tries(alloc)?;
    main_goes(alloc, program, 0, &[exchange], ending)
}

// A number that was taken is there, also where it is 0.
#[test]
fn a_hit_pushes_what_it_took_and_one(rt: HostRuntime) -> Result<(), Fail> {
    let alloc = rt.alloc();
    let one = Value::Int(1);
    let seven = Told::Got(&[FIELD, Value::Int(7)]);
    let holds = tries_goes(alloc, seven, Ending::Finished(one, b"7"))?;
    assert!(rt; holds);
    let zero = Told::Got(&[FIELD, Value::Int(0)]);
    let holds = tries_goes(alloc, zero, Ending::Finished(one, b"0"))?;
    assert!(rt; holds);
    Ok(())
}

#[test]
fn a_miss_pushes_two_zeros(rt: HostRuntime) -> Result<(), Fail> {
    let ending = Ending::Finished(Value::Int(40), b"");
    let holds = tries_goes(rt.alloc(), Told::Miss, ending)?;
    assert!(rt; holds);
    Ok(())
}
