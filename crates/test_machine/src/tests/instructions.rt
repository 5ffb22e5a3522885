// What instructions pop and push.

ghost use Rattle.std.specs.Prelude.{◌≡◌, ◌≤◌, [], true, IsTrue};
ghost use Rattle.cl_ground.specs.declared.limits.TheConstants.{MOST_STEPS};
ghost use Rattle.test_machine.specs.Small.{MayFollowOne, MayFollowTwo, single_is_right};

use super::programs::{Outline, function, one, operation, program_of};
use super::trial::main_goes;
use super::wanted::Ending;
use cl_code::{Instr, Program};
use cl_ground::NoMemory;
use cl_sig::{Kind, Mark};
use cl_value::{FieldType, Trap, Value};
use std::alloc::Global;
use std::test::Fail;

// One function with so many cells and one format, which gives a `long`.
fn single(
    alloc: Global,
    cells: u32,
    format: &[u8],
    code: &[Instr],
    heights: &[u32],
) -> Result<Program, NoMemory>
    requires { IsTrue (single_is_right cells format.now code.now heights.now) }
{
    let main = function(alloc, 0, &[], FieldType::Long, cells)?;
    let functions = one(alloc, main)?;
    let producer = operation(alloc, Kind::Out, &[Mark::Actual(FieldType::Int)])?;
    let consumer = operation(alloc, Kind::In, &[Mark::Formal(FieldType::Int)])?;
    let outline = Outline {
        functions,
        producer,
        consumer,
    };
    program_of(alloc, code, heights, outline, &[], format)
}

// Whether process 0 of that, with so many ticks, ends so.
pub fn ends(
    alloc: Global,
    cells: u32,
    format: &[u8],
    code: &[Instr],
    heights: &[u32],
    steps: u64,
    ending: Ending,
) -> Result<bool, NoMemory>
    requires right { IsTrue (single_is_right cells format.now code.now heights.now) }
    requires few { steps ≤ MOST_STEPS }
{
    let program = single(alloc, cells, format, code, heights)?;
    main_goes(alloc, program, steps, &[], ending)
}

// What an instruction is to make of numbers.
type Made = Result<i64, Trap>;

// How a process ends that makes that and prints nothing.
fn ending_of(made: Made) -> Ending<'static> {
    match made {
        Ok(n) => Ending::Finished(Value::Long(n), b""),
        Err(trap) => Ending::Trapped(trap, 0),
    }
}

// Whether code of one function with three cells makes that.
fn makes(alloc: Global, code: &[Instr], heights: &[u32], made: Made) -> Result<bool, NoMemory>
    requires { IsTrue (single_is_right 3 [] code.now heights.now) }
{
    ends(alloc, 3, b"", code, heights, 0, ending_of(made))
}

// Whether an instruction pops one number and pushes one.
fn follows_one(instr: Instr) -> bool
    ensures { result ≡ true → MayFollowOne instr }
{
    match instr {
        Instr::NegInt => true,
        Instr::NegLong => true,
        Instr::Not => true,
        Instr::Narrow => true,
        Instr::ToChar => true,
        Instr::CheckIndex(_) => true,
        _ => false,
    }
}

// Whether an instruction pops two numbers and pushes one.
fn follows_two(instr: Instr) -> bool
    ensures { result ≡ true → MayFollowTwo instr }
{
    match instr {
        Instr::AddInt => true,
        Instr::SubInt => true,
        Instr::MulInt => true,
        Instr::DivInt => true,
        Instr::RemInt => true,
        Instr::AddLong => true,
        Instr::SubLong => true,
        Instr::MulLong => true,
        Instr::DivLong => true,
        Instr::RemLong => true,
        Instr::Less => true,
        Instr::LessEqual => true,
        Instr::Greater => true,
        Instr::GreaterEqual => true,
        Instr::Equal => true,
        Instr::NotEqual => true,
        _ => false,
    }
}

// An instruction behind one number, and what it makes of that.
type OfOne = (i64, Instr, Made);

// Whether it makes that.
fn makes_of_one(alloc: Global, row: &OfOne) -> Result<bool, NoMemory> {
    let (x, instr, made) = *row;
    if !follows_one(instr) {
        return Ok(false);
    }
    makes(
        alloc,
        &[Instr::PushLong(x), instr, Instr::Return],
        &[0, 1, 1],
        made,
    )
}

// Whether each of them makes that.
fn each_of_one(alloc: Global, rows: &[OfOne]) -> Result<bool, NoMemory> {
    for row in rows {
        if !makes_of_one(alloc, row)? {
            return Ok(false);
        }
    }
    Ok(true)
}

// An instruction behind two numbers, of which the second is the upper one, and what it makes of them.
type OfTwo = (i64, i64, Instr, Made);

// Whether it makes that.
fn makes_of_two(alloc: Global, row: &OfTwo) -> Result<bool, NoMemory> {
    let (x, y, instr, made) = *row;
    if !follows_two(instr) {
        return Ok(false);
    }
    makes(
        alloc,
        &[Instr::PushLong(x), Instr::PushLong(y), instr, Instr::Return],
        &[0, 1, 2, 1],
        made,
    )
}

// Whether each of them makes that.
fn each_of_two(alloc: Global, rows: &[OfTwo]) -> Result<bool, NoMemory> {
    for row in rows {
        if !makes_of_two(alloc, row)? {
            return Ok(false);
        }
    }
    Ok(true)
}

const BILLIONS: i64 = 30_000_000_000;

// A quotient is cut toward zero, and a remainder has the dividend's sign. What doesn't fit traps.
const ARITHMETIC: [OfTwo; 13] = [
    (17, 5, Instr::AddInt, Ok(22)),
    (17, 5, Instr::SubInt, Ok(12)),
    (17, 5, Instr::MulInt, Ok(85)),
    (-17, 5, Instr::DivInt, Ok(-3)),
    (-17, 5, Instr::RemInt, Ok(-2)),
    (1, 0, Instr::DivInt, Err(Trap::DivideByZero)),
    (BILLIONS, 5, Instr::AddLong, Ok(30_000_000_005)),
    (5, BILLIONS, Instr::SubLong, Ok(-29_999_999_995)),
    (BILLIONS, 5, Instr::MulLong, Ok(150_000_000_000)),
    (-BILLIONS, 7, Instr::DivLong, Ok(-4_285_714_285)),
    (-BILLIONS, 7, Instr::RemLong, Ok(-5)),
    (i64::MIN, -1, Instr::DivLong, Err(Trap::Overflow)),
    (i64::MIN, -1, Instr::RemLong, Err(Trap::Overflow)),
];

// The first number is the left one.
const COMPARISONS: [OfTwo; 18] = [
    (-5, 17, Instr::Less, Ok(1)),
    (17, 17, Instr::Less, Ok(0)),
    (17, -5, Instr::Less, Ok(0)),
    (-5, 17, Instr::LessEqual, Ok(1)),
    (17, 17, Instr::LessEqual, Ok(1)),
    (17, -5, Instr::LessEqual, Ok(0)),
    (-5, 17, Instr::Greater, Ok(0)),
    (17, 17, Instr::Greater, Ok(0)),
    (17, -5, Instr::Greater, Ok(1)),
    (-5, 17, Instr::GreaterEqual, Ok(0)),
    (17, 17, Instr::GreaterEqual, Ok(1)),
    (17, -5, Instr::GreaterEqual, Ok(1)),
    (-5, 17, Instr::Equal, Ok(0)),
    (17, 17, Instr::Equal, Ok(1)),
    (17, -5, Instr::Equal, Ok(0)),
    (-5, 17, Instr::NotEqual, Ok(1)),
    (17, 17, Instr::NotEqual, Ok(0)),
    (17, -5, Instr::NotEqual, Ok(1)),
];

// A number that doesn't fit `int` traps, and its conversion to `char` is that modulo 256.
const CONVERSIONS: [OfOne; 12] = [
    (-300, Instr::NegInt, Ok(300)),
    (BILLIONS, Instr::NegInt, Err(Trap::Overflow)),
    (BILLIONS, Instr::NegLong, Ok(-BILLIONS)),
    (i64::MIN, Instr::NegLong, Err(Trap::Overflow)),
    (0, Instr::Not, Ok(1)),
    (-300, Instr::Not, Ok(0)),
    (-300, Instr::Narrow, Ok(-300)),
    (2_147_483_648, Instr::Narrow, Err(Trap::Overflow)),
    (-300, Instr::ToChar, Ok(212)),
    (-1, Instr::CheckIndex(3), Err(Trap::IndexRange)),
    (2, Instr::CheckIndex(3), Ok(2)),
    (3, Instr::CheckIndex(3), Err(Trap::IndexRange)),
];

#[test]
fn one_number_gives_one(rt: HostRuntime) -> Result<(), Fail> {
    let holds = each_of_one(rt.alloc(), &CONVERSIONS)?;
    assert!(rt; holds);
    Ok(())
}

#[test]
fn two_numbers_give_one(rt: HostRuntime) -> Result<(), Fail> {
    let holds = each_of_two(rt.alloc(), &ARITHMETIC)?;
    assert!(rt; holds);
    Ok(())
}

#[test]
fn two_numbers_are_compared(rt: HostRuntime) -> Result<(), Fail> {
    let holds = each_of_two(rt.alloc(), &COMPARISONS)?;
    assert!(rt; holds);
    Ok(())
}

// A cell is the one with its number, and others stay.
#[test]
fn cells_of_a_frame(rt: HostRuntime) -> Result<(), Fail> {
    let code = [
        Instr::PushInt(7),
        Instr::StoreLocal(1),
        Instr::PushInt(1),
        Instr::PushInt(9),
        Instr::StoreLocalAt(1, 2),
        Instr::PushInt(3),
        Instr::StoreLocal(0),
        Instr::Clear(0, 1),
        Instr::PushInt(1),
        Instr::LoadLocalAt(1, 2),
        Instr::LoadLocal(1),
        Instr::LoadLocal(0),
        Instr::AddInt,
        Instr::SubInt,
        Instr::Return,
    ];
    let heights = [0, 1, 0, 1, 2, 0, 1, 0, 0, 1, 1, 2, 3, 2, 1];
    let holds = makes(rt.alloc(), &code, &heights, Ok(2))?;
    assert!(rt; holds);
    Ok(())
}

// The globals are 10, 20 and 30 at first.
#[test]
fn global_cells(rt: HostRuntime) -> Result<(), Fail> {
    let code = [
        Instr::PushInt(7),
        Instr::StoreGlobal(0),
        Instr::PushInt(1),
        Instr::PushInt(9),
        Instr::StoreGlobalAt(1, 2),
        Instr::PushInt(1),
        Instr::LoadGlobalAt(0, 3),
        Instr::LoadGlobal(0),
        Instr::LoadGlobal(2),
        Instr::MulInt,
        Instr::SubInt,
        Instr::Return,
    ];
    let heights = [0, 1, 0, 1, 2, 0, 1, 1, 2, 3, 2, 1];
    let holds = makes(rt.alloc(), &code, &heights, Ok(-43))?;
    assert!(rt; holds);
    Ok(())
}

// A jump on zero pops what it tests, and goes on below where that isn't zero.
#[test]
fn jumps_and_drops(rt: HostRuntime) -> Result<(), Fail> {
    let code = [
        Instr::PushInt(4),
        Instr::PushInt(0),
        Instr::JumpZero(4),
        Instr::NegInt,
        Instr::PushInt(1),
        Instr::JumpZero(7),
        Instr::NegInt,
        Instr::Jump(9),
        Instr::NegInt,
        Instr::PushInt(5),
        Instr::Pop,
        Instr::Return,
    ];
    let heights = [0, 1, 2, 1, 1, 2, 1, 1, 1, 1, 2, 1];
    let holds = makes(rt.alloc(), &code, &heights, Ok(-4))?;
    assert!(rt; holds);
    Ok(())
}

// The topmost number is the last that is printed.
#[test]
fn numbers_are_printed_in_order(rt: HostRuntime) -> Result<(), Fail> {
    let code = [
        Instr::PushLong(BILLIONS),
        Instr::PushInt(353),
        Instr::PushInt(-4),
        Instr::Print(0),
        Instr::Return,
    ];
    let ending = Ending::Finished(Value::Long(BILLIONS), b"a%-4");
    let heights = [0, 1, 2, 3, 1];
    let holds = ends(rt.alloc(), 0, b"%c%%%ld", &code, &heights, 0, ending)?;
    assert!(rt; holds);
    Ok(())
}

// An element is one of its array, whatever its index.
fn element(alloc: Global, index: i64, made: Made) -> Result<bool, NoMemory> {
    let code = [
        Instr::PushLong(index),
        Instr::LoadLocalAt(0, 3),
        Instr::Return,
    ];
    makes(alloc, &code, &[0, 1, 1], made)
}

#[test]
fn an_index_lies_in_its_array(rt: HostRuntime) -> Result<(), Fail> {
    let alloc = rt.alloc();
    let outside = Err(Trap::IndexRange);
    let holds = element(alloc, -1, outside)?
        && element(alloc, 2, Ok(0))?
        && element(alloc, 3, outside)?;
    assert!(rt; holds);
    Ok(())
}
