//! The programs that are measured, put together by hand. (This project.)

ghost use Rattle.std.specs.Prelude.{◌≡◌, [], IfOk, IsTrue, Some, map};
ghost use Rattle.cl_value.specs.declared.value.FieldType.TheVariants as types;
ghost use Rattle.cl_code.specs.Plain.{plain_function};
ghost use Rattle.cl_code.specs.Rules.{keeps_rules};
ghost use Rattle.cl_code.specs.Valid.{lists_are_short};
ghost use Rattle.bench_machine.specs.Programs.{functions, measured};

use cl_code::{Function, Instr, Program, ProgramParts};
use cl_ground::{Items, NoMemory};
use cl_sig::Sets;
use cl_value::FieldType;
use std::alloc::Global;

/// A program, whose one global `n` is the number of its turns.
#[derive(Clone, Copy)]
pub enum Measured {
    /// `for(i=0;i<n;i++)s+=i%7;`, which gives `s`.
    Loop,
    /// `for(i=0;i<n;i++)s=f(s,i);`, where `f(x,y)` gives `x+y%7`. It gives `s`.
    Calls,
    /// `for(i=0;i<n;i++){k=i%1000;a[k]=a[k]+i%7;}` over 1,000 elements, which gives `a[k]`.
    Array,
}

// A function that gives an `int`.
fn function(
    alloc: Global,
    entry: u32,
    parameters: &[FieldType],
    cells: u32,
) -> Result<Function, NoMemory>
    ensures { IfOk result (λ f. plain_function f ≡ record { name = []; entry = entry; parameters = parameters.now; gives = Some types.Int; cells = cells; temporaries = 0; stack = 4 }) }
{
    let parameters = Items::from_slice(alloc, parameters)?;
    Ok(Function {
        name: Items::new(alloc),
        entry,
        parameters,
        gives: Some(FieldType::Int),
        cells,
        temporaries: 0,
        stack: 4,
    })
}

// The function at which process 0 begins, with so many cells, and one of two numbers with this entry.
fn functions_of(alloc: Global, cells: u32, second: Option<u32>) -> Result<Items<Function>, NoMemory>
    ensures { IfOk result (λ fs. map plain_function fs.items ≡ functions cells second) }
{
    let mut functions = Items::new(alloc);
    functions.reserve(2)?;
    functions.push(function(alloc, 0, &[], cells)?);
    if let Some(entry) = second {
        functions.push(function(alloc, entry, &[FieldType::Int, FieldType::Int], 2)?);
    }
    Ok(functions)
}

// The program of this code.
fn program_of(
    alloc: Global,
    code: &[Instr],
    heights: &[u32],
    cells: u32,
    second: Option<u32>,
    turns: i64,
) -> Result<Program, NoMemory>
    requires rules { IsTrue (keeps_rules (measured code.now heights.now cells second turns)) }
    requires short { IsTrue (lists_are_short (measured code.now heights.now cells second turns)) }
{
    let parts = ProgramParts {
        code: Items::from_slice(alloc, code)?,
        heights: Items::from_slice(alloc, heights)?,
        functions: functions_of(alloc, cells, second)?,
        main: 0,
        globals: Items::from_slice(alloc, &[turns])?,
        texts: Items::new(alloc),
        formats: Items::new(alloc),
        sites: Items::new(alloc),
        calls: Items::new(alloc),
        sets: Sets::new(Items::new(alloc), 0),
        classes: Items::new(alloc),
    };
    Ok(Program::new(parts))
}

// 16 instructions a turn, and 10 around them.
fn adding(alloc: Global, turns: i64) -> Result<Program, NoMemory> {
    let code = [
        Instr::PushInt(0),
        Instr::StoreLocal(0),
        Instr::Jump(14),
        Instr::Tick,
        Instr::LoadLocal(1),
        Instr::LoadLocal(0),
        Instr::PushInt(7),
        Instr::RemInt,
        Instr::AddInt,
        Instr::StoreLocal(1),
        Instr::LoadLocal(0),
        Instr::PushInt(1),
        Instr::AddInt,
        Instr::StoreLocal(0),
        Instr::LoadLocal(0),
        Instr::LoadGlobal(0),
        Instr::Less,
        Instr::Not,
        Instr::JumpZero(3),
        Instr::LoadLocal(1),
        Instr::Return,
    ];
    let heights = [
        0, 1, 0, 0, 0, 1, 2, 3, 2, 1, 0, 1, 2, 1, 0, 1, 2, 1, 1, 0, 1,
    ];
    program_of(alloc, &code, &heights, 2, None, turns)
}

// 20 instructions a turn, six of them in `f`, and 10 around them.
fn calling(alloc: Global, turns: i64) -> Result<Program, NoMemory> {
    let code = [
        Instr::PushInt(0),
        Instr::StoreLocal(0),
        Instr::Jump(12),
        Instr::Tick,
        Instr::LoadLocal(1),
        Instr::LoadLocal(0),
        Instr::Call(1),
        Instr::StoreLocal(1),
        Instr::LoadLocal(0),
        Instr::PushInt(1),
        Instr::AddInt,
        Instr::StoreLocal(0),
        Instr::LoadLocal(0),
        Instr::LoadGlobal(0),
        Instr::Less,
        Instr::Not,
        Instr::JumpZero(3),
        Instr::LoadLocal(1),
        Instr::Return,
        Instr::LoadLocal(0),
        Instr::LoadLocal(1),
        Instr::PushInt(7),
        Instr::RemInt,
        Instr::AddInt,
        Instr::Return,
    ];
    let heights = [
        0, 1, 0, 0, 0, 1, 2, 1, 0, 1, 2, 1, 0, 1, 2, 1, 1, 0, 1, 0, 1, 2, 3, 2, 1,
    ];
    program_of(alloc, &code, &heights, 2, Some(19), turns)
}

// 22 instructions a turn, and 11 around them.
fn indexing(alloc: Global, turns: i64) -> Result<Program, NoMemory> {
    let code = [
        Instr::PushInt(0),
        Instr::StoreLocal(0),
        Instr::Jump(20),
        Instr::Tick,
        Instr::LoadLocal(0),
        Instr::PushInt(1_000),
        Instr::RemInt,
        Instr::StoreLocal(1),
        Instr::LoadLocal(1),
        Instr::LoadLocal(1),
        Instr::LoadLocalAt(2, 1_000),
        Instr::LoadLocal(0),
        Instr::PushInt(7),
        Instr::RemInt,
        Instr::AddInt,
        Instr::StoreLocalAt(2, 1_000),
        Instr::LoadLocal(0),
        Instr::PushInt(1),
        Instr::AddInt,
        Instr::StoreLocal(0),
        Instr::LoadLocal(0),
        Instr::LoadGlobal(0),
        Instr::Less,
        Instr::Not,
        Instr::JumpZero(3),
        Instr::LoadLocal(1),
        Instr::LoadLocalAt(2, 1_000),
        Instr::Return,
    ];
    let heights = [
        0, 1, 0, 0, 0, 1, 2, 1, 0, 1, 2, 2, 3, 4, 3, 2, 0, 1, 2, 1, 0, 1, 2, 1, 1, 0, 1, 1,
    ];
    program_of(alloc, &code, &heights, 1_002, None, turns)
}

impl Measured {
    /// The program of this name.
    pub fn named(word: &str) -> Option<Measured> {
        match word {
            "loop" => Some(Measured::Loop),
            "calls" => Some(Measured::Calls),
            "array" => Some(Measured::Array),
            _ => None,
        }
    }

    /// The program with so many turns.
    pub fn program(self, alloc: Global, turns: u32) -> Result<Program, NoMemory> {
        let turns = i64::from(turns);
        match self {
            Measured::Loop => adding(alloc, turns),
            Measured::Calls => calling(alloc, turns),
            Measured::Array => indexing(alloc, turns),
        }
    }

    /// How many instructions so many turns take, up to the end.
    pub fn instructions(self, turns: u32) -> u64 {
        let (each, around) = match self {
            Measured::Loop => (16, 10),
            Measured::Calls => (20, 10),
            Measured::Array => (22, 11),
        };
        each * u64::from(turns) + around
    }
}
