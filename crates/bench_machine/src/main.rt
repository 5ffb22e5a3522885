//! Runs a program of the machine with a number of turns: what `bench/` measures.
//!
//! The words are the name of a program and the number, and so on. A line has both, the program's result, and
//! how many instructions were done.
#![tactic(auto)]

mod programs;

ghost use Rattle.std.specs.Prelude.{◌≡◌, IsTrue};
ghost use Rattle.cl_vm.specs.declared.vm.Reply.TheVariants as replied;
ghost use Rattle.cl_value.specs.Views.{plain_start};
ghost use Rattle.cl_code.specs.Starts.{start_fits};
ghost use Rattle.cl_value.specs.Plain.{PlainStart};
ghost use Rattle.cl_code.specs.Plain.{plain_program};
ghost use Rattle.cl_vm.specs.Trials.{StandsAfter, StandsNew};

use crate::programs::Measured;
use cl_code::Program;
use cl_ground::{MOST_STEPS, NoMemory};
use cl_value::{Limits, Start, Value};
use cl_vm::{Demand, Reply, Vm};
use std::alloc::Global;
use std::{env, io};

// Begins a process.
fn begin_by(vm: &mut Vm, program: &Program, reply: &Reply<'_>) -> Demand
    requires begins { reply.now ≡ replied.Begin }
    requires new { (start : PlainStart) × StandsNew (plain_program program.now) start vm.old }
    ensures { (start : PlainStart) × StandsAfter (plain_program program.now) start result vm.new }
{
    vm.resume(program, reply)
}

// The same.
fn begin(vm: &mut Vm, program: &Program) -> Demand
    requires { (start : PlainStart) × StandsNew (plain_program program.now) start vm.old }
    ensures { (start : PlainStart) × StandsAfter (plain_program program.now) start result vm.new }
{
    begin_by(vm, program, &Reply::Begin)
}

// The number that a process gave, where it finished with one.
fn number_of(vm: &Vm, program: &Program, demand: Demand) -> Option<i32>
    requires { (start : PlainStart) × StandsAfter (plain_program program.now) start demand vm.now }
{
    match values_of(vm, program, demand) {
        [Value::Int(n)] => Some(*n),
        _ => None,
    }
}

// The values of a process, where it finished.
fn values_of<'a>(vm: &'a Vm, program: &Program, demand: Demand) -> &'a [Value]
    requires { (start : PlainStart) × StandsAfter (plain_program program.now) start demand vm.now }
{
    match demand {
        Demand::Finished => vm.values().fields(),
        Demand::Op | Demand::Trapped(_) => &[],
    }
}

// The number with which a process ends that hasn't begun.
fn number_behind(vm: &mut Vm, program: &Program) -> Option<i32>
    requires { (start : PlainStart) × StandsNew (plain_program program.now) start vm.old }
{
    let demand = begin(vm, program);
    number_of(vm, program, demand)
}

// What a process gives that begins so, if it doesn't trap.
fn answer_from(alloc: Global, program: &Program, start: &Start) -> Result<Option<i32>, NoMemory>
    requires { IsTrue (start_fits (plain_program program.now) (plain_start start.now)) }
{
    let limits = Limits {
        steps: MOST_STEPS,
        entries: 1,
    };
    let mut vm = Vm::start(alloc, program, start, &limits)?;
    Ok(number_behind(&mut vm, program))
}

// What process 0 gives.
fn answer_of(alloc: Global, program: &Program) -> Result<Option<i32>, NoMemory> {
    answer_from(alloc, program, &Start::Main)
}

// What the program gives with so many turns.
fn answer(alloc: Global, measured: Measured, turns: u32) -> Result<Option<i32>, NoMemory> {
    let program = measured.program(alloc, turns)?;
    answer_of(alloc, &program)
}

// Writes the line of these two words.
fn tell(rt: &HostRuntime, name: &str, count: &str) -> io::Result<()> {
    let (Some(measured), Ok(turns)) = (Measured::named(name), count.parse::<u32>()) else {
        return println!(rt; "{name} is no program");
    };
    match answer(rt.alloc(), measured, turns) {
        Ok(Some(number)) => {
            let instructions = measured.instructions(turns);
            println!(rt; "{name} {turns} {number} {instructions}")
        }
        Ok(None) => println!(rt; "{name} {turns} trapped"),
        Err(NoMemory) => println!(rt; "{name} {turns} no memory"),
    }
}

// The words behind the program's name.
fn words_behind(arguments: &[String]) -> &[String] {
    match arguments {
        [] => arguments,
        [_, words @ ..] => words,
    }
}

fn main(rt: HostRuntime) -> io::Result<()> {
    let arguments: Vec<String> = env::args(&rt)?.collect(rt.alloc())?;
    for pair in words_behind(arguments.as_slice()).chunks_exact(2) {
        tell(&rt, pair[0].as_str(), pair[1].as_str())?;
    }
    Ok(())
}
