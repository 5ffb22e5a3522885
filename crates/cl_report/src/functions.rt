//! The text of the code, line by line.

ghost use Rattle.std.specs.Prelude.{◌≡◌, ◌++◌, length, map, OnOk, IfOk};
ghost use Rattle.cl_ground.specs.Room.{Room};
ghost use Rattle.cl_code.specs.Plain.{PlainProgram, plain_program, plain_function};
ghost use Rattle.cl_report.specs.Listing.{instruction_line, instruction_lines, code_between, function_line, function_text, functions_text, listing_text};
ghost use Rattle.cl_report.specs.Listing as printed;

use crate::instruction::add_instruction;
use crate::text::Text;
use cl_code::{Function, Instr, Program};
use cl_ground::{Items, NoMemory};
use std::alloc::Global;

// Puts the line of an instruction at the end.
fn add_line(text: &mut Text, address: u64, instruction: Instr) -> Result<(), NoMemory>
    ensures { OnOk result (text.new ≡ text.old ++ instruction_line address instruction) }
{
    text.add_number(address)?;
    text.add(b" ")?;
    add_instruction(text, instruction)?;
    text.add(b"\n")
}

// Puts the lines of instructions from an address on at the end.
fn add_lines(text: &mut Text, entry: u32, code: &[Instr]) -> Result<(), NoMemory>
    ensures { OnOk result (text.new ≡ text.old ++ instruction_lines entry code.now) }
{
    for (number, instruction) in code.iter().enumerate() {
        add_line(text, u64::from(entry) + number as u64, *instruction)?;
    }
    Ok(())
}

// Puts the first line of a function at the end.
fn add_head(text: &mut Text, number: usize, function: &Function) -> Result<(), NoMemory>
    ensures { OnOk result (text.new ≡ text.old ++ function_line number (plain_function function.now)) }
{
    text.add(b"function ")?;
    text.add_number(number as u64)?;
    text.add(b" ")?;
    text.add(function.name.as_slice())?;
    text.add(b" cells ")?;
    text.add_number(u64::from(function.cells))?;
    text.add(b"\n")
}

// The code from an entry up to an end.
fn code_between(code: &[Instr], entry: usize, end: usize) -> &[Instr]
    ensures { result.now ≡ printed.code_between code.now entry end }
{
    let front = &code[..end.min(code.len())];
    &front[entry.min(front.len())..]
}

// Where the code ends that stands before these functions.
fn end_before(code: &[Instr], functions: &[Function]) -> usize
    ensures { result ≡ printed.end_before code.now (map plain_function functions.now) }
{
    match functions {
        [] => code.len(),
        [next, ..] => next.entry as usize,
    }
}

// Puts a function, whose code goes up to this end, at the end.
fn add_function(
    text: &mut Text,
    code: &[Instr],
    number: usize,
    function: &Function,
    end: usize,
) -> Result<(), NoMemory>
    ensures { OnOk result (text.new ≡ text.old ++ function_text code.now number (plain_function function.now) end) }
{
    add_head(text, number, function)?;
    add_lines(
        text,
        function.entry,
        code_between(code, function.entry as usize, end),
    )
}

// Puts all functions at the end.
fn add_functions(text: &mut Text, code: &[Instr], functions: &[Function]) -> Result<(), NoMemory>
    ensures { OnOk result (text.new ≡ text.old ++ functions_text code.now 0 (map plain_function functions.now)) }
{
    for (number, function) in functions.iter().enumerate() {
        let end = end_before(code, &functions[number + 1..]);
        add_function(text, code, number, function, end)?;
    }
    Ok(())
}

/// The text of the code of a program: each function with its number, its name and its cells, and each of
/// its instructions with its address, its name and its fields. `NoMemory` comes where the allocator
/// refused a growth.
pub fn listing(alloc: Global, program: &Program) -> Result<Items<u8>, NoMemory>
    ensures text { IfOk result (λ text. text.items ≡ listing_text (plain_program program.now)) }
{
    let mut text = Text::new(alloc);
    add_functions(&mut text, program.code(), program.functions())?;
    Ok(text.into_bytes())
}
