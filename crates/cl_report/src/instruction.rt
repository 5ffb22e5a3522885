//! Instructions, as they are printed.

ghost use Rattle.std.specs.Prelude.{◌≡◌, ◌++◌, OnOk};
ghost use Rattle.cl_report.specs.Listing.{instruction_name, instruction_fields, instruction_text, signed_field};
ghost use Rattle.cl_report.specs.Listing as printed;

use crate::text::Text;
use cl_code::Instr;
use cl_ground::NoMemory;

// The name of an instruction.
fn name_of(instruction: Instr) -> &'static [u8]
    ensures { result.now ≡ instruction_name instruction }
{
    match instruction {
        Instr::PushInt(_) => b"PushInt",
        Instr::PushLong(_) => b"PushLong",
        Instr::LoadLocal(_) => b"LoadLocal",
        Instr::LoadGlobal(_) => b"LoadGlobal",
        Instr::StoreLocal(_) => b"StoreLocal",
        Instr::StoreGlobal(_) => b"StoreGlobal",
        Instr::LoadLocalAt(_, _) => b"LoadLocalAt",
        Instr::LoadGlobalAt(_, _) => b"LoadGlobalAt",
        Instr::StoreLocalAt(_, _) => b"StoreLocalAt",
        Instr::StoreGlobalAt(_, _) => b"StoreGlobalAt",
        Instr::CheckIndex(_) => b"CheckIndex",
        Instr::Clear(_, _) => b"Clear",
        Instr::AddInt => b"AddInt",
        Instr::SubInt => b"SubInt",
        Instr::MulInt => b"MulInt",
        Instr::DivInt => b"DivInt",
        Instr::RemInt => b"RemInt",
        Instr::NegInt => b"NegInt",
        Instr::AddLong => b"AddLong",
        Instr::SubLong => b"SubLong",
        Instr::MulLong => b"MulLong",
        Instr::DivLong => b"DivLong",
        Instr::RemLong => b"RemLong",
        Instr::NegLong => b"NegLong",
        Instr::Less => b"Less",
        Instr::LessEqual => b"LessEqual",
        Instr::Greater => b"Greater",
        Instr::GreaterEqual => b"GreaterEqual",
        Instr::Equal => b"Equal",
        Instr::NotEqual => b"NotEqual",
        Instr::Not => b"Not",
        Instr::Narrow => b"Narrow",
        Instr::ToChar => b"ToChar",
        Instr::Jump(_) => b"Jump",
        Instr::JumpZero(_) => b"JumpZero",
        Instr::Tick => b"Tick",
        Instr::Call(_) => b"Call",
        Instr::Return => b"Return",
        Instr::Pop => b"Pop",
        Instr::Print(_) => b"Print",
        Instr::Perform(_) => b"Perform",
    }
}

// Puts a signed field at the end, behind a blank.
fn add_signed(text: &mut Text, number: i64) -> Result<(), NoMemory>
    ensures { OnOk result (text.new ≡ text.old ++ signed_field number) }
{
    text.add(b" ")?;
    text.add_signed(number)
}

// Puts a field at the end, behind a blank.
fn add_field(text: &mut Text, field: u32) -> Result<(), NoMemory>
    ensures { OnOk result (text.new ≡ text.old ++ printed.field field) }
{
    text.add(b" ")?;
    text.add_number(u64::from(field))
}

// Puts two fields at the end, each behind a blank.
fn add_pair(text: &mut Text, base: u32, size: u32) -> Result<(), NoMemory>
    ensures { OnOk result (text.new ≡ text.old ++ (printed.field base ++ printed.field size)) }
{
    add_field(text, base)?;
    add_field(text, size)
}

// Puts the fields of an instruction at the end, each behind a blank.
fn add_fields(text: &mut Text, instruction: Instr) -> Result<(), NoMemory>
    ensures { OnOk result (text.new ≡ text.old ++ instruction_fields instruction) }
{
    match instruction {
        Instr::PushInt(number) => add_signed(text, i64::from(number)),
        Instr::PushLong(number) => add_signed(text, number),
        Instr::LoadLocal(field) => add_field(text, field),
        Instr::LoadGlobal(field) => add_field(text, field),
        Instr::StoreLocal(field) => add_field(text, field),
        Instr::StoreGlobal(field) => add_field(text, field),
        Instr::LoadLocalAt(base, size) => add_pair(text, base, size),
        Instr::LoadGlobalAt(base, size) => add_pair(text, base, size),
        Instr::StoreLocalAt(base, size) => add_pair(text, base, size),
        Instr::StoreGlobalAt(base, size) => add_pair(text, base, size),
        Instr::CheckIndex(field) => add_field(text, field),
        Instr::Clear(base, size) => add_pair(text, base, size),
        Instr::Jump(field) => add_field(text, field),
        Instr::JumpZero(field) => add_field(text, field),
        Instr::Call(field) => add_field(text, field),
        Instr::Print(field) => add_field(text, field),
        Instr::Perform(field) => add_field(text, field),
        _ => Ok(()),
    }
}

/// Puts an instruction at the end: its name, and each field behind a blank.
pub fn add_instruction(text: &mut Text, instruction: Instr) -> Result<(), NoMemory>
    ensures { OnOk result (text.new ≡ text.old ++ instruction_text instruction) }
{
    text.add(name_of(instruction))?;
    add_fields(text, instruction)
}
