// Programs with a producer and a consumer of one set, which is a queue.

ghost use Rattle.std.specs.Prelude.{◌≡◌, [], ◌∷◌, map, IfOk};
ghost use Rattle.cl_sig.specs.Views.{plain_signature};
ghost use Rattle.cl_code.specs.Plain.{plain_function, plain_program};
ghost use Rattle.test_machine.specs.Small.{IsRight, function, operation, paired};

use cl_code::{Function, Instr, Program, ProgramParts};
use cl_ground::{Items, NoMemory};
use cl_sig::{Class, Kind, Mark, Sets, Signature};
use cl_value::{FieldType, Value};
use std::alloc::Global;

// The text, as a field of an operation.
pub const TEXT: Mark = Mark::Constant(Value::Text(0));

// A function that begins there, with these parameters, which gives this type and has so many cells.
pub fn function(
    alloc: Global,
    entry: u32,
    parameters: &[FieldType],
    gives: FieldType,
    cells: u32,
) -> Result<Function, NoMemory>
    ensures { IfOk result (λ f. plain_function f ≡ function entry parameters.now gives cells) }
{
    let parameters = Items::from_slice(alloc, parameters)?;
    Ok(Function {
        name: Items::new(alloc),
        entry,
        parameters,
        gives: Some(gives),
        cells,
        temporaries: 0,
        stack: 4,
    })
}

// An operation with these fields.
pub fn operation(alloc: Global, kind: Kind, fields: &[Mark]) -> Result<Signature, NoMemory>
    ensures { IfOk result (λ s. plain_signature s ≡ operation kind fields.now) }
{
    let fields = Items::from_slice(alloc, fields)?;
    Ok(Signature {
        kind,
        fields,
        place: 0,
    })
}

// A list of one.
pub fn one<T: Drop>(alloc: Global, first: T) -> Result<Items<T>, NoMemory>
    ensures { IfOk result (λ all. all.items ≡ first ∷ []) }
{
    let mut all = Items::new(alloc);
    all.reserve(1)?;
    all.push(first);
    Ok(all)
}

// A list of two.
pub fn two<T: Drop>(alloc: Global, first: T, second: T) -> Result<Items<T>, NoMemory>
    ensures { IfOk result (λ all. all.items ≡ first ∷ second ∷ []) }
{
    let mut all = Items::new(alloc);
    all.reserve(2)?;
    all.push(first);
    all.push(second);
    Ok(all)
}

// A list of three.
pub fn three<T: Drop>(alloc: Global, first: T, second: T, third: T) -> Result<Items<T>, NoMemory>
    ensures { IfOk result (λ all. all.items ≡ first ∷ second ∷ third ∷ []) }
{
    let mut all = Items::new(alloc);
    all.reserve(3)?;
    all.push(first);
    all.push(second);
    all.push(third);
    Ok(all)
}

// The functions and the operations of a program. Calls stand in the fields of the producer.
pub struct Outline {
    pub functions: Items<Function>,
    pub producer: Signature,
    pub consumer: Signature,
}

// The parts of a program with this code.
fn parts_of(
    alloc: Global,
    code: &[Instr],
    heights: &[u32],
    outline: Outline,
    calls: &[Option<u32>],
    format: &[u8],
) -> Result<ProgramParts, NoMemory>
    ensures { IfOk result (λ parts. plain_program parts ≡ paired code.now heights.now (map plain_function outline.functions.items) (plain_signature outline.producer) (plain_signature outline.consumer) calls.now format.now) }
{
    let Outline {
        functions,
        producer,
        consumer,
    } = outline;
    let code = Items::from_slice(alloc, code)?;
    let heights = Items::from_slice(alloc, heights)?;
    let globals = Items::from_slice(alloc, &[10, 20, 30])?;
    let texts = one(alloc, Items::new(alloc))?;
    let formats = one(alloc, Items::from_slice(alloc, format)?)?;
    let sites = two(alloc, producer, consumer)?;
    let calls = one(alloc, Items::from_slice(alloc, calls)?)?;
    let sets = Sets::new(Items::from_slice(alloc, &[0, 0])?, 1);
    let classes = Items::from_slice(alloc, &[Class::Queue])?;
    Ok(ProgramParts {
        code,
        heights,
        functions,
        main: 0,
        globals,
        texts,
        formats,
        sites,
        calls,
        sets,
        classes,
    })
}

// The program with this code.
pub fn program_of(
    alloc: Global,
    code: &[Instr],
    heights: &[u32],
    outline: Outline,
    calls: &[Option<u32>],
    format: &[u8],
) -> Result<Program, NoMemory>
    requires { IsRight code.now heights.now (map plain_function outline.functions.items) (plain_signature outline.producer) (plain_signature outline.consumer) calls.now format.now }
{
    let parts = parts_of(alloc, code, heights, outline, calls, format)?;
    Ok(Program::new(parts))
}
