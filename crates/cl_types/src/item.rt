ghost use Rattle.std.specs.Prelude.{◌≡◌, [], ◌∷◌, OnOk, IfOk};
ghost use Rattle.cl_types.specs.Journals.{noted_all, new_journal};
ghost use Rattle.cl_types.specs.Items.{parameter_types, function_type, define_walked, parameter_walked, parameters_walked, body_walked, function_known, function_walked, item_walked, items_walked, known_first, is_main, has_main, with_function, with_known};
ghost use Rattle.cl_types.specs.Walks.{Keeps, Does};
ghost use Rattle.cl_types.specs.Unit.{unit_notes, main_notes};

use crate::declare::{report_again, variables};
use crate::scopes::Scopes;
use crate::statement::block;
use crate::{Context, Declared, FunctionType, Journal, Number, Reach, TypeKind};
use cl_ast::{Define, Function, Item, Parameter, TypeName};
use sqlite_items::Items;
use std::alloc::{AllocError, Global};

/// The types of parameters, in order.
fn parameter_types(alloc: Global, parts: &[Parameter]) -> Result<Items<TypeName>, AllocError>
    ensures { IfOk result (λ types. types ≡ parameter_types parts.now) }
{
    let mut types = Items::new(alloc);
    for part in parts {
        types.push(part.type_name)?;
    }
    Ok(types)
}

/// What a function takes and gives.
fn function_type(alloc: Global, part: &Function) -> Result<FunctionType, AllocError>
    ensures { IfOk result (λ found. found ≡ function_type part.now) }
{
    Ok(FunctionType {
        result: part.result,
        parameters: parameter_types(alloc, part.parameters.as_slice())?,
    })
}

/// Declares a constant.
pub fn define<'a>(
    part: &'a Define,
    scopes: &mut Scopes<'a>,
    journal: &mut Journal,
) -> Result<(), AllocError>
    ensures does { OnOk result (Does (define_walked part.now scopes.old) scopes.new journal.old journal.new) }
    ensures keeps { OnOk result (Keeps scopes.old scopes.new) }
{
    report_again(&part.name, scopes, journal);
    let number = Number {
        is_negative: part.is_negative,
        literal: part.literal.value,
    };
    scopes.declare(part.name.bytes.as_slice(), Declared::Constant(number))
}

/// Declares a parameter.
fn parameter<'a>(
    part: &'a Parameter,
    scopes: &mut Scopes<'a>,
    journal: &mut Journal,
) -> Result<(), AllocError>
    ensures does { OnOk result (Does (parameter_walked part.now scopes.old) scopes.new journal.old journal.new) }
    ensures keeps { OnOk result (Keeps scopes.old scopes.new) }
{
    report_again(&part.name, scopes, journal);
    scopes.declare(part.name.bytes.as_slice(), Declared::Scalar(part.type_name))
}

/// Declares parameters, one after the other.
pub fn parameters<'a>(
    parts: &'a [Parameter],
    scopes: &mut Scopes<'a>,
    journal: &mut Journal,
) -> Result<(), AllocError>
    ensures does { OnOk result (Does (parameters_walked parts.now scopes.old) scopes.new journal.old journal.new) }
    ensures keeps { OnOk result (Keeps scopes.old scopes.new) }
{
    for part in parts {
        parameter(part, scopes, journal)?;
    }
    Ok(())
}

/// Walks the parameters and the statements of a function, in a scope that has begun.
fn body<'a>(
    part: &'a Function,
    alloc: Global,
    scopes: &mut Scopes<'a>,
    journal: &mut Journal,
) -> Result<(), AllocError>
    ensures does { OnOk result (Does (body_walked part.now scopes.old) scopes.new journal.old journal.new) }
    ensures keeps { OnOk result (Keeps scopes.old scopes.new) }
{
    parameters(part.parameters.as_slice(), scopes, journal)?;
    let context = Context {
        result: part.result,
        is_in_loop: false,
    };
    block(&part.body, alloc, context, scopes, journal)
}

/// Declares a function where it stands.
pub fn declare_function<'a>(
    part: &'a Function,
    alloc: Global,
    scopes: &mut Scopes<'a>,
) -> Result<(), AllocError>
    ensures { OnOk result (scopes.new ≡ function_known part.now scopes.old) }
{
    let what = Declared::Function(function_type(alloc, part)?);
    scopes.declare(part.name.bytes.as_slice(), what)
}

/// Declares and walks a function.
fn function<'a>(
    part: &'a Function,
    alloc: Global,
    scopes: &mut Scopes<'a>,
    journal: &mut Journal,
) -> Result<(), AllocError>
    ensures does { OnOk result (Does (function_walked part.now scopes.old) scopes.new journal.old journal.new) }
    ensures keeps { OnOk result (Keeps scopes.old scopes.new) }
{
    journal.function(part.name.span.start);
    report_again(&part.name, scopes, journal);
    declare_function(part, alloc, scopes)?;
    let outer = scopes.enter();
    body(part, alloc, scopes, journal)?;
    scopes.leave(outer);
    Ok(())
}

/// Walks a part of a source outside all others.
fn item<'a>(
    part: &'a Item,
    alloc: Global,
    scopes: &mut Scopes<'a>,
    journal: &mut Journal,
) -> Result<(), AllocError>
    ensures does { OnOk result (Does (item_walked part.now scopes.old) scopes.new journal.old journal.new) }
    ensures keeps { OnOk result (Keeps scopes.old scopes.new) }
{
    match part {
        Item::Define(part) => define(part, scopes, journal),
        Item::Variables(part) => variables(Reach::Global, part, scopes, journal),
        Item::Function(part) => function(part, alloc, scopes, journal),
    }
}

/// Walks such parts, one after the other.
fn items<'a>(
    parts: &'a [Item],
    alloc: Global,
    scopes: &mut Scopes<'a>,
    journal: &mut Journal,
) -> Result<(), AllocError>
    ensures { OnOk result (Does (items_walked parts.now scopes.old) scopes.new journal.old journal.new) }
{
    for part in parts {
        item(part, alloc, scopes, journal)?;
    }
    Ok(())
}

/// Makes a function known, unless one of its name is.
fn add_function<'a>(
    part: &'a Function,
    alloc: Global,
    scopes: &mut Scopes<'a>,
) -> Result<(), AllocError>
    ensures { OnOk result (scopes.new ≡ record scopes.old { functions = with_function part.now scopes.old.functions }) }
{
    let name = part.name.bytes.as_slice();
    if scopes.has_function(name) {
        return Ok(());
    }
    let what = Declared::Function(function_type(alloc, part)?);
    scopes.add_function(name, what)
}

/// Makes a part known where it is a function.
fn add_item<'a>(part: &'a Item, alloc: Global, scopes: &mut Scopes<'a>) -> Result<(), AllocError>
    ensures { OnOk result (scopes.new ≡ with_known (part.now ∷ []) scopes.old) }
{
    match part {
        Item::Function(part) => add_function(part, alloc, scopes),
        Item::Define(_) | Item::Variables(_) => Ok(()),
    }
}

/// Makes the functions of parts known, one after the other.
fn add_items<'a>(
    parts: &'a [Item],
    alloc: Global,
    scopes: &mut Scopes<'a>,
) -> Result<(), AllocError>
    ensures { OnOk result (scopes.new ≡ with_known parts.now scopes.old) }
{
    for part in parts {
        add_item(part, alloc, scopes)?;
    }
    Ok(())
}

/// What is known at the beginning of a source: its functions.
pub fn known_first<'a>(parts: &'a [Item], alloc: Global) -> Result<Scopes<'a>, AllocError>
    ensures { IfOk result (λ scopes. scopes ≡ known_first parts.now) }
{
    let mut scopes = Scopes::new(alloc);
    add_items(parts, alloc, &mut scopes)?;
    Ok(scopes)
}

/// Where a program begins.
const MAIN: &[u8; 9] = b"real_main";

/// Whether the program may begin at the function.
fn is_main(part: &Function) -> bool
    ensures { result ≡ is_main part.now }
{
    part.name.bytes.as_slice() == MAIN.as_slice() && part.parameters.is_empty()
}

/// Whether the program may begin at the part.
fn is_main_item(part: &Item) -> bool
    ensures { result ≡ has_main (part.now ∷ []) }
{
    match part {
        Item::Function(part) => is_main(part),
        Item::Define(_) | Item::Variables(_) => false,
    }
}

/// Whether there is such a part.
#[tactic(auto, using(crate::proofs::Parts::main_nowhere))]
fn has_main(parts: &[Item]) -> bool
    ensures { result ≡ has_main parts.now }
{
    for part in parts {
        if is_main_item(part) {
            return true;
        }
    }
    false
}

/// Reports that a program begins nowhere.
fn report_main(parts: &[Item], journal: &mut Journal)
    ensures { journal.new ≡ noted_all (main_notes parts.now) journal.old }
{
    if !has_main(parts) {
        journal.report(TypeKind::NoMain, 0);
    }
}

/// Walks a whole source.
pub fn walk(parts: &[Item], alloc: Global) -> Result<Journal, AllocError>
    ensures { IfOk result (λ journal. journal ≡ noted_all (unit_notes parts.now) new_journal) }
{
    let mut journal = Journal::new();
    report_main(parts, &mut journal);
    let mut scopes = known_first(parts, alloc)?;
    items(parts, alloc, &mut scopes, &mut journal)?;
    Ok(journal)
}
