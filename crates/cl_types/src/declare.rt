ghost use Rattle.std.specs.Prelude.{◌≡◌, OnOk};
ghost use Rattle.std.specs.Option.{option_copied};
ghost use Rattle.cl_types.specs.Notes.{found_all};
ghost use Rattle.cl_types.specs.Journals.{noted_all};
ghost use Rattle.cl_types.specs.Declarations.{declared_again};
ghost use Rattle.cl_types.specs.Statements.{size_faults, size_kind, size_notes, constant_faults, initial_faults, initial_notes, form_notes, form_declared, declarator_walked, variables_walked};
ghost use Rattle.cl_types.specs.Walks.{Keeps, Does};

use crate::judge::{constant, expr};
use crate::number::{fits_type, is_size};
use crate::scopes::Scopes;
use crate::{Declared, Journal, Number, Reach, TypeKind};
use cl_ast::{Declarator, Form, Name, Size, Spanned, TypeName, Variables};
use std::alloc::AllocError;

/// Reports a name that its scope has already.
pub fn report_again(name: &Name, scopes: &Scopes<'_>, journal: &mut Journal)
    ensures { journal.new ≡ noted_all (declared_again name.now scopes.now) journal.old }
{
    if scopes.is_declared_here(name.bytes.as_slice()) {
        journal.report(TypeKind::TwiceDeclared, name.span.start);
    }
}

/// Reports a number that is no size of an array.
fn report_size(number: Number, place: u32, journal: &mut Journal)
    ensures { journal.new ≡ noted_all (found_all (size_kind number) place) journal.old }
{
    if !is_size(number) {
        journal.report(TypeKind::WrongType, place);
    }
}

/// Reports a name that is no size of an array.
fn report_size_name(what: Option<&Declared>, place: u32, journal: &mut Journal)
    ensures { journal.new ≡ noted_all (found_all (size_faults (option_copied what.entry)) place) journal.old }
{
    match what {
        None => journal.report(TypeKind::UnknownName, place),
        Some(Declared::Constant(number)) => report_size(*number, place, journal),
        Some(_) => journal.report(TypeKind::WrongType, place),
    }
}

/// Judges the size of an array.
fn size(size: &Size, scopes: &Scopes<'_>, journal: &mut Journal)
    ensures { journal.new ≡ noted_all (size_notes scopes.now size.now) journal.old }
{
    match size {
        Size::Number(literal) => report_size(
            Number {
                is_negative: false,
                literal: literal.value,
            },
            literal.span.start,
            journal,
        ),
        Size::Name(name) => report_size_name(
            scopes.look_up(name.bytes.as_slice()),
            name.span.start,
            journal,
        ),
    }
}

/// Reports an initial value of a global that isn't a constant or doesn't fit.
fn report_constant(type_name: TypeName, constant: Option<Number>, place: u32, journal: &mut Journal)
    ensures { journal.new ≡ noted_all (found_all (constant_faults type_name constant) place) journal.old }
{
    match constant {
        None => journal.report(TypeKind::WrongType, place),
        Some(number) => {
            if !fits_type(type_name, number) {
                journal.report(TypeKind::WrongType, place);
            }
        }
    }
}

/// Reports an initial value that can't stand where it does.
fn report_initial(
    reach: Reach,
    type_name: TypeName,
    found: Option<TypeName>,
    constant: Option<Number>,
    place: u32,
    journal: &mut Journal,
)
    ensures { journal.new ≡ noted_all (found_all (initial_faults reach type_name found constant) place) journal.old }
{
    match reach {
        Reach::Local => {}
        Reach::Global => match found {
            None => {}
            Some(_) => report_constant(type_name, constant, place, journal),
        },
    }
}

/// Judges an initial value.
fn initial(
    reach: Reach,
    type_name: TypeName,
    value: &Spanned,
    scopes: &Scopes<'_>,
    journal: &mut Journal,
)
    ensures { journal.new ≡ noted_all (initial_notes reach type_name scopes.now value.now) journal.old }
{
    let found = expr(&value.expr, scopes, journal);
    report_initial(
        reach,
        type_name,
        found,
        constant(&value.expr, scopes),
        value.span.start,
        journal,
    );
}

/// Judges what is said of a variable besides its name.
fn form(reach: Reach, type_name: TypeName, form: &Form, scopes: &Scopes<'_>, journal: &mut Journal)
    ensures { journal.new ≡ noted_all (form_notes reach type_name scopes.now form.now) journal.old }
{
    match form {
        Form::Bare => {}
        Form::Array(part) => size(part, scopes, journal),
        Form::Value(value) => initial(reach, type_name, value, scopes, journal),
    }
}

/// What a variable is declared as.
pub fn declared(type_name: TypeName, form: &Form) -> Declared
    ensures { result ≡ form_declared type_name form.now }
{
    match form {
        Form::Bare | Form::Value(_) => Declared::Scalar(type_name),
        Form::Array(_) => Declared::Array(type_name),
    }
}

/// Judges and declares a variable.
fn declarator<'a>(
    reach: Reach,
    type_name: TypeName,
    part: &'a Declarator,
    scopes: &mut Scopes<'a>,
    journal: &mut Journal,
) -> Result<(), AllocError>
    ensures does { OnOk result (Does (declarator_walked reach type_name part.now scopes.old) scopes.new journal.old journal.new) }
    ensures keeps { OnOk result (Keeps scopes.old scopes.new) }
{
    report_again(&part.name, scopes, journal);
    form(reach, type_name, &part.form, scopes, journal);
    scopes.declare(part.name.bytes.as_slice(), declared(type_name, &part.form))
}

/// Judges and declares variables, one after the other.
pub fn variables<'a>(
    reach: Reach,
    part: &'a Variables,
    scopes: &mut Scopes<'a>,
    journal: &mut Journal,
) -> Result<(), AllocError>
    ensures does { OnOk result (Does (variables_walked reach part.now scopes.old) scopes.new journal.old journal.new) }
    ensures keeps { OnOk result (Keeps scopes.old scopes.new) }
{
    for next in part.declarators.as_slice() {
        declarator(reach, part.type_name, next, scopes, journal)?;
    }
    Ok(())
}
