//! What a text declares outside its functions.

ghost use Rattle.std.specs.Prelude.{◌≡◌, [], ◌∷◌, IfOk, OnOk, IfSome};
ghost use Rattle.cl_model.specs.Numbers as numbers;
ghost use Rattle.cl_meaning.specs.Outer as outside;
ghost use Rattle.cl_meaning.specs.Variables.{in_scope, nowhere};

use crate::literal::{initial, natural, single, with_sign, zeros};
use crate::stop::Stop;
use cl_ast::{Declarator, Define, Expr, Form, Item, Size, TypeName, Variables};
use cl_state::{Globals, Variable, literal, number, zero_of};
use cl_value::Value;
use std::alloc::Global;

// The first value of the first variable of a name, as a number.
fn first_number(scope: &Globals<'_>, name: &[u8]) -> i64
    ensures { result ≡ numbers.number (outside.first_value (in_scope name.now scope.now nowhere).values) }
{
    match scope.find(name) {
        Some(variable) => match variable.values.first() {
            Some(value) => number(*value),
            None => 0,
        },
        None => 0,
    }
}

/// The length of an array, by the constants of a scope.
pub fn length_of(scope: &Globals<'_>, size: &Size) -> u64
    ensures { result ≡ outside.size_in scope.now size.now }
{
    match size {
        Size::Number(found) => natural(number(literal(found.value))),
        Size::Name(name) => natural(first_number(scope, name.bytes.as_slice())),
    }
}

// The number of an initial value: a literal or a constant, behind any number of minuses; none where it is no `long`.
fn initial_number(scope: &Globals<'_>, e: &Expr) -> Option<i64>
    ensures { IfSome result (λ n. n ≡ outside.initial_number scope.now e.now) }
{
    match e {
        Expr::Literal(found) => Some(number(literal(found.value))),
        Expr::Place(place) => Some(first_number(scope, place.name.bytes.as_slice())),
        Expr::Negate(prefix) => initial_number(scope, prefix.operand.get())?.checked_neg(),
        _ => Some(0),
    }
}

// The values that a global begins with.
fn form_values(
    alloc: Global,
    scope: &Globals<'_>,
    of: TypeName,
    form: &Form,
) -> Result<Vec<Value>, Stop>
    ensures { IfOk result (λ values. values.items ≡ outside.form_values scope.now of form.now) }
{
    match form {
        Form::Bare => single(alloc, zero_of(of)),
        Form::Array(size) => zeros(alloc, of, length_of(scope, size)),
        Form::Value(found) => match initial_number(scope, &found.expr) {
            Some(n) => match initial(of, n) {
                Some(value) => single(alloc, value),
                None => Err(Stop::NoMemory),
            },
            None => Err(Stop::NoMemory),
        },
    }
}

fn value_type(value: Value) -> TypeName
    ensures { result ≡ outside.value_type value }
{
    match value {
        Value::Long(_) => TypeName::Long,
        _ => TypeName::Int,
    }
}

fn add_constant<'a>(alloc: Global, scope: &mut Globals<'a>, define: &'a Define) -> Result<(), Stop>
    ensures { OnOk result (scope.new ≡ outside.outer_from scope.old (Item.Define define.now ∷ [])) }
{
    let Some(value) = with_sign(define.is_negative, literal(define.literal.value)) else {
        return Err(Stop::NoMemory);
    };
    let values = single(alloc, value)?;
    scope.add(Variable {
        name: define.name.bytes.as_slice(),
        of: value_type(value),
        values,
    })?;
    Ok(())
}

fn add_variable<'a>(
    alloc: Global,
    scope: &mut Globals<'a>,
    of: TypeName,
    declarator: &'a Declarator,
) -> Result<(), Stop>
    ensures { OnOk result (scope.new ≡ outside.with_globals scope.old of (declarator.now ∷ [])) }
{
    let values = form_values(alloc, scope, of, &declarator.form)?;
    scope.add(Variable {
        name: declarator.name.bytes.as_slice(),
        of,
        values,
    })?;
    Ok(())
}

fn add_variables<'a>(
    alloc: Global,
    scope: &mut Globals<'a>,
    of: TypeName,
    declarators: &'a [Declarator],
) -> Result<(), Stop>
    ensures { OnOk result (scope.new ≡ outside.with_globals scope.old of declarators.now) }
{
    for declarator in declarators {
        add_variable(alloc, scope, of, declarator)?;
    }
    Ok(())
}

fn add_item<'a>(alloc: Global, scope: &mut Globals<'a>, item: &'a Item) -> Result<(), Stop>
    ensures { OnOk result (scope.new ≡ outside.outer_from scope.old (item.now ∷ [])) }
{
    match item {
        Item::Define(define) => add_constant(alloc, scope, define),
        Item::Variables(variables) => add_variables(
            alloc,
            scope,
            variables.type_name,
            variables.declarators.as_slice(),
        ),
        Item::Function(_) => Ok(()),
    }
}

/// Constants and globals, in the order of the text.
pub fn outer<'a>(alloc: Global, items: &'a [Item]) -> Result<Globals<'a>, Stop>
    ensures { IfOk result (λ scope. scope ≡ outside.outer items.now) }
{
    let mut scope = Globals::new(alloc);
    for item in items {
        add_item(alloc, &mut scope, item)?;
    }
    Ok(scope)
}
