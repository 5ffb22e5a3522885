//! Arguments, results, and how statements leave off.

ghost use Rattle.std.specs.Prelude.{◌≡◌, [], ◌∷◌, IfOk, MatchResult};
ghost use Rattle.cl_walk.specs.Rules.{left_or};
ghost use Rattle.cl_meaning.specs.Operators as operators;
ghost use Rattle.cl_meaning.specs.Calls as calls;
ghost use Rattle.cl_meaning.specs.Calls.{result_type};
ghost use Rattle.cl_meaning.specs.Operations.{Does};
ghost use Rattle.cl_meaning.specs.Variables.{declared_in};
ghost use Rattle.cl_meaning.specs.Statements as meaning;
ghost use Rattle.cl_walk.specs.Views.{exit_of, scope_in};
ghost use Rattle.cl_walk.specs.Walks.{Point, Comes, same};

use crate::literal::{field_type, single};
use crate::stop::Stop;
use cl_ast::{Function, Parameter, TypeName};
use cl_ground::Items;
use cl_state::{Locals, Variable, converted, zero_of};
use cl_value::{FieldType, Value};
use std::alloc::Global;

/// How a statement leaves off.
#[derive(Clone, Copy, Debug)]
pub enum Exit {
    /// It goes on.
    WentOn,
    /// It leaves a loop.
    Broke,
    /// It goes to the next turn of a loop.
    Continued,
    /// It leaves the function, perhaps with a value.
    Returned(Option<Value>),
}

impl Exit {
    /// How a loop leaves off behind its body; none where it goes on.
    pub fn behind_body(self) -> Option<Exit>
        ensures { (next : Does meaning.Exit) → meaning.behind_body (exit_of self) next ≡ left_or next result }
    {
        match self {
            Exit::Broke => Some(Exit::WentOn),
            Exit::Returned(value) => Some(Exit::Returned(value)),
            Exit::WentOn | Exit::Continued => None,
        }
    }
}

// Puts a parameter with its value into the innermost scope.
fn add_parameter<'a>(
    alloc: Global,
    locals: &mut Locals<'a>,
    parameter: &'a Parameter,
    value: Value,
) -> Result<(), Stop>
    ensures { MatchResult result (λ _. locals.new ≡ declared_in (record { name = parameter.now.name.bytes; of = parameter.now.type_name; values = value ∷ [] }) locals.old) (λ stop. stop ≡ Stop.NoMemory) }
{
    let values = single(alloc, value)?;
    locals.declare(Variable {
        name: parameter.name.bytes.as_slice(),
        of: parameter.type_name,
        values,
    })?;
    Ok(())
}

/// The parameters of a function with these arguments, as its outermost scope.
pub fn parameters<'a>(
    alloc: Global,
    function: &'a Function,
    values: &[Value],
) -> Result<Locals<'a>, Stop>
    ensures comes { (p : Point) → Comes scope_in (calls.parameters function.now.parameters values.now) p result p }
    ensures one { IfOk result (λ given. given ≡ scope_in given ∷ []) }
{
    let mut locals = Locals::new(alloc);
    locals.enter(alloc)?;
    let all = function.parameters.as_slice();
    for i in 0..all.len() {
        if i < values.len() {
            let parameter = &all[i];
            let value = converted(parameter.type_name, values[i])?;
            add_parameter(alloc, &mut locals, parameter, value)?;
        }
    }
    Ok(locals)
}

/// The arguments of a call that is left to a new process.
pub fn live_arguments(
    alloc: Global,
    function: &Function,
    values: &[Value],
) -> Result<Items<Value>, Stop>
    ensures { (p : Point) → Comes (λ all. all.items) (calls.arguments function.now.parameters values.now) p result p }
{
    let mut all = Items::new(alloc);
    let parameters = function.parameters.as_slice();
    for i in 0..parameters.len() {
        if i < values.len() {
            let value = converted(parameters[i].type_name, values[i])?;
            all.reserve(1)?;
            all.push(value);
        }
    }
    Ok(all)
}

// The type of what a function gives.
fn type_given(function: &Function) -> TypeName
    ensures { result ≡ result_type function.now }
{
    match function.result {
        Some(of) => of,
        None => TypeName::Int,
    }
}

/// The type of a field that a call is left to.
pub fn gives(function: &Function) -> FieldType
    ensures { result ≡ operators.field_type (result_type function.now) }
{
    field_type(type_given(function))
}

/// What a call gives, where its statements left off so; without a value, 0.
pub fn given_back(function: &Function, exit: Exit) -> Result<Value, Stop>
    ensures { (p : Point) → Comes same (calls.result (result_type function.now) (exit_of exit)) p result p }
{
    let of = type_given(function);
    match exit {
        Exit::Returned(given) => match given {
            Some(value) => Ok(converted(of, value)?),
            None => Ok(zero_of(of)),
        },
        Exit::WentOn | Exit::Broke | Exit::Continued => Ok(zero_of(of)),
    }
}
