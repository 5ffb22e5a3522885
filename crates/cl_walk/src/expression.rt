//! Expressions, and calls of functions.

ghost use Rattle.std.specs.Prelude.{◌≡◌, ◌∷◌, [], map, Some, MatchResult};
ghost use Rattle.cl_value.specs.LiveViews.{plain_part};
ghost use Rattle.cl_model.specs.Doing.{each, through, checked};
ghost use Rattle.cl_meaning.specs.Outer.{frame_cells, functions_of};
ghost use Rattle.cl_meaning.specs.Expressions as meaning;
ghost use Rattle.cl_meaning.specs.Expressions.{value, place_meant, value_of};
ghost use Rattle.cl_meaning.specs.Operations as operations;
ghost use Rattle.cl_meaning.specs.Calls as calls;
ghost use Rattle.cl_listing.specs.Names.{Name};
ghost use Rattle.cl_walk.specs.Around.{around, calls_in, fixed_in, length_in};
ghost use Rattle.cl_walk.specs.Numbers.{capped, first_named};
ghost use Rattle.cl_walk.specs.Views.{aims_of, aim_of, scope_in};
ghost use Rattle.cl_walk.specs.Walks.{Point, point, Comes, same};
ghost use Rattle.cl_meaning.specs.Parts.{chain_value, link_value, field_aim, field_part, call_part};

use crate::call::{given_back, gives, live_arguments, parameters};
use crate::context::{Context, deeper};
use crate::field::{Aim, request, spawn};
use crate::program::Callable;
use crate::state::State;
use crate::statement::in_order;
use crate::stop::Stop;
use crate::world::World;
use cl_ast::{
    Call, Chain, Expr, Field, Formal, Function, Link, Operation, Operator, Place, Text, Verb,
};
use cl_ground::Items;
use cl_state::{Locals, is_zero, literal, negated, number, operated, truth};
use cl_value::{FieldType, LiveField, Trap, Value};

// An index, where the array is so long.
fn index_of(n: i64, length: usize) -> Result<usize, Stop>
    ensures { (p : Point) → Comes same (checked (operations.index_of n length)) p result p }
{
    match usize::try_from(n) {
        Ok(n) if n < length => Ok(n),
        _ => Err(Stop::Trapped(Trap::IndexRange)),
    }
}

/// The value of an expression.
#[cycle(walk)]
pub fn expression<'a, W: World>(
    on: &Context<'_, 'a>,
    world: &mut W,
    state: &mut State<'a>,
    nesting: u32,
    e: &'a Expr,
) -> Result<Value, Stop>
    ensures { Comes same (value (around on.now) e.now) (point state.old (W.said world.old)) result (point state.new (W.said world.new)) }
{
    let nesting = deeper(nesting)?;
    match e {
        Expr::Literal(found) => Ok(literal(found.value)),
        Expr::Place(found) => {
            let at = place(on, world, state, nesting, found)?;
            Ok(state.value_at(found.name.bytes.as_slice(), at))
        }
        Expr::Call(found) => call(on, world, state, nesting, found),
        Expr::Operation(found) => operation(on, world, state, nesting, found),
        Expr::Chain(found) => chain(on, world, state, nesting, found),
        Expr::Negate(found) => {
            let value = expression(on, world, state, nesting, found.operand.get())?;
            Ok(negated(value)?)
        }
        Expr::Not(found) => {
            let value = expression(on, world, state, nesting, found.operand.get())?;
            Ok(truth(is_zero(value)))
        }
    }
}

/// A place in a variable: 0, or the index, which is tested at once.
#[cycle(walk)]
pub fn place<'a, W: World>(
    on: &Context<'_, 'a>,
    world: &mut W,
    state: &mut State<'a>,
    nesting: u32,
    found: &'a Place,
) -> Result<usize, Stop>
    ensures { Comes same (place_meant (around on.now) found.now).at (point state.old (W.said world.old)) result (point state.new (W.said world.new)) }
{
    match &found.index {
        None => Ok(0),
        Some(index) => {
            let value = expression(on, world, state, nesting, index.get())?;
            index_of(number(value), state.length(found.name.bytes.as_slice()))
        }
    }
}

// The values of arguments, from left to right.
#[cycle(walk)]
fn arguments<'a, W: World>(
    on: &Context<'_, 'a>,
    world: &mut W,
    state: &mut State<'a>,
    nesting: u32,
    all: &'a [Expr],
) -> Result<Vec<Value>, Stop>
    ensures { Comes (λ values. values.items) (each (map (value (around on.now)) all.now)) (point state.old (W.said world.old)) result (point state.new (W.said world.new)) }
{
    let mut values = Vec::new(on.alloc);
    for i in 0..all.len() {
        let value = expression(on, world, state, nesting, &all[i])?;
        values.reserve(1)?;
        values.push_reserved(value);
    }
    Ok(values)
}

/// A call, whose arguments are evaluated first.
#[cycle(walk)]
pub fn call<'a, W: World>(
    on: &Context<'_, 'a>,
    world: &mut W,
    state: &mut State<'a>,
    nesting: u32,
    found: &'a Call,
) -> Result<Value, Stop>
    ensures { Comes same (meaning.call (around on.now) found.now) (point state.old (W.said world.old)) result (point state.new (W.said world.new)) }
{
    let values = arguments(on, world, state, nesting, found.arguments.as_slice())?;
    enter(
        on,
        world,
        state,
        nesting,
        found.name.bytes.as_slice(),
        values.as_slice(),
    )
}

/// A call of the function of a name with these arguments.
#[cycle(walk)]
pub fn enter<'a, W: World>(
    on: &Context<'_, 'a>,
    world: &mut W,
    state: &mut State<'a>,
    nesting: u32,
    name: &[u8],
    values: &[Value],
) -> Result<Value, Stop>
    ensures { Comes same (calls_in on.now name.now values.now) (point state.old (W.said world.old)) result (point state.new (W.said world.new)) }
{
    let program = on.program;
    match program.named(name) {
        Some(callable) => {
            let given = parameters(on.alloc, callable.function, values)?;
            state.tick()?;
            if on.calls == 0 {
                return Err(Stop::Trapped(Trap::CallDepth));
            }
            run(&on.called(), world, state, nesting, callable, given)
        }
        None => Ok(Value::Int(0)),
    }
}

/// A function with these parameters, in a frame of its own.
#[cycle(walk)]
pub fn run<'a, W: World>(
    on: &Context<'_, 'a>,
    world: &mut W,
    state: &mut State<'a>,
    nesting: u32,
    callable: &Callable<'a>,
    given: Locals<'a>,
) -> Result<Value, Stop>
    requires named { (name : Name) × (first_named name (functions_of on.now.program.now.items) ≡ Some callable.now.function.now) }
    requires cells { callable.now.cells ≡ capped (frame_cells (length_in on.now) callable.now.function.now) }
    requires given { given ≡ scope_in given ∷ [] }
    ensures { Comes same (calls.run (fixed_in on.now) (calls_in on.now) callable.now.function.now (scope_in given.entry)) (point state.old (W.said world.old)) result (point state.new (W.said world.new)) }
{
    state.claim(callable.cells)?;
    let value = body(on, world, state, nesting, callable.function, given)?;
    state.release(callable.cells);
    Ok(value)
}

// The statements of a function, with its own locals alone.
#[cycle(walk)]
fn body<'a, W: World>(
    on: &Context<'_, 'a>,
    world: &mut W,
    state: &mut State<'a>,
    nesting: u32,
    function: &'a Function,
    given: Locals<'a>,
) -> Result<Value, Stop>
    requires named { (name : Name) × (first_named name (functions_of on.now.program.now.items) ≡ Some function.now) }
    requires given { given ≡ scope_in given ∷ [] }
    ensures { Comes same (calls.body (fixed_in on.now) (calls_in on.now) function.now (scope_in given.entry)) (point state.old (W.said world.old)) result (point state.new (W.said world.new)) }
{
    let outer = state.with_locals(given);
    let exit = in_order(
        on,
        world,
        state,
        nesting,
        function.body.statements.as_slice(),
    )?;
    state.with_locals(outer);
    given_back(function, exit)
}

#[cycle(walk)]
fn chain<'a, W: World>(
    on: &Context<'_, 'a>,
    world: &mut W,
    state: &mut State<'a>,
    nesting: u32,
    found: &'a Chain,
) -> Result<Value, Stop>
    ensures { Comes same (chain_value (around on.now) found.now) (point state.old (W.said world.old)) result (point state.new (W.said world.new)) }
{
    let first = expression(on, world, state, nesting, found.first.get())?;
    links(on, world, state, nesting, found.others.as_slice(), first)
}

#[cycle(walk)]
fn links<'a, W: World>(
    on: &Context<'_, 'a>,
    world: &mut W,
    state: &mut State<'a>,
    nesting: u32,
    all: &'a [Link],
    first: Value,
) -> Result<Value, Stop>
    ensures { Comes same (through (map (link_value (around on.now)) all.now) first) (point state.old (W.said world.old)) result (point state.new (W.said world.new)) }
{
    let mut value = first;
    for i in 0..all.len() {
        value = link(on, world, state, nesting, &all[i], value)?;
    }
    Ok(value)
}

// An operator and its right operand, behind the value on the left; `&&` and `||` stop where that decides.
#[cycle(walk)]
fn link<'a, W: World>(
    on: &Context<'_, 'a>,
    world: &mut W,
    state: &mut State<'a>,
    nesting: u32,
    found: &'a Link,
    before: Value,
) -> Result<Value, Stop>
    ensures { Comes same (link_value (around on.now) found.now before) (point state.old (W.said world.old)) result (point state.new (W.said world.new)) }
{
    match found.operator {
        Operator::And if is_zero(before) => Ok(truth(false)),
        Operator::Or if !is_zero(before) => Ok(truth(true)),
        Operator::And | Operator::Or => {
            let right = expression(on, world, state, nesting, &found.operand)?;
            Ok(truth(!is_zero(right)))
        }
        operator => {
            let right = expression(on, world, state, nesting, &found.operand)?;
            Ok(operated(operator, before, right)?)
        }
    }
}

/// A tuple operation: its fields from left to right, then the request.
#[cycle(walk)]
pub fn operation<'a, W: World>(
    on: &Context<'_, 'a>,
    world: &mut W,
    state: &mut State<'a>,
    nesting: u32,
    found: &'a Operation,
) -> Result<Value, Stop>
    ensures { Comes same (meaning.operation (around on.now) found.now) (point state.old (W.said world.old)) result (point state.new (W.said world.new)) }
{
    let Some(site) = on.program.site_at(found.span.start) else {
        return Err(Stop::NoMemory);
    };
    let fields = found.fields.as_slice();
    match found.verb {
        Verb::Eval => {
            let parts = parts(on, world, state, nesting, fields)?;
            spawn(world, state, on.depth, site, parts)
        }
        verb => {
            let aims = aims(on, world, state, nesting, fields)?;
            request(on.alloc, world, state, site, verb, aims.as_slice())
        }
    }
}

// The fields of an operation other than `eval`.
#[cycle(walk)]
fn aims<'a, W: World>(
    on: &Context<'_, 'a>,
    world: &mut W,
    state: &mut State<'a>,
    nesting: u32,
    fields: &'a [Field],
) -> Result<Vec<Aim<'a>>, Stop>
    ensures { Comes (λ all. aims_of all.items) (each (map (field_aim (around on.now)) fields.now)) (point state.old (W.said world.old)) result (point state.new (W.said world.new)) }
{
    let mut all = Vec::new(on.alloc);
    for i in 0..fields.len() {
        let aim = aim(on, world, state, nesting, &fields[i])?;
        all.reserve(1)?;
        all.push_reserved(aim);
    }
    Ok(all)
}

#[cycle(walk)]
fn aim<'a, W: World>(
    on: &Context<'_, 'a>,
    world: &mut W,
    state: &mut State<'a>,
    nesting: u32,
    field: &'a Field,
) -> Result<Aim<'a>, Stop>
    ensures { Comes aim_of (field_aim (around on.now) field.now) (point state.old (W.said world.old)) result (point state.new (W.said world.new)) }
{
    match field {
        Field::Text(found) => Ok(Aim::Holds(text(on, found)?)),
        Field::Plain(e) => Ok(Aim::Holds(expression(on, world, state, nesting, e)?)),
        Field::Formal(found) => formal(on, world, state, nesting, found),
    }
}

fn text(on: &Context<'_, '_>, found: &Text) -> Result<Value, Stop>
    ensures { MatchResult result (λ v. v ≡ Value.Text ((fixed_in on.now).text found.now.bytes)) (λ stop. stop ≡ Stop.NoMemory) }
{
    match on.program.text_number(found.bytes.as_slice()) {
        Some(number) => Ok(Value::Text(number)),
        None => Err(Stop::NoMemory),
    }
}

// A formal: its place is found in its turn.
#[cycle(walk)]
fn formal<'a, W: World>(
    on: &Context<'_, 'a>,
    world: &mut W,
    state: &mut State<'a>,
    nesting: u32,
    found: &'a Formal,
) -> Result<Aim<'a>, Stop>
    ensures { Comes aim_of (field_aim (around on.now) (Field.Formal found.now)) (point state.old (W.said world.old)) result (point state.new (W.said world.new)) }
{
    let name = found.target.name.bytes.as_slice();
    let at = place(on, world, state, nesting, &found.target)?;
    Ok(Aim::Fills {
        of: state.type_of(name),
        name,
        at,
    })
}

// The fields of an `eval`.
#[cycle(walk)]
fn parts<'a, W: World>(
    on: &Context<'_, 'a>,
    world: &mut W,
    state: &mut State<'a>,
    nesting: u32,
    fields: &'a [Field],
) -> Result<Items<LiveField>, Stop>
    ensures { Comes (λ all. map plain_part all.items) (each (map (field_part (around on.now)) fields.now)) (point state.old (W.said world.old)) result (point state.new (W.said world.new)) }
{
    let mut all = Items::new(on.alloc);
    for i in 0..fields.len() {
        let part = part(on, world, state, nesting, &fields[i])?;
        all.reserve(1)?;
        all.push(part);
    }
    Ok(all)
}

#[cycle(walk)]
fn part<'a, W: World>(
    on: &Context<'_, 'a>,
    world: &mut W,
    state: &mut State<'a>,
    nesting: u32,
    field: &'a Field,
) -> Result<LiveField, Stop>
    ensures { Comes plain_part (field_part (around on.now) field.now) (point state.old (W.said world.old)) result (point state.new (W.said world.new)) }
{
    match field {
        Field::Text(found) => Ok(LiveField::Ready(text(on, found)?)),
        Field::Plain(e) => plain_field(on, world, state, nesting, e),
        Field::Formal(found) => {
            formal(on, world, state, nesting, found)?;
            Ok(LiveField::Ready(Value::Text(0)))
        }
    }
}

// A call is left to the new process, all else is evaluated here.
#[cycle(walk)]
fn plain_field<'a, W: World>(
    on: &Context<'_, 'a>,
    world: &mut W,
    state: &mut State<'a>,
    nesting: u32,
    e: &'a Expr,
) -> Result<LiveField, Stop>
    ensures { Comes plain_part (field_part (around on.now) (Field.Plain e.now)) (point state.old (W.said world.old)) result (point state.new (W.said world.new)) }
{
    match e {
        Expr::Call(found) => live_call(on, world, state, nesting, found),
        _ => Ok(LiveField::Ready(expression(on, world, state, nesting, e)?)),
    }
}

// A call that is left to the new process: its arguments are evaluated and converted here.
#[cycle(walk)]
fn live_call<'a, W: World>(
    on: &Context<'_, 'a>,
    world: &mut W,
    state: &mut State<'a>,
    nesting: u32,
    found: &'a Call,
) -> Result<LiveField, Stop>
    ensures { Comes plain_part (call_part (around on.now) found.now) (point state.old (W.said world.old)) result (point state.new (W.said world.new)) }
{
    let values = arguments(on, world, state, nesting, found.arguments.as_slice())?;
    let program = on.program;
    match program.named(found.name.bytes.as_slice()) {
        Some(callable) => {
            let arguments = live_arguments(on.alloc, callable.function, values.as_slice())?;
            Ok(LiveField::Call {
                function: callable.number,
                arguments,
                gives: gives(callable.function),
            })
        }
        None => Ok(LiveField::Call {
            function: 0,
            arguments: Items::new(on.alloc),
            gives: FieldType::Int,
        }),
    }
}
