//! Statements.

ghost use Rattle.std.specs.Prelude.{◌≡◌, map, option_map};
ghost use Rattle.cl_model.specs.Doing.{each};
ghost use Rattle.cl_meaning.specs.Operations.{Does};
ghost use Rattle.cl_meaning.specs.Expressions.{value, place_meant};
ghost use Rattle.cl_meaning.specs.Statements as meaning;
ghost use Rattle.cl_meaning.specs.Statements.{does};
ghost use Rattle.cl_walk.specs.Around.{around, length_in};
ghost use Rattle.cl_walk.specs.Views.{exit_of};
ghost use Rattle.cl_walk.specs.Walks.{point, Comes, same};
ghost use Rattle.cl_walk.specs.Rules.{Turns};
ghost use Rattle.cl_meaning.specs.Parts.{new_value, if_exit, while_exit, while_turn, do_exit, do_turn, for_exit, for_turns, for_turn};

use crate::call::Exit;
use crate::context::{Context, deeper};
use crate::expression::{call, expression, operation, place};
use crate::fill::filled;
use crate::literal::{single, zeros};
use crate::state::State;
use crate::stop::Stop;
use crate::world::World;
use cl_ast::{
    Assign, Block, Change, Declarator, Do, Expr, For, Form, If, Operator, Print, Return, Spanned,
    Stmt, TypeName, While,
};
use cl_state::{Variable, converted, is_zero, operated, zero_of};
use cl_value::{Trap, Value};
use sqlite_items::Boxed;

/// Statements in order, in the scope that stands.
#[cycle(walk)]
pub fn in_order<'a, W: World>(
    on: &Context<'_, 'a>,
    world: &mut W,
    state: &mut State<'a>,
    nesting: u32,
    statements: &'a [Stmt],
) -> Result<Exit, Stop>
    ensures { Comes exit_of (meaning.in_order (map (does (around on.now) (length_in on.now)) statements.now)) (point state.old (W.said world.old)) result (point state.new (W.said world.new)) }
{
    for i in 0..statements.len() {
        match statement(on, world, state, nesting, &statements[i])? {
            Exit::WentOn => {}
            exit => return Ok(exit),
        }
    }
    Ok(Exit::WentOn)
}

// The statements of a block, in a scope of their own.
#[cycle(walk)]
fn scoped<'a, W: World>(
    on: &Context<'_, 'a>,
    world: &mut W,
    state: &mut State<'a>,
    nesting: u32,
    block: &'a Block,
) -> Result<Exit, Stop>
    ensures { Comes exit_of (does (around on.now) (length_in on.now) (Stmt.Block block.now)) (point state.old (W.said world.old)) result (point state.new (W.said world.new)) }
{
    state.enter(on.alloc)?;
    let exit = in_order(on, world, state, nesting, block.statements.as_slice())?;
    state.leave();
    Ok(exit)
}

/// A statement.
#[cycle(walk)]
pub fn statement<'a, W: World>(
    on: &Context<'_, 'a>,
    world: &mut W,
    state: &mut State<'a>,
    nesting: u32,
    s: &'a Stmt,
) -> Result<Exit, Stop>
    ensures { Comes exit_of (does (around on.now) (length_in on.now) s.now) (point state.old (W.said world.old)) result (point state.new (W.said world.new)) }
{
    let nesting = deeper(nesting)?;
    match s {
        Stmt::Block(found) => scoped(on, world, state, nesting, found),
        Stmt::Empty(_) => Ok(Exit::WentOn),
        Stmt::Variables(found) => declare_all(
            on,
            world,
            state,
            nesting,
            found.type_name,
            found.declarators.as_slice(),
        ),
        Stmt::Assign(found) => assign(on, world, state, nesting, found),
        Stmt::Call(found) => {
            call(on, world, state, nesting, found)?;
            Ok(Exit::WentOn)
        }
        Stmt::Operation(found) => {
            operation(on, world, state, nesting, found)?;
            Ok(Exit::WentOn)
        }
        Stmt::Print(found) => print(on, world, state, nesting, found),
        Stmt::If(found) => choose(on, world, state, nesting, found),
        Stmt::While(found) => while_loop(on, world, state, nesting, found),
        Stmt::Do(found) => do_loop(on, world, state, nesting, found),
        Stmt::For(found) => for_loop(on, world, state, nesting, found),
        Stmt::Break(_) => Ok(Exit::Broke),
        Stmt::Continue(_) => Ok(Exit::Continued),
        Stmt::Return(found) => leave(on, world, state, nesting, found),
    }
}

// A `return`, perhaps with a value.
#[cycle(walk)]
fn leave<'a, W: World>(
    on: &Context<'_, 'a>,
    world: &mut W,
    state: &mut State<'a>,
    nesting: u32,
    found: &'a Return,
) -> Result<Exit, Stop>
    ensures { Comes exit_of (meaning.returned (around on.now) (length_in on.now) found.now.value) (point state.old (W.said world.old)) result (point state.new (W.said world.new)) }
{
    match &found.value {
        Some(e) => {
            let value = expression(on, world, state, nesting, e)?;
            Ok(Exit::Returned(Some(value)))
        }
        None => Ok(Exit::Returned(None)),
    }
}

// A statement that may be left out.
#[cycle(walk)]
fn maybe<'a, W: World>(
    on: &Context<'_, 'a>,
    world: &mut W,
    state: &mut State<'a>,
    nesting: u32,
    found: &'a Option<Boxed<Stmt>>,
) -> Result<Exit, Stop>
    ensures { Comes exit_of (meaning.or_nothing (option_map (does (around on.now) (length_in on.now)) found.now)) (point state.old (W.said world.old)) result (point state.new (W.said world.new)) }
{
    match found {
        Some(s) => statement(on, world, state, nesting, s.get()),
        None => Ok(Exit::WentOn),
    }
}

#[cycle(walk)]
fn choose<'a, W: World>(
    on: &Context<'_, 'a>,
    world: &mut W,
    state: &mut State<'a>,
    nesting: u32,
    found: &'a If,
) -> Result<Exit, Stop>
    ensures { Comes exit_of (if_exit (around on.now) (length_in on.now) found.now) (point state.old (W.said world.old)) result (point state.new (W.said world.new)) }
{
    let value = expression(on, world, state, nesting, &found.test)?;
    if is_zero(value) {
        maybe(on, world, state, nesting, &found.no)
    } else {
        statement(on, world, state, nesting, found.yes.get())
    }
}

// Each turn of a loop takes a tick, so there are no more turns than ticks.
#[cycle(walk)]
fn while_loop<'a, W: World>(
    on: &Context<'_, 'a>,
    world: &mut W,
    state: &mut State<'a>,
    nesting: u32,
    found: &'a While,
) -> Result<Exit, Stop>
    ensures { Comes exit_of (while_exit (around on.now) (length_in on.now) found.now) (point state.old (W.said world.old)) result (point state.new (W.said world.new)) }
{
    let most = state.ticks();
    for _ in 0..most {
        if let Some(exit) = while_turn(on, world, state, nesting, found)? {
            return Ok(exit);
        }
    }
    match while_turn(on, world, state, nesting, found)? {
        Some(exit) => Ok(exit),
        None => Err(Stop::Trapped(Trap::StepLimit)),
    }
}

#[cycle(walk)]
fn while_turn<'a, W: World>(
    on: &Context<'_, 'a>,
    world: &mut W,
    state: &mut State<'a>,
    nesting: u32,
    found: &'a While,
) -> Result<Option<Exit>, Stop>
    ensures { (again : Does meaning.Exit) → Turns (while_turn (around on.now) (length_in on.now) found.now again) again (point state.old (W.said world.old)) result (point state.new (W.said world.new)) }
{
    let value = expression(on, world, state, nesting, &found.test)?;
    if is_zero(value) {
        return Ok(Some(Exit::WentOn));
    }
    state.tick()?;
    let exit = statement(on, world, state, nesting, found.body.get())?;
    Ok(exit.behind_body())
}

#[cycle(walk)]
fn do_loop<'a, W: World>(
    on: &Context<'_, 'a>,
    world: &mut W,
    state: &mut State<'a>,
    nesting: u32,
    found: &'a Do,
) -> Result<Exit, Stop>
    ensures { Comes exit_of (do_exit (around on.now) (length_in on.now) found.now) (point state.old (W.said world.old)) result (point state.new (W.said world.new)) }
{
    let most = state.ticks();
    for _ in 0..most {
        if let Some(exit) = do_turn(on, world, state, nesting, found)? {
            return Ok(exit);
        }
    }
    match do_turn(on, world, state, nesting, found)? {
        Some(exit) => Ok(exit),
        None => Err(Stop::Trapped(Trap::StepLimit)),
    }
}

#[cycle(walk)]
fn do_turn<'a, W: World>(
    on: &Context<'_, 'a>,
    world: &mut W,
    state: &mut State<'a>,
    nesting: u32,
    found: &'a Do,
) -> Result<Option<Exit>, Stop>
    ensures { (again : Does meaning.Exit) → Turns (do_turn (around on.now) (length_in on.now) found.now again) again (point state.old (W.said world.old)) result (point state.new (W.said world.new)) }
{
    state.tick()?;
    let exit = statement(on, world, state, nesting, found.body.get())?;
    if let Some(exit) = exit.behind_body() {
        return Ok(Some(exit));
    }
    let value = expression(on, world, state, nesting, &found.test)?;
    if is_zero(value) {
        Ok(Some(Exit::WentOn))
    } else {
        Ok(None)
    }
}

#[cycle(walk)]
fn for_loop<'a, W: World>(
    on: &Context<'_, 'a>,
    world: &mut W,
    state: &mut State<'a>,
    nesting: u32,
    found: &'a For,
) -> Result<Exit, Stop>
    ensures { Comes exit_of (for_exit (around on.now) (length_in on.now) found.now) (point state.old (W.said world.old)) result (point state.new (W.said world.new)) }
{
    maybe(on, world, state, nesting, &found.first)?;
    for_turns(on, world, state, nesting, found)
}

#[cycle(walk)]
fn for_turns<'a, W: World>(
    on: &Context<'_, 'a>,
    world: &mut W,
    state: &mut State<'a>,
    nesting: u32,
    found: &'a For,
) -> Result<Exit, Stop>
    ensures { Comes exit_of (for_turns (around on.now) (length_in on.now) found.now) (point state.old (W.said world.old)) result (point state.new (W.said world.new)) }
{
    let most = state.ticks();
    for _ in 0..most {
        if let Some(exit) = for_turn(on, world, state, nesting, found)? {
            return Ok(exit);
        }
    }
    match for_turn(on, world, state, nesting, found)? {
        Some(exit) => Ok(exit),
        None => Err(Stop::Trapped(Trap::StepLimit)),
    }
}

#[cycle(walk)]
fn for_turn<'a, W: World>(
    on: &Context<'_, 'a>,
    world: &mut W,
    state: &mut State<'a>,
    nesting: u32,
    found: &'a For,
) -> Result<Option<Exit>, Stop>
    ensures { (again : Does meaning.Exit) → Turns (for_turn (around on.now) (length_in on.now) found.now again) again (point state.old (W.said world.old)) result (point state.new (W.said world.new)) }
{
    let value = test(on, world, state, nesting, &found.test)?;
    if is_zero(value) {
        return Ok(Some(Exit::WentOn));
    }
    state.tick()?;
    let exit = statement(on, world, state, nesting, found.body.get())?;
    if let Some(exit) = exit.behind_body() {
        return Ok(Some(exit));
    }
    maybe(on, world, state, nesting, &found.step)?;
    Ok(None)
}

// A condition that may be left out: then it holds.
#[cycle(walk)]
fn test<'a, W: World>(
    on: &Context<'_, 'a>,
    world: &mut W,
    state: &mut State<'a>,
    nesting: u32,
    found: &'a Option<Expr>,
) -> Result<Value, Stop>
    ensures { Comes same (meaning.or_true (around on.now) (length_in on.now) found.now) (point state.old (W.said world.old)) result (point state.new (W.said world.new)) }
{
    match found {
        Some(e) => expression(on, world, state, nesting, e),
        None => Ok(Value::Int(1)),
    }
}

#[cycle(walk)]
fn declare_all<'a, W: World>(
    on: &Context<'_, 'a>,
    world: &mut W,
    state: &mut State<'a>,
    nesting: u32,
    of: TypeName,
    all: &'a [Declarator],
) -> Result<Exit, Stop>
    ensures { Comes exit_of (meaning.in_order (map (meaning.declarator_does (around on.now) (length_in on.now) of) all.now)) (point state.old (W.said world.old)) result (point state.new (W.said world.new)) }
{
    for i in 0..all.len() {
        declare(on, world, state, nesting, of, &all[i])?;
    }
    Ok(Exit::WentOn)
}

#[cycle(walk)]
fn declare<'a, W: World>(
    on: &Context<'_, 'a>,
    world: &mut W,
    state: &mut State<'a>,
    nesting: u32,
    of: TypeName,
    found: &'a Declarator,
) -> Result<(), Stop>
    ensures { Comes (λ _. meaning.WentOn) (meaning.declarator_does (around on.now) (length_in on.now) of found.now) (point state.old (W.said world.old)) result (point state.new (W.said world.new)) }
{
    let values = match &found.form {
        Form::Bare => single(on.alloc, zero_of(of))?,
        Form::Array(size) => zeros(on.alloc, of, on.program.length_of(size))?,
        Form::Value(initial) => {
            let value = expression(on, world, state, nesting, &initial.expr)?;
            single(on.alloc, converted(of, value)?)?
        }
    };
    state.declare(Variable {
        name: found.name.bytes.as_slice(),
        of,
        values,
    })
}

#[cycle(walk)]
fn assign<'a, W: World>(
    on: &Context<'_, 'a>,
    world: &mut W,
    state: &mut State<'a>,
    nesting: u32,
    found: &'a Assign,
) -> Result<Exit, Stop>
    ensures { Comes exit_of (meaning.change_does (around on.now) (length_in on.now) (place_meant (around on.now) found.now.place) found.now.change) (point state.old (W.said world.old)) result (point state.new (W.said world.new)) }
{
    let at = place(on, world, state, nesting, &found.place)?;
    let name = found.place.name.bytes.as_slice();
    let value = match &found.change {
        Change::Set(e) => expression(on, world, state, nesting, e)?,
        Change::Add(e) => updated(on, world, state, nesting, name, at, Operator::Add, e)?,
        Change::Subtract(e) => updated(on, world, state, nesting, name, at, Operator::Subtract, e)?,
        Change::Multiply(e) => updated(on, world, state, nesting, name, at, Operator::Multiply, e)?,
        Change::Increment => operated(Operator::Add, state.value_at(name, at), Value::Int(1))?,
        Change::Decrement => operated(Operator::Subtract, state.value_at(name, at), Value::Int(1))?,
    };
    state.store(name, at, value)?;
    Ok(Exit::WentOn)
}

// The old value is read before the right side is evaluated.
#[cycle(walk)]
fn updated<'a, W: World>(
    on: &Context<'_, 'a>,
    world: &mut W,
    state: &mut State<'a>,
    nesting: u32,
    name: &[u8],
    at: usize,
    operator: Operator,
    right: &'a Expr,
) -> Result<Value, Stop>
    ensures { Comes same (new_value (around on.now) name.now at operator (value (around on.now) right.now)) (point state.old (W.said world.old)) result (point state.new (W.said world.new)) }
{
    let old = state.value_at(name, at);
    let value = expression(on, world, state, nesting, right)?;
    Ok(operated(operator, old, value)?)
}

#[cycle(walk)]
fn print<'a, W: World>(
    on: &Context<'_, 'a>,
    world: &mut W,
    state: &mut State<'a>,
    nesting: u32,
    found: &'a Print,
) -> Result<Exit, Stop>
    ensures { Comes exit_of (meaning.print_does (around on.now) (length_in on.now) found.now) (point state.old (W.said world.old)) result (point state.new (W.said world.new)) }
{
    let values = printed(on, world, state, nesting, found.arguments.as_slice())?;
    let bytes = filled(on.alloc, found.format.bytes.as_slice(), values.as_slice())?;
    state.print(bytes.as_slice())?;
    Ok(Exit::WentOn)
}

#[cycle(walk)]
fn printed<'a, W: World>(
    on: &Context<'_, 'a>,
    world: &mut W,
    state: &mut State<'a>,
    nesting: u32,
    all: &'a [Spanned],
) -> Result<Vec<Value>, Stop>
    ensures { Comes (λ values. values.items) (each (map (λ x. value (around on.now) x.expr) all.now)) (point state.old (W.said world.old)) result (point state.new (W.said world.new)) }
{
    let mut values = Vec::new(on.alloc);
    for i in 0..all.len() {
        let value = expression(on, world, state, nesting, &all[i].expr)?;
        values.reserve(1)?;
        values.push_reserved(value);
    }
    Ok(values)
}
