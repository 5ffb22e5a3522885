ghost use Rattle.std.specs.Prelude.{◌≡◌, ◌-◌, map, IfOk};
ghost use Rattle.cl_ground.specs.declared.limits.TheConstants.{MOST_ACTIVE};
ghost use Rattle.cl_value.specs.Views.{plain_start};
ghost use Rattle.cl_value.specs.LiveViews.{plain_part, plain_live};
ghost use Rattle.cl_listing.specs.Listing.{in_items};
ghost use Rattle.cl_listing.specs.Listed.{listing_of};
ghost use Rattle.cl_meaning.specs.Process as meaning;
ghost use Rattle.cl_meaning.specs.Process.{main, part_does, parts_do, process, demands};
ghost use Rattle.cl_walk.specs.Walks.{point, Comes, same};
ghost use Rattle.cl_walk.specs.Walked.{IsWalk};
ghost use Rattle.cl_walk.specs.Endings.{outcome_of, IsEnding};

use crate::context::{Context, MAX_NESTING};
use crate::expression::{enter, run};
use crate::outer::outer;
use crate::program::Program;
use crate::state::State;
use crate::stop::Stop;
use crate::world::World;
use cl_ast::Unit;
use cl_ground::{Items, MOST_ACTIVE, MOST_FIELDS, NoMemory};
use cl_listing::Listing;
use cl_state::Locals;
use cl_value::{Live, LiveField, Start, Trap, Tuple, Value};
use std::alloc::Global;

/// How a walk ended.
#[derive(Drop)]
pub enum Ending {
    /// The process finished with these values.
    Finished(Tuple),
    /// It can't go on.
    Trapped(Trap),
    /// The world paused it before an operation.
    Paused,
}

/// What a process came to.
#[derive(Drop)]
pub struct Walked {
    /// The bytes that it printed.
    pub output: Items<u8>,
    /// How it ended.
    pub ending: Ending,
}

fn main_process<'a, W: World>(
    on: &Context<'_, 'a>,
    world: &mut W,
    state: &mut State<'a>,
) -> Result<Tuple, Stop>
    requires depth { on.now.depth ≡ 0 }
    requires calls { on.now.calls ≡ MOST_ACTIVE - 1 }
    ensures { Comes (λ values. values.items) (main on.now.program.now.items) (point state.old (W.said world.old)) result (point state.new (W.said world.new)) }
{
    state.claim(on.program.cells())?;
    let mut given = Locals::new(on.alloc);
    given.enter(on.alloc)?;
    let program = on.program;
    let value = match program.named(b"real_main") {
        Some(callable) => run(on, world, state, MAX_NESTING, callable, given)?,
        None => Value::Int(0),
    };
    let mut values = Items::new(on.alloc);
    values.reserve(1)?;
    values.push(value);
    Ok(Tuple::new(values))
}

fn part<'a, W: World>(
    on: &Context<'_, 'a>,
    world: &mut W,
    state: &mut State<'a>,
    field: &LiveField,
) -> Result<Value, Stop>
    requires { on.now.calls ≡ MOST_ACTIVE }
    ensures { Comes same (part_does on.now.program.now.items on.now.depth (plain_part field.now)) (point state.old (W.said world.old)) result (point state.new (W.said world.new)) }
{
    match field {
        LiveField::Ready(value) => Ok(*value),
        LiveField::Call {
            function,
            arguments,
            gives: _,
        } => match on.program.function(*function) {
            Some(found) => enter(
                on,
                world,
                state,
                MAX_NESTING,
                found.name.bytes.as_slice(),
                arguments.as_slice(),
            ),
            None => Ok(Value::Int(0)),
        },
    }
}

fn live_process<'a, W: World>(
    on: &Context<'_, 'a>,
    world: &mut W,
    state: &mut State<'a>,
    live: &Live,
) -> Result<Tuple, Stop>
    requires { on.now.calls ≡ MOST_ACTIVE }
    ensures { Comes (λ values. values.items) (meaning.live on.now.program.now.items on.now.depth (plain_live live.now)) (point state.old (W.said world.old)) result (point state.new (W.said world.new)) }
{
    state.claim(on.program.cells())?;
    let values = parts(on, world, state, live.fields())?;
    if values.len() == 0 || values.len() > MOST_FIELDS {
        return Err(Stop::NoMemory);
    }
    Ok(Tuple::new(values))
}

fn parts<'a, W: World>(
    on: &Context<'_, 'a>,
    world: &mut W,
    state: &mut State<'a>,
    fields: &[LiveField],
) -> Result<Items<Value>, Stop>
    requires { on.now.calls ≡ MOST_ACTIVE }
    ensures { Comes (λ values. values.items) (parts_do on.now.program.now.items on.now.depth (map plain_part fields.now)) (point state.old (W.said world.old)) result (point state.new (W.said world.new)) }
{
    let mut values = Items::new(on.alloc);
    for i in 0..fields.len() {
        let value = part(on, world, state, &fields[i])?;
        values.reserve(1)?;
        values.push(value);
    }
    Ok(values)
}

/// Walks a process of a tree, whose listing is handed in, to its end, or to where the world pauses it: it may take so many ticks. `NoMemory` comes
/// where the allocator refused memory; then nothing is known of what the world was asked.
pub fn walk<'a, W: World>(
    alloc: Global,
    unit: &'a Unit,
    listing: &'a Listing<'a>,
    start: &Start,
    ticks: u64,
    world: &mut W,
) -> Result<Walked, NoMemory>
    requires { listing.now ≡ listing_of (in_items unit.now.items) }
    ensures { IfOk result (λ walked. IsWalk (demands unit.now.items ticks (plain_start start.now)) (W.said world.old) (W.said world.new) walked.output.items (outcome_of (W.said world.new).pending walked.ending)) }
{
    match walk_or_stop(alloc, unit, listing, start, ticks, world) {
        Ok(walked) => Ok(walked),
        Err(_) => Err(NoMemory),
    }
}

fn walk_or_stop<'a, W: World>(
    alloc: Global,
    unit: &'a Unit,
    listing: &'a Listing<'a>,
    start: &Start,
    ticks: u64,
    world: &mut W,
) -> Result<Walked, Stop>
    requires { listing.now ≡ listing_of (in_items unit.now.items) }
    ensures { IfOk result (λ walked. IsWalk (demands unit.now.items ticks (plain_start start.now)) (W.said world.old) (W.said world.new) walked.output.items (outcome_of (W.said world.new).pending walked.ending)) }
{
    let program = Program::new(alloc, unit, listing)?;
    let globals = outer(alloc, unit.items.as_slice())?;
    let mut state = State::new(alloc, globals, ticks);
    let ending = how_ended(process(alloc, &program, start, world, &mut state))?;
    Ok(Walked {
        output: state.into_output(),
        ending,
    })
}

// How a walk ended that left off so.
fn how_ended(left: Result<Tuple, Stop>) -> Result<Ending, Stop>
    ensures { IsEnding left result }
{
    match left {
        Ok(values) => Ok(Ending::Finished(values)),
        Err(Stop::Trapped(trap)) => Ok(Ending::Trapped(trap)),
        Err(Stop::Paused) => Ok(Ending::Paused),
        Err(Stop::NoMemory) => Err(Stop::NoMemory),
    }
}

fn process<'a, W: World>(
    alloc: Global,
    program: &Program<'a>,
    start: &Start,
    world: &mut W,
    state: &mut State<'a>,
) -> Result<Tuple, Stop>
    ensures { Comes (λ values. values.items) (process program.now.items (plain_start start.now)) (point state.old (W.said world.old)) result (point state.new (W.said world.new)) }
{
    match start {
        Start::Main => {
            let on = Context {
                alloc,
                program,
                depth: 0,
                calls: MOST_ACTIVE as u32 - 1,
            };
            main_process(&on, world, state)
        }
        Start::Live {
            site: _,
            live,
            depth,
        } => {
            let on = Context {
                alloc,
                program,
                depth: *depth,
                calls: MOST_ACTIVE as u32,
            };
            live_process(&on, world, state, live)
        }
    }
}
