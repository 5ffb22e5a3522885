//! Fields that were read, and the requests that are made of them.

ghost use Rattle.std.specs.Prelude.{◌≡◌, [], ◌∷◌, map, MatchResult};
ghost use Rattle.cl_value.specs.LiveViews.{plain_part, plain_live};
ghost use Rattle.cl_value.specs.Views.{plain_ask};
ghost use Rattle.cl_meaning.specs.Operations as meaning;
ghost use Rattle.cl_walk.specs.Views.{aim_of, aims_of};
ghost use Rattle.cl_walk.specs.Walks.{Said, point, Comes, same};
ghost use Rattle.cl_walk.specs.Rules.{requests, spawns};

use crate::literal::field_type;
use crate::state::State;
use crate::stop::Stop;
use crate::world::{Answer, World};
use cl_ast::{TypeName, Verb};
use cl_ground::{Items, MOST_DEPTH, MOST_FIELDS};
use cl_state::truth;
use cl_value::{Ask, Live, LiveField, Request, Slot, Template, Trap, Tuple, Value};
use std::alloc::Global;

/// A field that was read: a value, or a place that is to get one.
#[derive(Clone, Copy)]
pub enum Aim<'a> {
    /// A value.
    Holds(Value),
    /// A place of a variable.
    Fills {
        /// The type of the variable.
        of: TypeName,
        /// Its name.
        name: &'a [u8],
        /// The place in it.
        at: usize,
    },
}

fn slot(aim: &Aim<'_>) -> Slot
    ensures { result ≡ meaning.slot (aim_of aim.now) }
{
    match aim {
        Aim::Holds(value) => Slot::Actual(*value),
        Aim::Fills { of, name: _, at: _ } => Slot::Formal(field_type(*of)),
    }
}

// The values of a tuple. No tree without faults has other than 1 to 16 fields.
fn tuple(alloc: Global, aims: &[Aim<'_>]) -> Result<Tuple, Stop>
    ensures { MatchResult result (λ tuple. tuple.items ≡ meaning.values_of (aims_of aims.now)) (λ stop. stop ≡ Stop.NoMemory) }
{
    let mut values = Items::new(alloc);
    for aim in aims {
        if let Aim::Holds(value) = aim {
            values.reserve(1)?;
            values.push(*value);
        }
    }
    if values.len() == 0 || values.len() > MOST_FIELDS {
        return Err(Stop::NoMemory);
    }
    Ok(Tuple::new(values))
}

fn template(alloc: Global, aims: &[Aim<'_>]) -> Result<Template, Stop>
    ensures { MatchResult result (λ template. template.items ≡ map meaning.slot (aims_of aims.now)) (λ stop. stop ≡ Stop.NoMemory) }
{
    let mut slots = Items::new(alloc);
    for aim in aims {
        slots.reserve(1)?;
        slots.push(slot(aim));
    }
    if slots.len() == 0 || slots.len() > MOST_FIELDS {
        return Err(Stop::NoMemory);
    }
    Ok(Template::new(slots))
}

// What is asked, of all operations but `eval`.
fn asked(alloc: Global, verb: Verb, aims: &[Aim<'_>]) -> Result<Ask, Stop>
    ensures { MatchResult result (λ ask. plain_ask ask ≡ meaning.asked verb (aims_of aims.now)) (λ stop. stop ≡ Stop.NoMemory) }
{
    match verb {
        Verb::Out | Verb::Eval => Ok(Ask::Out(tuple(alloc, aims)?)),
        Verb::In => Ok(Ask::In(template(alloc, aims)?)),
        Verb::Rd => Ok(Ask::Rd(template(alloc, aims)?)),
        Verb::Inp => Ok(Ask::Inp(template(alloc, aims)?)),
        Verb::Rdp => Ok(Ask::Rdp(template(alloc, aims)?)),
    }
}

// A field gets its value, where it is a formal.
fn fill_one(state: &mut State<'_>, aim: &Aim<'_>, value: Value) -> Result<(), Stop>
    ensures { (said : Said) → Comes same (meaning.fill (aim_of aim.now ∷ []) (value ∷ [])) (point state.old said) result (point state.new said) }
{
    match aim {
        Aim::Holds(_) => Ok(()),
        Aim::Fills { of: _, name, at } => state.store(name, *at, value),
    }
}

// Formals get their values, from left to right.
fn fill(state: &mut State<'_>, aims: &[Aim<'_>], values: &[Value]) -> Result<(), Stop>
    ensures { (said : Said) → Comes same (meaning.fill (aims_of aims.now) values.now) (point state.old said) result (point state.new said) }
{
    for i in 0..aims.len() {
        if i < values.len() {
            fill_one(state, &aims[i], values[i])?;
        }
    }
    Ok(())
}

/// The request of an operation other than `eval`, whose fields were read: where there was a tuple its formals get the values. The answer is whether
/// there was.
pub fn request<W: World>(
    alloc: Global,
    world: &mut W,
    state: &mut State<'_>,
    site: u32,
    verb: Verb,
    aims: &[Aim<'_>],
) -> Result<Value, Stop>
    ensures { Comes same (requests site verb (aims_of aims.now)) (point state.old (W.said world.old)) result (point state.new (W.said world.new)) }
{
    let ask = asked(alloc, verb, aims)?;
    match world.ask(Request { site, ask }) {
        Answer::Got(tuple) => {
            fill(state, aims, tuple.fields())?;
            Ok(truth(true))
        }
        Answer::Done => Ok(truth(true)),
        Answer::Missed => Ok(truth(false)),
        Answer::Paused => Err(Stop::Paused),
    }
}

/// The request of an `eval` by a process of a depth. No tree without faults has other than 1 to 16 fields.
pub fn spawn<W: World>(
    world: &mut W,
    state: &State<'_>,
    depth: u32,
    site: u32,
    fields: Items<LiveField>,
) -> Result<Value, Stop>
    ensures { Comes same (spawns depth site (map plain_part fields.items)) (point state.now (W.said world.old)) result (point state.now (W.said world.new)) }
{
    if depth >= MOST_DEPTH {
        return Err(Stop::Trapped(Trap::EvalDepth));
    }
    if fields.len() == 0 || fields.len() > MOST_FIELDS {
        return Err(Stop::NoMemory);
    }
    let ask = Ask::Eval(Live::new(fields));
    match world.ask(Request { site, ask }) {
        Answer::Paused => Err(Stop::Paused),
        _ => Ok(truth(true)),
    }
}
