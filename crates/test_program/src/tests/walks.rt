//! Walks of live tuples, which no command of the program begins, in a world that pauses.

ghost use Rattle.std.specs.Prelude.{◌≡◌};
ghost use Rattle.cl_listing.specs.Listing.{in_items};
ghost use Rattle.cl_listing.specs.Listed.{listing_of};

use cl_ast::Unit;
use cl_ground::{Items, MOST_BYTES, NoMemory};
use cl_listing::Listing;
use cl_parse::parse;
use cl_token::lex;
use cl_value::{Ask, FieldType, Live, LiveField, Request, Start, Trap, Tuple, Value};
use cl_walk::{Answer, Ending, World, walk};
use std::alloc::Global;

/// Pauses each process before its operation, and keeps what that was.
#[derive(Drop)]
struct Pauses {
    asked: Request,
}

impl World for Pauses {
    ghost use Rattle.std.specs.Prelude.{[]};
    ghost use Rattle.cl_value.specs.Views.{plain_request};

    ghost said = { λ w. record { told = []; pending = plain_request w.asked } };

    fn ask(&mut self, request: Request) -> Answer {
        self.asked = request;
        Answer::Paused
    }
}

// How a process ends: with this first value, by this trap, or paused before an operation.
#[derive(Clone, Copy, Debug, PartialEq, Eq)]
enum How {
    Gives(Option<Value>),
    Traps(Trap),
    Pauses,
}

/// The tree of a source, if there is one.
pub fn tree_of(alloc: Global, source: &[u8]) -> Option<Unit> {
    if source.len() > MOST_BYTES {
        return None;
    }
    let tokens = lex(alloc, source).ok()?;
    parse(alloc, tokens.as_slice()).ok()
}

// A world that was asked nothing yet.
fn unasked(alloc: Global) -> Result<Pauses, NoMemory> {
    let tuple = Tuple::with_room(alloc)?;
    Ok(Pauses {
        asked: Request {
            site: 9,
            ask: Ask::Out(tuple),
        },
    })
}

// A process of a live tuple with this one field.
fn live(alloc: Global, field: LiveField) -> Result<Start, NoMemory> {
    let mut fields = Items::new(alloc);
    fields.reserve(1)?;
    fields.push(field);
    Ok(Start::Live {
        site: 0,
        live: Live::new(fields),
        depth: 1,
    })
}

// One whose field calls the first function of its text.
fn live_call(alloc: Global) -> Result<Start, NoMemory> {
    live(
        alloc,
        LiveField::Call {
            function: 0,
            arguments: Items::new(alloc),
            gives: FieldType::Int,
        },
    )
}

fn how_ended(ending: &Ending) -> How {
    match ending {
        Ending::Finished(values) => How::Gives(values.fields().first().copied()),
        Ending::Trapped(trap) => How::Traps(*trap),
        Ending::Paused => How::Pauses,
    }
}

// How a process of a tree with this listing ends with so many ticks.
fn walked(
    alloc: Global,
    unit: &Unit,
    listing: &Listing<'_>,
    start: &Start,
    ticks: u64,
    world: &mut Pauses,
) -> Option<How>
    requires { listing.now ≡ listing_of (in_items unit.now.items) }
{
    let walked = walk(alloc, unit, listing, start, ticks, world).ok()?;
    Some(how_ended(&walked.ending))
}

fn walked_in_world(alloc: Global, unit: &Unit, start: &Start, ticks: u64) -> Option<How> {
    let mut world = unasked(alloc).ok()?;
    let listing = Listing::new(alloc, unit).ok()?;
    walked(alloc, unit, &listing, start, ticks, &mut world)
}

// How a process of a source ends with so many ticks.
fn ends(alloc: Global, source: &[u8], start: Result<Start, NoMemory>, ticks: u64) -> Option<How> {
    let start = start.ok()?;
    let unit = tree_of(alloc, source)?;
    walked_in_world(alloc, &unit, &start, ticks)
}

#[test]
fn live_tuples_are_walked(rt: HostRuntime) {
    let alloc = rt.alloc();
    let ready = live(alloc, LiveField::Ready(Value::Char(5)));
    assert_eq!(rt;
        ends(alloc, b"", ready, 0),
        Some(How::Gives(Some(Value::Char(5))))
    );
    let seven = b"int f(){return 7;}";
    assert_eq!(rt;
        ends(alloc, seven, live_call(alloc), 0),
        Some(How::Traps(Trap::StepLimit))
    );
    assert_eq!(rt;
        ends(alloc, seven, live_call(alloc), 1),
        Some(How::Gives(Some(Value::Int(7))))
    );
    let asks = b"int f(){out(7);}";
    assert_eq!(rt; ends(alloc, asks, live_call(alloc), 1), Some(How::Pauses));
}
