// A set on which operations are tried one at a time.
ghost use Rattle.std.specs.Prelude.{◌≡◌, ◌+◌, [], None, IsSome, IfOk, IfSome};
ghost use Rattle.cl_ground.specs.Room.{Room};
ghost use Rattle.cl_value.specs.Tickets.{IsAbove};
ghost use Rattle.cl_sig.specs.Views.{plain_shape};

use super::suiting::{is_storable, request_fits};
use cl_ground::{Items, NoMemory};
use cl_set::{Planned, SetCore};
use cl_sig::{Class, Kind, Mark, SetShape, Signature};
use cl_value::{
    Act, Ask, FieldType, Live, LiveField, Request, Slot, Steps, Template, Tuple, Value, What,
};
use std::alloc::Global;
use std::marker::Model;
use std::sync::ledger::Ledger;

// The number of each tuple of a Counter, ("x", 7).
pub const SEVEN: i32 = 7;

// The sites of producers and of consumers.
const PRODUCER: u32 = 3;

const CONSUMER: u32 = 5;

// A set of the number 4 of tuples ("x", int), or ("x", 7) under Counter.
fn shape_of(alloc: Global, class: Class) -> Result<SetShape, NoMemory> {
    let second = match class {
        Class::Counter => Mark::Constant(Value::Int(SEVEN)),
        Class::Queue | Class::Keyed(_) | Class::List => Mark::Actual(FieldType::Int),
    };
    let fields = Items::from_slice(alloc, &[Mark::Constant(Value::Text(0)), second])?;
    let sites = Items::from_slice(alloc, &[PRODUCER, CONSUMER])?;
    Ok(SetShape {
        set: 4,
        class,
        common: Signature {
            kind: Kind::Out,
            fields,
            place: 100,
        },
        sites,
    })
}

fn copied(alloc: Global, shape: &SetShape) -> Result<SetShape, NoMemory>
    ensures { IfOk result (λ s. plain_shape s ≡ plain_shape shape.now) }
{
    let fields = shape.common.fields.copy(alloc)?;
    let sites = shape.sites.copy(alloc)?;
    Ok(SetShape {
        set: shape.set,
        class: shape.class,
        common: Signature {
            kind: shape.common.kind,
            fields,
            place: shape.common.place,
        },
        sites,
    })
}

// An operation on tuples ("x", number); a consumer without a number has a formal.
#[derive(Clone, Copy)]
pub enum Trying {
    Out(i32),
    In(Option<i32>),
    Rd(Option<i32>),
    Inp(Option<i32>),
    Rdp(Option<i32>),
    Eval(i32),
    Land(i32),
}

fn tuple_of(alloc: Global, number: i32) -> Result<Tuple, NoMemory> {
    let fields = Items::from_slice(alloc, &[Value::Text(0), Value::Int(number)])?;
    Ok(Tuple::new(fields))
}

fn template_of(alloc: Global, asked: Option<i32>) -> Result<Template, NoMemory> {
    let second = match asked {
        Some(number) => Slot::Actual(Value::Int(number)),
        None => Slot::Formal(FieldType::Int),
    };
    let mut slots = Items::new(alloc);
    slots.reserve(2)?;
    slots.push(Slot::Actual(Value::Text(0)));
    slots.push(second);
    Ok(Template::new(slots))
}

// Its second field is computed by the new process, but under Counter.
fn live_of(alloc: Global, class: Class, number: i32) -> Result<Live, NoMemory> {
    let mut fields = Items::new(alloc);
    fields.reserve(2)?;
    fields.push(LiveField::Ready(Value::Text(0)));
    let second = if class == Class::Counter {
        LiveField::Ready(Value::Int(number))
    } else {
        LiveField::Call {
            function: 1,
            arguments: Items::from_slice(alloc, &[Value::Int(number)])?,
            gives: FieldType::Int,
        }
    };
    fields.push(second);
    Ok(Live::new(fields))
}

fn ask_of(alloc: Global, class: Class, trying: Trying) -> Result<Ask, NoMemory> {
    match trying {
        Trying::Out(number) => Ok(Ask::Out(tuple_of(alloc, number)?)),
        Trying::In(asked) => Ok(Ask::In(template_of(alloc, asked)?)),
        Trying::Rd(asked) => Ok(Ask::Rd(template_of(alloc, asked)?)),
        Trying::Inp(asked) => Ok(Ask::Inp(template_of(alloc, asked)?)),
        Trying::Rdp(asked) => Ok(Ask::Rdp(template_of(alloc, asked)?)),
        Trying::Eval(number) => Ok(Ask::Eval(live_of(alloc, class, number)?)),
        Trying::Land(number) => Ok(Ask::Land(tuple_of(alloc, number)?)),
    }
}

fn site_of(trying: Trying) -> u32 {
    match trying {
        Trying::Out(_) => PRODUCER,
        Trying::In(_) => CONSUMER,
        Trying::Rd(_) => CONSUMER,
        Trying::Inp(_) => CONSUMER,
        Trying::Rdp(_) => CONSUMER,
        Trying::Eval(_) => PRODUCER,
        Trying::Land(_) => PRODUCER,
    }
}

pub fn request_of(alloc: Global, class: Class, trying: Trying) -> Result<Request, NoMemory> {
    let ask = ask_of(alloc, class, trying)?;
    Ok(Request {
        site: site_of(trying),
        ask,
    })
}

// What came of an operation, with the number of its tuple. No row wants `Wrong`. Unfit is what a row must not be.
#[derive(Clone, Copy, Debug, PartialEq, Eq)]
pub enum Told {
    Unfit,
    Wrong,
    NotYet,
    Full,
    NoMemory,
    Out(i32),
    In(i32),
    Rd(i32),
    InpHit(i32),
    InpMiss,
    RdpHit(i32),
    RdpMiss,
    Eval,
    Land(i32),
}

// The second field of a tuple of this module.
fn number_in(tuple: &Tuple) -> i32 {
    match tuple.fields() {
        [Value::Text(0), Value::Int(number)] => *number,
        _ => i32::MIN,
    }
}

fn telling_of(what: &What) -> Told {
    match what {
        What::Out(tuple) => Told::Out(number_in(tuple)),
        What::In(_, tuple) => Told::In(number_in(tuple)),
        What::Rd(_, tuple) => Told::Rd(number_in(tuple)),
        What::InpHit(_, tuple) => Told::InpHit(number_in(tuple)),
        What::InpMiss(_) => Told::InpMiss,
        What::RdpHit(_, tuple) => Told::RdpHit(number_in(tuple)),
        What::RdpMiss(_) => Told::RdpMiss,
        What::Eval(_) => Told::Eval,
        What::Land(tuple) => Told::Land(number_in(tuple)),
    }
}

// A set where nothing is begun, its shape, and the ticket of its next act.
#[derive(Drop)]
pub struct Trial {
    set: SetCore,
    shape: SetShape,
    next: u64,
}

impl Model for Trial {
    ghost use Rattle.std.specs.Prelude.{◌≡◌, None};
    ghost use Rattle.cl_sig.specs.Views.{plain_shape};
    ghost use Rattle.cl_value.specs.Tickets.{IsAbove};
    ghost use Rattle.cl_set.specs.Sets.{PlainSet};

    ghost Value = { PlainSet };

    ghost view = { λ t. t.set };

    ghost invariant = { λ t. (t.set.begun ≡ None) × (t.set.shape ≡ plain_shape t.shape) × IsAbove t.next t.set.acts };
}

// The set of a shape, where one can be made of it.
fn set_of(alloc: Global, shape: SetShape, limit: u32) -> Result<Option<SetCore>, NoMemory>
    ensures idle { IfOk result (λ r. IfSome r (λ s. s.begun ≡ None)) }
    ensures acts { IfOk result (λ r. IfSome r (λ s. s.acts ≡ [])) }
    ensures shape { IfOk result (λ r. IfSome r (λ s. s.shape ≡ plain_shape shape)) }
{
    if !is_storable(&shape) {
        return Ok(None);
    }
    let set = SetCore::make(alloc, shape, limit)?;
    Ok(Some(set))
}

// Whether an act has this ticket, this site, and this kind.
fn is_told(act: &Act, ticket: u64, site: u32, kept: Told) -> bool {
    act.ticket == ticket && act.site == site && telling_of(&act.what) == kept
}

// Seals what was begun. It must be the same in the history and in the answer.
#[tactic(auto, using(cl_set::proofs::Rising::above))]
fn sealed(set: &mut SetCore, ticket: u64, site: u32) -> Told
    requires begun { IsSome set.old.begun }
    requires above { IsAbove ticket set.old.acts }
    ensures idle { set.new.begun ≡ None }
    ensures shape { set.new.shape ≡ set.old.shape }
    ensures above { IsAbove (ticket + 1) set.new.acts }
{
    let kept = telling_of(set.what());
    let act = set.seal(ticket, 0);
    if is_told(&act, ticket, site, kept) {
        kept
    } else {
        Told::Wrong
    }
}

impl Trial {
    pub fn new(alloc: Global, class: Class, limit: u32) -> Result<Option<Trial>, NoMemory> {
        let shape = shape_of(alloc, class)?;
        let kept = copied(alloc, &shape)?;
        match set_of(alloc, kept, limit)? {
            Some(set) => Ok(Some(Trial {
                set,
                shape,
                next: 1,
            })),
            None => Ok(None),
        }
    }

    // Whether an operation would wait.
    pub fn waits<L: Ledger>(&self, request: &Request, steps: &mut Steps<L>) -> bool {
        request_fits(&self.shape, request) && self.set.waits(request, steps)
    }

    // Plans, and seals what was begun.
    pub fn act<L: Ledger>(&mut self, request: &Request, steps: &mut Steps<L>) -> Told {
        if !request_fits(&self.shape, request) || self.next == u64::MAX {
            return Told::Wrong;
        }
        match self.set.plan(request, steps) {
            Planned::NotYet => Told::NotYet,
            Planned::Full => Told::Full,
            Planned::NoMemory => Told::NoMemory,
            Planned::Begun => {
                let ticket = self.next;
                self.next += 1;
                sealed(&mut self.set, ticket, request.site)
            }
        }
    }
}
