//! Does a number of `out`s and as many `in`s on one set, each planned and sealed: what `bench/` measures.
//!
//! A line has the name of a set and a number. The answer is how many `in`s were done.
#![tactic(auto)]

ghost use Rattle.std.specs.Prelude.{◌≡◌, ◌+◌, ◌<◌, ◌≤◌, [], ◌∷◌, None, IsTrue, IfOk, pos};
ghost use Rattle.cl_value.specs.Views.{plain_request};
ghost use Rattle.cl_value.specs.declared.value.FieldType.TheVariants as types;
ghost use Rattle.cl_value.specs.declared.value.Value.TheVariants as values;
ghost use Rattle.cl_sig.specs.Storable.{class_allows};
ghost use Rattle.cl_sig.specs.Suits.{suits};
ghost use Rattle.cl_sig.specs.Views.{plain_shape};
ghost use Rattle.cl_sig.specs.declared.shape.Class.TheVariants as classes;
ghost use Rattle.cl_sig.specs.declared.signature.Mark.TheVariants as marks;
ghost use Rattle.cl_value.specs.Tickets.{IsAbove};
ghost use Rattle.bench_sets.specs.Sets.{shape_of};

use cl_ground::{Items, NoMemory};
use cl_set::{Planned, SetCore};
use cl_sig::{Class, Kind, Mark, SetShape, Signature};
use cl_value::{Ask, FieldType, Request, Slot, Steps, Template, Tuple, Value};
use std::alloc::Global;
use std::io;
use std::marker::Brand;
use std::sync::ledger::{Blank, Ledger};

// The sites of the `out` and of the `in`.
const ADDS: u32 = 0;

const TAKES: u32 = 1;

fn shape_with(alloc: Global, class: Class, second: Mark) -> Result<SetShape, NoMemory>
    ensures { IfOk result (λ s. plain_shape s ≡ shape_of class second) }
{
    let fields = Items::from_slice(alloc, &[Mark::Constant(Value::Text(0)), second])?;
    let sites = Items::from_slice(alloc, &[ADDS, TAKES])?;
    Ok(SetShape {
        set: 0,
        class,
        common: Signature {
            kind: Kind::Out,
            fields,
            place: 0,
        },
        sites,
    })
}

// A set without acts, whose history may have 2^32 - 1.
fn empty(alloc: Global, class: Class, second: Mark) -> Result<SetCore, NoMemory>
    requires { IsTrue (class_allows class (marks.Constant (values.Text 0) ∷ second ∷ [])) }
    ensures shape { IfOk result (λ s. s.shape ≡ shape_of class second) }
    ensures acts { IfOk result (λ s. s.acts ≡ []) }
    ensures idle { IfOk result (λ s. s.begun ≡ None) }
{
    let shape = shape_with(alloc, class, second)?;
    SetCore::make(alloc, shape, u32::MAX)
}

// out("q", number)
fn adding(alloc: Global, number: i32) -> Result<Request, NoMemory>
    ensures counter { number ≡ pos 1 → IfOk result (λ r. IsTrue (suits (shape_of classes.Counter (marks.Constant (values.Int (pos 1)))) (plain_request r))) }
    ensures queue { IfOk result (λ r. IsTrue (suits (shape_of classes.Queue (marks.Actual types.Int)) (plain_request r))) }
    ensures keyed { IfOk result (λ r. IsTrue (suits (shape_of (classes.Keyed 1) (marks.Actual types.Int)) (plain_request r))) }
{
    let fields = Items::from_slice(alloc, &[Value::Text(0), Value::Int(number)])?;
    Ok(Request {
        site: ADDS,
        ask: Ask::Out(Tuple::new(fields)),
    })
}

// in("q", number)
fn taking(alloc: Global, number: i32) -> Result<Request, NoMemory>
    ensures counter { number ≡ pos 1 → IfOk result (λ r. IsTrue (suits (shape_of classes.Counter (marks.Constant (values.Int (pos 1)))) (plain_request r))) }
    ensures keyed { IfOk result (λ r. IsTrue (suits (shape_of (classes.Keyed 1) (marks.Actual types.Int)) (plain_request r))) }
{
    let mut slots = Items::new(alloc);
    slots.reserve(2)?;
    slots.push(Slot::Actual(Value::Text(0)));
    slots.push(Slot::Actual(Value::Int(number)));
    Ok(Request {
        site: TAKES,
        ask: Ask::In(Template::new(slots)),
    })
}

// in("q", ?int)
fn taking_any(alloc: Global) -> Result<Request, NoMemory>
    ensures { IfOk result (λ r. IsTrue (suits (shape_of classes.Queue (marks.Actual types.Int)) (plain_request r))) }
{
    let mut slots = Items::new(alloc);
    slots.reserve(2)?;
    slots.push(Slot::Actual(Value::Text(0)));
    slots.push(Slot::Formal(FieldType::Int));
    Ok(Request {
        site: TAKES,
        ask: Ask::In(Template::new(slots)),
    })
}

// Plans an operation, and seals it where it was begun. Whether it was.
#[tactic(auto, using(cl_set::proofs::Rising::above))]
fn act<L: Ledger>(
    set: &mut SetCore,
    request: &Request,
    ticket: u64,
    steps: &mut Steps<L>,
) -> Result<bool, NoMemory>
    requires idle { set.old.begun ≡ None }
    requires suits { IsTrue (suits set.old.shape (plain_request request.now)) }
    requires above { IsAbove ticket set.old.acts }
    ensures idle { set.new.begun ≡ None }
    ensures shape { set.new.shape ≡ set.old.shape }
    ensures above { IsAbove (ticket + 1) set.new.acts }
{
    match set.plan(request, steps) {
        Planned::Begun => {
            let _ = set.seal(ticket, 0);
            Ok(true)
        }
        Planned::NotYet | Planned::Full => Ok(false),
        Planned::NoMemory => Err(NoMemory),
    }
}

// Adds the tuple `count` times, then takes the template's match as often. How often there was one.
fn fill_and_empty<L: Ledger>(
    set: &mut SetCore,
    adding: &Request,
    taking: &Request,
    count: u32,
    steps: &mut Steps<L>,
) -> Result<u32, NoMemory>
    requires fresh { set.old.acts ≡ [] }
    requires idle { set.old.begun ≡ None }
    requires adds { IsTrue (suits set.old.shape (plain_request adding.now)) }
    requires takes { IsTrue (suits set.old.shape (plain_request taking.now)) }
    ensures { IfOk result (λ hits. hits ≤ count) }
{
    'filling: for round in 0..count {
        let _ = act(set, adding, u64::from(round), steps)?;
    }
    let mut hits = 0;
    'emptying: for round in 0..count {
        if act(set, taking, u64::from(count) + u64::from(round), steps)? {
            hits += 1;
        }
    }
    Ok(hits)
}

// Adds `count` tuples of as many keys as `keys` says, in turn, and takes them in the same order. How often
// there was one.
fn fill_and_empty_by_key<L: Ledger>(
    alloc: Global,
    set: &mut SetCore,
    keys: u32,
    count: u32,
    steps: &mut Steps<L>,
) -> Result<u32, NoMemory>
    requires fresh { set.old.acts ≡ [] }
    requires idle { set.old.begun ≡ None }
    requires shape { set.old.shape ≡ shape_of (classes.Keyed 1) (marks.Actual types.Int) }
    requires some { 0 < keys }
    requires few { keys ≤ 100000 }
    ensures { IfOk result (λ hits. hits ≤ count) }
{
    'filling: for round in 0..count {
        let request = adding(alloc, (round % keys) as i32)?;
        let _ = act(set, &request, u64::from(round), steps)?;
    }
    let mut hits = 0;
    'emptying: for round in 0..count {
        let request = taking(alloc, (round % keys) as i32)?;
        if act(set, &request, u64::from(count) + u64::from(round), steps)? {
            hits += 1;
        }
    }
    Ok(hits)
}

#[derive(Clone, Copy)]
enum Set {
    Counter,
    Queue,
    FewKeys,
    ManyKeys,
}

impl Set {
    fn named(word: &str) -> Option<Set> {
        match word {
            "counter" => Some(Set::Counter),
            "queue" => Some(Set::Queue),
            "keys-1000" => Some(Set::FewKeys),
            "keys-100000" => Some(Set::ManyKeys),
            _ => None,
        }
    }
}

fn run<L: Ledger>(alloc: Global, set: Set, count: u32, blank: Blank) -> Result<u32, NoMemory>
    requires name { blank.name ≡ L.name }
    requires parts { blank.parts ≡ L.parts }
    requires some { 0 < blank.parts }
{
    let mut steps: Steps<L> = Steps::new(blank);
    match set {
        Set::Counter => {
            let mut set = empty(alloc, Class::Counter, Mark::Constant(Value::Int(1)))?;
            let adding = adding(alloc, 1)?;
            let taking = taking(alloc, 1)?;
            fill_and_empty(&mut set, &adding, &taking, count, &mut steps)
        }
        Set::Queue => {
            let mut set = empty(alloc, Class::Queue, Mark::Actual(FieldType::Int))?;
            let adding = adding(alloc, 1)?;
            let taking = taking_any(alloc)?;
            fill_and_empty(&mut set, &adding, &taking, count, &mut steps)
        }
        Set::FewKeys => by_key(alloc, 1_000, count, &mut steps),
        Set::ManyKeys => by_key(alloc, 100_000, count, &mut steps),
    }
}

fn by_key<L: Ledger>(
    alloc: Global,
    keys: u32,
    count: u32,
    steps: &mut Steps<L>,
) -> Result<u32, NoMemory>
    requires some { 0 < keys }
    requires few { keys ≤ 100000 }
{
    let mut set = empty(alloc, Class::Keyed(1), Mark::Actual(FieldType::Int))?;
    fill_and_empty_by_key(alloc, &mut set, keys, count, steps)
}

// The run, whose comparisons nobody reads.
fn answer(alloc: Global, set: Set, count: u32) -> Result<u32, NoMemory> {
    run::<Brand>(alloc, set, count, Blank::new(1))
}

fn main(rt: HostRuntime) -> io::Result<()> {
    for line in rt.lines(rt.alloc()) {
        let line = line?;
        let Some((word, count)) = line.as_str().split_once(' ') else {
            continue;
        };
        let (Some(set), Ok(count)) = (Set::named(word), count.parse::<u32>()) else {
            println!(rt; "{word} is no set")?;
            continue;
        };
        match answer(rt.alloc(), set, count) {
            Ok(hits) => println!(rt; "{word} {count} {hits}")?,
            Err(NoMemory) => println!(rt; "{word} {count} no memory")?,
        }
    }
    Ok(())
}
