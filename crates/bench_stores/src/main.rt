//! Adds a tuple to a store so often as a line says, and takes it out as often: what `bench/` measures.
//!
//! A line has the name of a store and a number. The answer is how many takes had a tuple.
#![tactic(auto)]

ghost use Rattle.std.specs.Prelude.{◌≡◌, ◌<◌, ◌≤◌, List, [], ◌∷◌, All, Some, IsTrue, IfOk, pos};
ghost use Rattle.cl_ground.specs.Room.{Room};
ghost use Rattle.cl_value.specs.declared.template.Slot.{Slot as Asked};
ghost use Rattle.cl_value.specs.declared.value.Value.{Value as Field};
ghost use Rattle.cl_value.specs.declared.value.Value.TheVariants as values;
ghost use Rattle.cl_value.specs.declared.template.Slot.TheVariants as slots;
ghost use Rattle.cl_keyed.specs.Keys.{key_at, has_actual};
ghost use Rattle.cl_keyed.specs.declared.key.Key.{Key};
ghost use Rattle.cl_keyed.specs.declared.key.Key.TheVariants as kinds;

use cl_counter::Counter;
use cl_ground::{Items, NoMemory};
use cl_keyed::Keyed;
use cl_list::Listed;
use cl_queue::Queue;
use cl_store::TupleStore;
use cl_value::{Slot, Steps, Template, Tuple, Value};
use std::alloc::Global;
use std::io;
use std::marker::Brand;
use std::sync::ledger::{Blank, Ledger};

// Adds the tuple `count` times, then takes the template's match as often. How often there was one.
fn fill_and_empty<S: TupleStore, L: Ledger>(
    alloc: Global,
    store: &mut S,
    tuple: &Tuple,
    template: &Template,
    count: u32,
    steps: &mut Steps<L>,
) -> Result<u32, NoMemory>
    requires empty { S.content store.old ≡ [] }
    requires admits { IsTrue (S.admits store.old tuple.now.items) }
    // over each list of nothing but this tuple
    requires fits { (ts : List (List Field)) → All (λ t. t ≡ tuple.now.items) ts → IsTrue (S.fits store.old ts template.now.items) }
    ensures { IfOk result (λ hits. hits ≤ count) }
{
    'filling: for _round in 0..count {
        store.reserve(tuple)?;
        store.add(tuple);
    }
    let mut into = Tuple::with_room(alloc)?;
    let mut hits = 0;
    'emptying: for _round in 0..count {
        if store.take(template, &mut into, steps) {
            hits += 1;
        }
    }
    Ok(hits)
}

// ("q", number)
fn tuple_at(alloc: Global, number: i32) -> Result<Tuple, NoMemory>
    ensures { IfOk result (λ t. key_at 1 t.items ≡ Some (kinds.Int number)) }
{
    let mut tuple = Tuple::with_room(alloc)?;
    tuple.restart(Value::Text(0));
    tuple.push(Value::Int(number));
    Ok(tuple)
}

// The template of that tuple.
fn asking_at(alloc: Global, number: i32) -> Result<Template, NoMemory>
    ensures { IfOk result (λ m. IsTrue (has_actual 1 m.items)) }
{
    let mut slots = Items::new(alloc);
    slots.reserve(2)?;
    slots.push(Slot::Actual(Value::Text(0)));
    slots.push(Slot::Actual(Value::Int(number)));
    Ok(Template::new(slots))
}

// Adds `count` tuples of as many keys as `keys` says, in turn, and takes them in the same order. How often
// there was one.
fn fill_and_empty_by_key<S: TupleStore, L: Ledger>(
    alloc: Global,
    store: &mut S,
    keys: u32,
    count: u32,
    steps: &mut Steps<L>,
) -> Result<u32, NoMemory>
    requires admits { (t : List Field) (k : Key) → key_at 1 t ≡ Some k → IsTrue (S.admits store.old t) }
    requires fits { (ts : List (List Field)) (m : List Asked) → IsTrue (has_actual 1 m) → IsTrue (S.fits store.old ts m) }
    requires some { 0 < keys }
    requires few { keys ≤ 100000 }
    ensures { IfOk result (λ hits. hits ≤ count) }
{
    'filling: for round in 0..count {
        let tuple = tuple_at(alloc, (round % keys) as i32)?;
        store.reserve(&tuple)?;
        store.add(&tuple);
    }
    let mut into = Tuple::with_room(alloc)?;
    let mut hits = 0;
    'emptying: for round in 0..count {
        let template = asking_at(alloc, (round % keys) as i32)?;
        if store.take(&template, &mut into, steps) {
            hits += 1;
        }
    }
    Ok(hits)
}

// ("q", 1)
fn numbered(alloc: Global) -> Result<Tuple, NoMemory>
    ensures { IfOk result (λ t. t.items ≡ values.Text 0 ∷ values.Int (pos 1) ∷ []) }
{
    let mut tuple = Tuple::with_room(alloc)?;
    tuple.restart(Value::Text(0));
    tuple.push(Value::Int(1));
    Ok(tuple)
}

// The template of that tuple.
fn asking(alloc: Global) -> Result<Template, NoMemory>
    ensures { IfOk result (λ m. m.items ≡ slots.Actual (values.Text 0) ∷ slots.Actual (values.Int (pos 1)) ∷ []) }
{
    let mut slots = Items::new(alloc);
    slots.reserve(2)?;
    slots.push(Slot::Actual(Value::Text(0)));
    slots.push(Slot::Actual(Value::Int(1)));
    Ok(Template::new(slots))
}

#[derive(Clone, Copy)]
enum Store {
    Counter,
    Queue,
    FewKeys,
    ManyKeys,
    List,
}

impl Store {
    fn named(word: &str) -> Option<Store> {
        match word {
            "counter" => Some(Store::Counter),
            "queue" => Some(Store::Queue),
            "keys-1000" => Some(Store::FewKeys),
            "keys-100000" => Some(Store::ManyKeys),
            "list" => Some(Store::List),
            _ => None,
        }
    }
}

fn run<L: Ledger>(alloc: Global, store: Store, count: u32, blank: Blank) -> Result<u32, NoMemory>
    requires name { blank.name ≡ L.name }
    requires parts { blank.parts ≡ L.parts }
    requires some { 0 < blank.parts }
{
    let mut steps: Steps<L> = Steps::new(blank);
    let tuple = numbered(alloc)?;
    let template = asking(alloc)?;
    match store {
        Store::Counter => {
            let mut store = Counter::new(numbered(alloc)?);
            fill_and_empty(alloc, &mut store, &tuple, &template, count, &mut steps)
        }
        Store::Queue => {
            let mut store = Queue::new(alloc);
            fill_and_empty(alloc, &mut store, &tuple, &template, count, &mut steps)
        }
        Store::FewKeys => {
            let mut store = Keyed::new(alloc, 1);
            fill_and_empty_by_key(alloc, &mut store, 1_000, count, &mut steps)
        }
        Store::ManyKeys => {
            let mut store = Keyed::new(alloc, 1);
            fill_and_empty_by_key(alloc, &mut store, 100_000, count, &mut steps)
        }
        Store::List => {
            let mut store = Listed::new(alloc);
            fill_and_empty(alloc, &mut store, &tuple, &template, count, &mut steps)
        }
    }
}

// The run, whose comparisons nobody reads.
fn answer(alloc: Global, store: Store, count: u32) -> Result<u32, NoMemory> {
    run::<Brand>(alloc, store, count, Blank::new(1))
}

fn main(rt: HostRuntime) -> io::Result<()> {
    for line in rt.lines(rt.alloc()) {
        let line = line?;
        let Some((word, count)) = line.as_str().split_once(' ') else {
            continue;
        };
        let (Some(store), Ok(count)) = (Store::named(word), count.parse::<u32>()) else {
            println!(rt; "{word} is no store")?;
            continue;
        };
        match answer(rt.alloc(), store, count) {
            Ok(hits) => println!(rt; "{word} {count} {hits}")?,
            Err(NoMemory) => println!(rt; "{word} {count} no memory")?,
        }
    }
    Ok(())
}
