// Asks of each kind played over each store, which answers as a list of tuples does.
ghost use Rattle.std.specs.Prelude.{◌≡◌, ◌<◌, List, [], ◌∷◌, All, IsTrue, OnOk, IfOk, map, pos};
ghost use Rattle.cl_ground.specs.Room.{Room};
ghost use Rattle.cl_value.specs.Views.{plain_ask};
ghost use Rattle.cl_value.specs.declared.value.Value.{Value as Field};
ghost use Rattle.test_stores.specs.Asks.{IsOfOne, the_tuple, the_template};

use cl_counter::Counter;
use cl_ground::{Items, NoMemory};
use cl_keyed::Keyed;
use cl_list::Listed;
use cl_queue::Queue;
use cl_store::{TupleStore, play};
use cl_value::{Ask, Slot, Steps, Template, Tuple, Value, What};
use std::alloc::Global;
use std::marker::Brand;
use std::sync::ledger::{Blank, Ledger};
use std::test::Fail;

// ("q", 1)
fn tuple(alloc: Global) -> Result<Tuple, NoMemory>
    ensures { IfOk result (λ t. t.items ≡ the_tuple) }
{
    let mut tuple = Tuple::with_room(alloc)?;
    tuple.restart(Value::Text(0));
    tuple.push(Value::Int(1));
    Ok(tuple)
}

// The template of that tuple.
fn template(alloc: Global) -> Result<Template, NoMemory>
    ensures { IfOk result (λ m. m.items ≡ the_template) }
{
    let mut slots = Items::new(alloc);
    slots.reserve(2)?;
    slots.push(Slot::Actual(Value::Text(0)));
    slots.push(Slot::Actual(Value::Int(1)));
    Ok(Template::new(slots))
}

#[derive(Clone, Copy)]
enum Asked {
    Out,
    In,
    Rd,
    Inp,
    Rdp,
}

// What was done.
#[derive(Clone, Copy, Debug, PartialEq, Eq)]
enum Done {
    Out,
    In,
    Rd,
    InpHit,
    InpMiss,
    RdpHit,
    RdpMiss,
    Other,
}

// Asks in turn, and what a list of tuples answers.
const ROWS: [(Asked, Done); 11] = [
    (Asked::Rdp, Done::RdpMiss),
    (Asked::Out, Done::Out),
    (Asked::Rd, Done::Rd),
    (Asked::Out, Done::Out),
    (Asked::Rdp, Done::RdpHit),
    (Asked::In, Done::In),
    (Asked::Out, Done::Out),
    (Asked::Inp, Done::InpHit),
    (Asked::Inp, Done::InpHit),
    (Asked::Inp, Done::InpMiss),
    (Asked::Rd, Done::RdpMiss),
];

fn ask_of(alloc: Global, asked: Asked) -> Result<Ask, NoMemory>
    ensures { IfOk result (λ ask. IsOfOne (plain_ask ask)) }
{
    match asked {
        Asked::Out => Ok(Ask::Out(tuple(alloc)?)),
        Asked::In => Ok(Ask::In(template(alloc)?)),
        Asked::Rd => Ok(Ask::Rd(template(alloc)?)),
        Asked::Inp => Ok(Ask::Inp(template(alloc)?)),
        Asked::Rdp => Ok(Ask::Rdp(template(alloc)?)),
    }
}

// Puts an ask last, into room that was made before.
fn put(asks: &mut Items<Ask>, ask: Ask)
    requires room { 0 < asks.old.spare }
    requires before { All IsOfOne (map plain_ask asks.old.items) }
    requires own { IsOfOne (plain_ask ask) }
    ensures { All IsOfOne (map plain_ask asks.new.items) }
{
    asks.push(ask);
}

// Puts the asks last.
fn fill(alloc: Global, asks: &mut Items<Ask>, rows: &[(Asked, Done)]) -> Result<(), NoMemory>
    requires { All IsOfOne (map plain_ask asks.old.items) }
    ensures { OnOk result (All IsOfOne (map plain_ask asks.new.items)) }
{
    for row in rows {
        asks.reserve(1)?;
        put(asks, ask_of(alloc, row.0)?);
    }
    Ok(())
}

fn all_asks(alloc: Global) -> Result<Items<Ask>, NoMemory>
    ensures { IfOk result (λ asks. All IsOfOne (map plain_ask asks.items)) }
{
    let mut asks = Items::new(alloc);
    fill(alloc, &mut asks, ROWS.as_slice())?;
    Ok(asks)
}

// Plays them over a store in which nothing is yet.
#[tactic(auto, using(crate::proofs::Asks::asked))]
fn played<S: TupleStore, L: Ledger>(
    alloc: Global,
    store: &mut S,
    asks: &Items<Ask>,
    steps: &mut Steps<L>,
) -> Result<Items<What>, NoMemory>
    requires asks { All IsOfOne (map plain_ask asks.now.items) }
    requires empty { S.content store.old ≡ [] }
    requires admits { IsTrue (S.admits store.old the_tuple) }
    requires fits { (ts : List (List Field)) → All (λ t. t ≡ the_tuple) ts → IsTrue (S.fits store.old ts the_template) }
{
    play(alloc, store, asks, steps)
}

fn done_in(what: &What) -> Done {
    match what {
        What::Out(_) => Done::Out,
        What::In(_, _) => Done::In,
        What::Rd(_, _) => Done::Rd,
        What::InpHit(_, _) => Done::InpHit,
        What::InpMiss(_) => Done::InpMiss,
        What::RdpHit(_, _) => Done::RdpHit,
        What::RdpMiss(_) => Done::RdpMiss,
        What::Eval(_) => Done::Other,
        What::Land(_) => Done::Other,
    }
}

fn are_answers(done: &[What]) -> bool {
    let mut rows = ROWS.iter();
    for what in done {
        match rows.next() {
            Some(row) if row.1 == done_in(what) => {}
            _ => return false,
        }
    }
    rows.next().is_none()
}

// Whether the asks are answered as by a list, and nothing is left.
fn answers_in<S: TupleStore, L: Ledger>(
    alloc: Global,
    store: &mut S,
    asks: &Items<Ask>,
    blank: Blank,
) -> Result<bool, NoMemory>
    requires asks { All IsOfOne (map plain_ask asks.now.items) }
    requires empty { S.content store.old ≡ [] }
    requires admits { IsTrue (S.admits store.old the_tuple) }
    requires fits { (ts : List (List Field)) → All (λ t. t ≡ the_tuple) ts → IsTrue (S.fits store.old ts the_template) }
    requires name { blank.name ≡ L.name }
    requires parts { blank.parts ≡ L.parts }
    requires some { 0 < blank.parts }
{
    let mut steps: Steps<L> = Steps::new(blank);
    let done = played(alloc, store, asks, &mut steps)?;
    Ok(are_answers(done.as_slice()) && store.len() == 0)
}

fn answers<S: TupleStore>(alloc: Global, store: &mut S, asks: &Items<Ask>) -> Result<bool, NoMemory>
    requires asks { All IsOfOne (map plain_ask asks.now.items) }
    requires empty { S.content store.old ≡ [] }
    requires admits { IsTrue (S.admits store.old the_tuple) }
    requires fits { (ts : List (List Field)) → All (λ t. t ≡ the_tuple) ts → IsTrue (S.fits store.old ts the_template) }
{
    answers_in::<S, Brand>(alloc, store, asks, Blank::new(1))
}

fn counter_answers(alloc: Global, asks: &Items<Ask>) -> Result<bool, NoMemory>
    requires { All IsOfOne (map plain_ask asks.now.items) }
{
    answers(alloc, &mut Counter::new(tuple(alloc)?), asks)
}

fn queue_answers(alloc: Global, asks: &Items<Ask>) -> Result<bool, NoMemory>
    requires { All IsOfOne (map plain_ask asks.now.items) }
{
    answers(alloc, &mut Queue::new(alloc), asks)
}

fn keyed_answers(alloc: Global, asks: &Items<Ask>) -> Result<bool, NoMemory>
    requires { All IsOfOne (map plain_ask asks.now.items) }
{
    answers(alloc, &mut Keyed::new(alloc, 1), asks)
}

fn list_answers(alloc: Global, asks: &Items<Ask>) -> Result<bool, NoMemory>
    requires { All IsOfOne (map plain_ask asks.now.items) }
{
    answers(alloc, &mut Listed::new(alloc), asks)
}

// Which of the stores answer as a list: the counter, the queue, the table by a key, and the list itself.
fn all_answer(alloc: Global) -> Result<[bool; 4], NoMemory> {
    let asks = all_asks(alloc)?;
    Ok([
        counter_answers(alloc, &asks)?,
        queue_answers(alloc, &asks)?,
        keyed_answers(alloc, &asks)?,
        list_answers(alloc, &asks)?,
    ])
}

#[test]
fn each_store_answers_as_a_list(rt: HostRuntime) -> Result<(), Fail> {
    assert_eq!(rt; all_answer(rt.alloc())?, [true; 4]);
    Ok(())
}
