use crate::begin::{Twice, begin};
use crate::store::Store;
use cl_counter::Counter;
use cl_ground::{Items, NoMemory};
use cl_keyed::Keyed;
use cl_list::Listed;
use cl_queue::Queue;
use cl_sig::{Class, Mark, SetShape};
use cl_store::TupleStore;
use cl_value::{Act, Ask, History, Request, Steps, Tuple, Value, What};
use std::alloc::Global;
use std::marker::Model;
use std::sync::ledger::Ledger;

// An operation that was done on the store and has no ticket yet, once for the history and once for the
// answer.
#[derive(Drop)]
struct Begun {
    site: u32,
    kept: What,
    told: What,
}

/// What `SetCore::plan` answers.
#[derive(Clone, Copy, Debug, PartialEq, Eq)]
pub enum Planned {
    /// The operation was done on the store, and waits for its ticket.
    Begun,
    /// It is an `in` or `rd` that no tuple matches. Nothing has changed.
    NotYet,
    /// The history has as many acts as it may have. Nothing has changed.
    Full,
    /// Memory ran out. Nothing has changed.
    NoMemory,
}

/// The tuples and the history of one set.
///
/// Contracts see its shape, the most acts that its history may have, its history, and what is begun. Its
/// content is what these acts leave. (This project; the operations: Gelernter 1985.)
#[derive(Drop)]
pub struct SetCore {
    shape: SetShape,
    limit: u32,
    store: Store,
    acts: Items<Act>,
    begun: Option<Begun>,
    // room for the tuple that a search finds
    buffer: Tuple,
    alloc: Global,
}

impl Model for SetCore {
    ghost use Rattle.cl_set.specs.Sets.{PlainSet};
    ghost use Rattle.cl_set.specs.Standing.{set_of, Stands};

    ghost Value = { PlainSet };

    ghost view = { λ s. set_of s.shape s.limit s.acts s.begun };

    ghost invariant = { λ s. Stands s.shape s.limit s.store s.acts s.begun s.buffer };
}

impl SetCore {
    ghost use Rattle.std.specs.Prelude.{◌≡◌, ◌+◌, ◌≤◌, false, [], ◌∷◌, ◌++◌, length, option_map, IsTrue, IsSome, IfSome, IfOk, OnErr, Ok, None, Some};
    ghost use Rattle.cl_value.specs.Replay.{replay, replayed};
    ghost use Rattle.cl_value.specs.Views.{plain_request, plain_what, plain_act, plain_history};
    ghost use Rattle.cl_sig.specs.Storable.{IsStorable};
    ghost use Rattle.cl_sig.specs.Suits.{suits};
    ghost use Rattle.cl_sig.specs.Views.{plain_shape};
    ghost use Rattle.cl_value.specs.Answers.{answer};
    ghost use Rattle.cl_set.specs.Deeds.{reply_fits};
    ghost use Rattle.cl_value.specs.Answers.{waits};
    ghost use Rattle.cl_set.specs.Keeping.{Keeps};
    ghost use Rattle.cl_value.specs.Tickets.{IsAbove};
    ghost use Rattle.cl_set.specs.Sets.{content, asked_in, what_begun, sealed, cost_of};

    /// A set of this shape without tuples and acts. `NoMemory` comes where the allocator refused room.
    pub fn make(alloc: Global, shape: SetShape, limit: u32) -> Result<SetCore, NoMemory>
        requires { IsStorable (plain_shape shape) }
        ensures { IfOk result (λ set. set ≡ record { shape = plain_shape shape; limit = limit; acts = []; begun = None }) }
    {
        let buffer = Tuple::with_room(alloc)?;
        let store = store_of(alloc, &shape)?;
        Ok(SetCore {
            shape,
            limit,
            store,
            acts: Items::new(alloc),
            begun: None,
            buffer,
            alloc,
        })
    }

    /// Does an operation on the store, after all its growths. `NotYet` comes exactly where it waits, `Full`
    /// exactly where the history has as many acts as it may have and it doesn't wait, `Begun` otherwise,
    /// unless memory runs out.
    pub fn plan<L: Ledger>(&mut self, request: &Request, steps: &mut Steps<L>) -> Planned
        requires idle { self.old.begun ≡ None }
        requires suits { IsTrue (suits self.old.shape (plain_request request.now)) }
        ensures waits { IsTrue (waits (replay self.old.acts) (plain_request request.now).ask) → result ≡ Planned.NotYet }
        ensures not_yet { result ≡ Planned.NotYet → IsTrue (waits (replay self.old.acts) (plain_request request.now).ask) }
        ensures limited { length self.old.acts ≡ self.old.limit → waits (replay self.old.acts) (plain_request request.now).ask ≡ false → result ≡ Planned.Full }
        ensures full { result ≡ Planned.Full → length self.old.acts ≡ self.old.limit }
        ensures begun { result ≡ Planned.Begun → self.new ≡ record {
          shape = self.old.shape;
          limit = self.old.limit;
          acts = self.old.acts;
          begun = Some (record { site = request.now.site; what = answer (replay self.old.acts) (plain_request request.now).ask });
        } }
        ensures asked { result ≡ Planned.Begun → option_map asked_in self.new.begun ≡ Some (plain_request request.now) }
        ensures fits { result ≡ Planned.Begun → IfSome self.new.begun (λ deed. IsTrue (reply_fits deed.what)) }
        ensures content { result ≡ Planned.Begun → content self.new ≡ replayed (content self.old) (answer (content self.old) (plain_request request.now).ask) }
        ensures not_yet_same { result ≡ Planned.NotYet → self.new ≡ self.old }
        ensures full_same { result ≡ Planned.Full → self.new ≡ self.old }
        ensures no_memory_same { result ≡ Planned.NoMemory → self.new ≡ self.old }
        ensures cost { steps.new ≤ steps.old + cost_of self.old.shape.class (replay self.old.acts) (plain_request request.now).ask }
        ensures later { steps.old ≤ steps.new }
    {
        if self.acts.len() == self.limit as usize {
            let planned = Planned::Full;
            return refuse(&self.store, &request.ask, planned, steps);
        }
        match self.perform(request, steps) {
            Ok(planned) => planned,
            Err(NoMemory) => {
                let planned = Planned::NoMemory;
                refuse(&self.store, &request.ask, planned, steps)
            }
        }
    }

    /// Whether the operation would wait: it is an `in` or `rd` that no tuple matches. It does nothing, copies
    /// nothing and takes no memory.
    pub fn waits<L: Ledger>(&self, request: &Request, steps: &mut Steps<L>) -> bool
        requires idle { self.now.begun ≡ None }
        requires suits { IsTrue (suits self.now.shape (plain_request request.now)) }
        ensures value { result ≡ waits (replay self.now.acts) (plain_request request.now).ask }
        ensures cost { steps.new ≤ steps.old + cost_of self.now.shape.class (replay self.now.acts) (plain_request request.now).ask }
        ensures later { steps.old ≤ steps.new }
    {
        waits_in(&self.store, &request.ask, steps)
    }

    // Does an operation after its growths, where the history may have one more act.
    fn perform<L: Ledger>(
        &mut self,
        request: &Request,
        steps: &mut Steps<L>,
    ) -> Result<Planned, NoMemory>
        requires idle { self.old.begun ≡ None }
        requires few { length self.old.acts + 1 ≤ self.old.limit }
        requires suits { IsTrue (suits self.old.shape (plain_request request.now)) }
        ensures waits { IfOk result (λ planned. IsTrue (waits (replay self.old.acts) (plain_request request.now).ask) → planned ≡ Planned.NotYet) }
        ensures not_yet { result ≡ Ok Planned.NotYet → IsTrue (waits (replay self.old.acts) (plain_request request.now).ask) }
        ensures not_full { result ≡ Ok Planned.Full → ⊥ }
        ensures has_memory { result ≡ Ok Planned.NoMemory → ⊥ }
        ensures begun { result ≡ Ok Planned.Begun → self.new ≡ record {
          shape = self.old.shape;
          limit = self.old.limit;
          acts = self.old.acts;
          begun = Some (record { site = request.now.site; what = answer (replay self.old.acts) (plain_request request.now).ask });
        } }
        ensures not_yet_same { result ≡ Ok Planned.NotYet → self.new ≡ self.old }
        ensures refused { OnErr result (self.new ≡ self.old) }
        ensures uncounted { OnErr result (steps.new ≡ steps.old) }
        ensures cost { steps.new ≤ steps.old + cost_of self.old.shape.class (replay self.old.acts) (plain_request request.now).ask }
        ensures later { steps.old ≤ steps.new }
    {
        self.acts.reserve(1)?;
        let done = begin(
            self.alloc,
            &mut self.store,
            &request.ask,
            &mut self.buffer,
            steps,
        )?;
        match done {
            None => Ok(Planned::NotYet),
            Some(Twice { kept, told }) => {
                self.begun = Some(Begun {
                    site: request.site,
                    kept,
                    told,
                });
                Ok(Planned::Begun)
            }
        }
    }

    /// What is begun. It takes no memory.
    pub fn what(&self) -> &What
        requires { IsSome self.now.begun }
        ensures { what_begun self.now.begun ≡ Some (plain_what result.now) }
    {
        match &self.begun {
            Some(begun) => &begun.kept,
            None => unreachable!(),
        }
    }

    /// Puts what is begun at the history's end, with this ticket and this process, and gives the act. It
    /// takes no memory.
    pub fn seal(&mut self, ticket: u64, name: u64) -> Act
        requires begun { IsSome self.old.begun }
        requires above { IsAbove ticket self.old.acts }
        ensures act { sealed ticket name self.old.begun ≡ plain_act result ∷ [] }
        ensures acts { self.new.acts ≡ self.old.acts ++ plain_act result ∷ [] }
        ensures idle { self.new.begun ≡ None }
        ensures shape { self.new.shape ≡ self.old.shape }
        ensures limit { self.new.limit ≡ self.old.limit }
    {
        let Some(Begun { site, kept, told }) = self.begun.take() else {
            unreachable!()
        };
        let act = Act {
            ticket,
            proc: name,
            site,
            what: kept,
        };
        self.acts.push(act);
        Act {
            ticket,
            proc: name,
            site,
            what: told,
        }
    }

    /// The history. It takes no memory.
    pub fn into_history(self) -> History
        requires { self.begun ≡ None }
        ensures { plain_history result ≡ record { set = self.shape.set; acts = self.acts } }
    {
        let SetCore { shape, acts, .. } = self;
        History {
            set: shape.set,
            acts,
        }
    }

    /// A law: what each set keeps. It does nothing.
    pub fn kept(&self)
        ensures { Keeps self.now }
    {
        let _ = &self.limit;
    }
}

ghost use Rattle.std.specs.Prelude.{◌≡◌, ◌+◌, ◌≤◌, [], All, IsTrue, IfOk, if◌then◌else◌};
ghost use Rattle.cl_value.specs.Views.{plain_ask};
ghost use Rattle.cl_sig.specs.Storable.{IsStorable};
ghost use Rattle.cl_sig.specs.Views.{plain_shape};
ghost use Rattle.cl_store.specs.Answers.{template_of};
ghost use Rattle.cl_value.specs.Answers.{waits};
ghost use Rattle.cl_set.specs.Standing.{Serves};
ghost use Rattle.cl_set.specs.Stores.{content_in, fitted_by, cost_in};

// Whether an operation waits.
#[tactic(auto, using(crate::proofs::Found::asks))]
fn waits_in<L: Ledger>(store: &Store, ask: &Ask, steps: &mut Steps<L>) -> bool
    requires { All (λ m. IsTrue (fitted_by store.now (content_in store.now) m)) (template_of (plain_ask ask.now)) }
    ensures value { result ≡ waits (content_in store.now) (plain_ask ask.now) }
    ensures searches { All (λ m. steps.new ≤ steps.old + cost_in store.now m) (template_of (plain_ask ask.now)) }
    ensures others { template_of (plain_ask ask.now) ≡ [] → steps.new ≡ steps.old }
    ensures later { steps.old ≤ steps.new }
{
    match ask {
        Ask::In(template) | Ask::Rd(template) => !store.has(template, steps),
        _ => false,
    }
}

// `NotYet` exactly where the operation waits, and else the other answer.
fn refuse<L: Ledger>(store: &Store, ask: &Ask, otherwise: Planned, steps: &mut Steps<L>) -> Planned
    requires { All (λ m. IsTrue (fitted_by store.now (content_in store.now) m)) (template_of (plain_ask ask.now)) }
    ensures answer { result ≡ (if waits (content_in store.now) (plain_ask ask.now) then Planned.NotYet else otherwise) }
    ensures searches { All (λ m. steps.new ≤ steps.old + cost_in store.now m) (template_of (plain_ask ask.now)) }
    ensures others { template_of (plain_ask ask.now) ≡ [] → steps.new ≡ steps.old }
    ensures later { steps.old ≤ steps.new }
{
    if waits_in(store, ask, steps) {
        Planned::NotYet
    } else {
        otherwise
    }
}

// The literals of a set whose fields are literals alone.
fn literals_of(alloc: Global, shape: &SetShape) -> Result<Tuple, NoMemory>
    requires storable { IsStorable (plain_shape shape.now) }
    requires counter { shape.now.class ≡ Class.Counter }
    ensures { IfOk result (λ t. t.items ≡ literals shape.now.common.fields.items) }
{
    let mut values = Items::new(alloc);
    values.reserve(shape.common.fields.len())?;
    push_literals(&mut values, shape.common.fields.as_slice());
    Ok(Tuple::new(values))
}

ghost use Rattle.std.specs.Prelude.{◌++◌, length};
ghost use Rattle.std.specs.List.{list_all};
ghost use Rattle.cl_sig.specs.Suits.{is_literal};
ghost use Rattle.cl_set.specs.Conditions.{literals};

// Puts the literals of these fields last, into room that was made before.
fn push_literals(values: &mut Items<Value>, marks: &[Mark])
    requires literals { IsTrue (list_all is_literal marks.now) }
    requires room { length marks.now ≤ values.old.spare }
    ensures items { values.new.items ≡ values.old.items ++ literals marks.now }
    ensures count { length values.new.items ≡ length values.old.items + length marks.now }
{
    match marks {
        [] => {}
        [mark, marks @ ..] => {
            let Mark::Constant(value) = mark else {
                unreachable!()
            };
            values.push(*value);
            push_literals(values, marks);
        }
    }
}

// An empty store of the shape's class.
fn store_of(alloc: Global, shape: &SetShape) -> Result<Store, NoMemory>
    requires { IsStorable (plain_shape shape.now) }
    ensures serves { IfOk result (λ store. Serves (plain_shape shape.now) store) }
    ensures empty { IfOk result (λ store. content_in store ≡ []) }
{
    match shape.class {
        Class::Counter => Ok(Store::Counter(Counter::new(literals_of(alloc, shape)?))),
        Class::Queue => Ok(Store::Queue(Queue::new(alloc))),
        Class::Keyed(field) => Ok(Store::Keyed(Keyed::new(alloc, field as usize))),
        Class::List => Ok(Store::Listed(Listed::new(alloc))),
    }
}
