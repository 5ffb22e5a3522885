use cl_counter::Counter;
use cl_ground::NoMemory;
use cl_keyed::Keyed;
use cl_list::Listed;
use cl_queue::Queue;
use cl_store::TupleStore;
use cl_value::{Steps, Template, Tuple};
use std::sync::ledger::Ledger;

// The store of a set, one kind for each class.
#[derive(Drop)]
pub enum Store {
    // Of class Counter.
    Counter(Counter),
    // Of class Queue.
    Queue(Queue),
    // Of class Keyed.
    Keyed(Keyed),
    // Of class List.
    Listed(Listed),
}

impl TupleStore for Store {
    ghost use Rattle.std.specs.Prelude.{◌≡◌, ◌+◌, ◌≤◌, true, false, [], ◌∷◌, ◌++◌, length, is_some, IsTrue, OnOk, OnErr, IsOk, Some};
    ghost use Rattle.cl_ground.specs.Room.{HasRoom, capacity_of};
    ghost use Rattle.cl_value.specs.Replay.{first_match, found, without_first};
    ghost use Rattle.cl_set.specs.Stores.{class_of, content_in, room_in, admitted_by, fitted_by, cost_in};
    ghost use Rattle.cl_ground.specs.declared.limits.TheConstants.{MOST_FIELDS};

    ghost content = { content_in };

    ghost has_room = { room_in };

    ghost admits = { admitted_by };

    ghost fits = { fitted_by };

    ghost cost = { cost_in };

    fn reserve(&mut self, tuple: &Tuple) -> Result<(), NoMemory>
        requires { IsTrue (admitted_by self.old tuple.now.items) }
        ensures content { content_in self.new ≡ content_in self.old }
        ensures room { OnOk result (IsTrue (room_in self.new tuple.now.items)) }
        ensures succeeds { IsTrue (room_in self.old tuple.now.items) → IsOk result }
        ensures refused { OnErr result (self.new ≡ self.old) }
        ensures admits { admitted_by self.new ≡ admitted_by self.old }
        ensures fits { fitted_by self.new ≡ fitted_by self.old }
        ensures class { class_of self.new ≡ class_of self.old }
    {
        match self {
            Store::Counter(counter) => counter.reserve(tuple),
            Store::Queue(queue) => queue.reserve(tuple),
            Store::Keyed(keyed) => keyed.reserve(tuple),
            Store::Listed(listed) => listed.reserve(tuple),
        }
    }

    fn add(&mut self, tuple: &Tuple)
        requires admitted { IsTrue (admitted_by self.old tuple.now.items) }
        requires room { IsTrue (room_in self.old tuple.now.items) }
        ensures content { content_in self.new ≡ content_in self.old ++ tuple.now.items ∷ [] }
        ensures admits { admitted_by self.new ≡ admitted_by self.old }
        ensures fits { fitted_by self.new ≡ fitted_by self.old }
        ensures class { class_of self.new ≡ class_of self.old }
    {
        match self {
            Store::Counter(counter) => counter.add(tuple),
            Store::Queue(queue) => queue.add(tuple),
            Store::Keyed(keyed) => keyed.add(tuple),
            Store::Listed(listed) => listed.add(tuple),
        }
    }

    fn take<L: Ledger>(
        &mut self,
        template: &Template,
        into: &mut Tuple,
        steps: &mut Steps<L>,
    ) -> bool
        requires fits { IsTrue (fitted_by self.old (content_in self.old) template.now.items) }
        requires room { HasRoom MOST_FIELDS into.old }
        ensures value { result ≡ is_some (first_match (content_in self.old) template.now.items) }
        ensures taken { result ≡ true → found (content_in self.old) template.now.items ≡ Some into.new.items }
        ensures left { result ≡ true → content_in self.new ≡ without_first (content_in self.old) template.now.items }
        ensures unchanged { result ≡ false → (self.new ≡ self.old) × (into.new ≡ into.old) }
        ensures room { capacity_of into.new ≡ capacity_of into.old }
        ensures cost { steps.new ≤ steps.old + cost_in self.old template.now.items }
        ensures later { steps.old ≤ steps.new }
        ensures admits { admitted_by self.new ≡ admitted_by self.old }
        ensures fits { fitted_by self.new ≡ fitted_by self.old }
        ensures class { class_of self.new ≡ class_of self.old }
    {
        match self {
            Store::Counter(counter) => counter.take(template, into, steps),
            Store::Queue(queue) => queue.take(template, into, steps),
            Store::Keyed(keyed) => keyed.take(template, into, steps),
            Store::Listed(listed) => listed.take(template, into, steps),
        }
    }

    fn find<L: Ledger>(&self, template: &Template, into: &mut Tuple, steps: &mut Steps<L>) -> bool {
        match self {
            Store::Counter(counter) => counter.find(template, into, steps),
            Store::Queue(queue) => queue.find(template, into, steps),
            Store::Keyed(keyed) => keyed.find(template, into, steps),
            Store::Listed(listed) => listed.find(template, into, steps),
        }
    }

    fn has<L: Ledger>(&self, template: &Template, steps: &mut Steps<L>) -> bool {
        match self {
            Store::Counter(counter) => counter.has(template, steps),
            Store::Queue(queue) => queue.has(template, steps),
            Store::Keyed(keyed) => keyed.has(template, steps),
            Store::Listed(listed) => listed.has(template, steps),
        }
    }

    fn len(&self) -> u64 {
        match self {
            Store::Counter(counter) => counter.len(),
            Store::Queue(queue) => queue.len(),
            Store::Keyed(keyed) => keyed.len(),
            Store::Listed(listed) => listed.len(),
        }
    }
}
