use cl_ground::NoMemory;
use cl_value::{Steps, Template, Tuple};
use std::alloc::{AllocError, Global};
use std::collections::VecDeque;
use std::marker::Model;
use std::sync::ledger::Ledger;

/// A tuple with its number: how many tuples were added to the store before it.
#[derive(Drop)]
pub struct Dated {
    pub number: u64,
    pub tuple: Tuple,
}

/// The tuples of one key, in order of adding.
///
/// Contracts see them with their numbers, and for how many more there is room.
#[derive(Drop)]
pub struct Line {
    rows: VecDeque<Dated>,
}

impl Model for Line {
    ghost use Rattle.std.specs.Prelude.{◌-◌, map};
    ghost use Rattle.std.specs.VecDeque.{deque_len, deque_capacity};
    ghost use Rattle.cl_ground.specs.Room.{Room};
    ghost use Rattle.cl_keyed.specs.Rows.{Row};
    ghost use Rattle.cl_keyed.specs.DatedRows.{row_of};

    ghost Value = { Room Row };

    ghost view = { λ l. record { items = map row_of l.rows.items; spare = deque_capacity l.rows - deque_len l.rows } };
}

impl Line {
    ghost use Rattle.std.specs.Prelude.{◌≡◌, ◌+◌, ◌-◌, ◌<◌, ◌≤◌, [], ◌∷◌, ◌++◌, ◌==◌, length, map, remove, is_some, IsOk, IsNone, OnOk, OnSome, Some};
    ghost use Rattle.cl_ground.specs.Room.{Room, HasRoom, capacity_of};
    ghost use Rattle.cl_value.specs.Replay.{first_match, found};
    ghost use Rattle.cl_keyed.specs.Rows.{Row, tuple_of};
    ghost use Rattle.cl_ground.specs.declared.limits.TheConstants.{MOST_FIELDS};

    /// No tuple, and no room.
    pub fn new(alloc: Global) -> Line
        ensures items { result.items ≡ [] }
    {
        Line {
            rows: VecDeque::new(alloc),
        }
    }

    /// Makes room for one more. `NoMemory` comes only where there was none.
    pub fn reserve(&mut self) -> Result<(), NoMemory>
        ensures items { self.new.items ≡ self.old.items }
        ensures room { OnOk result (0 < self.new.spare) }
        ensures kept { 0 < self.old.spare → 0 < self.new.spare }
        ensures succeeds { 0 < self.old.spare → IsOk result }
    {
        match self.rows.reserve(1) {
            Ok(()) => Ok(()),
            Err(AllocError) => Err(NoMemory),
        }
    }

    /// Puts a tuple last.
    pub fn push(&mut self, number: u64, tuple: Tuple)
        requires { 0 < self.old.spare }
        ensures items { self.new.items ≡ self.old.items ++ record { number = number; tuple = tuple.items } ∷ [] }
    {
        self.rows.push_back_reserved(Dated { number, tuple });
    }

    /// The place of the first tuple that matches, whose fields it puts into `into`.
    #[tactic(auto, using(cl_store::proofs::Matches::reads))]
    pub fn first<L: Ledger>(
        &self,
        template: &Template,
        into: &mut Tuple,
        steps: &mut Steps<L>,
    ) -> Option<usize>
        requires { HasRoom MOST_FIELDS into.old }
        ensures place { result ≡ first_match (map tuple_of self.now.items) template.now.items }
        ensures read { OnSome result (found (map tuple_of self.now.items) template.now.items ≡ Some into.new.items) }
        ensures unchanged { IsNone result → into.new ≡ into.old }
        ensures room { capacity_of into.new ≡ capacity_of into.old }
        ensures cost { steps.new ≤ steps.old + length self.now.items }
        ensures later { steps.old ≤ steps.new }
    {
        let Some(place) = search(&self.rows, template, steps) else {
            return None;
        };
        let row = &self.rows[place];
        into.refill(&row.tuple);
        Some(place)
    }

    /// Whether some tuple matches. It copies nothing.
    pub fn has<L: Ledger>(&self, template: &Template, steps: &mut Steps<L>) -> bool
        ensures value { result ≡ is_some (first_match (map tuple_of self.now.items) template.now.items) }
        ensures cost { steps.new ≤ steps.old + length self.now.items }
        ensures later { steps.old ≤ steps.new }
    {
        search(&self.rows, template, steps).is_some()
    }

    /// Takes out the tuple at a place.
    pub fn remove(&mut self, place: usize)
        requires { place < length self.old.items }
        ensures items { self.new.items ≡ remove self.old.items place }
    {
        if self.rows.remove(place).is_none() {
            unreachable!();
        }
    }

    /// Whether there is no tuple.
    pub fn is_empty(&self) -> bool
        ensures { result ≡ (length self.now.items == 0) }
    {
        self.rows.is_empty()
    }
}

ghost use Rattle.std.specs.Prelude.{◌≡◌, ◌+◌, ◌≤◌, length, map};
ghost use Rattle.cl_value.specs.Replay.{first_match};
ghost use Rattle.cl_keyed.specs.DatedRows.{values_of};

// The place of the first tuple that matches, after at most one comparison for each tuple.
#[tactic(auto, using(cl_store::proofs::Matches::searches))]
fn search<L: Ledger>(
    rows: &VecDeque<Dated>,
    template: &Template,
    steps: &mut Steps<L>,
) -> Option<usize>
    ensures place { result ≡ first_match (map values_of rows.now.items) template.now.items }
    ensures cost { steps.new ≤ steps.old + length rows.now.items }
    ensures later { steps.old ≤ steps.new }
{
    for place in 0..rows.len() {
        let row = &rows[place];
        if template.test(&row.tuple, steps) {
            return Some(place);
        }
    }
    None
}
