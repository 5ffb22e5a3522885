use crate::key::Key;
use crate::line::Line;
use cl_ground::NoMemory;
use cl_value::{Steps, Template, Tuple};
use indexmap::IndexMap;
use std::alloc::{AllocError, Global};
use std::marker::Model;
use std::sync::ledger::Ledger;

/// Where a tuple stands: the place of its key's list, and its place in that list.
#[derive(Clone, Copy)]
pub struct Place {
    pub line: usize,
    pub row: usize,
}

/// A list of tuples for each key that some tuple has.
///
/// Contracts see the lists with their keys, and for how many more keys there is room.
#[derive(Drop)]
pub struct Table {
    lines: IndexMap<Key, Line>,
}

impl Model for Table {
    ghost use Rattle.indexmap.specs.IndexMap.{spare};
    ghost use Rattle.cl_keyed.specs.Tables.{Lines};

    ghost Value = { Lines };

    ghost view = { λ t. record { lines = t.lines.entries; spare = spare t.lines } };
}

impl Table {
    ghost use Rattle.std.specs.Prelude.{◌≡◌, ◌+◌, ◌<◌, ◌≤◌, ℕ, List, [], ◌∷◌, ◌++◌, length, map, remove, is_some, IsNone, OnOk, OnSome, IfSome, IfNone, IsTrue, None, Some};
    ghost use Rattle.cl_ground.specs.Room.{Room, HasRoom, capacity_of};
    ghost use Rattle.cl_value.specs.Replay.{first_match, found, without_first};
    ghost use Rattle.cl_value.specs.declared.template.Slot.{Slot};
    ghost use Rattle.cl_keyed.specs.Keys.{asked_at, has_actual};
    ghost use Rattle.cl_keyed.specs.Rows.{Row, tuple_of, content_of, Holds};
    ghost use Rattle.indexmap.specs.IndexMap.{set_value_at};
    ghost use Rattle.cl_keyed.specs.Tables.{Lines, tuples_with, StandsAt, Others, IsFirst, Full, FullBut, items_at, spare_at};
    ghost use Rattle.cl_ground.specs.declared.limits.TheConstants.{MOST_FIELDS};

    /// No list.
    pub fn new(alloc: Global) -> Table
        ensures { result.lines ≡ [] }
    {
        Table {
            lines: IndexMap::new(alloc),
        }
    }

    /// The place of the list of a key, where there is one. It hashes the key once.
    pub fn place_of(&self, key: Key) -> Option<usize>
        ensures found { IfSome result (λ i. StandsAt key i self.now.lines) }
        ensures none { IfNone result (Others key self.now.lines) }
    {
        self.lines.get_index_of(&key)
    }

    /// The place of the first tuple of a list that matches, whose fields it puts into `into`.
    fn first<L: Ledger>(
        &self,
        place: usize,
        template: &Template,
        into: &mut Tuple,
        steps: &mut Steps<L>,
    ) -> Option<usize>
        requires place { place < length self.now.lines }
        requires room { HasRoom MOST_FIELDS into.old }
        ensures first { result ≡ first_match (map tuple_of (items_at self.now.lines place)) template.now.items }
        ensures read { OnSome result (found (map tuple_of (items_at self.now.lines place)) template.now.items ≡ Some into.new.items) }
        ensures unchanged { IsNone result → into.new ≡ into.old }
        ensures room { capacity_of into.new ≡ capacity_of into.old }
        ensures cost { steps.new ≤ steps.old + length (items_at self.now.lines place) }
        ensures later { steps.old ≤ steps.new }
    {
        self.lines[place].first(template, into, steps)
    }

    /// Where the first tuple stands that matches, whose fields it puts into `into`. It hashes the template's
    /// key once, and compares no tuple of another key.
    pub fn find<L: Ledger>(
        &self,
        field: usize,
        template: &Template,
        into: &mut Tuple,
        steps: &mut Steps<L>,
    ) -> Option<Place>
        requires actual { IsTrue (has_actual field template.now.items) }
        requires room { HasRoom MOST_FIELDS into.old }
        ensures found { IfSome result (λ p. (n : ℕ) → Holds field n self.now.lines → found (content_of n self.now.lines) template.now.items ≡ Some into.new.items) }
        ensures none { IfNone result ((n : ℕ) → Holds field n self.now.lines → found (content_of n self.now.lines) template.now.items ≡ None) }
        ensures place { IfSome result (λ p. IsFirst field template.now.items p.line p.row self.now.lines) }
        ensures cost { (n : ℕ) → Holds field n self.now.lines → steps.new ≤ steps.old + tuples_with field (asked_at field template.now.items) (content_of n self.now.lines) }
        ensures unchanged { IsNone result → into.new ≡ into.old }
        ensures room { capacity_of into.new ≡ capacity_of into.old }
        ensures later { steps.old ≤ steps.new }
    {
        let Some(key) = Key::asked(template.slots(), field) else {
            return None;
        };
        let Some(line) = self.place_of(key) else {
            return None;
        };
        let Some(row) = self.first(line, template, into, steps) else {
            return None;
        };
        Some(Place { line, row })
    }

    /// Whether some tuple of a list matches.
    fn has_in<L: Ledger>(&self, place: usize, template: &Template, steps: &mut Steps<L>) -> bool
        requires { place < length self.now.lines }
        ensures value { result ≡ is_some (first_match (map tuple_of (items_at self.now.lines place)) template.now.items) }
        ensures cost { steps.new ≤ steps.old + length (items_at self.now.lines place) }
        ensures later { steps.old ≤ steps.new }
    {
        self.lines[place].has(template, steps)
    }

    /// Whether some tuple matches. It hashes the template's key once, compares no tuple of another key, and
    /// copies nothing.
    pub fn has<L: Ledger>(&self, field: usize, template: &Template, steps: &mut Steps<L>) -> bool
        requires { IsTrue (has_actual field template.now.items) }
        ensures value { (n : ℕ) → Holds field n self.now.lines → result ≡ is_some (first_match (content_of n self.now.lines) template.now.items) }
        ensures cost { (n : ℕ) → Holds field n self.now.lines → steps.new ≤ steps.old + tuples_with field (asked_at field template.now.items) (content_of n self.now.lines) }
        ensures later { steps.old ≤ steps.new }
    {
        let Some(key) = Key::asked(template.slots(), field) else {
            return false;
        };
        let Some(line) = self.place_of(key) else {
            return false;
        };
        self.has_in(line, template, steps)
    }

    /// Takes out a tuple, and its key with the last tuple of that key.
    pub fn take_out(&mut self, place: Place)
        requires line { place.line < length self.old.lines }
        requires row { place.row < length (items_at self.old.lines place.line) }
        ensures full { Full self.old.lines → Full self.new.lines }
        ensures left { (field n : ℕ) (m : List Slot) → Holds field n self.old.lines → IsFirst field m place.line place.row self.old.lines
            → (content_of n self.new.lines ≡ without_first (content_of n self.old.lines) m) × Holds field n self.new.lines }
    {
        self.remove(place.line, place.row);
        self.drop_empty(place.line);
    }

    /// Takes out a tuple of a list.
    fn remove(&mut self, place: usize, at: usize)
        requires place { place < length self.old.lines }
        requires at { at < length (items_at self.old.lines place) }
        ensures { (next : Room Row) × ((self.new.lines ≡ set_value_at self.old.lines place next)
            × (next.items ≡ remove (items_at self.old.lines place) at)) }
    {
        let line = &mut self.lines[place];
        line.remove(at);
    }

    /// Makes room for one more tuple in a list.
    pub fn reserve(&mut self, place: usize) -> Result<(), NoMemory>
        requires { place < length self.old.lines }
        ensures lines { (next : Room Row) × ((self.new.lines ≡ set_value_at self.old.lines place next)
            × (next.items ≡ items_at self.old.lines place)
            × (OnOk result (0 < next.spare))
            × (0 < spare_at self.old.lines place → 0 < next.spare)) }
        ensures spare { self.new.spare ≡ self.old.spare }
    {
        let line = &mut self.lines[place];
        line.reserve()
    }

    /// Puts a tuple last in a list.
    pub fn push(&mut self, place: usize, number: u64, tuple: Tuple)
        requires place { place < length self.old.lines }
        requires room { 0 < spare_at self.old.lines place }
        ensures { (next : Room Row) × ((self.new.lines ≡ set_value_at self.old.lines place next)
            × (next.items ≡ items_at self.old.lines place ++ record { number = number; tuple = tuple.items } ∷ [])) }
    {
        let line = &mut self.lines[place];
        line.push(number, tuple);
    }

    /// Makes room for one more list.
    pub fn reserve_line(&mut self) -> Result<(), NoMemory>
        ensures lines { self.new.lines ≡ self.old.lines }
        ensures room { OnOk result (0 < self.new.spare) }
        ensures kept { self.old.spare ≤ self.new.spare }
    {
        match self.lines.reserve(1) {
            Ok(()) => Ok(()),
            Err(AllocError) => Err(NoMemory),
        }
    }

    /// Puts a list last, of a key that none had. It hashes the key once.
    pub fn push_line(&mut self, key: Key, line: Line)
        requires others { Others key self.old.lines }
        requires room { 0 < self.old.spare }
        ensures { self.new.lines ≡ self.old.lines ++ (key, line) ∷ [] }
    {
        if self.lines.insert(key, line).is_err() {
            unreachable!();
        }
    }

    /// Lets a list go that has no tuple; the last list takes its place. Nothing else changes: the tuples in
    /// order of adding stay.
    fn drop_empty(&mut self, place: usize)
        requires { place < length self.old.lines }
        ensures full { FullBut place self.old.lines → Full self.new.lines }
        ensures kept { (field n : ℕ) → Holds field n self.old.lines → (content_of n self.new.lines ≡ content_of n self.old.lines) × Holds field n self.new.lines }
    {
        if self.lines[place].is_empty() {
            let _ = self.lines.swap_remove_index(place);
        }
    }
}
