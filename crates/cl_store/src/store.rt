use cl_ground::NoMemory;
use cl_value::{Steps, Template, Tuple};
use std::sync::ledger::Ledger;

/// A list of tuples in order of adding, out of which the first that matches is taken or read. (Linda:
/// Gelernter 1985. That the oldest match is taken: this project.)
///
/// Only `reserve` takes memory, so that a caller makes all its growths before its first effect.
pub trait TupleStore {
    ghost use Rattle.std.specs.Prelude.{◌≡◌, ◌+◌, ◌≤◌, ℕ, Bool, true, false, List, [], ◌∷◌, ◌++◌, length, is_some, IsTrue, IsOk, OnOk, OnErr, Some};
    ghost use Rattle.cl_ground.specs.Room.{HasRoom, capacity_of};
    ghost use Rattle.cl_value.specs.Replay.{first_match, found, without_first};
    ghost use Rattle.cl_value.specs.declared.value.Value.{Value};
    ghost use Rattle.cl_value.specs.declared.template.Slot.{Slot};
    ghost use Rattle.cl_ground.specs.declared.limits.TheConstants.{MOST_FIELDS};

    /// The tuples in order of adding.
    ghost content: { Self → List (List Value) };

    /// Whether a tuple can be added without a growth.
    ghost has_room: { Self → List Value → Bool };

    /// Whether the store takes a tuple at all.
    ghost admits: { Self → List Value → Bool };

    /// Whether the store finds the first match of a template in such a content.
    ghost fits: { Self → List (List Value) → List Slot → Bool };

    /// The most comparisons that a search for a template makes.
    ghost cost: { Self → List Slot → ℕ };

    /// Makes room for the tuple, all that the next `add` of it needs. The content stays, whatever the
    /// answer.
    ///
    /// `NoMemory` comes only where that room was missing, and then nothing has changed.
    fn reserve(&mut self, tuple: &Tuple) -> Result<(), NoMemory>
        requires { IsTrue (admits self.old tuple.now.items) }
        ensures content { content self.new ≡ content self.old }
        ensures room { OnOk result (IsTrue (has_room self.new tuple.now.items)) }
        ensures succeeds { IsTrue (has_room self.old tuple.now.items) → IsOk result }
        ensures refused { OnErr result (self.new ≡ self.old) }
        ensures admits { admits self.new ≡ admits self.old }
        ensures fits { fits self.new ≡ fits self.old };

    /// Puts an equal tuple last, into room that was made before. It takes no memory.
    fn add(&mut self, tuple: &Tuple)
        requires admitted { IsTrue (admits self.old tuple.now.items) }
        requires room { IsTrue (has_room self.old tuple.now.items) }
        ensures content { content self.new ≡ content self.old ++ tuple.now.items ∷ [] }
        ensures admits { admits self.new ≡ admits self.old }
        ensures fits { fits self.new ≡ fits self.old };

    /// Takes out the first tuple that matches, and puts its fields into `into`. False comes exactly where
    /// none matches, and then store and `into` stay. It takes no memory.
    fn take<L: Ledger>(
        &mut self,
        template: &Template,
        into: &mut Tuple,
        steps: &mut Steps<L>,
    ) -> bool
        requires fits { IsTrue (fits self.old (content self.old) template.now.items) }
        requires room { HasRoom MOST_FIELDS into.old }
        ensures value { result ≡ is_some (first_match (content self.old) template.now.items) }
        ensures taken { result ≡ true → found (content self.old) template.now.items ≡ Some into.new.items }
        ensures left { result ≡ true → content self.new ≡ without_first (content self.old) template.now.items }
        ensures unchanged { result ≡ false → (self.new ≡ self.old) × (into.new ≡ into.old) }
        ensures room { capacity_of into.new ≡ capacity_of into.old }
        ensures cost { steps.new ≤ steps.old + cost self.old template.now.items }
        ensures later { steps.old ≤ steps.new }
        ensures admits { admits self.new ≡ admits self.old }
        ensures fits { fits self.new ≡ fits self.old };

    /// Puts the fields of the first tuple that matches into `into`, and leaves it in the store. False comes
    /// exactly where none matches, and then `into` stays. It takes no memory.
    fn find<L: Ledger>(&self, template: &Template, into: &mut Tuple, steps: &mut Steps<L>) -> bool
        requires fits { IsTrue (fits self.now (content self.now) template.now.items) }
        requires room { HasRoom MOST_FIELDS into.old }
        ensures value { result ≡ is_some (first_match (content self.now) template.now.items) }
        ensures read { result ≡ true → found (content self.now) template.now.items ≡ Some into.new.items }
        ensures unchanged { result ≡ false → into.new ≡ into.old }
        ensures room { capacity_of into.new ≡ capacity_of into.old }
        ensures cost { steps.new ≤ steps.old + cost self.now template.now.items }
        ensures later { steps.old ≤ steps.new };

    /// Whether some tuple matches. It copies nothing and takes no memory.
    fn has<L: Ledger>(&self, template: &Template, steps: &mut Steps<L>) -> bool
        requires fits { IsTrue (fits self.now (content self.now) template.now.items) }
        ensures value { result ≡ is_some (first_match (content self.now) template.now.items) }
        ensures cost { steps.new ≤ steps.old + cost self.now template.now.items }
        ensures later { steps.old ≤ steps.new };

    /// The number of tuples.
    #[allow(clippy::len_without_is_empty)]
    fn len(&self) -> u64
        ensures { result ≡ length (content self.now) };
}
