use cl_ground::{Items, NoMemory};
use cl_store::{NextTuple, TupleStore};
use cl_value::{Steps, Template, Tuple};
use std::alloc::Global;
use std::marker::Model;
use std::sync::ledger::Ledger;

/// A list of tuples that is searched from its oldest tuple on.
///
/// Contracts see its tuples in order of adding, and for how many fields a tuple can be added without a
/// growth. A tuple takes memory by its own fields. (This project.)
#[derive(Drop)]
pub struct Listed {
    tuples: Items<Tuple>,
    next: NextTuple,
}

impl Model for Listed {
    ghost use Rattle.std.specs.Prelude.{map};
    ghost use Rattle.cl_store.specs.Rooms.{Stored, room_in};

    ghost Value = { Stored };

    ghost view = { λ l. record { tuples = map (λ t. t.items) l.tuples.items; room = room_in l.tuples.spare l.next } };
}

impl Listed {
    ghost use Rattle.std.specs.Prelude.{◌≡◌, ◌+◌, ◌<◌, ◌≤◌, [], length, remove, IsNone, OnSome, Some};
    ghost use Rattle.cl_ground.specs.Room.{HasRoom, capacity_of};
    ghost use Rattle.cl_value.specs.Replay.{first_match, found};
    ghost use Rattle.cl_store.specs.Rooms.{Stored};
    ghost use Rattle.cl_ground.specs.declared.limits.TheConstants.{MOST_FIELDS};

    /// A list of no tuple. It keeps the allocator for its later growths, and takes no memory.
    pub fn new(alloc: Global) -> Listed
        ensures tuples { result.tuples ≡ [] }
        ensures room { result.room ≡ 0 }
    {
        Listed {
            tuples: Items::new(alloc),
            next: NextTuple::new(alloc),
        }
    }

    // The place of the first tuple that matches, whose fields it puts into `into`.
    #[tactic(auto, using(cl_store::proofs::Matches::reads))]
    fn copy_first<L: Ledger>(
        &self,
        template: &Template,
        into: &mut Tuple,
        steps: &mut Steps<L>,
    ) -> Option<usize>
        requires { HasRoom MOST_FIELDS into.old }
        ensures place { result ≡ first_match self.now.tuples template.now.items }
        ensures read { OnSome result (found self.now.tuples template.now.items ≡ Some into.new.items) }
        ensures unchanged { IsNone result → into.new ≡ into.old }
        ensures room { capacity_of into.new ≡ capacity_of into.old }
        ensures cost { steps.new ≤ steps.old + length self.now.tuples }
        ensures later { steps.old ≤ steps.new }
    {
        let place = search(self.tuples.as_slice(), template, steps)?;
        into.refill(self.tuples.at(place));
        Some(place)
    }

    // Takes out the tuple at a place.
    fn remove(&mut self, place: usize)
        requires { place < length self.old.tuples }
        ensures { self.new.tuples ≡ remove self.old.tuples place }
    {
        let _ = self.tuples.remove(place);
    }
}

impl TupleStore for Listed {
    ghost use Rattle.std.specs.Prelude.{◌≡◌, true, length};
    ghost use Rattle.cl_store.specs.Rooms.{Stored, has_just};

    ghost content = { λ l. l.tuples };

    ghost has_room = { λ l t. has_just l.room t };

    ghost admits = { λ l t. true };

    ghost fits = { λ l ts m. true };

    ghost cost = { λ l m. length l.tuples };

    fn reserve(&mut self, tuple: &Tuple) -> Result<(), NoMemory> {
        self.next.make_room(tuple)?;
        self.tuples.reserve(1)
    }

    fn add(&mut self, tuple: &Tuple) {
        let added = self.next.fill(tuple);
        self.tuples.push(added);
    }

    #[tactic(auto, using(cl_store::proofs::Matches::finds))]
    fn take<L: Ledger>(
        &mut self,
        template: &Template,
        into: &mut Tuple,
        steps: &mut Steps<L>,
    ) -> bool {
        match self.copy_first(template, into, steps) {
            None => false,
            Some(place) => {
                self.remove(place);
                true
            }
        }
    }

    #[tactic(auto, using(cl_store::proofs::Matches::finds))]
    fn find<L: Ledger>(&self, template: &Template, into: &mut Tuple, steps: &mut Steps<L>) -> bool {
        self.copy_first(template, into, steps).is_some()
    }

    fn has<L: Ledger>(&self, template: &Template, steps: &mut Steps<L>) -> bool {
        search(self.tuples.as_slice(), template, steps).is_some()
    }

    fn len(&self) -> u64 {
        self.tuples.len() as u64
    }
}

ghost use Rattle.std.specs.Prelude.{◌≡◌, ◌+◌, ◌≤◌, length, map};
ghost use Rattle.cl_ground.specs.Room.{Room, HasRoom, capacity_of};
ghost use Rattle.cl_value.specs.Replay.{first_match};

// The place of the first tuple that matches, after at most one comparison for each tuple.
#[tactic(auto, using(cl_store::proofs::Matches::searches))]
fn search<L: Ledger>(tuples: &[Tuple], template: &Template, steps: &mut Steps<L>) -> Option<usize>
    ensures place { result ≡ first_match (map (λ t. t.items) tuples.now) template.now.items }
    ensures cost { steps.new ≤ steps.old + length tuples.now }
    ensures later { steps.old ≤ steps.new }
{
    for (place, tuple) in tuples.iter().enumerate() {
        if template.test(tuple, steps) {
            return Some(place);
        }
    }
    None
}
