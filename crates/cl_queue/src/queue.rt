use cl_ground::NoMemory;
use cl_store::{NextTuple, TupleStore};
use cl_value::{Steps, Template, Tuple};
use std::alloc::{AllocError, Global};
use std::collections::VecDeque;
use std::marker::Model;
use std::sync::ledger::Ledger;

/// Tuples that leave in the order in which they came.
///
/// It admits every tuple, and fits a template that matches every tuple of the content. Contracts see its
/// tuples in order of adding, and for how many fields a tuple can be added without a growth. A tuple takes
/// memory by its own fields. (This project.)
#[derive(Drop)]
pub struct Queue {
    tuples: VecDeque<Tuple>,
    next: NextTuple,
}

impl Model for Queue {
    ghost use Rattle.std.specs.Prelude.{◌-◌, map};
    ghost use Rattle.std.specs.VecDeque.{deque_len, deque_capacity};
    ghost use Rattle.cl_store.specs.Rooms.{Stored, room_in};

    ghost Value = { Stored };

    ghost view = { λ q. record { tuples = map (λ t. t.items) q.tuples.items; room = room_in (deque_capacity q.tuples - deque_len q.tuples) q.next } };
}

impl Queue {
    ghost use Rattle.std.specs.Prelude.{◌≡◌, []};
    ghost use Rattle.cl_store.specs.Rooms.{Stored};

    /// A queue of no tuple. It keeps the allocator for its later growths, and takes no memory.
    pub fn new(alloc: Global) -> Queue
        ensures tuples { result.tuples ≡ [] }
        ensures room { result.room ≡ 0 }
    {
        Queue {
            tuples: VecDeque::new(alloc),
            next: NextTuple::new(alloc),
        }
    }
}

impl TupleStore for Queue {
    ghost use Rattle.std.specs.Prelude.{true};
    ghost use Rattle.std.specs.List.{list_all};
    ghost use Rattle.cl_value.specs.Matching.{matches};
    ghost use Rattle.cl_store.specs.Rooms.{Stored, has_just};

    ghost content = { λ q. q.tuples };

    ghost has_room = { λ q t. has_just q.room t };

    ghost admits = { λ q t. true };

    ghost fits = { λ q ts m. list_all (matches m) ts };

    ghost cost = { λ q m. 0 };

    fn reserve(&mut self, tuple: &Tuple) -> Result<(), NoMemory> {
        self.next.make_room(tuple)?;
        match self.tuples.reserve(1) {
            Ok(()) => Ok(()),
            Err(AllocError) => {
                self.next.discard();
                Err(NoMemory)
            }
        }
    }

    fn add(&mut self, tuple: &Tuple) {
        let added = self.next.fill(tuple);
        self.tuples.push_back_reserved(added);
    }

    #[tactic(auto, using(cl_store::proofs::Matches::fronts))]
    fn take<L: Ledger>(
        &mut self,
        _template: &Template,
        into: &mut Tuple,
        _steps: &mut Steps<L>,
    ) -> bool {
        match self.tuples.pop_front() {
            None => false,
            Some(oldest) => {
                into.refill(&oldest);
                true
            }
        }
    }

    #[tactic(auto, using(cl_store::proofs::Matches::fronts))]
    fn find<L: Ledger>(
        &self,
        _template: &Template,
        into: &mut Tuple,
        _steps: &mut Steps<L>,
    ) -> bool {
        match self.tuples.front() {
            None => false,
            Some(oldest) => {
                into.refill(oldest);
                true
            }
        }
    }

    #[tactic(auto, using(cl_store::proofs::Matches::fronts))]
    fn has<L: Ledger>(&self, _template: &Template, _steps: &mut Steps<L>) -> bool {
        self.tuples.front().is_some()
    }

    fn len(&self) -> u64 {
        self.tuples.len() as u64
    }
}
