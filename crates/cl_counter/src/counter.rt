use cl_ground::NoMemory;
use cl_store::TupleStore;
use cl_value::{Steps, Template, Tuple};
use std::marker::Model;
use std::sync::ledger::Ledger;

/// One tuple, and how often it is there.
///
/// It admits that tuple alone, and fits the templates that match it. It takes no memory besides the tuple,
/// whatever its count. (This project.)
#[derive(Drop)]
pub struct Counter {
    tuple: Tuple,
    count: u64,
}

impl Model for Counter {
    ghost use Rattle.cl_counter.specs.Counting.{Counting};

    ghost Value = { Counting };

    ghost view = { λ c. record { tuple = c.tuple.items; count = c.count } };
}

impl Counter {
    ghost use Rattle.std.specs.Prelude.{◌≡◌};
    ghost use Rattle.cl_ground.specs.Room.{Room};
    ghost use Rattle.cl_counter.specs.Counting.{Counting};

    /// A counter of this tuple, which is not there yet. It takes no memory.
    pub fn new(tuple: Tuple) -> Counter
        ensures tuple { result.tuple ≡ tuple.items }
        ensures none { result.count ≡ 0 }
    {
        Counter { tuple, count: 0 }
    }
}

impl TupleStore for Counter {
    ghost use Rattle.std.specs.Prelude.{ltb, replicate};
    ghost use Rattle.std.below.core.specs.declared.int.u64.TheConstants.{MAX};
    ghost use Rattle.cl_value.specs.Matching.{same_tuple, matches};
    ghost use Rattle.cl_counter.specs.Counting.{Counting};

    ghost content = { λ c. replicate c.count c.tuple };

    ghost has_room = { λ c t. ltb c.count MAX };

    ghost admits = { λ c t. same_tuple c.tuple t };

    ghost fits = { λ c ts m. matches m c.tuple };

    ghost cost = { λ c m. 0 };

    // There is room up to the last number of 64 bits.
    fn reserve(&mut self, _tuple: &Tuple) -> Result<(), NoMemory> {
        if self.count < u64::MAX {
            Ok(())
        } else {
            Err(NoMemory)
        }
    }

    #[tactic(auto, using(crate::proofs::Copies::counted))]
    fn add(&mut self, _tuple: &Tuple) {
        self.count += 1;
    }

    #[tactic(auto, using(crate::proofs::Copies::counted))]
    fn take<L: Ledger>(
        &mut self,
        _template: &Template,
        into: &mut Tuple,
        _steps: &mut Steps<L>,
    ) -> bool {
        if self.count == 0 {
            return false;
        }
        self.count -= 1;
        into.refill(&self.tuple);
        true
    }

    #[tactic(auto, using(crate::proofs::Copies::counted))]
    fn find<L: Ledger>(
        &self,
        _template: &Template,
        into: &mut Tuple,
        _steps: &mut Steps<L>,
    ) -> bool {
        if self.count == 0 {
            return false;
        }
        into.refill(&self.tuple);
        true
    }

    #[tactic(auto, using(crate::proofs::Copies::counted))]
    fn has<L: Ledger>(&self, _template: &Template, _steps: &mut Steps<L>) -> bool {
        self.count != 0
    }

    fn len(&self) -> u64 {
        self.count
    }
}
