use cl_ground::{Items, NoMemory};
use cl_value::{Tuple, Value};
use std::alloc::Global;
use std::marker::Model;
use std::mem::replace;

/// Memory that was made ahead for the fields of the next tuple, so that a store adds it without a growth.
///
/// Contracts see the number of fields for which it was made: 0 where none is ready. A tuple that is made
/// of it takes memory by its own fields. (This project.)
#[derive(Drop)]
pub struct NextTuple {
    fields: Items<Value>,
    count: usize,
    alloc: Global,
}

impl Model for NextTuple {
    ghost use Rattle.std.specs.Prelude.{◌≡◌, ◌≤◌, ℕ, []};

    ghost Value = { ℕ };

    ghost view = { λ n. n.count };

    ghost invariant = { λ n. (n.fields.items ≡ []) × (n.count ≤ n.fields.spare) };
}

impl NextTuple {
    ghost use Rattle.std.specs.Prelude.{◌≡◌, ◌<◌, length, IsOk, OnOk, OnErr};
    ghost use Rattle.cl_ground.specs.Room.{Room};

    /// No memory is ready. It keeps the allocator for later.
    pub fn new(alloc: Global) -> NextTuple
        ensures { result ≡ 0 }
    {
        NextTuple {
            fields: Items::new(alloc),
            count: 0,
            alloc,
        }
    }

    /// Makes memory for as many fields as the tuple has.
    ///
    /// `NoMemory` comes only where it was not ready, and then nothing has changed.
    pub fn make_room(&mut self, tuple: &Tuple) -> Result<(), NoMemory>
        ensures room { OnOk result (self.new ≡ length tuple.now.items) }
        ensures some { 0 < length tuple.now.items }
        ensures succeeds { self.old ≡ length tuple.now.items → IsOk result }
        ensures refused { OnErr result (self.new ≡ self.old) }
    {
        let count = tuple.len();
        if self.count != count {
            let mut fields = Items::new(self.alloc);
            fields.reserve(count)?;
            self.fields = fields;
            self.count = count;
        }
        Ok(())
    }

    /// An equal tuple, in the memory that was made for it. None is ready afterwards. It takes no memory.
    pub fn fill(&mut self, from: &Tuple) -> Tuple
        requires { self.old ≡ length from.now.items }
        ensures fields { result.items ≡ from.now.items }
        ensures used { self.new ≡ 0 }
    {
        // that it is from 1 to 16, which the new tuple needs
        let _ = from.len();
        let mut fields = replace(&mut self.fields, Items::new(self.alloc));
        self.count = 0;
        fields.push_all(from.fields());
        Tuple::new(fields)
    }

    /// Lets the memory go, if any is ready.
    pub fn discard(&mut self)
        ensures { self.new ≡ 0 }
    {
        self.count = 0;
    }
}
