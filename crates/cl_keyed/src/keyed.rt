use crate::key::Key;
use crate::line::Line;
use crate::room::{put, room_for};
use crate::table::Table;
use cl_ground::NoMemory;
use cl_store::{NextTuple, TupleStore};
use cl_value::{Steps, Template, Tuple};
use std::alloc::Global;
use std::marker::Model;
use std::sync::ledger::Ledger;

// The key for which room was made, and the place of its list, where it has one.
#[derive(Clone, Copy)]
struct Ready {
    key: Key,
    place: Option<usize>,
}

/// A list of tuples for each value of one field.
///
/// It admits the tuples that have a number or a character at the field, and fits the templates that have an
/// actual there. Contracts see the field, the tuples in order of adding, the key for which room was made,
/// and for how many fields. The table has the keys that some tuple has, and no others: a key goes with its
/// last tuple. (This project.)
#[derive(Drop)]
pub struct Keyed {
    field: usize,
    table: Table,
    // an empty list for the next key that none had
    fresh: Line,
    next: NextTuple,
    ready: Option<Ready>,
    added: u64,
    count: u64,
    alloc: Global,
}

impl Model for Keyed {
    ghost use Rattle.std.specs.Prelude.{option_map};
    ghost use Rattle.cl_keyed.specs.Rows.{content_of};
    ghost use Rattle.cl_keyed.specs.Keeping.{Kept, Stands, ready_key};

    ghost Value = { Kept };

    ghost view = { λ k. record { field = k.field; tuples = content_of k.added k.table.lines; key = ready_key k.ready; room = k.next } };

    ghost invariant = { λ k. Stands k.field k.added k.count k.table k.fresh k.ready };
}

impl Keyed {
    ghost use Rattle.std.specs.Prelude.{◌≡◌, [], None};
    ghost use Rattle.cl_keyed.specs.Keeping.{Kept};

    /// No tuple, kept by the values of this field, counted from 0. It keeps the allocator for its later
    /// growths, and takes no memory.
    pub fn new(alloc: Global, field: usize) -> Keyed
        ensures field { result.field ≡ field }
        ensures tuples { result.tuples ≡ [] }
        ensures key { result.key ≡ None }
    {
        Keyed {
            field,
            table: Table::new(alloc),
            fresh: Line::new(alloc),
            next: NextTuple::new(alloc),
            ready: None,
            added: 0,
            count: 0,
            alloc,
        }
    }
}

impl TupleStore for Keyed {
    ghost use Rattle.std.specs.Prelude.{◌==◌, ◌&&◌, length, is_some};
    ghost use Rattle.cl_keyed.specs.Keys.{key_at, asked_at, has_actual};
    ghost use Rattle.cl_keyed.specs.Keeping.{Kept, same_ready};
    ghost use Rattle.cl_keyed.specs.Tables.{tuples_with};

    ghost content = { λ k. k.tuples };

    ghost has_room = { λ k t. same_ready k.key (key_at k.field t) && length t == k.room };

    ghost admits = { λ k t. is_some (key_at k.field t) };

    ghost fits = { λ k ts m. has_actual k.field m };

    ghost cost = { λ k m. tuples_with k.field (asked_at k.field m) k.tuples };

    // `NoMemory` comes too where 2^64 - 1 tuples were added before.
    fn reserve(&mut self, tuple: &Tuple) -> Result<(), NoMemory> {
        let Some(key) = Key::at(tuple.fields(), self.field) else {
            unreachable!()
        };
        if let Some(ready) = self.ready {
            if ready.key == key {
                return self.next.make_room(tuple);
            }
        }
        if self.added == u64::MAX {
            return Err(NoMemory);
        }
        let place = room_for(&mut self.table, &mut self.fresh, key)?;
        self.next.make_room(tuple)?;
        self.ready = Some(Ready { key, place });
        Ok(())
    }

    fn add(&mut self, tuple: &Tuple) {
        let Some(Ready { key, place }) = self.ready else {
            unreachable!()
        };
        let added = self.next.fill(tuple);
        put(
            &mut self.table,
            &mut self.fresh,
            self.alloc,
            key,
            place,
            self.added,
            added,
        );
        self.added += 1;
        self.count += 1;
        self.ready = None;
    }

    fn take<L: Ledger>(
        &mut self,
        template: &Template,
        into: &mut Tuple,
        steps: &mut Steps<L>,
    ) -> bool {
        let Some(place) = self.table.find(self.field, template, into, steps) else {
            return false;
        };
        self.table.take_out(place);
        self.count -= 1;
        self.ready = None;
        true
    }

    fn find<L: Ledger>(&self, template: &Template, into: &mut Tuple, steps: &mut Steps<L>) -> bool {
        self.table.find(self.field, template, into, steps).is_some()
    }

    fn has<L: Ledger>(&self, template: &Template, steps: &mut Steps<L>) -> bool {
        self.table.has(self.field, template, steps)
    }

    fn len(&self) -> u64 {
        self.count
    }
}
