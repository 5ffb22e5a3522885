use std::alloc::{AllocError, Global};
use std::marker::Model;

/// Want of memory: a growth was refused by the allocator.
#[derive(Clone, Copy, Debug, PartialEq, Eq, Drop)]
pub struct NoMemory;

/// A list that is grown ahead of the pushes that need the room.
///
/// Contracts see its items in order, and for how many more there is room now. Only `reserve` takes
/// memory, so that a caller makes all its growths before its first effect. (This project.)
#[derive(Drop)]
pub struct Items<T> {
    items: Vec<T>,
}

impl<T> Model for Items<T> {
    ghost use Rattle.std.specs.Prelude.{◌-◌};
    ghost use Rattle.std.specs.Vec.{vec_len, vec_capacity};
    ghost use Rattle.cl_ground.specs.Room.{Room, room_code};

    ghost Value = { Room T };

    ghost coded = { room_code T.code };

    ghost view = { λ it. record { items = it.items.items; spare = vec_capacity it.items - vec_len it.items } };
}

impl<T> Items<T> {
    ghost use Rattle.std.specs.Prelude.{◌≡◌, ◌+◌, ◌<◌, ◌≤◌, [], ◌∷◌, ◌++◌, length, slice_get, IsOk, OnOk, OnErr, Some};
    ghost use Rattle.cl_ground.specs.Room.{Room};

    /// A list of nothing, with no room. It keeps the allocator for its later growths.
    pub fn new(alloc: Global) -> Items<T>
        ensures items { result.items ≡ [] }
        ensures spare { result.spare ≡ 0 }
    {
        Items {
            items: Vec::new(alloc),
        }
    }

    /// Makes room for `count` more items. The items stay, whatever the answer.
    ///
    /// `NoMemory` comes only where there was room for fewer, and then the room stays too.
    pub fn reserve(&mut self, count: usize) -> Result<(), NoMemory>
        ensures items { self.new.items ≡ self.old.items }
        ensures spare { OnOk result (count ≤ self.new.spare) }
        ensures kept { self.old.spare ≤ self.new.spare }
        ensures succeeds { count ≤ self.old.spare → IsOk result }
        ensures refused { OnErr result (self.new.spare ≡ self.old.spare) }
    {
        match self.items.reserve(count) {
            Ok(()) => Ok(()),
            Err(AllocError) => Err(NoMemory),
        }
    }

    /// Puts the value last, into room that was made before. It takes no memory.
    pub fn push(&mut self, value: T)
        requires { 0 < self.old.spare }
        ensures items { self.new.items ≡ self.old.items ++ value ∷ [] }
        ensures spare { self.new.spare + 1 ≡ self.old.spare }
    {
        self.items.push_reserved(value);
    }

    /// The number of items.
    pub fn len(&self) -> usize
        ensures { result ≡ length self.now.items }
    {
        self.items.len()
    }

    /// The items in order.
    pub fn as_slice(&self) -> &[T]
        ensures { result.now ≡ self.now.items }
    {
        self.items.as_slice()
    }

    /// The item at a place, counted from 0.
    pub fn at(&self, i: usize) -> &T
        requires { i < length self.now.items }
        ensures { slice_get self.now.items i ≡ Some result.now }
    {
        &self.items[i]
    }
}

impl<T: Drop> Items<T> {
    ghost use Rattle.std.specs.Prelude.{◌≡◌, ◌+◌, ◌<◌, [], length, slice_get, remove, Some};
    ghost use Rattle.cl_ground.specs.Room.{Room};

    /// Lets all items go and keeps their room. It takes no memory.
    pub fn clear(&mut self)
        ensures items { self.new.items ≡ [] }
        ensures spare { self.new.spare ≡ self.old.spare + length self.old.items }
    {
        self.items.clear();
    }

    /// Takes out the item at a place, counted from 0. The others keep their order, and its room stays.
    pub fn remove(&mut self, i: usize) -> T
        requires { i < length self.old.items }
        ensures item { slice_get self.old.items i ≡ Some result }
        ensures items { self.new.items ≡ remove self.old.items i }
        ensures spare { self.new.spare ≡ self.old.spare + 1 }
    {
        self.items.remove(i)
    }
}

impl<T: Copy> Items<T> {
    ghost use Rattle.std.specs.Prelude.{◌≡◌, ◌+◌, ◌≤◌, ◌++◌, length, IfOk};
    ghost use Rattle.cl_ground.specs.Room.{Room};

    /// Puts the values last, in their order, into room that was made before. It takes no memory.
    pub fn push_all(&mut self, values: &[T])
        requires { length values.now ≤ self.old.spare }
        ensures items { self.new.items ≡ self.old.items ++ values.now }
        ensures spare { self.new.spare + length values.now ≡ self.old.spare }
    {
        for value in values {
            self.push(*value);
        }
    }

    /// A list of the same items. `NoMemory` comes where the allocator refused their room.
    pub fn copy(&self, alloc: Global) -> Result<Items<T>, NoMemory>
        ensures { IfOk result (λ it. it.items ≡ self.now.items) }
    {
        Items::from_slice(alloc, self.items.as_slice())
    }

    /// A list of these items. `NoMemory` comes where the allocator refused their room.
    pub fn from_slice(alloc: Global, items: &[T]) -> Result<Items<T>, NoMemory>
        ensures { IfOk result (λ it. it.items ≡ items.now) }
    {
        match Vec::from_slice(alloc, items) {
            Ok(items) => Ok(Items { items }),
            Err(AllocError) => Err(NoMemory),
        }
    }
}
