use crate::Value;
use cl_ground::{Items, MOST_FIELDS, NoMemory};
use std::alloc::Global;
use std::marker::Model;

/// An ordered list of 1 to 16 values, the unit of coordination in Linda (Gelernter 1985).
///
/// Contracts see its fields in order, and for how many more there is room.
#[derive(Drop)]
pub struct Tuple {
    fields: Items<Value>,
}

impl Model for Tuple {
    ghost use Rattle.std.specs.Prelude.{◌<◌, ◌≤◌, length};
    ghost use Rattle.cl_value.specs.Fields.{Fields};
    ghost use Rattle.cl_ground.specs.declared.limits.TheConstants.{MOST_FIELDS};

    ghost Value = { Fields };

    ghost view = { λ t. t.fields };

    ghost invariant = { λ t. (0 < length t.fields.items) × (length t.fields.items ≤ MOST_FIELDS) };
}

impl Tuple {
    ghost use Rattle.std.specs.Prelude.{◌≡◌, ◌<◌, ◌≤◌, [], ◌∷◌, ◌++◌, length, slice_get, IfOk, pos, Some};
    ghost use Rattle.cl_ground.specs.Room.{Room, HasRoom, capacity_of};
    ghost use Rattle.cl_ground.specs.declared.limits.TheConstants.{MOST_FIELDS};

    /// The tuple of these fields. It takes no memory.
    pub fn new(fields: Items<Value>) -> Tuple
        requires some { 0 < length fields.items }
        requires few { length fields.items ≤ MOST_FIELDS }
        ensures { result ≡ fields }
    {
        Tuple { fields }
    }

    /// The fields again, with their room. It takes no memory.
    pub fn into_items(self) -> Items<Value>
        ensures same { result ≡ self }
        ensures some { 0 < length self.items }
        ensures few { length self.items ≤ MOST_FIELDS }
    {
        let Tuple { fields } = self;
        fields
    }

    /// A buffer with room for 16 fields, which holds `(Int(0))` at first. `NoMemory` comes where the
    /// allocator refused that room.
    pub fn with_room(alloc: Global) -> Result<Tuple, NoMemory>
        ensures fields { IfOk result (λ t. t.items ≡ Value.Int (pos 0) ∷ []) }
        ensures room { IfOk result (HasRoom MOST_FIELDS) }
    {
        let mut fields = Items::new(alloc);
        fields.reserve(MOST_FIELDS)?;
        fields.push(Value::Int(0));
        Ok(Tuple { fields })
    }

    /// Makes it the tuple of this one field. It keeps its room and takes no memory.
    pub fn restart(&mut self, first: Value)
        ensures fields { self.new.items ≡ first ∷ [] }
        ensures room { capacity_of self.new ≡ capacity_of self.old }
    {
        self.fields.clear();
        self.fields.push(first);
    }

    /// Puts a field last. It takes no memory.
    pub fn push(&mut self, value: Value)
        requires room { HasRoom MOST_FIELDS self.old }
        requires few { length self.old.items < MOST_FIELDS }
        ensures fields { self.new.items ≡ self.old.items ++ value ∷ [] }
        ensures room { capacity_of self.new ≡ capacity_of self.old }
    {
        self.fields.push(value);
    }

    /// Makes it a tuple of the same fields. It keeps its room and takes no memory.
    pub fn refill(&mut self, from: &Tuple)
        requires { HasRoom MOST_FIELDS self.old }
        ensures fields { self.new.items ≡ from.now.items }
        ensures room { capacity_of self.new ≡ capacity_of self.old }
    {
        let count = from.len();
        self.restart(from.field(0));
        for i in 1..count {
            self.push(from.field(i));
        }
    }

    /// The number of fields, from 1 to 16.
    #[allow(clippy::len_without_is_empty)]
    pub fn len(&self) -> usize
        ensures value { result ≡ length self.now.items }
        ensures some { 0 < result }
        ensures few { result ≤ MOST_FIELDS }
    {
        self.fields.len()
    }

    /// The field at a place, counted from 0.
    pub fn field(&self, i: usize) -> Value
        requires { i < length self.now.items }
        ensures { slice_get self.now.items i ≡ Some result }
    {
        *self.fields.at(i)
    }

    /// The fields in order.
    pub fn fields(&self) -> &[Value]
        ensures { result.now ≡ self.now.items }
    {
        self.fields.as_slice()
    }

    /// A tuple of the same fields. `NoMemory` comes where the allocator refused its room.
    pub fn copy(&self, alloc: Global) -> Result<Tuple, NoMemory>
        ensures { IfOk result (λ t. t.items ≡ self.now.items) }
    {
        let fields = self.fields.copy(alloc)?;
        Ok(Tuple { fields })
    }
}
