use crate::{FieldType, Steps, Tuple, Value};
use cl_ground::{Items, NoMemory};
use std::alloc::Global;
use std::marker::Model;
use std::sync::ledger::Ledger;

/// A field of a template (Gelernter 1985): an actual, or a formal. A template has no formal of text.
#[derive(Clone, Copy, Debug, PartialEq, Eq)]
pub enum Slot {
    /// Matches this value alone.
    Actual(Value),
    /// Matches each value of its type, and receives it. `Template::new` takes none of text.
    Formal(FieldType),
}

impl Slot {
    ghost use Rattle.std.specs.Prelude.{◌≡◌};
    ghost use Rattle.cl_value.specs.Matching.{accepts, may_stand};

    /// Whether it may stand in a template: each actual, and each formal but one of text, which no
    /// variable could receive.
    pub fn may_stand(self) -> bool
        ensures { result ≡ may_stand self }
    {
        !matches!(self, Slot::Formal(FieldType::Text))
    }

    fn accepts(self, value: Value) -> bool
        ensures { result ≡ accepts self value }
    {
        match self {
            Slot::Actual(actual) => actual == value,
            Slot::Formal(formal) => formal == value.type_of(),
        }
    }
}

/// What an `in`, `rd`, `inp` or `rdp` asks for: an ordered list of 1 to 16 actuals and formals, of which
/// none is a formal of text.
///
/// Contracts see its slots in order, and for how many more there is room.
#[derive(Drop)]
pub struct Template {
    slots: Items<Slot>,
}

impl Model for Template {
    ghost use Rattle.std.specs.Prelude.{◌<◌, ◌≤◌, length, IsTrue};
    ghost use Rattle.std.specs.List.{list_all};
    ghost use Rattle.cl_value.specs.Fields.{Slots};
    ghost use Rattle.cl_value.specs.Matching.{may_stand};
    ghost use Rattle.cl_ground.specs.declared.limits.TheConstants.{MOST_FIELDS};

    ghost Value = { Slots };

    ghost view = { λ t. t.slots };

    ghost invariant = { λ t. (0 < length t.slots.items) × (length t.slots.items ≤ MOST_FIELDS) × IsTrue (list_all may_stand t.slots.items) };
}

impl Template {
    ghost use Rattle.std.specs.Prelude.{◌≡◌, ◌+◌, ◌<◌, ◌≤◌, length, slice_get, IfOk, IsTrue, Some};
    ghost use Rattle.std.specs.List.{list_all};
    ghost use Rattle.cl_ground.specs.Room.{Room};
    ghost use Rattle.cl_value.specs.Matching.{matches, may_stand};
    ghost use Rattle.cl_ground.specs.declared.limits.TheConstants.{MOST_FIELDS};

    /// The template of these slots. It takes no memory.
    pub fn new(slots: Items<Slot>) -> Template
        requires some { 0 < length slots.items }
        requires few { length slots.items ≤ MOST_FIELDS }
        requires stand { IsTrue (list_all may_stand slots.items) }
        ensures { result ≡ slots }
    {
        Template { slots }
    }

    /// The slots again, with their room. It takes no memory.
    pub fn into_items(self) -> Items<Slot>
        ensures same { result ≡ self }
        ensures some { 0 < length self.items }
        ensures few { length self.items ≤ MOST_FIELDS }
        ensures stand { IsTrue (list_all may_stand self.items) }
    {
        let Template { slots } = self;
        slots
    }

    /// Whether the tuple matches: as many fields, equal to the actuals and of the formals' types.
    ///
    /// It ticks once and takes no memory. It is the only public comparison of a tuple with a template.
    pub fn test<L: Ledger>(&self, tuple: &Tuple, steps: &mut Steps<L>) -> bool
        ensures value { result ≡ matches self.now.items tuple.now.items }
        ensures ticks { steps.new ≡ steps.old + 1 }
    {
        steps.tick();
        fits_all(self.slots.as_slice(), tuple.fields())
    }

    /// The number of slots, from 1 to 16.
    #[allow(clippy::len_without_is_empty)]
    pub fn len(&self) -> usize
        ensures value { result ≡ length self.now.items }
        ensures some { 0 < result }
        ensures few { result ≤ MOST_FIELDS }
    {
        self.slots.len()
    }

    /// The slot at a place, counted from 0.
    pub fn slot(&self, i: usize) -> Slot
        requires { i < length self.now.items }
        ensures value { slice_get self.now.items i ≡ Some result }
        ensures stands { IsTrue (may_stand result) }
    {
        *self.slots.at(i)
    }

    /// The slots in order.
    pub fn slots(&self) -> &[Slot]
        ensures value { result.now ≡ self.now.items }
        ensures stand { IsTrue (list_all may_stand result.now) }
    {
        self.slots.as_slice()
    }

    /// A template of the same slots. `NoMemory` comes where the allocator refused its room.
    pub fn copy(&self, alloc: Global) -> Result<Template, NoMemory>
        ensures { IfOk result (λ t. t.items ≡ self.now.items) }
    {
        let slots = self.slots.copy(alloc)?;
        Ok(Template { slots })
    }
}

ghost use Rattle.std.specs.Prelude.{◌≡◌};
ghost use Rattle.cl_value.specs.Matching.{matches};

fn fits_all(slots: &[Slot], values: &[Value]) -> bool
    ensures { result ≡ matches slots.now values.now }
{
    match slots {
        [] => values.is_empty(),
        [slot, slots @ ..] => match values {
            [] => false,
            [value, values @ ..] => slot.accepts(*value) && fits_all(slots, values),
        },
    }
}
