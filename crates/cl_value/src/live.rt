use crate::{FieldType, Value};
use cl_ground::{Items, NoMemory};
use std::alloc::Global;
use std::marker::Model;

/// A field of a live tuple (Gelernter 1985; which fields the new process computes: this project).
#[derive(Drop)]
pub enum LiveField {
    /// Evaluated by the process that makes the live tuple.
    Ready(Value),
    /// Computed by the new process.
    Call {
        /// The number of the function in text order, from 0.
        function: u32,
        /// The arguments, converted to the parameters' types.
        arguments: Items<Value>,
        /// The type of the result.
        gives: FieldType,
    },
}

impl LiveField {
    ghost use Rattle.std.specs.Prelude.{◌≡◌, IfOk};
    ghost use Rattle.cl_value.specs.LiveViews.{plain_part};

    /// An equal field. `NoMemory` comes where the allocator refused its room.
    pub fn copy(&self, alloc: Global) -> Result<LiveField, NoMemory>
        ensures { IfOk result (λ f. plain_part f ≡ plain_part self.now) }
    {
        match self {
            LiveField::Ready(value) => Ok(LiveField::Ready(*value)),
            LiveField::Call {
                function,
                arguments,
                gives,
            } => {
                let arguments = arguments.copy(alloc)?;
                Ok(LiveField::Call {
                    function: *function,
                    arguments,
                    gives: *gives,
                })
            }
        }
    }
}

/// The tuple of an `eval` before its calls are computed: an ordered list of 1 to 16 fields.
///
/// Contracts see its fields in order, and for how many more there is room.
#[derive(Drop)]
pub struct Live {
    fields: Items<LiveField>,
}

impl Model for Live {
    ghost use Rattle.std.specs.Prelude.{◌<◌, ◌≤◌, length};
    ghost use Rattle.cl_value.specs.LiveViews.{Parts};
    ghost use Rattle.cl_ground.specs.declared.limits.TheConstants.{MOST_FIELDS};

    ghost Value = { Parts };

    ghost view = { λ t. t.fields };

    ghost invariant = { λ t. (0 < length t.fields.items) × (length t.fields.items ≤ MOST_FIELDS) };
}

impl Live {
    ghost use Rattle.std.specs.Prelude.{◌≡◌, ◌<◌, ◌≤◌, length, slice_get, IfOk, Some};
    ghost use Rattle.cl_ground.specs.Room.{Room};
    ghost use Rattle.cl_value.specs.LiveViews.{plain_live};
    ghost use Rattle.cl_ground.specs.declared.limits.TheConstants.{MOST_FIELDS};

    /// The live tuple of these fields. It takes no memory.
    pub fn new(fields: Items<LiveField>) -> Live
        requires some { 0 < length fields.items }
        requires few { length fields.items ≤ MOST_FIELDS }
        ensures { result ≡ fields }
    {
        Live { fields }
    }

    /// The fields again, with their room. It takes no memory.
    pub fn into_items(self) -> Items<LiveField>
        ensures same { result ≡ self }
        ensures some { 0 < length self.items }
        ensures few { length self.items ≤ MOST_FIELDS }
    {
        let Live { fields } = self;
        fields
    }

    /// The number of fields, from 1 to 16.
    #[allow(clippy::len_without_is_empty)]
    pub fn len(&self) -> usize
        ensures value { result ≡ length self.now.items }
        ensures some { 0 < result }
        ensures few { result ≤ MOST_FIELDS }
    {
        self.fields.len()
    }

    /// The field at a place, counted from 0.
    pub fn field(&self, i: usize) -> &LiveField
        requires { i < length self.now.items }
        ensures { slice_get self.now.items i ≡ Some result.now }
    {
        self.fields.at(i)
    }

    /// The fields in order.
    pub fn fields(&self) -> &[LiveField]
        ensures { result.now ≡ self.now.items }
    {
        self.fields.as_slice()
    }

    /// A live tuple of equal fields. `NoMemory` comes where the allocator refused its room.
    pub fn copy(&self, alloc: Global) -> Result<Live, NoMemory>
        ensures { IfOk result (λ t. plain_live t ≡ plain_live self.now) }
    {
        let fields = copies(alloc, self.fields.as_slice())?;
        Ok(Live { fields })
    }
}

ghost use Rattle.std.specs.Prelude.{◌≡◌, length, map, IfOk};
ghost use Rattle.cl_ground.specs.Room.{Room};
ghost use Rattle.cl_value.specs.LiveViews.{plain_part};

// Fields that equal these.
fn copies(alloc: Global, fields: &[LiveField]) -> Result<Items<LiveField>, NoMemory>
    ensures fields { IfOk result (λ all. map plain_part all.items ≡ map plain_part fields.now) }
    ensures count { IfOk result (λ all. length all.items ≡ length fields.now) }
{
    let mut all = Items::new(alloc);
    all.reserve(fields.len())?;
    for field in fields {
        all.push(field.copy(alloc)?);
    }
    Ok(all)
}
