use cl_ground::Items;
use cl_value::{Ask, LiveField, Request, Slot, Value};
use std::alloc::Global;

/// The request at which a process stands, and the lists into which the next one is filled. They are made before the
/// process begins, so that asking takes no memory.
#[derive(Drop)]
pub struct Buffers {
    pub(crate) request: Option<Request>,
    // Each is the list of the standing request where that has one of its kind, and then without room here.
    pub(crate) values: Items<Value>,
    pub(crate) slots: Items<Slot>,
    pub(crate) fields: Items<LiveField>,
    // The lists of arguments that stand in no field.
    pub(crate) spare: Items<Items<Value>>,
    pub(crate) alloc: Global,
}
