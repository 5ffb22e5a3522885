// What a process is wanted to ask for, what it is told then, and how it ends.

ghost use Rattle.std.specs.Prelude.{◌<◌, ◌≤◌, length};
ghost use Rattle.cl_ground.specs.declared.limits.TheConstants.{MOST_FIELDS};

use cl_ground::{Items, MOST_FIELDS, NoMemory};
use cl_value::{Ask, FieldType, LiveField, Request, Slot, Trap, Tuple, Value};
use std::alloc::Global;

// A field of a live tuple.
#[derive(Clone, Copy)]
pub enum Part<'a> {
    Ready(Value),
    // The function with this number, its arguments, and the type of what it gives.
    Call(u32, &'a [Value], FieldType),
}

// An operation.
#[derive(Clone, Copy)]
pub enum Wanted<'a> {
    Out(&'a [Value]),
    In(&'a [Slot]),
    Inp(&'a [Slot]),
    Eval(&'a [Part<'a>]),
}

// A reply.
#[derive(Clone, Copy)]
pub enum Told<'a> {
    Done,
    Got(&'a [Value]),
    Miss,
}

// An operation at a site, and its reply.
#[derive(Clone, Copy)]
pub struct Exchange<'a> {
    pub site: u32,
    pub wanted: Wanted<'a>,
    pub told: Told<'a>,
}

// How a process ends.
#[derive(Clone, Copy)]
pub enum Ending<'a> {
    // Process 0 with this result, and what it printed.
    Finished(Value, &'a [u8]),
    // Another one, which lands these values at this site.
    Lands(u32, &'a [Value]),
    // Any, when it had printed so many bytes.
    Trapped(Trap, usize),
}

// The tuple of these values.
fn some_tuple(alloc: Global, values: &[Value]) -> Result<Tuple, NoMemory>
    requires some { 0 < length values.now }
    requires few { length values.now ≤ MOST_FIELDS }
{
    let fields = Items::from_slice(alloc, values)?;
    Ok(Tuple::new(fields))
}

// The same, if there are from 1 to 16.
pub fn tuple_of(alloc: Global, values: &[Value]) -> Result<Option<Tuple>, NoMemory> {
    if values.is_empty() || values.len() > MOST_FIELDS {
        return Ok(None);
    }
    let tuple = some_tuple(alloc, values)?;
    Ok(Some(tuple))
}

// Whether a field is this one.
fn is_part(field: &LiveField, part: Part) -> bool {
    match part {
        Part::Ready(value) => is_ready(field, value),
        Part::Call(function, arguments, gives) => is_call(field, function, arguments, gives),
    }
}

// Whether a field is this value.
fn is_ready(field: &LiveField, wanted: Value) -> bool {
    match field {
        LiveField::Ready(value) => *value == wanted,
        LiveField::Call { .. } => false,
    }
}

// Whether a field is this call.
fn is_call(field: &LiveField, called: u32, values: &[Value], wanted: FieldType) -> bool {
    match field {
        LiveField::Ready(_) => false,
        LiveField::Call {
            function,
            arguments,
            gives,
        } => *function == called && arguments.as_slice() == values && *gives == wanted,
    }
}

// Whether the fields are these.
fn are_parts(fields: &[LiveField], parts: &[Part]) -> bool {
    match fields {
        [] => parts.is_empty(),
        [field, fields @ ..] => match parts {
            [] => false,
            [part, parts @ ..] => is_part(field, *part) && are_parts(fields, parts),
        },
    }
}

// Whether it is the `out` of this tuple.
fn is_out(ask: &Ask, values: &[Value]) -> bool {
    match ask {
        Ask::Out(tuple) => tuple.fields() == values,
        _ => false,
    }
}

// Whether it is the `in` of this template.
fn is_in(ask: &Ask, slots: &[Slot]) -> bool {
    match ask {
        Ask::In(template) => template.slots() == slots,
        _ => false,
    }
}

// Whether it is the `inp` of this template.
fn is_inp(ask: &Ask, slots: &[Slot]) -> bool {
    match ask {
        Ask::Inp(template) => template.slots() == slots,
        _ => false,
    }
}

// Whether it is the `eval` of this live tuple.
fn is_eval(ask: &Ask, parts: &[Part]) -> bool {
    match ask {
        Ask::Eval(live) => are_parts(live.fields(), parts),
        _ => false,
    }
}

// Whether it is the landing of this tuple.
fn is_land(ask: &Ask, values: &[Value]) -> bool {
    match ask {
        Ask::Land(tuple) => tuple.fields() == values,
        _ => false,
    }
}

// Whether an operation is wanted.
fn is_wanted(ask: &Ask, wanted: Wanted) -> bool {
    match wanted {
        Wanted::Out(values) => is_out(ask, values),
        Wanted::In(slots) => is_in(ask, slots),
        Wanted::Inp(slots) => is_inp(ask, slots),
        Wanted::Eval(parts) => is_eval(ask, parts),
    }
}

impl Exchange<'_> {
    // Whether the request is this one.
    pub fn asks(&self, request: &Request) -> bool {
        request.site == self.site && is_wanted(&request.ask, self.wanted)
    }
}

// Whether a request is the landing of this tuple at this site.
pub fn lands(request: &Request, site: u32, values: &[Value]) -> bool {
    request.site == site && is_land(&request.ask, values)
}
