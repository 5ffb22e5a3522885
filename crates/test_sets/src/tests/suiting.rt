// Whether a set can be made of a shape, and whether a request suits it, computed.
ghost use Rattle.std.specs.Prelude.{◌≡◌, ◌||◌, ◌==◌, IsTrue, map, slice_get};
ghost use Rattle.std.specs.List.{list_all, list_any};
ghost use Rattle.cl_value.specs.LiveViews.{plain_part};
ghost use Rattle.cl_value.specs.Views.{plain_ask, plain_request};
ghost use Rattle.cl_sig.specs.Beside.{all_beside};
ghost use Rattle.cl_sig.specs.Suits.{value_suits, slot_suits, part_suits, is_literal, is_formal_slot, is_actual_at, class_suits, ask_suits, suits};
ghost use Rattle.cl_sig.specs.Views.{plain_shape};
ghost use Rattle.cl_sig.specs.Storable.{IsStorable, class_allows, is_number_mark};

use cl_sig::{Class, Mark, SetShape};
use cl_value::{Ask, FieldType, LiveField, Request, Slot, Value};

fn are_literals(marks: &[Mark]) -> bool
    ensures { result ≡ list_all is_literal marks.now }
{
    match marks {
        [] => true,
        [mark, marks @ ..] => matches!(mark, Mark::Constant(_)) && are_literals(marks),
    }
}

fn is_number(mark: Option<Mark>) -> bool
    ensures { result ≡ is_number_mark mark }
{
    match mark {
        Some(Mark::Actual(FieldType::Text)) => false,
        Some(Mark::Actual(_)) => true,
        _ => false,
    }
}

fn mark_at(marks: &[Mark], i: usize) -> Option<Mark>
    ensures { result ≡ slice_get marks.now i }
{
    marks.get(i).copied()
}

fn allows(class: Class, marks: &[Mark]) -> bool
    ensures { result ≡ class_allows class marks.now }
{
    match class {
        Class::Counter => are_literals(marks),
        Class::Keyed(field) => is_number(mark_at(marks, field as usize)),
        Class::Queue | Class::List => true,
    }
}

pub fn is_storable(shape: &SetShape) -> bool
    ensures { IsTrue result → IsStorable (plain_shape shape.now) }
{
    let count = shape.common.fields.len();
    count > 0 && count <= 16 && allows(shape.class, shape.common.fields.as_slice())
}

fn value_fits(mark: Mark, value: Value) -> bool
    ensures { result ≡ value_suits mark value }
{
    match mark {
        Mark::Constant(literal) => literal == value,
        Mark::Actual(field_type) => field_type == value.type_of(),
        Mark::Formal(_) => false,
    }
}

fn type_asked(slot: Slot) -> FieldType
    ensures { result ≡ slot_type slot }
{
    match slot {
        Slot::Actual(value) => value.type_of(),
        Slot::Formal(field_type) => field_type,
    }
}

ghost use Rattle.cl_sig.specs.Suits.{slot_type};

fn slot_fits(mark: Mark, slot: Slot) -> bool
    ensures { result ≡ slot_suits mark slot }
{
    match (mark, slot) {
        (Mark::Constant(literal), Slot::Actual(value)) => literal == value,
        (Mark::Constant(_), Slot::Formal(_)) => false,
        (Mark::Actual(field_type), slot) => field_type == type_asked(slot),
        (Mark::Formal(_), _) => false,
    }
}

fn part_fits(mark: Mark, part: &LiveField) -> bool
    ensures { result ≡ part_suits mark (plain_part part.now) }
{
    match part {
        LiveField::Ready(value) => value_fits(mark, *value),
        LiveField::Call { gives, .. } => match mark {
            Mark::Actual(field_type) => field_type == *gives,
            Mark::Constant(_) | Mark::Formal(_) => false,
        },
    }
}

fn values_fit(marks: &[Mark], values: &[Value]) -> bool
    ensures { result ≡ all_beside value_suits marks.now values.now }
{
    match marks {
        [] => values.is_empty(),
        [mark, marks @ ..] => match values {
            [] => false,
            [value, values @ ..] => value_fits(*mark, *value) && values_fit(marks, values),
        },
    }
}

fn slots_fit(marks: &[Mark], slots: &[Slot]) -> bool
    ensures { result ≡ all_beside slot_suits marks.now slots.now }
{
    match marks {
        [] => slots.is_empty(),
        [mark, marks @ ..] => match slots {
            [] => false,
            [slot, slots @ ..] => slot_fits(*mark, *slot) && slots_fit(marks, slots),
        },
    }
}

fn parts_fit(marks: &[Mark], parts: &[LiveField]) -> bool
    ensures { result ≡ all_beside part_suits marks.now (map plain_part parts.now) }
{
    match marks {
        [] => parts.is_empty(),
        [mark, marks @ ..] => match parts {
            [] => false,
            [part, parts @ ..] => part_fits(*mark, part) && parts_fit(marks, parts),
        },
    }
}

fn is_free(mark: Mark, slot: Slot) -> bool
    ensures { result ≡ is_literal mark || is_formal_slot slot }
{
    matches!(mark, Mark::Constant(_)) || matches!(slot, Slot::Formal(_))
}

fn are_free(marks: &[Mark], slots: &[Slot]) -> bool
    ensures { result ≡ all_beside (λ mark slot. is_literal mark || is_formal_slot slot) marks.now slots.now }
{
    match marks {
        [] => slots.is_empty(),
        [mark, marks @ ..] => match slots {
            [] => false,
            [slot, slots @ ..] => is_free(*mark, *slot) && are_free(marks, slots),
        },
    }
}

fn is_asked_at(slots: &[Slot], i: usize) -> bool
    ensures { result ≡ is_actual_at (slice_get slots.now i) }
{
    match slots.get(i).copied() {
        Some(Slot::Actual(_)) => true,
        Some(Slot::Formal(_)) | None => false,
    }
}

fn class_fits(class: Class, marks: &[Mark], slots: &[Slot]) -> bool
    ensures { result ≡ class_suits class marks.now slots.now }
{
    match class {
        Class::Queue => are_free(marks, slots),
        Class::Keyed(field) => is_asked_at(slots, field as usize),
        Class::Counter | Class::List => true,
    }
}

fn ask_fits(shape: &SetShape, ask: &Ask) -> bool
    ensures { result ≡ ask_suits (plain_shape shape.now) (plain_ask ask.now) }
{
    let marks = shape.common.fields.as_slice();
    match ask {
        Ask::Out(tuple) | Ask::Land(tuple) => values_fit(marks, tuple.fields()),
        Ask::In(template) | Ask::Rd(template) | Ask::Inp(template) | Ask::Rdp(template) => {
            slots_fit(marks, template.slots()) && class_fits(shape.class, marks, template.slots())
        }
        Ask::Eval(live) => parts_fit(marks, live.fields()),
    }
}

fn has(sites: &[u32], wanted: u32) -> bool
    ensures { result ≡ list_any (λ site. site == wanted) sites.now }
{
    match sites {
        [] => false,
        [site, sites @ ..] => *site == wanted || has(sites, wanted),
    }
}

pub fn request_fits(shape: &SetShape, request: &Request) -> bool
    ensures { result ≡ suits (plain_shape shape.now) (plain_request request.now) }
{
    has(shape.sites.as_slice(), request.site) && ask_fits(shape, &request.ask)
}
