//! From the numbers on the stack to the fields of a request. (The operations: Gelernter 1985.)

ghost use Rattle.std.specs.Prelude.{◌≡◌, ◌<◌, ◌≤◌, drop, length, List, [], map, OnOk, slice_get};
ghost use Rattle.cl_value.specs.declared.value.Value.{Value as AnyValue};
ghost use Rattle.cl_value.specs.LiveViews.{plain_part};
ghost use Rattle.cl_ground.specs.Room.{HasRoom, capacity_of};
ghost use Rattle.cl_code.specs.Plain.{PlainProgram, plain_function};
ghost use Rattle.cl_code.specs.Sites.{as_values, fields_of, first_or_zero, parameters_or_none, parts_of, places, slots_of, values_of};
ghost use Rattle.cl_vm.specs.Asking.{CallFilled, Filled};
ghost use Rattle.cl_vm.specs.Parts.{AreWide, KeepsLists, call_first, widest_of};

use crate::values::as_value;
use cl_code::Function;
use cl_ground::Items;
use cl_sig::Mark;
use cl_value::{FieldType, LiveField, Slot, Trap, Value};

// The first number, or 0; and those behind it.
fn first_of(numbers: &[i64]) -> (i64, &[i64])
    ensures first { result.0 ≡ first_or_zero numbers.now }
    ensures rest { result.1.now ≡ drop 1 numbers.now }
{
    match numbers {
        [] => (0, numbers),
        [n, rest @ ..] => (*n, rest),
    }
}

// The numbers behind so many.
fn behind(numbers: &[i64], count: usize) -> &[i64]
    ensures { result.now ≡ drop count numbers.now }
{
    if count > numbers.len() {
        return &[];
    }
    &numbers[count..]
}

/// The function of the first field, where it is a call; and those of the fields behind it.
pub fn first_call(calls: &[Option<u32>]) -> (Option<u32>, &[Option<u32>])
    ensures first { result.0 ≡ call_first calls.now }
    ensures rest { result.1.now ≡ drop 1 calls.now }
{
    match calls {
        [] => (None, calls),
        [call, rest @ ..] => (*call, rest),
    }
}

/// The parameters of the function of this number, of which there are none where it isn't there.
pub fn parameters_of(functions: &[Function], function: u32) -> &[FieldType]
    ensures { result.now ≡ parameters_or_none (slice_get (map plain_function functions.now) function) }
{
    let k = function as usize;
    if k >= functions.len() {
        return &[];
    }
    functions[k].parameters.as_slice()
}

/// Adds the values of a tuple's fields, by these numbers, into room that was made before.
pub fn add_values(to: &mut Items<Value>, marks: &[Mark], numbers: &[i64]) -> Result<(), Trap>
    requires { length marks.now ≤ to.old.spare }
    ensures filled { (p : PlainProgram) → Filled values_of (fields_of p (places marks.now []) numbers.now) result to.old.items to.new.items }
    ensures room { OnOk result (capacity_of to.new ≡ capacity_of to.old) }
{
    match marks {
        [] => Ok(()),
        [mark, rest @ ..] => match *mark {
            Mark::Constant(value) => {
                to.push(value);
                add_values(to, rest, numbers)
            }
            Mark::Formal(_) => add_values(to, rest, numbers),
            Mark::Actual(of) => {
                let (n, others) = first_of(numbers);
                to.push(as_value(of, n)?);
                add_values(to, rest, others)
            }
        },
    }
}

/// Adds the slots of a template's fields, by these numbers, into room that was made before.
pub fn add_slots(to: &mut Items<Slot>, marks: &[Mark], numbers: &[i64]) -> Result<(), Trap>
    requires { length marks.now ≤ to.old.spare }
    ensures filled { (p : PlainProgram) → Filled slots_of (fields_of p (places marks.now []) numbers.now) result to.old.items to.new.items }
    ensures room { OnOk result (capacity_of to.new ≡ capacity_of to.old) }
{
    match marks {
        [] => Ok(()),
        [mark, rest @ ..] => match *mark {
            Mark::Constant(value) => {
                to.push(Slot::Actual(value));
                add_slots(to, rest, numbers)
            }
            Mark::Formal(of) => {
                to.push(Slot::Formal(of));
                add_slots(to, rest, numbers)
            }
            Mark::Actual(of) => {
                let (n, others) = first_of(numbers);
                to.push(Slot::Actual(as_value(of, n)?));
                add_slots(to, rest, others)
            }
        },
    }
}

// Adds numbers as values of these types, as many as there are of both, into room that was made before.
fn add_numbers(to: &mut Items<Value>, types: &[FieldType], numbers: &[i64]) -> Result<(), Trap>
    requires { length types.now ≤ to.old.spare }
    ensures filled { Filled (λ (vs : List AnyValue). vs) (as_values types.now numbers.now) result to.old.items to.new.items }
    ensures room { OnOk result (capacity_of to.new ≡ capacity_of to.old) }
{
    match types {
        [] => Ok(()),
        [of, types @ ..] => match numbers {
            [] => Ok(()),
            [n, numbers @ ..] => {
                to.push(as_value(*of, *n)?);
                add_numbers(to, types, numbers)
            }
        },
    }
}

// A call of a function with these parameters, whose arguments are the first of these numbers. They are put into a list
// that was made before.
fn call_field(
    mut arguments: Items<Value>,
    function: u32,
    parameters: &[FieldType],
    gives: FieldType,
    numbers: &[i64],
) -> Result<LiveField, Trap>
    requires { HasRoom (length parameters.now) arguments }
    ensures { CallFilled function gives (as_values parameters.now numbers.now) arguments result }
{
    arguments.clear();
    add_numbers(&mut arguments, parameters, numbers)?;
    Ok(LiveField::Call {
        function,
        arguments,
        gives,
    })
}

/// Adds the fields of a live tuple, by these numbers, into room that was made before: `spare` has a list for the
/// arguments of each call.
pub fn add_parts(
    to: &mut Items<LiveField>,
    spare: &mut Items<Items<Value>>,
    functions: &[Function],
    marks: &[Mark],
    calls: &[Option<u32>],
    numbers: &[i64],
) -> Result<(), Trap>
    requires room { length marks.now ≤ to.old.spare }
    requires lists { length marks.now ≤ length spare.old.items }
    requires wide { AreWide (widest_of (map plain_function functions.now)) spare.old.items }
    ensures filled { (p : PlainProgram) → p.functions ≡ map plain_function functions.now → Filled parts_of (fields_of p (places marks.now calls.now) numbers.now) result (map plain_part to.old.items) (map plain_part to.new.items) }
    ensures room { OnOk result (KeepsLists (widest_of (map plain_function functions.now)) to.old to.new spare.old spare.new) }
{
    match marks {
        [] => Ok(()),
        [mark, rest @ ..] => {
            let (call, calls) = first_call(calls);
            match (*mark, call) {
                (Mark::Constant(value), _) => {
                    to.push(LiveField::Ready(value));
                    add_parts(to, spare, functions, rest, calls, numbers)
                }
                (Mark::Formal(_), _) => { add_parts(to, spare, functions, rest, calls, numbers) }
                (Mark::Actual(of), None) => {
                    let (n, others) = first_of(numbers);
                    to.push(LiveField::Ready(as_value(of, n)?));
                    add_parts(to, spare, functions, rest, calls, others)
                }
                (Mark::Actual(of), Some(function)) => {
                    let parameters = parameters_of(functions, function);
                    let arguments = spare.remove(0);
                    to.push(call_field(arguments, function, parameters, of, numbers)?);
                    let others = behind(numbers, parameters.len());
                    add_parts(to, spare, functions, rest, calls, others)
                }
            }
        }
    }
}
