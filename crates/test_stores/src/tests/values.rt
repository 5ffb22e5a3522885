// Copies of asks and acts of each kind can be made, and templates match as Linda has it.
ghost use Rattle.std.specs.Prelude.{◌≡◌, ◌<◌, ◌≤◌, length, IsTrue};
ghost use Rattle.std.specs.List.{list_all};
ghost use Rattle.cl_value.specs.Matching.{may_stand};

use cl_ground::{Items, NoMemory};
use cl_value::{
    Act, Ask, FieldType, Live, LiveField, Request, Slot, Steps, Template, Tuple, Value, What,
};
use std::alloc::Global;
use std::marker::Brand;
use std::sync::ledger::{Blank, Ledger};
use std::test::Fail;

fn tuple_of(alloc: Global, fields: &[Value]) -> Result<Tuple, NoMemory>
    requires some { 0 < length fields.now }
    requires few { length fields.now ≤ 16 }
{
    Ok(Tuple::new(Items::from_slice(alloc, fields)?))
}

fn template_of(alloc: Global, slots: &[Slot]) -> Result<Template, NoMemory>
    requires some { 0 < length slots.now }
    requires few { length slots.now ≤ 16 }
    requires stand { IsTrue (list_all may_stand slots.now) }
{
    Ok(Template::new(Items::from_slice(alloc, slots)?))
}

// ("x", 1L)
fn pair(alloc: Global) -> Result<Tuple, NoMemory> {
    tuple_of(alloc, &[Value::Text(0), Value::Long(1)])
}

// ("x", ?long)
fn pairs(alloc: Global) -> Result<Template, NoMemory> {
    template_of(
        alloc,
        &[Slot::Actual(Value::Text(0)), Slot::Formal(FieldType::Long)],
    )
}

// A live tuple of one call, which gives a char.
fn live(alloc: Global) -> Result<Live, NoMemory> {
    let arguments = Items::from_slice(alloc, &[Value::Long(1)])?;
    let mut fields = Items::new(alloc);
    fields.reserve(1)?;
    fields.push(LiveField::Call {
        function: 2,
        arguments,
        gives: FieldType::Char,
    });
    Ok(Live::new(fields))
}

#[derive(Clone, Copy, Debug, PartialEq, Eq)]
enum Asked {
    Out,
    In,
    Rd,
    Inp,
    Rdp,
    Eval,
    Land,
}

const ASKED: [Asked; 7] = [
    Asked::Out,
    Asked::In,
    Asked::Rd,
    Asked::Inp,
    Asked::Rdp,
    Asked::Eval,
    Asked::Land,
];

fn ask_of(alloc: Global, asked: Asked) -> Result<Ask, NoMemory> {
    match asked {
        Asked::Out => Ok(Ask::Out(pair(alloc)?)),
        Asked::In => Ok(Ask::In(pairs(alloc)?)),
        Asked::Rd => Ok(Ask::Rd(pairs(alloc)?)),
        Asked::Inp => Ok(Ask::Inp(pairs(alloc)?)),
        Asked::Rdp => Ok(Ask::Rdp(pairs(alloc)?)),
        Asked::Eval => Ok(Ask::Eval(live(alloc)?)),
        Asked::Land => Ok(Ask::Land(pair(alloc)?)),
    }
}

fn request_of(alloc: Global, asked: Asked) -> Result<Request, NoMemory> {
    let ask = ask_of(alloc, asked)?;
    Ok(Request { site: 3, ask })
}

fn kind_of(ask: &Ask) -> Asked {
    match ask {
        Ask::Out(_) => Asked::Out,
        Ask::In(_) => Asked::In,
        Ask::Rd(_) => Asked::Rd,
        Ask::Inp(_) => Asked::Inp,
        Ask::Rdp(_) => Asked::Rdp,
        Ask::Eval(_) => Asked::Eval,
        Ask::Land(_) => Asked::Land,
    }
}

fn is_asked(request: &Request, asked: Asked) -> bool {
    request.site == 3 && kind_of(&request.ask) == asked
}

// Whether the request can be copied. What the copy is, its clause says.
fn copies_request(alloc: Global, request: Request, asked: Asked) -> Result<bool, NoMemory> {
    let copy = request.copy(alloc)?;
    Ok(is_asked(&copy, asked))
}

fn asks_again(alloc: Global, asked: Asked) -> Result<bool, NoMemory> {
    copies_request(alloc, request_of(alloc, asked)?, asked)
}

#[derive(Clone, Copy, Debug, PartialEq, Eq)]
enum Done {
    Out,
    In,
    Rd,
    InpHit,
    InpMiss,
    RdpHit,
    RdpMiss,
    Eval,
    Land,
}

const DONE: [Done; 9] = [
    Done::Out,
    Done::In,
    Done::Rd,
    Done::InpHit,
    Done::InpMiss,
    Done::RdpHit,
    Done::RdpMiss,
    Done::Eval,
    Done::Land,
];

fn what_of(alloc: Global, done: Done) -> Result<What, NoMemory> {
    match done {
        Done::Out => Ok(What::Out(pair(alloc)?)),
        Done::In => Ok(What::In(pairs(alloc)?, pair(alloc)?)),
        Done::Rd => Ok(What::Rd(pairs(alloc)?, pair(alloc)?)),
        Done::InpHit => Ok(What::InpHit(pairs(alloc)?, pair(alloc)?)),
        Done::InpMiss => Ok(What::InpMiss(pairs(alloc)?)),
        Done::RdpHit => Ok(What::RdpHit(pairs(alloc)?, pair(alloc)?)),
        Done::RdpMiss => Ok(What::RdpMiss(pairs(alloc)?)),
        Done::Eval => Ok(What::Eval(live(alloc)?)),
        Done::Land => Ok(What::Land(pair(alloc)?)),
    }
}

fn act_of(alloc: Global, done: Done) -> Result<Act, NoMemory> {
    let what = what_of(alloc, done)?;
    Ok(Act {
        ticket: 9,
        proc: 4,
        site: 3,
        what,
    })
}

fn word_of(what: &What) -> Done {
    match what {
        What::Out(_) => Done::Out,
        What::In(_, _) => Done::In,
        What::Rd(_, _) => Done::Rd,
        What::InpHit(_, _) => Done::InpHit,
        What::InpMiss(_) => Done::InpMiss,
        What::RdpHit(_, _) => Done::RdpHit,
        What::RdpMiss(_) => Done::RdpMiss,
        What::Eval(_) => Done::Eval,
        What::Land(_) => Done::Land,
    }
}

fn is_done(act: &Act, done: Done) -> bool {
    act.ticket == 9 && act.proc == 4 && act.site == 3 && word_of(&act.what) == done
}

fn copies_act(alloc: Global, act: Act, done: Done) -> Result<bool, NoMemory> {
    let copy = act.copy(alloc)?;
    Ok(is_done(&copy, done))
}

fn does_again(alloc: Global, done: Done) -> Result<bool, NoMemory> {
    copies_act(alloc, act_of(alloc, done)?, done)
}

#[test]
fn requests_and_acts_are_copied(rt: HostRuntime) -> Result<(), Fail> {
    'asks: for asked in ASKED {
        assert!(rt; asks_again(rt.alloc(), asked)?);
    }
    'acts: for done in DONE {
        assert!(rt; does_again(rt.alloc(), done)?);
    }
    Ok(())
}

// Whether the template matches the tuple, as its comparison tells.
fn tests<L: Ledger>(template: &Template, tuple: &Tuple, blank: Blank) -> bool
    requires name { blank.name ≡ L.name }
    requires parts { blank.parts ≡ L.parts }
    requires some { 0 < blank.parts }
{
    let mut steps: Steps<L> = Steps::new(blank);
    template.test(tuple, &mut steps)
}

fn test_alone(template: &Template, tuple: &Tuple) -> bool {
    tests::<Brand>(template, tuple, Blank::new(1))
}

// A slot, a value, and whether a template of the one matches a tuple of the other.
const ROWS: [(Slot, Value, bool); 12] = [
    (Slot::Actual(Value::Int(7)), Value::Int(7), true),
    (Slot::Actual(Value::Int(7)), Value::Int(-7), false),
    (Slot::Actual(Value::Int(7)), Value::Long(7), false),
    (Slot::Actual(Value::Int(7)), Value::Char(7), false),
    (Slot::Actual(Value::Int(7)), Value::Text(7), false),
    (Slot::Formal(FieldType::Int), Value::Int(-7), true),
    (Slot::Formal(FieldType::Int), Value::Long(-7), false),
    (Slot::Formal(FieldType::Long), Value::Long(7), true),
    (Slot::Formal(FieldType::Char), Value::Char(7), true),
    (Slot::Formal(FieldType::Int), Value::Text(7), false),
    (Slot::Actual(Value::Text(1)), Value::Text(1), true),
    (Slot::Actual(Value::Text(1)), Value::Text(2), false),
];

// Whether a template of this slot alone matches a tuple of this value alone.
fn is_match(alloc: Global, slot: Slot, value: Value) -> Result<bool, NoMemory>
    requires { IsTrue (may_stand slot) }
{
    let template = template_of(alloc, &[slot])?;
    let tuple = tuple_of(alloc, &[value])?;
    Ok(test_alone(&template, &tuple))
}

fn goes_so(alloc: Global, row: &(Slot, Value, bool)) -> Result<bool, NoMemory> {
    let (slot, value, wanted) = *row;
    if !slot.may_stand() {
        return Ok(false);
    }
    Ok(is_match(alloc, slot, value)? == wanted)
}

// Whether the template of a pair matches the pair and no single field.
fn counts_fields(alloc: Global) -> Result<bool, NoMemory> {
    let pairs = pairs(alloc)?;
    let pair = pair(alloc)?;
    let single = tuple_of(alloc, &[Value::Text(0)])?;
    Ok(test_alone(&pairs, &pair) && !test_alone(&pairs, &single))
}

#[test]
fn matches_by_type_and_value(rt: HostRuntime) -> Result<(), Fail> {
    for row in ROWS.as_slice() {
        assert!(rt; goes_so(rt.alloc(), row)?);
    }
    assert!(rt; counts_fields(rt.alloc())?);
    Ok(())
}
