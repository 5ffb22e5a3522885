// Operations of each kind on a set of each class.
ghost use Rattle.std.specs.Prelude.{◌≡◌, ◌<◌};

use super::trial::{SEVEN, Told, Trial, Trying, request_of};
use cl_ground::NoMemory;
use cl_sig::Class;
use cl_value::{Request, Steps};
use std::alloc::Global;
use std::marker::Brand;
use std::sync::ledger::{Blank, Ledger};
use std::test::Fail;

const CLASSES: [Class; 4] = [Class::Counter, Class::Queue, Class::Keyed(1), Class::List];

// A formal under Queue, and else the number.
fn asked_of(class: Class) -> Option<i32> {
    match class {
        Class::Queue => None,
        Class::Counter | Class::Keyed(_) | Class::List => Some(SEVEN),
    }
}

// An operation, and what must come of it.
#[derive(Clone, Copy)]
struct Row {
    trying: Trying,
    wanted: Told,
}

fn tried(trying: Trying, wanted: Told) -> Row {
    Row { trying, wanted }
}

fn each_kind(asked: Option<i32>) -> [Row; 13] {
    [
        tried(Trying::Rdp(asked), Told::RdpMiss),
        tried(Trying::Inp(asked), Told::InpMiss),
        tried(Trying::Rd(asked), Told::NotYet),
        tried(Trying::Out(SEVEN), Told::Out(SEVEN)),
        tried(Trying::Rd(asked), Told::Rd(SEVEN)),
        tried(Trying::Rdp(asked), Told::RdpHit(SEVEN)),
        tried(Trying::In(asked), Told::In(SEVEN)),
        tried(Trying::In(asked), Told::NotYet),
        tried(Trying::Eval(SEVEN), Told::Eval),
        tried(Trying::In(asked), Told::NotYet),
        tried(Trying::Land(SEVEN), Told::Land(SEVEN)),
        tried(Trying::Inp(asked), Told::InpHit(SEVEN)),
        tried(Trying::Inp(asked), Told::InpMiss),
    ]
}

fn none_left(asked: Option<i32>) -> [Row; 5] {
    [
        tried(Trying::Out(SEVEN), Told::Full),
        tried(Trying::Inp(asked), Told::Full),
        tried(Trying::In(asked), Told::NotYet),
        tried(Trying::Rd(asked), Told::NotYet),
        tried(Trying::Eval(SEVEN), Told::Full),
    ]
}

fn one_left(asked: Option<i32>) -> [Row; 4] {
    [
        tried(Trying::Out(SEVEN), Told::Out(SEVEN)),
        tried(Trying::Out(SEVEN), Told::Full),
        tried(Trying::Inp(asked), Told::Full),
        tried(Trying::In(asked), Told::Full),
    ]
}

// Whether an operation goes so, and it was told before whether it waits.
fn goes_so<L: Ledger>(
    trial: &mut Trial,
    request: &Request,
    wanted: Told,
    steps: &mut Steps<L>,
) -> bool {
    trial.waits(request, steps) == (wanted == Told::NotYet) && trial.act(request, steps) == wanted
}

// Whether the operations go so, one after another.
fn go_so<L: Ledger>(
    alloc: Global,
    trial: &mut Trial,
    class: Class,
    rows: &[Row],
    steps: &mut Steps<L>,
) -> Result<bool, NoMemory> {
    for row in rows {
        let request = request_of(alloc, class, row.trying)?;
        if !goes_so(trial, &request, row.wanted, steps) {
            return Ok(false);
        }
    }
    Ok(true)
}

// Whether they go so on a new set with this limit.
fn go_so_in<L: Ledger>(
    alloc: Global,
    class: Class,
    limit: u32,
    rows: &[Row],
    blank: Blank,
) -> Result<bool, NoMemory>
    requires name { blank.name ≡ L.name }
    requires parts { blank.parts ≡ L.parts }
    requires some { 0 < blank.parts }
{
    let mut steps: Steps<L> = Steps::new(blank);
    match Trial::new(alloc, class, limit)? {
        Some(mut trial) => go_so(alloc, &mut trial, class, rows, &mut steps),
        None => Ok(false),
    }
}

fn try_rows(alloc: Global, class: Class, limit: u32, rows: &[Row]) -> Result<bool, NoMemory> {
    go_so_in::<Brand>(alloc, class, limit, rows, Blank::new(1))
}

#[test]
fn each_kind_of_act_on_each_class(rt: HostRuntime) -> Result<(), Fail> {
    for class in CLASSES {
        let rows = each_kind(asked_of(class));
        assert!(rt; try_rows(rt.alloc(), class, 100, rows.as_slice())?);
    }
    Ok(())
}

#[test]
fn the_limit_counts_after_waiting(rt: HostRuntime) -> Result<(), Fail> {
    for class in CLASSES {
        let none = none_left(asked_of(class));
        assert!(rt; try_rows(rt.alloc(), class, 0, none.as_slice())?);
        let one = one_left(asked_of(class));
        assert!(rt; try_rows(rt.alloc(), class, 1, one.as_slice())?);
    }
    Ok(())
}
