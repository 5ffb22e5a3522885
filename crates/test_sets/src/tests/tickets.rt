// Tickets that are drawn on one thread and on four.
ghost use Rattle.std.specs.Prelude.{◌≡◌, [], false, true};
ghost use Rattle.cl_value.specs.Acts.{is_eval};
ghost use Rattle.cl_value.specs.Views.{plain_what};

use super::rows::{a_failure, family};
use super::threads::{Drawn, four};
use cl_ground::{Items, NoMemory};
use cl_ticket::begin_table;
use cl_value::{Live, LiveField, Tuple, Value, What};
use std::alloc::Global;
use std::marker::Brand;
use std::sync::Wait;
use std::test::Fail;
use std::thread::Threads;

// What is done at a ticket, and what makes a process.
#[derive(Drop)]
struct Work {
    out: What,
    eval: What,
    ghost out_is: { is_eval (plain_what out) ≡ false },
    ghost eval_is: { is_eval (plain_what eval) ≡ true },
}

fn work_of(alloc: Global) -> Result<Work, NoMemory> {
    let mut fields = Items::new(alloc);
    fields.reserve(1)?;
    fields.push(LiveField::Ready(Value::Int(7)));
    let tuple = Tuple::with_room(alloc)?;
    Ok(Work {
        out: What::Out(tuple),
        eval: What::Eval(Live::new(fields)),
    })
}

// The names of a child and of a child of it, and the next ticket. That the latter has the depth 2, and that
// who leaves a set as full is marked, are clauses of what is called here.
fn names_of_family(alloc: Global, work: &Work) -> Result<Option<(u64, u64, u64)>, NoMemory> {
    let blank = begin_table(alloc, 1)?;
    family::<Brand>(alloc, blank, &work.eval, 16)
}

// Whether a child that fails first is seen by process 0.
fn child_fails_first(alloc: Global, work: &Work) -> Result<bool, NoMemory> {
    let blank = begin_table(alloc, 1)?;
    a_failure::<Brand>(alloc, blank, &work.eval, 16)
}

fn lengths_of(drawn: &Drawn) -> [u64; 5] {
    [
        drawn.next,
        drawn.first.len() as u64,
        drawn.second.len() as u64,
        drawn.third.len() as u64,
        drawn.fourth.len() as u64,
    ]
}

// The next ticket after four threads have drawn 10,000 each, and how many each has.
fn drawn_by_four<R: Threads + Wait + Sync>(
    rt: &R,
    alloc: Global,
    work: &Work,
) -> Result<[u64; 5], NoMemory> {
    let blank = begin_table(alloc, 4)?;
    match four::<Brand, R>(rt, alloc, blank, (&work.out, &work.eval), 16384, 10000)? {
        Some(drawn) => Ok(lengths_of(&drawn)),
        None => Ok([0; 5]),
    }
}

// What three runs tell.
struct Seen {
    names: Option<(u64, u64, u64)>,
    is_seen: bool,
    lengths: [u64; 5],
}

fn see_by<R: Threads + Wait + Sync>(rt: &R, alloc: Global, work: &Work) -> Result<Seen, NoMemory> {
    let names = names_of_family(alloc, work)?;
    let is_seen = child_fails_first(alloc, work)?;
    let lengths = drawn_by_four(rt, alloc, work)?;
    Ok(Seen {
        names,
        is_seen,
        lengths,
    })
}

fn see<R: Threads + Wait + Sync>(rt: &R, alloc: Global, work: Work) -> Result<Seen, NoMemory> {
    see_by(rt, alloc, &work)
}

#[test]
fn a_family_a_failure_and_four_threads(rt: HostRuntime) -> Result<(), Fail> {
    let Seen {
        names,
        is_seen,
        lengths,
    } = see(&rt, rt.alloc(), work_of(rt.alloc())?)?;
    assert_eq!(rt; names, Some((1, 2, 3)));
    assert!(rt; is_seen);
    assert_eq!(rt; lengths, [40001, 10000, 10000, 10000, 10000]);
    Ok(())
}
