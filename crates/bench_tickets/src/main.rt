//! Draws tickets in one, two or four threads, each in a set of its own: what `bench/` measures.
//!
//! A line has the number of threads and how many tickets each draws. The answer is how many were drawn.
#![tactic(auto)]

ghost use Rattle.std.specs.Prelude.{◌≡◌, ◌≤◌, ◌<◌, ◌+◌, [], None, length, IfOk, true, false};
ghost use Rattle.std.specs.Thread.{IsSync};
ghost use Rattle.cl_value.specs.Acts.{is_eval};
ghost use Rattle.cl_value.specs.Views.{plain_what};
ghost use Rattle.cl_ticket.specs.Tokens.{new_set_tokens, HasGuest};

use cl_ground::{Items, NoMemory};
use cl_ticket::{
    Blank, Plan, ProcSeat, SetSeat, Tickets, begin_table, born, draw, enter, leave, make,
};
use cl_value::{Live, LiveField, Tuple, Value, What};
use std::alloc::Global;
use std::io;
use std::marker::Brand;
use std::thread::{Threads, join};

// The most tickets that a thread draws.
const MOST: u32 = 16_000_000;

// A set, and a process that will draw in it.
#[derive(Drop)]
struct Lane<K: Plan> {
    set: SetSeat<K>,
    guest: ProcSeat<K>,
    ghost alone: { set.guest ≡ None },
    ghost few: { length set.history.acts ≤ 3 },
    ghost room: { K.entries ≡ 16777216 },
}

impl<K: Plan> Lane<K> {
    // Draws so many tickets, and keeps them in a list. How many are kept.
    fn draw_all(
        self,
        alloc: Global,
        tickets: &Tickets<K>,
        out: &What,
        count: u32,
    ) -> Result<usize, NoMemory>
        requires most { count ≤ 16000000 }
        ensures few { IfOk result (λ n. n ≤ 16000000) }
    {
        let Lane { mut set, guest } = self;
        let mut drawn = Vec::new(alloc);
        enter(tickets, &mut set, guest);
        for site in 0..count {
            let ticket = draw(tickets, &mut set, site, out);
            if drawn.push(ticket).is_err() {
                return Err(NoMemory);
            }
        }
        leave(tickets, &mut set);
        Ok(drawn.len())
    }
}

// A child of the guest.
fn child_of<K: Plan>(tickets: &Tickets<K>, set: &mut SetSeat<K>, eval: &What) -> ProcSeat<K>
    requires guest { HasGuest set.old }
    requires born { set.old.unborn ≡ [] }
    requires room { length set.old.history.acts < K.entries }
    requires eval { is_eval (plain_what eval.now) ≡ true }
    ensures guest { HasGuest set.new }
    ensures born { set.new.unborn ≡ [] }
    ensures more { length set.new.history.acts ≡ length set.old.history.acts + 1 }
{
    draw(tickets, set, 0, eval);
    born(tickets, set)
}

// The four sets of a new table, with process 0 and three children of it.
fn lanes<K: Plan>(
    tickets: &Tickets<K>,
    mut seats: Vec<SetSeat<K>>,
    main: ProcSeat<K>,
    eval: &What,
) -> Option<(Lane<K>, Lane<K>, Lane<K>, Lane<K>)>
    requires places { seats.items ≡ new_set_tokens 4 }
    requires room { K.entries ≡ 16777216 }
    requires eval { is_eval (plain_what eval.now) ≡ true }
{
    let fourth = seats.pop()?;
    let third = seats.pop()?;
    let second = seats.pop()?;
    let mut first = seats.pop()?;
    enter(tickets, &mut first, main);
    let one = child_of(tickets, &mut first, eval);
    let two = child_of(tickets, &mut first, eval);
    let three = child_of(tickets, &mut first, eval);
    let main = leave(tickets, &mut first);
    Some((
        Lane {
            set: first,
            guest: main,
        },
        Lane {
            set: second,
            guest: one,
        },
        Lane {
            set: third,
            guest: two,
        },
        Lane {
            set: fourth,
            guest: three,
        },
    ))
}

// Draws in two threads.
fn draw_both<K: Plan + Send + Sync, R: Threads + Sync>(
    rt: &R,
    alloc: Global,
    tickets: &Tickets<K>,
    lanes: (Lane<K>, Lane<K>),
    out: &What,
    count: u32,
) -> Result<usize, NoMemory>
    requires most { count ≤ 16000000 }
    ensures few { IfOk result (λ n. n ≤ 32000000) }
{
    let (first, second) = lanes;
    let (one, other) = join(
        rt,
        || -> Result<usize, NoMemory>
            requires most { count ≤ 16000000 }
            ensures few { IfOk result (λ n. n ≤ 16000000) }
        { first.draw_all(alloc, tickets, out, count) },
        || -> Result<usize, NoMemory>
            requires most { count ≤ 16000000 }
            ensures few { IfOk result (λ n. n ≤ 16000000) }
        { second.draw_all(alloc, tickets, out, count) },
    );
    Ok(one? + other?)
}

#[derive(Clone, Copy)]
enum Width {
    One,
    Two,
    Four,
}

impl Width {
    fn named(word: &str) -> Option<Width> {
        match word {
            "1" => Some(Width::One),
            "2" => Some(Width::Two),
            "4" => Some(Width::Four),
            _ => None,
        }
    }
}

// What is done at each ticket, and what makes a process.
#[derive(Drop)]
struct Work {
    out: What,
    eval: What,
    ghost eval_is: { is_eval (plain_what eval) ≡ true },
}

impl Work {
    fn new(alloc: Global) -> Result<Work, NoMemory> {
        let out = What::Out(Tuple::with_room(alloc)?);
        let mut fields = Items::new(alloc);
        fields.reserve(1)?;
        fields.push(LiveField::Ready(Value::Int(7)));
        let eval = What::Eval(Live::new(fields));
        Ok(Work { out, eval })
    }
}

fn run<K: Plan + Send + Sync, R: Threads + Sync>(
    rt: &R,
    alloc: Global,
    blank: Blank,
    work: &Work,
    width: Width,
    count: u32,
) -> Result<usize, NoMemory>
    requires table { blank.table ≡ K.table }
    requires shapes { (blank.sets ≡ length K.shapes) × (length K.shapes ≡ 4) }
    requires room { K.entries ≡ 16777216 }
    requires most { count ≤ 16000000 }
{
    let (tickets, seats, main) = make::<K>(alloc, blank)?;
    let Some((first, second, third, fourth)) = lanes(&tickets, seats, main, &work.eval) else {
        return Ok(0);
    };
    match width {
        Width::One => first.draw_all(alloc, &tickets, &work.out, count),
        Width::Two => draw_both(rt, alloc, &tickets, (first, second), &work.out, count),
        Width::Four => {
            let out = &work.out;
            let (one, other) = join(
                rt,
                || -> Result<usize, NoMemory>
                    requires most { IsSync R.row × (count ≤ 16000000) }
                    ensures few { IfOk result (λ n. n ≤ 32000000) }
                { draw_both(rt, alloc, &tickets, (first, second), out, count) },
                || -> Result<usize, NoMemory>
                    requires most { IsSync R.row × (count ≤ 16000000) }
                    ensures few { IfOk result (λ n. n ≤ 32000000) }
                { draw_both(rt, alloc, &tickets, (third, fourth), out, count) },
            );
            Ok(one? + other?)
        }
    }
}

// A table for four sets, and a run in it.
fn answer<R: Threads + Sync>(
    rt: &R,
    alloc: Global,
    width: Width,
    count: u32,
) -> Result<usize, NoMemory>
    requires most { count ≤ 16000000 }
{
    let blank = begin_table(alloc, 4)?;
    let work = Work::new(alloc)?;
    run::<Brand, R>(rt, alloc, blank, &work, width, count)
}

fn main(rt: HostRuntime) -> io::Result<()> {
    for line in rt.lines(rt.alloc()) {
        let line = line?;
        let Some((word, count)) = line.as_str().split_once(' ') else {
            continue;
        };
        let (Some(width), Ok(count)) = (Width::named(word), count.parse::<u32>()) else {
            println!(rt; "{word} is no number of threads")?;
            continue;
        };
        if count > MOST {
            println!(rt; "{count} is too many")?;
            continue;
        }
        match answer(&rt, rt.alloc(), width, count) {
            Ok(drawn) => println!(rt; "{word} {count} {drawn}")?,
            Err(NoMemory) => println!(rt; "{word} {count} no memory")?,
        }
    }
    Ok(())
}
