// Four processes in threads of their own, over a set each behind a lock.
ghost use Rattle.std.specs.Prelude.{◌≡◌, ◌<◌, ◌+◌, ◌≤◌, ◌++◌, [], ◌∷◌, None, length, vec_len, vec_capacity, IfOk, IfSome, false, true};
ghost use Rattle.std.specs.Thread.{IsSync};
ghost use Rattle.cl_value.specs.Acts.{is_eval};
ghost use Rattle.cl_value.specs.Views.{plain_what};
ghost use Rattle.cl_ticket.specs.Steps.{tickets_of};
ghost use Rattle.cl_ticket.specs.Points.{AreBelow, DrawnOnce};
ghost use Rattle.cl_ticket.specs.Tokens.{participants_of, new_set_tokens};

use super::set_state::SetState;
use cl_ground::NoMemory;
use cl_ticket::{Blank, Plan, ProcSeat, SetSeat, Tickets, close, gather, make};
use cl_value::What;
use std::alloc::Global;
use std::sync::{Mutex, Wait};
use std::thread::{Threads, join};

// A process and the tickets that it has drawn.
#[derive(Drop)]
pub struct Worker<K: Plan> {
    seat: ProcSeat<K>,
    drawn: Vec<u64>,
    ghost told: { drawn.items ≡ tickets_of seat.participant.acts },
}

impl<K: Plan> Worker<K> {
    // The act, where the set has room for it.
    fn act(self, tickets: &Tickets<K>, set: &mut SetState<K>, site: u32, what: &What) -> Worker<K>
        requires act { is_eval (plain_what what.now) ≡ false }
        requires room { vec_len self.drawn < vec_capacity self.drawn }
        ensures origin { result.seat.participant.origin ≡ self.seat.participant.origin }
        ensures gathered { result.seat.gathered ≡ self.seat.gathered }
        ensures room { (vec_capacity result.drawn ≡ vec_capacity self.drawn) × (vec_len result.drawn ≤ vec_len self.drawn + 1) }
    {
        if set.is_full() {
            return self;
        }
        let Worker { seat, mut drawn } = self;
        let (seat, ticket) = set.act(tickets, seat, site, what);
        drawn.push_reserved(ticket);
        Worker { seat, drawn }
    }

    // Makes a process, where the set has room.
    fn eval(
        self,
        tickets: &Tickets<K>,
        set: &mut SetState<K>,
        site: u32,
        what: &What,
    ) -> Option<(Worker<K>, ProcSeat<K>)>
        requires act { is_eval (plain_what what.now) ≡ true }
        requires room { vec_len self.drawn < vec_capacity self.drawn }
        ensures origin { IfSome result (λ r. r.0.seat.participant.origin ≡ self.seat.participant.origin) }
        ensures gathered { IfSome result (λ r. r.0.seat.gathered ≡ self.seat.gathered) }
        ensures child { IfSome result (λ r. (r.1.participant.acts ≡ []) × (r.1.gathered ≡ [])) }
        ensures room { IfSome result (λ r. (vec_capacity r.0.drawn ≡ vec_capacity self.drawn) × (vec_len r.0.drawn ≡ vec_len self.drawn + 1)) }
    {
        if set.is_full() {
            return None;
        }
        let Worker { seat, mut drawn } = self;
        let (seat, child, ticket) = set.eval(tickets, seat, site, what);
        drawn.push_reserved(ticket);
        Some((Worker { seat, drawn }, child))
    }

    // A process that has done nothing yet, with room for so many tickets.
    fn new(alloc: Global, seat: ProcSeat<K>, count: u32) -> Result<Worker<K>, NoMemory>
        requires { seat.participant.acts ≡ [] }
        ensures seat { IfOk result (λ r. r.seat ≡ seat) }
        ensures room { IfOk result (λ r. (vec_len r.drawn ≡ 0) × (count ≤ vec_capacity r.drawn)) }
    {
        match Vec::with_capacity(alloc, count as usize) {
            Ok(drawn) => Ok(Worker { seat, drawn }),
            Err(_) => Err(NoMemory),
        }
    }
}

// The process does acts until it has done so many, as far as the set has room.
fn work<K: Plan, R: Wait>(
    rt: &R,
    tickets: &Tickets<K>,
    set: &Mutex<SetState<K>>,
    worker: Worker<K>,
    out: &What,
    count: u32,
) -> Worker<K>
    requires out { is_eval (plain_what out.now) ≡ false }
    requires room { (vec_len worker.drawn ≤ count) × (count ≤ vec_capacity worker.drawn) }
    ensures origin { result.seat.participant.origin ≡ worker.seat.participant.origin }
    ensures gathered { result.seat.gathered ≡ worker.seat.gathered }
{
    let mut worker = worker;
    let done = worker.drawn.len() as u32;
    for site in done..count {
        let mut state = set.lock(rt);
        worker = worker.act(tickets, &mut state, site, out);
    }
    worker
}

// Two processes in two threads.
fn work_both<K: Plan + Send + Sync, R: Threads + Wait + Sync>(
    rt: &R,
    tickets: &Tickets<K>,
    sets: (&Mutex<SetState<K>>, &Mutex<SetState<K>>),
    one: Worker<K>,
    other: Worker<K>,
    out: &What,
    count: u32,
) -> (Worker<K>, Worker<K>)
    requires out { is_eval (plain_what out.now) ≡ false }
    requires one { (vec_len one.drawn ≤ count) × (count ≤ vec_capacity one.drawn) }
    requires other { (vec_len other.drawn ≤ count) × (count ≤ vec_capacity other.drawn) }
    ensures origin { result.0.seat.participant.origin ≡ one.seat.participant.origin }
    ensures gathered { (result.0.seat.gathered ≡ one.seat.gathered) × (result.1.seat.gathered ≡ other.seat.gathered) }
{
    let (first, second) = sets;
    join(
        rt,
        || -> Worker<K>
            requires out { is_eval (plain_what out.now) ≡ false }
            requires one { (vec_len one.drawn ≤ count) × (count ≤ vec_capacity one.drawn) }
            ensures origin { result.seat.participant.origin ≡ one.seat.participant.origin }
            ensures gathered { result.seat.gathered ≡ one.seat.gathered }
        { work(rt, tickets, first, one, out, count) },
        || -> Worker<K>
            requires out { is_eval (plain_what out.now) ≡ false }
            requires other { (vec_len other.drawn ≤ count) × (count ≤ vec_capacity other.drawn) }
            ensures gathered { result.seat.gathered ≡ other.seat.gathered }
        { work(rt, tickets, second, other, out, count) },
    )
}

// The four sets of a new table.
fn four_states<K: Plan>(
    mut seats: Vec<SetSeat<K>>,
    limit: u32,
) -> Option<(SetState<K>, SetState<K>, SetState<K>, SetState<K>)>
    requires limit { limit ≡ K.entries }
    requires places { seats.items ≡ new_set_tokens 4 }
{
    let fourth = seats.pop()?;
    let third = seats.pop()?;
    let second = seats.pop()?;
    let first = seats.pop()?;
    Some((
        SetState::new(first, limit),
        SetState::new(second, limit),
        SetState::new(third, limit),
        SetState::new(fourth, limit),
    ))
}

// Hands in the four sets, where as many evals were done as processes were gathered.
fn close_four<K: Plan>(
    alloc: Global,
    tickets: Tickets<K>,
    sets: (SetState<K>, SetState<K>, SetState<K>, SetState<K>),
    main: ProcSeat<K>,
) -> Result<Option<u64>, NoMemory>
    requires four { length K.shapes ≡ 4 }
    requires gathered { length main.gathered ≡ 3 }
    ensures once { IfOk result (λ r. IfSome r (λ next. DrawnOnce next (participants_of main))) }
{
    let Ok(mut ended) = Vec::with_capacity(alloc, 4) else {
        return Err(NoMemory);
    };
    let (one, two, three, four) = sets;
    let few = one.evals <= 3 && two.evals <= 3 && three.evals <= 3 && four.evals <= 3;
    if !few || one.evals + two.evals + three.evals + four.evals != 3 || main.name() != 0 {
        return Ok(None);
    }
    ended.push_reserved(one.into_seat());
    ended.push_reserved(two.into_seat());
    ended.push_reserved(three.into_seat());
    ended.push_reserved(four.into_seat());
    Ok(Some(close(tickets, ended, main).next))
}

// The tickets that four threads drew, and the next one.
#[derive(Drop)]
pub struct Drawn {
    pub next: u64,
    pub first: Vec<u64>,
    pub second: Vec<u64>,
    pub third: Vec<u64>,
    pub fourth: Vec<u64>,
}

// The first process gathers the others, and hands in the four sets.
fn finish<K: Plan>(
    alloc: Global,
    tickets: Tickets<K>,
    sets: (SetState<K>, SetState<K>, SetState<K>, SetState<K>),
    workers: (Worker<K>, Worker<K>, Worker<K>, Worker<K>),
) -> Result<Option<Drawn>, NoMemory>
    requires four { length K.shapes ≡ 4 }
    requires first { (workers.0.seat.gathered ≡ []) × (workers.1.seat.gathered ≡ []) }
    requires last { (workers.2.seat.gathered ≡ []) × (workers.3.seat.gathered ≡ []) }
    ensures once { IfOk result (λ r. IfSome r (λ d. AreBelow d.next (0 ∷ (d.first.items ++ (d.second.items ++ (d.third.items ++ d.fourth.items)))))) }
{
    let (main, second, third, fourth) = workers;
    let Worker {
        seat: mut main,
        drawn: first,
    } = main;
    let Worker {
        seat: second,
        drawn: second_drawn,
    } = second;
    let Worker {
        seat: third,
        drawn: third_drawn,
    } = third;
    let Worker {
        seat: fourth,
        drawn: fourth_drawn,
    } = fourth;
    gather(&tickets, &mut main, second);
    gather(&tickets, &mut main, third);
    gather(&tickets, &mut main, fourth);
    let Some(next) = close_four(alloc, tickets, sets, main)? else {
        return Ok(None);
    };
    Ok(Some(Drawn {
        next,
        first,
        second: second_drawn,
        third: third_drawn,
        fourth: fourth_drawn,
    }))
}

// Process 0, and three children that it makes, with room for so many tickets each.
fn workers<K: Plan>(
    alloc: Global,
    tickets: &Tickets<K>,
    set: &mut SetState<K>,
    main: ProcSeat<K>,
    eval: &What,
    count: u32,
) -> Result<Option<(Worker<K>, Worker<K>, Worker<K>, Worker<K>)>, NoMemory>
    requires some { 3 ≤ count }
    requires main { (main.participant.acts ≡ []) × (main.gathered ≡ []) }
    requires eval { is_eval (plain_what eval.now) ≡ true }
    ensures gathered { IfOk result (λ r. IfSome r (λ w. (w.0.seat.gathered ≡ []) × (w.1.seat.gathered ≡ []) × (w.2.seat.gathered ≡ []) × (w.3.seat.gathered ≡ []))) }
    ensures first { IfOk result (λ r. IfSome r (λ w. (vec_len w.0.drawn ≤ count) × (count ≤ vec_capacity w.0.drawn))) }
    ensures second { IfOk result (λ r. IfSome r (λ w. (vec_len w.1.drawn ≤ count) × (count ≤ vec_capacity w.1.drawn))) }
    ensures third { IfOk result (λ r. IfSome r (λ w. (vec_len w.2.drawn ≤ count) × (count ≤ vec_capacity w.2.drawn))) }
    ensures fourth { IfOk result (λ r. IfSome r (λ w. (vec_len w.3.drawn ≤ count) × (count ≤ vec_capacity w.3.drawn))) }
{
    let main = Worker::new(alloc, main, count)?;
    let Some((main, second)) = main.eval(tickets, set, 0, eval) else {
        return Ok(None);
    };
    let Some((main, third)) = main.eval(tickets, set, 0, eval) else {
        return Ok(None);
    };
    let Some((main, fourth)) = main.eval(tickets, set, 0, eval) else {
        return Ok(None);
    };
    let second = Worker::new(alloc, second, count)?;
    let third = Worker::new(alloc, third, count)?;
    let fourth = Worker::new(alloc, fourth, count)?;
    Ok(Some((main, second, third, fourth)))
}

// Four threads do so many acts each, in a set each. Where the counts agree at the end, 0 and the tickets that
// were drawn are the numbers below the next ticket, each once.
pub fn four<K: Plan + Send + Sync, R: Threads + Wait + Sync>(
    rt: &R,
    alloc: Global,
    blank: Blank,
    whats: (&What, &What),
    limit: u32,
    count: u32,
) -> Result<Option<Drawn>, NoMemory>
    requires table { blank.table ≡ K.table }
    requires shapes { blank.sets ≡ length K.shapes }
    requires four { length K.shapes ≡ 4 }
    requires limit { limit ≡ K.entries }
    requires most { K.entries ≤ 16777216 }
    requires some { 3 ≤ count }
    requires out { is_eval (plain_what whats.0.now) ≡ false }
    requires eval { is_eval (plain_what whats.1.now) ≡ true }
    ensures once { IfOk result (λ r. IfSome r (λ d. AreBelow d.next (0 ∷ (d.first.items ++ (d.second.items ++ (d.third.items ++ d.fourth.items)))))) }
{
    let (out, eval) = whats;
    let (tickets, seats, main) = make::<K>(alloc, blank)?;
    let Some((mut one, two, three, four)) = four_states(seats, limit) else {
        return Ok(None);
    };
    let Some((main, second, third, fourth)) = workers(alloc, &tickets, &mut one, main, eval, count)?
    else {
        return Ok(None);
    };
    let one = Mutex::new(one);
    let two = Mutex::new(two);
    let three = Mutex::new(three);
    let four = Mutex::new(four);
    let ((main, second), (third, fourth)) = join(
        rt,
        || -> (Worker<K>, Worker<K>)
            requires out { IsSync R.row × (is_eval (plain_what out.now) ≡ false) }
            requires one { (vec_len main.drawn ≤ count) × (count ≤ vec_capacity main.drawn) }
            requires other { (vec_len second.drawn ≤ count) × (count ≤ vec_capacity second.drawn) }
            ensures origin { result.0.seat.participant.origin ≡ main.seat.participant.origin }
            ensures gathered { (result.0.seat.gathered ≡ main.seat.gathered) × (result.1.seat.gathered ≡ second.seat.gathered) }
        { work_both(rt, &tickets, (&one, &two), main, second, out, count) },
        || -> (Worker<K>, Worker<K>)
            requires out { IsSync R.row × (is_eval (plain_what out.now) ≡ false) }
            requires one { (vec_len third.drawn ≤ count) × (count ≤ vec_capacity third.drawn) }
            requires other { (vec_len fourth.drawn ≤ count) × (count ≤ vec_capacity fourth.drawn) }
            ensures gathered { (result.0.seat.gathered ≡ third.seat.gathered) × (result.1.seat.gathered ≡ fourth.seat.gathered) }
        { work_both(rt, &tickets, (&three, &four), third, fourth, out, count) },
    );
    let sets = (
        one.into_inner(),
        two.into_inner(),
        three.into_inner(),
        four.into_inner(),
    );
    finish(alloc, tickets, sets, (main, second, third, fourth))
}
