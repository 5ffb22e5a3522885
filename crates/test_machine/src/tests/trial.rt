// A process that is told replies, one after another.

ghost use Rattle.std.specs.Prelude.{◌≡◌, ◌≤◌, true, List, IfOk, IfSome, IsTrue, Some};
ghost use Rattle.cl_value.specs.Acts.{fits};
ghost use Rattle.cl_value.specs.LiveViews.{plain_live};
ghost use Rattle.cl_value.specs.Plain.{Eval, Got, Lives, PlainReply};
ghost use Rattle.cl_value.specs.Matching.{accepts, matches};
ghost use Rattle.cl_value.specs.declared.request.Request.{Request as AnyRequest};
ghost use Rattle.cl_value.specs.declared.value.Value.{Value as AnyValue};
ghost use Rattle.cl_value.specs.Views.{plain_ask, plain_start};
ghost use Rattle.cl_code.specs.Plain.{plain_program};
ghost use Rattle.cl_code.specs.Starts.{start_fits};
ghost use Rattle.cl_vm.specs.Hears.{plain_reply};
ghost use Rattle.cl_vm.specs.Processes.{request_of};
ghost use Rattle.cl_vm.specs.Trials.{MayHear};
ghost use Rattle.cl_vm.specs.declared.vm.Demand.TheVariants as demands;
ghost use Rattle.cl_vm.specs.declared.vm.Reply.TheVariants as replied;
ghost use Rattle.cl_ground.specs.declared.limits.TheConstants.{MOST_DEPTH, MOST_STEPS};
ghost use Rattle.test_machine.specs.Standing.{HasBegun, IsNew};

use super::wanted::{Ending, Exchange, Told, lands, tuple_of};
use cl_code::{Program, each_process_is_right};
use cl_ground::NoMemory;
use cl_value::{Ask, Limits, Live, Request, Slot, Start, Template, Trap, Tuple, Value};
use cl_vm::{Demand, Reply, Vm};
use std::alloc::Global;

// ---- whether a reply fits

// Whether a slot takes a value.
fn accepts(slot: Slot, value: Value) -> bool
    ensures { result ≡ accepts slot value }
{
    match slot {
        Slot::Actual(actual) => actual == value,
        Slot::Formal(formal) => formal == value.type_of(),
    }
}

// Whether values match slots.
fn accepts_all(slots: &[Slot], values: &[Value]) -> bool
    ensures { result ≡ matches slots.now values.now }
{
    match slots {
        [] => values.is_empty(),
        [slot, slots @ ..] => match values {
            [] => false,
            [value, values @ ..] => accepts(*slot, *value) && accepts_all(slots, values),
        },
    }
}

// Whether a tuple matches a template.
fn is_match(template: &Template, tuple: &Tuple) -> bool
    ensures { result ≡ matches template.now.items tuple.now.items }
{
    accepts_all(template.slots(), tuple.fields())
}

// The template of an operation that takes or reads.
fn template_of(ask: &Ask) -> Option<&Template>
    ensures { IfSome result (λ template. (tuple : List AnyValue) → fits (plain_ask ask.now) (Got tuple) ≡ matches template.now.items tuple) }
{
    match ask {
        Ask::In(template) => Some(template),
        Ask::Rd(template) => Some(template),
        Ask::Inp(template) => Some(template),
        Ask::Rdp(template) => Some(template),
        _ => None,
    }
}

// Whether a reply fits an operation.
fn is_fit(ask: &Ask, reply: &Reply<'_>) -> bool
    ensures { result ≡ true → (told : PlainReply) × (plain_reply reply.now ≡ Some told) × IsTrue (fits (plain_ask ask.now) told) }
{
    match reply {
        Reply::Begin => false,
        Reply::Done => matches!(ask, Ask::Out(_) | Ask::Eval(_)),
        Reply::Miss => matches!(ask, Ask::Inp(_) | Ask::Rdp(_)),
        Reply::Got(tuple) => match template_of(ask) {
            Some(template) => is_match(template, tuple),
            None => false,
        },
    }
}

// ---- one process

// Begins a process.
fn begin_by(vm: &mut Vm, program: &Program, reply: &Reply<'_>) -> Demand
    requires begins { reply.now ≡ replied.Begin }
    requires new { IsNew (plain_program program.now) vm.old }
    ensures { HasBegun (plain_program program.now) result vm.new }
{
    vm.resume(program, reply)
}

// The same.
fn begin(vm: &mut Vm, program: &Program) -> Demand
    requires { IsNew (plain_program program.now) vm.old }
    ensures { HasBegun (plain_program program.now) result vm.new }
{
    begin_by(vm, program, &Reply::Begin)
}

// The standing request.
fn asked<'a>(vm: &'a Vm, program: &Program) -> &'a Request
    requires { HasBegun (plain_program program.now) demands.Op vm.now }
    ensures { request_of vm.now ≡ Some result.now }
{
    vm.request()
}

// Goes on with a reply that fits.
fn hear(vm: &mut Vm, program: &Program, reply: &Reply<'_>) -> Demand
    requires stands { HasBegun (plain_program program.now) demands.Op vm.old }
    requires fits { MayHear reply.now vm.old }
    ensures { HasBegun (plain_program program.now) result vm.new }
{
    vm.resume(program, reply)
}

// Goes on, if the reply fits.
fn hear_if_fit(vm: &mut Vm, program: &Program, reply: &Reply<'_>) -> Option<Demand>
    requires { HasBegun (plain_program program.now) demands.Op vm.old }
    ensures { IfSome result (λ demand. HasBegun (plain_program program.now) demand vm.new) }
{
    if is_fit(&asked(vm, program).ask, reply) {
        Some(hear(vm, program, reply))
    } else {
        None
    }
}

// The same with a tuple, if there is one.
fn hear_tuple(vm: &mut Vm, program: &Program, tuple: &Option<Tuple>) -> Option<Demand>
    requires { HasBegun (plain_program program.now) demands.Op vm.old }
    ensures { IfSome result (λ demand. HasBegun (plain_program program.now) demand vm.new) }
{
    match tuple {
        Some(tuple) => hear_if_fit(vm, program, &Reply::Got(tuple)),
        None => None,
    }
}

// The same with what is told.
fn hear_told(
    alloc: Global,
    vm: &mut Vm,
    program: &Program,
    told: Told,
) -> Result<Option<Demand>, NoMemory>
    requires { HasBegun (plain_program program.now) demands.Op vm.old }
    ensures { IfOk result (λ heard. IfSome heard (λ demand. HasBegun (plain_program program.now) demand vm.new)) }
{
    match told {
        Told::Done => Ok(hear_if_fit(vm, program, &Reply::Done)),
        Told::Got(values) => {
            let tuple = tuple_of(alloc, values)?;
            Ok(hear_tuple(vm, program, &tuple))
        }
        Told::Miss => Ok(hear_if_fit(vm, program, &Reply::Miss)),
    }
}

// Goes on by an exchange, if it asks for that, and the reply fits.
fn exchanged(
    alloc: Global,
    vm: &mut Vm,
    program: &Program,
    exchange: &Exchange,
) -> Result<Option<Demand>, NoMemory>
    requires { HasBegun (plain_program program.now) demands.Op vm.old }
    ensures { IfOk result (λ heard. IfSome heard (λ demand. HasBegun (plain_program program.now) demand vm.new)) }
{
    if exchange.asks(asked(vm, program)) {
        hear_told(alloc, vm, program, exchange.told)
    } else {
        Ok(None)
    }
}

// Goes on by exchanges, as far as they come true.
fn exchanged_all(
    alloc: Global,
    vm: &mut Vm,
    program: &Program,
    demand: Demand,
    exchanges: &[Exchange],
) -> Result<Option<Demand>, NoMemory>
    requires { HasBegun (plain_program program.now) demand vm.old }
    ensures { IfOk result (λ heard. IfSome heard (λ last. HasBegun (plain_program program.now) last vm.new)) }
{
    match exchanges {
        [] => Ok(Some(demand)),
        [exchange, rest @ ..] => match demand {
            Demand::Op => match exchanged(alloc, vm, program, exchange)? {
                Some(next) => exchanged_all(alloc, vm, program, next, rest),
                None => Ok(None),
            },
            Demand::Finished | Demand::Trapped(_) => Ok(None),
        },
    }
}

// The values of a process, where it finished.
fn values_of<'a>(vm: &'a Vm, program: &Program, demand: Demand) -> &'a [Value]
    requires { HasBegun (plain_program program.now) demand vm.now }
{
    match demand {
        Demand::Finished => vm.values().fields(),
        Demand::Op | Demand::Trapped(_) => &[],
    }
}

// Whether a process lands so.
fn has_landed(vm: &Vm, program: &Program, demand: Demand, site: u32, values: &[Value]) -> bool
    requires { HasBegun (plain_program program.now) demand vm.now }
{
    match demand {
        Demand::Finished => lands(vm.request(), site, values),
        Demand::Op | Demand::Trapped(_) => false,
    }
}

// Whether a process finished with this value, and printed this.
fn has_finished(vm: &Vm, program: &Program, demand: Demand, value: Value, output: &[u8]) -> bool
    requires { HasBegun (plain_program program.now) demand vm.now }
{
    match values_of(vm, program, demand) {
        [only] => *only == value && vm.output() == output,
        _ => false,
    }
}

// Whether a process trapped so, when it had printed so many bytes.
fn has_trapped(vm: &Vm, demand: Demand, wanted: Trap, printed: usize) -> bool {
    match demand {
        Demand::Trapped(trap) => trap == wanted && vm.output().len() == printed,
        Demand::Op | Demand::Finished => false,
    }
}

// Whether a process ended so.
fn has_ended(vm: &Vm, program: &Program, demand: Demand, ending: Ending) -> bool
    requires { HasBegun (plain_program program.now) demand vm.now }
{
    match ending {
        Ending::Finished(value, output) => has_finished(vm, program, demand, value, output),
        Ending::Lands(site, values) => has_landed(vm, program, demand, site, values),
        Ending::Trapped(trap, printed) => has_trapped(vm, demand, trap, printed),
    }
}

// Whether a process that hasn't begun goes through these exchanges and ends so.
fn goes(
    alloc: Global,
    vm: &mut Vm,
    program: &Program,
    exchanges: &[Exchange],
    ending: Ending,
) -> Result<bool, NoMemory>
    requires { IsNew (plain_program program.now) vm.old }
{
    let demand = begin(vm, program);
    match exchanged_all(alloc, vm, program, demand, exchanges)? {
        Some(last) => Ok(has_ended(vm, program, last, ending)),
        None => Ok(false),
    }
}

// Whether the process that begins so, with so many ticks, goes through these exchanges and ends so.
fn started_goes(
    alloc: Global,
    program: &Program,
    start: &Start,
    steps: u64,
    exchanges: &[Exchange],
    ending: Ending,
) -> Result<bool, NoMemory>
    requires fits { IsTrue (start_fits (plain_program program.now) (plain_start start.now)) }
    requires few { steps ≤ MOST_STEPS }
{
    let limits = Limits { steps, entries: 1 };
    let mut vm = Vm::start(alloc, program, start, &limits)?;
    goes(alloc, &mut vm, program, exchanges, ending)
}

// The same of process 0 of a program that is kept.
fn main_of(
    alloc: Global,
    program: &Program,
    steps: u64,
    exchanges: &[Exchange],
    ending: Ending,
) -> Result<bool, NoMemory>
    requires few { steps ≤ MOST_STEPS }
{
    started_goes(alloc, program, &Start::Main, steps, exchanges, ending)
}

// Whether process 0 of a program, with so many ticks, goes through these exchanges and ends so.
pub fn main_goes(
    alloc: Global,
    program: Program,
    steps: u64,
    exchanges: &[Exchange],
    ending: Ending,
) -> Result<bool, NoMemory>
    requires few { steps ≤ MOST_STEPS }
{
    main_of(alloc, &program, steps, exchanges, ending)
}

// ---- the process of an `eval`

// A law, where a process stands at an `eval`: the process that it asks for may begin, at any depth.
fn may_begin(vm: &Vm, program: &Program, request: &Request, live: &Live, depth: u32)
    requires some { 1 ≤ depth }
    requires few { depth ≤ MOST_DEPTH }
    requires stands { HasBegun (plain_program program.now) demands.Op vm.now }
    requires request { request_of vm.now ≡ Some request.now }
    requires asks { plain_ask request.now.ask ≡ Eval (plain_live live.now) }
    ensures { IsTrue (start_fits (plain_program program.now) (Lives request.now.site (plain_live live.now) depth)) }
{
    each_process_is_right();
    let _parts = program.parts();
}

// The live tuple of an `eval`.
fn live_of(ask: &Ask) -> Option<&Live>
    ensures { IfSome result (λ live. plain_ask ask.now ≡ Eval (plain_live live.now)) }
{
    match ask {
        Ask::Eval(live) => Some(live),
        _ => None,
    }
}

// The start of a process with this live tuple.
fn start_of(alloc: Global, site: u32, live: &Live, depth: u32) -> Result<Start, NoMemory>
    requires some { 1 ≤ depth }
    requires few { depth ≤ MOST_DEPTH }
    ensures { IfOk result (λ start. plain_start start ≡ Lives site (plain_live live.now) depth) }
{
    let live = live.copy(alloc)?;
    Ok(Start::Live { site, live, depth })
}

// How the process begins for which an `eval` asks, at this depth.
fn made(alloc: Global, vm: &Vm, program: &Program, depth: u32) -> Result<Option<Start>, NoMemory>
    requires some { 1 ≤ depth }
    requires few { depth ≤ MOST_DEPTH }
    requires stands { HasBegun (plain_program program.now) demands.Op vm.now }
    ensures { IfOk result (λ made. IfSome made (λ start. IsTrue (start_fits (plain_program program.now) (plain_start start)))) }
{
    let request = asked(vm, program);
    match live_of(&request.ask) {
        Some(live) => {
            may_begin(vm, program, request, live, depth);
            let start = start_of(alloc, request.site, live, depth)?;
            Ok(Some(start))
        }
        None => Ok(None),
    }
}

// The same where process 0 hasn't begun.
fn made_first(
    alloc: Global,
    vm: &mut Vm,
    program: &Program,
    depth: u32,
) -> Result<Option<Start>, NoMemory>
    requires some { 1 ≤ depth }
    requires few { depth ≤ MOST_DEPTH }
    requires new { IsNew (plain_program program.now) vm.old }
    ensures { IfOk result (λ made. IfSome made (λ start. IsTrue (start_fits (plain_program program.now) (plain_start start)))) }
{
    match begin(vm, program) {
        Demand::Op => made(alloc, vm, program, depth),
        Demand::Finished | Demand::Trapped(_) => Ok(None),
    }
}

// How the process begins for which process 0 asks first, at this depth.
fn first_start(
    alloc: Global,
    program: &Program,
    first: &Start,
    depth: u32,
) -> Result<Option<Start>, NoMemory>
    requires some { 1 ≤ depth }
    requires few { depth ≤ MOST_DEPTH }
    requires fits { IsTrue (start_fits (plain_program program.now) (plain_start first.now)) }
    ensures { IfOk result (λ made. IfSome made (λ start. IsTrue (start_fits (plain_program program.now) (plain_start start)))) }
{
    let limits = Limits {
        steps: 0,
        entries: 1,
    };
    let mut vm = Vm::start(alloc, program, first, &limits)?;
    made_first(alloc, &mut vm, program, depth)
}

// The same, where process 0 begins as ever.
fn start_at(alloc: Global, program: &Program, depth: u32) -> Result<Option<Start>, NoMemory>
    requires some { 1 ≤ depth }
    requires few { depth ≤ MOST_DEPTH }
    ensures { IfOk result (λ made. IfSome made (λ start. IsTrue (start_fits (plain_program program.now) (plain_start start)))) }
{
    first_start(alloc, program, &Start::Main, depth)
}

// Whether that process, with so many ticks, goes through these exchanges and ends so.
fn made_of(
    alloc: Global,
    program: &Program,
    depth: u32,
    steps: u64,
    exchanges: &[Exchange],
    ending: Ending,
) -> Result<bool, NoMemory>
    requires some { 1 ≤ depth }
    requires deep { depth ≤ MOST_DEPTH }
    requires few { steps ≤ MOST_STEPS }
{
    match &start_at(alloc, program, depth)? {
        Some(start) => started_goes(alloc, program, start, steps, exchanges, ending),
        None => Ok(false),
    }
}

// The same of a program that isn't used again.
pub fn made_goes(
    alloc: Global,
    program: Program,
    depth: u32,
    steps: u64,
    exchanges: &[Exchange],
    ending: Ending,
) -> Result<bool, NoMemory>
    requires some { 1 ≤ depth }
    requires deep { depth ≤ MOST_DEPTH }
    requires few { steps ≤ MOST_STEPS }
{
    made_of(alloc, &program, depth, steps, exchanges, ending)
}
