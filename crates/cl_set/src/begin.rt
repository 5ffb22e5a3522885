ghost use Rattle.cl_ground.specs.declared.limits.TheConstants.{MOST_FIELDS};
ghost use Rattle.std.specs.Prelude.{◌≡◌, ◌+◌, ◌≤◌, [], ◌∷◌, ◌++◌, is_none, option_map, All, IsTrue, IfOk, IfSome, OnErr, IsErr};
ghost use Rattle.cl_value.specs.Plain.{Out, In, Rd, Inp, Rdp, Eval, Land};
ghost use Rattle.cl_value.specs.Replay.{found, without_first, replayed};
ghost use Rattle.cl_ground.specs.Room.{HasRoom, capacity_of};
ghost use Rattle.cl_value.specs.Views.{plain_ask, plain_what};
ghost use Rattle.cl_store.specs.Answers.{template_of};
ghost use Rattle.cl_value.specs.Answers.{answer, take_answer, read_answer, take_now_answer, read_now_answer, waits};
ghost use Rattle.cl_set.specs.Deeds.{tuple_added};
ghost use Rattle.cl_set.specs.Stores.{class_of, content_in, admitted_by, fitted_by, cost_in};

use crate::place::{Answered, Place};
use crate::store::Store;
use cl_ground::NoMemory;
use cl_store::TupleStore;
use cl_value::{Ask, Steps, Template, Tuple, What};
use std::alloc::Global;
use std::sync::ledger::Ledger;

// What was done, once for the history and once for the answer.
#[derive(Drop)]
pub struct Twice {
    pub kept: What,
    pub told: What,
}

// Does an operation after its growths. None comes exactly where it waits.
pub fn begin<L: Ledger>(
    alloc: Global,
    store: &mut Store,
    ask: &Ask,
    buffer: &mut Tuple,
    steps: &mut Steps<L>,
) -> Result<Option<Twice>, NoMemory>
    requires admits { All (λ t. IsTrue (admitted_by store.old t)) (tuple_added (plain_ask ask.now)) }
    requires fits { All (λ m. IsTrue (fitted_by store.old (content_in store.old) m)) (template_of (plain_ask ask.now)) }
    requires room { HasRoom MOST_FIELDS buffer.old }
    ensures waits { IfOk result (λ r. is_none r ≡ waits (content_in store.old) (plain_ask ask.now)) }
    ensures kept { IfOk result (λ r. IfSome r (λ twice. plain_what twice.kept ≡ answer (content_in store.old) (plain_ask ask.now))) }
    ensures told { IfOk result (λ r. IfSome r (λ twice. plain_what twice.told ≡ answer (content_in store.old) (plain_ask ask.now))) }
    ensures content { IfOk result (λ r. content_in store.new ≡ replayed (content_in store.old) (answer (content_in store.old) (plain_ask ask.now))) }
    ensures refused { OnErr result (content_in store.new ≡ content_in store.old) }
    ensures uncounted { OnErr result (steps.new ≡ steps.old) }
    ensures searches { All (λ m. steps.new ≤ steps.old + cost_in store.old m) (template_of (plain_ask ask.now)) }
    ensures others { template_of (plain_ask ask.now) ≡ [] → steps.new ≡ steps.old }
    ensures later { steps.old ≤ steps.new }
    ensures room { capacity_of buffer.new ≡ capacity_of buffer.old }
    ensures admits { admitted_by store.new ≡ admitted_by store.old }
    ensures fits { fitted_by store.new ≡ fitted_by store.old }
    ensures class { class_of store.new ≡ class_of store.old }
{
    match ask {
        Ask::Out(tuple) => {
            let (kept, told) = add(alloc, store, tuple)?;
            Ok(Some(Twice {
                kept: What::Out(kept),
                told: What::Out(told),
            }))
        }
        Ask::Land(tuple) => {
            let (kept, told) = add(alloc, store, tuple)?;
            Ok(Some(Twice {
                kept: What::Land(kept),
                told: What::Land(told),
            }))
        }
        Ask::Eval(live) => {
            let kept = live.copy(alloc)?;
            let told = live.copy(alloc)?;
            Ok(Some(Twice {
                kept: What::Eval(kept),
                told: What::Eval(told),
            }))
        }
        Ask::In(template) => {
            let (kept, told) = take(alloc, store, template, buffer, steps)?;
            Ok(waiting_take(kept, told))
        }
        Ask::Rd(template) => {
            let (kept, told) = find(alloc, store, template, buffer, steps)?;
            Ok(waiting_read(kept, told))
        }
        Ask::Inp(template) => {
            let (kept, told) = take(alloc, store, template, buffer, steps)?;
            Ok(Some(Twice {
                kept: take_now(kept),
                told: take_now(told),
            }))
        }
        Ask::Rdp(template) => {
            let (kept, told) = find(alloc, store, template, buffer, steps)?;
            Ok(Some(Twice {
                kept: read_now(kept),
                told: read_now(told),
            }))
        }
    }
}

// Adds a tuple, and gives two copies of it. At `NoMemory` the content has not changed.
fn add(alloc: Global, store: &mut Store, tuple: &Tuple) -> Result<(Tuple, Tuple), NoMemory>
    requires { IsTrue (admitted_by store.old tuple.now.items) }
    ensures kept { IfOk result (λ r. r.0.items ≡ tuple.now.items) }
    ensures told { IfOk result (λ r. r.1.items ≡ tuple.now.items) }
    ensures content { IfOk result (λ r. content_in store.new ≡ content_in store.old ++ tuple.now.items ∷ []) }
    ensures refused { OnErr result (content_in store.new ≡ content_in store.old) }
    ensures admits { admitted_by store.new ≡ admitted_by store.old }
    ensures fits { fitted_by store.new ≡ fitted_by store.old }
    ensures class { class_of store.new ≡ class_of store.old }
{
    let kept = tuple.copy(alloc)?;
    let told = tuple.copy(alloc)?;
    store.reserve(tuple)?;
    store.add(tuple);
    Ok((kept, told))
}

// Takes the first match, and gives it twice with the template. At `NoMemory` nothing has changed.
#[tactic(auto, using(crate::proofs::Found::founds))]
fn take<L: Ledger>(
    alloc: Global,
    store: &mut Store,
    template: &Template,
    buffer: &mut Tuple,
    steps: &mut Steps<L>,
) -> Result<(Answered, Answered), NoMemory>
    requires fits { IsTrue (fitted_by store.old (content_in store.old) template.now.items) }
    requires room { HasRoom MOST_FIELDS buffer.old }
    ensures kept_asked { IfOk result (λ r. r.0.asked.items ≡ template.now.items) }
    ensures told_asked { IfOk result (λ r. r.1.asked.items ≡ template.now.items) }
    ensures kept { IfOk result (λ r. option_map (λ t. t.items) r.0.got ≡ found (content_in store.old) template.now.items) }
    ensures told { IfOk result (λ r. option_map (λ t. t.items) r.1.got ≡ found (content_in store.old) template.now.items) }
    ensures content { IfOk result (λ r. content_in store.new ≡ without_first (content_in store.old) template.now.items) }
    ensures refused { OnErr result (content_in store.new ≡ content_in store.old) }
    ensures uncounted { OnErr result (steps.new ≡ steps.old) }
    ensures cost { steps.new ≤ steps.old + cost_in store.old template.now.items }
    ensures later { steps.old ≤ steps.new }
    ensures room { capacity_of buffer.new ≡ capacity_of buffer.old }
    ensures admits { admitted_by store.new ≡ admitted_by store.old }
    ensures fits { fitted_by store.new ≡ fitted_by store.old }
    ensures class { class_of store.new ≡ class_of store.old }
{
    let kept = Place::new(alloc, template)?;
    let told = Place::new(alloc, template)?;
    if store.take(template, buffer, steps) {
        Ok((kept.hit(buffer), told.hit(buffer)))
    } else {
        Ok((kept.miss(), told.miss()))
    }
}

// Reads the first match, and gives it twice with the template.
#[tactic(auto, using(crate::proofs::Found::founds))]
fn find<L: Ledger>(
    alloc: Global,
    store: &Store,
    template: &Template,
    buffer: &mut Tuple,
    steps: &mut Steps<L>,
) -> Result<(Answered, Answered), NoMemory>
    requires fits { IsTrue (fitted_by store.now (content_in store.now) template.now.items) }
    requires room { HasRoom MOST_FIELDS buffer.old }
    ensures kept_asked { IfOk result (λ r. r.0.asked.items ≡ template.now.items) }
    ensures told_asked { IfOk result (λ r. r.1.asked.items ≡ template.now.items) }
    ensures kept { IfOk result (λ r. option_map (λ t. t.items) r.0.got ≡ found (content_in store.now) template.now.items) }
    ensures told { IfOk result (λ r. option_map (λ t. t.items) r.1.got ≡ found (content_in store.now) template.now.items) }
    ensures uncounted { OnErr result (steps.new ≡ steps.old) }
    ensures cost { steps.new ≤ steps.old + cost_in store.now template.now.items }
    ensures later { steps.old ≤ steps.new }
    ensures room { capacity_of buffer.new ≡ capacity_of buffer.old }
{
    let kept = Place::new(alloc, template)?;
    let told = Place::new(alloc, template)?;
    if store.find(template, buffer, steps) {
        Ok((kept.hit(buffer), told.hit(buffer)))
    } else {
        Ok((kept.miss(), told.miss()))
    }
}

ghost use Rattle.cl_value.specs.declared.template.Slot.{Slot};
ghost use Rattle.std.specs.Prelude.{List, Some, false};

// A take that waits: what was done, or None where nothing was found.
fn waiting_take(kept: Answered, told: Answered) -> Option<Twice>
    requires { is_none kept.got ≡ is_none told.got }
    ensures waits { is_none result ≡ is_none kept.got }
    ensures kept { IfSome result (λ twice. plain_what twice.kept ≡ take_answer kept.asked.items (option_map (λ t. t.items) kept.got)) }
    ensures told { IfSome result (λ twice. plain_what twice.told ≡ take_answer told.asked.items (option_map (λ t. t.items) told.got)) }
{
    match (kept.got, told.got) {
        (Some(first), Some(second)) => Some(Twice {
            kept: What::In(kept.asked, first),
            told: What::In(told.asked, second),
        }),
        _ => None,
    }
}

// A read that waits: what was done, or None where nothing was found.
fn waiting_read(kept: Answered, told: Answered) -> Option<Twice>
    requires { is_none kept.got ≡ is_none told.got }
    ensures waits { is_none result ≡ is_none kept.got }
    ensures kept { IfSome result (λ twice. plain_what twice.kept ≡ read_answer kept.asked.items (option_map (λ t. t.items) kept.got)) }
    ensures told { IfSome result (λ twice. plain_what twice.told ≡ read_answer told.asked.items (option_map (λ t. t.items) told.got)) }
{
    match (kept.got, told.got) {
        (Some(first), Some(second)) => Some(Twice {
            kept: What::Rd(kept.asked, first),
            told: What::Rd(told.asked, second),
        }),
        _ => None,
    }
}

// A take that never waits: a hit or a miss.
fn take_now(answered: Answered) -> What
    ensures { plain_what result ≡ take_now_answer answered.asked.items (option_map (λ t. t.items) answered.got) }
{
    let Answered { asked, got } = answered;
    match got {
        Some(tuple) => What::InpHit(asked, tuple),
        None => What::InpMiss(asked),
    }
}

// A read that never waits: a hit or a miss.
fn read_now(answered: Answered) -> What
    ensures { plain_what result ≡ read_now_answer answered.asked.items (option_map (λ t. t.items) answered.got) }
{
    let Answered { asked, got } = answered;
    match got {
        Some(tuple) => What::RdpHit(asked, tuple),
        None => What::RdpMiss(asked),
    }
}
