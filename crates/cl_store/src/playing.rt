ghost use Rattle.std.specs.Prelude.{◌≡◌, ◌≤◌, ℕ, List, ◌++◌, length, map, option_map, All, Contains, IsTrue, IfOk, OnErr, take as front};
ghost use Rattle.cl_value.specs.Views.{plain_ask, plain_what};
ghost use Rattle.cl_value.specs.Replay.{found, without_first, replayed};
ghost use Rattle.cl_store.specs.Answers.{answers, left_after, tuple_of, tuples_of, template_of, templates_of, IsStoreAsk};
ghost use Rattle.cl_value.specs.Answers.{answer};
ghost use Rattle.cl_value.specs.declared.value.Value.{Value};

use crate::TupleStore;
use cl_ground::{Items, NoMemory};
use cl_value::{Ask, Steps, Template, Tuple, What};
use std::alloc::Global;
use std::sync::ledger::Ledger;

/// Does the asks one after another, and gives what was done. An `in` or `rd` for which nothing matches
/// counts as the miss of an `inp` or `rdp`.
///
/// The answers are those of a list of tuples whose first match is taken or read, and the content afterwards
/// is what they leave of it. At `NoMemory` some first asks were done, and no more.
pub fn play<S: TupleStore, L: Ledger>(
    alloc: Global,
    store: &mut S,
    asks: &Items<Ask>,
    steps: &mut Steps<L>,
) -> Result<Items<What>, NoMemory>
    requires asks { All IsStoreAsk (map plain_ask asks.now.items) }
    requires admits { All (λ t. IsTrue (S.admits store.old t)) (tuples_of (map plain_ask asks.now.items)) }
    // over each list whose tuples come from the content and from the asks
    requires fits { (ts : List (List Value))
        → All (Contains (S.content store.old ++ tuples_of (map plain_ask asks.now.items))) ts
        → All (λ m. IsTrue (S.fits store.old ts m)) (templates_of (map plain_ask asks.now.items)) }
    ensures answers { IfOk result (λ done.
        map plain_what done.items ≡ answers (S.content store.old) (map plain_ask asks.now.items)) }
    ensures content { IfOk result (λ done.
        S.content store.new ≡ left_after (S.content store.old) (map plain_what done.items)) }
    ensures err { OnErr result ((n : ℕ) × ((n ≤ length asks.now.items)
        × (S.content store.new ≡ left_after (S.content store.old) (front n (answers (S.content store.old) (map plain_ask asks.now.items)))))) }
{
    let mut done = Items::new(alloc);
    done.reserve(asks.len())?;
    for ask in asks.as_slice() {
        done.push(perform(alloc, store, ask, steps)?);
    }
    Ok(done)
}

// Does one ask. At `NoMemory` it was not done.
#[tactic(auto, using(crate::proofs::Matches::misses))]
fn perform<S: TupleStore, L: Ledger>(
    alloc: Global,
    store: &mut S,
    ask: &Ask,
    steps: &mut Steps<L>,
) -> Result<What, NoMemory>
    requires ask { IsStoreAsk (plain_ask ask.now) }
    requires admits { All (λ t. IsTrue (S.admits store.old t)) (tuple_of (plain_ask ask.now)) }
    requires fits { All (λ m. IsTrue (S.fits store.old (S.content store.old) m)) (template_of (plain_ask ask.now)) }
    ensures answer { IfOk result (λ what. plain_what what ≡ answer (S.content store.old) (plain_ask ask.now)) }
    ensures content { IfOk result (λ what. S.content store.new ≡ replayed (S.content store.old) (plain_what what)) }
    ensures err { OnErr result (S.content store.new ≡ S.content store.old) }
    ensures admitted { S.admits store.new ≡ S.admits store.old }
    ensures fitted { S.fits store.new ≡ S.fits store.old }
{
    match ask {
        Ask::Out(tuple) => {
            let added = tuple.copy(alloc)?;
            store.reserve(tuple)?;
            store.add(tuple);
            Ok(What::Out(added))
        }
        Ask::In(template) => match take(alloc, store, template, steps)? {
            (asked, Some(tuple)) => Ok(What::In(asked, tuple)),
            (asked, None) => Ok(What::InpMiss(asked)),
        },
        Ask::Rd(template) => match find(alloc, store, template, steps)? {
            (asked, Some(tuple)) => Ok(What::Rd(asked, tuple)),
            (asked, None) => Ok(What::RdpMiss(asked)),
        },
        Ask::Inp(template) => match take(alloc, store, template, steps)? {
            (asked, Some(tuple)) => Ok(What::InpHit(asked, tuple)),
            (asked, None) => Ok(What::InpMiss(asked)),
        },
        Ask::Rdp(template) => match find(alloc, store, template, steps)? {
            (asked, Some(tuple)) => Ok(What::RdpHit(asked, tuple)),
            (asked, None) => Ok(What::RdpMiss(asked)),
        },
        Ask::Eval(_) | Ask::Land(_) => unreachable!(),
    }
}

// Takes the first match, and gives it with the template. At `NoMemory` nothing has changed.
fn take<S: TupleStore, L: Ledger>(
    alloc: Global,
    store: &mut S,
    template: &Template,
    steps: &mut Steps<L>,
) -> Result<(Template, Option<Tuple>), NoMemory>
    requires { IsTrue (S.fits store.old (S.content store.old) template.now.items) }
    ensures asked { IfOk result (λ r. r.0.items ≡ template.now.items) }
    ensures taken { IfOk result (λ r. option_map (λ t. t.items) r.1 ≡ found (S.content store.old) template.now.items) }
    ensures content { IfOk result (λ r. S.content store.new ≡ without_first (S.content store.old) template.now.items) }
    ensures err { OnErr result (S.content store.new ≡ S.content store.old) }
    ensures admits { S.admits store.new ≡ S.admits store.old }
    ensures fits { S.fits store.new ≡ S.fits store.old }
{
    let asked = template.copy(alloc)?;
    let mut into = Tuple::with_room(alloc)?;
    if store.take(template, &mut into, steps) {
        Ok((asked, Some(into)))
    } else {
        Ok((asked, None))
    }
}

// Reads the first match, and gives it with the template.
fn find<S: TupleStore, L: Ledger>(
    alloc: Global,
    store: &S,
    template: &Template,
    steps: &mut Steps<L>,
) -> Result<(Template, Option<Tuple>), NoMemory>
    requires { IsTrue (S.fits store.now (S.content store.now) template.now.items) }
    ensures asked { IfOk result (λ r. r.0.items ≡ template.now.items) }
    ensures read { IfOk result (λ r. option_map (λ t. t.items) r.1 ≡ found (S.content store.now) template.now.items) }
{
    let asked = template.copy(alloc)?;
    let mut into = Tuple::with_room(alloc)?;
    if store.find(template, &mut into, steps) {
        Ok((asked, Some(into)))
    } else {
        Ok((asked, None))
    }
}
