//! Reads a source for a run: a tree without faults, and without `eval`.

ghost use Rattle.std.specs.Prelude.{◌≡◌, ◌≤◌, None, length, IfOk, IfErr};
ghost use Rattle.cl_ground.specs.declared.limits.TheConstants.{MOST_BYTES};
ghost use Rattle.cl_types.specs.Findings.{seen};
ghost use Rattle.cl_front.specs.Judging.{eval_among, first_eval};
ghost use Rattle.cl_front.specs.Reading.{trees, programs, IsTaken};
ghost use Rattle.cl_front.specs.Ends.{EndsAtEval, EndsSo};
ghost use Rattle.cl_front.specs.Ends as judging;

use crate::front::{FrontEnd, read_source};
use crate::refusal::{Refusal, RefusalKind};
use cl_ast::{Unit, Verb};
use cl_types::{Site, TypeEnd, Typed, check};
use std::alloc::Global;

// The place of the first `eval` among operations.
fn eval_among(sites: &[Site<'_>]) -> Option<u32>
    ensures { result ≡ eval_among (seen sites.now) }
{
    for site in sites {
        if site.operation.verb == Verb::Eval {
            return Some(site.operation.span.start);
        }
    }
    None
}

// Looks whether a tree has no `eval`.
fn look_for_eval(alloc: Global, typed: &Typed) -> Result<(), FrontEnd>
    ensures alone { IfOk result (λ _. first_eval typed.now.items ≡ None) }
    ensures refused { IfErr result (EndsAtEval typed.now.items) }
{
    let Ok(sites) = typed.sites(alloc) else {
        return Err(FrontEnd::NoMemory);
    };
    match eval_among(sites.as_slice()) {
        Some(place) => Err(FrontEnd::Refused(Refusal {
            kind: RefusalKind::NotBuilt,
            place: place as usize,
        })),
        None => Ok(()),
    }
}

// What the end of a judgment of types is for a source.
fn front_end(end: TypeEnd) -> FrontEnd
    ensures { result ≡ judging.front_end end }
{
    match end {
        TypeEnd::Fault { place, kind } => FrontEnd::Refused(Refusal {
            kind: RefusalKind::Type(kind),
            place: place as usize,
        }),
        TypeEnd::NoMemory => FrontEnd::NoMemory,
    }
}

// Judges the tree of a source.
fn judge(alloc: Global, source: &[u8], unit: Unit) -> Result<Typed, FrontEnd>
    requires { IsTaken trees source.now unit.items }
    ensures found { IfOk result (λ typed. IsTaken programs source.now typed.items) }
    ensures refused { IfErr result (EndsSo programs source.now) }
{
    let typed = match check(alloc, unit) {
        Ok(typed) => typed,
        Err(end) => return Err(front_end(end)),
    };
    look_for_eval(alloc, &typed)?;
    Ok(typed)
}

/// The tree of a source that a run takes.
///
/// It is refused where it isn't read as a tree; else at its first fault; else, where it has an `eval`, at the word of
/// the first. `NoMemory` comes where the allocator refused memory.
pub fn judge_source(alloc: Global, source: &[u8]) -> Result<Typed, FrontEnd>
    requires { length source.now ≤ MOST_BYTES }
    ensures found { IfOk result (λ typed. IsTaken programs source.now typed.items) }
    ensures refused { IfErr result (EndsSo programs source.now) }
{
    let unit = read_source(alloc, source)?;
    judge(alloc, source, unit)
}
