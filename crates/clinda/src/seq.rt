//! The command `seq`: a run of a source on one thread.

ghost use Rattle.std.specs.Prelude.{◌≡◌, ◌^◌, ◌<◌, ◌≤◌, List, length, IfOk, option_map};
ghost use Rattle.cl_ground.specs.declared.limits.TheConstants.{MOST_BYTES};
ghost use Rattle.cl_value.specs.Tickets.{acts_in};
ghost use Rattle.cl_value.specs.Views.{plain_run};
ghost use Rattle.cl_ast.specs.declared.statement.Item.{Item};
ghost use Rattle.cl_listing.specs.Listing.{in_items};
ghost use Rattle.cl_listing.specs.Listed.{listing_of};
ghost use Rattle.clinda.specs.Saying.{Speaks};
ghost use Rattle.clinda.specs.Making.{Ended};
ghost use Rattle.clinda.specs.Running.{IsRun, run_saying, seq_maker, Ran};

use crate::ending::{TopEnd, refuse, without_report};
use crate::told_run::say_run;
use crate::words::RunLimits;
use cl_alone::run_alone;
use cl_ast::Unit;
use cl_front::{FrontEnd, judge_source};
use cl_ground::NoMemory;
use cl_listing::Listing;
use cl_outside::Sink;
use cl_value::{RunReport, Steps};
use std::alloc::Global;
use std::marker::Brand;
use std::sync::ledger::{Blank, Ledger};

// Runs a tree and counts no steps.
fn run_counted<L: Ledger>(
    alloc: Global,
    unit: &Unit,
    listing: &Listing<'_>,
    limits: RunLimits,
    blank: Blank,
) -> Result<RunReport, NoMemory>
    requires listed { listing.now ≡ listing_of (in_items unit.now.items) }
    requires name { blank.name ≡ L.name }
    requires parts { blank.parts ≡ L.parts }
    requires some { 0 < blank.parts }
    ensures good { IfOk result (λ run. IsRun limits.ticks limits.entries unit.now.items (plain_run run)) }
    ensures few { IfOk result (λ run. length (acts_in (plain_run run).histories) ≤ limits.entries) }
{
    let mut steps: Steps<L> = Steps::new(blank);
    run_alone(
        alloc,
        unit,
        listing,
        limits.ticks,
        limits.entries,
        &mut steps,
    )
}

// Runs a tree.
fn run(
    alloc: Global,
    unit: &Unit,
    listing: &Listing<'_>,
    limits: RunLimits,
) -> Result<RunReport, NoMemory>
    requires { listing.now ≡ listing_of (in_items unit.now.items) }
    ensures good { IfOk result (λ run. IsRun limits.ticks limits.entries unit.now.items (plain_run run)) }
    ensures few { IfOk result (λ run. length (acts_in (plain_run run).histories) < 2 ^ 64) }
{
    run_counted::<Brand>(alloc, unit, listing, limits, Blank::new(1))
}

// Writes the text of a run of a tree with this listing.
fn say_listed<O: Sink>(alloc: Global, listing: &Listing<'_>, report: &RunReport, out: &mut O) -> u8
    requires { length (acts_in (plain_run report.now).histories) < 2 ^ 64 }
    ensures { (items : List Item) → listing.now ≡ listing_of (in_items items) → Speaks (run_saying items (plain_run report.now)) result (O.written out.old) (O.written out.new) (O.faults out.old) (O.faults out.new) }
{
    say_run(alloc, out, report, listing.texts())
}

// Runs a tree with this listing, and writes the text of its run.
fn run_listed<O: Sink>(
    alloc: Global,
    unit: &Unit,
    listing: &Listing<'_>,
    limits: RunLimits,
    out: &mut O,
) -> TopEnd
    requires { listing.now ≡ listing_of (in_items unit.now.items) }
    ensures { Ran limits.ticks limits.entries unit.now.items result.status (option_map plain_run result.report)
        (O.written out.old) (O.written out.new) (O.faults out.old) (O.faults out.new) }
{
    let Ok(report) = run(alloc, unit, listing, limits) else {
        return without_report(8);
    };
    let status = say_listed(alloc, listing, &report, out);
    TopEnd {
        status,
        report: Some(report),
    }
}

// Lists a tree and runs it, and writes the text of its run.
fn run_unit<O: Sink>(alloc: Global, unit: &Unit, limits: RunLimits, out: &mut O) -> TopEnd
    ensures { Ran limits.ticks limits.entries unit.now.items result.status (option_map plain_run result.report)
        (O.written out.old) (O.written out.new) (O.faults out.old) (O.faults out.new) }
{
    match Listing::new(alloc, unit) {
        Ok(listing) => run_listed(alloc, unit, &listing, limits, out),
        Err(_) => without_report(8),
    }
}

/// Runs a source and writes the text of its run, or refuses it.
pub fn run_source<O: Sink>(alloc: Global, source: &[u8], limits: RunLimits, out: &mut O) -> TopEnd
    requires { length source.now ≤ MOST_BYTES }
    ensures { Ended (seq_maker limits.ticks limits.entries) source.now result.status (option_map plain_run result.report)
        (O.written out.old) (O.written out.new) (O.faults out.old) (O.faults out.new) }
{
    match judge_source(alloc, source) {
        Ok(typed) => run_unit(alloc, typed.unit(), limits, out),
        Err(FrontEnd::Refused(refusal)) => refuse(alloc, source, refusal, out),
        Err(FrontEnd::NoMemory) => without_report(8),
    }
}
