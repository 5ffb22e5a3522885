//! Runs of one process whose set may have few acts, which no words of the program ask for.

ghost use Rattle.std.specs.Prelude.{◌≡◌, ◌<◌};
ghost use Rattle.cl_listing.specs.Listing.{in_items};
ghost use Rattle.cl_listing.specs.Listed.{listing_of};

use super::walks::tree_of;
use cl_alone::run_alone;
use cl_ast::Unit;
use cl_listing::Listing;
use cl_value::{Report, RunReport, Steps};
use std::alloc::Global;
use std::marker::Brand;
use std::sync::ledger::{Blank, Ledger};

// A source whose set may have so many acts, with the status, the acts and the output of its run; none where there
// is no run.
struct Row {
    source: &'static [u8],
    entries: u32,
    ends: Option<(u8, usize, &'static [u8])>,
}

const PASSES: &[u8] =
    b"real_main(){int v;out(1,7);out(1,8);rd(1,?v);printf(\"%d\",v);in(1,?v);in(1,?v);printf(\"%d\",v+inp(1,?v));}";

const ROWS: [Row; 5] = [
    Row {
        source: PASSES,
        entries: 6,
        ends: Some((0, 6, b"78")),
    },
    Row {
        source: PASSES,
        entries: 5,
        ends: Some((9, 5, b"7")),
    },
    Row {
        source: b"real_main(){out(2);in(3);}",
        entries: 1,
        ends: Some((7, 1, b"")),
    },
    Row {
        source: b"real_main(){printf(\"p\");}",
        entries: 0,
        ends: Some((0, 0, b"p")),
    },
    Row {
        source: b"real_main(){eval(1);}",
        entries: 9,
        ends: None,
    },
];

// The report of a run of a tree, if there is one.
fn run_counted<L: Ledger>(
    alloc: Global,
    unit: &Unit,
    listing: &Listing<'_>,
    entries: u32,
    blank: Blank,
) -> Option<RunReport>
    requires listed { listing.now ≡ listing_of (in_items unit.now.items) }
    requires name { blank.name ≡ L.name }
    requires parts { blank.parts ≡ L.parts }
    requires some { 0 < blank.parts }
{
    let mut steps: Steps<L> = Steps::new(blank);
    run_alone(alloc, unit, listing, 1000, entries, &mut steps).ok()
}

fn run(alloc: Global, unit: &Unit, entries: u32) -> Option<RunReport> {
    let listing = Listing::new(alloc, unit).ok()?;
    run_counted::<Brand>(alloc, unit, &listing, entries, Blank::new(1))
}

// Whether a run has one report, with so many acts and this output.
fn is_report(reports: &[Report], acts: usize, output: &[u8]) -> bool {
    match reports {
        [report] => report.acts.len() == acts && report.output.as_slice() == output,
        _ => false,
    }
}

fn is_run(run: &Option<RunReport>, ends: &Option<(u8, usize, &[u8])>) -> bool {
    match (run, ends) {
        (Some(run), Some(ends)) => {
            run.status == ends.0 && is_report(run.reports.as_slice(), ends.1, ends.2)
        }
        (None, None) => true,
        _ => false,
    }
}

fn runs_so(alloc: Global, unit: &Unit, row: &Row) -> bool {
    let run = run(alloc, unit, row.entries);
    is_run(&run, &row.ends)
}

fn holds(alloc: Global, row: &Row) -> bool {
    match tree_of(alloc, row.source) {
        Some(unit) => runs_so(alloc, &unit, row),
        None => false,
    }
}

// The place of the first row that doesn't hold.
fn first_wrong(alloc: Global, rows: &[Row]) -> Option<usize> {
    for i in 0..rows.len() {
        if !holds(alloc, &rows[i]) {
            return Some(i);
        }
    }
    None
}

#[test]
fn runs_of_few_acts_end_as_they_should(rt: HostRuntime) {
    assert_eq!(rt; first_wrong(rt.alloc(), &ROWS), None);
}
