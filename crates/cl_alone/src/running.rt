use crate::bounds::Bounds;
use crate::pause::{Pause, Why};
use crate::space::Space;
use crate::stage::Stage;
use cl_ast::Unit;
use cl_ground::{Items, NoMemory};
use cl_listing::Listing;
use cl_value::{Act, End, History, Report, RunReport, Start, Steps};
use cl_walk::{Ending, Walked, walk};
use std::alloc::Global;
use std::sync::ledger::Ledger;

/// Where process 0 has left off.
#[derive(Drop)]
struct Left {
    stage: Stage,
    output: Items<u8>,
    end: End,
}

ghost use Rattle.std.specs.Prelude.{◌≡◌, ◌≤◌, List, [], ◌∷◌, length, map, IfOk, Some};
ghost use Rattle.cl_ground.specs.Room.{Room};
ghost use Rattle.cl_value.specs.Tickets.{acts_in};
ghost use Rattle.cl_value.specs.Views.{plain_act, plain_end, plain_history, plain_run};
ghost use Rattle.cl_ast.specs.declared.statement.Item.{Item};
ghost use Rattle.cl_listing.specs.Listing.{in_items};
ghost use Rattle.cl_listing.specs.Listed.{listing_of};
ghost use Rattle.cl_model.specs.Good.{Turns};
ghost use Rattle.cl_model.specs.Runs.{GoodRun};
ghost use Rattle.cl_meaning.specs.Process.{demands};
ghost use Rattle.cl_alone.specs.Leaving as leaving;
ghost use Rattle.cl_alone.specs.Leaving.{Leaves};
ghost use Rattle.cl_alone.specs.Reports.{one_history, run_of, status_at, IsRunStatus};
ghost use Rattle.cl_alone.specs.Sets.{operations_in, meaning_of};

// The number of operations of the text with this listing.
fn count_operations(listing: &Listing<'_>) -> usize
    ensures { (items : List Item) → listing.now ≡ listing_of (in_items items) → result ≡ operations_in items }
{
    listing.sites().len()
}

// The end of a process that pauses so. Where it was refused an operation, there is none.
fn end_at(pause: Option<Pause>) -> Result<End, NoMemory>
    ensures { IfOk result (λ end. leaving.end_at pause ≡ Some (plain_end end)) }
{
    match pause {
        Some(Pause { request: _, why }) => end_of_pause(why),
        None => Err(NoMemory),
    }
}

fn end_of_pause(why: Why) -> Result<End, NoMemory>
    ensures { IfOk result (λ end. leaving.end_of_pause why ≡ Some (plain_end end)) }
{
    match why {
        Why::Waits => Ok(End::Waiting),
        Why::Full => Ok(End::HistoryFull(0)),
        Why::NoMemory => Ok(End::NoMemory),
        Why::Refused => Err(NoMemory),
    }
}

// The end of a process whose walk ended so.
fn end_of(ending: Ending, pause: Option<Pause>) -> Result<End, NoMemory>
    ensures { IfOk result (λ end. leaving.end_of ending pause ≡ Some (plain_end end)) }
{
    match ending {
        Ending::Finished(values) => Ok(End::Ended(values)),
        Ending::Trapped(trap) => Ok(End::Trapped(trap)),
        Ending::Paused => end_at(pause),
    }
}

// Walks process 0 in a space of its own.
fn leave<'a, L: Ledger>(
    alloc: Global,
    unit: &'a Unit,
    listing: &'a Listing<'a>,
    ticks: u64,
    bounds: Bounds,
    steps: &mut Steps<L>,
) -> Result<Left, NoMemory>
    requires { listing.now ≡ listing_of (in_items unit.now.items) }
    ensures sites { IfOk result (λ left. left.stage.sites ≡ bounds.sites) }
    ensures limit { IfOk result (λ left. left.stage.limit ≡ bounds.entries) }
    ensures leaves { IfOk result (λ left. Leaves (demands unit.now.items ticks) left.stage left.output.items (plain_end left.end)) }
{
    let mut space = Space::new(alloc, bounds, steps);
    let walked = walk(alloc, unit, listing, &Start::Main, ticks, &mut space)?;
    let (stage, pause) = space.into_parts();
    // `walk` promises of a space what it was asked and what it answered, and so the bounds are looked at here
    if stage.bounds() != bounds {
        return Err(NoMemory);
    }
    let Walked { output, ending } = walked;
    let end = end_of(ending, pause)?;
    Ok(Left { stage, output, end })
}

// A list of one item.
fn one<T: Drop>(alloc: Global, item: T) -> Result<Items<T>, NoMemory>
    ensures { IfOk result (λ list. list.items ≡ item ∷ []) }
{
    let mut list = Items::new(alloc);
    list.reserve(1)?;
    list.push(item);
    Ok(list)
}

// The histories of a run: one, or none where there is no operation.
fn histories_of(
    alloc: Global,
    operations: usize,
    acts: Items<Act>,
) -> Result<Items<History>, NoMemory>
    ensures { IfOk result (λ all. map plain_history all.items ≡ one_history operations (map plain_act acts.items)) }
{
    if operations == 0 {
        return Ok(Items::new(alloc));
    }
    one(alloc, History { set: 0, acts })
}

// The exit status of a run whose process ended so.
fn status_of(end: &End) -> u8
    ensures { result ≡ status_at (plain_end end.now) }
{
    match end {
        End::Trapped(_) => 3,
        End::NoThread => 6,
        End::Waiting => 7,
        End::NoMemory => 8,
        End::HistoryFull(_) => 9,
        End::Ended(_) | End::Stopped { by: _ } => 0,
    }
}

// The report of a run that left off so.
fn report_of(alloc: Global, left: Left, operations: usize) -> Result<RunReport, NoMemory>
    ensures { IfOk result (λ run. plain_run run ≡ run_of operations left.stage.acts left.output.items (plain_end left.end)) }
{
    let Left { stage, output, end } = left;
    let status = status_of(&end);
    let (acts, again) = stage.into_acts();
    let report = Report {
        name: 0,
        start: Start::Main,
        acts,
        end,
        output,
        kids: Items::new(alloc),
    };
    let reports = one(alloc, report)?;
    let histories = histories_of(alloc, operations, again)?;
    Ok(RunReport {
        reports,
        histories,
        status,
    })
}

/// Runs process 0 of a text, whose listing is handed in, over one list of tuples: it may take so many ticks, and its history may have so many acts.
///
/// Where memory runs out for an operation, the process ends so; want of memory for anything else gives no report. Nor does an `eval`.
pub fn run_alone<'a, L: Ledger>(
    alloc: Global,
    unit: &'a Unit,
    listing: &'a Listing<'a>,
    ticks: u64,
    entries: u32,
    steps: &mut Steps<L>,
) -> Result<RunReport, NoMemory>
    requires { listing.now ≡ listing_of (in_items unit.now.items) }
    ensures good { IfOk result (λ run. GoodRun (meaning_of unit.now.items ticks entries) Turns (plain_run run)) }
    ensures few { IfOk result (λ run. length (acts_in (plain_run run).histories) ≤ entries) }
    ensures status { IfOk result (λ run. IsRunStatus run.status) }
{
    let sites = count_operations(listing);
    let left = leave(
        alloc,
        unit,
        listing,
        ticks,
        Bounds { sites, entries },
        steps,
    )?;
    report_of(alloc, left, sites)
}
