use crate::{Act, Live, Tuple};
use cl_ground::Items;

/// Why a process can't go on. C leaves what comes then undefined or to the implementation; here it is
/// the end of the process.
#[derive(Clone, Copy, Debug, PartialEq, Eq)]
pub enum Trap {
    /// A result that doesn't fit its type.
    Overflow,
    /// A quotient or a remainder by 0.
    DivideByZero,
    /// An index outside its array.
    IndexRange,
    /// More ticks than `Limits::steps`.
    StepLimit,
    /// More than 256 active functions.
    CallDepth,
    /// More than 65,536 cells of globals and active frames.
    CellLimit,
    /// More than 65,536 bytes of output.
    OutputLimit,
    /// An `eval` deeper than 64.
    EvalDepth,
}

/// How a process ended.
#[derive(Drop)]
pub enum End {
    /// Its meaning finished with these field values; for process 0 with its one result.
    Ended(Tuple),
    /// Its meaning can't go on.
    Trapped(Trap),
    /// No thread could be started for it, and it has no acts.
    NoThread,
    /// It demands an operation of this set, whose history holds the limit of acts.
    HistoryFull(u32),
    /// It met want of memory.
    NoMemory,
    /// The process `by` halted the run before.
    Stopped {
        /// The name of that process.
        by: u64,
    },
    /// It waits for a tuple that no process can add any more.
    Waiting,
}

/// What a process begins with.
#[derive(Drop)]
pub enum Start {
    /// Process 0 begins at `real_main`.
    Main,
    /// Any other process computes the live tuple of the `eval` at this site. Process 0 has depth 0, and a
    /// process one more than its maker.
    Live {
        /// The number of the `eval` in the text, from 0.
        site: u32,
        /// The live tuple.
        live: Live,
        /// How many `eval`s led to it, from 1 to 64.
        depth: u32,
    },
}

/// The limits that a command may set.
#[derive(Clone, Copy, Debug)]
pub struct Limits {
    /// Ticks of a process, up to 1,099,511,627,776.
    pub steps: u64,
    /// Acts of a set, from 1 to 16,777,216.
    pub entries: u32,
    ghost few_steps: { steps ≤ MOST_STEPS },
    ghost some_entries: { 0 < entries },
    ghost few_entries: { entries ≤ 16_777_216 },
}

ghost use Rattle.std.specs.Prelude.{◌<◌, ◌≤◌};
ghost use Rattle.cl_ground.specs.declared.limits.TheConstants.{MOST_STEPS};

/// What a process is told when it goes on.
#[derive(Drop)]
pub enum Reply {
    /// It begins.
    Begin,
    /// Its `out` or `eval` was done.
    Done,
    /// Its operation took or read this tuple.
    Got(Tuple),
    /// Nothing matched its `inp` or `rdp`.
    Miss,
}

/// What a process did.
#[derive(Drop)]
pub struct Report {
    /// 0, or the ticket of the `eval` that made it.
    pub name: u64,
    /// What it began with.
    pub start: Start,
    /// Its acts, by ticket.
    pub acts: Items<Act>,
    /// How it ended.
    pub end: End,
    /// The bytes that it printed.
    pub output: Items<u8>,
    /// The tickets of its `eval`s, which are the names of the processes that it made.
    pub kids: Items<u64>,
}

/// The acts of one set of sites, by ticket.
#[derive(Drop)]
pub struct History {
    /// The number of the set, from 0.
    pub set: u32,
    /// Each act on the set, in the order in which they were done.
    pub acts: Items<Act>,
}

/// What a run did.
#[derive(Drop)]
pub struct RunReport {
    /// One for each process, in ascending order of name.
    pub reports: Items<Report>,
    /// One for each set, in order.
    pub histories: Items<History>,
    /// The exit status: 0, or 3, 6, 7, 8 or 9 where a process failed or waits for good.
    pub status: u8,
}
