ghost use Rattle.cl_merge.specs.Carrying.{GoodRunsCarryOver};
ghost use Rattle.cl_merge.specs.Laws.{EachMomentIsTold, HistoriesGrow, KeptRunsAreGood, RunsBegin, RunsGoOn, SetsGrow};

/// Laws of a run while it goes on. What each set, each process and the tickets keep by themselves holds at
/// first, with process 0 alone; and one event more keeps it. Where what is asked for at two sets never
/// meets, the acts so far are then a legal history of one bag, in which each act takes the oldest match; the
/// processes stand as they are told of their own acts; and what is found and what waits in a set is what is
/// found and what waits in the bag. It does nothing.
pub fn each_moment_is_legal()
    ensures first { RunsBegin }
    ensures next { RunsGoOn }
    ensures told { EachMomentIsTold }
{}

/// Laws of one act more. Behind the history of its set, with the highest ticket, it is the last of all acts
/// in order of their tickets; and behind all acts it is the last at the sites of its set, and at those of no
/// other. It does nothing.
pub fn histories_grow()
    ensures all { HistoriesGrow }
    ensures sets { SetsGrow }
{}

/// A law of runs that are over: where each set, each process and the tickets have kept what is theirs, the
/// report is that of a good run. The acts of all sets in order of their tickets are a legal history of one
/// bag, and ends, outputs and status agree with it. It does nothing.
pub fn kept_runs_are_good()
    ensures good { KeptRunsAreGood }
{}

/// A law of two meanings: a good run of one is a good run of another of the same sets and the same limit
/// that demands the same of each process along the run. It does nothing.
pub fn good_runs_carry_over()
    ensures carry { GoodRunsCarryOver }
{}
