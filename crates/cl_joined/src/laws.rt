ghost use Rattle.cl_joined.specs.Laws.{JoinedRunsAreGood, JoinedRunsCarryOver, PairedAreReports, SetsAreApart, SetsAreDisjoint};
ghost use Rattle.cl_joined.specs.Steps.{BegunMayHappen};

/// Laws of the sets of a program. No site is of two of them; and where the program is valid, what its
/// processes may ask for at two sets never meets. It does nothing.
pub fn sets_are_apart()
    ensures disjoint { SetsAreDisjoint }
    ensures apart { SetsAreApart }
{}

/// A law of one step of a run: what a set has begun, and a process that hasn't landed demands, is an act that
/// may come next in the whole run, with the next ticket. It does nothing.
pub fn what_is_begun_may_happen()
    ensures step { BegunMayHappen }
{}

/// A law of reports that stand beside the participants of a table, one for one: each is of a participant, and
/// each participant has one. It does nothing.
pub fn paired_are_reports()
    ensures pairs { PairedAreReports }
{}

/// Laws of the runs of a valid program. What its sets hand out, what `close` tells of the participants, and
/// what the processes hand back make a good run of what the program means; and of each other meaning of the
/// same sets and the same limit that demands the same along the run. It does nothing.
pub fn joined_runs_are_good()
    ensures good { JoinedRunsAreGood }
    ensures carry { JoinedRunsCarryOver }
{}
