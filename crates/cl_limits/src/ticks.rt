ghost use Rattle.cl_limits.specs.Laws.{EachRunsWithMore, EachWithOnlyTicks};
ghost use Rattle.cl_limits.specs.Loops.{EachLoopGoesRound};

/// Laws of ticks, of each text. With more ticks each process demands the same after the same replies, unless
/// with fewer it runs out of them. A history that is legal with some number of ticks is legal with more, and
/// so is a good run, where none of its processes trapped for want of them. It does nothing.
pub fn more_ticks_change_nothing_else()
    ensures demands { EachWithOnlyTicks }
    ensures runs { EachRunsWithMore }
{}

/// A law of loops, of each text: a `while`, a `do` and a `for` behind its first statement are one turn of
/// them, with the loop again behind it. It does nothing.
pub fn each_loop_goes_round()
    ensures loops { EachLoopGoesRound }
{}
