ghost use Rattle.cl_model.specs.Turns.{EachTurnAdds, OneRunByWords, OverForGood};

/// Laws of runs by turns, of every meaning. Once no turn comes none comes any more. The same words have one
/// run: its acts, and the end of each process, are a function of the words. And each turn adds an act or the
/// end of a process, so that a run with bounded histories is over some time. It does nothing.
pub fn words_have_one_run()
    ensures over { OverForGood }
    ensures one { OneRunByWords }
    ensures adds { EachTurnAdds }
{}
