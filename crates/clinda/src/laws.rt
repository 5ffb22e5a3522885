//! Laws of the commands and of the top call, proved once for both doors.

ghost use Rattle.clinda.specs.Laws.{SpellsOnce, EachIsFine, ClausesFollow, EachAnswerWidens};

/// Words spell at most one command.
pub fn words_spell_one_command()
    ensures { SpellsOnce }
{}

/// What each command makes of its input is as the clauses ask.
pub fn each_command_is_fine()
    ensures { EachIsFine }
{}

/// The clauses follow of each way in which a call can go, at the call without threads and at one with them.
pub fn the_clauses_follow()
    ensures { ClausesFollow }
{}

/// A call with threads may answer by the call without them, for each command that both serve and for words that spell
/// none at either.
pub fn each_answer_widens()
    ensures { EachAnswerWidens }
{}
