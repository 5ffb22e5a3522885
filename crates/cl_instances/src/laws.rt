ghost use Rattle.cl_typing.specs.Laws.{FunctionsHaveScenes, StatementsLead, ScopesAreEntered, ValuesAreTyped, StatementsKeep, DemandsFit, EvalsAreShallow, EvalsFit};
ghost use Rattle.cl_instances.specs.Programs.{StartsFitPrograms};
ghost use Rattle.cl_instances.specs.SetLaws.{RequestsAreInstances, EvalsAreAskedBelow, LiveTuplesBegin, ProcessesBegin, HistoriesAreInstances, HistoriesSuit, HistoriesNeverMatch};
ghost use Rattle.cl_instances.specs.Laws.{SourcesAreSettled, OperationsAreApart, ProcessesAreTyped, ActsAreInstances, ProcessesBeganRight};

/// Laws of a text without faults whose declarations stand in blocks. Where a function begins, behind each
/// statement and in each scope that is entered, what is known stands. Where it does, an expression gives values of the type that is judged of it, whatever its
/// process is told, and a statement keeps variables at the types by which they are known. A process that begins as it fits asks for operations of the text, with fields that are as
/// they were found, and finishes with values of their types; it asks for an `eval` only where its depth is below
/// 64, and what an `eval` makes begins as it fits. It does nothing.
pub fn each_value_is_typed()
    ensures functions { FunctionsHaveScenes }
    ensures behind { StatementsLead }
    ensures entered { ScopesAreEntered }
    ensures values { ValuesAreTyped }
    ensures statements { StatementsKeep }
    ensures demands { DemandsFit }
    ensures shallow { EvalsAreShallow }
    ensures starts { EvalsFit }
{}

/// Laws of the items that are read from a source: declarations stand in blocks, and no two operations stand
/// at one place. It does nothing.
pub fn each_source_is_in_order()
    ensures settled { SourcesAreSettled }
    ensures apart { OperationsAreApart }
{}

/// Laws of a source that is read without faults. Each process asks and finishes right; each act of each
/// legal history of its meaning, a landing too, is an instance of the signature of its site; and each
/// process of such a history began as it fits. It does nothing.
pub fn each_act_is_an_instance()
    ensures processes { ProcessesAreTyped }
    ensures acts { ActsAreInstances }
    ensures starts { ProcessesBeganRight }
{}

/// Laws of a source that is read without faults. What a process that begins as it fits asks for, whatever it
/// is told, is an instance of the signature of its site, the landing of what it finishes with too. It asks
/// for an `eval` only where its depth is below 64; and what its `eval` makes, one deeper, begins as it fits,
/// at a depth from 1 to 64. So it is with each process and each request of a legal history. It does nothing.
pub fn each_request_is_an_instance()
    ensures requests { RequestsAreInstances }
    ensures evals { EvalsAreAskedBelow }
    ensures live { LiveTuplesBegin }
    ensures starts { ProcessesBegin }
    ensures histories { HistoriesAreInstances }
{}

/// A law of the sets of a text's operations, however they are found. Each request of a legal history of a
/// source that is read without faults, of its acts and of the processes that stand behind them, landings too,
/// is at a site of a set, whose shape it suits. It does nothing.
pub fn each_request_suits_its_set()
    ensures histories { HistoriesSuit }
{}

/// A law of two sets. The tuple that a request of such a history at a site of one adds matches no template
/// with which a request at a site of the other asks. It does nothing.
pub fn acts_of_two_sets_never_match()
    ensures histories { HistoriesNeverMatch }
{}

/// A law of a source that is read without faults, and of each program that has its operations, at each
/// `eval` the functions that its fields call, and functions that take and give what those of the text do: a
/// start of the text that begins as it fits is one that fits the program. It does nothing.
pub fn each_start_fits_its_program()
    ensures starts { StartsFitPrograms }
{}
