ghost use Rattle.cl_cases.specs.Calls.{CallsMeanFunctions, PartsAreComplete, StartsMeanFunctions, MainIsThere};
ghost use Rattle.cl_cases.specs.Exits.{StatementsLeave, FunctionsReturn};
ghost use Rattle.cl_cases.specs.Fields.{FormalsReceive, FieldsHold, OutsAreComplete, EvalsAreEvaluated};
ghost use Rattle.cl_cases.specs.Heads.{SourcesAreHeaded, HeadsGoOn};
ghost use Rattle.cl_cases.specs.Initials.{SizesAreThere, FunctionsKnow, KnownEverywhere, GlobalsAreInitial};
ghost use Rattle.cl_cases.specs.Listed.{EachIsListed};
ghost use Rattle.cl_cases.specs.Loops.{EachLoopEnds};
ghost use Rattle.cl_cases.specs.Operands.{ValuesAreNumeric, OperatorsGiveNumbers, WrittenWereNumeric, TuplesFill, StartsHaveNumbers};
ghost use Rattle.cl_cases.specs.Prints.{PrintsAreExact};
ghost use Rattle.cl_cases.specs.Replies.{RepliesMayBeTold};

/// Laws of calls, ways out, loops and prints. A call in which no fault is noted, a call of a process that
/// begins as it fits, and process 0 mean functions of the text, with as many values as these have
/// parameters; and parts give one value each. A statement in which no fault is noted leaves only a loop by
/// `break` or `continue`, and returns a value only where its function gives one. Whatever tokens derive has
/// simple statements alone in the head of each `for`, and these go on. No turn of a loop is left behind the
/// last that the meaning has. A `printf` in which no fault is noted has a value for each of its directives,
/// and none is left. It does nothing.
pub fn each_case_is_meant()
    ensures calls { CallsMeanFunctions }
    ensures parts { PartsAreComplete }
    ensures starts { StartsMeanFunctions }
    ensures begins { MainIsThere }
    ensures exits { StatementsLeave }
    ensures returns { FunctionsReturn }
    ensures sources { SourcesAreHeaded }
    ensures heads { HeadsGoOn }
    ensures loops { EachLoopEnds }
    ensures prints { PrintsAreExact }
{}

/// Laws of operations. No formal stands in an `out` or an `eval` in which no fault is noted, so an `out` asks
/// with as many values as it has fields; an `eval` makes a process, and each other operation asks as its
/// verb says. A reply that fits is one that the verb has, with as many values as there are fields; and each
/// formal gets a number. The number of each operation is below the count of a text's operations, and that of
/// each string of its fields below the count of strings. It does nothing.
pub fn each_operation_is_meant()
    ensures formals { FormalsReceive }
    ensures fields { FieldsHold }
    ensures outs { OutsAreComplete }
    ensures evals { EvalsAreEvaluated }
    ensures replies { RepliesMayBeTold }
    ensures tuples { TuplesFill }
    ensures listed { EachIsListed }
{}

/// Laws of numbers. An expression in which no fault is noted gives a number, and no text; so do operators,
/// places that are written, and the arguments of a process that begins as it fits. What is known of
/// constants stands outside of functions, so a size in which no fault is noted is from 1 to 65,536; and
/// each global of a text without faults has an initial value that is a constant, and converts without a
/// trap. It does nothing.
pub fn each_number_is_there()
    ensures values { ValuesAreNumeric }
    ensures operators { OperatorsGiveNumbers }
    ensures written { WrittenWereNumeric }
    ensures starts { StartsHaveNumbers }
    ensures functions { FunctionsKnow }
    ensures known { KnownEverywhere }
    ensures sizes { SizesAreThere }
    ensures globals { GlobalsAreInitial }
{}
