ghost use Rattle.cl_cases.specs.Literals.{SourcesFit};
ghost use Rattle.cl_cases.specs.Ranges.{OperatorsStayWithin, VariablesStayWithin, ExpressionsStayWithin, CallsStayWithin, StatementsStayWithin, GlobalsBeginWithin, ProcessesStayWithin, HistoriesStayWithin};

/// Laws of ranges: an `int` is from -2^31 to 2^31 - 1, a `long` from -2^63 to 2^63 - 1, a `char` from 0 to 255.
/// Whatever the tokens of a source derive has literals alone that fit their types. Operators and conversions
/// give numbers within their types, if anything. In a text whose literals fit, where all variables and whatever
/// is told are within, each expression gives a number within its type, each field a value within its own, and
/// variables stay within; so it is with calls and statements. In a text without faults globals begin within; so
/// a process that begins within asks for operations whose values are within and finishes with such, while its
/// replies are within; and in each legal history every act is within, and every process began within and was
/// told tuples within. It does nothing.
pub fn each_value_is_within_its_type()
    ensures sources { SourcesFit }
    ensures operators { OperatorsStayWithin }
    ensures variables { VariablesStayWithin }
    ensures expressions { ExpressionsStayWithin }
    ensures calls { CallsStayWithin }
    ensures statements { StatementsStayWithin }
    ensures begins { GlobalsBeginWithin }
    ensures processes { ProcessesStayWithin }
    ensures histories { HistoriesStayWithin }
{}
