ghost use Rattle.cl_set.specs.Laws.{EachTurnIsKept, ACounterNeverCompares};

/// A law: plans and seals one after another, none of which waits, with rising tickets, leave a set that
/// keeps what each set keeps; its history has their requests in order, and what it leaves is the content.
/// It does nothing.
pub fn each_turn_is_kept()
    ensures kept { EachTurnIsKept }
{}

/// A law: an operation on a set of class `Counter` makes no comparison. It does nothing.
pub fn a_counter_never_compares()
    ensures compares { ACounterNeverCompares }
{}
