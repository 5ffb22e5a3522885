ghost use Rattle.cl_answered.specs.Laws.{FinishesAreDemanded, LandedAreOver, LandingsAreLast, MachinesBegin, MachinesGoOn, MainIsOver, OperationsAreDemanded, RepliesFit, TrapsAreDemanded};

/// Laws of the answers of a machine that was told the replies of these acts: the request at which it stands,
/// the values with which it finished and its trap are what the code demands behind the acts, with what it
/// printed. It does nothing.
pub fn each_answer_is_demanded()
    ensures operations { OperationsAreDemanded }
    ensures finishes { FinishesAreDemanded }
    ensures traps { TrapsAreDemanded }
{}

/// Laws of a process that is run on a machine. It begins with no act. Where its machine stands at an
/// operation, the machine may be told each reply that fits it; and an act that answers the request is the next
/// act of the process, for which the machine stands once it is told the act's reply. Where it has finished a
/// live tuple, the landing of its values is the last act. It does nothing.
pub fn each_act_goes_on()
    ensures begins { MachinesBegin }
    ensures fits { RepliesFit }
    ensures next { MachinesGoOn }
    ensures last { LandingsAreLast }
{}

/// Laws of ends: process 0 is over where it has finished, and each process where it has landed. It does
/// nothing.
pub fn each_end_is_over()
    ensures main { MainIsOver }
    ensures landed { LandedAreOver }
{}
