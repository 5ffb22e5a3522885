ghost use Rattle.cl_code.specs.Arithmetic.{QuotientsAgree, RemaindersAgree};
ghost use Rattle.cl_code.specs.Laws.{AsksRight, CodeDemands, GoesByInstructions, HeightsAreMet, InstancesBegin, IsNeverWrong, JumpsRight, LandsRight, NoLandings, StacksAreLow};
ghost use Rattle.cl_code.specs.Meaning.{ActsAreInstances, ProcessesBegin, ProgramsAreStorable};

/// Laws: what the code of a program demands keeps the laws of demands. Who is over is told nothing more,
/// what was printed stays printed, and no reply is taken but one that fits. No process asks for a landing. It
/// does nothing.
pub fn each_process_demands()
    ensures laws { CodeDemands }
    ensures landings { NoLandings }
{}

/// A law of the code of a program: a live tuple that is an instance of the `eval` of its site, and whose
/// calls are of the functions at their fields, may begin at a depth from 1 to 64. It does nothing.
pub fn each_instance_begins()
    ensures starts { InstancesBegin }
{}

/// Laws of a valid program, of each process that begins as it may, whatever it is told. Its code is never
/// wrong: no instruction, number, cell, function, format or site is missing. Each request is an instance of
/// its site's signature, and so is the tuple with which a process of an `eval` lands. A process that it
/// makes begins as it may. It does nothing.
pub fn each_process_is_right()
    ensures never_wrong { IsNeverWrong }
    ensures requests { AsksRight }
    ensures landings { LandsRight }
{}

/// Laws of a valid program: wherever the machine comes, the stack is as high as the program says of the
/// address, and at most as high as the function says. A jump stays in its function, and one that doesn't go
/// forward meets a `Tick`. It does nothing.
pub fn each_height_is_met()
    ensures heights { HeightsAreMet }
    ensures stacks { StacksAreLow }
    ensures jumps { JumpsRight }
{}

/// A law of a valid program: at each address the machine does what the instruction does, and goes on as
/// that leads. It does nothing.
pub fn each_instruction_leads_on()
    ensures steps { GoesByInstructions }
{}

/// A law of a valid program: a set can be made of each of its shapes. It does nothing.
pub fn each_set_is_storable()
    ensures storable { ProgramsAreStorable }
{}

/// Laws of each legal history of what a valid program means. Each act is an instance of its site's
/// signature, landings too, and each process that stands behind the history began as it may. It does nothing.
pub fn each_act_is_an_instance()
    ensures acts { ActsAreInstances }
    ensures starts { ProcessesBegin }
{}

/// Laws of arithmetic: the machine divides numbers as the meaning of a text divides values, of whatever
/// types. A quotient is the same, and so is a remainder, where the first operand is within the type that both
/// have in common, though the machine tests for the least number by -1 and the meaning for the quotient. It
/// does nothing.
pub fn each_division_agrees()
    ensures quotients { QuotientsAgree }
    ensures remainders { RemaindersAgree }
{}
