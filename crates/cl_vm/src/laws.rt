ghost use Rattle.cl_vm.specs.Laws.{EachMachineAnswersAgain};

/// A law: a machine that stands for a process that has begun gives its last answer again, which is what the
/// process demands by now, and no other. It does nothing.
pub fn each_machine_answers_again()
    ensures again { EachMachineAnswersAgain }
{}
