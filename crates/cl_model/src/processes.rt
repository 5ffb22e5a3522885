ghost use Rattle.cl_model.specs.Processes.{EachActAnswers, EachActIsAskedFor, EachDidItsActs, MainDidItsActs, OneActMore, ToldOfItsActs};

/// Laws of what a process did, act by act. One act more at the end, where none landed, is one that answers
/// what the process demands after the others. Each act answers what was demanded after those before it, its
/// landing included, and there is nothing behind a landing. So its request is what the process asked for
/// then. It does nothing.
pub fn each_act_answers()
    ensures more { OneActMore }
    ensures each { EachActAnswers }
    ensures asked { EachActIsAskedFor }
{}

/// Laws of legal histories, of every meaning. Each process that stands after one did all acts of its name,
/// each of which answers what it demanded then, and it was told the replies of these alone. One that stands
/// is itself after more acts, told of its own. Process 0 always stands. It does nothing.
pub fn each_process_did_its_acts()
    ensures each { EachDidItsActs }
    ensures told { ToldOfItsActs }
    ensures main { MainDidItsActs }
{}
