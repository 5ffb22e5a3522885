ghost use Rattle.cl_model.specs.Counting.{AnswersAgree, WaitingAgrees};

/// Laws of a list of tuples and the bag that counts them. What the list answers to an operation that needn't
/// wait, its oldest match or a miss, the bag allows, and it still counts what is left. An operation waits on
/// the list exactly where it waits on the bag. It does nothing.
pub fn each_list_answers_as_its_bag()
    ensures answers { AnswersAgree }
    ensures waits { WaitingAgrees }
{}
