//! Laws of the bytes of acts. Each call does nothing: its clause is the law.

ghost use Rattle.cl_log.specs.Laws.{ReadAsSpelled};
ghost use Rattle.cl_log.specs.Answered.{AnswersFromFound};

/// What acts are spelled as is read as these acts.
pub fn acts_are_read_as_spelled()
    ensures { ReadAsSpelled }
{}

/// What a list of tuples answers to an ask is what was done with the tuple that the list has for it.
pub fn answers_are_from_what_was_found()
    ensures { AnswersFromFound }
{}
