//! Laws of what is appended. Each is the contract of a function that does nothing.
ghost use Rattle.dk_evaluate.specs.Laws.{DecidedStudiesWaitForNothing, KnownAttemptsAreNotWaitedFor, ChildsAnswersDecideAsTheChild};

/// A study that is decided by what was known waits for nothing: no attempt is appended.
pub fn decided_studies_wait_for_nothing()
    ensures { DecidedStudiesWaitForNothing }
{}

/// An attempt that is known is never waited for again: it isn't made, and not appended.
pub fn known_attempts_are_not_waited_for()
    ensures { KnownAttemptsAreNotWaitedFor }
{}

/// Where all that was known are a child's answers, and so is all that was appended, a study that is decided is decided as
/// it is over the child alone.
pub fn childs_answers_decide_as_the_child()
    ensures { ChildsAnswersDecideAsTheChild }
{}
