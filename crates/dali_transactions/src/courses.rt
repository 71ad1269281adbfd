//! What a thread does that has a core to itself, as a course of a run.
ghost use Rattle.dali_transactions.specs.Courses.Alone.{OwnStepsAreACourse, AnswerEndsACourse, AbortEndsACourse, SettlingEndsACourse};
ghost use Rattle.dali_transactions.specs.Courses.Back.{AbortGivesBack, CleanUpGivesBack};

/// The steps of a transaction's own, as a call, an abort or a settling makes them, are a course of a run, and none of them is
/// a stray write. So all that is known of such courses holds behind them: behind an abort that each key of its transaction
/// has the records from before it.
pub fn a_thread_alone_makes_a_course()
    ensures steps { OwnStepsAreACourse }
    ensures answer { AnswerEndsACourse }
    ensures abort { AbortEndsACourse }
    ensures settling { SettlingEndsACourse }
{}

/// Where no stray write came since a format or a restart, each key of a transaction's blocks has the records from before its
/// first block on it, behind an abort and behind a clean-up alike.
pub fn what_is_taken_back_is_as_before()
    ensures abort { AbortGivesBack }
    ensures clean_up { CleanUpGivesBack }
{}
