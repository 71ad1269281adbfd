//! Laws for whoever steps several clients, each the contract of a function that does nothing.
ghost use Rattle.dali_calls.specs.Stepwise.Beside.{EachLeavesBe, CourseLeavesBe, OwnStepIsApart, LedLeavesBe, PlanWaits, CallWaits, RestWaits, PlanTurns, TurnedEnds, StepGrows, LedGrows};

/// A step that isn't one of a transaction, and so each list of them, leaves it its row, its locks and its place in the
/// rules of the log, and latches no region for it. Such are the steps of another transaction's own.
pub fn others_leave_it_be()
    ensures step { EachLeavesBe }
    ensures course { CourseLeavesBe }
    ensures own { OwnStepIsApart }
    ensures led { LedLeavesBe }
{}

/// Behind them a plan stands where it stood, and a transaction between two calls may call.
pub fn a_plan_waits()
    ensures plan { PlanWaits }
    ensures call { CallWaits }
    ensures rest { RestWaits }
{}

/// A plan that is refused stands where it stood. Where it wants nothing more, its call has changed nothing that is left,
/// and its transaction may call again.
pub fn a_refused_plan_goes_back()
    ensures turns { PlanTurns }
    ensures ends { TurnedEnds }
{}

/// What steps add to the log is what the system has logged in them.
pub fn the_log_grows_by_what_is_logged()
    ensures step { StepGrows }
    ensures led { LedGrows }
{}
