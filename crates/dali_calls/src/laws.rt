//! Laws of plans over lists of records, each the contract of a function that does nothing.
ghost use Rattle.dali_calls.specs.TakingBack.{TakeBackIsStep};
ghost use Rattle.dali_calls.specs.Followed.{PlanBegins, PlanIsRefused, OnwardFollows, BackFollows, DoneFollows, OthersFollow, RefusedRests, OnwardIsStep, BackIsStep, DoneIsStep};

/// A new plan of a transaction between calls follows the log.
pub fn a_plan_begins()
    ensures { PlanBegins }
{}

/// So does one that is refused, and when it wants nothing more its transaction is between calls.
pub fn a_refused_plan_follows()
    ensures follows { PlanIsRefused }
    ensures rests { RefusedRests }
{}

/// The block of a plan's next operation is allowed, on its call and on its way back, and the plan follows the log with
/// it.
pub fn a_plan_follows_its_blocks()
    ensures onward { OnwardFollows }
    ensures back { BackFollows }
{}

/// So is its answer.
pub fn a_plan_follows_its_answer()
    ensures { DoneFollows }
{}

/// What others log changes nothing of it.
pub fn others_leave_a_plan()
    ensures { OthersFollow }
{}

/// What the calls of a plan leave is a step of a core, with no rule of the log for the caller to prove.
pub fn a_plan_makes_steps()
    ensures onward { OnwardIsStep }
    ensures back { BackIsStep }
    ensures done { DoneIsStep }
{}

/// What each commit of a taking back leaves is a step of a core, in a call or between two, and the rest of the undos is
/// left then.
pub fn a_taking_back_makes_steps()
    ensures { TakeBackIsStep }
{}
