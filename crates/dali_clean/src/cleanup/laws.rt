//! A law of clean-ups over lists of records, the contract of a function that does nothing.
ghost use Rattle.dali_clean.specs.Cleanup.Stepped.{DeadLeaves, ClaimIsStep, RecoverIsStep, CleanIsStep, EndIsStep, GiveBackIsStep};

/// What each call of a clean-up leaves is a step of a core, with no rule of the log for the caller to prove. So it is of
/// the claim, the latch that takes the client's operation back, each commit, the end, and what a refusal gives back. In a
/// whole core the region that a dead transaction's row names is as that latch asks for.
pub fn a_clean_up_makes_steps()
    ensures claim { ClaimIsStep }
    ensures left { DeadLeaves }
    ensures recover { RecoverIsStep }
    ensures commit { CleanIsStep }
    ensures ended { EndIsStep }
    ensures given_back { GiveBackIsStep }
{}
