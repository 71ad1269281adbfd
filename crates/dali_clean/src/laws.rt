//! Laws of clean-ups, each the contract of a function that does nothing.
ghost use Rattle.dali_clean.specs.Cleaned.{WholeMayClean};
ghost use Rattle.dali_clean.specs.Steps.{OwnSteps};

/// In a whole core without a live hold each transaction may be cleaned up.
pub fn a_whole_core_may_be_cleaned()
    ensures { WholeMayClean }
{}

/// Each step of a clean-up is one of its own: nothing is logged but its undos and its end.
pub fn each_step_of_a_clean_up_is_its_own()
    ensures { OwnSteps }
{}
