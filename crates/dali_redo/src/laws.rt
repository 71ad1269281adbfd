//! Laws over the definitions, each the contract of a function that does nothing.
ghost use Rattle.dali_redo.specs.Laws.{SpelledUndo, TestsRules, StartsRedo, AppliesOn, SkipsOn, EndsEpoch, Recovers, OnePassKeeps, OnePassRecovers, TellsRolled, ComesTo, OnePassComesTo};

/// A record breaks its rule exactly where the tests of a restart don't allow it; and each that is read from a
/// log meets what `apply` and `skip` ask.
pub fn the_rules_are_those_of_a_restart()
    ensures rules { TestsRules }
    ensures spelled { SpelledUndo }
{}

/// Whoever applies and skips as the scan for damage judges each record follows that scan, from where an epoch
/// begins or an image stands in one; behind a Restarted the next epoch begins.
pub fn a_redo_follows_the_scan()
    ensures starts { StartsRedo }
    ensures applies { AppliesOn }
    ensures skips { SkipsOn }
    ensures ends { EndsEpoch }
{}

/// At the end of an epoch, rolled back and freed, it comes to the image that a restart computes.
pub fn a_redo_recovers_its_epoch()
    ensures recovers { Recovers }
    ensures comes { ComesTo }
{}

/// Where no audit failed, whoever applies each record comes to that too.
pub fn one_pass_recovers_without_a_failed_audit()
    ensures keeps { OnePassKeeps }
    ensures recovers { OnePassRecovers }
    ensures comes { OnePassComesTo }
{}

/// The transactions at work at its end are those that a restart rolls back and reports.
pub fn those_at_work_are_rolled_back()
    ensures { TellsRolled }
{}
