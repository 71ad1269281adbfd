//! What follows from a run: its table, locks and counts in words of the log, and how the calls under way stand there.

ghost use Rattle.dali_runs.specs.Facts.Facts.{HoldsItsKeys, HasItsUndos, HasCounts, RowsAreOlder, CommittedIsLogged, HoldsTheBegun, RefusalsTell, StopTells, RegionsTell};
ghost use Rattle.dali_runs.specs.Facts.States.{StatesComeFrom};
ghost use Rattle.dali_runs.specs.Facts.Undos.{UndosMayBePerformed, RemovalsMayBePerformed};
ghost use Rattle.dali_runs.specs.Facts.Ends.{BeginFollows, NextIsUnbegun, CommitFollows, SoloFollows, EndFollows, EmptyEnds, OnlyThese, OthersLeave, CommitIsStep, SoloIsStep, EndIsStep, EmptyEndIsStep};
ghost use Rattle.dali_runs.specs.Facts.Plans.{PlanGoesOn, PlanStarts, PlanAnswers, TakeBackGoesOn};

/// A running transaction holds the keys of its blocks.
pub fn a_run_holds_its_keys()
    ensures { HoldsItsKeys }
{}

/// Each row without a Commit has the undo list of the log.
pub fn a_run_has_its_undos()
    ensures { HasItsUndos }
{}

/// The counts are those of the log.
pub fn a_run_has_its_counts()
    ensures { HasCounts }
{}

/// Each row's number is below the next one: no row stands where a transaction begins.
pub fn a_run_has_older_rows()
    ensures { RowsAreOlder }
{}

/// A row says Committed exactly where the log has the Commit.
pub fn a_run_has_its_commits()
    ensures { CommittedIsLogged }
{}

/// The next block of a plan is allowed.
pub fn a_plan_goes_on()
    ensures { PlanGoesOn }
{}

/// The first block of a plan is allowed.
pub fn a_plan_starts()
    ensures { PlanStarts }
{}

/// The answer of a plan is allowed.
pub fn a_plan_answers()
    ensures { PlanAnswers }
{}

/// The block of the last undo is allowed.
pub fn a_taking_back_goes_on()
    ensures { TakeBackGoesOn }
{}

/// The table has just the transactions of the last epoch with a Begin and no Ended.
pub fn a_run_holds_the_begun()
    ensures { HoldsTheBegun }
{}

/// A transaction that ran made each refused request, which names an older one that ran then, and has ended since
/// or is in its way still.
pub fn a_run_tells_its_refusals()
    ensures { RefusalsTell }
{}

/// The engine is stopped by damage exactly where an audit of the epoch failed, and by the store only where it
/// failed since the load.
pub fn a_run_tells_its_stop()
    ensures { StopTells }
{}

/// A region's codeword tells its stray writes, and without one its words are those that the log leaves.
pub fn a_run_tells_its_words()
    ensures { RegionsTell }
{}

/// A row is Live only where it was or is new. It is Dead only where it was with the same region, or was Live or claimed. It is claimed only
/// where it was or was Dead, with the same region. It is Committed only where it was or was Live.
pub fn states_come_from_states()
    ensures { StatesComeFrom }
{}

/// The next number has no record yet, and behind its Begin a transaction is between calls, with nothing to take back.
pub fn a_transaction_begins()
    ensures follows { BeginFollows }
    ensures next { NextIsUnbegun }
{}

/// Between calls, with nothing taken back of what had been answered, it may commit. Then each removal is freed by a solo, in
/// order, and behind the last of them it ends; no other record of it is allowed.
pub fn a_commit_is_followed_by_its_removals()
    ensures commit { CommitFollows }
    ensures solo { SoloFollows }
    ensures end { EndFollows }
    ensures only { OnlyThese }
{}

/// One with nothing to take back may end without a commit.
pub fn an_abort_ends()
    ensures { EmptyEnds }
{}

/// A record that doesn't concern a transaction leaves it where it was.
pub fn others_leave_a_transaction()
    ensures { OthersLeave }
{}

/// So a commit, a solo and an end are steps of a run, with no rule of the log for the caller to prove.
pub fn the_ends_of_a_transaction_are_steps()
    ensures commit { CommitIsStep }
    ensures solo { SoloIsStep }
    ensures end { EndIsStep }
    ensures abort { EmptyEndIsStep }
{}

/// Each undo of a row may be performed: it can be spelled, its region is one of its kind, and its transaction has its key alone.
pub fn the_undos_of_a_row_may_be_performed()
    ensures { UndosMayBePerformed }
{}

/// So may be what a committed transaction has still to free, and each of these is the undo of a removal.
pub fn the_removals_of_a_commit_may_be_performed()
    ensures { RemovalsMayBePerformed }
{}
