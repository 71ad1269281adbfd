//! Laws of ends over any store, each the contract of a function that does nothing.
ghost use Rattle.dali_transactions.specs.Committed.{CommitIsRight};
ghost use Rattle.dali_transactions.specs.Guards.{UpMayEnd, UpMayFree};

use dali_store::Store;

/// Where a core stands at a point of a run, engine and vault run, and a live transaction may commit, each disk that a crash
/// inside its commit leaves spells files that restart right. They have what was flushed before, and maybe the records that
/// are flushed now, the commit among them. An abort calls no store, so a crash inside it leaves what one before it leaves.
pub fn a_crash_inside_a_commit_is_right<V: Store>()
    ensures { CommitIsRight V.Store }
{}

/// Wherever a core stands in a run, each live transaction may be ended, no client that is alive has latched a region, and
/// the vault may flush. So a commit or an abort is never refused since the core hasn't what they look for.
pub fn a_live_transaction_may_be_ended<V: Store>()
    ensures { UpMayEnd V.Store }
{}

/// Wherever a core stands in a run, each removal that the rules of its log leave to a committed transaction may be freed. So
/// behind `log_commit`, which takes all memory that is wanted, `free_removal` and `end_commit` are refused only where the engine
/// is stopped.
pub fn a_removal_that_is_left_may_be_freed<V: Store>()
    ensures { UpMayFree V.Store }
{}
