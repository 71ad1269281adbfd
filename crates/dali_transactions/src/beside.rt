//! Laws for whoever steps the clients of one core: what the clauses of their calls say, wherever the core stands in a run.
ghost use Rattle.dali_transactions.specs.Beside.Went.{CourseGoes, BetweenEach, BetweenGoes};
ghost use Rattle.dali_transactions.specs.Beside.Calls.{BeginGoes, AskGoes, OperateGoes, DieGoes, AnswerGoes, PerformGoes, ReleaseGoes, ReleaseTells, CleanGoes, LeftGoes, EndGoes, CommitLeaves, FailureLeaves};
ghost use Rattle.dali_transactions.specs.Beside.Keeps.{BeginKeeps, PerformKeeps, DieKeeps, CleanKeeps, EndKeeps, CommitKeeps, FailureKeeps};
ghost use Rattle.dali_transactions.specs.Beside.Beside.{FlushEnds, CommitEnds};
ghost use Rattle.dali_transactions.specs.Beside.Runs.{GoneHasEnded, LiveIsUncommitted, EndedSince};

use dali_store::Store;

/// Where a core stands at a point of a run, steps that call no store, take no frame and are none of a checkpoint lead to a
/// point where it stands again, if they leave no live hold. Its image files stay whole, and whoever has no step among them is
/// left where it was.
pub fn a_course_goes<V: Store>()
    ensures { CourseGoes V.Store }
{}

/// So it is of a begin, of a request for a lock, of one operation of a plan, of a death in one, of an answer, and of a whole
/// call. The plan, or the transaction, stands behind it as its clauses say.
pub fn a_call_goes<V: Store>()
    ensures begin { BeginGoes V.Store }
    ensures ask { AskGoes V.Store }
    ensures operate { OperateGoes V.Store }
    ensures die { DieGoes V.Store }
    ensures answer { AnswerGoes V.Store }
    ensures perform { PerformGoes V.Store }
{}

/// What a dead client left on a region is taken back without a record: its row then names no region any more. A clean-up logs
/// the takings back of its transaction and its end, and nothing else; one that is refused logs takings back alone.
pub fn a_clean_up_goes<V: Store>()
    ensures release { ReleaseGoes V.Store }
    ensures tells { ReleaseTells V.Store }
    ensures clean { CleanGoes V.Store }
    ensures left { LeftGoes V.Store }
{}

/// An abort, a commit, and a commit that the store failed leave each other live transaction where it was.
pub fn an_end_leaves_others<V: Store>()
    ensures end { EndGoes V.Store }
    ensures commit { CommitLeaves V.Store }
    ensures failure { FailureLeaves V.Store }
{}

/// Where each live transaction is between two calls, each may commit; and so it is again behind a call that ended and behind an
/// end.
pub fn a_core_stays_between_calls<V: Store>()
    ensures each { BetweenEach V.Store }
    ensures goes { BetweenGoes V.Store }
    ensures begin { BeginKeeps V.Store }
    ensures perform { PerformKeeps V.Store }
    ensures die { DieKeeps V.Store }
    ensures clean { CleanKeeps V.Store }
    ensures end { EndKeeps V.Store }
    ensures commit { CommitKeeps V.Store }
    ensures failure { FailureKeeps V.Store }
{}

/// Where a flush or a commit of another client fails while a checkpoint is under way, what it leaves is what giving that one up
/// asks for, and steps lead on to its end.
pub fn a_failure_beside_a_checkpoint_ends_it<V: Store>()
    ensures flush { FlushEnds V.Store }
    ensures commit { CommitEnds V.Store }
{}

/// A transaction that began in this epoch and has no row has ended; one that had a row and has none has ended since; and a live
/// one hasn't committed.
pub fn a_run_tells_who_is_gone()
    ensures gone { GoneHasEnded }
    ensures since { EndedSince }
    ensures uncommitted { LiveIsUncommitted }
{}
