//! Laws of whole cores over any store, each the contract of a function that does nothing.
ghost use Rattle.dali_core.specs.Flushed.{CommittedStands};
ghost use Rattle.dali_core.specs.Moments.{FlushIsRight};

use dali_store::Store;

/// Where all records of a core are flushed, as behind Ok of `flush`, each disk that a crash may leave spells files of
/// whose log each committed transaction is committed.
pub fn a_flushed_commit_is_in_each_crash_image<V: Store>()
    ensures { CommittedStands V.Store }
{}

/// Where a core stands at a point of a run, and its vault runs, each disk that a crash inside `flush` leaves spells files
/// that restart right. They have what was flushed before, and maybe the records that are flushed now.
pub fn a_crash_inside_a_flush_is_right<V: Store>()
    ensures { FlushIsRight V.Store }
{}
