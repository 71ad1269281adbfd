//! Laws of what a renewal leaves, each the contract of a function that does nothing.
ghost use Rattle.dali_restart.specs.Renewal.Renewed.{StartsRun, EndsBehind};

use dali_store::Store;

/// Behind a renewal a run may start, over any lawful log, where the vault is told that the log ends behind the record of the
/// restart, as the renewal answers, and that the new image is the current one.
pub fn a_run_may_start_behind_a_renewal<V: Store>()
    ensures starts { StartsRun V.may_leave }
    ensures end { EndsBehind }
{}
