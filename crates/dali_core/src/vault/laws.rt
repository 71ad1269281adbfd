//! Laws over the definitions, each the contract of a function that does nothing.

ghost use Rattle.dali_core.specs.Vault.Stepped.{BeginsRight, FlushIsStep, FaultIsStep, ReadFailIsStep, TurnIsCounted, OthersLeave};

use dali_store::Store;

/// A vault that was just made may run over a log whose records, with a frame for each, reach to its place, and to which its
/// number is greater by 2^61 at most. A run takes the count of faults that the store had then as the one at its load.
pub fn a_new_vault_may_run<V: Store>()
    ensures { BeginsRight V.faults }
{}

/// What a flush leaves of a vault on Ok is what its step leaves in a run, where the frame has just the records that were
/// taken.
pub fn a_flush_is_a_step<V: Store>()
    ensures { FlushIsStep V.faults }
{}

/// So it is of a fault, which stops the vault, and of a read of the log that fails, which doesn't.
pub fn a_fault_is_a_step<V: Store>()
    ensures flush { FaultIsStep V.faults }
    ensures read { ReadFailIsStep V.faults }
{}

/// The anchor's move counts one more. The image's writes and syncs, and a read that succeeds, leave what a run sees of the
/// vault, and a fault in one of them stops it.
pub fn the_other_calls_leave_a_vault<V: Store>()
    ensures turn { TurnIsCounted V.faults }
    ensures others { OthersLeave V.faults }
{}
