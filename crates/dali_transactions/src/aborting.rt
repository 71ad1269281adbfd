//! A transaction of a core is taken back.
ghost use Rattle.std.specs.Prelude.{◌≡◌, [], ◌∷◌, Some, None, Err, IfSome, OnOk, OnErr, IfErr, IsErrOf};
ghost use Rattle.dali_record.specs.declared.records.Record.TheVariants.{Ended};
ghost use Rattle.dali_att.specs.Table.{undos_at};
ghost use Rattle.dali_att.specs.declared.state.State.TheVariants.{Live};
ghost use Rattle.dali_runs.specs.State.{state_of};
ghost use Rattle.dali_system.specs.Promised.{promised_to};
ghost use Rattle.dali_calls.specs.Flags.{FlagsStay};
ghost use Rattle.dali_calls.specs.Others.{PromisesStay, IsGone};
ghost use Rattle.dali_calls.specs.Single.Ending.{IsBackOf};
ghost use Rattle.dali_clean.specs.Others.{OthersStay};
ghost use Rattle.dali_core.specs.Cores.{IsWholeCore};
ghost use Rattle.dali_transactions.specs.declared.error.AbortError.TheVariants.{Stopped, OutOfMemory, Unfit};
ghost use Rattle.dali_transactions.specs.Stands.{IsUp};
ghost use Rattle.dali_transactions.specs.Ended.{Comes};
ghost use Rattle.dali_transactions.specs.Left.{HoldsStay, IsRunning, Left};
ghost use Rattle.dali_transactions.specs.Guards.{MayEnd};

use crate::error::AbortError;
use crate::guards::may_end;
use crate::parts::take_back;
use dali_core::Core;
use dali_store::Store;

// Takes a transaction of a running core back that may be ended.
fn abort_running<V: Store>(core: &mut Core<V>, txn: u64) -> Result<(), AbortError>
    requires may { MayEnd core.old.regions.items core.old.system.state txn }
    requires runs { core.old.system.state.stop ≡ None }
    ensures ok { OnOk result (Left (IsBackOf txn) (Ended txn ∷ []) txn core.old.regions.items core.old.system core.new.regions.items core.new.system) }
    ensures left { OnErr result (Left (IsBackOf txn) [] txn core.old.regions.items core.old.system core.new.regions.items core.new.system) }
    ensures gone { OnOk result (IsGone core.new.system.state txn) }
    ensures lives { OnErr result (state_of core.new.system.state txn ≡ Some Live) }
    ensures memory { IfErr result (λ e. e ≡ OutOfMemory) }
    ensures released { OnOk result (promised_to core.new.system.promised txn ≡ 0) }
    ensures in_the_way { IsRunning core.old.regions.items core.old.system.state → HoldsStay (undos_at core.old.system.state.table txn) core.old.regions.items core.new.regions.items }
    ensures flags { FlagsStay core.old.regions.items core.new.regions.items }
    ensures vault { core.new.vault ≡ core.old.vault }
{
    take_back(&mut core.regions, &mut core.system, txn)
}

/// Takes a live transaction back: performs its undos, the last one first, and logs its end. Where a dead client has latched
/// the region of an undo, the operation in which that client died is taken back first, and its transaction stays dead. No call
/// of the store is made.
///
/// `Stopped` exactly where the engine is stopped, with that cause, and nothing changes then. It asks for nothing: else `Unfit`
/// exactly where the transaction isn't live, or regions and system haven't what each point of a run has of a live one, and
/// nothing changes then either. `OutOfMemory` where memory for a record is refused: what was taken back stays so, the
/// transaction is live, and it may be asked for again.
///
/// On Ok the transaction has no row, no lock and no memory promised any more. Behind the log stand its takings back, and then
/// its end, and nothing else. Every other transaction keeps its row, its locks and the memory that it was promised; a dead one
/// whose region was in the way, that is the region of an undo, has it latched no more.
pub fn abort<V: Store>(core: &mut Core<V>, txn: u64) -> Result<(), AbortError>
    ensures ok { OnOk result (Comes V.Store txn (IsBackOf txn) (Ended txn ∷ []) core.old.regions.items core.old.system.state core.old.vault core.new.regions.items core.new.system.state) }
    ensures left { OnErr result (Comes V.Store txn (IsBackOf txn) [] core.old.regions.items core.old.system.state core.old.vault core.new.regions.items core.new.system.state) }
    ensures up { IsUp V.Store core.old.regions.items core.old.system.state core.old.vault → IsUp V.Store core.new.regions.items core.new.system.state core.new.vault }
    ensures gone { OnOk result (IsGone core.new.system.state txn) }
    ensures released { OnOk result (promised_to core.new.system.promised txn ≡ 0) }
    ensures lives { OnErr result (state_of core.new.system.state txn ≡ state_of core.old.system.state txn) }
    ensures stopped { IfSome core.old.system.state.stop (λ cause. (result ≡ Err (Stopped cause)) × (core.new ≡ core.old)) }
    ensures unfit { IsErrOf result Unfit → MayEnd core.old.regions.items core.old.system.state txn → ⊥ }
    ensures unchanged { IsErrOf result Unfit → core.new ≡ core.old }
    ensures memory { core.old.system.state.stop ≡ None → MayEnd core.old.regions.items core.old.system.state txn → IfErr result (λ e. e ≡ OutOfMemory) }
    ensures other { core.old.system.state.stop ≡ None → (MayEnd core.old.regions.items core.old.system.state txn → ⊥) → result ≡ Err Unfit }
    ensures vault { core.new.vault ≡ core.old.vault }
    ensures others { OthersStay core.old.regions.items core.old.system.state txn core.new.regions.items core.new.system.state }
    ensures in_the_way { IsUp V.Store core.old.regions.items core.old.system.state core.old.vault → HoldsStay (undos_at core.old.system.state.table txn) core.old.regions.items core.new.regions.items }
    ensures promises { PromisesStay core.old.system txn core.new.system }
    ensures flags { FlagsStay core.old.regions.items core.new.regions.items }
    ensures whole { IsUp V.Store core.old.regions.items core.old.system.state core.old.vault → IsWholeCore V.told core.old.regions.items core.old.system.state core.old.vault → IsWholeCore V.told core.new.regions.items core.new.system.state core.new.vault }
{
    if let Some(cause) = core.system.stopped() {
        return Err(AbortError::Stopped { cause });
    }
    if !may_end(&core.regions, &core.system, txn) {
        return Err(AbortError::Unfit);
    }
    abort_running(core, txn)
}
