//! A transaction of a core commits.
ghost use Rattle.std.specs.Prelude.{◌≡◌, ◌<◌, ◌^◌, [], true, false, Some, None, Err, Ok, IfSome, OnOk, OnErr, IfErr, IsErrOf, IfOk, is_some, length};
ghost use Rattle.std.specs.List.{AllByRecursion, list_all};
ghost use Rattle.dali_geometry.specs.Places.{regions as regions_of};
ghost use Rattle.dali_record.specs.Legal.{dead_of};
ghost use Rattle.dali_att.specs.Table.{undos_at};
ghost use Rattle.dali_att.specs.declared.state.State.TheVariants.{Committed};
ghost use Rattle.dali_runs.specs.State.{state_of};
ghost use Rattle.dali_runs.specs.Steps.{commit_logged};
ghost use Rattle.dali_runs.specs.declared.causes.Cause.TheVariants.{Store as ByStore};
ghost use Rattle.dali_store.specs.Calls.{fewer};
ghost use Rattle.dali_store.specs.Faults.{Rose};
ghost use Rattle.dali_system.specs.Promised.{promised_to};
ghost use Rattle.dali_calls.specs.Flags.{FlagsStay};
ghost use Rattle.dali_calls.specs.Others.{PromisesStay, IsGone};
ghost use Rattle.dali_calls.specs.Single.Settling.{MayFree, IsPromised, settle_room};
ghost use Rattle.dali_clean.specs.Others.{OthersStay};
ghost use Rattle.dali_core.specs.Cores.{IsWholeCore, IsNoShorter};
ghost use Rattle.dali_core.specs.Moments.{FlushLeaves, Within};
ghost use Rattle.dali_transactions.specs.declared.error.CommitError.TheVariants.{Stopped, OutOfMemory, Unfit, Fault};
ghost use Rattle.dali_transactions.specs.Stands.{IsUp, IsBetween};
ghost use Rattle.dali_transactions.specs.Left.{HoldsStay, Settled};
ghost use Rattle.dali_transactions.specs.Committed.{CommitGoes, CommitFails};
ghost use Rattle.dali_transactions.specs.Guards.{is_releasable_on, MayEnd, MayFlush};

use crate::error::{CommitError, commit_refused};
use crate::guards::may_end;
use crate::parts::free_removals;
use dali_core::{Core, flush};
use dali_record::Pending;
use dali_runs::Cause;
use dali_store::Store;
use std::alloc::Global;

// Whether the transaction may be ended, and the vault may flush its commit.
fn may_commit<V: Store>(core: &Core<V>, txn: u64) -> bool
    ensures is { result ≡ true → MayEnd core.now.regions.items core.now.system.state txn × MayFlush core.now.vault }
    ensures always { MayEnd core.now.regions.items core.now.system.state txn → MayFlush core.now.vault → result ≡ true }
{
    if core.vault.end() >= 1 << 62 {
        return false;
    }
    may_end(&core.regions, &core.system, txn)
}

// Frees what a committed transaction of a core removed, and logs its end.
fn settle_core<V: Store>(core: &mut Core<V>, txn: u64, removals: &[Pending])
    requires whole { length core.old.regions.items ≡ regions_of core.old.system.state.sizes }
    requires releasable { list_all (is_releasable_on core.old.regions.items) removals.now ≡ true }
    requires may { AllByRecursion (MayFree core.old.system.state txn) removals.now }
    requires committed { state_of core.old.system.state txn ≡ Some Committed }
    requires promised { IsPromised core.old.system txn (settle_room (length removals.now)) }
    ensures settled { Settled txn removals.now core.old.regions.items core.old.system core.new.regions.items core.new.system }
    ensures flags { FlagsStay core.old.regions.items core.new.regions.items }
    ensures vault { core.new.vault ≡ core.old.vault }
{
    free_removals(&mut core.regions, &mut core.system, txn, removals)
}

/// Commits a live transaction, makes its commit durable, frees for good what it removed, and logs its end. All memory that
/// this takes is taken first, so behind its flush each answer is Ok. Where a dead client has latched the region of a removal,
/// the operation in which that client died is taken back first, and its transaction stays dead. It makes four calls of the
/// store.
///
/// `Stopped` exactly where the engine is stopped, with that cause, or the vault is (cause: the store). It asks for nothing: else
/// `Unfit` exactly where the transaction isn't live, or the core hasn't what each point of a run has of a live one; and
/// `OutOfMemory` where memory is refused. Nothing has changed then. `Fault` only where the store's count of faults rose: the
/// commit is logged and isn't flushed, and vault and engine stop.
///
/// On Ok the commit is flushed, so each crash leaves it, and the transaction has no row, no lock and no memory promised any
/// more. Behind the log stand its commit, its solos in the order of its removals, and its end, and nothing else. Every other
/// transaction keeps its row, its locks and the memory that it was promised; a dead one whose region was in the way, that is
/// the region of a removal, has it latched no more.
pub fn commit<V: Store>(core: &mut Core<V>, alloc: Global, txn: u64) -> Result<(), CommitError>
    ensures ok { OnOk result (CommitGoes V.Store core.old.regions.items core.old.system.state core.old.vault txn core.new.regions.items core.new.system.state core.new.vault) }
    ensures up { IsBetween V.Store core.old.regions.items core.old.system.state core.old.vault txn → IsUp V.Store core.new.regions.items core.new.system.state core.new.vault }
    ensures gone { OnOk result (IsGone core.new.system.state txn) }
    ensures released { OnOk result (promised_to core.new.system.promised txn ≡ 0) }
    ensures stopped { IfSome core.old.system.state.stop (λ cause. result ≡ Err (Stopped cause)) }
    ensures vault_stopped { core.old.system.state.stop ≡ None → core.old.vault.stopped ≡ true → result ≡ Err (Stopped ByStore) }
    ensures unfit { IsErrOf result Unfit → MayEnd core.old.regions.items core.old.system.state txn → MayFlush core.old.vault → ⊥ }
    ensures memory { core.old.system.state.stop ≡ None → core.old.vault.stopped ≡ false → IfErr result (λ e. (e ≡ Fault → ⊥) → (e ≡ Unfit → ⊥) → e ≡ OutOfMemory) }
    ensures other { core.old.system.state.stop ≡ None → core.old.vault.stopped ≡ false
        → (MayEnd core.old.regions.items core.old.system.state txn × MayFlush core.old.vault → ⊥) → result ≡ Err Unfit }
    ensures fault { IsErrOf result Fault → CommitFails V.Store core.old.regions.items core.old.system.state core.old.vault txn core.new.system.state core.new.vault }
    ensures faulted { IsErrOf result Fault → Rose (V.faults core.old.vault.store) (V.faults core.new.vault.store) × (core.new.vault.stopped ≡ true) }
    ensures kept { IsBetween V.Store core.old.regions.items core.old.system.state core.old.vault txn → OnOk result (V.faults core.new.vault.store ≡ V.faults core.old.vault.store) }
    ensures calls { IsBetween V.Store core.old.regions.items core.old.system.state core.old.vault txn → OnOk result (V.lets_pass core.new.vault.store ≡ fewer 4 (V.lets_pass core.old.vault.store)) }
    ensures regions { OnErr result (core.new.regions.items ≡ core.old.regions.items) }
    ensures tells { is_some (V.told core.new.vault.store) ≡ is_some (V.told core.old.vault.store) }
    ensures unchanged { IfErr result (λ e. (e ≡ Fault → ⊥) → core.new ≡ core.old) }
    ensures unflushed { OnErr result (core.new.vault.flushed ≡ core.old.vault.flushed) }
    ensures any_moment { core.old.vault.stopped ≡ false → (IsErrOf result OutOfMemory → ⊥) → (IsErrOf result Unfit → ⊥) → core.old.system.state.stop ≡ None
        → Within V.told V.moment V.left_since core.old.vault core.new.vault (FlushLeaves V.may_leave (commit_logged core.old.system.state txn) core.old.vault) }
    ensures others { OthersStay core.old.regions.items core.old.system.state txn core.new.regions.items core.new.system.state }
    ensures in_the_way { IsBetween V.Store core.old.regions.items core.old.system.state core.old.vault txn → HoldsStay (dead_of (undos_at core.old.system.state.table txn)) core.old.regions.items core.new.regions.items }
    ensures promises { PromisesStay core.old.system txn core.new.system }
    ensures flags { FlagsStay core.old.regions.items core.new.regions.items }
    ensures files { IsNoShorter V.told core.old.vault core.new.vault }
    ensures whole { IsBetween V.Store core.old.regions.items core.old.system.state core.old.vault txn → IsWholeCore V.told core.old.regions.items core.old.system.state core.old.vault → IsWholeCore V.told core.new.regions.items core.new.system.state core.new.vault }
{
    if let Some(cause) = core.system.stopped() {
        return Err(CommitError::Stopped { cause });
    }
    if core.vault.stopped() {
        let cause = Cause::Store;
        return Err(CommitError::Stopped { cause });
    }
    if !may_commit(core, txn) {
        return Err(CommitError::Unfit);
    }
    let removals = match dali_calls::single::commit(alloc, &mut core.system, txn) {
        Ok(removals) => removals,
        Err(error) => return Err(commit_refused(error)),
    };
    match flush(core, alloc) {
        Ok(()) => {}
        Err(_) => return Err(CommitError::Fault),
    }
    settle_core(core, txn, &removals);
    Ok(())
}
