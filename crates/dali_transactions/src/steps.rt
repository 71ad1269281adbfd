//! A commit in steps of its own, between which others make theirs: its record; behind a flush each of its removals; its end.
ghost use Rattle.std.specs.Prelude.{◌≡◌, ◌≤◌, [], true, false, Some, None, Err, IfSome, IfOk, IsOk, OnOk, OnErr, IfErr, IsErrOf, length};
ghost use Rattle.std.specs.FinMap as map;
ghost use Rattle.dali_runs.specs.State.{state_of};
ghost use Rattle.dali_runs.specs.Steps.{commit_logged, ended_logged};
ghost use Rattle.dali_runs.specs.declared.causes.Cause.TheVariants.{Store as ByStore};
ghost use Rattle.dali_system.specs.Promised.{promised_to, used};
ghost use Rattle.dali_system.specs.Served.{solo_room};
ghost use Rattle.dali_calls.specs.Flags.{FlagsStay};
ghost use Rattle.dali_calls.specs.Others.{PromisesStay};
ghost use Rattle.dali_calls.specs.Single.Settling.{IsPromised, settle_room};
ghost use Rattle.dali_clean.specs.Others.{OthersStay};
ghost use Rattle.dali_transactions.specs.declared.error.CommitError.TheVariants.{Stopped, OutOfMemory, Unfit};
ghost use Rattle.dali_transactions.specs.Ended.{Comes};
ghost use Rattle.dali_att.specs.declared.state.State.TheVariants.{Committed};
ghost use Rattle.dali_transactions.specs.Guards.{MayEnd, MayFreeOn};
ghost use Rattle.dali_transactions.specs.Left.{none_of, FreesIn, Left};
ghost use Rattle.dali_transactions.specs.Steps.{CommitLogs, RemovalFrees, CommitEnds};

use crate::error::CommitError;
use crate::guards::{is_committed, may_end, may_free};
use crate::parts::free_one;
use dali_calls::single::StepError;
use dali_core::Core;
use dali_record::Pending;
use dali_runs::Cause;
use dali_store::Store;
use std::alloc::Global;

/// Logs the commit of a live transaction, and answers what it removed, for `free_removal`. It isn't durable before its flush.
///
/// `Stopped` exactly where the engine is stopped, with that cause, or the vault is (cause: the store); else `Unfit` exactly where
/// the transaction isn't live, or the core hasn't what each point of a run has of a live one; and `OutOfMemory` where memory is
/// refused. Nothing has changed then.
///
/// It takes all memory that is wanted behind it: what is promised to the transaction then is just enough for the solo of each
/// removal and for its end, and so `free_removal` and `end_commit` want none, whatever others log in between.
pub fn log_commit<V: Store>(
    core: &mut Core<V>,
    alloc: Global,
    txn: u64,
) -> Result<Vec<Pending>, CommitError>
    ensures logged { OnOk result (core.new ≡ record core.old { system = core.new.system }) }
    ensures state { OnOk result (core.new.system.state ≡ commit_logged core.old.system.state txn) }
    ensures ok { IfOk result (λ removals. CommitLogs V.Store core.old.regions.items core.old.system.state core.old.vault txn removals.items) }
    ensures promised { IfOk result (λ removals. promised_to core.new.system.promised txn ≡ settle_room (length removals.items)) }
    ensures promises { PromisesStay core.old.system txn core.new.system }
    ensures others { OthersStay core.old.regions.items core.old.system.state txn core.new.regions.items core.new.system.state }
    ensures err { OnErr result (core.new ≡ core.old) }
    ensures stopped { IfSome core.old.system.state.stop (λ cause. result ≡ Err (Stopped cause)) }
    ensures vault_stopped { core.old.system.state.stop ≡ None → core.old.vault.stopped ≡ true → result ≡ Err (Stopped ByStore) }
    ensures unfit { IsErrOf result Unfit → MayEnd core.old.regions.items core.old.system.state txn → ⊥ }
    ensures memory { core.old.system.state.stop ≡ None → core.old.vault.stopped ≡ false → IfErr result (λ e. (e ≡ Unfit → ⊥) → e ≡ OutOfMemory) }
    ensures other { core.old.system.state.stop ≡ None → core.old.vault.stopped ≡ false → (MayEnd core.old.regions.items core.old.system.state txn → ⊥) → result ≡ Err Unfit }
{
    if let Some(cause) = core.system.stopped() {
        return Err(CommitError::Stopped { cause });
    }
    if core.vault.stopped() {
        let cause = Cause::Store;
        return Err(CommitError::Stopped { cause });
    }
    if !may_end(&core.regions, &core.system, txn) {
        return Err(CommitError::Unfit);
    }
    match dali_calls::single::commit(alloc, &mut core.system, txn) {
        Ok(removals) => Ok(removals),
        Err(_) => Err(CommitError::OutOfMemory),
    }
}

/// Frees for good one removal of a committed transaction, the first of those that are left. Where a dead client has latched its
/// region, the operation in which that client died is taken back first, and its transaction stays dead. No call of the store
/// is made. It uses what is promised to the transaction for one solo. Where that is promised, the engine runs and the removal
/// may be freed, it isn't refused: it wants no memory.
///
/// `Stopped` exactly where the engine is stopped, with that cause, and nothing changes then. Else `Unfit` exactly where the
/// removal may not be freed: the transaction isn't committed, or the core hasn't what each point of a run has of its removal.
/// Nothing changes then either. `OutOfMemory` where memory that wasn't promised is refused. Nothing is logged then, and it may be
/// asked for again.
pub fn free_removal<V: Store>(
    core: &mut Core<V>,
    txn: u64,
    removal: &Pending,
) -> Result<(), CommitError>
    ensures ok { OnOk result (RemovalFrees V.Store txn removal.now core.old.regions.items core.old.system.state core.old.vault core.new.regions.items core.new.system.state) }
    ensures left { OnErr result (Comes V.Store txn none_of [] core.old.regions.items core.old.system.state core.old.vault core.new.regions.items core.new.system.state) }
    ensures promised { MayFreeOn core.old.regions.items core.old.system.state txn removal.now → IsPromised core.old.system txn solo_room → IsOk result }
    ensures uses { OnOk result (core.new.system.promised ≡ used core.old.system.promised txn solo_room) }
    ensures unused { OnErr result (core.new.system.promised ≡ core.old.system.promised) }
    ensures others { OthersStay core.old.regions.items core.old.system.state txn core.new.regions.items core.new.system.state }
    ensures still { state_of core.new.system.state txn ≡ state_of core.old.system.state txn }
    ensures locks { core.new.system.state.locks ≡ core.old.system.state.locks }
    ensures stopped { IfSome core.old.system.state.stop (λ cause. (result ≡ Err (Stopped cause)) × (core.new ≡ core.old)) }
    ensures unfit { IsErrOf result Unfit → MayFreeOn core.old.regions.items core.old.system.state txn removal.now → ⊥ }
    ensures unchanged { IsErrOf result Unfit → core.new ≡ core.old }
    ensures memory { core.old.system.state.stop ≡ None → IfErr result (λ e. (e ≡ Unfit → ⊥) → e ≡ OutOfMemory) }
    ensures other { core.old.system.state.stop ≡ None → (MayFreeOn core.old.regions.items core.old.system.state txn removal.now → ⊥) → result ≡ Err Unfit }
    ensures vault { core.new.vault ≡ core.old.vault }
    ensures flags { FlagsStay core.old.regions.items core.new.regions.items }
{
    if let Some(cause) = core.system.stopped() {
        return Err(CommitError::Stopped { cause });
    }
    if !may_free(&core.regions, &core.system, txn, removal) {
        return Err(CommitError::Unfit);
    }
    match free_core(core, txn, removal) {
        Ok(()) => Ok(()),
        Err(_) => Err(CommitError::OutOfMemory),
    }
}

// Frees one removal of a committed transaction of a core.
fn free_core<V: Store>(core: &mut Core<V>, txn: u64, removal: &Pending) -> Result<(), StepError>
    requires { MayFreeOn core.old.regions.items core.old.system.state txn removal.now }
    ensures freed { OnOk result (FreesIn txn removal.now core.old.regions.items core.old.system.state core.new.regions.items core.new.system.state) }
    ensures left { OnErr result (Left none_of [] txn core.old.regions.items core.old.system core.new.regions.items core.new.system) }
    ensures promised { IsPromised core.old.system txn solo_room → IsOk result }
    ensures uses { OnOk result (core.new.system.promised ≡ used core.old.system.promised txn solo_room) }
    ensures unused { OnErr result (core.new.system.promised ≡ core.old.system.promised) }
    ensures others { OthersStay core.old.regions.items core.old.system.state txn core.new.regions.items core.new.system.state }
    ensures still { state_of core.new.system.state txn ≡ Some Committed }
    ensures locks { core.new.system.state.locks ≡ core.old.system.state.locks }
    ensures flags { FlagsStay core.old.regions.items core.new.regions.items }
    ensures vault { core.new.vault ≡ core.old.vault }
{
    free_one(&mut core.regions, &mut core.system, txn, removal)
}

/// Logs the end of a committed transaction, all of whose removals are freed: it has no row, no lock and no memory promised any
/// more. It uses 9 of the bytes that are promised to the transaction, and gives the others back. Where these are promised, the
/// engine runs and the transaction is committed, it isn't refused: it wants no memory.
///
/// `Stopped` exactly where the engine is stopped, with that cause. Else `Unfit` exactly where the transaction isn't committed: it
/// is live or dead, or has no row. `OutOfMemory` where memory that wasn't promised is refused. Nothing has changed then.
pub fn end_commit<V: Store>(core: &mut Core<V>, txn: u64) -> Result<(), CommitError>
    ensures ok { OnOk result (CommitEnds V.Store txn core.old.regions.items core.old.system.state core.old.vault core.new.regions.items core.new.system.state) }
    ensures state { OnOk result (core.new.system.state ≡ ended_logged core.old.system.state txn) }
    ensures rest { core.new ≡ record core.old { system = core.new.system } }
    ensures err { OnErr result (core.new ≡ core.old) }
    ensures promised { state_of core.old.system.state txn ≡ Some Committed → IsPromised core.old.system txn (settle_room 0) → IsOk result }
    ensures released { OnOk result (core.new.system.promised ≡ map.remove core.old.system.promised txn) }
    ensures stopped { IfSome core.old.system.state.stop (λ cause. result ≡ Err (Stopped cause)) }
    ensures unfit { IsErrOf result Unfit → state_of core.old.system.state txn ≡ Some Committed → ⊥ }
    ensures memory { core.old.system.state.stop ≡ None → IfErr result (λ e. (e ≡ Unfit → ⊥) → e ≡ OutOfMemory) }
    ensures other { core.old.system.state.stop ≡ None → (state_of core.old.system.state txn ≡ Some Committed → ⊥) → result ≡ Err Unfit }
{
    if let Some(cause) = core.system.stopped() {
        return Err(CommitError::Stopped { cause });
    }
    if !is_committed(&core.system, txn) {
        return Err(CommitError::Unfit);
    }
    match core.system.ended(txn) {
        Ok(_) => Ok(()),
        Err(_) => Err(CommitError::OutOfMemory),
    }
}
