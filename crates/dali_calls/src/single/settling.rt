//! A transaction commits, and what it removed is freed for good.
ghost use Rattle.std.specs.Prelude.{◌≡◌, List, [], Some, None, Err, IfSome, OnOk, OnErr, IfOk, IfErr, length, slice_get, ◌≤◌, ◌+◌, ℕ};
ghost use Rattle.std.specs.List.{AllByRecursion};
ghost use Rattle.dali_geometry.specs.Places.{regions as regions_of};
ghost use Rattle.dali_record.specs.declared.records.Record.{Record};
ghost use Rattle.dali_record.specs.Legal.{freeing_op, dead_of};
ghost use Rattle.dali_region.specs.State.{RegionState};
ghost use Rattle.dali_att.specs.Table.{undos_at};
ghost use Rattle.dali_att.specs.declared.state.State.TheVariants.{Live, Committed};
ghost use Rattle.dali_runs.specs.State.{VaultState, state_of};
ghost use Rattle.dali_runs.specs.Steps.{commit_logged};
ghost use Rattle.dali_runs.specs.Regions.{IsOpen};
ghost use Rattle.dali_system.specs.Refused.{stop_refusal};
ghost use Rattle.dali_system.specs.Promised.{promised_to, used};
ghost use Rattle.dali_system.specs.Served.{solo_room};
ghost use Rattle.dali_system.specs.UnderWay.{IsUnderWay};
ghost use Rattle.dali_system.specs.declared.error.SystemError.TheVariants.{OutOfMemory as Memory};
ghost use Rattle.dali_calls.specs.Flags.{FlagsStay};
ghost use Rattle.dali_calls.specs.Operating.{AreWritten};
ghost use Rattle.dali_calls.specs.Others.{PromisesStay, IsGone, HoldsClear};
ghost use Rattle.dali_calls.specs.Single.Stands.{core};
ghost use Rattle.dali_calls.specs.Single.Operated.{IsLeftOf};
ghost use Rattle.dali_calls.specs.Single.Refusals.{IsUnfreed, IsStuck, IsLatched};
ghost use Rattle.dali_calls.specs.Single.Single.{AreCovered, OthersStay};
ghost use Rattle.dali_calls.specs.Single.Settling.{MayFree, MaySettle, Freed, MayCommit, Commits, IsCommitted, AreFreed, IsSettled, IsLeft, left_behind, settle_room, IsPromised};

use crate::single::error::StepError;
use dali_record::{Op, Pending, Undo, undo_op};
use dali_region::Region;
use dali_system::{Operation, System, SystemError};
use std::alloc::Global;

// What frees for good what this undo would put back.
fn freeing_op(undo: &Undo) -> Op
    ensures { result ≡ freeing_op undo.now }
{
    match undo {
        Undo::ReviveCell { cell } => Op::FreeCell { cell: *cell },
        Undo::ReviveEntry { entry } => Op::FreeEntry { entry: *entry },
        _ => undo_op(undo),
    }
}

// Writes all words of the open operation that frees.
fn write_freed(operation: &mut Operation, region: &mut Region)
    requires { IsUnderWay operation.old.txn operation.old.block operation.old.left operation.old.taken region.old }
    ensures is_open { IsOpen region.new operation.new.txn operation.new.block }
    ensures same { (operation.new.txn ≡ operation.old.txn) × (operation.new.block ≡ operation.old.block) }
    ensures written { AreWritten region.old region.new }
{
    while operation.update(region) {}
}

/// Frees for good what one undo would put back, and logs its block. Answers the number that its record takes. Where that is
/// refused the region is as before but for an operation that was taken back, and the system is as it was. It uses what is
/// promised for one solo: where that is promised and the engine runs, only a latch of the region refuses it.
pub fn free(
    removal: &Pending,
    region: &mut Region,
    system: &mut System,
    txn: u64,
) -> Result<u64, StepError>
    requires { MayFree system.old.state txn removal.now }
    ensures ok { IfOk result (λ number. (number ≡ system.old.state.next) × Freed removal.now region.old system.old.state txn region.new system.new.state) }
    ensures err { OnErr result ((system.new ≡ system.old) × IsLeftOf txn region.old region.new) }
    ensures cause { IfErr result (IsUnfreed region.new system.new.state) }
    ensures promised { IsPromised system.old txn solo_room → IfErr result IsLatched }
    ensures uses { OnOk result (system.new.promised ≡ used system.old.promised txn solo_room) }
    ensures kept { OnOk result ((n : ℕ) → IsPromised system.old txn (solo_room + n) → IsPromised system.new txn n) }
    ensures promises { PromisesStay system.old txn system.new }
{
    let number = system.next();
    let op = freeing_op(&removal.undo);
    let mut operation = match Operation::start(
        region,
        removal.region,
        txn,
        removal.key,
        op,
        false,
    ) {
        Ok(operation) => operation,
        Err(cause) => return Err(StepError::Latch { cause }),
    };
    write_freed(&mut operation, region);
    match system.solo_op(region, txn, operation.block()) {
        Ok(_) => Ok(number),
        Err(cause) => {
            region.take_back();
            Err(StepError::System { cause })
        }
    }
}

// Frees what each of these undos would put back.
fn free_all(
    regions: &mut [Region],
    system: &mut System,
    txn: u64,
    removals: &[Pending],
) -> Result<(), StepError>
    requires { MaySettle regions.old system.old.state txn removals.now }
    ensures ok { OnOk result (AreFreed regions.old system.old.state txn removals.now [] regions.new system.new.state) }
    ensures freed { OnOk result (system.new.state.next ≡ system.old.state.next + length removals.now) }
    ensures err { OnErr result (AreFreed regions.old system.old.state txn removals.now (left_behind system.old.state system.new.state removals.now) regions.new system.new.state) }
    ensures cause { IfErr result (IsStuck (slice_get (left_behind system.old.state system.new.state removals.now) 0)
        regions.new system.new.state) }
    ensures promised { IsPromised system.old txn (settle_room (length removals.now)) → IfErr result IsLatched }
    ensures still { IsPromised system.old txn (settle_room (length removals.now))
        → OnErr result (IsPromised system.new txn (settle_room (length (left_behind system.old.state system.new.state removals.now)))) }
    ensures kept { OnOk result (IsPromised system.old txn (settle_room (length removals.now)) → IsPromised system.new txn (settle_room 0)) }
    ensures promises { PromisesStay system.old txn system.new }
    ensures flags { FlagsStay regions.old regions.new }
{
    for removal in removals {
        match free(removal, &mut regions[removal.region as usize], system, txn) {
            Ok(_) => {}
            Err(cause) => return Err(cause),
        }
    }
    Ok(())
}

/// Commits a live transaction: memory for what follows is promised, and its commit is logged. Answers what it removed,
/// for `settle`. The commit is durable once the system's frame is flushed. It takes memory for both, and is refused
/// where the system has stopped, or for want of memory. What is promised then is as much as `settle` uses.
pub fn commit(alloc: Global, system: &mut System, txn: u64) -> Result<Vec<Pending>, SystemError>
    requires lives { state_of system.old.state txn ≡ Some Live }
    requires covered { AreCovered system.old.state txn }
    ensures sizes { system.new.state.sizes ≡ system.old.state.sizes }
    ensures may { IfOk result (λ removals. AllByRecursion (MayFree system.new.state txn) removals.items) }
    ensures ok { IfOk result (λ removals. (L : List Record) (rs : List RegionState) (v : VaultState) → MayCommit L (core rs system.old.state v) txn
        → Commits L (core rs system.old.state v) txn removals.items (core rs system.new.state v)) }
    ensures removals { IfOk result (λ removals. removals.items ≡ dead_of (undos_at system.old.state.table txn)) }
    ensures logged { OnOk result (system.new.state ≡ commit_logged system.old.state txn) }
    ensures committed { OnOk result (state_of system.new.state txn ≡ Some Committed) }
    ensures promised { IfOk result (λ removals. promised_to system.new.promised txn ≡ settle_room (length removals.items)) }
    ensures others { OthersStay system.old.state txn system.new.state }
    ensures promises { PromisesStay system.old txn system.new }
    ensures err { OnErr result (system.new ≡ system.old) }
    ensures refused { IfSome (stop_refusal system.old.state) (λ e. result ≡ Err e) }
    ensures memory { stop_refusal system.old.state ≡ None → IfErr result (λ e. e ≡ Memory) }
{
    let removals = system.ready(alloc, txn)?;
    system.commit(txn)?;
    Ok(removals)
}

/// Frees for good what a committed transaction removed, one after another, and logs its end. `removals` is what
/// `commit` answered, or those of it that are left. Where that is refused what was freed stays so, and the others may
/// be freed later: as many were freed as the system gave numbers.
/// What `commit` promised is enough: after it no memory is wanting here, whatever others log in between.
pub fn settle(
    regions: &mut [Region],
    system: &mut System,
    txn: u64,
    removals: &[Pending],
) -> Result<(), StepError>
    requires whole { length regions.old ≡ regions_of system.old.state.sizes }
    requires may { AllByRecursion (MayFree system.old.state txn) removals.now }
    requires committed { state_of system.old.state txn ≡ Some Committed }
    ensures ok { OnOk result ((L : List Record) (v : VaultState) → IsCommitted L (core regions.old system.old.state v) txn removals.now
        → IsSettled L (core regions.old system.old.state v) txn (core regions.new system.new.state v)) }
    ensures err { OnErr result ((L : List Record) (v : VaultState) → IsCommitted L (core regions.old system.old.state v) txn removals.now
        → IsLeft L (core regions.old system.old.state v) txn (left_behind system.old.state system.new.state removals.now) (core regions.new system.new.state v)) }
    ensures again { OnErr result (AllByRecursion (MayFree system.new.state txn) (left_behind system.old.state system.new.state removals.now) × (state_of system.new.state txn ≡ Some Committed)) }
    ensures cause { IfErr result (IsStuck (slice_get (left_behind system.old.state system.new.state removals.now) 0)
        regions.new system.new.state) }
    ensures promised { IsPromised system.old txn (settle_room (length removals.now)) → IfErr result IsLatched }
    ensures still { IsPromised system.old txn (settle_room (length removals.now))
        → OnErr result (IsPromised system.new txn (settle_room (length (left_behind system.old.state system.new.state removals.now)))) }
    ensures sizes { system.new.state.sizes ≡ system.old.state.sizes }
    ensures gone { OnOk result (IsGone system.new.state txn) }
    ensures released { OnOk result (promised_to system.new.promised txn ≡ 0) }
    ensures holds { HoldsClear regions.old regions.new }
    ensures others { OthersStay system.old.state txn system.new.state }
    ensures promises { PromisesStay system.old txn system.new }
    ensures flags { FlagsStay regions.old regions.new }
{
    match free_all(regions, system, txn, removals) {
        Ok(()) => {}
        Err(cause) => return Err(cause),
    }
    match system.ended(txn) {
        Ok(_) => Ok(()),
        Err(cause) => Err(StepError::System { cause }),
    }
}
