//! The parts of an end, over regions and system that stand apart: an operation that a dead client left open in the way is
//! taken back, which takes no memory.
ghost use Rattle.std.specs.Prelude.{◌≡◌, [], ◌∷◌, true, Some, None, OnOk, OnErr, IfErr, IsOk, length};
ghost use Rattle.std.specs.List.{AllByRecursion, list_all};
ghost use Rattle.dali_geometry.specs.Places.{regions as regions_of};
ghost use Rattle.dali_record.specs.declared.records.Record.TheVariants.{Ended};
ghost use Rattle.dali_att.specs.declared.state.State.TheVariants.{Live, Committed};
ghost use Rattle.dali_runs.specs.State.{state_of};
ghost use Rattle.dali_system.specs.Promised.{promised_to, used};
ghost use Rattle.dali_system.specs.Served.{solo_room};
ghost use Rattle.dali_calls.specs.Flags.{FlagsStay};
ghost use Rattle.dali_calls.specs.Others.{IsGone};
ghost use Rattle.dali_calls.specs.Single.Ending.{IsBackOf};
ghost use Rattle.dali_calls.specs.Single.Settling.{MayFree, IsPromised, settle_room};
ghost use Rattle.dali_clean.specs.Others.{OthersStay};
ghost use Rattle.dali_transactions.specs.declared.error.AbortError.TheVariants.{OutOfMemory};
ghost use Rattle.dali_att.specs.Table.{undos_at};
ghost use Rattle.dali_transactions.specs.Left.{HoldsStay, IsRunning, Left, none_of, FreesIn, Settled};
ghost use Rattle.dali_transactions.specs.Guards.{is_releasable_on, MayEnd, MayFreeOn};

use crate::error::{AbortError, abort_refused};
use crate::guards::is_releasable;
use dali_calls::single::{StepError, free, settle};
use dali_clean::release;
use dali_record::Pending;
use dali_region::Region;
use dali_system::System;

/// Takes a transaction back that may be ended, while the engine runs.
pub fn take_back(regions: &mut [Region], system: &mut System, txn: u64) -> Result<(), AbortError>
    requires may { MayEnd regions.old system.old.state txn }
    requires runs { system.old.state.stop ≡ None }
    ensures ok { OnOk result (Left (IsBackOf txn) (Ended txn ∷ []) txn regions.old system.old regions.new system.new) }
    ensures left { OnErr result (Left (IsBackOf txn) [] txn regions.old system.old regions.new system.new) }
    ensures gone { OnOk result (IsGone system.new.state txn) }
    ensures lives { OnErr result (state_of system.new.state txn ≡ Some Live) }
    ensures memory { IfErr result (λ e. e ≡ OutOfMemory) }
    ensures released { OnOk result (promised_to system.new.promised txn ≡ 0) }
    ensures in_the_way { IsRunning regions.old system.old.state → HoldsStay (undos_at system.old.state.table txn) regions.old regions.new }
    ensures flags { FlagsStay regions.old regions.new }
{
    loop {
        match dali_calls::single::abort(regions, system, txn) {
            Ok(()) => return Ok(()),
            Err(StepError::System { cause }) => return Err(abort_refused(cause)),
            Err(StepError::Latch { .. }) => {}
        }
        // a client has the region of the next undo latched
        let Some(undo) = system.last_undo(txn) else {
            unreachable!()
        };
        if !is_releasable(regions[undo.region as usize].hold()) {
            return Err(AbortError::OutOfMemory);
        }
        release(&mut regions[undo.region as usize], system);
    }
}

/// Frees what a committed transaction removed, and logs its end. The memory for that was promised.
pub fn free_removals(regions: &mut [Region], system: &mut System, txn: u64, removals: &[Pending])
    requires whole { length regions.old ≡ regions_of system.old.state.sizes }
    requires releasable { list_all (is_releasable_on regions.old) removals.now ≡ true }
    requires may { AllByRecursion (MayFree system.old.state txn) removals.now }
    requires committed { state_of system.old.state txn ≡ Some Committed }
    requires promised { IsPromised system.old txn (settle_room (length removals.now)) }
    ensures settled { Settled txn removals.now regions.old system.old regions.new system.new }
    ensures flags { FlagsStay regions.old regions.new }
{
    for removal in removals {
        release(&mut regions[removal.region as usize], system);
    }
    match settle(regions, system, txn, removals) {
        Ok(()) => {}
        Err(_) => unreachable!(),
    }
}

/// Frees for good one removal of a committed transaction. Where that is refused nothing is logged. It uses what is promised to
/// the transaction for one solo: where that is promised and the engine runs, it isn't refused.
///
/// The removal is the transaction's own, the regions are all that the system has, and no client that is alive has latched the
/// removal's: `guards::may_free` tells.
pub fn free_one(
    regions: &mut [Region],
    system: &mut System,
    txn: u64,
    removal: &Pending,
) -> Result<(), StepError>
    requires { MayFreeOn regions.old system.old.state txn removal.now }
    ensures freed { OnOk result (FreesIn txn removal.now regions.old system.old.state regions.new system.new.state) }
    ensures left { OnErr result (Left none_of [] txn regions.old system.old regions.new system.new) }
    ensures promised { IsPromised system.old txn solo_room → IsOk result }
    ensures uses { OnOk result (system.new.promised ≡ used system.old.promised txn solo_room) }
    ensures unused { OnErr result (system.new.promised ≡ system.old.promised) }
    ensures others { OthersStay regions.old system.old.state txn regions.new system.new.state }
    ensures still { state_of system.new.state txn ≡ Some Committed }
    ensures locks { system.new.state.locks ≡ system.old.state.locks }
    ensures flags { FlagsStay regions.old regions.new }
{
    let place = removal.region as usize;
    release(&mut regions[place], system);
    match free(removal, &mut regions[place], system, txn) {
        Ok(_) => Ok(()),
        Err(error) => Err(error),
    }
}
