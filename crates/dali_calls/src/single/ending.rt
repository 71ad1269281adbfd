//! A transaction is taken back.
ghost use Rattle.std.specs.Prelude.{◌≡◌, List, [], Some, None, IsSomeAnd, IfSome, IfErr, OnOk, OnErr, length};
ghost use Rattle.dali_geometry.specs.Places.{regions as regions_of};
ghost use Rattle.dali_record.specs.declared.records.Record.{Record};
ghost use Rattle.dali_record.specs.Spelling.{IsUndo};
ghost use Rattle.dali_att.specs.declared.state.State.TheVariants.{Live};
ghost use Rattle.dali_att.specs.Table.{undos_at};
ghost use Rattle.dali_runs.specs.State.{VaultState, state_of};
ghost use Rattle.dali_system.specs.Promised.{promised_to};
ghost use Rattle.dali_system.specs.TakenBack.{next_undo};
ghost use Rattle.dali_calls.specs.Flags.{FlagsStay};
ghost use Rattle.dali_calls.specs.Operating.{Undone};
ghost use Rattle.dali_calls.specs.Others.{PromisesStay, IsGone, HoldsClear};
ghost use Rattle.dali_calls.specs.Single.Stands.{core};
ghost use Rattle.dali_calls.specs.Single.Operated.{IsLeftOf};
ghost use Rattle.dali_calls.specs.Single.Refusals.{IsUnfreed, IsStuck};
ghost use Rattle.dali_calls.specs.Single.Single.{AreCovered, Keeps, OthersStay};
ghost use Rattle.dali_calls.specs.Single.Ending.{IsAtWork, IsEnded, IsStillAtWork, UndoesFrom};

use crate::single::error::StepError;
use crate::write_back;
use dali_region::Region;
use dali_system::{System, TakeBack, Want};

// Performs the undo that is last now, and logs its block.
fn undo(back: &mut TakeBack, region: &mut Region, system: &mut System) -> Result<(), StepError>
    requires wants { IsSomeAnd back.old.next (λ u. IsUndo u.undo) }
    requires closed { back.old.operation ≡ None }
    ensures ok { OnOk result (Undone back.old region.old system.old.state back.new region.new system.new.state) }
    ensures undoes { OnOk result (IfSome back.new.next (λ u. IsUndo u.undo)) }
    ensures err { OnErr result ((back.new ≡ back.old) × (system.new ≡ system.old) × IsLeftOf back.old.txn region.old region.new) }
    ensures cause { IfErr result (IsUnfreed region.new system.new.state) }
    ensures promised { system.new.promised ≡ system.old.promised }
{
    match back.latch(region, false) {
        Ok(()) => {}
        Err(cause) => return Err(StepError::Latch { cause }),
    }
    write_back(back, region);
    match back.commit(region, system) {
        Ok(_) => Ok(()),
        Err(cause) => Err(StepError::System { cause }),
    }
}

// Performs all undos of a transaction, the last one first.
fn take_back(regions: &mut [Region], system: &mut System, txn: u64) -> Result<(), StepError>
    requires whole { length regions.old ≡ regions_of system.old.state.sizes }
    requires lives { state_of system.old.state txn ≡ Some Live }
    requires covered { AreCovered system.old.state txn }
    ensures goes { UndoesFrom regions.old system.old.state txn regions.new system.new.state }
    ensures all { OnOk result (undos_at system.new.state.table txn ≡ []) }
    ensures cause { IfErr result (IsStuck (next_undo (undos_at system.new.state.table txn) 0) regions.new system.new.state) }
    ensures promised { system.new.promised ≡ system.old.promised }
    ensures flags { FlagsStay regions.old regions.new }
{
    let mut back = TakeBack::new(system, txn, 0);
    while let Want::Region { region } = back.wants() {
        match undo(&mut back, &mut regions[region as usize], system) {
            Ok(()) => {}
            Err(cause) => return Err(cause),
        }
    }
    Ok(())
}

/// Takes a live transaction back: performs its undos, the last one first, and logs its end. Where that is refused what was
/// performed stays so, and the rest may be asked for again. It takes memory for its records.
pub fn abort(regions: &mut [Region], system: &mut System, txn: u64) -> Result<(), StepError>
    requires whole { length regions.old ≡ regions_of system.old.state.sizes }
    requires lives { state_of system.old.state txn ≡ Some Live }
    requires covered { AreCovered system.old.state txn }
    ensures ok { OnOk result ((L : List Record) (v : VaultState) → IsAtWork L (core regions.old system.old.state v) txn
        → IsEnded L (core regions.old system.old.state v) txn (core regions.new system.new.state v)) }
    ensures err { OnErr result ((L : List Record) (v : VaultState) → IsAtWork L (core regions.old system.old.state v) txn
        → IsStillAtWork L (core regions.old system.old.state v) txn (core regions.new system.new.state v)) }
    ensures cause { IfErr result (IsStuck (next_undo (undos_at system.new.state.table txn) 0) regions.new system.new.state) }
    ensures gone { OnOk result (IsGone system.new.state txn) }
    ensures sizes { system.new.state.sizes ≡ system.old.state.sizes }
    ensures stop { system.new.state.stop ≡ system.old.state.stop }
    ensures holds { HoldsClear regions.old regions.new }
    ensures others { OthersStay system.old.state txn system.new.state }
    ensures again { OnErr result (Keeps system.old.state txn system.new.state) }
    ensures promised { OnErr result (system.new.promised ≡ system.old.promised) }
    ensures released { OnOk result (promised_to system.new.promised txn ≡ 0) }
    ensures promises { PromisesStay system.old txn system.new }
    ensures flags { FlagsStay regions.old regions.new }
{
    match take_back(regions, system, txn) {
        Ok(()) => {}
        Err(cause) => return Err(cause),
    }
    match system.ended(txn) {
        Ok(_) => Ok(()),
        Err(cause) => Err(StepError::System { cause }),
    }
}
