//! A dead transaction is cleaned up.
ghost use Rattle.std.specs.Prelude.{◌≡◌, [], ℕ, Option as OptionOf, Some, None, Err, IfSome, IsSome, IfErr, OnOk, OnErr, IsErrOf, IsSomeAnd};
ghost use Rattle.dali_att.specs.Table.{undos_at};
ghost use Rattle.dali_att.specs.declared.state.State.TheVariants.{Dead};
ghost use Rattle.dali_runs.specs.State.{state_of};
ghost use Rattle.dali_system.specs.Refused.{stop_refusal};
ghost use Rattle.dali_system.specs.declared.error.SystemError.TheVariants.{OutOfMemory as Memory};
ghost use Rattle.dali_calls.specs.Flags.{FlagsStay};
ghost use Rattle.dali_clean.specs.declared.error.CleanError.TheVariants.{NotDead as IsNotDead, Stopped, OutOfMemory};
ghost use Rattle.dali_clean.specs.Cleaned.{AreDead, MayClean, IsDead, IsLeftAt, IsRecovered, IsCleaning, Claims, LeadsOn, IsUndone, Ends, GivesBack};
ghost use Rattle.dali_clean.specs.Others.{OthersStay, HasKept, CleansOnly};

use crate::error::CleanError;
use crate::undoing::{release, undo};
use dali_region::Region;
use dali_system::{NotDead, System, SystemError, TakeBack, Want};

// Takes back the operation in which the client died, where its region is still latched.
fn recover(regions: &mut [Region], latched: Option<u32>)
    requires there { IfSome latched (λ r. IsLeftAt regions.old r) }
    ensures { IsRecovered regions.old latched regions.new }
{
    if let Some(region) = latched {
        regions[region as usize].take_back();
    }
}

// Claims the transaction, and takes back the operation in which its client died.
fn claim(regions: &mut [Region], system: &mut System, txn: u64) -> Result<(), NotDead>
    requires { MayClean regions.old system.old.state txn }
    ensures ok { OnOk result (Claims regions.old system.old.state txn regions.new system.new.state) }
    ensures was { OnOk result (IsDead (state_of system.old.state txn)) }
    ensures err { OnErr result ((system.new ≡ system.old) × (regions.new ≡ regions.old) × (IsDead (state_of system.old.state txn) → ⊥)) }
    ensures others { OthersStay regions.old system.old.state txn regions.new system.new.state }
    ensures kept { HasKept system.old system.new }
    ensures flags { FlagsStay regions.old regions.new }
{
    match system.claim(txn) {
        Ok(latched) => {
            recover(regions, latched);
            Ok(())
        }
        Err(NotDead) => Err(NotDead),
    }
}

// Performs all undos of the transaction, the last one first.
fn take_back(regions: &mut [Region], system: &mut System, txn: u64) -> Result<(), SystemError>
    requires { IsCleaning regions.old system.old.state txn }
    ensures goes { LeadsOn regions.old system.old.state txn regions.new system.new.state }
    ensures is { IsCleaning regions.new system.new.state txn }
    ensures stop { system.new.state.stop ≡ system.old.state.stop }
    ensures all { OnOk result (undos_at system.new.state.table txn ≡ []) }
    ensures refused { OnErr result (IfSome (stop_refusal system.old.state) (λ e. result ≡ Err e)) }
    ensures memory { stop_refusal system.old.state ≡ None → IfErr result (λ e. e ≡ Memory) }
    ensures others { OthersStay regions.old system.old.state txn regions.new system.new.state }
    ensures kept { HasKept system.old system.new }
    ensures flags { FlagsStay regions.old regions.new }
{
    let mut back = TakeBack::new(system, txn, 0);
    while let Want::Region { region } = back.wants() {
        release(&mut regions[region as usize], system);
        match undo(&mut back, &mut regions[region as usize], system) {
            Ok(()) => {}
            Err(error) => return Err(error), // the other undos are left
        }
    }
    Ok(())
}

// Performs all undos of the transaction, and logs its end.
fn finish(regions: &mut [Region], system: &mut System, txn: u64) -> Result<(), SystemError>
    requires { IsCleaning regions.old system.old.state txn }
    ensures ok { OnOk result (IsUndone regions.old system.old.state txn regions.new system.new.state) }
    ensures dead { AreDead regions.new }
    ensures goes { OnErr result (LeadsOn regions.old system.old.state txn regions.new system.new.state) }
    ensures is { OnErr result (IsCleaning regions.new system.new.state txn) }
    ensures refused { IfSome (stop_refusal system.old.state) (λ e. result ≡ Err e) }
    ensures memory { stop_refusal system.old.state ≡ None → IfErr result (λ e. e ≡ Memory) }
    ensures only { CleansOnly regions.old system.old txn result regions.new system.new }
{
    match take_back(regions, system, txn) {
        Ok(()) => {}
        Err(error) => return Err(error),
    }
    match system.ended(txn) {
        Ok(_) => Ok(()),
        Err(error) => Err(error),
    }
}

/// Cleans up a transaction whose client died: takes back the operation in which it died, performs its undos, the last one
/// first, and logs its end. An operation that another dead client left on a region in the way is taken back first; that
/// client's transaction is dead as before, with no region latched. Nothing else of other transactions changes. Behind Ok what
/// was promised to the transaction is given back.
///
/// `NotDead` exactly where the transaction isn't dead, and then nothing changes. `Stopped` exactly where it is and the
/// engine is stopped, with that cause, else `OutOfMemory` where memory for a record is refused. Behind either what was
/// taken back stays so, the transaction is dead again, and the clean-up may be asked for again. It takes memory for its
/// records.
pub fn clean(regions: &mut [Region], system: &mut System, txn: u64) -> Result<(), CleanError>
    requires { MayClean regions.old system.old.state txn }
    ensures ok { OnOk result (Ends regions.old system.old.state txn regions.new system.new.state) }
    ensures not_dead { IsErrOf result IsNotDead → (system.new ≡ system.old) × (regions.new ≡ regions.old) × (IsDead (state_of system.old.state txn) → ⊥) }
    ensures was { (IsErrOf result IsNotDead → ⊥) → IsDead (state_of system.old.state txn) }
    ensures again { IfErr result (λ e. (e ≡ IsNotDead → ⊥) → GivesBack regions.old system.old.state txn regions.new system.new.state × (state_of system.new.state txn ≡ Some (Dead None))) }
    ensures dead { AreDead regions.new }
    ensures refused { IsDead (state_of system.old.state txn) → IfSome system.old.state.stop (λ cause. result ≡ Err (Stopped cause)) }
    ensures memory { system.old.state.stop ≡ None → IfErr result (λ e. (e ≡ IsNotDead → ⊥) → e ≡ OutOfMemory) }
    ensures only { CleansOnly regions.old system.old txn result regions.new system.new }
{
    match claim(regions, system, txn) {
        Ok(()) => {}
        Err(NotDead) => return Err(CleanError::NotDead),
    }
    match finish(regions, system, txn) {
        Ok(()) => Ok(()),
        Err(error) => {
            system.mark_dead(txn, None);
            Err(error.into())
        }
    }
}
