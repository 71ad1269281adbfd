//! A dead transaction of a core is cleaned up.
ghost use Rattle.std.specs.Prelude.{◌≡◌, Some, None, Err, IfSome, IfNone, IfErr, OnOk, IsErrOf};
ghost use Rattle.dali_att.specs.declared.state.State.TheVariants.{Dead};
ghost use Rattle.dali_runs.specs.State.{state_of};
ghost use Rattle.dali_clean.specs.declared.error.CleanError.TheVariants.{NotDead as IsNotDead, Stopped, OutOfMemory};
ghost use Rattle.dali_clean.specs.Cleaned.{AreDead, MayClean, IsDead, Ends, GivesBack};
ghost use Rattle.dali_clean.specs.Others.{CleansOnly};
ghost use Rattle.dali_core.specs.Cleaned.{EndsAt, LeavesAt};

use crate::vault::Vault;
use crate::whole::Core;
use dali_att::State;
use dali_clean::{CleanError, may_clean};
use dali_region::Region;
use dali_store::Store;
use dali_system::System;

// Why a transaction isn't cleaned up, where its clean-up may not be asked for.
fn refusal(regions: &[Region], system: &System, txn: u64) -> Option<CleanError>
    ensures fits { IfNone result (MayClean regions.now system.now.state txn) }
    ensures not_dead { IfSome result (λ e. e ≡ IsNotDead → IsDead (state_of system.now.state txn) → ⊥) }
    ensures was { IfSome result (λ e. (e ≡ IsNotDead → ⊥) → IsDead (state_of system.now.state txn)) }
    ensures unfit { IfSome result (λ e. (e ≡ IsNotDead → ⊥) → MayClean regions.now system.now.state txn → ⊥) }
    ensures refused { IsDead (state_of system.now.state txn) → IfSome result (λ e. IfSome system.now.state.stop (λ cause. e ≡ Stopped cause)) }
    ensures memory { system.now.state.stop ≡ None → IfSome result (λ e. (e ≡ IsNotDead → ⊥) → e ≡ OutOfMemory) }
{
    let Some(State::Dead { .. }) = system.state(txn) else {
        return Some(CleanError::NotDead);
    };
    if may_clean(regions, system, txn) {
        return None;
    }
    match system.stopped() {
        Some(cause) => Some(CleanError::Stopped { cause }),
        None => Some(CleanError::OutOfMemory),
    }
}

// The clean-up beside a vault.
fn clean_up<V: Store>(
    regions: &mut [Region],
    system: &mut System,
    beside: &Vault<V>,
    txn: u64,
) -> Result<(), CleanError>
    ensures ok { OnOk result (Ends regions.old system.old.state txn regions.new system.new.state) }
    ensures goes { OnOk result (EndsAt V.Store regions.old system.old.state beside.now txn regions.new system.new.state) }
    ensures not_dead { IsErrOf result IsNotDead → (system.new ≡ system.old) × (regions.new ≡ regions.old) × (IsDead (state_of system.old.state txn) → ⊥) }
    ensures was { (IsErrOf result IsNotDead → ⊥) → IsDead (state_of system.old.state txn) }
    ensures again { MayClean regions.old system.old.state txn → IfErr result (λ e. (e ≡ IsNotDead → ⊥) → GivesBack regions.old system.old.state txn regions.new system.new.state × (state_of system.new.state txn ≡ Some (Dead None))) }
    ensures left { MayClean regions.old system.old.state txn → IfErr result (λ e. (e ≡ IsNotDead → ⊥) → LeavesAt V.Store regions.old system.old.state beside.now txn regions.new system.new.state) }
    ensures unfit { (MayClean regions.old system.old.state txn → ⊥) → (system.new ≡ system.old) × (regions.new ≡ regions.old) }
    ensures dead { AreDead regions.old → AreDead regions.new }
    ensures refused { IsDead (state_of system.old.state txn) → IfSome system.old.state.stop (λ cause. result ≡ Err (Stopped cause)) }
    ensures memory { system.old.state.stop ≡ None → IfErr result (λ e. (e ≡ IsNotDead → ⊥) → e ≡ OutOfMemory) }
    ensures only { CleansOnly regions.old system.old txn result regions.new system.new }
{
    if let Some(error) = refusal(regions, system, txn) {
        return Err(error);
    }
    dali_clean::clean(regions, system, txn)
}

/// Cleans up a transaction whose client died, and leaves the vault: `dali_clean::clean` over the regions and the system, where
/// these have what it asks, as a whole core without a live hold does; it looks at each region for that. `NotDead` exactly where
/// the transaction isn't dead, and then nothing changes. `Stopped` exactly where it is and the engine is stopped, with that
/// cause, else `OutOfMemory` where memory for a record is refused. Behind either the transaction is dead again, the core is
/// whole again, and the clean-up may be asked for again. Where regions and system haven't what it asks, it is refused as where
/// memory is wanting, and nothing changes. Every other transaction keeps its row, its locks and the memory that it was
/// promised; a dead one whose region was in the way has it latched no more.
pub fn clean<V: Store>(core: &mut Core<V>, txn: u64) -> Result<(), CleanError>
    ensures ok { OnOk result (Ends core.old.regions.items core.old.system.state txn core.new.regions.items core.new.system.state) }
    ensures goes { OnOk result (EndsAt V.Store core.old.regions.items core.old.system.state core.old.vault txn core.new.regions.items core.new.system.state) }
    ensures vault { core.new.vault ≡ core.old.vault }
    ensures not_dead { IsErrOf result IsNotDead → (core.new.system ≡ core.old.system) × (core.new.regions.items ≡ core.old.regions.items) × (IsDead (state_of core.old.system.state txn) → ⊥) }
    ensures was { (IsErrOf result IsNotDead → ⊥) → IsDead (state_of core.old.system.state txn) }
    ensures again { MayClean core.old.regions.items core.old.system.state txn → IfErr result (λ e. (e ≡ IsNotDead → ⊥) → GivesBack core.old.regions.items core.old.system.state txn core.new.regions.items core.new.system.state × (state_of core.new.system.state txn ≡ Some (Dead None))) }
    ensures left { MayClean core.old.regions.items core.old.system.state txn → IfErr result (λ e. (e ≡ IsNotDead → ⊥) → LeavesAt V.Store core.old.regions.items core.old.system.state core.old.vault txn core.new.regions.items core.new.system.state) }
    ensures unfit { (MayClean core.old.regions.items core.old.system.state txn → ⊥) → (core.new.system ≡ core.old.system) × (core.new.regions.items ≡ core.old.regions.items) }
    ensures dead { AreDead core.old.regions.items → AreDead core.new.regions.items }
    ensures refused { IsDead (state_of core.old.system.state txn) → IfSome core.old.system.state.stop (λ cause. result ≡ Err (Stopped cause)) }
    ensures memory { core.old.system.state.stop ≡ None → IfErr result (λ e. (e ≡ IsNotDead → ⊥) → e ≡ OutOfMemory) }
    ensures only { CleansOnly core.old.regions.items core.old.system txn result core.new.regions.items core.new.system }
{
    clean_up(&mut core.regions, &mut core.system, &core.vault, txn)
}
