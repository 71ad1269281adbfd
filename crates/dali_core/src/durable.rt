//! What makes the records of a core durable.
ghost use Rattle.std.specs.Prelude.{◌≡◌, ◌<◌, ◌≤◌, ◌+◌, ◌^◌, ℕ, true, false, is_some, Err, OnOk, OnErr, IfOk, IsErrOf};
ghost use Rattle.dali_store.specs.declared.store.FileName.TheVariants.{Log};
ghost use Rattle.dali_store.specs.Calls.{fewer};
ghost use Rattle.dali_store.specs.Faults.{Rose};
ghost use Rattle.dali_store.specs.Store.{TornTold};
ghost use Rattle.dali_runs.specs.Steps.{taken, store_stopped};
ghost use Rattle.dali_core.specs.Vault.Vaulted.{faulted};
ghost use Rattle.dali_core.specs.declared.vault.error.VaultError.TheVariants.{Fault, Stopped};
ghost use Rattle.dali_core.specs.Flushed.{Grows, FlushesFrame, FailsFrame, FlushesAll, FlushFails};
ghost use Rattle.dali_core.specs.Cores.{IsWholeCore, IsNoShorter};
ghost use Rattle.dali_core.specs.Moments.{flush_calls, FlushLeaves, Within};

use crate::steps::called;
use crate::vault::{Vault, VaultError};
use crate::whole::Core;
use dali_store::Store;
use dali_system::System;
use std::alloc::Global;

/// Takes the records that aren't taken yet, and flushes them: what `flush` does of a system and a running vault that stand
/// apart. `Fault` only where the store's count of faults rose; then the vault stops, and the caller stops the system. Where no
/// memory is left for the next frame, they are flushed from where they stand. It makes four calls of the store, and none
/// where no record waits. It answers where the log then ends.
pub fn write_out<V: Store>(
    system: &mut System,
    vault: &mut Vault<V>,
    alloc: Global,
) -> Result<u64, VaultError>
    requires small { vault.old.end < 2 ^ 62 }
    requires runs { vault.old.stopped ≡ false }
    ensures taken { system.new ≡ record system.old { state = taken system.old.state } }
    ensures place { IfOk result (λ next. next ≡ vault.new.end) }
    ensures ok { OnOk result (FlushesFrame V.Store system.old.state vault.old vault.new) }
    ensures fault { OnErr result ((result ≡ Err Fault) × FailsFrame V.Store system.old.state vault.old vault.new) }
    ensures torn { (n : ℕ) × TornTold Log vault.old.end n (V.told vault.old.store) (V.told vault.new.store) }
    ensures any_moment { Within V.told V.moment V.left_since vault.old vault.new (FlushLeaves V.may_leave system.old.state vault.old) }
    ensures grows { OnOk result (vault.new.end ≤ vault.old.end + 2 ^ 31) }
    ensures calls { OnOk result (V.lets_pass vault.new.store ≡ fewer (flush_calls system.old.state) (V.lets_pass vault.old.store)) }
    ensures files { IsNoShorter V.told vault.old vault.new }
{
    match system.take_frame(alloc) {
        Ok(frame) => called::flush(vault, &frame),
        Err(_) => {
            let flushed = called::flush(vault, system.frame());
            system.flushed();
            flushed
        }
    }
}

/// Flushes all records of a core: behind Ok each crash leaves them. A commit is durable by this. `Stopped` exactly where
/// the vault was stopped before, and then nothing changes; `Fault` only where the store's count of faults rose, and then
/// vault and system stop. It never fails for want of memory. It makes four calls of the store, and none where no record
/// waits.
pub fn flush<V: Store>(core: &mut Core<V>, alloc: Global) -> Result<(), VaultError>
    requires small { core.old.vault.end < 2 ^ 62 }
    ensures stopped { core.old.vault.stopped ≡ true → (result ≡ Err Stopped) × (core.new ≡ core.old) }
    ensures runs { IsErrOf result Stopped → core.old.vault.stopped ≡ true }
    ensures ok { OnOk result (Grows core.old.system.state core.old.vault core.new.vault) }
    ensures parts { OnOk result (core.new ≡ record core.old { system = record core.old.system { state = taken core.old.system.state }; vault = core.new.vault }) }
    ensures fault { IsErrOf result Fault → (core.new ≡ record core.old { system = record core.old.system { state = store_stopped (taken core.old.system.state) }; vault = faulted core.old.vault core.new.vault.store }) × Rose (V.faults core.old.vault.store) (V.faults core.new.vault.store) }
    ensures durable { OnOk result (FlushesAll V.Store core.old.regions.items core.old.system.state core.old.vault core.new.system.state core.new.vault) }
    ensures stops { IsErrOf result Fault → FlushFails V.Store core.old.regions.items core.old.system.state core.old.vault core.new.system.state core.new.vault }
    ensures any_moment { core.old.vault.stopped ≡ false → Within V.told V.moment V.left_since core.old.vault core.new.vault (FlushLeaves V.may_leave core.old.system.state core.old.vault) }
    ensures calls { OnOk result (V.lets_pass core.new.vault.store ≡ fewer (flush_calls core.old.system.state) (V.lets_pass core.old.vault.store)) }
    ensures tells { is_some (V.told core.new.vault.store) ≡ is_some (V.told core.old.vault.store) }
    ensures whole { IsWholeCore V.told core.old.regions.items core.old.system.state core.old.vault → IsWholeCore V.told core.new.regions.items core.new.system.state core.new.vault }
    ensures files { IsNoShorter V.told core.old.vault core.new.vault }
{
    if core.vault.stopped() {
        return Err(VaultError::Stopped);
    }
    match write_out(&mut core.system, &mut core.vault, alloc) {
        Ok(_) => Ok(()),
        Err(error) => {
            core.system.stop();
            Err(error)
        }
    }
}
