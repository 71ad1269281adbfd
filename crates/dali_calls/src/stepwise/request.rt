//! The request for the lock of a call.
ghost use Rattle.std.specs.Prelude.{◌≡◌, List, None, Err, OnErr, IfOk, IfErr, IfSome};
ghost use Rattle.dali_record.specs.declared.records.Record.{Record};
ghost use Rattle.dali_region.specs.State.{RegionState};
ghost use Rattle.dali_locks.specs.Locks.{IsAnswer};
ghost use Rattle.dali_runs.specs.State.{VaultState};
ghost use Rattle.dali_system.specs.Asked.{after_request};
ghost use Rattle.dali_system.specs.Refused.{stop_refusal};
ghost use Rattle.dali_system.specs.declared.error.SystemError.TheVariants.{OutOfMemory as Memory};
ghost use Rattle.dali_calls.specs.Steps.{call_key};
ghost use Rattle.dali_calls.specs.Plans.{mode_of};
ghost use Rattle.dali_calls.specs.Single.Stands.{core, IsAtRest};
ghost use Rattle.dali_calls.specs.Single.Single.{MayCall, OthersStay};
ghost use Rattle.dali_calls.specs.Stepwise.Stepwise.{IsNew, IsAsked};

use crate::Plan;
use dali_locks::LockAnswer;
use dali_system::{System, SystemError};

/// Asks for the lock of a plan's call, whose transaction has the number `txn`. A plan that has the lock may make its
/// operations; one that must wait may ask again; a `Busy` is kept by the system. Refused where the system has stopped, or
/// for want of memory; nothing has changed then.
pub fn ask(plan: &Plan, system: &mut System, txn: u64) -> Result<LockAnswer, SystemError>
    requires own { txn ≡ plan.now.txn }
    ensures answer { IfOk result (IsAnswer system.old.state.locks txn (call_key plan.now.call) (mode_of plan.now.call)) }
    ensures ok { IfOk result (λ a. system.new ≡ record system.old { state = after_request system.old.state txn (call_key plan.now.call) (mode_of plan.now.call) a }) }
    ensures asked { IfOk result (λ a. (L : List Record) (rs : List RegionState) (v : VaultState) → IsNew plan.now → IsAtRest rs system.old.state plan.now
        → MayCall L (core rs system.old.state v) txn → IsAsked a L (core rs system.old.state v) plan.now (core rs system.new.state v)) }
    ensures err { OnErr result (system.new ≡ system.old) }
    ensures refused { IfSome (stop_refusal system.old.state) (λ e. result ≡ Err e) }
    ensures memory { stop_refusal system.old.state ≡ None → IfErr result (λ e. e ≡ Memory) }
    ensures others { OthersStay system.old.state txn system.new.state }
{
    let (key, mode) = plan.lock();
    system.request(txn, key, mode)
}
