//! A whole call.
ghost use Rattle.std.specs.Prelude.{◌≡◌, List, Some, None, OnOk, OnErr, IfOk, IfErr, length};
ghost use Rattle.dali_geometry.specs.Places.{regions as regions_of};
ghost use Rattle.dali_record.specs.declared.records.Record.{Record};
ghost use Rattle.dali_record.specs.Spelling.{IsCall};
ghost use Rattle.dali_att.specs.declared.state.State.TheVariants.{Live};
ghost use Rattle.dali_runs.specs.State.{VaultState, state_of};
ghost use Rattle.dali_calls.specs.declared.plan.Phase.TheVariants.{Calling};
ghost use Rattle.dali_calls.specs.Plans.{plan_next, IsWhole};
ghost use Rattle.dali_calls.specs.Single.Stands.{core, IsAtRest};
ghost use Rattle.dali_calls.specs.Single.Single.{MayCall, IsAnswered, Fails, Keeps};
ghost use Rattle.dali_calls.specs.Single.Advanced.{Advanced, Finished, Halts, GivenUp};

use crate::Plan;
use crate::single::error::{CallError, StepError};
use crate::single::operate::operate;
use dali_locks::LockAnswer;
use dali_record::{Answer, Call};
use dali_region::Region;
use dali_system::{System, Want};

// Makes the operations of the plan, one after another, until it wants none.
pub(crate) fn advance(
    plan: &mut Plan,
    regions: &mut [Region],
    system: &mut System,
    precheck: bool,
) -> Result<(), StepError>
    requires { IsAtRest regions.old system.old.state plan.old }
    ensures goes { Advanced precheck regions.old system.old.state plan.old regions.new system.new.state plan.new }
    ensures ends { OnOk result (plan_next plan.new ≡ None) }
    ensures whole { IsWhole plan.new }
    ensures cause { IfErr result (Halts precheck regions.old system.old.state plan.old regions.new system.new.state plan.new) }
    ensures promised { system.new.promised ≡ system.old.promised }
{
    while let Want::Region { region } = plan.wants() {
        match operate(plan, &mut regions[region as usize], system, precheck) {
            Ok(()) => {}
            Err(cause) => return Err(cause),
        }
    }
    Ok(())
}

// Makes the operations of a call, and logs its answer.
pub(crate) fn finish(
    plan: &mut Plan,
    regions: &mut [Region],
    system: &mut System,
    precheck: bool,
) -> Result<Answer, StepError>
    requires rest { IsAtRest regions.old system.old.state plan.old }
    requires calling { plan.old.phase ≡ Calling }
    ensures ok { IfOk result (λ a. Finished precheck regions.old system.old.state plan.old a regions.new system.new.state) }
    ensures err { OnErr result (Advanced precheck regions.old system.old.state plan.old regions.new system.new.state plan.new) }
    ensures cause { IfErr result (Halts precheck regions.old system.old.state plan.old regions.new system.new.state plan.new) }
    ensures promised { system.new.promised ≡ system.old.promised }
{
    match advance(plan, regions, system, precheck) {
        Ok(()) => {}
        Err(cause) => return Err(cause),
    }
    match plan.done(system) {
        Ok((answer, _)) => Ok(answer),
        Err(cause) => Err(StepError::System { cause }),
    }
}

// Takes back what a refused call has changed.
pub(crate) fn give_up(
    plan: &mut Plan,
    regions: &mut [Region],
    system: &mut System,
    cause: StepError,
) -> CallError
    requires rest { IsAtRest regions.old system.old.state plan.old }
    requires calling { plan.old.phase ≡ Calling }
    ensures given_up { GivenUp result cause regions.old system.old.state plan.old regions.new system.new.state }
    ensures promised { system.new.promised ≡ system.old.promised }
{
    plan.refuse();
    match advance(plan, regions, system, false) {
        Ok(()) => CallError::Refused { cause },
        Err(cause) => CallError::HalfDone { cause },
    }
}

/// Asks for the lock of a call of a live transaction, makes its operations one after another, and logs its answer. With
/// `precheck` each operation first compares its region's codeword with the words. Where the call is refused, what it had
/// changed is taken back, which never prechecks. It takes memory for its lock, its records and what takes it back.
pub fn perform(
    regions: &mut [Region],
    system: &mut System,
    txn: u64,
    call: Call,
    precheck: bool,
) -> Result<Answer, CallError>
    requires call { IsCall call }
    requires whole { length regions.old ≡ regions_of system.old.state.sizes }
    requires lives { state_of system.old.state txn ≡ Some Live }
    ensures keeps { Keeps system.old.state txn system.new.state }
    ensures ok { IfOk result (λ a. (L : List Record) (v : VaultState) → MayCall L (core regions.old system.old.state v) txn
        → IsAnswered precheck L (core regions.old system.old.state v) txn call a (core regions.new system.new.state v)) }
    ensures err { IfErr result (λ e. (L : List Record) (v : VaultState) → MayCall L (core regions.old system.old.state v) txn
        → Fails precheck e L (core regions.old system.old.state v) txn call (core regions.new system.new.state v)) }
    ensures promised { system.new.promised ≡ system.old.promised }
{
    let mut plan = Plan::new(system.geometry(), txn, call);
    let (key, mode) = plan.lock();
    match system.request(txn, key, mode) {
        Ok(LockAnswer::Granted) => {}
        Ok(LockAnswer::Wait { holder }) => return Err(CallError::Wait { holder }),
        Ok(LockAnswer::Busy { holder }) => return Err(CallError::Busy { holder }),
        Err(cause) => {
            return Err(CallError::Refused {
                cause: cause.into(),
            });
        }
    }
    match finish(&mut plan, regions, system, precheck) {
        Ok(answer) => Ok(answer),
        Err(cause) => Err(give_up(&mut plan, regions, system, cause)),
    }
}
