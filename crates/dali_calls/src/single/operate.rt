//! One operation of a plan, from its latch to its record.
ghost use Rattle.std.specs.Prelude.{◌≡◌, None, IsSome, OnOk, OnErr, IfErr};
ghost use Rattle.dali_runs.specs.State.{row_of};
ghost use Rattle.dali_calls.specs.Plans.{plan_next};
ghost use Rattle.dali_calls.specs.Single.Operated.{Operated, IsLeftOf};
ghost use Rattle.dali_calls.specs.Single.Refusals.{IsRefusedOn};

use crate::single::error::StepError;
use crate::{Plan, write_all};
use dali_region::Region;
use dali_system::System;

// Makes the next operation of the plan on the region that it wants, and logs its block.
pub(crate) fn operate(
    plan: &mut Plan,
    region: &mut Region,
    system: &mut System,
    precheck: bool,
) -> Result<(), StepError>
    requires wants { IsSome (plan_next plan.old) }
    requires closed { plan.old.operation ≡ None }
    requires running { IsSome (row_of system.old.state plan.old.txn) }
    ensures ok { OnOk result (Operated precheck plan.old region.old system.old.state plan.new region.new system.new.state) }
    ensures err { OnErr result ((plan.new ≡ plan.old) × (system.new ≡ system.old) × IsLeftOf plan.old.txn region.old region.new) }
    ensures cause { IfErr result (IsRefusedOn precheck plan.old region.old system.new.state) }
    ensures promised { system.new.promised ≡ system.old.promised }
{
    match plan.latch(region, precheck) {
        Ok(()) => {}
        Err(cause) => return Err(StepError::Latch { cause }),
    }
    write_all(plan, region);
    match plan.commit(region, system) {
        Ok(_) => Ok(()),
        Err(cause) => Err(StepError::System { cause }),
    }
}
