//! One operation of a call, from its latch to its record, and the death of its client in one.
ghost use Rattle.std.specs.Prelude.{◌≡◌, ◌&&◌, not, Some, None, Err, IsSome, OnOk, OnErr, IfOk, IfErr};
ghost use Rattle.dali_region.specs.State.{IsProtected};
ghost use Rattle.dali_region.specs.Answers.{latch_answer};
ghost use Rattle.dali_runs.specs.State.{row_of};
ghost use Rattle.dali_calls.specs.Plans.{is_back, plan_next, with_operation};
ghost use Rattle.dali_calls.specs.declared.single.error.StepError.TheVariants.{Latch as ByLatch};
ghost use Rattle.dali_calls.specs.Single.Refusals.{IsRefusedOn, IsRefusal};
ghost use Rattle.dali_calls.specs.Single.Single.{OthersStay};
ghost use Rattle.dali_calls.specs.Single.Stands.{IsAtRest};
ghost use Rattle.dali_calls.specs.Stepwise.Opened.{Opens, IsMade, DiesOn};
ghost use Rattle.dali_calls.specs.Stepwise.Stepwise.{OneFurther, IsDeath};

use crate::single::StepError;
use crate::stepwise::gate::{Gate, GatePoint};
use crate::{Plan, write_all};
use dali_region::{LatchError, Region};
use dali_system::{System, Want};

// Latches the region that the plan wants, and writes all words of its next operation.
fn open(plan: &mut Plan, region: &mut Region, precheck: bool) -> Result<(), LatchError>
    requires wants { IsSome (plan_next plan.old) }
    requires closed { plan.old.operation ≡ None }
    ensures opens { OnOk result (Opens precheck plan.old region.old plan.new region.new) }
    ensures err { OnErr result ((plan.new ≡ plan.old) × (region.new ≡ region.old)) }
    ensures cause { IfErr result (λ e. Err e ≡ latch_answer (not (is_back plan.old) && precheck) region.old) }
    ensures protected { IsProtected region.old }
{
    let _words = region.words();
    match plan.latch(region, precheck) {
        Ok(()) => {
            write_all(plan, region);
            Ok(())
        }
        Err(cause) => Err(cause),
    }
}

// Makes the next operation of the plan on the region that it wants, and logs its block.
fn make<G: Gate>(
    plan: &mut Plan,
    region: &mut Region,
    system: &mut System,
    precheck: bool,
    point: &GatePoint<'_, G>,
) -> Result<(), StepError>
    requires wants { IsSome (plan_next plan.old) }
    requires closed { plan.old.operation ≡ None }
    requires running { IsSome (row_of system.old.state plan.old.txn) }
    ensures made { OnOk result (IsMade precheck plan.old region.old system.old.state plan.new region.new system.new.state) }
    ensures err { OnErr result ((plan.new ≡ plan.old) × (region.new ≡ region.old) × (system.new ≡ system.old)) }
    ensures cause { IfErr result (IsRefusedOn precheck plan.old region.old system.old.state) }
    ensures promised { system.new.promised ≡ system.old.promised }
{
    match open(plan, region, precheck) {
        Ok(()) => {}
        Err(cause) => return Err(StepError::Latch { cause }),
    }
    point.gate.pass(point.client, point.number);
    match plan.commit(region, system) {
        Ok(_) => Ok(()),
        Err(cause) => Err(StepError::System { cause }),
    }
}

// Opens the next operation of the plan on the region that it wants, in which the client dies. Answers its transaction.
fn die_on<G: Gate>(
    plan: &mut Plan,
    region: &mut Region,
    precheck: bool,
    point: &GatePoint<'_, G>,
) -> Result<u64, LatchError>
    requires wants { IsSome (plan_next plan.old) }
    requires closed { plan.old.operation ≡ None }
    ensures dies { IfOk result (DiesOn precheck plan.old region.old region.new) }
    ensures plan { OnOk result (plan.new ≡ with_operation plan.old plan.new.operation) }
    ensures err { OnErr result ((plan.new ≡ plan.old) × (region.new ≡ region.old)) }
    ensures cause { IfErr result (λ e. Err e ≡ latch_answer (not (is_back plan.old) && precheck) region.old) }
{
    match open(plan, region, precheck) {
        Ok(()) => {}
        Err(cause) => return Err(cause),
    }
    point.gate.pass(point.client, point.number);
    let Some(hold) = region.hold() else {
        unreachable!()
    };
    region.mark_dead();
    Ok(hold.txn)
}

/// Makes the next operation of a plan, onward on its call or on its way back: latches the region that it wants, writes the
/// operation's words, passes the gate, and logs its record. With `precheck` an operation that goes on with its call
/// compares the region's codeword with its words first. Refused by that latch, or by the system for the operation's record;
/// the operation is taken back then, and nothing has changed. It takes memory for its record and for what takes it back.
pub fn operate<G: Gate>(
    plan: &mut Plan,
    regions: &mut [Region],
    system: &mut System,
    precheck: bool,
    point: &GatePoint<'_, G>,
) -> Result<(), StepError>
    requires rest { IsAtRest regions.old system.old.state plan.old }
    requires wants { IsSome (plan_next plan.old) }
    ensures further { OnOk result (OneFurther precheck plan.old regions.old system.old.state plan.new regions.new system.new.state) }
    ensures err { OnErr result ((plan.new ≡ plan.old) × (regions.new ≡ regions.old) × (system.new ≡ system.old)) }
    ensures cause { IfErr result (IsRefusal precheck plan.old regions.old system.old.state) }
    ensures others { OthersStay system.old.state plan.old.txn system.new.state }
    ensures promised { system.new.promised ≡ system.old.promised }
{
    let Want::Region { region } = plan.wants() else {
        unreachable!()
    };
    let region = &mut regions[region as usize];
    make(plan, region, system, precheck, point)
}

/// The client of a plan dies in its next operation, behind its last update and the gate: its words stay written, the
/// region is held by a dead client, and the transaction's row is dead and names the region. No record is logged, and of the
/// plan only its open operation is another. Refused as the region's latch; the client lives then, and nothing has changed. It
/// takes no memory.
pub fn die<G: Gate>(
    plan: &mut Plan,
    regions: &mut [Region],
    system: &mut System,
    precheck: bool,
    point: &GatePoint<'_, G>,
) -> Result<(), LatchError>
    requires rest { IsAtRest regions.old system.old.state plan.old }
    requires wants { IsSome (plan_next plan.old) }
    ensures dies { OnOk result (IsDeath precheck plan.old regions.old system.old.state regions.new system.new.state) }
    ensures plan { OnOk result (plan.new ≡ with_operation plan.old plan.new.operation) }
    ensures err { OnErr result ((plan.new ≡ plan.old) × (regions.new ≡ regions.old) × (system.new ≡ system.old)) }
    ensures cause { IfErr result (λ e. IsRefusal precheck plan.old regions.old system.old.state (ByLatch e)) }
    ensures others { OthersStay system.old.state plan.old.txn system.new.state }
    ensures promised { system.new.promised ≡ system.old.promised }
{
    let Want::Region { region: number } = plan.wants() else {
        unreachable!()
    };
    let region = &mut regions[number as usize];
    match die_on(plan, region, precheck, point) {
        Ok(txn) => {
            system.mark_dead(txn, Some(number));
            Ok(())
        }
        Err(cause) => Err(cause),
    }
}
