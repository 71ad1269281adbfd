//! The steps of a call.
ghost use Rattle.std.specs.Prelude.{◌≡◌, ℕ, Bool, true, false, not, Some, None, IsSome, OnOk, OnErr, IfOk, IfErr, is_ok, is_some};
ghost use Rattle.dali_record.specs.declared.records.Call.{Call as Called};
ghost use Rattle.dali_system.specs.declared.want.Want.TheVariants.{Done as AnswerIsNext};
ghost use Rattle.dali_calls.specs.Flags.{FlagsStay};
ghost use Rattle.dali_calls.specs.Plans.{want_of, plan_next, is_back, is_answered, IsWhole};
ghost use Rattle.dali_calls.specs.Single.Refusals.{IsRefusal, IsLatched};
ghost use Rattle.dali_calls.specs.Single.Stands.{IsAtRest};
ghost use Rattle.dali_region.specs.declared.LatchError.TheVariants.{Damaged};
ghost use Rattle.dali_system.specs.declared.error.SystemError.{SystemError as Refused};
ghost use Rattle.dali_calls.specs.declared.single.error.StepError.{StepError as MayRefuse};
ghost use Rattle.dali_calls.specs.declared.single.error.StepError.TheVariants.{Latch as ByLatch, System as BySystem};
ghost use Rattle.dali_calls.specs.Stepwise.Stepwise.{OneFurther, IsDeath};
ghost use Rattle.dali_att.specs.declared.state.State.TheVariants.{Live};
ghost use Rattle.dali_runs.specs.State.{state_of};
ghost use Rattle.dali_clean.specs.Cleaned.{IsDead};
ghost use Rattle.dali_transcripts.specs.World.{is_dead_in};
ghost use Rattle.dali_transcripts.specs.declared.clients.command.Command.TheVariants.{Call as IsCall};
ghost use Rattle.dali_transcripts.specs.declared.clients.line.Why.TheVariants.{Damaged as IsDamaged};
ghost use Rattle.dali_turns.specs.declared.client.State.TheVariants.{Outside as IsOutside, Within as IsWithin, Calling as IsCalling, TakingBack as IsTakingBack};
ghost use Rattle.dali_turns.specs.Clients.{next_of, next_point, Stays};
ghost use Rattle.dali_turns.specs.Calls.{TurnsBack, IsRefusedBy, IsDeadly, IsFurther, MakesNext, MustWait, call_in};
ghost use Rattle.dali_turns.specs.Ends.{ClearsWay};
ghost use Rattle.dali_turns.specs.Goes.{StepGoes};
ghost use Rattle.dali_turns.specs.Refuses.{IsMet, IsMetBack, SaysStop, Refuses};
ghost use Rattle.dali_turns.specs.Places.{PlacesGo};

use crate::client::{Client, State, Transaction};
use crate::plan::BoxedPlan;
use crate::run::no_run;
use crate::steps::{Setting, clean_up, transactions};
use crate::why::why_of;
use dali_att::State as TxnState;
use dali_bytes::OutOfMemory;
use dali_calls::Plan;
use dali_calls::single::StepError;
use dali_calls::stepwise::{Gate, GatePoint};
use dali_core::Core;
use dali_locks::LockAnswer;
use dali_record::Call;
use dali_region::LatchError;
use dali_store::Store;
use dali_system::{SystemError, Want};
use dali_transcripts::clients::{Command, Line, Why};
use std::alloc::Global;

/// Asks for the lock of the call, once there is room for its plan. Where a dead transaction holds it, that one is cleaned
/// up, and the call asks again.
pub(crate) fn ask<'a, V: Store>(
    client: &mut Client<'a>,
    transaction: Transaction<'a>,
    call: Call,
    alloc: Global,
    core: &mut Core<V>,
) -> Result<bool, OutOfMemory>
    requires stands { client.old.state ≡ IsOutside }
    requires next { next_of client.old ≡ Some (IsCall call) }
    ensures goes { (precheck : Bool) → StepGoes V.Store precheck (IsWithin transaction.entry) client.old core.old.regions.items core.old.system.state core.old.vault (is_ok result) client.new core.new.regions.items core.new.system.state core.new.vault }
    ensures places { PlacesGo V.told (IsWithin transaction.entry) core.old.regions.items core.old.vault client.new.state core.new.regions.items core.new.vault }
    ensures waits { IfOk result (λ went. went ≡ false → Stays client.old (IsWithin transaction.entry) client.new × (core.new ≡ core.old) × (core.old.system.state.stop ≡ None) × MustWait core.old.system.state transaction.entry.txn call) }
    ensures vault { core.new.vault ≡ core.old.vault }
    ensures refuses { SaysStop core.old.system.state (IsWithin transaction.entry) (IsCall call) client.old result client.new }
{
    let fresh = Plan::new(core.system.geometry(), transaction.txn, call);
    let plan = BoxedPlan::new(alloc, fresh)?;
    match dali_calls::stepwise::ask(plan.get(), &mut core.system, transaction.txn) {
        Ok(answer) => match answer {
            LockAnswer::Granted => {
                client.state = State::Calling { transaction, plan };
                Ok(true)
            }
            LockAnswer::Wait { holder } => {
                if is_dead(core, holder) {
                    return clean_holder(client, transaction, holder, core);
                }
                client.state = State::Within { transaction };
                Ok(false)
            }
            LockAnswer::Busy { holder } => {
                if is_dead(core, holder) {
                    return clean_holder(client, transaction, holder, core);
                }
                transactions::give_way(client, transaction, holder, core)
            }
        },
        Err(error) => {
            client.refuse_call(transaction, why_of(error)?)?;
            Ok(true)
        }
    }
}

// Whether the client of a transaction died.
fn is_dead<V: Store>(core: &Core<V>, txn: u64) -> bool
    ensures { result ≡ is_dead_in (state_of core.now.system.state txn) }
{
    matches!(core.system.state(txn), Some(TxnState::Dead { .. }))
}

// Cleans up the dead holder of a call's lock.
fn clean_holder<'a, V: Store>(
    client: &mut Client<'a>,
    transaction: Transaction<'a>,
    holder: u64,
    core: &mut Core<V>,
) -> Result<bool, OutOfMemory>
    requires stands { client.old.state ≡ IsOutside }
    requires next { (call : Called) × (next_of client.old ≡ Some (IsCall call)) }
    requires dead { IsDead (state_of core.old.system.state holder) }
    ensures goes { (precheck : Bool) → StepGoes V.Store precheck (IsWithin transaction.entry) client.old core.old.regions.items core.old.system.state core.old.vault (is_ok result) client.new core.new.regions.items core.new.system.state core.new.vault }
    ensures places { PlacesGo V.told (IsWithin transaction.entry) core.old.regions.items core.old.vault client.new.state core.new.regions.items core.new.vault }
    ensures on { IfOk result (λ went. went ≡ true) }
    ensures vault { core.new.vault ≡ core.old.vault }
{
    let state = State::Within { transaction };
    clear_way(client, transaction, state, holder, core)
}

// Cleans up a dead transaction that is in the way of a call, and its client stands in this state. Where the engine is stopped
// the call is refused.
fn clear_way<'a, V: Store>(
    client: &mut Client<'a>,
    transaction: Transaction<'a>,
    state: State<'a>,
    dead: u64,
    core: &mut Core<V>,
) -> Result<bool, OutOfMemory>
    requires { IsSome (next_of client.old) }
    ensures clears { ClearsWay dead transaction.entry state.entry client.old core.old.regions.items core.old.system.state result client.new core.new.regions.items core.new.system.state }
    ensures flags { FlagsStay core.old.regions.items core.new.regions.items }
    ensures on { IfOk result (λ went. went ≡ true) }
    ensures vault { core.new.vault ≡ core.old.vault }
{
    match clean_up(core, dead)? {
        None => {
            client.state = state;
            Ok(true)
        }
        Some(why) => {
            client.refuse_call(transaction, why)?;
            Ok(true)
        }
    }
}

// Whether a plan stands where its next step begins: it is of this core and of a live transaction, and has no operation open.
fn is_at_rest<V: Store>(core: &Core<V>, plan: &Plan) -> bool
    ensures rest { result ≡ true → IsAtRest core.now.regions.items core.now.system.state plan.now }
    ensures told { IsAtRest core.now.regions.items core.now.system.state plan.now → result ≡ true }
{
    let geometry = core.system.geometry();
    if plan.geometry() != geometry {
        return false;
    }
    if core.regions.len() != geometry.regions() as usize {
        return false;
    }
    if !lives(core, plan.txn()) {
        return false;
    }
    !plan.is_open()
}

// Whether a transaction is live.
fn lives<V: Store>(core: &Core<V>, txn: u64) -> bool
    ensures lives { result ≡ true → state_of core.now.system.state txn ≡ Some Live }
    ensures told { state_of core.now.system.state txn ≡ Some Live → result ≡ true }
{
    matches!(core.system.state(txn), Some(TxnState::Live))
}

// Whether a call is under way.
fn is_called(client: &Client<'_>) -> bool
    ensures { result ≡ is_some (call_in (next_of client.now)) }
{
    called(client).is_some()
}

/// The next step of a call that has its lock: an operation, the one in which the client dies, or the answer.
pub(crate) fn call<'a, V: Store, G: Gate>(
    client: &mut Client<'a>,
    transaction: Transaction<'a>,
    plan: BoxedPlan,
    core: &mut Core<V>,
    setting: &Setting<'_, G>,
) -> Result<bool, OutOfMemory>
    requires stands { client.old.state ≡ IsOutside }
    ensures goes { StepGoes V.Store setting.now.precheck (IsCalling transaction.entry plan) client.old core.old.regions.items core.old.system.state core.old.vault (is_ok result) client.new core.new.regions.items core.new.system.state core.new.vault }
    ensures places { PlacesGo V.told (IsCalling transaction.entry plan) core.old.regions.items core.old.vault client.new.state core.new.regions.items core.new.vault }
    ensures on { IfOk result (λ went. went ≡ true) }
    ensures vault { core.new.vault ≡ core.old.vault }
    ensures refuses { Refuses setting.now.precheck (IsCalling transaction.entry plan) client.old core.old.regions.items core.old.system.state core.old.vault.flushed result client.new core.new.vault.stopped }
{
    let Some(call) = called(client) else {
        return no_run(); // a call is under way
    };
    let held = plan.get();
    if !is_at_rest(core, held) {
        return no_run();
    }
    match held.wants() {
        Want::Region { region } => {
            let onward = !held.is_back();
            if onward && transaction.deadly == Some(1) {
                return die(client, transaction, plan, region, core, setting);
            }
            operate(client, transaction, plan, region, onward, core, setting)
        }
        Want::Done => answer(client, transaction, plan, call, core),
        // a plan that wants nothing was answered or refused
        Want::Nothing => no_run(),
    }
}

// The point at which a client passes the gate in its next operation.
fn gate_point<'a, G: Gate>(client: &Client<'_>, setting: &Setting<'a, G>) -> GatePoint<'a, G> {
    GatePoint {
        gate: setting.gate,
        client: client.transcript.client(),
        number: client.point(),
    }
}

// Makes the next operation of a plan over the core.
fn make_next<V: Store, G: Gate>(
    plan: &mut BoxedPlan,
    core: &mut Core<V>,
    client: &Client<'_>,
    setting: &Setting<'_, G>,
) -> Result<(), StepError>
    requires rest { IsAtRest core.old.regions.items core.old.system.state plan.old }
    requires wants { IsSome (plan_next plan.old) }
    ensures further { OnOk result (OneFurther setting.now.precheck plan.old core.old.regions.items core.old.system.state plan.new core.new.regions.items core.new.system.state) }
    ensures err { OnErr result ((plan.new ≡ plan.old) × (core.new.regions.items ≡ core.old.regions.items) × (core.new.system.state ≡ core.old.system.state)) }
    ensures cause { IfErr result (IsRefusal setting.now.precheck plan.old core.old.regions.items core.old.system.state) }
    ensures flags { FlagsStay core.old.regions.items core.new.regions.items }
    ensures vault { core.new.vault ≡ core.old.vault }
{
    let point = gate_point(client, setting);
    dali_calls::stepwise::operate(
        &mut plan.plan,
        &mut core.regions,
        &mut core.system,
        setting.precheck,
        &point,
    )
}

// The client dies in the next operation of a plan over the core.
fn die_next<V: Store, G: Gate>(
    plan: &mut BoxedPlan,
    core: &mut Core<V>,
    client: &Client<'_>,
    setting: &Setting<'_, G>,
) -> Result<(), LatchError>
    requires rest { IsAtRest core.old.regions.items core.old.system.state plan.old }
    requires wants { IsSome (plan_next plan.old) }
    ensures dies { OnOk result (IsDeath setting.now.precheck plan.old core.old.regions.items core.old.system.state core.new.regions.items core.new.system.state) }
    ensures err { OnErr result ((plan.new ≡ plan.old) × (core.new.regions.items ≡ core.old.regions.items) × (core.new.system.state ≡ core.old.system.state)) }
    ensures cause { IfErr result (λ e. IsRefusal setting.now.precheck plan.old core.old.regions.items core.old.system.state (ByLatch e)) }
    ensures flags { FlagsStay core.old.regions.items core.new.regions.items }
    ensures vault { core.new.vault ≡ core.old.vault }
{
    let point = gate_point(client, setting);
    dali_calls::stepwise::die(
        &mut plan.plan,
        &mut core.regions,
        &mut core.system,
        setting.precheck,
        &point,
    )
}

// An operation of a call. One that goes on with it brings the client's death nearer.
fn operate<'a, V: Store, G: Gate>(
    client: &mut Client<'a>,
    transaction: Transaction<'a>,
    plan: BoxedPlan,
    region: u32,
    onward: bool,
    core: &mut Core<V>,
    setting: &Setting<'_, G>,
) -> Result<bool, OutOfMemory>
    requires stands { client.old.state ≡ IsOutside }
    requires makes { MakesNext core.old.regions.items core.old.system.state plan (next_of client.old) region }
    requires way { onward ≡ not (is_back plan) }
    requires lives { onward ≡ true → IsDeadly transaction → ⊥ }
    ensures goes { StepGoes V.Store setting.now.precheck (IsCalling transaction.entry plan) client.old core.old.regions.items core.old.system.state core.old.vault (is_ok result) client.new core.new.regions.items core.new.system.state core.new.vault }
    ensures places { PlacesGo V.told (IsCalling transaction.entry plan) core.old.regions.items core.old.vault client.new.state core.new.regions.items core.new.vault }
    ensures on { IfOk result (λ went. went ≡ true) }
    ensures vault { core.new.vault ≡ core.old.vault }
    ensures met { (e : MayRefuse) → IsRefusal setting.now.precheck plan core.old.regions.items core.old.system.state e → OnOk result (IsMet e core.old.system.state.stop client.old transaction.entry plan client.new) }
{
    let mut plan = plan;
    match make_next(&mut plan, core, client, setting) {
        Ok(()) => {
            client.points = client.point();
            let transaction = further(transaction, onward);
            client.state = State::Calling { transaction, plan };
            Ok(true)
        }
        Err(error) => hindered(client, transaction, plan, region, error, core),
    }
}

// The transaction behind an operation.
fn further(transaction: Transaction<'_>, onward: bool) -> Transaction<'_>
    ensures { IsFurther transaction.entry (not onward) result }
{
    if !onward {
        return transaction;
    }
    Transaction {
        deadly: transaction.deadly.map(|left| left.saturating_sub(1)),
        ..transaction
    }
}

// The operation in which the client dies: it keeps its latch, and nothing of it is logged.
fn die<'a, V: Store, G: Gate>(
    client: &mut Client<'a>,
    transaction: Transaction<'a>,
    plan: BoxedPlan,
    region: u32,
    core: &mut Core<V>,
    setting: &Setting<'_, G>,
) -> Result<bool, OutOfMemory>
    requires stands { client.old.state ≡ IsOutside }
    requires makes { MakesNext core.old.regions.items core.old.system.state plan (next_of client.old) region }
    requires way { is_back plan ≡ false }
    requires deadly { IsDeadly transaction }
    ensures goes { StepGoes V.Store setting.now.precheck (IsCalling transaction.entry plan) client.old core.old.regions.items core.old.system.state core.old.vault (is_ok result) client.new core.new.regions.items core.new.system.state core.new.vault }
    ensures places { PlacesGo V.told (IsCalling transaction.entry plan) core.old.regions.items core.old.vault client.new.state core.new.regions.items core.new.vault }
    ensures on { IfOk result (λ went. went ≡ true) }
    ensures vault { core.new.vault ≡ core.old.vault }
    ensures met { (e : MayRefuse) → IsRefusal setting.now.precheck plan core.old.regions.items core.old.system.state e → IsLatched e → OnOk result (IsMet e core.old.system.state.stop client.old transaction.entry plan client.new) }
{
    let mut plan = plan;
    match die_next(&mut plan, core, client, setting) {
        Ok(()) => {
            client.state = State::Gone;
            client.transcript.say(Line::Died)?;
            Ok(true)
        }
        Err(cause) => hindered(
            client,
            transaction,
            plan,
            region,
            StepError::Latch { cause },
            core,
        ),
    }
}

// The call that is under way.
fn called(client: &Client<'_>) -> Option<Call>
    ensures { result ≡ call_in (next_of client.now) }
{
    match client.command() {
        Some(Command::Call { call }) => Some(call),
        _ => None,
    }
}

// The answer of a call whose operations are made.
fn answer<'a, V: Store>(
    client: &mut Client<'a>,
    transaction: Transaction<'a>,
    plan: BoxedPlan,
    call: Call,
    core: &mut Core<V>,
) -> Result<bool, OutOfMemory>
    requires stands { client.old.state ≡ IsOutside }
    requires rest { IsAtRest core.old.regions.items core.old.system.state plan }
    requires called { call_in (next_of client.old) ≡ Some call }
    requires wants { want_of plan ≡ AnswerIsNext }
    requires whole { IsWhole plan }
    ensures goes { (precheck : Bool) → StepGoes V.Store precheck (IsCalling transaction.entry plan) client.old core.old.regions.items core.old.system.state core.old.vault (is_ok result) client.new core.new.regions.items core.new.system.state core.new.vault }
    ensures places { PlacesGo V.told (IsCalling transaction.entry plan) core.old.regions.items core.old.vault client.new.state core.new.regions.items core.new.vault }
    ensures on { IfOk result (λ went. went ≡ true) }
    ensures vault { core.new.vault ≡ core.old.vault }
    ensures met { (precheck : Bool) (e : MayRefuse) → IsRefusal precheck plan core.old.regions.items core.old.system.state e → OnOk result (IsMet e core.old.system.state.stop client.old transaction.entry plan client.new) }
{
    let mut plan = plan;
    match dali_calls::stepwise::answer(&mut plan.plan, &mut core.system) {
        Ok(answer) => {
            let state = State::Within { transaction };
            client.finish(state, Line::Answered { call, answer })?;
            Ok(true)
        }
        Err(error) => refused(client, transaction, plan, error),
    }
}

// An operation of a call wasn't made. A dead transaction that has the region latched is cleaned up, and the operation is
// tried again; else the call is refused.
fn hindered<'a, V: Store>(
    client: &mut Client<'a>,
    transaction: Transaction<'a>,
    plan: BoxedPlan,
    region: u32,
    error: StepError,
    core: &mut Core<V>,
) -> Result<bool, OutOfMemory>
    requires stands { client.old.state ≡ IsOutside }
    requires makes { MakesNext core.old.regions.items core.old.system.state plan (next_of client.old) region }
    requires cause { (precheck : Bool) × IsRefusal precheck plan core.old.regions.items core.old.system.state error }
    requires lives { is_back plan ≡ false → IsDeadly transaction → IsLatched error }
    ensures goes { (precheck : Bool) → IsRefusal precheck plan core.old.regions.items core.old.system.state error → StepGoes V.Store precheck (IsCalling transaction.entry plan) client.old core.old.regions.items core.old.system.state core.old.vault (is_ok result) client.new core.new.regions.items core.new.system.state core.new.vault }
    ensures places { PlacesGo V.told (IsCalling transaction.entry plan) core.old.regions.items core.old.vault client.new.state core.new.regions.items core.new.vault }
    ensures on { IfOk result (λ went. went ≡ true) }
    ensures damaged { (codeword found : ℕ) → error ≡ ByLatch (Damaged codeword found) → TurnsBack client.old transaction.entry plan (IsDamaged region codeword found) client.new }
    ensures points { (cause : Refused) → error ≡ BySystem cause → client.new.points ≡ next_point client.old.points }
    ensures vault { core.new.vault ≡ core.old.vault }
    ensures met { OnOk result (IsMet error core.old.system.state.stop client.old transaction.entry plan client.new) }
{
    match error {
        StepError::Latch { cause } => match cause {
            LatchError::DeadHolder { txn } => {
                let state = State::Calling { transaction, plan };
                clear_way(client, transaction, state, txn, core)
            }
            LatchError::Damaged { codeword, found } => {
                let why = Why::Damaged {
                    region,
                    codeword,
                    found,
                };
                turn_back(client, transaction, plan, why);
                Ok(true)
            }
            // between two steps no live client has a region latched
            LatchError::Latched { .. } => no_run(),
        },
        StepError::System { cause } => {
            client.points = client.point();
            refused(client, transaction, plan, cause)
        }
    }
}

// The system took no record of a call: a full log has what was changed taken back, and where the engine is stopped it stays.
fn refused<'a>(
    client: &mut Client<'a>,
    transaction: Transaction<'a>,
    plan: BoxedPlan,
    error: SystemError,
) -> Result<bool, OutOfMemory>
    requires next { IsSome (next_of client.old) }
    requires closed { plan.operation ≡ None }
    requires before { is_answered plan.phase ≡ false }
    ensures { IsRefusedBy error client.old transaction.entry plan result client.new }
{
    match error {
        SystemError::Stopped { cause } => {
            client.refuse_call(transaction, Why::Stopped { cause })?;
            Ok(true)
        }
        SystemError::LogFull { end, limit } => {
            turn_back(client, transaction, plan, Why::LogFull { end, limit });
            Ok(true)
        }
        SystemError::OutOfMemory => Err(OutOfMemory),
    }
}

// The call is refused, and its changes are taken back from here on.
fn turn_back<'a>(client: &mut Client<'a>, transaction: Transaction<'a>, plan: BoxedPlan, why: Why)
    requires closed { plan.operation ≡ None }
    requires before { is_answered plan.phase ≡ false }
    ensures { TurnsBack client.old transaction.entry plan why client.new }
{
    let mut plan = plan;
    plan.plan.refuse();
    client.state = State::TakingBack {
        transaction,
        plan,
        why,
    };
}

/// Takes back the last change of a refused call; where none is left the call says why it was refused. A stop in between is
/// why, and then what is left stays.
pub(crate) fn take_back<'a, V: Store, G: Gate>(
    client: &mut Client<'a>,
    transaction: Transaction<'a>,
    plan: BoxedPlan,
    why: Why,
    core: &mut Core<V>,
    setting: &Setting<'_, G>,
) -> Result<bool, OutOfMemory>
    requires stands { client.old.state ≡ IsOutside }
    ensures goes { StepGoes V.Store setting.now.precheck (IsTakingBack transaction.entry plan why) client.old core.old.regions.items core.old.system.state core.old.vault (is_ok result) client.new core.new.regions.items core.new.system.state core.new.vault }
    ensures places { PlacesGo V.told (IsTakingBack transaction.entry plan why) core.old.regions.items core.old.vault client.new.state core.new.regions.items core.new.vault }
    ensures on { IfOk result (λ went. went ≡ true) }
    ensures vault { core.new.vault ≡ core.old.vault }
    ensures refuses { Refuses setting.now.precheck (IsTakingBack transaction.entry plan why) client.old core.old.regions.items core.old.system.state core.old.vault.flushed result client.new core.new.vault.stopped }
{
    if !is_called(client) {
        return no_run(); // a call is under way
    }
    let held = plan.get();
    if !is_at_rest(core, held) {
        return no_run();
    }
    match held.wants() {
        Want::Region { .. } => go_back(client, transaction, plan, why, core, setting),
        Want::Nothing => {
            client.refuse_call(transaction, why)?;
            Ok(true)
        }
        // a refused call has no answer
        Want::Done => no_run(),
    }
}

// Takes back the last change.
fn go_back<'a, V: Store, G: Gate>(
    client: &mut Client<'a>,
    transaction: Transaction<'a>,
    plan: BoxedPlan,
    why: Why,
    core: &mut Core<V>,
    setting: &Setting<'_, G>,
) -> Result<bool, OutOfMemory>
    requires stands { client.old.state ≡ IsOutside }
    requires rest { IsAtRest core.old.regions.items core.old.system.state plan }
    requires called { IsSome (call_in (next_of client.old)) }
    requires wants { IsSome (plan_next plan) }
    ensures goes { StepGoes V.Store setting.now.precheck (IsTakingBack transaction.entry plan why) client.old core.old.regions.items core.old.system.state core.old.vault (is_ok result) client.new core.new.regions.items core.new.system.state core.new.vault }
    ensures places { PlacesGo V.told (IsTakingBack transaction.entry plan why) core.old.regions.items core.old.vault client.new.state core.new.regions.items core.new.vault }
    ensures on { IfOk result (λ went. went ≡ true) }
    ensures vault { core.new.vault ≡ core.old.vault }
    ensures met { (e : MayRefuse) → IsRefusal setting.now.precheck plan core.old.regions.items core.old.system.state e → OnOk result (IsMetBack e core.old.system.state.stop client.old transaction.entry client.new) }
{
    let mut plan = plan;
    match make_next(&mut plan, core, client, setting) {
        Ok(()) => {
            client.points = client.point();
            client.state = State::TakingBack {
                transaction,
                plan,
                why,
            };
            Ok(true)
        }
        Err(error) => stuck(client, transaction, plan, why, error, core),
    }
}

// A change of a refused call wasn't taken back. A dead transaction that has the region latched is cleaned up, and it is
// tried again; a stop is why the call is refused then.
fn stuck<'a, V: Store>(
    client: &mut Client<'a>,
    transaction: Transaction<'a>,
    plan: BoxedPlan,
    why: Why,
    error: StepError,
    core: &mut Core<V>,
) -> Result<bool, OutOfMemory>
    requires stands { client.old.state ≡ IsOutside }
    requires called { IsSome (call_in (next_of client.old)) }
    requires wants { IsSome (plan_next plan) }
    requires cause { (precheck : Bool) × IsRefusal precheck plan core.old.regions.items core.old.system.state error }
    ensures goes { (precheck : Bool) → IsRefusal precheck plan core.old.regions.items core.old.system.state error → StepGoes V.Store precheck (IsTakingBack transaction.entry plan why) client.old core.old.regions.items core.old.system.state core.old.vault (is_ok result) client.new core.new.regions.items core.new.system.state core.new.vault }
    ensures places { PlacesGo V.told (IsTakingBack transaction.entry plan why) core.old.regions.items core.old.vault client.new.state core.new.regions.items core.new.vault }
    ensures on { IfOk result (λ went. went ≡ true) }
    ensures vault { core.new.vault ≡ core.old.vault }
    ensures met { OnOk result (IsMetBack error core.old.system.state.stop client.old transaction.entry client.new) }
{
    match error {
        StepError::Latch { cause } => match cause {
            LatchError::DeadHolder { txn } => {
                let state = State::TakingBack {
                    transaction,
                    plan,
                    why,
                };
                clear_way(client, transaction, state, txn, core)
            }
            // no live client has it latched
            LatchError::Latched { .. } => no_run(),
            // what takes back compares nothing
            LatchError::Damaged { .. } => no_run(),
        },
        StepError::System { cause } => {
            client.refuse_call(transaction, why_of(cause)?)?;
            Ok(true)
        }
    }
}
