//! The steps of a client, one function a kind.

mod audits;
mod calls;
mod checkpoints;
mod cleaning;
mod committing;
mod outside;
mod transactions;

ghost use Rattle.std.specs.Prelude.{◌≡◌, ◌==◌, Bool, false, true, None, IfSome, Ok, IfOk, is_ok, length};
ghost use Rattle.dali_turns.specs.declared.client.State.TheVariants.{Outside as IsOutside, Within as IsWithin};
ghost use Rattle.dali_turns.specs.Clients.{next_of, is_over};
ghost use Rattle.dali_turns.specs.Past.{IsPast};
ghost use Rattle.dali_turns.specs.Goes.{StepGoes};
ghost use Rattle.dali_turns.specs.Turns.{TurnGoes};
ghost use Rattle.dali_turns.specs.Places.{HasPlaces, PlacesGo};
ghost use Rattle.dali_turns.specs.Waits.{StaysPut};
ghost use Rattle.dali_turns.specs.Moments.{StepLeavesRight, TurnLeavesRight};
ghost use Rattle.dali_turns.specs.Refuses.{RefusesIn, Refuses};
ghost use Rattle.dali_turns.specs.Made.{MakesStep};

use crate::client::{Client, State, Transaction};
use crate::run::no_run;
pub(crate) use cleaning::clean_up;
pub use committing::halt;
pub(crate) use committing::is_flushed;
use dali_bytes::OutOfMemory;
use dali_calls::stepwise::Gate;
use dali_core::Core;
use dali_store::Store;
use dali_transcripts::clients::Command;
use std::alloc::Global;
use std::mem;

/// What all clients of a round have in common.
#[derive(Drop)]
pub struct Setting<'a, G: Gate> {
    pub alloc: Global,
    /// Whether a latch compares the region's codeword with its words.
    pub precheck: bool,
    pub gate: &'a G,
}

/// One step of a client; its records are noted as its own. Answers whether it went on: never where it is done, nor where its
/// lock is held by a younger transaction, or where it waits for a holder's end. Then nothing has changed. `OutOfMemory` where
/// memory for the step, a line or the number of a record is refused, or where a core that no run has come to has no step.
pub fn turn<V: Store, G: Gate>(
    client: &mut Client<'_>,
    core: &mut Core<V>,
    setting: &Setting<'_, G>,
) -> Result<bool, OutOfMemory>
    requires { HasPlaces V.told client.old.state core.old.regions.items core.old.vault }
    ensures goes { TurnGoes V.Store setting.now.precheck client.old core.old.regions.items core.old.system.state core.old.vault (is_ok result) client.new core.new.regions.items core.new.system.state core.new.vault }
    ensures places { PlacesGo V.told client.old.state core.old.regions.items core.old.vault client.new.state core.new.regions.items core.new.vault }
    ensures idle { result ≡ Ok false → StaysPut core.old.system.state client.old.state client.old client.new × (core.new ≡ core.old) }
    ensures over { is_over client.old.state (length client.old.rest.now == 0) ≡ true → result ≡ Ok false }
    ensures any_moment { TurnLeavesRight V.Store setting.now.precheck client.old core.old.regions.items core.old.system.state core.old.vault core.new.system.state core.new.vault }
    ensures refuses { Refuses setting.now.precheck client.old.state client.old core.old.regions.items core.old.system.state core.old.vault.flushed result client.new core.new.vault.stopped }
{
    let first = core.system.records();
    // no step sees the receipts
    let receipts = client.transcript.replace_receipts(Vec::new(setting.alloc));
    let stepped = step(client, core, setting);
    client.transcript.replace_receipts(receipts);
    let behind = core.system.records();
    if first == behind {
        return stepped; // nothing was logged
    }
    if behind < first {
        return no_run(); // a log grows
    }
    match client.transcript.log(first, behind) {
        Ok(()) => stepped,
        Err(error) => match stepped {
            Ok(_) => {
                halt(client, core, setting.alloc);
                Err(error)
            }
            Err(_) => Err(error),
        },
    }
}

// The step of a client by where it stands. One that only goes to the next region is made where the state stands.
fn step<V: Store, G: Gate>(
    client: &mut Client<'_>,
    core: &mut Core<V>,
    setting: &Setting<'_, G>,
) -> Result<bool, OutOfMemory>
    requires { HasPlaces V.told client.old.state core.old.regions.items core.old.vault }
    ensures step { MakesStep V.Store setting.now.precheck client.old.state client.old core.old.regions.items core.old.system.state core.old.vault result client.new core.new.regions.items core.new.system.state core.new.vault }
    ensures idle { result ≡ Ok false → StaysPut core.old.system.state client.old.state client.old client.new × (core.new ≡ core.old) }
    ensures over { is_over client.old.state (length client.old.rest.now == 0) ≡ true → result ≡ Ok false }
{
    match next_region(client, core) {
        Some(stepped) => stepped,
        None => step_on(client, core, setting),
    }
}

// The next region of an audit or a checkpoint, where the client is in one.
fn next_region<V: Store>(
    client: &mut Client<'_>,
    core: &mut Core<V>,
) -> Option<Result<bool, OutOfMemory>>
    requires { HasPlaces V.told client.old.state core.old.regions.items core.old.vault }
    ensures step { IfSome result (λ stepped. (precheck : Bool) → MakesStep V.Store precheck client.old.state client.old core.old.regions.items core.old.system.state core.old.vault stepped client.new core.new.regions.items core.new.system.state core.new.vault) }
    ensures on { IfSome result (λ stepped. IfOk stepped (λ went. went ≡ true)) }
    ensures busy { IfSome result (λ stepped. (none : Bool) → is_over client.old.state none ≡ false) }
    ensures past { result ≡ None → (client.new ≡ client.old) × (core.new ≡ core.old) × IsPast client.old.state core.old.regions.items core.old.system.state }
{
    match client.state {
        State::Auditing { .. } => audits::audit_next(client, core),
        State::Copying { .. } => checkpoints::copy_next(client, core),
        State::Certifying { .. } => checkpoints::certify_next(client, core),
        _ => None,
    }
}

// The step of a client that goes to no next region.
fn step_on<V: Store, G: Gate>(
    client: &mut Client<'_>,
    core: &mut Core<V>,
    setting: &Setting<'_, G>,
) -> Result<bool, OutOfMemory>
    requires places { HasPlaces V.told client.old.state core.old.regions.items core.old.vault }
    requires past { IsPast client.old.state core.old.regions.items core.old.system.state }
    ensures step { MakesStep V.Store setting.now.precheck client.old.state client.old core.old.regions.items core.old.system.state core.old.vault result client.new core.new.regions.items core.new.system.state core.new.vault }
    ensures idle { result ≡ Ok false → StaysPut core.old.system.state client.old.state client.old client.new × (core.new ≡ core.old) }
    ensures over { is_over client.old.state (length client.old.rest.now == 0) ≡ true → result ≡ Ok false }
{
    match mem::replace(&mut client.state, State::Outside) {
        State::Outside => next(client, core, setting),
        State::LeftOut => outside::left_out(client),
        State::Within { transaction } => within(client, transaction, core, setting),
        State::Calling { transaction, plan } => {
            calls::call(client, transaction, plan, core, setting)
        }
        State::TakingBack {
            transaction,
            plan,
            why,
        } => calls::take_back(client, transaction, plan, why, core, setting),
        State::Committing {
            transaction,
            number,
            removals,
            next,
        } => committing::go_on(
            client,
            transaction,
            number,
            removals,
            next,
            core,
            setting.alloc,
        ),
        State::Waiting { tries, holder } => outside::wait(client, tries, holder, core),
        State::Auditing { audit, next } => audits::end(client, audit, next, setting.alloc, core),
        State::Copying { checkpoint, next } => {
            checkpoints::copy(client, checkpoint, next, setting.alloc, core)
        }
        State::Certifying {
            checkpoint,
            audit,
            next,
        } => checkpoints::finish_audit(client, checkpoint, audit, next, setting.alloc, core),
        State::Gone => {
            client.state = State::Gone;
            Ok(false)
        }
    }
}

// The next command outside a transaction.
fn next<V: Store, G: Gate>(
    client: &mut Client<'_>,
    core: &mut Core<V>,
    setting: &Setting<'_, G>,
) -> Result<bool, OutOfMemory>
    requires stands { client.old.state ≡ IsOutside }
    ensures goes { StepGoes V.Store setting.now.precheck IsOutside client.old core.old.regions.items core.old.system.state core.old.vault (is_ok result) client.new core.new.regions.items core.new.system.state core.new.vault }
    ensures places { PlacesGo V.told IsOutside core.old.regions.items core.old.vault client.new.state core.new.regions.items core.new.vault }
    ensures idle { result ≡ Ok false → StaysPut core.old.system.state IsOutside client.old client.new × (core.new ≡ core.old) }
    ensures over { (length client.old.rest.now == 0) ≡ true → result ≡ Ok false }
    ensures any_moment { StepLeavesRight V.Store IsOutside client.old core.old.regions.items core.old.system.state core.old.vault core.new.system.state core.new.vault }
    ensures refuses { Refuses setting.now.precheck IsOutside client.old core.old.regions.items core.old.system.state core.old.vault.flushed result client.new core.new.vault.stopped }
{
    match client.command() {
        None => Ok(false),
        Some(command) => match command {
            Command::Begin => outside::begin(client, 0, core),
            Command::Poke { region, word, mask } => outside::poke(client, region, word, mask, core),
            Command::Audit => audits::start(client, setting.alloc, core),
            Command::Checkpoint => checkpoints::start(client, setting.alloc, core),
            // no block has another command here
            _ => no_run(),
        },
    }
}

// The next command in a transaction, or its end with the block.
fn within<'a, V: Store, G: Gate>(
    client: &mut Client<'a>,
    transaction: Transaction<'a>,
    core: &mut Core<V>,
    setting: &Setting<'_, G>,
) -> Result<bool, OutOfMemory>
    requires stands { client.old.state ≡ IsOutside }
    ensures goes { StepGoes V.Store setting.now.precheck (IsWithin transaction.entry) client.old core.old.regions.items core.old.system.state core.old.vault (is_ok result) client.new core.new.regions.items core.new.system.state core.new.vault }
    ensures places { PlacesGo V.told (IsWithin transaction.entry) core.old.regions.items core.old.vault client.new.state core.new.regions.items core.new.vault }
    ensures idle { result ≡ Ok false → StaysPut core.old.system.state (IsWithin transaction.entry) client.old client.new × (core.new ≡ core.old) }
    ensures any_moment { StepLeavesRight V.Store (IsWithin transaction.entry) client.old core.old.regions.items core.old.system.state core.old.vault core.new.system.state core.new.vault }
    ensures refuses { RefusesIn core.old.system.state transaction.entry (next_of client.old) client.old result client.new }
{
    match client.command() {
        None => transactions::end(client, transaction, core),
        Some(command) => match command {
            Command::Call { call } => calls::ask(client, transaction, call, setting.alloc, core),
            Command::Die { operation } => {
                client.pass_command();
                client.state = State::Within {
                    transaction: Transaction {
                        deadly: Some(operation),
                        ..transaction
                    },
                };
                Ok(true)
            }
            Command::Commit => committing::commit(client, transaction, core, setting.alloc),
            Command::Abort => transactions::abort(client, transaction, core),
            // no block has another command here
            _ => no_run(),
        },
    }
}
