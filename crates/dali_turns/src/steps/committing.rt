//! A commit in steps: its record; its flush, which others' records share; each of its removals; its end.
ghost use Rattle.std.specs.Prelude.{◌≡◌, ◌<◌, ◌≤◌, ◌+◌, Bool, true, false, Some, ◌^◌, IfOk, IfSome, IsSome, OnOk, is_ok, nat_lt, slice_get};
ghost use Rattle.dali_transcripts.specs.declared.clients.command.Command.TheVariants.{Commit as IsCommit};
ghost use Rattle.dali_turns.specs.declared.client.State.TheVariants.{Outside as IsOutside, Within as IsWithin, Committing as IsCommitting, Gone as IsGone};
ghost use Rattle.dali_turns.specs.Clients.{next_of};
ghost use Rattle.dali_turns.specs.Commits.{awaits_flush};
ghost use Rattle.dali_turns.specs.Goes.{StepGoes};
ghost use Rattle.dali_turns.specs.Turns.{HaltGoes};
ghost use Rattle.dali_turns.specs.Moments.{StepLeavesRight, HaltLeavesRight};
ghost use Rattle.dali_turns.specs.Places.{PlacesGo};
ghost use Rattle.dali_turns.specs.Refuses.{EndsCommit, SaysOk, SaysStop};

use crate::client::{Client, State, Transaction};
use crate::run::no_run;
use crate::steps::audits::has_room;
use dali_bytes::OutOfMemory;
use dali_core::vault::VaultError;
use dali_core::{Core, flush};
use dali_record::Pending;
use dali_store::Store;
use dali_transactions::{CommitError, end_commit, free_removal, log_commit};
use dali_transcripts::clients::{Command, Line, Why};
use std::alloc::Global;

/// Logs the commit of the transaction.
pub(crate) fn commit<'a, V: Store>(
    client: &mut Client<'a>,
    transaction: Transaction<'a>,
    core: &mut Core<V>,
    alloc: Global,
) -> Result<bool, OutOfMemory>
    requires stands { client.old.state ≡ IsOutside }
    requires next { next_of client.old ≡ Some IsCommit }
    ensures goes { (precheck : Bool) → StepGoes V.Store precheck (IsWithin transaction.entry) client.old core.old.regions.items core.old.system.state core.old.vault (is_ok result) client.new core.new.regions.items core.new.system.state core.new.vault }
    ensures places { PlacesGo V.told (IsWithin transaction.entry) core.old.regions.items core.old.vault client.new.state core.new.regions.items core.new.vault }
    ensures on { IfOk result (λ went. went ≡ true) }
    ensures vault { core.new.vault ≡ core.old.vault }
    ensures refuses { SaysStop core.old.system.state IsOutside IsCommit client.old result client.new }
{
    if let Some(cause) = core.system.stopped() {
        let command = Command::Commit;
        let why = Why::Stopped { cause };
        client.finish(State::Outside, Line::Refused { command, why })?;
        return Ok(true);
    }
    let number = core.system.records();
    match log_commit(core, alloc, transaction.txn) {
        Ok(removals) => {
            client.state = State::Committing {
                transaction,
                number,
                removals,
                next: 0,
            };
            Ok(true)
        }
        Err(CommitError::OutOfMemory) => Err(OutOfMemory),
        Err(_) => no_run(), // the vault runs with the engine
    }
}

/// Whether the record is flushed.
pub(crate) fn is_flushed<V: Store>(core: &Core<V>, number: u64) -> bool
    ensures { result ≡ nat_lt number (core.now.system.state.first + core.now.vault.flushed) }
{
    let first = core.system.first();
    if number < first {
        return true;
    }
    number - first < core.vault.flushed()
}

/// The next step of a commit that is logged. No step is its own where the flush of another client took its record along.
pub(crate) fn go_on<'a, V: Store>(
    client: &mut Client<'a>,
    transaction: Transaction<'a>,
    number: u64,
    removals: Vec<Pending>,
    next: usize,
    core: &mut Core<V>,
    alloc: Global,
) -> Result<bool, OutOfMemory>
    requires stands { client.old.state ≡ IsOutside }
    ensures goes { (precheck : Bool) → StepGoes V.Store precheck (IsCommitting transaction.entry number removals next) client.old core.old.regions.items core.old.system.state core.old.vault (is_ok result) client.new core.new.regions.items core.new.system.state core.new.vault }
    ensures places { PlacesGo V.told (IsCommitting transaction.entry number removals next) core.old.regions.items core.old.vault client.new.state core.new.regions.items core.new.vault }
    ensures on { IfOk result (λ went. went ≡ true) }
    ensures any_moment { StepLeavesRight V.Store (IsCommitting transaction.entry number removals next) client.old core.old.regions.items core.old.system.state core.old.vault core.new.system.state core.new.vault }
    ensures refuses { EndsCommit number client.old core.old.system.state core.old.vault.flushed result client.new core.new.vault.stopped }
{
    if is_flushed(core, number) {
        return settle_next(client, transaction, number, removals, next, core);
    }
    if !has_room(&core.vault) {
        return no_run();
    }
    let command = Command::Commit;
    let why = Why::StoreStopped;
    match flush(core, alloc) {
        Ok(()) => {
            client.state = State::Committing {
                transaction,
                number,
                removals,
                next,
            };
            Ok(true)
        }
        Err(VaultError::Fault) => {
            client.finish(State::Outside, Line::Refused { command, why })?; // its own call failed
            Ok(true)
        }
        Err(VaultError::Stopped) => {
            client.finish(State::Outside, Line::Refused { command, why })?; // another call had failed
            Ok(true)
        }
    }
}

// The next removal of a commit that is flushed, or its end. Where the engine is stopped both stay undone.
fn settle_next<'a, V: Store>(
    client: &mut Client<'a>,
    transaction: Transaction<'a>,
    number: u64,
    removals: Vec<Pending>,
    next: usize,
    core: &mut Core<V>,
) -> Result<bool, OutOfMemory>
    requires stands { client.old.state ≡ IsOutside }
    requires flushed { number < core.old.system.state.first + core.old.vault.flushed }
    ensures goes { (precheck : Bool) → StepGoes V.Store precheck (IsCommitting transaction.entry number removals next) client.old core.old.regions.items core.old.system.state core.old.vault (is_ok result) client.new core.new.regions.items core.new.system.state core.new.vault }
    ensures places { PlacesGo V.told (IsCommitting transaction.entry number removals next) core.old.regions.items core.old.vault client.new.state core.new.regions.items core.new.vault }
    ensures on { IfOk result (λ went. went ≡ true) }
    ensures vault { core.new.vault ≡ core.old.vault }
    ensures refuses { IsSome core.old.system.state.stop → OnOk result (SaysOk client.old client.new) }
{
    if core.system.stopped().is_some() {
        client.finish(State::Outside, Line::CommitOk)?;
        return Ok(true);
    }
    match removal_at(&removals, next) {
        None => match end_commit(core, transaction.txn) {
            Ok(()) => {
                client.finish(State::Outside, Line::CommitOk)?;
                Ok(true)
            }
            Err(_) => no_run(),
        },
        Some(removal) => match free_removal(core, transaction.txn, &removal) {
            Ok(()) => {
                client.state = State::Committing {
                    transaction,
                    number,
                    removals,
                    next: next + 1,
                };
                Ok(true)
            }
            Err(_) => no_run(),
        },
    }
}

// The removal that is next, if one is left.
fn removal_at(removals: &[Pending], next: usize) -> Option<Pending>
    ensures is { result ≡ slice_get removals.now next }
    ensures fits { IfSome result (λ removal. next + 1 < 2 ^ 64) }
{
    if next < removals.len() {
        Some(removals[next])
    } else {
        None
    }
}

/// A client makes no step more, since its round ends here. A commit that is logged is flushed, or has failed.
pub fn halt<V: Store>(client: &Client<'_>, core: &mut Core<V>, alloc: Global)
    ensures goes { HaltGoes V.Store client.now core.old.regions.items core.old.system.state core.old.vault core.new.regions.items core.new.system.state core.new.vault }
    ensures places { PlacesGo V.told client.now.state core.old.regions.items core.old.vault client.now.state core.new.regions.items core.new.vault }
    ensures still { awaits_flush client.now.state core.old.system.state core.old.vault ≡ false → core.new ≡ core.old }
    ensures gone { client.now.state ≡ IsGone → core.new ≡ core.old }
    ensures log { core.new.system.state.since ≡ core.old.system.state.since }
    ensures any_moment { HaltLeavesRight V.Store core.old.regions.items core.old.system.state core.old.vault core.new.vault }
{
    if !awaits(client, core) {
        return;
    }
    if !has_room(&core.vault) {
        return; // no run leaves that
    }
    match flush(core, alloc) {
        Ok(()) => {}
        Err(VaultError::Fault) => {}
        Err(VaultError::Stopped) => {}
    }
}

// Whether its commit is logged, and not flushed.
fn awaits<V: Store>(client: &Client<'_>, core: &Core<V>) -> bool
    ensures { result ≡ awaits_flush client.now.state core.now.system.state core.now.vault }
{
    match &client.state {
        State::Committing { number, .. } => !is_flushed(core, *number),
        _ => false,
    }
}
