//! The steps of a checkpoint.
ghost use Rattle.std.specs.Prelude.{◌≡◌, ℕ, ◌+◌, ◌<◌, ◌≤◌, ◌^◌, Bool, true, Some, None, Err, is_ok, IfOk, IfSome, OnOk, OnErr, IsSomeAnd, length};
ghost use Rattle.dali_geometry.specs.Places.{regions as regions_of};
ghost use Rattle.dali_checkpoint.specs.Kept.{Checkpointed, given_up};
ghost use Rattle.dali_audit.specs.Findings.{Audited};
ghost use Rattle.dali_transcripts.specs.declared.clients.command.Command.TheVariants.{Checkpoint as IsCheckpoint};
ghost use Rattle.dali_turns.specs.declared.client.State.TheVariants.{Outside as IsOutside, Copying as IsCopying, Certifying as IsCertifying};
ghost use Rattle.dali_turns.specs.Endings.{line_in, SaysEnd, Unsaid};
ghost use Rattle.dali_turns.specs.Clients.{next_of};
ghost use Rattle.dali_turns.specs.Goes.{StepGoes};
ghost use Rattle.dali_turns.specs.Moments.{StepLeavesRight};
ghost use Rattle.dali_turns.specs.Refuses.{SaysStop, RefusesNow, Refuses};
ghost use Rattle.dali_turns.specs.Made.{MakesStep};
ghost use Rattle.dali_turns.specs.Places.{HasPlaces, PlacesGo};

use crate::client::{Client, State};
use crate::run::no_run;
use crate::steps::audits::has_room;
use dali_audit::Audit;
use dali_bytes::OutOfMemory;
use dali_checkpoint::{Checkpoint, CheckpointError};
use dali_core::Core;
use dali_store::Store;
use dali_transcripts::clients::{Command, Line, Why};
use std::alloc::Global;
use std::mem;

// The line of a checkpoint that has ended so.
fn line_of(made: Result<u64, CheckpointError>) -> Result<Line, OutOfMemory>
    ensures given { IfOk result (λ line. line_in made ≡ Some line) }
    ensures memory { OnErr result (line_in made ≡ None) }
{
    let why = match made {
        Ok(number) => return Ok(Line::Checkpointed { number }),
        Err(CheckpointError::Failed { regions }) => {
            return Ok(Line::CheckpointFailed { failing: regions });
        }
        Err(CheckpointError::InProgress) => Why::InProgress,
        Err(CheckpointError::Stopped { cause }) => Why::Stopped { cause },
        Err(CheckpointError::LogFull { end, limit }) => Why::LogFull { end, limit },
        Err(CheckpointError::Fault) => Why::StoreStopped,
        Err(CheckpointError::OutOfMemory) => return Err(OutOfMemory),
    };
    Ok(Line::Refused {
        command: Command::Checkpoint,
        why,
    })
}

// The end of the checkpoint that was under way.
fn end(client: &mut Client<'_>, made: Result<u64, CheckpointError>) -> Result<(), OutOfMemory>
    ensures ok { OnOk result (SaysEnd client.old made client.new) }
    ensures err { OnErr result (Unsaid client.old made client.new) }
{
    let line = line_of(made)?;
    client.finish(State::Outside, line)?;
    Ok(())
}

// The checkpoint that was under way makes no image.
fn give_up<V: Store>(
    client: &mut Client<'_>,
    checkpoint: Checkpoint,
    error: CheckpointError,
    core: &mut Core<V>,
) -> Result<(), OutOfMemory>
    ensures system { core.new ≡ record core.old { system = record core.old.system { state = given_up checkpoint.faulted core.old.system.state } } }
    ensures ok { OnOk result (SaysEnd client.old (Err error) client.new) }
    ensures err { OnErr result (Unsaid client.old (Err error) client.new) }
{
    checkpoint.give_up(&mut core.system);
    end(client, Err(error))?;
    Ok(())
}

// Whether this region is the one that the checkpoint copies next.
fn may_copy(checkpoint: &Checkpoint, next: u32) -> bool
    ensures next { result ≡ true → (next ≡ checkpoint.now.copied) × (next < regions_of checkpoint.now.header.geometry) }
    ensures told { (next ≡ checkpoint.now.copied) × (next < regions_of checkpoint.now.header.geometry) → result ≡ true }
    ensures few { result ≡ true → next + 1 < 2 ^ 32 }
{
    next == checkpoint.copied() && next < checkpoint.regions()
}

// Whether the checkpoint has copied all its regions, and these are as many.
fn may_settle(checkpoint: &Checkpoint, next: u32) -> bool
    ensures all { result ≡ true → (next ≡ checkpoint.now.copied) × (next ≡ regions_of checkpoint.now.header.geometry) }
    ensures told { (next ≡ checkpoint.now.copied) × (next ≡ regions_of checkpoint.now.header.geometry) → result ≡ true }
{
    next == checkpoint.copied() && next == checkpoint.regions()
}

// Whether the checkpoint settled before this audit began.
fn may_certify(checkpoint: &Checkpoint, audit: &Audit) -> bool
    ensures behind { result ≡ true → IsSomeAnd checkpoint.now.settled (λ n. n ≤ audit.now.begin) }
    ensures told { IsSomeAnd checkpoint.now.settled (λ n. n ≤ audit.now.begin) → result ≡ true }
{
    match checkpoint.settled() {
        Some(number) => number <= audit.number(),
        None => false,
    }
}

/// Starts a checkpoint.
pub(crate) fn start<V: Store>(
    client: &mut Client<'_>,
    alloc: Global,
    core: &mut Core<V>,
) -> Result<bool, OutOfMemory>
    requires next { next_of client.old ≡ Some IsCheckpoint }
    requires stands { client.old.state ≡ IsOutside }
    ensures goes { (precheck : Bool) → StepGoes V.Store precheck IsOutside client.old core.old.regions.items core.old.system.state core.old.vault (is_ok result) client.new core.new.regions.items core.new.system.state core.new.vault }
    ensures places { PlacesGo V.told IsOutside core.old.regions.items core.old.vault client.new.state core.new.regions.items core.new.vault }
    ensures on { IfOk result (λ went. went ≡ true) }
    ensures any_moment { StepLeavesRight V.Store IsOutside client.old core.old.regions.items core.old.system.state core.old.vault core.new.system.state core.new.vault }
    ensures refuses { RefusesNow core.old.system.state IsCheckpoint client.old result client.new }
{
    if !has_room(&core.vault) {
        return no_run();
    }
    match Checkpoint::start(alloc, &mut core.system, &mut core.vault) {
        Ok(checkpoint) => {
            client.state = State::Copying {
                checkpoint,
                next: 0,
            };
            Ok(true)
        }
        Err(error) => {
            end(client, Err(error))?;
            Ok(true)
        }
    }
}

// A copy of the checkpoint that is under way has failed.
fn fail_copy<V: Store>(
    client: &mut Client<'_>,
    error: CheckpointError,
    core: &mut Core<V>,
) -> Result<(), OutOfMemory>
    requires copying { (checkpoint : Checkpointed) × (next : ℕ) × (client.old.state ≡ IsCopying checkpoint next) }
    ensures system { (checkpoint : Checkpointed) (next : ℕ) → client.old.state ≡ IsCopying checkpoint next → core.new ≡ record core.old { system = record core.old.system { state = given_up checkpoint.faulted core.old.system.state } } }
    ensures ok { OnOk result (SaysEnd (record client.old { state = IsOutside }) (Err error) client.new) }
    ensures err { OnErr result (Unsaid (record client.old { state = IsOutside }) (Err error) client.new) }
{
    let State::Copying { checkpoint, .. } = mem::replace(&mut client.state, State::Outside) else {
        unreachable!()
    };
    give_up(client, checkpoint, error, core)
}

/// Copies the next region, where the state of the checkpoint stays where it is. None where the client copies none, where each
/// was copied, or where the engine was stopped in between.
pub(crate) fn copy_next<V: Store>(
    client: &mut Client<'_>,
    core: &mut Core<V>,
) -> Option<Result<bool, OutOfMemory>>
    requires places { HasPlaces V.told client.old.state core.old.regions.items core.old.vault }
    ensures step { IfSome result (λ stepped. (precheck : Bool) → MakesStep V.Store precheck client.old.state client.old core.old.regions.items core.old.system.state core.old.vault stepped client.new core.new.regions.items core.new.system.state core.new.vault) }
    ensures on { IfSome result (λ stepped. IfOk stepped (λ went. went ≡ true)) }
    ensures past { result ≡ None → (client.new ≡ client.old) × (core.new ≡ core.old) × ((checkpoint : Checkpointed) (next : ℕ) → client.old.state ≡ IsCopying checkpoint next → core.old.system.state.stop ≡ None → length core.old.regions.items ≤ next) }
{
    let State::Copying { checkpoint, next } = &mut client.state else {
        return None;
    };
    if core.system.stopped().is_some() || (*next as usize) >= core.regions.len() {
        return None;
    }
    if !may_copy(checkpoint, *next) {
        return Some(no_run());
    }
    match checkpoint.copy(*next, &mut core.regions[*next as usize], &mut core.vault) {
        Ok(()) => {
            *next += 1;
            Some(Ok(true))
        }
        Err(error) => match fail_copy(client, error, core) {
            Ok(()) => Some(Ok(true)),
            Err(error) => Some(Err(error)),
        },
    }
}

/// Ends the image, where each region was copied, and begins its audit. Where the engine was stopped in between, that is why
/// there is no image.
pub(crate) fn copy<V: Store>(
    client: &mut Client<'_>,
    checkpoint: Checkpoint,
    next: u32,
    alloc: Global,
    core: &mut Core<V>,
) -> Result<bool, OutOfMemory>
    requires stands { client.old.state ≡ IsOutside }
    requires places { HasPlaces V.told (IsCopying checkpoint next) core.old.regions.items core.old.vault }
    requires all { core.old.system.state.stop ≡ None → length core.old.regions.items ≤ next }
    ensures goes { (precheck : Bool) → StepGoes V.Store precheck (IsCopying checkpoint next) client.old core.old.regions.items core.old.system.state core.old.vault (is_ok result) client.new core.new.regions.items core.new.system.state core.new.vault }
    ensures places { PlacesGo V.told (IsCopying checkpoint next) core.old.regions.items core.old.vault client.new.state core.new.regions.items core.new.vault }
    ensures on { IfOk result (λ went. went ≡ true) }
    ensures any_moment { StepLeavesRight V.Store (IsCopying checkpoint next) client.old core.old.regions.items core.old.system.state core.old.vault core.new.system.state core.new.vault }
    ensures refuses { (precheck : Bool) → Refuses precheck (IsCopying checkpoint next) client.old core.old.regions.items core.old.system.state core.old.vault.flushed result client.new core.new.vault.stopped }
{
    if let Some(cause) = core.system.stopped() {
        give_up(client, checkpoint, CheckpointError::Stopped { cause }, core)?;
        return Ok(true);
    }
    if !may_settle(&checkpoint, next) || !has_room(&core.vault) {
        return no_run();
    }
    let mut checkpoint = checkpoint;
    match checkpoint.settle(alloc, &mut core.system, &mut core.vault) {
        Ok(()) => {}
        Err(error) => {
            give_up(client, checkpoint, error, core)?;
            return Ok(true);
        }
    }
    match Audit::begin(alloc, &mut core.system) {
        Ok(audit) => {
            client.state = State::Certifying {
                checkpoint,
                audit,
                next: 0,
            };
            Ok(true)
        }
        Err(error) => {
            give_up(client, checkpoint, error.into(), core)?;
            Ok(true)
        }
    }
}

/// Passes the next region in the checkpoint's audit, whose state stays where it is. None where the client is in no such audit,
/// or has passed each.
pub(crate) fn certify_next<V: Store>(
    client: &mut Client<'_>,
    core: &mut Core<V>,
) -> Option<Result<bool, OutOfMemory>>
    ensures step { IfSome result (λ stepped. (precheck : Bool) → MakesStep V.Store precheck client.old.state client.old core.old.regions.items core.old.system.state core.old.vault stepped client.new core.new.regions.items core.new.system.state core.new.vault) }
    ensures on { IfSome result (λ stepped. IfOk stepped (λ went. went ≡ true)) }
    ensures past { result ≡ None → (client.new ≡ client.old) × (core.new ≡ core.old) × ((checkpoint : Checkpointed) (audit : Audited) (next : ℕ) → client.old.state ≡ IsCertifying checkpoint audit next → length core.old.regions.items ≤ next) }
{
    let State::Certifying { audit, next, .. } = &mut client.state else {
        return None;
    };
    if (*next as usize) >= core.regions.len() {
        return None;
    }
    if !audit.waits(*next) {
        return Some(no_run());
    }
    audit.pass(*next, &mut core.regions[*next as usize]);
    *next += 1;
    Some(Ok(true))
}

/// Ends the checkpoint's audit, and the checkpoint; where it is clean the image becomes the current one.
pub(crate) fn finish_audit<V: Store>(
    client: &mut Client<'_>,
    checkpoint: Checkpoint,
    audit: Audit,
    next: u32,
    alloc: Global,
    core: &mut Core<V>,
) -> Result<bool, OutOfMemory>
    requires stands { client.old.state ≡ IsOutside }
    requires all { length core.old.regions.items ≤ next }
    ensures goes { (precheck : Bool) → StepGoes V.Store precheck (IsCertifying checkpoint audit next) client.old core.old.regions.items core.old.system.state core.old.vault (is_ok result) client.new core.new.regions.items core.new.system.state core.new.vault }
    ensures places { PlacesGo V.told (IsCertifying checkpoint audit next) core.old.regions.items core.old.vault client.new.state core.new.regions.items core.new.vault }
    ensures on { IfOk result (λ went. went ≡ true) }
    ensures any_moment { StepLeavesRight V.Store (IsCertifying checkpoint audit next) client.old core.old.regions.items core.old.system.state core.old.vault core.new.system.state core.new.vault }
    ensures refuses { SaysStop core.old.system.state IsOutside IsCheckpoint client.old result client.new }
{
    if !audit.has_passed_all() || !may_certify(&checkpoint, &audit) || !has_room(&core.vault) {
        return no_run();
    }
    match audit.end(&mut core.system) {
        Ok(verdict) => {
            let made = checkpoint.certify(alloc, verdict, &mut core.system, &mut core.vault);
            end(client, made)?;
            Ok(true)
        }
        Err(error) => {
            give_up(client, checkpoint, error.into(), core)?;
            Ok(true)
        }
    }
}
