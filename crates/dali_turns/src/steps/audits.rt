//! The steps of an audit.
ghost use Rattle.std.specs.Prelude.{◌≡◌, ℕ, ◌<◌, ◌≤◌, ◌^◌, Bool, true, Some, None, is_ok, IfOk, IfSome, length};
ghost use Rattle.dali_audit.specs.Findings.{Audited};
ghost use Rattle.dali_transcripts.specs.declared.clients.command.Command.TheVariants.{Audit as IsAudit};
ghost use Rattle.dali_transcripts.specs.declared.clients.line.Line.TheVariants.{Refused as IsRefused};
ghost use Rattle.dali_turns.specs.declared.client.State.TheVariants.{Outside as IsOutside, Auditing as IsAuditing};
ghost use Rattle.dali_turns.specs.Clients.{next_of};
ghost use Rattle.dali_turns.specs.Goes.{StepGoes};
ghost use Rattle.dali_turns.specs.Moments.{StepLeavesRight};
ghost use Rattle.dali_turns.specs.Refuses.{SaysStop, RefusesNow};
ghost use Rattle.dali_turns.specs.Made.{MakesStep};
ghost use Rattle.dali_turns.specs.Places.{PlacesGo};

use crate::client::{Client, State};
use crate::run::no_run;
use crate::why::why_of;
use dali_audit::Audit;
use dali_bytes::OutOfMemory;
use dali_core::vault::Vault;
use dali_core::{Core, flush};
use dali_store::Store;
use dali_transcripts::clients::{Command, Line, Why};
use std::alloc::Global;

fn refused(why: Why) -> Line
    ensures { result ≡ IsRefused IsAudit why }
{
    Line::Refused {
        command: Command::Audit,
        why,
    }
}

/// Whether the log's end and the number of the current image leave room for what a step writes.
pub(crate) fn has_room<V: Store>(vault: &Vault<V>) -> bool
    ensures small { result ≡ true → (vault.now.end < 2 ^ 62) × (vault.now.current < 2 ^ 62) }
    ensures told { (vault.now.end < 2 ^ 62) × (vault.now.current < 2 ^ 62) → result ≡ true }
{
    vault.end() < 1 << 62 && vault.current() < 1 << 62
}

/// Logs that an audit begins.
pub(crate) fn start<V: Store>(
    client: &mut Client<'_>,
    alloc: Global,
    core: &mut Core<V>,
) -> Result<bool, OutOfMemory>
    requires next { next_of client.old ≡ Some IsAudit }
    requires stands { client.old.state ≡ IsOutside }
    ensures goes { (precheck : Bool) → StepGoes V.Store precheck IsOutside client.old core.old.regions.items core.old.system.state core.old.vault (is_ok result) client.new core.new.regions.items core.new.system.state core.new.vault }
    ensures places { PlacesGo V.told IsOutside core.old.regions.items core.old.vault client.new.state core.new.regions.items core.new.vault }
    ensures on { IfOk result (λ went. went ≡ true) }
    ensures vault { core.new.vault ≡ core.old.vault }
    ensures refuses { RefusesNow core.old.system.state IsAudit client.old result client.new }
{
    match Audit::begin(alloc, &mut core.system) {
        Ok(audit) => {
            client.state = State::Auditing { audit, next: 0 };
            Ok(true)
        }
        Err(error) => {
            let why = why_of(error)?;
            client.finish(State::Outside, refused(why))?;
            Ok(true)
        }
    }
}

/// Passes the next region of an audit, whose state stays where it is. None where the client is in no audit, or has passed each.
pub(crate) fn audit_next<V: Store>(
    client: &mut Client<'_>,
    core: &mut Core<V>,
) -> Option<Result<bool, OutOfMemory>>
    ensures step { IfSome result (λ stepped. (precheck : Bool) → MakesStep V.Store precheck client.old.state client.old core.old.regions.items core.old.system.state core.old.vault stepped client.new core.new.regions.items core.new.system.state core.new.vault) }
    ensures on { IfSome result (λ stepped. IfOk stepped (λ went. went ≡ true)) }
    ensures past { result ≡ None → (client.new ≡ client.old) × (core.new ≡ core.old) × ((audit : Audited) (next : ℕ) → client.old.state ≡ IsAuditing audit next → length core.old.regions.items ≤ next) }
{
    let State::Auditing { audit, next } = &mut client.state else {
        return None;
    };
    if (*next as usize) >= core.regions.len() {
        return None;
    }
    if !audit.waits(*next) {
        return Some(no_run());
    }
    audit.pass(*next, &mut core.regions[*next as usize]);
    *next += 1;
    Some(Ok(true))
}

/// Logs what the audit found, and flushes it.
pub(crate) fn end<V: Store>(
    client: &mut Client<'_>,
    audit: Audit,
    next: u32,
    alloc: Global,
    core: &mut Core<V>,
) -> Result<bool, OutOfMemory>
    requires stands { client.old.state ≡ IsOutside }
    requires all { length core.old.regions.items ≤ next }
    ensures goes { (precheck : Bool) → StepGoes V.Store precheck (IsAuditing audit next) client.old core.old.regions.items core.old.system.state core.old.vault (is_ok result) client.new core.new.regions.items core.new.system.state core.new.vault }
    ensures places { PlacesGo V.told (IsAuditing audit next) core.old.regions.items core.old.vault client.new.state core.new.regions.items core.new.vault }
    ensures on { IfOk result (λ went. went ≡ true) }
    ensures any_moment { StepLeavesRight V.Store (IsAuditing audit next) client.old core.old.regions.items core.old.system.state core.old.vault core.new.system.state core.new.vault }
    ensures refuses { SaysStop core.old.system.state IsOutside IsAudit client.old result client.new }
{
    if !audit.has_passed_all() || !has_room(&core.vault) {
        return no_run();
    }
    let verdict = match audit.end(&mut core.system) {
        Ok(verdict) => verdict,
        Err(error) => {
            let why = why_of(error)?;
            client.finish(State::Outside, refused(why))?;
            return Ok(true);
        }
    };
    match flush(core, alloc) {
        Ok(()) => {
            let failing = verdict.into_failing();
            client.finish(State::Outside, Line::Audited { failing })?;
            Ok(true)
        }
        Err(_) => {
            client.finish(State::Outside, refused(Why::StoreStopped))?;
            Ok(true)
        }
    }
}
