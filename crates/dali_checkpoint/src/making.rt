//! A whole checkpoint, by a thread that has a core to itself.
ghost use Rattle.std.specs.Prelude.{◌≡◌, ◌<◌, ◌≤◌, ◌+◌, ◌*◌, ◌^◌, [], true, false, is_some, Ok, Some, None, Err, OnOk, OnErr, IfOk, IfErr, IfSome, length, map};
ghost use Rattle.dali_geometry.specs.Places.{regions as regions_of};
ghost use Rattle.dali_record.specs.declared.records.Record.TheVariants.{AuditBegin};
ghost use Rattle.dali_region.specs.State.{checked};
ghost use Rattle.dali_store.specs.Calls.{fewer};
ghost use Rattle.dali_system.specs.Audits.{audit_refusal};
ghost use Rattle.dali_crash.specs.Checkpoints;
ghost use Rattle.dali_audit.specs.declared.audit.Finding.TheVariants.{Waiting};
ghost use Rattle.dali_core.specs.Cores.{HoldsPlaces, IsWholeCore};
ghost use Rattle.dali_checkpoint.specs.Kept.{side_in, cause_of};
ghost use Rattle.dali_checkpoint.specs.Done.{Reaches};
ghost use Rattle.dali_checkpoint.specs.Making.{found_in, failing_in, with_audit, behind_checkpoint, checkpointed, checkpoint_calls, AuditLeft, AuditRefused, HasNotMade, LeadsIdle, StaysRight, CopiesStayRight, ImageStaysRight, HasCopied, HasNotCopied, HasImage, HasNoImage, HasMade, HasEndedBy};
ghost use Rattle.dali_checkpoint.specs.declared.error.CheckpointError.TheVariants.{InProgress, Stopped, Failed, Fault};

use crate::checkpoint::Checkpoint;
use crate::error::CheckpointError;
use dali_audit::{Audit, Verdict};
use dali_core::Core;
use dali_core::vault::Vault;
use dali_region::Region;
use dali_store::Store;
use dali_system::{System, SystemError};
use std::alloc::Global;

// Copies all regions, run by run.
fn copy_all<V: Store>(
    checkpoint: &mut Checkpoint,
    regions: &mut [Region],
    vault: &mut Vault<V>,
) -> Result<(), CheckpointError>
    requires first { checkpoint.old.copied ≡ 0 }
    requires all { length regions.old ≡ regions_of checkpoint.old.header.geometry }
    requires few { length regions.old < 2 ^ 32 }
    requires reaches { Reaches V.told (side_in checkpoint.old) 0 vault.old }
    requires places { IfSome (V.told vault.old.store) (HoldsPlaces regions.old) }
    requires runs { vault.old.stopped ≡ false }
    ensures ok { OnOk result (HasCopied V.Store checkpoint.old regions.old vault.old checkpoint.new regions.new vault.new) }
    ensures fault { OnErr result ((result ≡ Err Fault) × HasNotCopied V.Store checkpoint.old regions.old vault.old checkpoint.new regions.new vault.new) }
    ensures end { vault.new.end ≡ vault.old.end }
    ensures tells { is_some (V.told vault.new.store) ≡ is_some (V.told vault.old.store) }
    ensures any_moment { CopiesStayRight V.Store regions.old vault.old checkpoint.old vault.new }
{
    while (checkpoint.copied() as usize) < regions.len() {
        match checkpoint.copy_run(regions, vault) {
            Ok(()) => {}
            Err(error) => return Err(error),
        }
    }
    Ok(())
}

/// Passes all regions, one after another.
pub fn pass_all(audit: &mut Audit, regions: &mut [Region])
    requires all { audit.old.findings ≡ map (λ _. Waiting) regions.old }
    requires few { length regions.old < 2 ^ 32 }
    ensures found { audit.new ≡ record audit.old { findings = map found_in regions.old } }
    ensures regions { regions.new ≡ map checked regions.old }
{
    let count = regions.len();
    for number in 0..count {
        audit.pass(number as u32, &mut regions[number]);
    }
}

// Audits all regions.
fn audit_all(
    alloc: Global,
    system: &mut System,
    regions: &mut [Region],
) -> Result<Verdict, SystemError>
    requires all { length regions.old ≡ regions_of system.old.state.sizes }
    requires few { length regions.old < 2 ^ 32 }
    ensures verdict { IfOk result (λ verdict. verdict ≡ record { begin = system.old.state.records; failing = failing_in regions.old }) }
    ensures ok { OnOk result ((system.new ≡ record system.old { state = with_audit system.old.state (failing_in regions.old) }) × (regions.new ≡ map checked regions.old)) }
    ensures room { OnOk result (audit_refusal system.old.state AuditBegin ≡ None) }
    ensures refused { IfErr result (AuditRefused system.old.state) }
    ensures left { OnErr result (AuditLeft regions.old system.old.state regions.new system.new.state) }
    ensures promised { system.new.promised ≡ system.old.promised }
{
    let mut audit = match Audit::begin(alloc, system) {
        Ok(audit) => audit,
        Err(error) => return Err(error),
    };
    pass_all(&mut audit, regions);
    match audit.end(system) {
        Ok(verdict) => Ok(verdict),
        Err(error) => Err(error),
    }
}

// Copies all regions, settles the image, and audits it.
fn write_image<V: Store>(
    alloc: Global,
    checkpoint: &mut Checkpoint,
    regions: &mut [Region],
    system: &mut System,
    vault: &mut Vault<V>,
) -> Result<Verdict, CheckpointError>
    requires first { checkpoint.old.copied ≡ 0 }
    requires none_failed { checkpoint.old.faulted ≡ false }
    requires sizes { checkpoint.old.header.geometry ≡ system.old.state.sizes }
    requires all { length regions.old ≡ regions_of system.old.state.sizes }
    requires reaches { Reaches V.told (side_in checkpoint.old) 0 vault.old }
    requires places { IfSome (V.told vault.old.store) (HoldsPlaces regions.old) }
    requires runs { cause_of system.old.state vault.old ≡ None }
    requires end { vault.old.end < 2 ^ 62 }
    ensures ok { IfOk result (λ verdict. HasImage V.Store regions.old system.old.state vault.old checkpoint.old verdict regions.new system.new.state vault.new checkpoint.new) }
    ensures err { IfErr result (λ error. HasNoImage V.Store regions.old system.old.state vault.old checkpoint.old error regions.new system.new.state vault.new checkpoint.new) }
    ensures tells { is_some (V.told vault.new.store) ≡ is_some (V.told vault.old.store) }
    ensures any_moment { ImageStaysRight V.Store regions.old system.old.state vault.old checkpoint.old vault.new }
    ensures grows { vault.new.end ≤ vault.old.end + 2 ^ 31 }
    ensures promised { system.new.promised ≡ system.old.promised }
{
    let _count = system.geometry().regions();
    match copy_all(checkpoint, regions, vault) {
        Ok(()) => {}
        Err(error) => return Err(error),
    }
    match checkpoint.settle(alloc, system, vault) {
        Ok(()) => {}
        Err(error) => return Err(error),
    }
    match audit_all(alloc, system, regions) {
        Ok(verdict) => Ok(verdict),
        Err(error) => Err(CheckpointError::from(error)),
    }
}

// A whole checkpoint of a core whose parts stand apart.
fn make_apart<V: Store>(
    alloc: Global,
    regions: &mut [Region],
    system: &mut System,
    vault: &mut Vault<V>,
) -> Result<u64, CheckpointError>
    requires whole { IsWholeCore V.told regions.old system.old.state vault.old }
    requires end { vault.old.end < 2 ^ 61 }
    requires current { vault.old.current < 2 ^ 62 }
    ensures ok { IfOk result (λ number. HasMade V.Store regions.old system.old.state vault.old number regions.new system.new.state vault.new) }
    ensures err { IfErr result (λ error. HasEndedBy V.Store regions.old system.old.state vault.old error regions.new system.new.state vault.new) }
    ensures tells { is_some (V.told vault.new.store) ≡ is_some (V.told vault.old.store) }
    ensures any_moment { StaysRight V.Store regions.old system.old.state vault.old vault.new }
    ensures grows { vault.new.end ≤ vault.old.end + 3 * 2 ^ 31 }
    ensures promised { system.new.promised ≡ system.old.promised }
{
    let _first = system.first();
    let mut checkpoint = match Checkpoint::start(alloc, system, vault) {
        Ok(checkpoint) => checkpoint,
        Err(error) => return Err(error),
    };
    match write_image(alloc, &mut checkpoint, regions, system, vault) {
        Ok(verdict) => checkpoint.certify(alloc, verdict, system, vault),
        Err(error) => {
            checkpoint.give_up(system);
            Err(error)
        }
    }
}

// A whole checkpoint of a core.
fn make<V: Store>(alloc: Global, core: &mut Core<V>) -> Result<u64, CheckpointError>
    requires whole { IsWholeCore V.told core.old.regions.items core.old.system.state core.old.vault }
    requires end { core.old.vault.end < 2 ^ 61 }
    requires current { core.old.vault.current < 2 ^ 62 }
    ensures ok { IfOk result (λ number. HasMade V.Store core.old.regions.items core.old.system.state core.old.vault number core.new.regions.items core.new.system.state core.new.vault) }
    ensures err { IfErr result (λ error. HasEndedBy V.Store core.old.regions.items core.old.system.state core.old.vault error core.new.regions.items core.new.system.state core.new.vault) }
    ensures tells { is_some (V.told core.new.vault.store) ≡ is_some (V.told core.old.vault.store) }
    ensures any_moment { StaysRight V.Store core.old.regions.items core.old.system.state core.old.vault core.new.vault }
    ensures grows { core.new.vault.end ≤ core.old.vault.end + 3 * 2 ^ 31 }
    ensures promised { core.new.system.promised ≡ core.old.system.promised }
{
    make_apart(alloc, &mut core.regions, &mut core.system, &mut core.vault)
}

/// A whole checkpoint of a core, for a thread that has the core to itself: it starts, copies all regions, settles, audits
/// all regions, and moves the anchor to the image where the audit found nothing. It answers the number of the image, which
/// is the current one then. The flags of all regions for it are clear, and the log has an audit's begin and end behind what
/// stood there.
///
/// `InProgress` exactly where a checkpoint is under way, else `Stopped` exactly where engine or vault is stopped, with that
/// cause, and nothing changes then. `Failed` with the regions whose words differ from their codeword: the audit's end names
/// them, and the engine stops for the least of them. `LogFull` where the log has no room for an audit's begin, `OutOfMemory`
/// where memory for the table or the audit is refused: then the engine runs on. `Fault` only where the store's count of
/// faults rose, and then vault and engine stop. Behind each of these four the current image is the one that was, and no
/// checkpoint is under way. A whole core is whole behind every answer, and the log's end is at most 3 * 2^31 bytes further
/// on, so that who knows where it was knows whether the next checkpoint may be asked for. Behind `Failed` all records are
/// flushed, those of the audit among them.
pub fn make_checkpoint<V: Store>(core: &mut Core<V>, alloc: Global) -> Result<u64, CheckpointError>
    requires whole { IsWholeCore V.told core.old.regions.items core.old.system.state core.old.vault }
    requires end { core.old.vault.end < 2 ^ 61 }
    requires current { core.old.vault.current < 2 ^ 62 }
    ensures ok { IfOk result (λ number. (number ≡ core.old.vault.current + 1) × (core.new.vault.current ≡ number) × (core.new.vault.stopped ≡ false)) }
    ensures clean { OnOk result (failing_in core.old.regions.items ≡ []) }
    ensures regions { OnOk result (core.new.regions.items ≡ checkpointed (Checkpoints.side_of (core.old.vault.current + 1)) core.old.regions.items) }
    ensures logged { OnOk result (core.new.system.state ≡ behind_checkpoint core.old.system.state []) }
    ensures room { OnOk result (audit_refusal core.old.system.state AuditBegin ≡ None) }
    ensures calls { OnOk result (V.lets_pass core.new.vault.store ≡ fewer (checkpoint_calls core.old.system.state (Checkpoints.side_of (core.old.vault.current + 1)) core.old.regions.items) (V.lets_pass core.old.vault.store)) }
    ensures in_progress { core.old.system.state.checking ≡ true → result ≡ Err InProgress }
    ensures stopped { core.old.system.state.checking ≡ false → IfSome (cause_of core.old.system.state core.old.vault) (λ cause. result ≡ Err (Stopped cause)) }
    ensures err { IfErr result (λ error. HasNotMade V.faults core.old.regions.items core.old.system.state core.old.vault error core.new.regions.items core.new.system.state core.new.vault) }
    ensures grows { core.new.vault.end ≤ core.old.vault.end + 3 * 2 ^ 31 }
    ensures promised { core.new.system.promised ≡ core.old.system.promised }
    ensures whole { IsWholeCore V.told core.new.regions.items core.new.system.state core.new.vault }
    ensures goes { LeadsIdle V.Store core.old.regions.items core.old.system.state core.old.vault core.new.regions.items core.new.system.state core.new.vault }
    ensures tells { is_some (V.told core.new.vault.store) ≡ is_some (V.told core.old.vault.store) }
    ensures any_moment { StaysRight V.Store core.old.regions.items core.old.system.state core.old.vault core.new.vault }
{
    make(alloc, core)
}
