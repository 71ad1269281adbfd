//! The clean-up of dead transactions, and the commands that begin with it.
ghost use Rattle.std.specs.Prelude.{◌≡◌, IfOk, IfErr, OnOk};
ghost use Rattle.dali_runs.specs.State.{state_of};
ghost use Rattle.dali_transcripts.specs.World.{is_dead_in};
ghost use Rattle.dali_calls.specs.Flags.{FlagsStay};
ghost use Rattle.dali_script.specs.declared.commands.Command.TheVariants as commands;
ghost use Rattle.dali_run.specs.declared.halt.Halt.TheVariants.{OutOfMemory};
ghost use Rattle.dali_run.specs.Fails.{Fails, FailsComparison};
ghost use Rattle.dali_run.specs.Program.{HoldsImages, store_of, told_in};
ghost use Rattle.dali_run.specs.Steps.{dead_in, CleansUp, CleansAll, HasCleaned, Lists, CleanupIn, ShowIn, VerifyIn, verdict, IsRead, EndsComparison, StepsCleanup, StepsShow, StepsVerify};

use crate::halt::Halt;
use crate::program::Program;
use crate::setting::Setting;
use crate::states::down;
use crate::texts::{text_of_line, text_of_records, text_of_stop};
use dali_att::State;
use dali_calls::stepwise::Gate;
use dali_clean::CleanError;
use dali_core::{Core, clean};
use dali_fuse::Fuse;
use dali_listing::records;
use dali_record::Numbers;
use dali_report::Line;
use dali_script::Name;
use dali_store::{FileName, Store};
use dali_system::System;
use dali_verify::VerifyError;
use std::alloc::{AllocError, Global};

fn is_dead(system: &System, txn: u64) -> bool
    ensures { result ≡ is_dead_in (state_of system.now.state txn) }
{
    matches!(system.state(txn), Some(State::Dead { .. }))
}

// The transactions whose clients died, ascending.
fn dead_in(system: &System) -> Result<Vec<u64>, AllocError>
    ensures { IfOk result (λ dead. dead.items ≡ dead_in system.now.state) }
{
    let mut dead = system.table().numbers()?;
    dead.retain(|number| is_dead(system, *number));
    Ok(dead)
}

// Cleans up one of them. Another's clean-up may have done so.
fn clean_up<V: Store>(core: &mut Core<Fuse<V>>, txn: u64) -> Result<(), Halt>
    ensures cleans { OnOk result (CleansUp V.Store txn core.old core.new) }
    ensures memory { IfErr result (λ halt. halt ≡ OutOfMemory) }
    ensures vault { core.new.vault ≡ core.old.vault }
    ensures flags { FlagsStay core.old.regions.items core.new.regions.items }
{
    match clean(core, txn) {
        Ok(()) | Err(CleanError::NotDead) => Ok(()),
        // an engine that ran still runs
        Err(CleanError::Stopped { .. }) | Err(CleanError::OutOfMemory) => Err(Halt::OutOfMemory),
    }
}

fn clean_all<V: Store>(core: &mut Core<Fuse<V>>, dead: &[u64]) -> Result<(), Halt>
    ensures cleans { OnOk result (CleansAll V.Store dead.now core.old core.new) }
    ensures memory { IfErr result (λ halt. halt ≡ OutOfMemory) }
    ensures vault { core.new.vault ≡ core.old.vault }
    ensures flags { FlagsStay core.old.regions.items core.new.regions.items }
{
    for txn in dead {
        clean_up(core, *txn)?;
    }
    Ok(())
}

// Cleans up all dead transactions, and answers which these were.
fn clean_dead<V: Store>(core: &mut Core<Fuse<V>>) -> Result<Vec<u64>, Halt>
    ensures dead { IfOk result (λ dead. dead.items ≡ dead_in core.old.system.state) }
    ensures cleaned { OnOk result (HasCleaned V.Store core.old core.new) }
    ensures memory { IfErr result (λ halt. halt ≡ OutOfMemory) }
    ensures vault { core.new.vault ≡ core.old.vault }
    ensures flags { FlagsStay core.old.regions.items core.new.regions.items }
{
    let dead = dead_in(&core.system)?;
    clean_all(core, &dead)?;
    Ok(dead)
}

fn cleanup_of<V: Store>(alloc: Global, core: &mut Core<Fuse<V>>) -> Result<Vec<u8>, Halt>
    ensures steps { IfOk result
        (λ text. CleanupIn V.Store core.old.system.state.stop core.old text.items (Program.Up core.new)) }
    ensures memory { IfErr result (λ halt. halt ≡ OutOfMemory) }
    ensures vault { core.new.vault ≡ core.old.vault }
    ensures flags { FlagsStay core.old.regions.items core.new.regions.items }
{
    match core.system.stopped() {
        Some(cause) => text_of_stop(alloc, Name::Cleanup, cause),
        None => {
            let dead = clean_dead(core)?;
            text_of_line(
                alloc,
                &Line::Cleaned {
                    transactions: Numbers::new(dead),
                },
            )
        }
    }
}

/// Takes back what dead clients left.
pub fn cleanup<V: Store>(alloc: Global, program: Program<V>) -> (Program<V>, Result<Vec<u8>, Halt>)
    requires images { HoldsImages V.Store program }
    ensures steps { IfOk result.1 (λ text. StepsCleanup V.Store program text.items result.0) }
    ensures memory { IfErr result.1 (λ halt. halt ≡ OutOfMemory) }
    ensures store { store_of result.0 ≡ store_of program }
    ensures images { HoldsImages V.Store result.0 }
{
    match program {
        Program::Up { mut core } => {
            let printed = cleanup_of(alloc, &mut core);
            (Program::Up { core }, printed)
        }
        Program::Down { store } => down(alloc, Name::Cleanup, store),
    }
}

// The records in memory. Each run leaves as many regions as the sizes say.
fn text_of_core<V: Store>(alloc: Global, core: &Core<Fuse<V>>) -> Result<Vec<u8>, Halt>
    ensures lists { IfOk result (λ text. Lists core.now text.items) }
    ensures memory { IfErr result (λ halt. halt ≡ OutOfMemory) }
{
    let geometry = core.system.geometry();
    if core.regions.len() != geometry.regions() as usize {
        return Err(Halt::OutOfMemory);
    }
    let rows = records(alloc, &geometry, &core.regions)?;
    text_of_records(alloc, &rows)
}

fn show_of<V: Store>(alloc: Global, core: &mut Core<Fuse<V>>) -> Result<Vec<u8>, Halt>
    ensures steps { IfOk result
        (λ text. ShowIn V.Store core.old.system.state.stop core.old text.items (Program.Up core.new)) }
    ensures memory { IfErr result (λ halt. halt ≡ OutOfMemory) }
    ensures vault { core.new.vault ≡ core.old.vault }
    ensures flags { FlagsStay core.old.regions.items core.new.regions.items }
{
    match core.system.stopped() {
        Some(cause) => text_of_stop(alloc, Name::Show, cause),
        None => {
            let _dead = clean_dead(core)?;
            text_of_core(alloc, core)
        }
    }
}

/// Lists the records, once dead transactions are cleaned up.
pub fn show<V: Store>(alloc: Global, program: Program<V>) -> (Program<V>, Result<Vec<u8>, Halt>)
    requires images { HoldsImages V.Store program }
    ensures steps { IfOk result.1 (λ text. StepsShow V.Store program text.items result.0) }
    ensures memory { IfErr result.1 (λ halt. halt ≡ OutOfMemory) }
    ensures store { store_of result.0 ≡ store_of program }
    ensures images { HoldsImages V.Store result.0 }
{
    match program {
        Program::Up { mut core } => {
            let printed = show_of(alloc, &mut core);
            (Program::Up { core }, printed)
        }
        Program::Down { store } => down(alloc, Name::Show, store),
    }
}

fn verdict(is: bool) -> Line
    ensures { result ≡ verdict is }
{
    if is {
        return Line::VerifyOk;
    }
    Line::VerifyDiffers
}

// Whether the core is what a replay of its log comes to. A failure that isn't the fuse's ends the run.
fn compare<V: Store>(alloc: Global, core: &mut Core<Fuse<V>>) -> Result<Vec<u8>, Halt>
    ensures ends { IfOk result (λ text. EndsComparison V.Store core.old text.items core.new) }
    ensures fails { IfErr result (λ halt. FailsComparison V.Store halt core.old core.new.vault.store) }
    ensures read { IsRead V.Store core.old core.new }
{
    let failed = core.vault.failed();
    match dali_verify::verify(alloc, core) {
        Ok(is) => text_of_line(alloc, &verdict(is)),
        Err(VerifyError::Fault) => {
            if core.vault.failed() <= failed {
                return Err(Halt::StoreFault);
            }
            text_of_line(alloc, &Line::VerifyStoreStopped)
        }
        Err(VerifyError::BadLog { at }) => Err(Halt::BadStore {
            file: FileName::Log,
            at,
        }),
        Err(VerifyError::OutOfMemory) => Err(Halt::OutOfMemory),
    }
}

fn verify_of<V: Store>(alloc: Global, core: &mut Core<Fuse<V>>) -> Result<Vec<u8>, Halt>
    ensures steps { IfOk result
        (λ text. VerifyIn V.Store core.old.system.state.stop core.old text.items (Program.Up core.new)) }
    ensures fails { IfErr result (λ halt. FailsComparison V.Store halt core.old core.new.vault.store) }
    ensures told { told_in V.Store core.new.vault.store ≡ told_in V.Store core.old.vault.store }
    ensures flags { FlagsStay core.old.regions.items core.new.regions.items }
{
    match core.system.stopped() {
        Some(cause) => text_of_stop(alloc, Name::Verify, cause),
        None => {
            clean_dead(core)?;
            compare(alloc, core)
        }
    }
}

/// Compares records, answers and deleted transactions with a replay of the log.
pub fn verify<V: Store, G: Gate>(
    setting: &Setting<'_, G>,
    program: Program<V>,
) -> (Program<V>, Result<Vec<u8>, Halt>)
    requires images { HoldsImages V.Store program }
    ensures steps { IfOk result.1 (λ text. StepsVerify V.Store program text.items result.0) }
    ensures fails { IfErr result.1
        (λ halt. Fails V.Store setting.now.precheck halt commands.Verify program (store_of result.0)) }
    ensures images { HoldsImages V.Store result.0 }
{
    match program {
        Program::Up { mut core } => {
            let printed = verify_of(setting.alloc, &mut core);
            (Program::Up { core }, printed)
        }
        Program::Down { store } => down(setting.alloc, Name::Verify, store),
    }
}
