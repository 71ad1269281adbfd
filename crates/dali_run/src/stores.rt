//! The commands that make a database, find it, or change the store.
ghost use Rattle.std.specs.Prelude.{◌≡◌, ◌≤◌, ◌<◌, ◌∷◌, [], IfOk, IfErr};
ghost use Rattle.dali_geometry.specs.Sizes.{AreInRange};
ghost use Rattle.dali_fuse.specs.Fuse.{inner, failed_of};
ghost use Rattle.dali_report.specs.Lines.{texts};
ghost use Rattle.dali_report.specs.declared.printed.Line.TheVariants as lines;
ghost use Rattle.dali_restart.specs.declared.error.RestartError.TheVariants.{Fault};
ghost use Rattle.dali_script.specs.declared.commands.Command.TheVariants as commands;
ghost use Rattle.dali_run.specs.declared.halt.Halt.TheVariants.{OutOfMemory};
ghost use Rattle.dali_run.specs.Fails.{Fails, HaltsWith};
ghost use Rattle.dali_run.specs.Program.{HoldsImages, store_of};
ghost use Rattle.dali_run.specs.Steps.{StepsSize, StepsRestart, StepsCrash, StepsFuse};
ghost use Rattle.dali_run.specs.Told.{sizes_of};

use crate::halt::Halt;
use crate::program::Program;
use crate::setting::Setting;
use crate::texts::{text_of_line, text_of_restart};
use dali_calls::stepwise::Gate;
use dali_fuse::Fuse;
use dali_geometry::Geometry;
use dali_report::Line;
use dali_restart::{RestartError, format, restart};
use dali_store::{Store, StoreFault};
use std::alloc::Global;

/// Makes a database.
pub fn size<V: Store, G: Gate>(
    setting: &Setting<'_, G>,
    index: u32,
    heap: u32,
    program: Program<V>,
) -> (Program<V>, Result<Vec<u8>, Halt>)
    requires sizes { AreInRange (sizes_of index heap) }
    requires limit { setting.now.limit ≤ 268435456 }
    ensures steps { IfOk result.1 (λ text. StepsSize V.Store setting.now.limit index heap program text.items result.0) }
    ensures fails { IfErr result.1
        (λ halt. Fails V.Store setting.now.precheck halt (commands.Size index heap) program (store_of result.0)) }
    ensures images { HoldsImages V.Store result.0 }
{
    let Ok(geometry) = Geometry::new(index, heap) else {
        unreachable!()
    };
    match format(setting.alloc, program.into_store(), geometry, setting.limit) {
        Ok(core) => (Program::Up { core }, Ok(Vec::new(setting.alloc))),
        Err(refused) => {
            let halt = Halt::from(refused.error);
            let store = refused.store;
            (Program::Down { store }, Err(halt))
        }
    }
}

// What a restart is answered by that hands out no core, where the fuse had failed so many calls before it.
fn refusal<V: Store>(
    alloc: Global,
    error: RestartError,
    failed: u64,
    store: &Fuse<V>,
) -> Result<Vec<u8>, Halt>
    ensures line { IfOk result (λ text. (error ≡ Fault) × (failed < failed_of store.now) × (text.items ≡ texts (lines.RestartStoreStopped ∷ []))) }
    ensures halts { IfErr result (λ halt. HaltsWith error failed (failed_of store.now) halt) }
{
    if error == RestartError::Fault && store.failed() > failed {
        return text_of_line(alloc, &Line::RestartStoreStopped);
    }
    Err(Halt::from(error))
}

/// Gives the memory up, and finds the database in the store's files.
pub fn open<V: Store, G: Gate>(
    setting: &Setting<'_, G>,
    program: Program<V>,
) -> (Program<V>, Result<Vec<u8>, Halt>)
    requires limit { setting.now.limit ≤ 268435456 }
    ensures steps { IfOk result.1 (λ text. StepsRestart V.Store setting.now.limit program text.items result.0) }
    ensures fails { IfErr result.1
        (λ halt. Fails V.Store setting.now.precheck halt commands.Restart program (store_of result.0)) }
    ensures images { HoldsImages V.Store result.0 }
{
    let store = program.into_store();
    let failed = store.failed();
    match restart(setting.alloc, store, setting.limit) {
        Ok((core, report)) => {
            let text = text_of_restart(setting.alloc, report.rolled_back, report.deleted);
            (Program::Up { core }, text)
        }
        Err(refused) => {
            let store = refused.store;
            let printed = refusal(setting.alloc, refused.error, failed, &store);
            (Program::Down { store }, printed)
        }
    }
}

/// A crash removes the fuse, and the program is down.
pub fn crash<V: Store, G: Gate>(
    setting: &Setting<'_, G>,
    choice: u32,
    program: Program<V>,
) -> (Program<V>, Result<Vec<u8>, Halt>)
    ensures steps { IfOk result.1 (λ text. StepsCrash V.Store setting.now.limit choice program text.items result.0) }
    ensures fails { IfErr result.1
        (λ halt. Fails V.Store setting.now.precheck halt (commands.Crash choice) program (store_of result.0)) }
    ensures images { HoldsImages V.Store result.0 }
{
    let mut store = program.into_store().into_inner();
    match store.cut(choice) {
        Ok(()) => {
            let text = text_of_line(setting.alloc, &Line::Crash { choice });
            (Program::down(store), text)
        }
        Err(StoreFault) => (Program::down(store), Err(Halt::StoreFault)),
    }
}

/// Lets the fuse pass so many calls from now on.
pub fn fuse<V: Store>(
    alloc: Global,
    passes: u64,
    program: Program<V>,
) -> (Program<V>, Result<Vec<u8>, Halt>)
    requires images { HoldsImages V.Store program }
    ensures steps { IfOk result.1 (λ text. StepsFuse passes program text.items result.0) }
    ensures memory { IfErr result.1 (λ halt. halt ≡ OutOfMemory) }
    ensures store { inner (store_of result.0) ≡ inner (store_of program) }
    ensures images { HoldsImages V.Store result.0 }
{
    let text = text_of_line(alloc, &Line::Fuse { passes });
    match program {
        Program::Up { mut core } => {
            core.vault.set_fuse(Some(passes));
            (Program::Up { core }, text)
        }
        Program::Down { mut store } => {
            store.set(Some(passes));
            (Program::Down { store }, text)
        }
    }
}
