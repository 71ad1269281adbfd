//! A script: it is read whole, then run command by command.
ghost use Rattle.std.specs.Prelude.{◌≡◌, ◌≤◌, ℕ, List, IfOk, IfErr, OnOk, IsErrOf};
ghost use Rattle.dali_streams.specs.Streams.{Appends};
ghost use Rattle.dali_run.specs.Ends.{EndedScript, course};
ghost use Rattle.dali_run.specs.Halts.{status_in};
ghost use Rattle.dali_run.specs.Program.{HoldsImages};
ghost use Rattle.dali_run.specs.Scripts.{Spells, RanWhole};
ghost use Rattle.dali_run.specs.Steps.{Steps};
ghost use Rattle.dali_run.specs.Stops.{NotRead, CommandStops, ScriptStops};
ghost use Rattle.dali_run.specs.Told.{IsFit, AreFit};
ghost use Rattle.dali_run.specs.declared.status.Status.TheVariants as statuses;

use crate::commands::step;
use crate::halt::Halt;
use crate::program::Program;
use crate::setting::Setting;
use dali_calls::stepwise::Gate;
use dali_script::{Command, Script, ScriptError, parse};
use dali_store::Store;
use dali_streams::{Sink, Source, read_all, write_all};
use std::alloc::Global;

/// How many bytes a script has at most.
pub const SCRIPT_LIMIT: usize = 1_048_576;

// All of the source is read, then the script.
fn read_script<S: Source>(alloc: Global, source: &mut S) -> Result<Script, Halt>
    ensures read { IfOk result (λ script. Spells (S.left source.old) script (S.left source.new)) }
    ensures fails { IfErr result (λ halt. NotRead S.Source source.old source.new halt) }
    ensures kept { (IsErrOf result Halt.ReadFault → ⊥) → S.faults source.new ≡ S.faults source.old }
{
    let bytes = read_all(alloc, source, SCRIPT_LIMIT)?;
    match parse(alloc, &bytes) {
        Ok(script) => Ok(script),
        Err(ScriptError::BadLine { line, kind }) => Err(Halt::BadScript { line, kind }),
        Err(ScriptError::OutOfMemory) => Err(Halt::OutOfMemory),
    }
}

// One command: its lines are written once it is done.
fn run_command<K: Sink, V: Store, G: Gate>(
    setting: &Setting<'_, G>,
    command: &Command,
    sink: &mut K,
    program: Program<V>,
) -> (Program<V>, Result<(), Halt>)
    requires limit { setting.now.limit ≤ 268435456 }
    requires fit { IsFit command.now }
    requires images { HoldsImages V.Store program }
    ensures done { OnOk result.1 ((text : List ℕ) × Steps V.Store setting.now.limit setting.now.precheck program
        command.now text result.0 × Appends (K.taken sink.old) text (K.taken sink.new)) }
    ensures stops { IfErr result.1 (λ halt. CommandStops V.Store K.Sink setting.now.limit setting.now.precheck halt
        command.now program result.0 sink.old sink.new) }
    ensures images { HoldsImages V.Store result.0 }
    ensures later { K.faults sink.old ≤ K.faults sink.new }
    ensures kept { (IsErrOf result.1 Halt.WriteFault → ⊥) → K.faults sink.new ≡ K.faults sink.old }
{
    let (program, printed) = step(setting, command, program);
    match printed {
        Ok(text) => match write_all(sink, &text) {
            Ok(()) => (program, Ok(())),
            Err(_) => (program, Err(Halt::WriteFault)),
        },
        Err(halt) => (program, Err(halt)),
    }
}

/// Runs the commands in order, over a program that is down at first. The store comes back.
pub fn run_script<K: Sink, V: Store, G: Gate>(
    setting: &Setting<'_, G>,
    script: &Script,
    sink: &mut K,
    store: V,
) -> (V, Result<(), Halt>)
    requires limit { setting.now.limit ≤ 268435456 }
    requires fit { AreFit script.now }
    ensures whole { OnOk result.1 (RanWhole V.Store setting.now.limit setting.now.precheck store script.now
        (K.taken sink.old) (K.taken sink.new) result.0) }
    ensures stops { IfErr result.1 (λ halt. ScriptStops V.Store K.Sink setting.now.limit setting.now.precheck halt store
        script.now result.0 sink.old sink.new) }
    ensures later { K.faults sink.old ≤ K.faults sink.new }
    ensures kept { (IsErrOf result.1 Halt.WriteFault → ⊥) → K.faults sink.new ≡ K.faults sink.old }
{
    let mut program = Program::down(store);
    for command in script.commands() {
        let (next, outcome) = run_command(setting, command, sink, program);
        if let Err(halt) = outcome {
            return (next.into_store().into_inner(), Err(halt));
        }
        program = next;
    }
    (program.into_store().into_inner(), Ok(()))
}

/// Reads a script from the source to its end, and runs it over the store. The last line isn't written yet.
pub fn run_source<S: Source, K: Sink, V: Store, G: Gate>(
    setting: &Setting<'_, G>,
    source: &mut S,
    sink: &mut K,
    store: V,
) -> (V, Result<(), Halt>)
    requires limit { setting.now.limit ≤ 268435456 }
    ensures ended { EndedScript V.Store setting.now.limit setting.now.precheck (course S.Source K.Sink source.old
        source.new sink.old sink.new store result.0) (K.taken sink.new) (K.faults sink.new) (status_in result.1) }
    ensures later { K.faults sink.old ≤ K.faults sink.new }
    ensures kept { (IsErrOf result.1 Halt.WriteFault → ⊥) → K.faults sink.new ≡ K.faults sink.old }
    ensures read { (status_in result.1 ≡ statuses.ReadFault → ⊥) → S.faults source.new ≡ S.faults source.old }
{
    match read_script(setting.alloc, source) {
        Ok(script) => run_script(setting, &script, sink, store),
        Err(halt) => (store, Err(halt)),
    }
}
