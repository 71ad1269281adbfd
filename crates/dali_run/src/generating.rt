//! A generated script, and the summary of what it leaves.
ghost use Rattle.std.specs.Prelude.{◌≡◌, ◌≤◌, List, ℕ, None, false, IfErr, IfOk, IsErrOf, OnOk, map, length};
ghost use Rattle.dali_transcripts.specs.Clients.Told.{said_of};
ghost use Rattle.dali_generator.specs.Generated.{AreWithin, generated, index_regions, heap_regions};
ghost use Rattle.dali_generator.specs.Summary.{summary_of};
ghost use Rattle.dali_listing.specs.Listing.{IsListing, in_memory};
ghost use Rattle.dali_listing.specs.declared.Listed.{Listed};
ghost use Rattle.dali_fuse.specs.Fuse.{inner};
ghost use Rattle.dali_script.specs.declared.commands.Command.TheVariants.{Size, Crash, Restart};
ghost use Rattle.dali_streams.specs.Streams.{Appends};
ghost use Rattle.dali_transcripts.specs.Rounds.{AreBlocks};
ghost use Rattle.dali_run.specs.declared.halt.Halt.TheVariants.{OutOfMemory};
ghost use Rattle.dali_run.specs.declared.program.Program.TheVariants.{Up};
ghost use Rattle.dali_run.specs.Ends.{Generates, GeneratorFinds};
ghost use Rattle.dali_run.specs.Generating.{full_in, full_among, first_full, halt_of_round, sum_of_keys, FailsIn, IsMade, IsRoundOf, NotRestarted, RoundStops};
ghost use Rattle.dali_run.specs.Program.{IsDown, PlacesIn, store_of};
ghost use Rattle.dali_run.specs.Steps.{StepsCrash, Restarts};
ghost use Rattle.dali_run.specs.Stops.{GeneratorEnds, GeneratorHalts};
ghost use Rattle.dali_run.specs.Told.{told_by};

use crate::blocks::blocks_of;
use crate::halt::Halt;
use crate::program::Program;
use crate::rounds::play;
use crate::setting::Setting;
use crate::stores::{crash, open, size as make};
use crate::texts::write_whole;
use dali_calls::stepwise::Gate;
use dali_core::Core;
use dali_fuse::Fuse;
use dali_generator::{blocks, heap_regions, index_regions, summary};
use dali_listing::{Listed, records};
use dali_runs::Cause;
use dali_script::Block;
use dali_store::Store;
use dali_streams::Sink;
use dali_transcripts::clients::{Line as Said, Transcript, Why};
use std::alloc::Global;

/// A run that ended before its summary.
#[derive(Drop)]
struct Stopped<V: Store> {
    store: V,
    halt: Halt,
}

// What a line ends the run with that says that the log is full.
fn full_in(said: &Said) -> Option<Halt>
    ensures { result ≡ full_in (said_of said.now) }
{
    match said {
        Said::Refused {
            why: Why::LogFull { end, limit },
            ..
        } => Some(Halt::LogFull {
            end: *end,
            limit: *limit,
        }),
        _ => None,
    }
}

fn full_among(lines: &[Said]) -> Option<Halt>
    ensures { result ≡ full_among (map said_of lines.now) }
{
    for said in lines {
        if let Some(halt) = full_in(said) {
            return Some(halt);
        }
    }
    None
}

fn first_full(transcripts: &[Transcript]) -> Option<Halt>
    ensures { result ≡ first_full transcripts.now }
{
    for transcript in transcripts {
        if let Some(halt) = full_among(transcript.lines()) {
            return Some(halt);
        }
    }
    None
}

// What ends the run behind its round: a full log, or else what stopped the engine, which is the store. Neither damage nor a
// fuse stops it, since nobody writes astray, and no fuse is set.
fn halt_of_round(transcripts: &[Transcript], stop: Option<Cause>, by_fuse: bool) -> Option<Halt>
    ensures { result ≡ halt_of_round transcripts.now stop by_fuse }
{
    let full = first_full(transcripts);
    if full.is_some() {
        return full;
    }
    match stop {
        Some(Cause::Store) => {
            if by_fuse {
                Some(Halt::OutOfMemory)
            } else {
                Some(Halt::StoreFault)
            }
        }
        Some(Cause::Damage { .. }) => Some(Halt::OutOfMemory),
        None => None,
    }
}

fn leave<V: Store>(program: Program<V>, halt: Halt) -> Stopped<V>
    ensures store { result.store ≡ inner (store_of program) }
    ensures halt { result.halt ≡ halt }
{
    Stopped {
        store: program.into_store().into_inner(),
        halt,
    }
}

fn give_up<V: Store>(core: Core<Fuse<V>>, halt: Halt) -> Stopped<V>
    ensures store { result.store ≡ inner core.vault.store }
    ensures halt { result.halt ≡ halt }
{
    leave(Program::Up { core }, halt)
}

// The database is made.
fn made<V: Store, G: Gate>(
    setting: &Setting<'_, G>,
    clients: u32,
    size: u32,
    store: V,
) -> Result<Core<Fuse<V>>, Stopped<V>>
    requires within { AreWithin clients size }
    requires limit { setting.now.limit ≤ 268435456 }
    requires unchecked { setting.now.precheck ≡ false }
    ensures made { IfOk result
        (λ core. IsMade V.Store setting.now.limit clients size store core × PlacesIn V.Store core) }
    ensures fails { IfErr result (λ s. (old : Program V) × IsDown old store
        × FailsIn V.Store s.halt (Size (index_regions clients size) (heap_regions clients size)) old s.store) }
{
    let (program, made) = make(
        setting,
        index_regions(clients, size),
        heap_regions(clients, size),
        Program::down(store),
    );
    if let Err(halt) = made {
        return Err(leave(program, halt));
    }
    match program {
        Program::Up { core } => Ok(core),
        Program::Down { .. } => unreachable!(),
    }
}

// The round is run.
fn played<V: Store, G: Gate>(
    setting: &Setting<'_, G>,
    told: &[Block],
    core: Core<Fuse<V>>,
) -> Result<Core<Fuse<V>>, Stopped<V>>
    requires placed { AreBlocks (map told_by told.now) }
    requires places { PlacesIn V.Store core }
    requires unchecked { setting.now.precheck ≡ false }
    ensures plays { IfOk result
        (λ played. IsRoundOf V.Store (map told_by told.now) core None played × PlacesIn V.Store played) }
    ensures stops { IfErr result (λ s. RoundStops V.Store (map told_by told.now) core s.halt s.store) }
{
    let Ok(blocks) = blocks_of(setting.alloc, told) else {
        return Err(give_up(core, Halt::OutOfMemory));
    };
    let failed = core.vault.failed();
    let (core, transcripts) = play(setting, &blocks, core);
    match transcripts {
        Ok(transcripts) => {
            let stop = core.system.stopped();
            let by_fuse = failed < core.vault.failed();
            match halt_of_round(&transcripts, stop, by_fuse) {
                None => Ok(core),
                Some(halt) => Err(give_up(core, halt)),
            }
        }
        Err(halt) => Err(give_up(core, halt)),
    }
}

// A crash that leaves what was written.
fn crashed<V: Store, G: Gate>(
    setting: &Setting<'_, G>,
    core: Core<Fuse<V>>,
) -> Result<Program<V>, Stopped<V>>
    requires unchecked { setting.now.precheck ≡ false }
    ensures crash { IfOk result
        (λ crashed. (text : List ℕ) × StepsCrash V.Store setting.now.limit 0 (Up core) text crashed) }
    ensures fails { IfErr result (λ s. FailsIn V.Store s.halt (Crash 0) (Up core) s.store) }
{
    let (program, crashed) = crash(setting, 0, Program::Up { core });
    if let Err(halt) = crashed {
        return Err(leave(program, halt));
    }
    Ok(program)
}

// The database is found again. No fuse is set; where one had failed a call, the store failed.
fn found<V: Store, G: Gate>(
    setting: &Setting<'_, G>,
    program: Program<V>,
) -> Result<Core<Fuse<V>>, Stopped<V>>
    requires limit { setting.now.limit ≤ 268435456 }
    requires unchecked { setting.now.precheck ≡ false }
    ensures finds { IfOk result (λ core. (text : List ℕ) × Restarts V.Store setting.now.limit program text (Up core)) }
    ensures fails { IfErr result (λ s. NotRestarted V.Store setting.now.limit program s.halt s.store) }
{
    let (program, found) = open(setting, program);
    if let Err(halt) = found {
        return Err(leave(program, halt));
    }
    match program {
        Program::Up { core } => Ok(core),
        Program::Down { store } => Err(leave(Program::Down { store }, Halt::StoreFault)),
    }
}

// The generated script is run to its end.
fn run_generated<V: Store, G: Gate>(
    setting: &Setting<'_, G>,
    clients: u32,
    size: u32,
    number: u64,
    store: V,
) -> Result<Core<Fuse<V>>, Stopped<V>>
    requires within { AreWithin clients size }
    requires limit { setting.now.limit ≡ 67108864 }
    requires unchecked { setting.now.precheck ≡ false }
    ensures finds { IfOk result (λ core. GeneratorFinds V.Store clients size number store core) }
    ensures ends { IfErr result (λ s. GeneratorEnds V.Store clients size number s.halt store s.store) }
{
    let Ok(blocks) = blocks(setting.alloc, clients, size, number) else {
        return Err(Stopped {
            store,
            halt: Halt::OutOfMemory,
        });
    };
    let core = made(setting, clients, size, store)?;
    let core = played(setting, &blocks, core)?;
    let program = crashed(setting, core)?;
    found(setting, program)
}

// The sum of the keys, modulo 2^64.
fn sum_of_keys(rows: &[Listed]) -> u64
    ensures { result ≡ sum_of_keys rows.now }
{
    let mut sum = 0_u64;
    for row in rows {
        sum = sum.wrapping_add(row.key);
    }
    sum
}

// The summary of the records in memory. Each restart leaves as many regions as the sizes say.
fn summarize<V: Store>(
    alloc: Global,
    clients: u32,
    size: u32,
    core: &Core<Fuse<V>>,
) -> Result<Vec<u8>, Halt>
    ensures summary { IfOk result (λ text. (rows : List Listed) × IsListing core.now.system.state.sizes (in_memory core.now.regions.items) rows
        × (text.items ≡ summary_of clients size (length rows) (sum_of_keys rows))) }
    ensures memory { IfErr result (λ halt. halt ≡ OutOfMemory) }
{
    let geometry = core.system.geometry();
    if core.regions.len() != geometry.regions() as usize {
        return Err(Halt::OutOfMemory);
    }
    let rows = records(alloc, &geometry, &core.regions)?;
    let text = summary(alloc, clients, size, rows.len() as u64, sum_of_keys(&rows))?;
    Ok(text)
}

/// Runs the script that these numbers generate over the store, and writes the summary of what it leaves.
pub fn generate<K: Sink, V: Store, G: Gate>(
    setting: &Setting<'_, G>,
    clients: u32,
    size: u32,
    number: u64,
    sink: &mut K,
    store: V,
) -> (V, Result<(), Halt>)
    requires within { AreWithin clients size }
    requires limit { setting.now.limit ≡ 67108864 }
    requires unchecked { setting.now.precheck ≡ false }
    ensures done { OnOk result.1 ((text : List ℕ) × Generates V.Store clients size number store text result.0
        × Appends (K.taken sink.old) text (K.taken sink.new)) }
    ensures stops { IfErr result.1
        (λ halt. GeneratorHalts V.Store K.Sink clients size number halt store result.0 sink.old sink.new) }
    ensures later { K.faults sink.old ≤ K.faults sink.new }
    ensures kept { (IsErrOf result.1 Halt.WriteFault → ⊥) → K.faults sink.new ≡ K.faults sink.old }
{
    match run_generated(setting, clients, size, number, store) {
        Ok(core) => {
            let printed = summarize(setting.alloc, clients, size, &core);
            let store = core.into_store().into_inner();
            match printed {
                Ok(text) => {
                    let written = write_whole(sink, &text);
                    (store, written)
                }
                Err(halt) => (store, Err(halt)),
            }
        }
        Err(stopped) => (stopped.store, Err(stopped.halt)),
    }
}
