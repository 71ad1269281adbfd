//! A new database that holds the rows of the source.
ghost use Rattle.std.specs.Prelude.{◌≡◌, ◌≤◌, List, ℕ, Some, [], true, false, ◌↔◌, IfErr, IfOk, IsErrOf, OnErr, OnOk, length};
ghost use Rattle.dali_load.specs.Answers.{expected};
ghost use Rattle.dali_load.specs.Scripts.{script_of as script_for};
ghost use Rattle.dali_streams.specs.Streams.{Appends};
ghost use Rattle.dali_run.specs.Ends.{EndedLoad, course};
ghost use Rattle.dali_run.specs.Halts.{status_in};
ghost use Rattle.dali_run.specs.Loading.{Disproved, FindsRows, HasRoom, HasRows, IsLoadable, Loads, NoRows, NotFoundRows, NotLoads, Refuses, StoreStops};
ghost use Rattle.dali_run.specs.Scripts.{RanWhole};
ghost use Rattle.dali_run.specs.Told.{AreFit};
ghost use Rattle.dali_run.specs.declared.status.Status.TheVariants as statuses;

use crate::halt::Halt;
use crate::looking::{CELLS, ENTRIES, look};
use crate::scripts::run_script;
use crate::setting::Setting;
use crate::texts::{text_of_line, write_whole};
use dali_calls::stepwise::Gate;
use dali_listing::Listed;
use dali_load::{Verdict, are_same, judge, rows, script_of};
use dali_report::Line;
use dali_script::{Script, ScriptError};
use dali_store::Store;
use dali_streams::{MemorySink, Sink, Source, read_all};
use std::alloc::Global;

/// How many bytes a source of rows has at most.
pub const SOURCE_LIMIT: usize = 268_435_456;

// All of the source is read, then its rows.
fn read_rows<S: Source>(alloc: Global, source: &mut S) -> Result<Vec<Listed>, Halt>
    ensures read { IfOk result (λ rows. HasRows (S.left source.old) rows.items (S.left source.new)) }
    ensures fails { IfErr result (λ halt. NoRows S.Source source.old source.new halt) }
    ensures kept { (IsErrOf result Halt.ReadFault → ⊥) → S.faults source.new ≡ S.faults source.old }
{
    let bytes = read_all(alloc, source, SOURCE_LIMIT)?;
    match rows(alloc, &bytes) {
        Ok(rows) => Ok(rows),
        Err(ScriptError::BadLine { line, kind }) => Err(Halt::BadScript { line, kind }),
        Err(ScriptError::OutOfMemory) => Err(Halt::OutOfMemory),
    }
}

// Runs a script whose lines stay in memory.
fn run_in_memory<V: Store, G: Gate>(
    setting: &Setting<'_, G>,
    script: &Script,
    store: V,
) -> (V, Result<MemorySink, Halt>)
    requires limit { setting.now.limit ≤ 268435456 }
    requires fit { AreFit script.now }
    ensures whole { IfOk result.1 (λ sink. RanWhole V.Store setting.now.limit setting.now.precheck store script.now
        (Some []) (Some sink.taken) result.0) }
    ensures stops { IfErr result.1
        (λ halt. StoreStops V.Store setting.now.limit setting.now.precheck halt store script.now result.0) }
{
    let mut sink = MemorySink::new(setting.alloc, usize::MAX, Vec::new(setting.alloc));
    let (store, run) = run_script(setting, script, &mut sink, store);
    match run {
        Ok(()) => (store, Ok(sink)),
        Err(Halt::WriteFault) => (store, Err(Halt::OutOfMemory)),
        Err(halt) => (store, Err(halt)),
    }
}

// Whether the lines say that all went well.
fn judged(alloc: Global, count: usize, lines: &[u8]) -> Result<(), Halt>
    ensures well { OnOk result (lines.now ≡ expected count) }
    ensures refused { IfErr result (λ halt. Refuses count lines.now halt) }
{
    match judge(alloc, count, lines)? {
        Verdict::AllWell => Ok(()),
        Verdict::TooSmall => Err(Halt::TooSmall),
        Verdict::LogFull { end, limit } => Err(Halt::LogFull { end, limit }),
        Verdict::NotLoaded => Err(Halt::NotLoaded),
    }
}

// Whether a restart would find just these rows.
fn found<V: Store>(alloc: Global, rows: &[Listed], store: &mut V) -> Result<(), Halt>
    ensures finds { OnOk result (FindsRows V.Store rows.now store.old store.new) }
    ensures fails { IfErr result (λ halt. NotFoundRows V.Store rows.now halt store.old store.new) }
{
    match look(alloc, store) {
        Ok(found) => {
            let listed = found.records(alloc)?;
            if are_same(rows, &listed) {
                Ok(())
            } else {
                Err(Halt::NotLoaded)
            }
        }
        Err(halt) => Err(halt),
    }
}

// The lines are judged, and the rows looked for.
fn proved<V: Store>(
    alloc: Global,
    rows: &[Listed],
    lines: &[u8],
    mut store: V,
) -> (V, Result<(), Halt>)
    ensures well { OnOk result.1 ((lines.now ≡ expected (length rows.now)) × FindsRows V.Store rows.now store result.0) }
    ensures fails { IfErr result.1 (λ halt. Disproved V.Store rows.now lines.now halt store result.0) }
{
    match judged(alloc, rows.len(), lines) {
        Ok(()) => {
            let found = found(alloc, rows, &mut store);
            (store, found)
        }
        Err(halt) => (store, Err(halt)),
    }
}

// Whether a heap has a cell for each row, and an index an entry.
fn has_room(index: u32, heap: u32, rows: &[Listed]) -> bool
    requires index { index ≤ 32768 }
    requires heap { heap ≤ 65536 }
    ensures { result ≡ true ↔ HasRoom index heap rows.now }
{
    let count = rows.len() as u64;
    count <= CELLS * u64::from(heap) && count <= ENTRIES * u64::from(index)
}

// The rows are stored, and looked for again; where they have no room, nothing is done.
fn store_rows<V: Store, G: Gate>(
    setting: &Setting<'_, G>,
    index: u32,
    heap: u32,
    rows: &[Listed],
    store: V,
) -> (V, Result<(), Halt>)
    requires index { index ≤ 32768 }
    requires heap { heap ≤ 65536 }
    requires loadable { IsLoadable index heap rows.now }
    requires limit { setting.now.limit ≡ 268435456 }
    requires unchecked { setting.now.precheck ≡ false }
    ensures done { OnOk result.1 (Loads V.Store index heap rows.now store result.0) }
    ensures stops { IfErr result.1 (λ halt. NotLoads V.Store index heap rows.now halt store result.0) }
{
    if !has_room(index, heap, rows) {
        return (store, Err(Halt::TooSmall));
    }
    let Ok(script) = script_of(setting.alloc, index, heap, rows) else {
        return (store, Err(Halt::OutOfMemory));
    };
    let (store, lines) = run_in_memory(setting, &script, store);
    match lines {
        Ok(sink) => proved(setting.alloc, rows, sink.taken(), store),
        Err(halt) => (store, Err(halt)),
    }
}

/// Makes a database of so many regions over the store, and stores there the rows that the source has, in transactions of
/// seven, with a checkpoint behind them. They are read back from the store and compared; only then is their number
/// written. The last line isn't written yet. Where they are more than the heap has cells, or the index entries, it is
/// `TooSmall` at once, and the store is as it was; it is `TooSmall` too where the run finds heap or index full.
pub fn load<S: Source, K: Sink, V: Store, G: Gate>(
    setting: &Setting<'_, G>,
    index: u32,
    heap: u32,
    source: &mut S,
    sink: &mut K,
    store: V,
) -> (V, Result<(), Halt>)
    requires index { (1 ≤ index) × (index ≤ 32768) }
    requires heap { (1 ≤ heap) × (heap ≤ 65536) }
    requires limit { setting.now.limit ≡ 268435456 }
    requires unchecked { setting.now.precheck ≡ false }
    ensures ended { EndedLoad V.Store index heap (course S.Source K.Sink source.old source.new sink.old sink.new store
        result.0) (K.taken sink.new) (K.faults sink.new) (status_in result.1) }
    ensures later { K.faults sink.old ≤ K.faults sink.new }
    ensures kept { (IsErrOf result.1 Halt.WriteFault → ⊥) → K.faults sink.new ≡ K.faults sink.old }
    ensures read { (status_in result.1 ≡ statuses.ReadFault → ⊥) → S.faults source.new ≡ S.faults source.old }
{
    let rows = match read_rows(setting.alloc, source) {
        Ok(rows) => rows,
        Err(halt) => return (store, Err(halt)),
    };
    let count = rows.len() as u64;
    let Ok(text) = text_of_line(setting.alloc, &Line::Records { count }) else {
        return (store, Err(Halt::OutOfMemory));
    };
    let (store, stored) = store_rows(setting, index, heap, &rows, store);
    match stored {
        Ok(()) => {
            let written = write_whole(sink, &text);
            (store, written)
        }
        Err(halt) => (store, Err(halt)),
    }
}
