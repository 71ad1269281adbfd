//! What the files of a store hold, told from a copy: the store is only read.
ghost use Rattle.std.specs.Prelude.{◌≡◌, ◌≤◌, ◌++◌, List, ℕ, IfOk, IfErr, IsErrOf, OnOk, length};
ghost use Rattle.dali_geometry.specs.Places.{regions as regions_of};
ghost use Rattle.dali_streams.specs.Streams.{Appends};
ghost use Rattle.dali_run.specs.declared.halt.Halt.TheVariants.{OutOfMemory};
ghost use Rattle.dali_run.specs.Looking.{image_text, sizes_text, status_text, two_in_line, Finds, Looks, NotLooked, TellsRecords, TellsStatus};
ghost use Rattle.dali_run.specs.Stops.{LookStops};

use crate::halt::Halt;
use crate::texts::{name_of, text_of_records, text_of_restart, write_whole};
use dali_inspect::{Image, Inspection, inspect};
use dali_report::{Line, line, put_text, put_with_number};
use dali_store::Store;
use dali_streams::Sink;
use std::alloc::{AllocError, Global};

/// How many cells a heap region has, and how many entries an index region.
pub(crate) const CELLS: u64 = 7;

pub(crate) const ENTRIES: u64 = 21;

/// How many bytes the log's records may have where the words don't say it.
const LOG_LIMIT: u64 = 67_108_864;

/// What a restart would find in the store, which is only read.
pub fn look<V: Store>(alloc: Global, store: &mut V) -> Result<Inspection, Halt>
    ensures finds { IfOk result (λ found. Finds V.Store found store.old store.new) }
    ensures fails { IfErr result (λ halt. NotLooked V.Store halt store.old store.new) }
{
    match inspect(alloc, store) {
        Ok(found) => Ok(found),
        Err(error) => Err(Halt::from(error)),
    }
}

// A line of two numbers, with a text before each.
fn put_two(
    first: &[u8],
    one: u64,
    then: &[u8],
    other: u64,
    into: &mut Vec<u8>,
) -> Result<(), AllocError>
    ensures { OnOk result (into.new.items ≡ into.old.items ++ two_in_line first.now one then.now other) }
{
    put_with_number(first, one, into)?;
    put_with_number(then, other, into)?;
    put_text(b"\n", into)?;
    Ok(())
}

// The line of the image.
fn put_image(image: Option<Image>, into: &mut Vec<u8>) -> Result<(), AllocError>
    ensures { OnOk result (into.new.items ≡ into.old.items ++ image_text image) }
{
    match image {
        Some(image) => {
            put_text(b"image ", into)?;
            put_text(name_of(image.file), into)?;
            put_two(b" ", image.record_number, b" at ", image.place, into)?;
            Ok(())
        }
        None => {
            put_text(b"image none\n", into)?;
            Ok(())
        }
    }
}

// The lines of sizes and of what is in use.
fn put_sizes(found: &Inspection, count: u64, into: &mut Vec<u8>) -> Result<(), AllocError>
    requires { length found.now.regions.items ≡ regions_of found.now.geometry }
    ensures { OnOk result (into.new.items ≡ into.old.items ++ sizes_text found.now count) }
{
    let index = u64::from(found.geometry.index());
    let heap = u64::from(found.geometry.heap());
    put_two(b"size ", index, b" ", heap, into)?;
    line(&Line::Records { count }, into)?;
    put_two(b"cells ", found.cells_in_use(), b" of ", CELLS * heap, into)?;
    put_two(
        b"entries ",
        found.entries_in_use(),
        b" of ",
        ENTRIES * index,
        into,
    )?;
    put_two(b"log ", found.end, b" of ", LOG_LIMIT, into)?;
    put_image(found.image, into)?;
    Ok(())
}

// The lines of a status.
fn text_of_status(alloc: Global, found: Inspection, count: u64) -> Result<Vec<u8>, Halt>
    requires { length found.regions.items ≡ regions_of found.geometry }
    ensures text { IfOk result (λ text. text.items ≡ status_text found count) }
    ensures memory { IfErr result (λ halt. halt ≡ OutOfMemory) }
{
    let mut text = Vec::new(alloc);
    put_sizes(&found, count, &mut text)?;
    let report = found.report;
    let restarted = text_of_restart(alloc, report.rolled_back, report.deleted)?;
    put_text(&restarted, &mut text)?;
    Ok(text)
}

// The records of an inspection, and their number.
fn tell_records(alloc: Global, found: &Inspection) -> Result<Vec<u8>, Halt>
    requires { length found.now.regions.items ≡ regions_of found.now.geometry }
    ensures text { IfOk result (λ text. TellsRecords found.now text.items) }
    ensures memory { IfErr result (λ halt. halt ≡ OutOfMemory) }
{
    let rows = found.records(alloc)?;
    text_of_records(alloc, &rows)
}

// What an inspection says of the database.
fn tell_status(alloc: Global, found: Inspection) -> Result<Vec<u8>, Halt>
    requires { length found.regions.items ≡ regions_of found.geometry }
    ensures text { IfOk result (λ text. TellsStatus found text.items) }
    ensures memory { IfErr result (λ halt. halt ≡ OutOfMemory) }
{
    let rows = found.records(alloc)?;
    let count = rows.len() as u64;
    text_of_status(alloc, found, count)
}

// The text of `show`.
fn show<V: Store>(alloc: Global, store: &mut V) -> Result<Vec<u8>, Halt>
    ensures looks { IfOk result (λ text. Looks V.Store TellsRecords store.old text.items store.new) }
    ensures fails { IfErr result (λ halt. NotLooked V.Store halt store.old store.new) }
{
    match look(alloc, store) {
        Ok(found) => tell_records(alloc, &found),
        Err(halt) => Err(halt),
    }
}

// The text of `status`.
fn status<V: Store>(alloc: Global, store: &mut V) -> Result<Vec<u8>, Halt>
    ensures looks { IfOk result (λ text. Looks V.Store TellsStatus store.old text.items store.new) }
    ensures fails { IfErr result (λ halt. NotLooked V.Store halt store.old store.new) }
{
    match look(alloc, store) {
        Ok(found) => tell_status(alloc, found),
        Err(halt) => Err(halt),
    }
}

/// Writes the records that a restart would find in the store, and their number, once all are known.
pub fn write_show<K: Sink, V: Store>(
    alloc: Global,
    sink: &mut K,
    mut store: V,
) -> (V, Result<(), Halt>)
    ensures done { OnOk result.1
        ((text : List ℕ) × Looks V.Store TellsRecords store text result.0 × Appends (K.taken sink.old) text (K.taken sink.new)) }
    ensures stops { IfErr result.1 (λ halt. LookStops V.Store K.Sink TellsRecords halt store result.0 sink.old sink.new) }
    ensures later { K.faults sink.old ≤ K.faults sink.new }
    ensures kept { (IsErrOf result.1 Halt.WriteFault → ⊥) → K.faults sink.new ≡ K.faults sink.old }
{
    match show(alloc, &mut store) {
        Ok(text) => {
            let written = write_whole(sink, &text);
            (store, written)
        }
        Err(halt) => (store, Err(halt)),
    }
}

/// Writes what a stranger wants to know of the database in the store, once all is known.
pub fn write_status<K: Sink, V: Store>(
    alloc: Global,
    sink: &mut K,
    mut store: V,
) -> (V, Result<(), Halt>)
    ensures done { OnOk result.1
        ((text : List ℕ) × Looks V.Store TellsStatus store text result.0 × Appends (K.taken sink.old) text (K.taken sink.new)) }
    ensures stops { IfErr result.1 (λ halt. LookStops V.Store K.Sink TellsStatus halt store result.0 sink.old sink.new) }
    ensures later { K.faults sink.old ≤ K.faults sink.new }
    ensures kept { (IsErrOf result.1 Halt.WriteFault → ⊥) → K.faults sink.new ≡ K.faults sink.old }
{
    match status(alloc, &mut store) {
        Ok(text) => {
            let written = write_whole(sink, &text);
            (store, written)
        }
        Err(halt) => (store, Err(halt)),
    }
}
