//! How blocks are linked, looking back over all earlier ones.
ghost use Rattle.std.specs.Prelude.{◌≡◌, ◌<◌, ◌≤◌, [], take, drop, length, IfOk, OnOk};
ghost use Rattle.std.specs.List.{list_any};
ghost use Rattle.dali_replay.specs.Marking.{toucher, touches, reaches, key_step, undo_keys, links_from, linked_here, linked_after};

use dali_record::{Block, Record, changes};
use std::alloc::{AllocError, Global};

// Whether an earlier block writes a word that `block` reads, or changes its item.
fn touches(earlier: &Block, block: &Block) -> bool
    ensures { result ≡ touches earlier.now block.now }
{
    let same_region = earlier.region == block.region;
    let same_words = earlier.write & block.read != 0;
    let changed = changes(&earlier.outcome);
    let same_item = earlier.key == block.key;
    (same_region && same_words) || (changed && same_item)
}

// Whether the record is a block of `txn` that touches `block`.
fn reaches(logged: &Record, txn: u64, block: &Block) -> bool
    ensures { result ≡ reaches txn block.now logged.now }
{
    match logged {
        Record::Forward {
            txn: writer,
            block: earlier,
        } => *writer == txn && touches(earlier, block),
        Record::Back {
            txn: writer,
            block: earlier,
        } => *writer == txn && touches(earlier, block),
        Record::Solo {
            txn: writer,
            block: earlier,
            ..
        } => *writer == txn && touches(earlier, block),
        _ => false,
    }
}

// The transaction of the record's block, if it has one.
pub fn toucher(logged: &Record) -> Option<u64>
    ensures { result ≡ toucher logged.now }
{
    match logged {
        Record::Forward { txn, .. } => Some(*txn),
        Record::Back { txn, .. } => Some(*txn),
        Record::Solo { txn, .. } => Some(*txn),
        _ => None,
    }
}

// Keeps the key of an undo that the record adds for `txn`, or drops that of the one it takes back.
fn keep_undo(keys: &mut Vec<u64>, logged: &Record, txn: u64) -> Result<(), AllocError>
    ensures { OnOk result (keys.new.items ≡ key_step txn keys.old.items logged.now) }
{
    match logged {
        Record::Forward { txn: writer, block } => {
            if *writer == txn {
                if let Some(_) = block.undo {
                    keys.push(block.key)?;
                }
            }
            Ok(())
        }
        Record::Back { txn: writer, .. } => {
            if *writer == txn {
                let _ = keys.pop();
            }
            Ok(())
        }
        _ => Ok(()),
    }
}

// The keys of the undos that the records leave to `txn`.
fn undo_keys(alloc: Global, records: &[Record], txn: u64) -> Result<Vec<u64>, AllocError>
    ensures { IfOk result (λ keys. keys.items ≡ undo_keys txn records.now) }
{
    let mut keys = Vec::new(alloc);
    for record in records {
        keep_undo(&mut keys, record, txn)?;
    }
    Ok(keys)
}

// Whether one of the records is a block of `txn` that touches `block`.
fn any_reaches(records: &[Record], txn: u64, block: &Block) -> bool
    ensures { result ≡ list_any (reaches txn block.now) records.now }
{
    for record in records {
        if reaches(record, txn, block) {
            return true;
        }
    }
    false
}

// Whether the block of `linking` at place `at` is linked to the block of `txn` behind the records.
fn links_from(
    alloc: Global,
    records: &[Record],
    at: usize,
    linking: u64,
    txn: u64,
    block: &Block,
) -> Result<bool, AllocError>
    requires { at ≤ length records.now }
    ensures { IfOk result (λ linked. linked ≡ links_from (take at records.now) (drop at records.now) linking txn block.now) }
{
    if linking == txn {
        return Ok(false);
    }
    if any_reaches(&records[at..], linking, block) {
        return Ok(true);
    }
    let keys = undo_keys(alloc, &records[..at], linking)?;
    Ok(keys.contains(&block.key))
}

// The same of the record at place `at`, where it is a marked block.
fn linked_here(
    alloc: Global,
    records: &[Record],
    marks: &[bool],
    at: usize,
    txn: u64,
    block: &Block,
) -> Result<bool, AllocError>
    requires records { at < length records.now }
    requires marks { at < length marks.now }
    ensures { IfOk result (λ linked. linked ≡ linked_here (take at records.now) (drop at records.now) (drop at marks.now) txn block.now) }
{
    if !marks[at] {
        return Ok(false);
    }
    match toucher(&records[at]) {
        Some(linking) => links_from(alloc, records, at, linking, txn, block),
        None => Ok(false),
    }
}

// Whether a marked block among the records is linked to the block of `txn` behind them.
pub fn is_linked(
    alloc: Global,
    records: &[Record],
    marks: &[bool],
    txn: u64,
    block: &Block,
) -> Result<bool, AllocError>
    requires { length marks.now ≡ length records.now }
    ensures { IfOk result (λ linked. linked ≡ linked_after [] records.now marks.now txn block.now) }
{
    for at in 0..records.len() {
        if linked_here(alloc, records, marks, at, txn, block)? {
            return Ok(true);
        }
    }
    Ok(false)
}
