//! The bytes of a table.
ghost use Rattle.std.specs.Prelude.{◌≡◌, ◌++◌, Some, OnOk, IfOk, flat_map};
ghost use Rattle.dali_bytes.specs.Fields.{number32};
ghost use Rattle.dali_record.specs.Spelling.{undo_bytes, words_bytes};
ghost use Rattle.dali_crash.specs.Disks.Disks.{pending_bytes, row_bytes};
ghost use Rattle.dali_crash.specs.Disks.Disks;
ghost use Rattle.dali_image.specs.Rows.{rows_of, row_at};

use dali_att::{Att, State};
use dali_bytes::{OutOfMemory, put_byte, put32, put64};
use dali_record::{Pending, Undo};
use std::alloc::Global;

// How many there are, in four bytes. A list that needs more bytes for its number is too long to be held.
fn put_count(into: &mut Vec<u8>, count: usize) -> Result<(), OutOfMemory>
    ensures { OnOk result (into.new.items ≡ into.old.items ++ number32 count) }
{
    if count > u32::MAX as usize {
        return Err(OutOfMemory);
    }
    put32(into, count as u32)?;
    Ok(())
}

fn put_words(into: &mut Vec<u8>, words: &[u64]) -> Result<(), OutOfMemory>
    ensures { OnOk result (into.new.items ≡ into.old.items ++ words_bytes words.now) }
{
    for word in words {
        put64(into, *word)?;
    }
    Ok(())
}

fn put_undo(into: &mut Vec<u8>, undo: &Undo) -> Result<(), OutOfMemory>
    ensures { OnOk result (into.new.items ≡ into.old.items ++ undo_bytes (Some undo.now)) }
{
    match undo {
        Undo::FreeCell { cell } => {
            put_byte(into, 1)?;
            put_byte(into, *cell)?;
            Ok(())
        }
        Undo::ReviveCell { cell } => {
            put_byte(into, 2)?;
            put_byte(into, *cell)?;
            Ok(())
        }
        Undo::Restore {
            cell,
            length,
            words,
        } => {
            put_byte(into, 3)?;
            put_byte(into, *cell)?;
            put64(into, *length)?;
            put_words(into, words)?;
            Ok(())
        }
        Undo::FreeEntry { entry } => {
            put_byte(into, 4)?;
            put_byte(into, *entry)?;
            Ok(())
        }
        Undo::ReviveEntry { entry } => {
            put_byte(into, 5)?;
            put_byte(into, *entry)?;
            Ok(())
        }
    }
}

fn put_undos(into: &mut Vec<u8>, undos: &[Pending]) -> Result<(), OutOfMemory>
    ensures { OnOk result (into.new.items ≡ into.old.items ++ flat_map pending_bytes undos.now) }
{
    for pending in undos {
        put64(into, pending.key)?;
        put32(into, pending.region)?;
        put_undo(into, &pending.undo)?;
    }
    Ok(())
}

fn put_row(into: &mut Vec<u8>, att: &Att<Pending>, txn: u64) -> Result<(), OutOfMemory>
    ensures { OnOk result (into.new.items ≡ into.old.items ++ row_bytes (row_at att.now txn)) }
{
    let is_committed = matches!(att.state(txn), Some(State::Committed));
    let undos = att.undos(txn);
    put64(into, txn)?;
    put_byte(into, is_committed as u8)?;
    put_count(into, undos.len())?;
    put_undos(into, undos)?;
    Ok(())
}

/// The bytes of a table: how many transactions there are, and each with its state and its undos, ascending by number. A
/// committed transaction is written so, every other one as active. It takes memory for the bytes and the numbers; a
/// table with 2^32 transactions or more, or with so many undos of one, counts as too large for it.
pub fn table_bytes(alloc: Global, att: &Att<Pending>) -> Result<Vec<u8>, OutOfMemory>
    ensures { IfOk result (λ bytes. bytes.items ≡ Disks.table_bytes (rows_of att.now)) }
{
    let numbers = att.numbers()?;
    let mut bytes = Vec::new(alloc);
    put_count(&mut bytes, numbers.len())?;
    for txn in &numbers {
        put_row(&mut bytes, att, *txn)?;
    }
    Ok(bytes)
}
