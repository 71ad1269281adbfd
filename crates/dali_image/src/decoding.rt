//! The bytes of a table, read from the left. A field that is wrong is answered by its first place.
ghost use Rattle.std.specs.Prelude.{◌≡◌, true, None, IfOk, OnOk};
ghost use Rattle.std.specs.FinMap as map;
ghost use Rattle.dali_bytes.specs.Cursor.{IsBytes};
ghost use Rattle.dali_record.specs.Reading.{is_above};
ghost use Rattle.dali_image.specs.Decoding.{Gives, GivesBy, Answers, byte_from, number32_from, number64_from, cell_from, entry_from, flag_from, five_from, restore_from, undo_from, kind_from, is_on, region_from, pending_from, pendings_from, txn_from, count_from, row_from, rows_from, with_row, table_in};
ghost use Rattle.dali_image.specs.Fields.{row_of};

use crate::error::{BadAt, TableError};
use dali_att::{Att, State};
use dali_bytes::Reader;
use dali_geometry::Geometry;
use dali_record::{Pending, Undo};
use std::alloc::{AllocError, Global};

#[tactic(auto, unfolding(crate::specs::Decoding::byte_from))]
fn byte(reader: &mut Reader) -> Result<u8, BadAt>
    ensures { Gives result reader.new (byte_from reader.old) }
{
    Ok(reader.byte()?)
}

#[tactic(auto, unfolding(crate::specs::Decoding::number32_from))]
fn number32(reader: &mut Reader) -> Result<u32, BadAt>
    ensures { Gives result reader.new (number32_from reader.old) }
{
    Ok(reader.number32()?)
}

#[tactic(auto, unfolding(crate::specs::Decoding::number64_from))]
fn number64(reader: &mut Reader) -> Result<u64, BadAt>
    ensures { Gives result reader.new (number64_from reader.old) }
{
    Ok(reader.number64()?)
}

#[tactic(auto, unfolding(crate::specs::Decoding::cell_from))]
fn cell(reader: &mut Reader) -> Result<u8, BadAt>
    ensures { Gives result reader.new (cell_from reader.old) }
{
    let at = reader.at();
    let cell = byte(reader)?;
    if cell < 1 || 7 < cell {
        return Err(BadAt { at });
    }
    Ok(cell)
}

#[tactic(auto, unfolding(crate::specs::Decoding::entry_from))]
fn entry(reader: &mut Reader) -> Result<u8, BadAt>
    ensures { Gives result reader.new (entry_from reader.old) }
{
    let at = reader.at();
    let entry = byte(reader)?;
    if 20 < entry {
        return Err(BadAt { at });
    }
    Ok(entry)
}

#[tactic(auto, unfolding(crate::specs::Decoding::flag_from))]
fn flag(reader: &mut Reader) -> Result<bool, BadAt>
    ensures { Gives result reader.new (flag_from reader.old) }
{
    let at = reader.at();
    match byte(reader)? {
        0 => Ok(false),
        1 => Ok(true),
        _ => Err(BadAt { at }),
    }
}

#[tactic(auto, unfolding(crate::specs::Decoding::five_from))]
fn five(reader: &mut Reader) -> Result<[u64; 5], BadAt>
    ensures { Gives result reader.new (five_from reader.old) }
{
    let first = number64(reader)?;
    let second = number64(reader)?;
    let third = number64(reader)?;
    let fourth = number64(reader)?;
    let fifth = number64(reader)?;
    Ok([first, second, third, fourth, fifth])
}

#[tactic(auto, unfolding(crate::specs::Decoding::restore_from))]
fn restore(reader: &mut Reader) -> Result<Undo, BadAt>
    ensures { Gives result reader.new (restore_from reader.old) }
{
    let cell = cell(reader)?;
    let length = number64(reader)?;
    let words = five(reader)?;
    Ok(Undo::Restore {
        cell,
        length,
        words,
    })
}

// The kind of an undo: 1 to 3 on a heap region, 4 and 5 on an index region.
#[tactic(auto, unfolding(crate::specs::Decoding::kind_from))]
fn kind(reader: &mut Reader) -> Result<u8, BadAt>
    ensures { Gives result reader.new (kind_from reader.old) }
{
    let at = reader.at();
    let kind = byte(reader)?;
    if kind < 1 || 5 < kind {
        return Err(BadAt { at });
    }
    Ok(kind)
}

fn is_on_kind(geometry: &Geometry, kind: u8, region: u32) -> bool
    ensures { result ≡ is_on geometry.now kind region }
{
    if kind <= 3 {
        geometry.index() <= region && region < geometry.regions()
    } else {
        region < geometry.index()
    }
}

#[tactic(auto, unfolding(crate::specs::Decoding::undo_from))]
fn undo(reader: &mut Reader, kind: u8) -> Result<Undo, BadAt>
    ensures { Gives result reader.new (undo_from kind reader.old) }
{
    match kind {
        1 => Ok(Undo::FreeCell {
            cell: cell(reader)?,
        }),
        2 => Ok(Undo::ReviveCell {
            cell: cell(reader)?,
        }),
        3 => Ok(restore(reader)?),
        4 => Ok(Undo::FreeEntry {
            entry: entry(reader)?,
        }),
        _ => Ok(Undo::ReviveEntry {
            entry: entry(reader)?,
        }),
    }
}

#[tactic(auto, unfolding(crate::specs::Decoding::region_from))]
fn region(reader: &mut Reader, geometry: &Geometry) -> Result<u32, BadAt>
    ensures { Gives result reader.new (region_from geometry.now reader.old) }
{
    let at = reader.at();
    let region = number32(reader)?;
    if region >= geometry.regions() {
        return Err(BadAt { at });
    }
    Ok(region)
}

// An undo with its key and region. Of which kind the region has to be is known once the undo's kind was read.
#[tactic(auto, unfolding(crate::specs::Decoding::pending_from))]
fn pending(reader: &mut Reader, geometry: &Geometry) -> Result<Pending, BadAt>
    ensures { Gives result reader.new (pending_from geometry.now reader.old) }
{
    let key = number64(reader)?;
    let at = reader.at();
    let region = region(reader, geometry)?;
    let kind = kind(reader)?;
    if !is_on_kind(geometry, kind, region) {
        return Err(BadAt { at });
    }
    let undo = undo(reader, kind)?;
    Ok(Pending { key, region, undo })
}

fn pendings(
    alloc: Global,
    reader: &mut Reader,
    geometry: &Geometry,
    count: u32,
) -> Result<Vec<Pending>, TableError>
    ensures { GivesBy (λ undos. undos.items) result reader.new (pendings_from geometry.now count reader.old) }
{
    let mut undos = Vec::new(alloc);
    for _ in 0..count {
        let undo = pending(reader, geometry)?;
        undos.push(undo)?;
    }
    Ok(undos)
}

#[tactic(auto, unfolding(crate::specs::Decoding::txn_from))]
fn txn(reader: &mut Reader, next: u64, last: Option<u64>) -> Result<u64, BadAt>
    ensures read { Gives result reader.new (txn_from next last reader.old) }
    ensures above { IfOk result (λ txn. is_above last txn ≡ true) }
{
    let at = reader.at();
    let txn = number64(reader)?;
    if !follows(last, txn) {
        return Err(BadAt { at });
    }
    if txn >= next {
        return Err(BadAt { at });
    }
    Ok(txn)
}

// Whether the number may follow the last one of an ascending list, if there is one.
fn follows(last: Option<u64>, number: u64) -> bool
    ensures { result ≡ is_above last number }
{
    match last {
        Some(last) => last < number,
        None => true,
    }
}

// How many undos there are. A committed transaction has none.
#[tactic(auto, unfolding(crate::specs::Decoding::count_from))]
fn count(reader: &mut Reader, is_committed: bool) -> Result<u32, BadAt>
    ensures { Gives result reader.new (count_from is_committed reader.old) }
{
    let at = reader.at();
    let count = number32(reader)?;
    if is_committed && count != 0 {
        return Err(BadAt { at });
    }
    Ok(count)
}

// A transaction of the table.
#[derive(Drop)]
pub struct Row {
    txn: u64,
    is_committed: bool,
    undos: Vec<Pending>,
}

#[tactic(auto, unfolding(crate::specs::Decoding::row_from))]
fn next_row(
    alloc: Global,
    reader: &mut Reader,
    geometry: &Geometry,
    next: u64,
    last: Option<u64>,
) -> Result<Row, TableError>
    ensures read { GivesBy row_of result reader.new (row_from geometry.now next last reader.old) }
    ensures above { IfOk result (λ row. is_above last row.txn ≡ true) }
{
    let txn = txn(reader, next, last)?;
    let is_committed = flag(reader)?;
    let count = count(reader, is_committed)?;
    let undos = pendings(alloc, reader, geometry, count)?;
    Ok(Row {
        txn,
        is_committed,
        undos,
    })
}

// Puts a row into a table that has none of its transaction.
fn keep(att: &mut Att<Pending>, row: &Row) -> Result<(), AllocError>
    requires { map.get att.old row.now.txn ≡ None }
    ensures { OnOk result (att.new ≡ with_row att.old (row_of row.now)) }
{
    att.begin(row.txn)?;
    for undo in &row.undos {
        att.push(row.txn, *undo)?;
    }
    if row.is_committed {
        att.set_state(row.txn, State::Committed);
    }
    Ok(())
}

fn rows(
    alloc: Global,
    reader: &mut Reader,
    geometry: &Geometry,
    next: u64,
    count: u32,
) -> Result<Att<Pending>, TableError>
    ensures { GivesBy (λ att. att) result reader.new (rows_from geometry.now next None map.empty count reader.old) }
{
    let mut att = Att::new(alloc);
    let mut last = None;
    for _ in 0..count {
        let row = next_row(alloc, reader, geometry, next, last)?;
        keep(&mut att, &row)?;
        last = Some(row.txn);
    }
    Ok(att)
}

/// The table that bytes spell, all of them, of a database of these sizes and with transactions below `next`.
#[tactic(auto, unfolding(crate::specs::Decoding::table_in))]
pub fn decode(
    alloc: Global,
    bytes: &[u8],
    geometry: &Geometry,
    next: u64,
) -> Result<Att<Pending>, TableError>
    ensures fits { IsBytes bytes.now }
    ensures read { Answers (λ att. att) result (table_in geometry.now next bytes.now) }
{
    let mut reader = Reader::new(bytes);
    let count = number32(&mut reader)?;
    let att = rows(alloc, &mut reader, geometry, next, count)?;
    let at = reader.at();
    if at < bytes.len() {
        return Err(TableError::Bad { at });
    }
    Ok(att)
}
