//! The tables of transactions behind a record.
ghost use Rattle.std.specs.Prelude.{◌≡◌, ℕ, IsSome, None, Some, IfNone, IfSome, IfOk, OnOk, OnErr, filter, if◌then◌else◌};
ghost use Rattle.std.specs.FinMap as map;
ghost use Rattle.dali_record.specs.declared.records.Record.TheVariants.{Begin, Forward, Back, Commit, Ended};
ghost use Rattle.dali_record.specs.Files.{is_restarted};
ghost use Rattle.dali_record.specs.Log.{txn_of as txn_of_record};
ghost use Rattle.dali_resume.specs.Tests.{is_running};
ghost use Rattle.dali_redo.specs.Redoing.{status_at, performed_in};
ghost use Rattle.dali_redo.specs.Steps.{Advances, IsCleared};
ghost use Rattle.dali_redo.specs.Tables.{AddsAll, IsCopied, IsHeld, Holds, IsLeast};

use crate::rules::{is_active, undos_at_work};
use dali_att::{Att, State};
use dali_record::{Block, Pending, Record};
use std::alloc::{AllocError, Global};

// The transaction begins, if it hasn't.
fn begin(table: &mut Att<Pending>, txn: u64) -> Result<(), AllocError>
    ensures ok { OnOk result (Advances table.old table.new (Begin txn)) }
    ensures cleared { OnOk result (IsCleared table.old → IsCleared table.new) }
    ensures err { OnErr result (table.new ≡ table.old) }
{
    match table.state(txn) {
        Some(_) => Ok(()),
        None => table.begin(txn),
    }
}

// Adds the block's undo, if it has one, to those of its transaction, if that is at work.
fn add_undo(table: &mut Att<Pending>, txn: u64, block: &Block) -> Result<(), AllocError>
    ensures ok { OnOk result (Advances table.old table.new (Forward txn block.now)) }
    ensures cleared { OnOk result (IsCleared table.old → IsCleared table.new) }
    ensures err { OnErr result (table.new ≡ table.old) }
{
    let Some(undo) = block.undo else {
        return Ok(());
    };
    if !is_active(table, txn) {
        return Ok(());
    }
    table.push(txn, block.pending(undo))
}

// Removes the last undo of the transaction.
fn remove_undo(table: &mut Att<Pending>, txn: u64, block: &Block)
    ensures advances { Advances table.old table.new (Back txn block.now) }
    ensures cleared { IsCleared table.old → IsCleared table.new }
{
    let _ = table.pop(txn);
}

// The transaction is committed, if it has begun.
fn commit(table: &mut Att<Pending>, txn: u64)
    ensures advances { Advances table.old table.new (Commit txn) }
    ensures cleared { IsCleared table.old → IsCleared table.new }
{
    match table.state(txn) {
        Some(_) => {
            table.clear(txn);
            table.set_state(txn, State::Committed);
        }
        None => {}
    }
}

// The transaction has ended.
fn end(table: &mut Att<Pending>, txn: u64)
    ensures advances { Advances table.old table.new (Ended txn) }
    ensures cleared { IsCleared table.old → IsCleared table.new }
{
    table.end(txn);
}

/// The table behind the record. Where memory is wanting it is as it was.
pub fn advance(alloc: Global, table: &mut Att<Pending>, logged: &Record) -> Result<(), AllocError>
    ensures ok { OnOk result (Advances table.old table.new logged.now) }
    ensures cleared { OnOk result (IsCleared table.old → IsCleared table.new) }
    ensures err { OnErr result (table.new ≡ table.old) }
{
    match logged {
        Record::Begin { txn } => begin(table, *txn),
        Record::Forward { txn, block } => add_undo(table, *txn, block),
        Record::Back { txn, block } => {
            remove_undo(table, *txn, block);
            Ok(())
        }
        Record::Commit { txn } => {
            commit(table, *txn);
            Ok(())
        }
        Record::Ended { txn } => {
            end(table, *txn);
            Ok(())
        }
        Record::Restarted { .. } => {
            *table = Att::new(alloc);
            Ok(())
        }
        _ => Ok(()),
    }
}

// Adds these undos to the list of the transaction, which is in the table.
fn add_all(table: &mut Att<Pending>, txn: u64, undos: &[Pending]) -> Result<(), AllocError>
    requires { IsSome (map.get table.old txn) }
    ensures ok { OnOk result (AddsAll table.old table.new txn undos.now) }
    ensures err { OnErr result ((t : ℕ) → (t ≡ txn → ⊥) → map.get table.new t ≡ map.get table.old t) }
{
    for undo in undos {
        table.push(txn, *undo)?;
    }
    Ok(())
}

/// Adds the transaction, which isn't in the table, with these undos. Where memory is wanting the table is as it was.
pub fn keep(table: &mut Att<Pending>, txn: u64, undos: &[Pending]) -> Result<(), AllocError>
    requires { map.get table.old txn ≡ None }
    ensures ok { OnOk result (IsCopied table.old table.new txn undos.now) }
    ensures err { OnErr result (table.new ≡ table.old) }
{
    table.begin(txn)?;
    match add_all(table, txn, undos) {
        Ok(()) => Ok(()),
        Err(error) => {
            table.end(txn);
            Err(error)
        }
    }
}

// The transaction of a record.
fn txn_of(logged: &Record) -> Option<u64>
    ensures { result ≡ txn_of_record logged.now }
{
    match logged {
        Record::Begin { txn } => Some(*txn),
        Record::Forward { txn, .. } => Some(*txn),
        Record::Back { txn, .. } => Some(*txn),
        Record::Done { txn, .. } => Some(*txn),
        Record::Commit { txn } => Some(*txn),
        Record::Ended { txn } => Some(*txn),
        Record::Solo { txn, .. } => Some(*txn),
        _ => None,
    }
}

// Keeps the undos of a transaction, if none are kept of it. Answers its number if they weren't.
fn hold_of(
    left: &mut Att<Pending>,
    table: &Att<Pending>,
    txn: u64,
) -> Result<Option<u64>, AllocError>
    ensures ok { IfOk result (λ held. IsHeld left.old table.now (Some txn) held left.new) }
    ensures err { OnErr result (left.new ≡ left.old) }
{
    if left.state(txn).is_some() {
        return Ok(None);
    }
    keep(left, txn, undos_at_work(table, txn))?;
    Ok(Some(txn))
}

/// Keeps the undos of the record's transaction, if it has one and none are kept of it. Answers its number if
/// they weren't. Where memory is wanting nothing has changed.
pub fn hold(
    left: &mut Att<Pending>,
    table: &Att<Pending>,
    logged: &Record,
) -> Result<Option<u64>, AllocError>
    ensures ok { IfOk result (λ held. IsHeld left.old table.now (txn_of_record logged.now) held left.new) }
    ensures err { OnErr result (left.new ≡ left.old) }
{
    match txn_of(logged) {
        Some(txn) => hold_of(left, table, txn),
        None => Ok(None),
    }
}

/// The kept undos behind the record: none behind a Restarted.
pub fn end_epoch(alloc: Global, left: &mut Att<Pending>, logged: &Record)
    ensures { left.new ≡ (if is_restarted logged.now then map.empty else left.old) }
{
    if let Record::Restarted { .. } = logged {
        *left = Att::new(alloc);
    }
}

/// Both behind a record that is skipped. Where memory is wanting they are as they were.
pub fn skip(
    alloc: Global,
    left: &mut Att<Pending>,
    table: &mut Att<Pending>,
    logged: &Record,
) -> Result<(), AllocError>
    ensures table { OnOk result (Advances table.old table.new logged.now) }
    ensures cleared { OnOk result (IsCleared table.old → IsCleared table.new) }
    ensures left { OnOk result (Holds left.old table.old logged.now left.new) }
    ensures err { OnErr result ((left.new ≡ left.old) × (table.new ≡ table.old)) }
{
    let held = hold(left, table, logged)?;
    match advance(alloc, table, logged) {
        Ok(()) => {
            end_epoch(alloc, left, logged);
            Ok(())
        }
        Err(error) => {
            if let Some(txn) = held {
                left.end(txn);
            }
            Err(error)
        }
    }
}

/// The undos of the transaction that are performed: those that are kept, or else those at work.
pub fn undos_performed<'a>(
    left: &'a Att<Pending>,
    table: &'a Att<Pending>,
    txn: u64,
) -> &'a [Pending]
    ensures { result.now ≡ performed_in left.now table.now txn }
{
    match left.state(txn) {
        Some(_) => left.undos(txn),
        None => undos_at_work(table, txn),
    }
}

/// The transactions at work, ascending. It takes memory for them.
pub fn at_work(alloc: Global, table: &Att<Pending>) -> Result<Vec<u64>, AllocError>
    ensures { IfOk result (λ txns. txns.items ≡ filter (λ t. is_running (status_at table.now t)) (map.keys table.now)) }
{
    let numbers = table.numbers()?;
    let mut txns = Vec::new(alloc);
    for txn in &numbers {
        if is_active(table, *txn) {
            txns.push(*txn)?;
        }
    }
    Ok(txns)
}

/// The least number of a transaction that is in one of these tables.
pub fn least(one: &Att<Pending>, other: &Att<Pending>) -> Option<u64>
    ensures none { IfNone result ((one.now ≡ map.empty) × (other.now ≡ map.empty)) }
    ensures least { IfSome result (IsLeast one.now other.now) }
{
    match (one.first(), other.first()) {
        (Some(a), Some(b)) => Some(if a < b { a } else { b }),
        (Some(a), None) => Some(a),
        (None, Some(b)) => Some(b),
        (None, None) => None,
    }
}
