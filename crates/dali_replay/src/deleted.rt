//! The deleted transactions of a log.
ghost use Rattle.std.specs.Prelude.{◌≡◌, ◌+◌, ◌<◌, ◌^◌, ◌++◌, [], ◌∷◌, ℕ, ◌↔◌, length, flat_map, filter, Contains, IfOk, OnOk};
ghost use Rattle.std.specs.List.Sorted.{IsStrictlyIncreasing};
ghost use Rattle.dali_record.specs.Log.{committed};
ghost use Rattle.dali_record.specs.Epochs.{epochs};
ghost use Rattle.dali_history.specs.Acknowledged.{IsDeletedByChain};
ghost use Rattle.dali_replay.specs.Marking.{corrupted, deleted_of};
ghost use Rattle.dali_replay.specs.Cutting.{opens, closes, IsCutAt};

use crate::damage::{Damage, is_corrupted};
use dali_record::Record;
use std::alloc::{AllocError, Global};

// Adds the transaction of the record, where it is the Commit of one that has a marked block among the records.
fn keep_deleted(
    records: &[Record],
    marks: &[bool],
    logged: &Record,
    deleted: &mut Vec<u64>,
) -> Result<(), AllocError>
    requires { length marks.now ≡ length records.now }
    ensures { OnOk result (deleted.new.items ≡ deleted.old.items ++ filter (corrupted records.now marks.now) (committed (logged.now ∷ []))) }
{
    match logged {
        Record::Commit { txn } => {
            if is_corrupted(records, marks, *txn) {
                deleted.push(*txn)?;
            }
            Ok(())
        }
        _ => Ok(()),
    }
}

// Adds those that are deleted in the epoch with these records, the first of which has this number.
fn delete_in(
    alloc: Global,
    first: usize,
    records: &[Record],
    deleted: &mut Vec<u64>,
) -> Result<(), AllocError>
    requires { first + length records.now < 2 ^ 64 }
    ensures { OnOk result (deleted.new.items ≡ deleted.old.items ++ deleted_of (record { first = first; records = records.now })) }
{
    let damage = Damage::new(first, records);
    let marks = damage.marks(alloc, records)?;
    for record in records {
        keep_deleted(records, &marks, record, deleted)?;
    }
    Ok(())
}

// Whether an epoch begins behind the record.
fn opens(logged: &Record) -> bool
    ensures { result ≡ opens logged.now }
{
    match logged {
        Record::Format { .. } => true,
        Record::Restarted { .. } => true,
        _ => false,
    }
}

// Whether an epoch ends before the record.
fn closes(logged: &Record) -> bool
    ensures { result ≡ closes logged.now }
{
    match logged {
        Record::Restarted { .. } => true,
        _ => false,
    }
}

// Goes on by the record at place `at`, where the open epoch has begun at `first`, and answers where it has begun then.
fn go_on(
    alloc: Global,
    log: &[Record],
    at: usize,
    first: usize,
    deleted: &mut Vec<u64>,
) -> Result<usize, AllocError>
    requires within { at < length log.now }
    requires cut { IsCutAt log.now at first deleted.old.items }
    ensures { IfOk result (λ next. IsCutAt log.now (at + 1) next deleted.new.items) }
{
    let record = &log[at];
    if !opens(record) {
        return Ok(first);
    }
    if closes(record) {
        delete_in(alloc, first, &log[first..at], deleted)?;
    }
    Ok(at + 1)
}

// The transactions that are deleted in some epoch, in the order of their Commits.
fn delete_all(alloc: Global, log: &[Record]) -> Result<Vec<u64>, AllocError>
    ensures { IfOk result (λ deleted. deleted.items ≡ flat_map deleted_of (epochs log.now)) }
{
    let mut deleted = Vec::new(alloc);
    let mut first = 0;
    for at in 0..log.len() {
        first = go_on(alloc, log, at, first, &mut deleted)?;
    }
    delete_in(alloc, first, &log[first..], &mut deleted)?;
    Ok(deleted)
}

/// The deleted transactions, ascending, each once. It takes memory for them, and for the marks of an epoch.
pub fn deleted(alloc: Global, log: &[Record]) -> Result<Vec<u64>, AllocError>
    ensures deleted { IfOk result (λ deleted. (t : ℕ) → Contains deleted.items t ↔ IsDeletedByChain log.now t) }
    ensures ascends { IfOk result (λ deleted. IsStrictlyIncreasing deleted.items) }
{
    let mut deleted = delete_all(alloc, log)?;
    deleted.sort()?;
    deleted.dedup();
    Ok(deleted)
}
