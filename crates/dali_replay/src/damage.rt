//! The damage of an epoch, and the marks of its records.
ghost use Rattle.std.specs.Prelude.{◌≡◌, ◌+◌, ◌<◌, ◌≤◌, ◌^◌, [], ◌∷◌, take, drop, length, fold, IfOk, OnOk};
ghost use Rattle.dali_record.specs.Epochs.{clean_step, failing_step};
ghost use Rattle.dali_replay.specs.Seen.{damage_in};
ghost use Rattle.dali_replay.specs.Marking.{block_is_first, mark_by, marks_only, corrupt_here, corrupted};

use crate::links::{is_linked, toucher};
use dali_record::{Block, Record};
use std::alloc::{AllocError, Global};

/// The number of the epoch's first record, its clean place and its failing regions.
#[derive(Drop)]
pub struct Damage<'a> {
    pub first: usize,
    pub clean: u64,
    pub failing: &'a [u32],
}

// The greatest begin that an AuditClean names, or `first`.
fn clean_place(first: u64, records: &[Record]) -> u64
    ensures { result ≡ fold clean_step first records.now }
{
    let mut clean = first;
    for record in records {
        if let Record::AuditClean { begin } = record {
            clean = clean.max(*begin);
        }
    }
    clean
}

// The regions of the last AuditFail, or none.
fn failing(records: &[Record]) -> &[u32]
    ensures { result.now ≡ fold failing_step [] records.now }
{
    let mut found: &[u32] = &[];
    for record in records {
        if let Record::AuditFail { regions, .. } = record {
            found = regions.as_slice();
        }
    }
    found
}

impl<'a> Damage<'a> {
    /// The damage of the records of an epoch, the first of which has this number.
    pub fn new(first: usize, records: &'a [Record]) -> Self
        ensures first { result.first ≡ first }
        ensures clean { result.clean ≡ fold clean_step first records.now }
        ensures failing { result.failing.now ≡ fold failing_step [] records.now }
    {
        Damage {
            first,
            clean: clean_place(first as u64, records),
            failing: failing(records),
        }
    }

    // Whether a block at this place reads a failing region at or after the clean place.
    fn is_first(&self, at: usize, block: &Block) -> bool
        requires { self.now.first + at < 2 ^ 64 }
        ensures { result ≡ block_is_first (damage_in self.now) at block.now }
    {
        self.clean <= (self.first + at) as u64
            && self.failing.contains(&block.region)
            && block.read != 0
    }

    // Whether the record behind these is a corrupt block: a first one, or linked to one.
    fn mark(
        &self,
        alloc: Global,
        records: &[Record],
        marks: &[bool],
        logged: &Record,
    ) -> Result<bool, AllocError>
        requires number { self.now.first + length records.now < 2 ^ 64 }
        requires marks { length marks.now ≡ length records.now }
        ensures { IfOk result (λ corrupt. corrupt ≡ mark_by (damage_in self.now) records.now marks.now logged.now) }
    {
        match logged {
            Record::Forward { txn, block }
            | Record::Back { txn, block }
            | Record::Solo { txn, block, .. } => {
                if self.is_first(records.len(), block) {
                    return Ok(true);
                }
                is_linked(alloc, records, marks, *txn, block)
            }
            _ => Ok(false),
        }
    }

    /// Of each record whether it is a corrupt block. It takes memory for them.
    pub fn marks(&self, alloc: Global, records: &[Record]) -> Result<Vec<bool>, AllocError>
        requires { self.now.first + length records.now < 2 ^ 64 }
        ensures { IfOk result (λ marks. marks.items ≡ marks_only (damage_in self.now) records.now) }
    {
        let mut marks = Vec::new(alloc);
        for at in 0..records.len() {
            let corrupt = self.mark(alloc, &records[..at], &marks, &records[at])?;
            marks.push(corrupt)?;
        }
        Ok(marks)
    }
}

// Whether the record at place `at` is a marked block of `txn`.
fn corrupt_here(records: &[Record], marks: &[bool], at: usize, txn: u64) -> bool
    requires records { at < length records.now }
    requires marks { at < length marks.now }
    ensures { result ≡ corrupt_here (drop at records.now) (drop at marks.now) txn }
{
    if !marks[at] {
        return false;
    }
    match toucher(&records[at]) {
        Some(owner) => owner == txn,
        None => false,
    }
}

/// Whether a marked record is a block of `txn`.
pub fn is_corrupted(records: &[Record], marks: &[bool], txn: u64) -> bool
    requires { length marks.now ≡ length records.now }
    ensures { result ≡ corrupted records.now marks.now txn }
{
    for at in 0..records.len() {
        if corrupt_here(records, marks, at, txn) {
            return true;
        }
    }
    false
}
