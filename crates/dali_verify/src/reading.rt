//! The whole log of a running engine: what its store has, and the records that wait behind it.
ghost use Rattle.std.specs.Prelude.{◌≡◌, ◌<◌, ◌≤◌, ◌+◌, ◌^◌, ◌++◌, ◌∷◌, [], ℕ, List, length, drop, true, false, IfOk, IfErr, OnOk, IfSome, IsNone, IsErrOf};
ghost use Rattle.dali_store.specs.Faults.{Rose};
ghost use Rattle.dali_record.specs.declared.records.Record.{Record};
ghost use Rattle.dali_record.specs.Spelling.{CanBeSpelled};
ghost use Rattle.dali_log.specs.Batch.{IsUnformatted};
ghost use Rattle.dali_log.specs.Log.{BadAt, BadFrom, IsFront, NoRecordAt, TailOf, body_bytes, records_in};
ghost use Rattle.dali_log.specs.Reads.{OnlyReads};
ghost use Rattle.dali_core.specs.Vault.Vaulted.{with_store};
ghost use Rattle.dali_verify.specs.Verified.{Spell, IsInFile, IsWholeLog};
ghost use Rattle.dali_verify.specs.declared.error.VerifyError.TheVariants as errors;

use crate::error::VerifyError;
use dali_bytes::Reader;
use dali_core::vault::Vault;
use dali_log::{BatchError, Found, format_of};
use dali_record::{DecodeError, Record, decode};
use dali_store::Store;
use dali_system::System;
use std::alloc::Global;

/// The place of the first batch's records.
const FIRST: u64 = 5;

/// The first batch of a log: the sizes in its one record, and the place behind it.
#[derive(Clone, Copy, Drop)]
struct First {
    index: u32,
    heap: u32,
    next: u64,
}

// Adds the records that these bytes spell, of which the first stands at this place of the log.
fn add_records(
    alloc: Global,
    bytes: &[u8],
    place: u64,
    records: &mut Vec<Record>,
) -> Result<(), VerifyError>
    requires { place < 2 ^ 63 }
    ensures ok { OnOk result ((L : List Record) × Spell bytes.now L × (records.new.items ≡ records.old.items ++ L)) }
    ensures bad { IfErr result (λ e. (bad : ℕ) → e ≡ errors.BadLog bad → (within : ℕ) × NoRecordAt bytes.now within × (bad ≡ place + within)) }
    ensures fault { IsErrOf result errors.Fault → ⊥ }
{
    let mut reader = Reader::new(bytes);
    'records: while reader.left() > 0 {
        let start = reader.at() as u64;
        match decode(alloc, &mut reader) {
            Ok(entry) => records.push(entry)?,
            Err(DecodeError::OutOfMemory) => return Err(VerifyError::OutOfMemory),
            Err(DecodeError::BadRecord { .. }) => {
                return Err(VerifyError::BadLog { at: place + start });
            }
        }
    }
    Ok(())
}

// Whether the log has fewer than two bytes: it is bad at place 1 itself there.
fn is_short<V: Store>(alloc: Global, vault: &mut Vault<V>) -> Result<bool, VerifyError>
    ensures short { IfOk result (λ short. IfSome (V.told vault.old.store) (λ fs. (short ≡ true → length fs.log < 2) × (short ≡ false → 2 ≤ length fs.log))) }
    ensures good { IfErr result (λ e. (bad : ℕ) → e ≡ errors.BadLog bad → ⊥) }
    ensures same { vault.new ≡ with_store vault.old vault.new.store }
    ensures reads { OnlyReads V.told V.moment V.left_since V.may_leave vault.old.store vault.new.store }
    ensures fault { IsErrOf result errors.Fault → Rose (V.faults vault.old.store) (V.faults vault.new.store) }
    ensures kept { (IsErrOf result errors.Fault → ⊥) → V.faults vault.new.store ≡ V.faults vault.old.store }
{
    match vault.read_log(alloc, 1) {
        Ok(_) => Ok(false),
        Err(BatchError::BadLog { at }) => Ok(at == 1),
        Err(error) => Err(error.into()),
    }
}

// The first batch; none where the log is unformatted.
fn read_first<V: Store>(alloc: Global, vault: &mut Vault<V>) -> Result<Option<First>, VerifyError>
    ensures first { IfOk result (λ found. IfSome found (λ first. CanBeSpelled (Record.Format first.index first.heap) × IfSome (V.told vault.old.store) (λ fs.
        IsFront fs.log ((Record.Format first.index first.heap ∷ []) ∷ []) first.next))) }
    ensures small { IfOk result (λ found. IfSome found (λ first. first.next < 2 ^ 62)) }
    ensures none { IfOk result (λ found. IsNone found → IfSome (V.told vault.old.store) (λ fs. IsUnformatted fs.log)) }
    ensures bad { IfErr result (λ e. (bad : ℕ) → e ≡ errors.BadLog bad → IfSome (V.told vault.old.store) (λ fs. BadAt fs.log bad)) }
    ensures same { vault.new ≡ with_store vault.old vault.new.store }
    ensures reads { OnlyReads V.told V.moment V.left_since V.may_leave vault.old.store vault.new.store }
    ensures fault { IsErrOf result errors.Fault → Rose (V.faults vault.old.store) (V.faults vault.new.store) }
    ensures kept { (IsErrOf result errors.Fault → ⊥) → V.faults vault.new.store ≡ V.faults vault.old.store }
{
    match vault.read_log(alloc, 0) {
        Ok(Found::Batch { body, next }) => match format_of(alloc, body.bytes()) {
            Some((index, heap)) => Ok(Some(First { index, heap, next })),
            None => Err(VerifyError::BadLog { at: FIRST }),
        },
        Ok(Found::End) => Ok(None),
        Err(BatchError::BadLog { at }) => {
            if is_short(alloc, vault)? {
                return Ok(None);
            }
            Err(VerifyError::BadLog { at })
        }
        Err(error) => Err(error.into()),
    }
}

// Adds the records of all batches from this place on.
fn read_on<V: Store>(
    alloc: Global,
    vault: &mut Vault<V>,
    start: u64,
    records: &mut Vec<Record>,
) -> Result<(), VerifyError>
    requires { start < 2 ^ 62 }
    ensures tail { OnOk result (IfSome (V.told vault.old.store) (λ fs. (L : List (List Record)) × (e : ℕ) × TailOf fs.log start L e × (records.new.items ≡ records.old.items ++ records_in L))) }
    ensures bad { IfErr result (λ e. (bad : ℕ) → e ≡ errors.BadLog bad → IfSome (V.told vault.old.store) (λ fs. BadFrom fs.log start bad)) }
    ensures same { vault.new ≡ with_store vault.old vault.new.store }
    ensures reads { OnlyReads V.told V.moment V.left_since V.may_leave vault.old.store vault.new.store }
    ensures fault { IsErrOf result errors.Fault → Rose (V.faults vault.old.store) (V.faults vault.new.store) }
    ensures kept { (IsErrOf result errors.Fault → ⊥) → V.faults vault.new.store ≡ V.faults vault.old.store }
{
    let mut at = start;
    'batches: while let Found::Batch { body, next } = vault.read_log(alloc, at)? {
        add_records(alloc, body.bytes(), at + 5, records)?;
        at = next;
    }
    Ok(())
}

// The records that the store's log has.
fn read_file<V: Store>(alloc: Global, vault: &mut Vault<V>) -> Result<Vec<Record>, VerifyError>
    ensures file { IfOk result (λ records. IfSome (V.told vault.old.store) (λ fs. IsInFile fs.log records.items)) }
    ensures bad { IfErr result (λ e. (bad : ℕ) → e ≡ errors.BadLog bad → IfSome (V.told vault.old.store) (λ fs. BadAt fs.log bad)) }
    ensures same { vault.new ≡ with_store vault.old vault.new.store }
    ensures reads { OnlyReads V.told V.moment V.left_since V.may_leave vault.old.store vault.new.store }
    ensures fault { IsErrOf result errors.Fault → Rose (V.faults vault.old.store) (V.faults vault.new.store) }
    ensures kept { (IsErrOf result errors.Fault → ⊥) → V.faults vault.new.store ≡ V.faults vault.old.store }
{
    let mut records = Vec::new(alloc);
    let Some(first) = read_first(alloc, vault)? else {
        return Ok(records);
    };
    records.push(Record::Format {
        index: first.index,
        heap: first.heap,
    })?;
    read_on(alloc, vault, first.next, &mut records)?;
    Ok(records)
}

// Adds the records that wait to be flushed. A system logs records alone, so the bytes of its frame spell some.
fn add_waiting(alloc: Global, system: &System, records: &mut Vec<Record>) -> Result<(), VerifyError>
    ensures ok { OnOk result ((L : List Record) × Spell (body_bytes (drop system.now.state.taken system.now.state.since)) L × (records.new.items ≡ records.old.items ++ L)) }
    ensures memory { IfErr result (λ e. e ≡ errors.OutOfMemory) }
{
    match add_records(alloc, system.frame().body(), 0, records) {
        Ok(()) => Ok(()),
        Err(_) => Err(VerifyError::OutOfMemory),
    }
}

/// The records of the whole log: those that the store has, and those that wait behind them. An unformatted log has none.
/// It takes memory for all of them.
pub fn whole_log<V: Store>(
    alloc: Global,
    system: &System,
    vault: &mut Vault<V>,
) -> Result<Vec<Record>, VerifyError>
    ensures log { IfOk result (λ log. IfSome (V.told vault.old.store) (λ fs. IsWholeLog fs.log system.now.state log.items)) }
    ensures bad { IfErr result (λ e. (bad : ℕ) → e ≡ errors.BadLog bad → IfSome (V.told vault.old.store) (λ fs. BadAt fs.log bad)) }
    ensures same { vault.new ≡ with_store vault.old vault.new.store }
    ensures reads { OnlyReads V.told V.moment V.left_since V.may_leave vault.old.store vault.new.store }
    ensures fault { IsErrOf result errors.Fault → Rose (V.faults vault.old.store) (V.faults vault.new.store) }
    ensures kept { (IsErrOf result errors.Fault → ⊥) → V.faults vault.new.store ≡ V.faults vault.old.store }
{
    let mut log = read_file(alloc, vault)?;
    add_waiting(alloc, system, &mut log)?;
    Ok(log)
}
