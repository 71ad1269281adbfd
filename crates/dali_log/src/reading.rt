//! The whole log, read from its first gate to its end.
ghost use Rattle.std.specs.Prelude.{◌≡◌, ◌<◌, ◌^◌, ℕ, List, IfOk, IfErr, IsErrOf, IfSome};
ghost use Rattle.dali_record.specs.declared.records.Record.{Record};
ghost use Rattle.dali_log.specs.Batch.{IsUnformatted};
ghost use Rattle.dali_log.specs.Reads.{ReadsOrFails};
ghost use Rattle.dali_log.specs.Log.{LogOf, BadAt, records_in};

use crate::{LogError, LogReader};
use dali_record::Record;
use dali_store::Store;
use std::alloc::Global;

/// What a log holds.
#[derive(Drop)]
pub struct Log {
    /// The records of all its batches, in order, the format first.
    pub records: Vec<Record>,
    /// The place of the closed gate where the log ends.
    pub end: u64,
}

/// The records of the whole log, and the place where it ends. `Unformatted` exactly where the log has fewer than two
/// bytes or its first gate is closed. `BadLog` exactly where the bytes are no log, with the first bad place. That is a
/// place without a gate, a length that isn't 1 to 2^30 with so many bytes behind it, or a place in a batch where no
/// record begins. Or it is the first batch's first byte of records, where that batch holds anything but one Format.
/// `Fault` exactly where the store's count of faults rose. It takes memory for all records; a `LogReader` hands them
/// out one by one.
pub fn read_log<V: Store>(alloc: Global, store: &mut V) -> Result<Log, LogError>
    ensures log { IfOk result (λ log. IfSome (V.told store.old) (λ fs.
        (L : List (List Record)) × LogOf fs.log L log.end × (log.records.items ≡ records_in L))) }
    ensures small { IfOk result (λ log. log.end < 2 ^ 62) }
    ensures bad { IfErr result (λ e. (bad : ℕ) → e ≡ LogError.BadLog bad → IfSome (V.told store.old) (λ fs. BadAt fs.log bad)) }
    ensures unformatted { IsErrOf result LogError.Unformatted → IfSome (V.told store.old) (λ fs. IsUnformatted fs.log) }
    ensures store { ReadsOrFails V.Store (IsErrOf result LogError.Fault) store.old store.new }
{
    let (mut reader, (index, heap)) = LogReader::open(alloc, store)?;
    let mut records = Vec::new(alloc);
    records.push(Record::Format { index, heap })?;
    'records: while let Some(next) = reader.next(store)? {
        records.push(next.entry)?;
    }
    Ok(Log {
        records,
        end: reader.at(),
    })
}
