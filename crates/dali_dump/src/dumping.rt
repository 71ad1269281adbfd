//! The whole log as lines.
ghost use Rattle.std.specs.Prelude.{◌≡◌, ◌≤◌, ℕ, IfOk, IfErr, IsErrOf, IfSome};
ghost use Rattle.dali_store.specs.Calls.{PassesFewer};
ghost use Rattle.dali_store.specs.Faults.{Rose};
ghost use Rattle.dali_log.specs.Batch.{IsUnformatted};
ghost use Rattle.dali_log.specs.Log.{BadAt};
ghost use Rattle.dali_log.specs.Reads.{OnlyReads};
ghost use Rattle.dali_dump.specs.Lines.{IsDump};

use crate::error::DumpError;
use crate::lines::put_line;
use dali_log::LogReader;
use dali_record::Record;
use dali_store::Store;
use std::alloc::Global;

/// The lines of all records of the log, numbered from 0, read from its first byte. Batches and records are tested, and that the
/// first batch holds the one record Format; what a record may follow isn't. The store is only read.
///
/// `Unformatted` exactly where the log has fewer than two bytes or its first gate is closed; `BadLog` exactly where the bytes are
/// no log, with the first bad place; `Fault` exactly where the store's count of faults rose. It takes memory for the text, for
/// one record, and for the part of the log that is read at once.
pub fn dump<V: Store>(alloc: Global, store: &mut V) -> Result<Vec<u8>, DumpError>
    ensures dump { IfOk result (λ text. IfSome (V.told store.old) (λ fs. IsDump fs.log text.items)) }
    ensures bad { IfErr result (λ e. (bad : ℕ) → e ≡ DumpError.BadLog bad → IfSome (V.told store.old) (λ fs. BadAt fs.log bad)) }
    ensures unformatted { IsErrOf result DumpError.Unformatted → IfSome (V.told store.old) (λ fs. IsUnformatted fs.log) }
    ensures reads { OnlyReads V.told V.moment V.left_since V.may_leave store.old store.new }
    ensures later { V.faults store.old ≤ V.faults store.new }
    ensures fault { IsErrOf result DumpError.Fault → Rose (V.faults store.old) (V.faults store.new) }
    ensures kept { (IsErrOf result DumpError.Fault → ⊥) → V.faults store.new ≡ V.faults store.old }
    ensures passes { PassesFewer (V.lets_pass store.old) (V.lets_pass store.new) }
{
    let (mut reader, (index, heap)) = LogReader::open(alloc, store)?;
    let mut text = Vec::new(alloc);
    put_line(0, &Record::Format { index, heap }, &mut text)?;
    let mut number = 1;
    'records: while let Some(next) = reader.next(store)? {
        put_line(number, &next.entry, &mut text)?;
        number += 1;
    }
    Ok(text)
}
