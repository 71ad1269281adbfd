//! The records of the log, written out.
ghost use Rattle.std.specs.Prelude.{◌≡◌, ◌≤◌, List, ℕ, IfErr, IsErrOf, OnOk};
ghost use Rattle.dali_streams.specs.Streams.{Appends};
ghost use Rattle.dali_run.specs.Dumping.{Dumps};
ghost use Rattle.dali_run.specs.Stops.{DumpStops};

use crate::halt::Halt;
use crate::texts::write_whole;
use dali_dump::dump;
use dali_store::Store;
use dali_streams::Sink;
use std::alloc::Global;

/// Writes a line for each record of the store's log, once all are made.
pub fn write_dump<K: Sink, V: Store>(
    alloc: Global,
    sink: &mut K,
    mut store: V,
) -> (V, Result<(), Halt>)
    ensures done { OnOk result.1
        ((text : List ℕ) × Dumps V.Store store text result.0 × Appends (K.taken sink.old) text (K.taken sink.new)) }
    ensures stops { IfErr result.1 (λ halt. DumpStops V.Store K.Sink halt store result.0 sink.old sink.new) }
    ensures later { K.faults sink.old ≤ K.faults sink.new }
    ensures kept { (IsErrOf result.1 Halt.WriteFault → ⊥) → K.faults sink.new ≡ K.faults sink.old }
{
    match dump(alloc, &mut store) {
        Ok(text) => {
            let written = write_whole(sink, &text);
            (store, written)
        }
        Err(error) => (store, Err(Halt::from(error))),
    }
}
