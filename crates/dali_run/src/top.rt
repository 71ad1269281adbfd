//! The run of the words' command over a store.
ghost use Rattle.std.specs.Prelude.{◌≡◌, ◌≤◌, ◌⊎◌, None, Some, map, string_bytes, IsErrOf};
ghost use Rattle.dali_arguments.specs.Laws.{IsInRange};
ghost use Rattle.dali_arguments.specs.Meaning.{meaning};
ghost use Rattle.dali_run.specs.Ends.{Ended, HasEnded, LastLine, course};
ghost use Rattle.dali_run.specs.Halts.{status_in};

use crate::dumping::write_dump;
use crate::generating::generate;
use crate::halt::Halt;
use crate::loading::load;
use crate::looking::{write_show, write_status};
use crate::scripts::run_source;
use crate::setting::Setting;
use crate::status::Status;
use crate::texts::write_last_line;
use dali_arguments::{Task, read};
use dali_calls::stepwise::Gate;
use dali_store::Store;
use dali_streams::{Sink, Source};
use std::alloc::Global;
use std::marker::{Send, Sync};
use std::sync::Wait;
use std::thread::Threads;

/// How many bytes the log's records have at most where the words don't say it.
const LOG_LIMIT: u64 = 67_108_864;

/// How many they have at most where rows are loaded.
const LOAD_LIMIT: u64 = 268_435_456;

// What the words name. The last line isn't written yet.
fn run_task<S: Source, K: Sink, V: Store, G: Gate>(
    alloc: Global,
    task: Task,
    source: &mut S,
    sink: &mut K,
    store: V,
    gate: &G,
) -> (V, Result<(), Halt>)
    requires range { IsInRange task }
    ensures ended { Ended V.Store (Some task) (course S.Source K.Sink source.old source.new sink.old sink.new store
        result.0) (K.taken sink.new) (K.faults sink.new) (status_in result.1) }
    ensures later { K.faults sink.old ≤ K.faults sink.new }
    ensures kept { (IsErrOf result.1 Halt.WriteFault → ⊥) → K.faults sink.new ≡ K.faults sink.old }
    ensures read { (status_in result.1 ≡ Status.ReadFault → ⊥) → S.faults source.new ≡ S.faults source.old }
{
    match task {
        Task::Run { precheck, limit } => {
            let setting = Setting {
                alloc,
                precheck,
                limit,
                gate,
            };
            run_source(&setting, source, sink, store)
        }
        Task::Generate {
            clients,
            size,
            number,
        } => {
            let setting = Setting {
                alloc,
                precheck: false,
                limit: LOG_LIMIT,
                gate,
            };
            generate(&setting, clients, size, number, sink, store)
        }
        Task::Dump => write_dump(alloc, sink, store),
        Task::Show => write_show(alloc, sink, store),
        Task::Status => write_status(alloc, sink, store),
        Task::Load { index, heap } => {
            let setting = Setting {
                alloc,
                precheck: false,
                limit: LOAD_LIMIT,
                gate,
            };
            load(&setting, index, heap, source, sink, store)
        }
    }
}

// The words are read first. The last line isn't written yet.
fn run_words<S: Source, K: Sink, V: Store, G: Gate>(
    alloc: Global,
    words: &[String],
    source: &mut S,
    sink: &mut K,
    store: V,
    gate: &G,
) -> (V, Result<(), Halt>)
    ensures ended { Ended V.Store (meaning (map string_bytes words.now)) (course S.Source K.Sink source.old source.new
        sink.old sink.new store result.0) (K.taken sink.new) (K.faults sink.new) (status_in result.1) }
    ensures later { K.faults sink.old ≤ K.faults sink.new }
    ensures kept { (IsErrOf result.1 Halt.WriteFault → ⊥) → K.faults sink.new ≡ K.faults sink.old }
    ensures read { (status_in result.1 ≡ Status.ReadFault → ⊥) → S.faults source.new ≡ S.faults source.old }
{
    match read(alloc, words) {
        Ok(task) => run_task(alloc, task, source, sink, store, gate),
        Err(error) => (store, Err(Halt::from(error))),
    }
}

// Writes the last line of a run with this result, and answers its status.
fn finish<K: Sink>(sink: &mut K, outcome: Result<(), Halt>) -> Status
    ensures status { result ≡ status_in outcome }
    ensures last { LastLine (K.taken sink.old) result (K.taken sink.new) (K.faults sink.old) (K.faults sink.new) }
    ensures later { K.faults sink.old ≤ K.faults sink.new }
{
    match outcome {
        Ok(()) => Status::Done,
        Err(halt) => {
            let _ = write_last_line(sink, halt);
            halt.status()
        }
    }
}

/// Ends a run for which there was no memory before it began: only the last line is written.
pub fn refuse<K: Sink>(sink: &mut K) -> Status
    ensures status { result ≡ Status.OutOfMemory }
    ensures last { LastLine (K.taken sink.old) result (K.taken sink.new) (K.faults sink.old) (K.faults sink.new) }
{
    finish(sink, Err(Halt::OutOfMemory))
}

/// Runs the command that the words name, which leave out the program's name. `run` reads a script from the source to its
/// end, runs it over the store, and writes the lines of each command to the sink once it is done. `gen` runs a generated
/// script, and writes a summary of what it leaves. `dump` writes a line for each record of the store's log, `show` the
/// records that a restart would find, and `status` what a stranger wants to know of the database; these three only read. Every other
/// status than `Done` and `WriteFault` ends with a last line of its own. The store comes back with every status. It takes
/// memory for the words, the script, for what the database holds, and for the lines.
///
/// The clients of a round make their steps by turns: the handle isn't used. The gate is passed by each operation of a call.
pub fn run<R: Threads + Wait + Sync, S: Source, K: Sink, V: Store + Send, G: Gate + Sync>(
    _rt: &R,
    alloc: Global,
    words: &[String],
    source: &mut S,
    sink: &mut K,
    store: V,
    gate: &G,
) -> (Status, V)
    ensures bad { result.0 ≡ Status.BadWords → meaning (map string_bytes words.now) ≡ None }
    ensures refused { meaning (map string_bytes words.now) ≡ None → (result.0 ≡ Status.BadWords) ⊎ (result.0 ≡ Status.OutOfMemory) }
    ensures ended { HasEnded V.Store (map string_bytes words.now)
        (course S.Source K.Sink source.old source.new sink.old sink.new store result.1) result.0 }
{
    let (store, outcome) = run_words(alloc, words, source, sink, store, gate);
    let status = finish(sink, outcome);
    (status, store)
}
