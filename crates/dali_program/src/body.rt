//! What the program does over any streams and any store.
ghost use Rattle.std.specs.Prelude.{◌≡◌, IfOk, OnErr, map, string_bytes};
ghost use Rattle.dali_run.specs.Ends.{course};
ghost use Rattle.dali_program.specs.Exits.{number_of, ExitsWith, Refuses};

use dali_run::{OpenGate, Status, refuse, run};
use dali_store::Store;
use dali_streams::{Sink, Source};
use std::alloc::{AllocError, Global};
use std::marker::{Send, Sync};
use std::sync::Wait;
use std::thread::Threads;

// The number that the program ends with.
fn code_of(status: Status) -> u8
    ensures { result ≡ number_of status }
{
    match status {
        Status::Done => 0,
        Status::BadWords => 1,
        Status::BadScript { .. } => 2,
        Status::TooLong => 3,
        Status::ReadFault => 4,
        Status::WriteFault => 5,
        Status::StoreFault => 6,
        Status::BadStore { .. } => 7,
        Status::Unformatted => 8,
        Status::Formatted => 9,
        Status::OutOfMemory => 10,
        Status::LogFull { .. } => 11,
        Status::StoreUnsteady => 12,
        Status::RecordTooLong => 13,
        Status::TooSmall => 14,
        Status::NotLoaded => 15,
    }
}

/// Runs the command that the words name, over these streams and this store, and answers the number of the run's status,
/// with the store. Where there was no memory for the words, nothing is read or run.
pub fn run_with<R: Threads + Wait + Sync, S: Source, K: Sink, V: Store + Send>(
    rt: &R,
    alloc: Global,
    words: Result<Vec<String>, AllocError>,
    source: &mut S,
    sink: &mut K,
    store: V,
) -> (u8, V)
    ensures exits { IfOk words (λ ws. ExitsWith V.Store (map string_bytes ws.items)
        (course S.Source K.Sink source.old source.new sink.old sink.new store result.1) result.0) }
    ensures refuses { OnErr words
        (Refuses (course S.Source K.Sink source.old source.new sink.old sink.new store result.1) result.0) }
{
    match words {
        Ok(words) => {
            let (status, store) = run(rt, alloc, &words, source, sink, store, &OpenGate);
            (code_of(status), store)
        }
        Err(_) => (code_of(refuse(sink)), store),
    }
}
