//! The program `dali_trial`: what `dali` does, over a store in memory whose calls fail as asked.
#![tactic(auto)]

ghost use Rattle.std.specs.Prelude.{◌≤◌};

mod arguments;
mod counted;
mod files;
mod unsteady;

use anyhow::Result;
use arguments::{Change, Faults, command, faults_of, words_of};
use counted::Counted;
use dali_fuse::Fuse;
use dali_memstore::MemoryStore;
use dali_program::run_with;
use dali_store::Store;
use dali_streams::{MemorySink, MemorySource};
use std::alloc::Global;
use std::env;
use std::io::{self, Eprint, Input, Print, Read, Write};
use std::marker::{Send, Sync};
use std::process::ExitCode;
use std::rt::Files;
use std::sync::Wait;
use std::thread::Threads;
use unsteady::Unsteady;

/// What a run left.
#[derive(Drop)]
struct Ran {
    number: u8,
    sink: Counted<MemorySink>,
    reads: u64,
    calls: u64,
}

// Runs the words over any store, and hands it out again.
fn run_with_store<R: Threads + Wait + Sync, V: Store + Send>(
    rt: &R,
    alloc: Global,
    words: Vec<String>,
    source: MemorySource,
    sink: MemorySink,
    store: V,
) -> (Ran, V) {
    let mut source = Counted::new(source);
    let mut sink = Counted::new(sink);
    let store = Counted::new(store);
    let (number, store) = run_with(rt, alloc, Ok(words), &mut source, &mut sink, store);
    let ran = Ran {
        number,
        sink,
        reads: source.calls(),
        calls: store.calls(),
    };
    (ran, store.into_inner())
}

// Runs the words over the store, or over one that reads otherwise from a call on.
fn run_over<R: Threads + Wait + Sync>(
    rt: &R,
    alloc: Global,
    words: Vec<String>,
    source: MemorySource,
    sink: MemorySink,
    store: Fuse<MemoryStore>,
    change: Option<Change>,
) -> (Ran, Fuse<MemoryStore>) {
    match change {
        None => run_with_store(rt, alloc, words, source, sink, store),
        Some(Change { from, place }) => {
            let store = Unsteady::new(store, from, place);
            let (ran, store) = run_with_store(rt, alloc, words, source, sink, store);
            (ran, store.into_inner())
        }
    }
}

fn read_input<R: AllocGlobal + Input>(rt: &R) -> io::Result<Vec<u8>> {
    let mut input = Vec::new(rt.alloc());
    rt.reader().read_to_end(&mut input)?;
    Ok(input)
}

// Cuts the store where a crash is asked for, and writes its files back.
fn write_back<R: Files>(rt: &R, store: Fuse<MemoryStore>, crash: Option<u32>) -> Result<()> {
    let mut store = store.into_inner();
    if let Some(choice) = crash {
        store.cut(choice)?;
    }
    files::write_all(rt, &store)?;
    Ok(())
}

// Writes what was written, and tells how many calls there were.
fn tell<R: Eprint + Print>(
    rt: &R,
    taken: &[u8],
    reads: u64,
    writes: u64,
    calls: u64,
) -> Result<()> {
    io::writer(rt).write_all(taken)?;
    eprintln!(rt; "reads {reads}, writes {writes}, calls {calls}")?;
    Ok(())
}

// Runs the words over standard input and the files of the current folder. It answers the run's number.
fn run<R: AllocGlobal + Eprint + Files + Input + Print + Threads + Wait + Sync>(
    rt: &R,
    faults: Faults,
    words: Vec<String>,
) -> Result<u8>
    requires reads { 1 ≤ faults.reads_of }
    requires writes { 1 ≤ faults.writes_of }
{
    let alloc = rt.alloc();
    let source = MemorySource::new(read_input(rt)?, faults.reads_of, faults.reads);
    let sink = MemorySink::new(alloc, faults.writes_of, faults.writes);
    let store = MemoryStore::with(files::read_all(rt)?, faults.calls);
    let store = Fuse::new(store, faults.passes);
    let (ran, store) = run_over(rt, alloc, words, source, sink, store, faults.change);
    write_back(rt, store, faults.crash)?;
    let writes = ran.sink.calls();
    tell(rt, ran.sink.inner().taken(), ran.reads, writes, ran.calls)?;
    Ok(ran.number)
}

fn main(rt: HostRuntime) -> Result<ExitCode> {
    let alloc = rt.alloc();
    let words: Vec<String> = env::args(&rt)?.collect(alloc)?;
    let matches = match command(alloc)?.try_get_matches_from(words.as_slice()) {
        Ok(matches) => matches,
        Err(error) => {
            error.print(&rt)?;
            return Ok(ExitCode::from(error.exit_code() as u8));
        }
    };
    let faults = faults_of(alloc, &matches)?;
    let number = run(&rt, faults, words_of(alloc, &matches)?)?;
    Ok(ExitCode::from(number))
}
