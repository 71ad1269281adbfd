//! The program `dali_bench_script`: it times a script that is run, and prints its rate.
#![tactic(auto)]

use anyhow::{Context, Result, bail, ensure};
use dali_geometry::Geometry;
use dali_memstore::MemoryStore;
use dali_run::{OpenGate, Status, run};
use dali_store::FileName;
use dali_streams::{MemorySink, MemorySource};
use std::alloc::Global;
use std::env;
use std::fmt::Write;
use std::marker::Sync;
use std::rt::Clock;
use std::sync::Wait;
use std::thread::Threads;
use std::time::{Duration, Instant};

/// How many bytes are read or written at a time.
const PART: usize = 65_536;

/// How many records a transaction inserts.
const INSERTS: u32 = 5;

// The key of the record with this number: the same numbers as those of `dali_bench`, which look random.
fn key_of(number: u64) -> u64 {
    number.wrapping_mul(0x9e37_79b9_7f4a_7c15)
}

// The lines of a transaction, whose first record has this number.
fn put_transaction(first: u64, text: &mut String) -> Result<()> {
    text.push_str("begin\n")?;
    for insert in 0..INSERTS as u64 {
        let key = key_of(first.wrapping_add(insert));
        write!(text, "insert {key} abc\n")?;
    }
    text.push_str("commit\n")?;
    Ok(())
}

// The first lines. The database has sizes for so many records, five in a heap region and ten in an index region.
fn header(alloc: Global, records: u32) -> Result<String> {
    let geometry = Geometry::new(records / 10 + 1, records / 5 + 1)?;
    let index = geometry.index();
    let heap = geometry.heap();
    Ok(format!(in alloc; "size {index} {heap}\nclient 1\n")?)
}

// A script of one client with so many transactions.
fn script(alloc: Global, transactions: u32) -> Result<String> {
    let mut text = header(alloc, transactions.saturating_mul(INSERTS))?;
    for number in 0..transactions as u64 {
        put_transaction(number.wrapping_mul(INSERTS as u64), &mut text)?;
    }
    text.push_str("end\n")?;
    Ok(text)
}

// One run over a store in memory. A function of its own, so that what is timed around it is proved without its clauses.
fn run_over<R: Threads + Wait + Sync>(
    rt: &R,
    alloc: Global,
    words: &[String],
    source: MemorySource,
    store: MemoryStore,
) -> (Status, MemoryStore) {
    let mut source = source;
    let mut sink = MemorySink::new(alloc, PART, Vec::new(alloc));
    run(rt, alloc, words, &mut source, &mut sink, store, &OpenGate)
}

// A script of so many transactions is run over a store in memory. It answers how long that took, and the log's length.
fn time<R: Clock + Threads + Wait + Sync>(
    rt: &R,
    alloc: Global,
    transactions: u32,
) -> Result<(Duration, usize)> {
    let text = script(alloc, transactions)?;
    let words = vec![in alloc; String::from_str(alloc, "run")?]?;
    let source = MemorySource::new(text.as_bytes().to_vec(alloc)?, PART, Vec::new(alloc));
    let store = MemoryStore::new(alloc, Vec::new(alloc));
    let start = Instant::now(rt)?;
    let (status, store) = run_over(rt, alloc, &words, source, store);
    let elapsed = start.elapsed(rt)?;
    ensure!(status == Status::Done, "the script wasn't run");
    Ok((elapsed, store.file(FileName::Log).len()))
}

// How many a second, rounded down. What took no time counts as a nanosecond.
fn rate(count: u32, elapsed: Duration) -> u128 {
    count as u128 * 1_000_000_000 / elapsed.as_nanos().max(1)
}

fn main(rt: HostRuntime) -> Result<()> {
    let alloc = rt.alloc();
    let words: Vec<String> = env::args(&rt)?.collect(alloc)?;
    let [_, word] = words.as_slice() else {
        bail!("usage: dali_bench_script COUNT, or dali_bench_script small");
    };
    if word.as_str() == "small" {
        time(&rt, alloc, 10)?;
        println!(rt; "ok")?;
        return Ok(());
    }
    let count = word.parse::<u32>().context("COUNT is a number below 2^32")?;
    let (elapsed, check) = time(&rt, alloc, count)?;
    let rate = rate(count, elapsed);
    println!(rt; "{rate} transactions a second, check {check}")?;
    Ok(())
}
