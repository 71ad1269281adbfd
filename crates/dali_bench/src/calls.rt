//! Record calls of one client, in transactions, over regions and a system in memory.
ghost use Rattle.std.specs.Prelude.{◌≡◌, ◌<◌, length, OnOk, IfOk};
ghost use Rattle.dali_geometry.specs.Places.{regions as regions_of};
ghost use Rattle.dali_bench.specs.Calls.{MayServe};

use crate::keys::{mix_bytes, scattered};
use crate::timing::Timing;
use anyhow::{Context, Result, ensure};
use dali_calls::single::{commit, perform, settle};
use dali_geometry::Geometry;
use dali_record::{Answer, Call};
use dali_region::Region;
use dali_system::System;
use dali_words::Value;
use std::alloc::{AllocError, Global};
use std::rt::Clock;
use std::time::Instant;

/// The greatest limit of a log, in bytes.
pub const LIMIT: u64 = 268_435_456;

/// How many calls a transaction makes, where it isn't said.
pub const CALLS: u32 = 5;

/// What is done with each key.
#[derive(Clone, Copy, PartialEq, Eq)]
pub enum Kind {
    /// Its record is inserted.
    Insert,
    /// Its record is read.
    Get,
    /// Its record gets another value.
    Update,
    /// Its record is removed.
    Delete,
}

// What is counted.
fn unit<'a>(kind: Kind) -> &'a str {
    match kind {
        Kind::Insert => "inserts",
        Kind::Get => "gets",
        Kind::Update => "updates",
        Kind::Delete => "deletes",
    }
}

/// Sizes for so many records, five in a heap region and ten in an index region.
pub fn sizes_for(records: u32) -> Result<Geometry> {
    Ok(Geometry::new(records / 10 + 1, records / 5 + 1)?)
}

/// The value of an inserted record, and that of an updated one.
pub fn values() -> Result<[Value; 2]> {
    Ok([
        Value::from_bytes(b"abc").context("no value")?,
        Value::from_bytes(b"xyz").context("no value")?,
    ])
}

/// The regions of a new database.
pub fn load(alloc: Global, geometry: &Geometry) -> Result<Vec<Region>, AllocError>
    ensures { IfOk result (λ regions. length regions.items ≡ regions_of geometry.now) }
{
    let count = geometry.regions();
    let mut regions = Vec::with_capacity(alloc, count as usize)?;
    for region in 0..count {
        regions.push(Region::load(geometry.formatted(region)))?;
    }
    Ok(regions)
}

fn call_of(kind: Kind, key: u64, values: &[Value; 2]) -> Call {
    match kind {
        Kind::Insert => Call::Insert {
            key,
            value: values[0],
        },
        Kind::Get => Call::Get { key },
        Kind::Update => Call::Update {
            key,
            value: values[1],
        },
        Kind::Delete => Call::Delete { key },
    }
}

// A call, which has a good answer.
fn call_once(
    regions: &mut [Region],
    system: &mut System,
    txn: u64,
    kind: Kind,
    key: u64,
    values: &[Value; 2],
) -> Result<()>
    requires { MayServe regions.old system.old.state txn }
    ensures { OnOk result (MayServe regions.new system.new.state txn) }
{
    let answer = perform(regions, system, txn, call_of(kind, key, values), false)?;
    ensure!(
        matches!(answer, Answer::Ok | Answer::Got { .. }),
        "a call failed"
    );
    Ok(())
}

/// Makes the calls of a transaction, on the keys from this place on.
pub fn call_all(
    regions: &mut [Region],
    system: &mut System,
    txn: u64,
    kind: Kind,
    first: u64,
    calls: u32,
    values: &[Value; 2],
) -> Result<()>
    requires { MayServe regions.old system.old.state txn }
    ensures { OnOk result (MayServe regions.new system.new.state txn) }
{
    for place in 0..calls as u64 {
        let key = scattered(first.wrapping_add(place));
        call_once(regions, system, txn, kind, key, values)?;
    }
    Ok(())
}

/// Begins a transaction, where these are the system's regions.
#[tactic(auto, using(dali_calls::proofs::SingleLemmas::Guards::begun_lives, dali_calls::proofs::SingleLemmas::Guards::begun_covered))]
pub fn begin(regions: &[Region], system: &mut System) -> Result<u64>
    ensures { IfOk result (λ txn. MayServe regions.now system.new.state txn) }
{
    ensure!(
        regions.len() == system.geometry().regions() as usize,
        "these aren't the system's regions"
    );
    let (txn, _) = system.begin()?;
    Ok(txn)
}

// Commits a transaction, frees what it removed, and ends it.
fn end(alloc: Global, regions: &mut [Region], system: &mut System, txn: u64) -> Result<()>
    requires { MayServe regions.old system.old.state txn }
{
    let removals = commit(alloc, system, txn)?;
    settle(regions, system, txn, &removals)?;
    Ok(())
}

/// A whole transaction, which makes so many calls on the keys from this place on. Its records are left in the system's frame.
pub fn run_transaction(
    alloc: Global,
    regions: &mut [Region],
    system: &mut System,
    kind: Kind,
    first: u64,
    calls: u32,
    values: &[Value; 2],
) -> Result<()> {
    let txn = begin(regions, system)?;
    call_all(regions, system, txn, kind, first, calls, values)?;
    end(alloc, regions, system, txn)
}

// So many calls, in transactions of so many. What each logs goes into the log.
fn run_transactions(
    alloc: Global,
    regions: &mut [Region],
    system: &mut System,
    log: &mut Vec<u8>,
    kind: Kind,
    transactions: u32,
    calls: u32,
) -> Result<()> {
    let values = values()?;
    for number in 0..transactions as u64 {
        let first = number.wrapping_mul(calls as u64);
        run_transaction(alloc, regions, system, kind, first, calls, &values)?;
        log.extend_from_slice(system.frame().body())?;
        system.flushed();
    }
    Ok(())
}

// So many calls in transactions of `calls`, on keys that were inserted before where the calls find them. The check number
// is that of the bytes that the system logged.
fn run_in(clock: &impl Clock, alloc: Global, kind: Kind, count: u32, calls: u32) -> Result<Timing>
    requires { 0 < calls }
{
    let geometry = sizes_for(count)?;
    let mut regions = load(alloc, &geometry)?;
    let mut system = System::new(alloc, geometry, 1, 1, 10, LIMIT)?;
    let mut log = Vec::new(alloc);
    if kind != Kind::Insert {
        run_transactions(
            alloc,
            &mut regions,
            &mut system,
            &mut log,
            Kind::Insert,
            count / CALLS,
            CALLS,
        )?;
    }
    let transactions = count / calls;
    let start = Instant::now(clock)?;
    run_transactions(
        alloc,
        &mut regions,
        &mut system,
        &mut log,
        kind,
        transactions,
        calls,
    )?;
    let timing = Timing::since(clock, start, transactions as u64 * calls as u64, unit(kind))?;
    Ok(timing.checked(mix_bytes(log.as_slice())))
}

/// So many calls on as many keys, in transactions of five.
pub fn run(clock: &impl Clock, alloc: Global, kind: Kind, count: u32) -> Result<Timing> {
    run_in(clock, alloc, kind, count, CALLS)
}

/// So many inserts in transactions of ten, which is more than a heap region has cells.
pub fn run_tens(clock: &impl Clock, alloc: Global, count: u32) -> Result<Timing> {
    run_in(clock, alloc, Kind::Insert, count, 2 * CALLS)
}
