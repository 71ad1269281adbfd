//! Databases that are made and filled.
use crate::calls::{CALLS, Kind, LIMIT, begin, call_all, run_transaction, sizes_for, values};
use crate::timing::Timing;
use anyhow::{Result, ensure};
use dali_core::{Core, flush};
use dali_geometry::Geometry;
use dali_memstore::MemoryStore;
use dali_restart::format;
use dali_store::{FileName, Store};
use dali_transactions::commit as commit_durably;
use dali_words::Value;
use std::alloc::Global;
use std::rt::Clock;
use std::time::{Duration, Instant};

/// How many records are inserted in all while growth is timed, where the count of one database divides it.
const RECORDS: u32 = 100_000;

/// How many records the database has that is updated while its size stays.
const KEPT: u32 = 10_000;

/// How many of its transactions one flush makes durable.
const GROUP: u32 = 100;

/// A new database of these sizes.
pub fn make<V: Store + Drop>(alloc: Global, store: V, geometry: Geometry) -> Result<Core<V>> {
    match format(alloc, store, geometry, LIMIT) {
        Ok(core) => Ok(core),
        Err(refused) => Err(refused.error.into()),
    }
}

// A durable transaction, which inserts so many records from the one with this number on.
fn commit_inserts<V: Store>(
    alloc: Global,
    core: &mut Core<V>,
    first: u64,
    inserts: u32,
    values: &[Value; 2],
) -> Result<()> {
    let txn = begin(&core.regions, &mut core.system)?;
    call_all(
        &mut core.regions,
        &mut core.system,
        txn,
        Kind::Insert,
        first,
        inserts,
        values,
    )?;
    commit_durably(core, alloc, txn)?;
    Ok(())
}

// So many durable transactions of so many inserts each.
fn fill<V: Store>(
    alloc: Global,
    core: &mut Core<V>,
    transactions: u32,
    inserts: u32,
) -> Result<()> {
    let values = values()?;
    for number in 0..transactions as u64 {
        let first = number.wrapping_mul(inserts as u64);
        commit_inserts(alloc, core, first, inserts, &values)?;
    }
    Ok(())
}

// Makes a database in a store, and commits so many transactions of so many inserts each. It answers how long the commits took,
// and the length of the log.
fn time_filling<V: Store + Drop>(
    clock: &impl Clock,
    alloc: Global,
    store: V,
    transactions: u32,
    inserts: u32,
) -> Result<(Duration, u64)> {
    let sizes = sizes_for(transactions.saturating_mul(inserts))?;
    let mut core = make(alloc, store, sizes)?;
    let start = Instant::now(clock)?;
    fill(alloc, &mut core, transactions, inserts)?;
    let elapsed = start.elapsed(clock)?;
    let mut store = core.into_store();
    Ok((elapsed, store.length(FileName::Log)?))
}

/// Commits so many transactions of one insert each. The check number is the log's length.
pub fn commit<V: Store + Drop>(
    clock: &impl Clock,
    alloc: Global,
    store: V,
    count: u32,
) -> Result<Timing> {
    let (elapsed, length) = time_filling(clock, alloc, store, count, 1)?;
    Ok(Timing::new(count as u64, "commits", elapsed).checked(length))
}

// So many transactions of one update each, on one record after another from this one on, and a flush of them all.
fn update_group<V: Store>(
    alloc: Global,
    core: &mut Core<V>,
    first: u32,
    transactions: u32,
    values: &[Value; 2],
) -> Result<()> {
    for number in 0..transactions as u64 {
        let key = (first as u64 + number) % KEPT as u64;
        run_transaction(
            alloc,
            &mut core.regions,
            &mut core.system,
            Kind::Update,
            key,
            1,
            values,
        )?;
    }
    ensure!(core.vault.end() < 1 << 62, "the log is too long");
    flush(core, alloc)?;
    Ok(())
}

/// Commits so many transactions of one update each, rounded down to hundreds, to a database of 10,000 records. One flush makes a
/// hundred of them durable. The check number is the log's length.
pub fn update_steadily<V: Store + Drop>(
    clock: &impl Clock,
    alloc: Global,
    store: V,
    count: u32,
) -> Result<Timing> {
    let values = values()?;
    let mut core = make(alloc, store, sizes_for(KEPT)?)?;
    fill(alloc, &mut core, KEPT / CALLS, CALLS)?;
    let groups = count / GROUP;
    let start = Instant::now(clock)?;
    for group in 0..groups {
        let first = group % (KEPT / GROUP) * GROUP;
        update_group(alloc, &mut core, first, GROUP, &values)?;
    }
    let elapsed = start.elapsed(clock)?;
    let length = core.into_store().length(FileName::Log)?;
    Ok(Timing::new(groups as u64 * GROUP as u64, "commits", elapsed).checked(length))
}

// The same in a new store in memory, in transactions of five.
fn time_memory(clock: &impl Clock, alloc: Global, transactions: u32) -> Result<(Duration, u64)> {
    let store = MemoryStore::new(alloc, Vec::new(alloc));
    time_filling(clock, alloc, store, transactions, CALLS)
}

/// Makes a database in memory, commits so many transactions of five inserts each, and gives the database up, as a script of
/// them does: all of it is timed. The check number is the log's length.
pub fn commit_in_memory(clock: &impl Clock, alloc: Global, transactions: u32) -> Result<Timing> {
    let store = MemoryStore::new(alloc, Vec::new(alloc));
    let start = Instant::now(clock)?;
    let sizes = sizes_for(transactions.saturating_mul(CALLS))?;
    let mut core = make(alloc, store, sizes)?;
    fill(alloc, &mut core, transactions, CALLS)?;
    let store = core.into_store();
    let elapsed = start.elapsed(clock)?;
    let length = store.file(FileName::Log).len() as u64;
    Ok(Timing::new(transactions as u64, "transactions", elapsed).checked(length))
}

/// Inserts so many records in transactions of five into a new database in memory, as often as that makes at most 100,000 in all,
/// and at least once. Making the databases isn't timed. The check number is the sum of the lengths of their logs.
pub fn grow(clock: &impl Clock, alloc: Global, count: u32) -> Result<Timing> {
    let transactions = count / CALLS;
    ensure!(transactions > 0, "fewer than five records");
    let rounds = (RECORDS / CALLS / transactions).max(1);
    let mut elapsed = Duration::ZERO;
    let mut bytes: u64 = 0;
    for _ in 0..rounds {
        let (round, length) = time_memory(clock, alloc, transactions)?;
        elapsed = elapsed.saturating_add(round);
        bytes = bytes.wrapping_add(length);
    }
    let records = (rounds as u64 * transactions as u64).saturating_mul(CALLS as u64);
    Ok(Timing::new(records, "inserts", elapsed).checked(bytes))
}
