//! A put that is logged and flushed, is cut by a crash, and is rolled back by a restart.
use super::operations::is_free_again;
use super::plans::{Seen, advance};
use anyhow::{Context, Result};
use dali_calls::Plan;
use dali_core::{Core, flush};
use dali_geometry::Geometry;
use dali_memstore::MemoryStore;
use dali_record::Call;
use dali_region::Region;
use dali_restart::{format, restart};
use dali_store::Store;
use dali_words::Value;
use std::alloc::Global;
use std::test::*;

const LIMIT: u64 = 1_000_000;

// A core over a formatted store.
fn new_core(alloc: Global, geometry: Geometry) -> Option<Core<MemoryStore>> {
    let store = MemoryStore::new(alloc, Vec::new(alloc));
    match format(alloc, store, geometry, LIMIT) {
        Ok(core) => Some(core),
        Err(_) => None,
    }
}

// Makes the plan's next operation on the region with this number.
fn make<V: Store>(plan: &mut Plan, core: &mut Core<V>, number: usize) -> Option<Seen> {
    let region = core.regions.get_mut(number)?;
    advance(plan, region, &mut core.system)
}

fn flush_all<V: Store>(core: &mut Core<V>, alloc: Global) -> Option<()> {
    if core.vault.end() >= 1 << 62 {
        return None;
    }
    flush(core, alloc).ok()
}

// The look and the put of an insert, which has one operation more and no answer yet.
fn put<V: Store>(core: &mut Core<V>) -> Option<(Seen, Seen)> {
    let (txn, _) = core.system.begin().ok()?;
    let value = Value::from_bytes(b"abc")?;
    let call = Call::Insert { key: 7, value };
    let mut plan = Plan::new(core.system.geometry(), txn, call);
    let look = make(&mut plan, core, 0)?;
    let put = make(&mut plan, core, 1)?;
    Some((look, put))
}

// What a crash leaves of the store.
fn cut<V: Store + Drop>(core: Core<V>) -> Option<V> {
    let mut store = core.into_store();
    match store.cut(0) {
        Ok(()) => Some(store),
        Err(_) => None,
    }
}

// Whether the index region is as it was formatted, and the put's cell free.
fn is_as_before(regions: &mut [Region]) -> Option<(bool, bool)> {
    let geometry = Geometry::new(1, 1).ok()?;
    let index = regions.first()?.words() == &geometry.formatted(0);
    let heap = regions.get_mut(1)?;
    Some((index, is_free_again(heap)?))
}

// Who is rolled back by a restart and how many are deleted, and what stands in the regions then.
fn restarted<V: Store + Drop>(alloc: Global, store: V) -> Option<(Vec<u64>, usize, (bool, bool))> {
    match restart(alloc, store, LIMIT) {
        Ok((mut core, report)) => {
            let stands = is_as_before(&mut core.regions)?;
            Some((report.rolled_back, report.deleted.len(), stands))
        }
        Err(_) => None,
    }
}

// The put's cell is in use before the crash.
fn crashed(alloc: Global) -> Option<((Seen, Seen), (Vec<u64>, usize, (bool, bool)))> {
    let geometry = Geometry::new(1, 1).ok()?;
    let mut core = new_core(alloc, geometry)?;
    let put = put(&mut core)?;
    flush_all(&mut core, alloc)?;
    let store = cut(core)?;
    Some((put, restarted(alloc, store)?))
}

#[test]
fn a_flushed_put_is_rolled_back(rt: HostRuntime) -> Result<()> {
    let (put, (rolled_back, deleted, stands)) = crashed(rt.alloc()).context("a refusal")?;
    assert!(rt;
        put == ((true, 0, false), (false, 8, false))
            && (rolled_back.as_slice(), deleted, stands) == ([1].as_slice(), 0, (true, true))
    );
    Ok(())
}
