//! A vault over a store in memory behind a fuse.
ghost use Rattle.std.specs.Prelude.{◌<◌, length};

use dali_core::vault::Vault;
use dali_fuse::Fuse;
use dali_log::{Frame, format, is_formatted};
use dali_memstore::MemoryStore;
use dali_store::Store;
use std::alloc::Global;

// The record of a format with one index region and one heap region.
const FIRST: [u8; 10] = [1, 1, 0, 0, 0, 1, 0, 0, 0, 1];

// The calls that a format makes: a sync, a length and a read; a length, two writes and two syncs; a batch's four.
const BEFORE: u64 = 12;

// Formats a store with this first batch.
fn vault_of<V: Store + Drop>(store: V, first: &Frame) -> Option<Vault<V>>
    requires { 0 < length first.now.body }
{
    let mut store = store;
    match is_formatted(&mut store) {
        Ok(false) => {}
        _ => return None,
    }
    match format(&mut store, first) {
        Ok(end) => Some(Vault::new(store, end, 0)),
        Err(_) => None,
    }
}

/// The vault of a store that passes so many calls on once it is formatted, with its first batch. It takes memory for both.
pub fn new_vault(alloc: Global, passes: u64) -> Option<(Vault<Fuse<MemoryStore>>, Frame)> {
    let fuse = Fuse::new(
        MemoryStore::new(alloc, Vec::new(alloc)),
        Some(BEFORE.saturating_add(passes)),
    );
    let Ok(mut first) = Frame::new(alloc) else {
        return None;
    };
    if first.add(&FIRST).is_err() || first.is_empty() {
        return None;
    }
    let vault = vault_of(fuse, &first)?;
    Some((vault, first))
}
