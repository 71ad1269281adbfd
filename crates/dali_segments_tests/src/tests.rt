//! What a log in segments reads, drops and refuses.
mod segments;

use dali_store::{FileName, Store, StoreFault};

// Writes to the log at a place that it has, or at its end.
pub fn write<V: Store>(store: &mut V, at: u64, bytes: &[u8]) -> Result<(), StoreFault> {
    let length = store.length(FileName::Log)?;
    if length < at {
        return Err(StoreFault);
    }
    store.write_at(FileName::Log, at, bytes)
}

// Drops the log below a place that it has.
pub fn drop_below<V: Store>(store: &mut V, below: u64) -> Result<u64, StoreFault> {
    let length = store.length(FileName::Log)?;
    if length <= below {
        return Err(StoreFault);
    }
    store.drop_log(below)
}
