//! What changed a store.
use crate::bytes::Bytes;
use dali_store::FileName;

#[derive(Drop)]
pub enum Event {
    Wrote {
        file: FileName,
        at: usize,
        bytes: Bytes,
    },
    Synced {
        file: FileName,
    },
    Cut {
        choice: u32,
    },
}
