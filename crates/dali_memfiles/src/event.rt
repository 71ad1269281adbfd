//! What changes the files.
use crate::bytes::Bytes;
use dali_files::FileKey;

/// A change, as contracts keep it. No value of it is made when the program runs.
#[derive(Drop)]
pub enum Event {
    Wrote {
        file: FileKey,
        at: usize,
        bytes: Bytes,
    },
    Synced {
        file: FileKey,
    },
    Removed {
        file: FileKey,
    },
    Cut {
        choice: u32,
    },
}

/// A change, as a call makes it.
#[derive(Clone, Copy)]
pub enum Change<'a> {
    Wrote {
        file: FileKey,
        at: usize,
        bytes: &'a [u8],
    },
    Synced {
        file: FileKey,
    },
    Removed {
        file: FileKey,
    },
    Cut {
        choice: u32,
    },
}
