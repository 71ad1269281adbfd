//! How far a transaction has come.

/// Where a transaction stands.
#[derive(Clone, Copy, PartialEq, Eq)]
pub enum State {
    /// Its client works on it.
    Live,
    /// Its client died; if it did so inside an operation, this region is still latched for it.
    Dead { latched: Option<u32> },
    /// Another client has claimed it and takes it back, beginning with the region that was still latched, if there was one.
    Cleaning { latched: Option<u32> },
    /// Its commit is on the log.
    Committed,
}
