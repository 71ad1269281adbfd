//! Requests for a lock that were refused.

use dali_locks::Mode;

/// A request for a lock that was answered Busy.
#[derive(Clone, Copy, PartialEq, Eq)]
pub struct Refusal {
    /// The transaction that asked.
    pub txn: u64,
    /// The key that it asked for, and the mode.
    pub key: u64,
    pub mode: Mode,
    /// The oldest transaction in its way.
    pub holder: u64,
    /// How many records the log had then.
    pub at: u64,
}
