//! What the program prints.

use dali_record::Numbers;
use dali_runs::Cause;
use dali_script::Name;
use dali_words::Value;

/// A line that no client says.
#[derive(Drop)]
pub enum Line {
    /// `NAME stopped damage R`, `NAME stopped store`: the engine is stopped.
    Stopped { name: Name, cause: Cause },
    /// `rolled back LIST`: the unfinished transactions that a restart undid.
    RolledBack { transactions: Numbers },
    /// `deleted LIST`: the committed transactions that a restart deleted.
    Deleted { transactions: Numbers },
    /// The store failed in a restart.
    RestartStoreStopped,
    /// `cleaned LIST`: the transactions of dead clients that were taken back.
    Cleaned { transactions: Numbers },
    /// `KEY VALUE`: a record that `show` lists.
    Shown { key: u64, value: Value },
    /// `records COUNT`
    Records { count: u64 },
    /// Records, answers and deleted transactions are those of a replay of the log.
    VerifyOk,
    VerifyDiffers,
    /// The store failed while the log was read.
    VerifyStoreStopped,
    /// `fuse N`
    Fuse { passes: u64 },
    /// `crash N`
    Crash { choice: u32 },
    /// `NAME down`: the program is down.
    Down { name: Name },
    RoundDown,
}
