//! Why a transaction didn't end.
ghost use Rattle.std.specs.Prelude.{◌≡◌};
ghost use Rattle.dali_transactions.specs.Refused.{commit_error, abort_error};

use dali_runs::Cause;
use dali_system::SystemError;
use thiserror::Error;

/// Why a transaction isn't committed.
#[derive(Clone, Copy, Debug, PartialEq, Eq, Error)]
pub enum CommitError {
    /// The engine is stopped. Nothing has changed.
    #[error("engine stopped")]
    Stopped { cause: Cause },
    /// Memory was wanted and refused. Nothing has changed.
    #[error("out of memory")]
    OutOfMemory,
    /// The transaction isn't in the state that is asked for, or the core isn't one that a run leaves. Nothing has changed.
    #[error("no such transaction")]
    Unfit,
    /// A call of the store failed. The commit is logged and isn't flushed, and the engine is stopped.
    #[error("store fault")]
    Fault,
}

// Why the record of a commit is refused.
pub(crate) fn commit_refused(error: SystemError) -> CommitError
    ensures { result ≡ commit_error error }
{
    match error {
        SystemError::Stopped { cause } => CommitError::Stopped { cause },
        // a commit uses no room in the log, so it is never full for it
        SystemError::LogFull { .. } | SystemError::OutOfMemory => CommitError::OutOfMemory,
    }
}

/// Why a transaction isn't taken back as a whole.
#[derive(Clone, Copy, Debug, PartialEq, Eq, Error)]
pub enum AbortError {
    /// The engine is stopped. Nothing has changed.
    #[error("engine stopped")]
    Stopped { cause: Cause },
    /// Memory was wanted and refused. The transaction is live, and what was taken back stays so.
    #[error("out of memory")]
    OutOfMemory,
    /// The transaction isn't live, or the core isn't one that a run leaves. Nothing has changed.
    #[error("no live transaction")]
    Unfit,
}

// Why the record of a taking back or of an end is refused.
pub(crate) fn abort_refused(error: SystemError) -> AbortError
    ensures { result ≡ abort_error error }
{
    match error {
        SystemError::Stopped { cause } => AbortError::Stopped { cause },
        // what takes back uses no room in the log, so it is never full for it
        SystemError::LogFull { .. } | SystemError::OutOfMemory => AbortError::OutOfMemory,
    }
}
