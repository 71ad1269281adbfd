//! Why a record isn't logged.

use dali_bytes::OutOfMemory;
use dali_runs::Cause;
use std::alloc::AllocError;
use thiserror::Error;

/// Why a call of the system was refused.
#[derive(Clone, Copy, Debug, PartialEq, Eq, Error)]
pub enum SystemError {
    /// The engine is stopped.
    #[error("engine stopped")]
    Stopped { cause: Cause },
    /// The log has no room: `end` and the record's length are more than `limit`.
    #[error("log full: {end} of {limit} bytes")]
    LogFull { end: u64, limit: u64 },
    /// Memory was wanted and refused; or the batch of what isn't flushed would have more than 2^30 bytes. (All records
    /// would have more than 2^62 in no run.)
    #[error("out of memory")]
    OutOfMemory,
}

impl From<OutOfMemory> for SystemError {
    ghost use Rattle.std.specs.Prelude.{◌≡◌};
    ghost use Rattle.dali_system.specs.declared.error.SystemError.TheVariants.{OutOfMemory as Memory};

    ghost from_gives = { λ _ e. e ≡ Memory };

    fn from(_error: OutOfMemory) -> SystemError {
        SystemError::OutOfMemory
    }
}

impl From<AllocError> for SystemError {
    ghost use Rattle.std.specs.Prelude.{◌≡◌};
    ghost use Rattle.dali_system.specs.declared.error.SystemError.TheVariants.{OutOfMemory as Memory};

    ghost from_gives = { λ _ e. e ≡ Memory };

    fn from(_error: AllocError) -> SystemError {
        SystemError::OutOfMemory
    }
}

/// The transaction isn't dead.
#[derive(Clone, Copy, Debug, PartialEq, Eq, Error)]
#[error("the transaction isn't dead")]
pub struct NotDead;
