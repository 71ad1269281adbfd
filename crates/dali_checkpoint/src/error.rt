//! Why no checkpoint was made.
ghost use Rattle.std.specs.Prelude.{◌≡◌};
ghost use Rattle.dali_checkpoint.specs.declared.error.CheckpointError.TheVariants.{OutOfMemory as Memory};

use dali_bytes::OutOfMemory;
use dali_record::Regions;
use dali_runs::Cause;
use dali_system::SystemError;
use thiserror::Error;

/// Why a call of a checkpoint was refused.
#[derive(Debug, PartialEq, Eq, Drop, Error)]
pub enum CheckpointError {
    /// The audit found that the words of these regions haven't the parity of their codeword.
    #[error("audit failed")]
    Failed { regions: Regions },
    /// Another checkpoint is under way.
    #[error("checkpoint in progress")]
    InProgress,
    /// The engine is stopped.
    #[error("engine stopped")]
    Stopped { cause: Cause },
    /// The log has no room for the begin of an audit: with it `end`, the bytes of all records, would pass this limit.
    #[error("log full")]
    LogFull { end: u64, limit: u64 },
    /// A call of the store failed.
    #[error("store fault")]
    Fault,
    /// Memory was wanted and refused.
    #[error("out of memory")]
    OutOfMemory,
}

impl From<OutOfMemory> for CheckpointError {
    ghost from_gives = { λ _ e. e ≡ Memory };

    fn from(_: OutOfMemory) -> Self {
        CheckpointError::OutOfMemory
    }
}

impl From<SystemError> for CheckpointError {
    ghost use Rattle.std.specs.Prelude.{◌≡◌};
    ghost use Rattle.dali_checkpoint.specs.Making.{checkpoint_error};

    ghost from_gives = { λ error e. e ≡ checkpoint_error error };

    fn from(error: SystemError) -> CheckpointError {
        match error {
            SystemError::Stopped { cause } => CheckpointError::Stopped { cause },
            SystemError::LogFull { end, limit } => CheckpointError::LogFull { end, limit },
            SystemError::OutOfMemory => CheckpointError::OutOfMemory,
        }
    }
}
