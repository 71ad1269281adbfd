//! Why a log isn't dumped.
ghost use Rattle.std.specs.Prelude.{◌≡◌};
ghost use Rattle.dali_dump.specs.Errors.{dump_error};
ghost use Rattle.dali_dump.specs.declared.error.DumpError.TheVariants.{OutOfMemory as Memory};

use dali_log::LogError;
use std::alloc::AllocError;
use thiserror::Error;

/// Why a log isn't dumped.
#[derive(Clone, Copy, Debug, PartialEq, Eq, Error)]
pub enum DumpError {
    /// A call of the store failed.
    #[error("store fault")]
    Fault,
    /// No batch was ever written: the log has fewer than two bytes, or its first gate is closed.
    #[error("unformatted")]
    Unformatted,
    /// The log is bad at this place of its file.
    #[error("bad store log {at}")]
    BadLog { at: u64 },
    /// Memory for the text or a record was refused.
    #[error("out of memory")]
    OutOfMemory,
}

impl From<LogError> for DumpError {
    ghost from_gives = { λ error e. e ≡ dump_error error };

    fn from(error: LogError) -> Self {
        match error {
            LogError::Fault => DumpError::Fault,
            LogError::Unformatted => DumpError::Unformatted,
            LogError::BadLog { at } => DumpError::BadLog { at },
            LogError::OutOfMemory => DumpError::OutOfMemory,
        }
    }
}

impl From<AllocError> for DumpError {
    ghost from_gives = { λ _ e. e ≡ Memory };

    fn from(_: AllocError) -> Self {
        DumpError::OutOfMemory
    }
}
