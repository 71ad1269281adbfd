//! Why a batch or a log isn't read.
ghost use Rattle.std.specs.Prelude.{◌≡◌};
ghost use Rattle.dali_log.specs.declared.error.BatchError.TheVariants.{Fault as BatchFault, OutOfMemory as BatchMemory};
ghost use Rattle.dali_log.specs.declared.error.LogError.TheVariants.{Fault as LogFault, OutOfMemory as LogMemory};
ghost use Rattle.dali_log.specs.Errors.{log_error};

use dali_store::StoreFault;
use std::alloc::{AllocError, AllocFailed};
use thiserror::Error;

/// Why no batch was found.
#[derive(Clone, Copy, Debug, PartialEq, Eq, Error)]
pub enum BatchError {
    /// A call of the store failed.
    #[error("store fault")]
    Fault,
    /// The log is bad at this place of the file.
    #[error("bad store log {at}")]
    BadLog { at: u64 },
    /// Memory for the batch was refused.
    #[error("out of memory")]
    OutOfMemory,
}

impl From<StoreFault> for BatchError {
    ghost from_gives = { λ _ e. e ≡ BatchFault };

    fn from(_: StoreFault) -> Self {
        BatchError::Fault
    }
}

impl From<AllocError> for BatchError {
    ghost from_gives = { λ _ e. e ≡ BatchMemory };

    fn from(_: AllocError) -> Self {
        BatchError::OutOfMemory
    }
}

/// Why the log wasn't read.
#[derive(Clone, Copy, Debug, PartialEq, Eq, Error)]
pub enum LogError {
    /// A call of the store failed.
    #[error("store fault")]
    Fault,
    /// No batch was ever written: the log has fewer than two bytes, or its first gate is closed.
    #[error("unformatted")]
    Unformatted,
    /// The log is bad at this place of the file.
    #[error("bad store log {at}")]
    BadLog { at: u64 },
    /// Memory for the records was refused.
    #[error("out of memory")]
    OutOfMemory,
}

impl From<StoreFault> for LogError {
    ghost from_gives = { λ _ e. e ≡ LogFault };

    fn from(_: StoreFault) -> Self {
        LogError::Fault
    }
}

impl<T: Drop> From<AllocFailed<T>> for LogError {
    ghost from_gives = { λ _ e. e ≡ LogMemory };

    fn from(_: AllocFailed<T>) -> Self {
        LogError::OutOfMemory
    }
}

impl From<BatchError> for LogError {
    ghost from_gives = { λ b e. e ≡ log_error b };

    fn from(error: BatchError) -> Self {
        match error {
            BatchError::Fault => LogError::Fault,
            BatchError::BadLog { at } => LogError::BadLog { at },
            BatchError::OutOfMemory => LogError::OutOfMemory,
        }
    }
}
