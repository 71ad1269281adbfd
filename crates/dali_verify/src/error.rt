//! Why an engine wasn't compared with its log.
ghost use Rattle.std.specs.Prelude.{◌≡◌};
ghost use Rattle.dali_verify.specs.Errors.{read_as};
ghost use Rattle.dali_verify.specs.declared.error.VerifyError.TheVariants.{OutOfMemory as Memory};

use dali_bytes::OutOfMemory;
use dali_log::BatchError;
use std::alloc::{AllocError, AllocFailed};
use thiserror::Error;

/// Why an engine wasn't compared with its log.
#[derive(Clone, Copy, Debug, PartialEq, Eq, Error)]
pub enum VerifyError {
    /// A call of the store failed.
    #[error("store fault")]
    Fault,
    /// The log is bad at this place of its file.
    #[error("bad store log {at}")]
    BadLog { at: u64 },
    /// Memory was wanted and refused.
    #[error("out of memory")]
    OutOfMemory,
}

impl From<BatchError> for VerifyError {
    ghost from_gives = { λ error e. e ≡ read_as error };

    fn from(error: BatchError) -> Self {
        match error {
            BatchError::Fault => VerifyError::Fault,
            BatchError::BadLog { at } => VerifyError::BadLog { at },
            BatchError::OutOfMemory => VerifyError::OutOfMemory,
        }
    }
}

impl From<AllocError> for VerifyError {
    ghost from_gives = { λ _ e. e ≡ Memory };

    fn from(_: AllocError) -> Self {
        VerifyError::OutOfMemory
    }
}

impl<T: Drop> From<AllocFailed<T>> for VerifyError {
    ghost from_gives = { λ _ e. e ≡ Memory };

    fn from(_: AllocFailed<T>) -> Self {
        VerifyError::OutOfMemory
    }
}

impl From<OutOfMemory> for VerifyError {
    ghost from_gives = { λ _ e. e ≡ Memory };

    fn from(_: OutOfMemory) -> Self {
        VerifyError::OutOfMemory
    }
}

impl From<dali_replay::OutOfMemory> for VerifyError {
    ghost from_gives = { λ _ e. e ≡ Memory };

    fn from(_: dali_replay::OutOfMemory) -> Self {
        VerifyError::OutOfMemory
    }
}
