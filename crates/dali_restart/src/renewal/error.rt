//! Why a restart didn't write what it came to.
ghost use Rattle.std.specs.Prelude.{◌≡◌};
ghost use Rattle.dali_restart.specs.declared.renewal.error.RenewalError.TheVariants as errors;

use dali_bytes::OutOfMemory;
use dali_store::StoreFault;
use std::alloc::AllocError;
use thiserror::Error;

/// Why a restart didn't write what it came to.
#[derive(Clone, Copy, Debug, PartialEq, Eq, Error)]
pub enum RenewalError {
    /// A call of the store failed.
    #[error("store fault")]
    Fault,
    /// The two lists of transactions have more bytes than a batch.
    #[error("lists too long")]
    TooLong,
    /// Memory was wanted and refused.
    #[error("out of memory")]
    OutOfMemory,
}

impl From<StoreFault> for RenewalError {
    ghost from_gives = { λ _ e. e ≡ errors.Fault };

    fn from(_: StoreFault) -> Self {
        RenewalError::Fault
    }
}

impl From<AllocError> for RenewalError {
    ghost from_gives = { λ _ e. e ≡ errors.OutOfMemory };

    fn from(_: AllocError) -> Self {
        RenewalError::OutOfMemory
    }
}

impl From<OutOfMemory> for RenewalError {
    ghost from_gives = { λ _ e. e ≡ errors.OutOfMemory };

    fn from(_: OutOfMemory) -> Self {
        RenewalError::OutOfMemory
    }
}
