//! Why a store isn't inspected.
ghost use Rattle.std.specs.Prelude.{◌≡◌};
ghost use Rattle.dali_inspect.specs.Errors.{inspect_error};
ghost use Rattle.dali_inspect.specs.declared.error.InspectError.TheVariants as errors;

use dali_restart::RestartError;
use dali_store::{FileName, StoreFault};
use std::alloc::AllocError;
use thiserror::Error;

/// Why a store isn't inspected.
#[derive(Clone, Copy, Debug, PartialEq, Eq, Error)]
pub enum InspectError {
    /// A call of the store failed.
    #[error("store fault")]
    StoreFault,
    /// This file is bad at this place.
    #[error("bad store {file} {at}")]
    BadStore { file: FileName, at: u64 },
    /// The files hold no database.
    #[error("unformatted")]
    Unformatted,
    /// The record of a restart would have more bytes than a batch.
    #[error("lists too long")]
    TooLong,
    /// Memory was wanted and refused.
    #[error("out of memory")]
    OutOfMemory,
}

impl From<StoreFault> for InspectError {
    ghost from_gives = { λ _ e. e ≡ errors.StoreFault };

    fn from(_: StoreFault) -> Self {
        InspectError::StoreFault
    }
}

impl From<AllocError> for InspectError {
    ghost from_gives = { λ _ e. e ≡ errors.OutOfMemory };

    fn from(_: AllocError) -> Self {
        InspectError::OutOfMemory
    }
}

impl From<RestartError> for InspectError {
    ghost from_gives = { λ error e. e ≡ inspect_error error };

    // That of a restart over the copy.
    fn from(error: RestartError) -> Self {
        match error {
            RestartError::BadStore { file, at } => InspectError::BadStore { file, at },
            RestartError::Unformatted => InspectError::Unformatted,
            RestartError::TooLong => InspectError::TooLong,
            // a store in memory fails for want of it alone, has a database where it is restarted, and reads the same each time
            RestartError::Fault
            | RestartError::Formatted
            | RestartError::Unsteady
            | RestartError::OutOfMemory => InspectError::OutOfMemory,
        }
    }
}
