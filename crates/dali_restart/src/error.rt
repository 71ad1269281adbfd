//! Why no core was made over a store.
ghost use Rattle.std.specs.Prelude.{◌≡◌};
ghost use Rattle.dali_restart.specs.declared.error.RestartError.TheVariants as errors;
ghost use Rattle.dali_restart.specs.Causes.{log_error, image_error, reload_error, renewal_error};

use crate::renewal::RenewalError;
use dali_bytes::OutOfMemory;
use dali_image::ImageError;
use dali_log::LogError;
use dali_recovery::reload::ReloadError;
use dali_store::{FileName, Store, StoreFault};
use std::alloc::AllocError;
use thiserror::Error;

/// Why a database was neither made nor found.
#[derive(Clone, Copy, Debug, PartialEq, Eq, Error)]
pub enum RestartError {
    /// A call of the store failed.
    #[error("store fault")]
    Fault,
    /// This file is bad at this place.
    #[error("bad store {file} {at}")]
    BadStore { file: FileName, at: u64 },
    /// A database was to be found, and the log has none.
    #[error("unformatted")]
    Unformatted,
    /// A database was to be made, and the log has one.
    #[error("formatted")]
    Formatted,
    /// The record of the restart has more bytes than a batch.
    #[error("lists too long")]
    TooLong,
    /// The store gave other bytes when it was read again.
    #[error("unsteady store")]
    Unsteady,
    /// Memory was wanted and refused.
    #[error("out of memory")]
    OutOfMemory,
}

impl From<StoreFault> for RestartError {
    ghost from_gives = { λ _ e. e ≡ errors.Fault };

    fn from(_: StoreFault) -> Self {
        RestartError::Fault
    }
}

impl From<AllocError> for RestartError {
    ghost from_gives = { λ _ e. e ≡ errors.OutOfMemory };

    fn from(_: AllocError) -> Self {
        RestartError::OutOfMemory
    }
}

impl From<OutOfMemory> for RestartError {
    ghost from_gives = { λ _ e. e ≡ errors.OutOfMemory };

    fn from(_: OutOfMemory) -> Self {
        RestartError::OutOfMemory
    }
}

impl From<LogError> for RestartError {
    ghost from_gives = { λ error e. e ≡ log_error error };

    fn from(error: LogError) -> Self {
        match error {
            LogError::Fault => RestartError::Fault,
            LogError::Unformatted => RestartError::Unformatted,
            LogError::BadLog { at } => RestartError::BadStore {
                file: FileName::Log,
                at,
            },
            LogError::OutOfMemory => RestartError::OutOfMemory,
        }
    }
}

impl From<ImageError> for RestartError {
    ghost from_gives = { λ error e. e ≡ image_error error };

    fn from(error: ImageError) -> Self {
        match error {
            ImageError::Fault => RestartError::Fault,
            ImageError::BadImage { file, at } => RestartError::BadStore { file, at },
            ImageError::OutOfMemory => RestartError::OutOfMemory,
        }
    }
}

impl From<ReloadError> for RestartError {
    ghost from_gives = { λ error e. e ≡ reload_error error };

    fn from(error: ReloadError) -> Self {
        match error {
            ReloadError::Fault => RestartError::Fault,
            ReloadError::BadLog { at } => RestartError::BadStore {
                file: FileName::Log,
                at,
            },
            // a pass that scans never tells it
            ReloadError::Unscanned => RestartError::OutOfMemory,
            ReloadError::OutOfMemory => RestartError::OutOfMemory,
        }
    }
}

impl From<RenewalError> for RestartError {
    ghost from_gives = { λ error e. e ≡ renewal_error error };

    fn from(error: RenewalError) -> Self {
        match error {
            RenewalError::Fault => RestartError::Fault,
            RenewalError::TooLong => RestartError::TooLong,
            RenewalError::OutOfMemory => RestartError::OutOfMemory,
        }
    }
}

/// The store that was handed in, and why there is no core over it.
#[derive(Drop)]
pub struct Refused<V: Store> {
    pub store: V,
    pub error: RestartError,
}
