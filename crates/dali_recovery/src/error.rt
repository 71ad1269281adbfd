//! Why a record isn't taken.
use dali_redo::RedoError;
use std::alloc::AllocError;
use thiserror::Error;

/// Why a record isn't taken, or nothing is handed out.
#[derive(Clone, Copy, Debug, PartialEq, Eq, Error)]
pub enum RecoveryError {
    /// The record may not stand where it does.
    #[error("a record doesn't fit those before it")]
    Misfit,
    /// An audit of the epoch that ends here failed, and the epoch was read without the scan for damage.
    #[error("an epoch with a failed audit has to be read again")]
    Unscanned,
    /// Memory was wanted and refused.
    #[error("out of memory")]
    OutOfMemory,
}

impl From<AllocError> for RecoveryError {
    ghost use Rattle.std.specs.Prelude.{◌≡◌};
    ghost use Rattle.dali_recovery.specs.declared.error.RecoveryError.TheVariants.{OutOfMemory as Memory};

    ghost from_gives = { λ _ e. e ≡ Memory };

    fn from(_error: AllocError) -> RecoveryError {
        RecoveryError::OutOfMemory
    }
}

impl From<RedoError> for RecoveryError {
    ghost use Rattle.std.specs.Prelude.{◌≡◌};
    ghost use Rattle.dali_recovery.specs.Errors.{refused_as};

    ghost from_gives = { λ error e. e ≡ refused_as error };

    fn from(error: RedoError) -> RecoveryError {
        match error {
            RedoError::Misfit => RecoveryError::Misfit,
            RedoError::OutOfMemory => RecoveryError::OutOfMemory,
        }
    }
}
