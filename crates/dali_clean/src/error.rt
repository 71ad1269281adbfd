//! Why a clean-up was refused.

use dali_runs::Cause;
use dali_system::{NotDead, SystemError};
use thiserror::Error;

/// Why a transaction wasn't cleaned up.
#[derive(Clone, Copy, Debug, PartialEq, Eq, Error)]
pub enum CleanError {
    /// The transaction isn't dead. Nothing has changed.
    #[error("the transaction isn't dead")]
    NotDead,
    /// The engine is stopped. The transaction is dead again.
    #[error("engine stopped")]
    Stopped { cause: Cause },
    /// Memory was wanted and refused. The transaction is dead again.
    #[error("out of memory")]
    OutOfMemory,
}

impl From<NotDead> for CleanError {
    ghost use Rattle.std.specs.Prelude.{◌≡◌};
    ghost use Rattle.dali_clean.specs.declared.error.CleanError.TheVariants.{NotDead as IsNotDead};

    ghost from_gives = { λ _ e. e ≡ IsNotDead };

    fn from(_error: NotDead) -> CleanError {
        CleanError::NotDead
    }
}

impl From<SystemError> for CleanError {
    ghost use Rattle.std.specs.Prelude.{◌≡◌};
    ghost use Rattle.dali_clean.specs.Refused.{clean_error};

    ghost from_gives = { λ error e. e ≡ clean_error error };

    fn from(error: SystemError) -> CleanError {
        match error {
            SystemError::Stopped { cause } => CleanError::Stopped { cause },
            // a clean-up uses no room in the log, so it is never full for it
            SystemError::LogFull { .. } | SystemError::OutOfMemory => CleanError::OutOfMemory,
        }
    }
}
