//! Why words ask for nothing.
ghost use Rattle.std.specs.Prelude.{◌≡◌};
ghost use Rattle.clap.specs.Words.{kind_of};
ghost use Rattle.dali_arguments.specs.Errors.{cause_of};
ghost use Rattle.dali_arguments.specs.declared.error.ArgumentError.TheVariants.{OutOfMemory};

use clap::Error as ClapError;
use clap::error::ErrorKind;
use std::alloc::AllocError;
use thiserror::Error;

/// Why words ask for nothing.
#[derive(Clone, Copy, Debug, PartialEq, Eq, Error)]
pub enum ArgumentError {
    /// The words mean no task.
    #[error("faulty words")]
    Faulty,
    /// Memory was wanted and refused.
    #[error("out of memory")]
    OutOfMemory,
}

impl From<ClapError> for ArgumentError {
    ghost from_gives = { λ error e. e ≡ cause_of (kind_of error) };

    fn from(error: ClapError) -> Self {
        match error.kind() {
            ErrorKind::OutOfMemory => ArgumentError::OutOfMemory,
            _ => ArgumentError::Faulty,
        }
    }
}

impl From<AllocError> for ArgumentError {
    ghost from_gives = { λ _ e. e ≡ OutOfMemory };

    fn from(_: AllocError) -> Self {
        ArgumentError::OutOfMemory
    }
}
