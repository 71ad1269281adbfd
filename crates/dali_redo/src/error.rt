//! Why a record isn't taken.
use std::alloc::AllocError;
use thiserror::Error;

/// Why a record wasn't applied or skipped.
#[derive(Clone, Copy, Debug, PartialEq, Eq, Error)]
pub enum RedoError {
    /// The record breaks its rule: it doesn't fit what went before it.
    #[error("a record doesn't fit those before it")]
    Misfit,
    /// Memory was wanted and refused.
    #[error("out of memory")]
    OutOfMemory,
}

impl From<AllocError> for RedoError {
    ghost use Rattle.std.specs.Prelude.{◌≡◌};
    ghost use Rattle.dali_redo.specs.declared.error.RedoError.TheVariants.{OutOfMemory as Memory};

    ghost from_gives = { λ _ e. e ≡ Memory };

    fn from(_error: AllocError) -> RedoError {
        RedoError::OutOfMemory
    }
}
