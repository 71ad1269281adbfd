ghost use Rattle.std.specs.Prelude.{◌≡◌};

use std::alloc::{AllocError, AllocFailed};
use thiserror::Error;

/// Memory was wanted and refused.
#[derive(Clone, Copy, Debug, PartialEq, Eq, Error)]
#[error("out of memory")]
pub struct OutOfMemory;

impl From<AllocError> for OutOfMemory {
    ghost from_gives = { λ _ _. Unit {0} };

    fn from(_error: AllocError) -> OutOfMemory {
        OutOfMemory
    }
}

impl<T: Drop> From<AllocFailed<T>> for OutOfMemory {
    ghost from_gives = { λ _ _. Unit {0} };

    fn from(_error: AllocFailed<T>) -> OutOfMemory {
        OutOfMemory
    }
}

/// Fewer bytes are left than a field has. The reader stands at the field's first byte, `at`.
#[derive(Clone, Copy, Debug, PartialEq, Eq, Error)]
#[error("the field at byte {at} is cut short")]
pub struct Short {
    pub at: usize,
}
