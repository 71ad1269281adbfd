//! Why reading a record or a part of one came to nothing.
ghost use Rattle.std.specs.Prelude.{◌≡◌};

use dali_bytes::Short;
use std::alloc::{AllocError, AllocFailed};

/// No spelling begins here.
#[derive(Clone, Copy)]
pub struct NoSpelling;

impl From<Short> for NoSpelling {
    ghost from_gives = { λ _ _. Unit {0} };

    fn from(_short: Short) -> NoSpelling {
        NoSpelling
    }
}

/// Why no record was read.
pub enum Failure {
    /// No spelling begins here.
    NoSpelling,
    /// Memory was wanted and refused.
    OutOfMemory,
}

impl From<Short> for Failure {
    ghost use Rattle.dali_record.specs.declared.codec.failure.Failure.TheVariants.{NoSpelling};

    ghost from_gives = { λ _ e. e ≡ NoSpelling };

    fn from(_short: Short) -> Failure {
        Failure::NoSpelling
    }
}

impl From<NoSpelling> for Failure {
    ghost use Rattle.dali_record.specs.declared.codec.failure.Failure.TheVariants.{NoSpelling};

    ghost from_gives = { λ _ e. e ≡ NoSpelling };

    fn from(_none: NoSpelling) -> Failure {
        Failure::NoSpelling
    }
}

impl From<AllocError> for Failure {
    ghost use Rattle.dali_record.specs.declared.codec.failure.Failure.TheVariants.{OutOfMemory};

    ghost from_gives = { λ _ e. e ≡ OutOfMemory };

    fn from(_error: AllocError) -> Failure {
        Failure::OutOfMemory
    }
}

impl<T: Drop> From<AllocFailed<T>> for Failure {
    ghost use Rattle.dali_record.specs.declared.codec.failure.Failure.TheVariants.{OutOfMemory};

    ghost from_gives = { λ _ e. e ≡ OutOfMemory };

    fn from(_error: AllocFailed<T>) -> Failure {
        Failure::OutOfMemory
    }
}
