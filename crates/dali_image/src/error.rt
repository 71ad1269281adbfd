//! Why an image or the anchor isn't read.
ghost use Rattle.std.specs.Prelude.{◌≡◌};
ghost use Rattle.dali_image.specs.declared.error.ImageError.TheVariants.{Fault, OutOfMemory};
ghost use Rattle.dali_image.specs.declared.error.TableError.TheVariants.{Bad, OutOfMemory as TableMemory};

use dali_bytes::Short;
use dali_store::{FileName, StoreFault};
use std::alloc::{AllocError, AllocFailed};
use thiserror::Error;

/// Why an image or the anchor wasn't read.
#[derive(Clone, Copy, Debug, PartialEq, Eq, Error)]
pub enum ImageError {
    /// A call of the store failed.
    #[error("store fault")]
    Fault,
    /// This file is bad at this place.
    #[error("bad store {file} {at}")]
    BadImage { file: FileName, at: u64 },
    /// Memory was wanted and refused.
    #[error("out of memory")]
    OutOfMemory,
}

impl From<StoreFault> for ImageError {
    ghost from_gives = { λ _ e. e ≡ Fault };

    fn from(_: StoreFault) -> Self {
        ImageError::Fault
    }
}

impl From<AllocError> for ImageError {
    ghost from_gives = { λ _ e. e ≡ OutOfMemory };

    fn from(_: AllocError) -> Self {
        ImageError::OutOfMemory
    }
}

/// Bytes are bad at this place.
#[derive(Clone, Copy)]
pub struct BadAt {
    pub at: usize,
}

impl From<Short> for BadAt {
    ghost from_gives = { λ short e. e.at ≡ short.at };

    fn from(short: Short) -> Self {
        BadAt { at: short.at }
    }
}

/// Why no table was read.
#[derive(Clone, Copy)]
pub enum TableError {
    /// The table is bad at this place.
    Bad { at: usize },
    /// Memory was wanted and refused.
    OutOfMemory,
}

impl From<BadAt> for TableError {
    ghost from_gives = { λ bad e. e ≡ Bad bad.at };

    fn from(bad: BadAt) -> Self {
        TableError::Bad { at: bad.at }
    }
}

impl From<AllocError> for TableError {
    ghost from_gives = { λ _ e. e ≡ TableMemory };

    fn from(_: AllocError) -> Self {
        TableError::OutOfMemory
    }
}

impl<T: Drop> From<AllocFailed<T>> for TableError {
    ghost from_gives = { λ _ e. e ≡ TableMemory };

    fn from(_: AllocFailed<T>) -> Self {
        TableError::OutOfMemory
    }
}
