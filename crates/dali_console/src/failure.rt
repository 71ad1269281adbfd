//! Why a standard stream failed.
ghost use Rattle.std.specs.Prelude.{◌≡◌};
ghost use Rattle.std.specs.IoError.{error_kind, raw_os_error};
ghost use Rattle.dali_console.specs.Failures.{failure_behind, failure_of, failure_of_kind, failure_of_number};

use std::io::{self, ErrorKind};
use thiserror::Error;

// The numbers by which Linux tells an input or output error, and a descriptor that isn't open. They have no kinds of their own.
const INPUT_OUTPUT: i32 = 5;

const BAD_DESCRIPTOR: i32 = 9;

/// Why a standard stream failed.
#[derive(Clone, Copy, Debug, PartialEq, Eq, Error)]
pub enum StreamFailure {
    /// The program was started without it, or it can't be read or written.
    #[error("is closed")]
    Closed,
    /// A folder was given in its place.
    #[error("is a folder")]
    IsFolder,
    /// Whoever read it has ended.
    #[error("broken pipe")]
    BrokenPipe,
    /// The file system of its file is full.
    #[error("no space left")]
    NoSpaceLeft,
    /// The user has no space left.
    #[error("quota exceeded")]
    QuotaExceeded,
    /// Its file is as long as the system lets it be.
    #[error("file too large")]
    FileTooLarge,
    /// It takes no byte.
    #[error("takes no more bytes")]
    TakesNoMore,
    /// The device failed.
    #[error("input/output error")]
    InputOutput,
    /// It has nothing to give or no room now, and doesn't wait.
    #[error("doesn't wait")]
    WouldBlock,
    /// An error that has no name here, by its number.
    #[error("system error {number}")]
    System {
        /// The number by which the system names it.
        number: i32,
    },
    /// Any other one.
    #[error("another error")]
    Other,
}

// The failure that a kind of error tells, where it tells one.
fn failure_of_kind(kind: ErrorKind) -> Option<StreamFailure>
    ensures { result ≡ failure_of_kind kind }
{
    match kind {
        ErrorKind::IsADirectory => Some(StreamFailure::IsFolder),
        ErrorKind::BrokenPipe => Some(StreamFailure::BrokenPipe),
        ErrorKind::StorageFull => Some(StreamFailure::NoSpaceLeft),
        ErrorKind::QuotaExceeded => Some(StreamFailure::QuotaExceeded),
        ErrorKind::FileTooLarge => Some(StreamFailure::FileTooLarge),
        ErrorKind::WriteZero => Some(StreamFailure::TakesNoMore),
        ErrorKind::WouldBlock => Some(StreamFailure::WouldBlock),
        _ => None,
    }
}

// The failure that the system's number tells.
fn failure_of_number(number: Option<i32>) -> StreamFailure
    ensures { result ≡ failure_of_number number }
{
    match number {
        Some(number) if number == INPUT_OUTPUT => StreamFailure::InputOutput,
        Some(number) if number == BAD_DESCRIPTOR => StreamFailure::Closed,
        Some(number) => StreamFailure::System { number },
        None => StreamFailure::Other,
    }
}

// The failure that an error tells: by its kind, else by its number.
pub(crate) fn failure_of(error: &io::Error) -> StreamFailure
    ensures { result ≡ failure_of error.now }
{
    match failure_of_kind(error.kind()) {
        Some(failure) => failure,
        None => failure_of_number(error.raw_os_error()),
    }
}

// The last failure behind a call that failed: one that was interrupted is made again, and is none.
pub(crate) fn failure_behind(error: &io::Error, old: Option<StreamFailure>) -> Option<StreamFailure>
    ensures { result ≡ failure_behind error.now old }
{
    if error.kind() == ErrorKind::Interrupted {
        old
    } else {
        Some(failure_of(error))
    }
}
