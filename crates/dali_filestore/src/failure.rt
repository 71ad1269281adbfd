//! Why a call of the store failed.
ghost use Rattle.std.specs.Prelude.{◌≡◌};
ghost use Rattle.std.specs.IoError.{error_kind, raw_os_error};
ghost use Rattle.dali_filestore.specs.Failures.{cause_of, cause_of_kind, cause_of_number};

use dali_store::FileName;
use std::io::{self, ErrorKind};
use thiserror::Error;

// Linux's number of an input or output error, which has no kind of its own.
const INPUT_OUTPUT: i32 = 5;

// Linux's number of a call that a file doesn't take. Its kind is that of a bad path too.
const INVALID: i32 = 22;

/// What the operating system said of a call on a file or a folder.
#[derive(Clone, Copy, Debug, PartialEq, Eq, Error)]
pub enum Cause {
    /// The file, the folder or the folder of the folder isn't there.
    #[error("no such file or folder")]
    NotFound,
    /// Someone else's, or not to be read or written.
    #[error("permission denied")]
    PermissionDenied,
    /// A folder stands where a file should.
    #[error("is a folder")]
    IsFolder,
    /// A file stands where a folder should.
    #[error("is no folder")]
    IsNoFolder,
    /// Nothing can be written on this file system.
    #[error("read-only file system")]
    ReadOnlyFileSystem,
    /// The file system is full.
    #[error("no space left")]
    NoSpaceLeft,
    /// The user has no space left.
    #[error("quota exceeded")]
    QuotaExceeded,
    /// The file is longer than the system or the store takes: a length of 2^62 bytes and more is none.
    #[error("file too large")]
    FileTooLarge,
    /// Fewer bytes came than were to come.
    #[error("the file ends too early")]
    EndsEarly,
    /// The file took none of the bytes.
    #[error("the file takes no more bytes")]
    TakesNoMore,
    /// The device failed.
    #[error("input/output error")]
    InputOutput,
    /// A link leads back to itself.
    #[error("too many symbolic links")]
    TooManyLinks,
    /// The path of the file is longer than the system takes.
    #[error("the path is too long")]
    PathTooLong,
    /// The call took too long.
    #[error("timed out")]
    TimedOut,
    /// The system had no memory for the call.
    #[error("out of memory")]
    OutOfMemory,
    /// The file or the file system doesn't do this.
    #[error("not supported")]
    NotSupported,
    /// Something else uses it: a file also where it got the descriptor of a standard stream that is closed.
    #[error("busy")]
    Busy,
    /// An error that has no name here, by its number.
    #[error("system error {number}")]
    System {
        /// The number by which the system names it.
        number: i32,
    },
    /// Any other one.
    #[error("another error")]
    Other,
}

/// Why a call of the store failed: where, and what happened there.
#[derive(Clone, Copy, Debug, PartialEq, Eq, Error)]
pub enum Failure {
    /// Another program has the store open, and one of the two writes.
    #[error("the store is in use by another program")]
    InUse,
    /// An image or an open gate of the anchor is there, but no log: to write would destroy what the images hold.
    #[error("there are images but no log: the log was lost or moved")]
    LogMissing,
    /// The store was made for reading, and was told to write or to sync.
    #[error("the store is open for reading alone")]
    ReadingAlone,
    /// A call on the folder failed.
    #[error("the folder: {cause}")]
    Folder {
        /// What happened.
        cause: Cause,
    },
    /// A call on one of the files failed.
    #[error("dali.{file}: {cause}")]
    File {
        /// The file.
        file: FileName,
        /// What happened.
        cause: Cause,
    },
    /// A call on a segment of the log failed, but the first one, which is the file of the log.
    #[error("dali.log.{number}: {cause}")]
    Segment {
        /// Its number.
        number: u32,
        /// What happened.
        cause: Cause,
    },
}

// The cause that a kind of error tells, where it tells one.
fn cause_of_kind(kind: ErrorKind) -> Option<Cause>
    ensures { result ≡ cause_of_kind kind }
{
    match kind {
        ErrorKind::NotFound => Some(Cause::NotFound),
        ErrorKind::PermissionDenied => Some(Cause::PermissionDenied),
        ErrorKind::IsADirectory => Some(Cause::IsFolder),
        ErrorKind::NotADirectory => Some(Cause::IsNoFolder),
        ErrorKind::ReadOnlyFilesystem => Some(Cause::ReadOnlyFileSystem),
        ErrorKind::StorageFull => Some(Cause::NoSpaceLeft),
        ErrorKind::QuotaExceeded => Some(Cause::QuotaExceeded),
        ErrorKind::FileTooLarge => Some(Cause::FileTooLarge),
        ErrorKind::UnexpectedEof => Some(Cause::EndsEarly),
        ErrorKind::WriteZero => Some(Cause::TakesNoMore),
        ErrorKind::FilesystemLoop => Some(Cause::TooManyLinks),
        ErrorKind::InvalidFilename => Some(Cause::PathTooLong),
        ErrorKind::TimedOut => Some(Cause::TimedOut),
        ErrorKind::OutOfMemory => Some(Cause::OutOfMemory),
        ErrorKind::ResourceBusy | ErrorKind::ExecutableFileBusy => Some(Cause::Busy),
        ErrorKind::Unsupported => Some(Cause::NotSupported),
        _ => None,
    }
}

// The cause that the system's number tells.
fn cause_of_number(number: Option<i32>) -> Cause
    ensures { result ≡ cause_of_number number }
{
    match number {
        Some(number) if number == INPUT_OUTPUT => Cause::InputOutput,
        Some(number) if number == INVALID => Cause::NotSupported,
        Some(number) => Cause::System { number },
        None => Cause::Other,
    }
}

// The cause that an error tells: by its kind, else by its number.
pub(crate) fn cause_of(error: &io::Error) -> Cause
    ensures { result ≡ cause_of error.now }
{
    match cause_of_kind(error.kind()) {
        Some(cause) => cause,
        None => cause_of_number(error.raw_os_error()),
    }
}
