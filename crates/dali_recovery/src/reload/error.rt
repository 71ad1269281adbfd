//! Why the log isn't read.
ghost use Rattle.std.specs.Prelude.{◌≡◌};
ghost use Rattle.dali_recovery.specs.Reload.Errors.{read_as};

use dali_log::LogError;
use thiserror::Error;

/// Why the log from an image's place on isn't read.
#[derive(Clone, Copy, Debug, PartialEq, Eq, Error)]
pub enum ReloadError {
    /// A call of the store failed.
    #[error("store fault")]
    Fault,
    /// The log is bad at this place of the file, or the record that begins there may not stand there.
    #[error("bad store log {at}")]
    BadLog { at: u64 },
    /// An audit of an epoch that is to be recovered failed, and the log was read without the scan for damage.
    #[error("an epoch with a failed audit has to be read again")]
    Unscanned,
    /// Memory was wanted and refused.
    #[error("out of memory")]
    OutOfMemory,
}

impl From<LogError> for ReloadError {
    ghost from_gives = { λ error e. e ≡ read_as error };

    fn from(error: LogError) -> ReloadError {
        match error {
            LogError::Fault => ReloadError::Fault,
            LogError::Unformatted => ReloadError::BadLog { at: 0 },
            LogError::BadLog { at } => ReloadError::BadLog { at },
            LogError::OutOfMemory => ReloadError::OutOfMemory,
        }
    }
}
