//! Why a step isn't made.
ghost use Rattle.std.specs.Prelude.{◌≡◌};

use dali_system::SystemError;
use thiserror::Error;

/// Why a step under the system's lock isn't made.
#[derive(Clone, Copy, Debug, PartialEq, Eq, Error)]
pub enum LockedError {
    /// The system refuses it. Nothing has changed.
    #[error("{cause}")]
    System { cause: SystemError },
    /// The transaction isn't in the state that is asked for, which is never so in a round. Nothing was done.
    #[error("no such transaction")]
    Unfit,
}
