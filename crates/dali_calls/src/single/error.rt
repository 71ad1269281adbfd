//! Why a call or an end was refused.

use dali_region::LatchError;
use dali_system::SystemError;
use thiserror::Error;

/// Why a step wasn't made.
#[derive(Clone, Copy, Debug, PartialEq, Eq, Error)]
pub enum StepError {
    /// A region is latched by another transaction, or for one whose client died.
    #[error("{cause}")]
    Latch { cause: LatchError },
    /// The system took no record.
    #[error("{cause}")]
    System { cause: SystemError },
}

impl From<LatchError> for StepError {
    ghost use Rattle.std.specs.Prelude.{◌≡◌};
    ghost use Rattle.dali_calls.specs.declared.single.error.StepError.TheVariants.{Latch};

    ghost from_gives = { λ cause e. e ≡ Latch cause };

    fn from(cause: LatchError) -> StepError {
        StepError::Latch { cause }
    }
}

impl From<SystemError> for StepError {
    ghost use Rattle.std.specs.Prelude.{◌≡◌};
    ghost use Rattle.dali_calls.specs.declared.single.error.StepError.TheVariants.{System};

    ghost from_gives = { λ cause e. e ≡ System cause };

    fn from(cause: SystemError) -> StepError {
        StepError::System { cause }
    }
}

/// Why a call has no answer.
#[derive(Clone, Copy, Debug, PartialEq, Eq, Error)]
pub enum CallError {
    /// A younger transaction holds the key: the call may wait for it. Nothing was done.
    #[error("waits for transaction {holder}")]
    Wait { holder: u64 },
    /// An older transaction holds the key, and the refusal is kept. Nothing was done.
    #[error("busy: transaction {holder} holds the key")]
    Busy { holder: u64 },
    /// The call was refused, and what it had changed was taken back: the transaction may go on.
    #[error("{cause}")]
    Refused { cause: StepError },
    /// What the call had changed couldn't be taken back: the transaction can only be taken back as a whole.
    #[error("the call stands half done: {cause}")]
    HalfDone { cause: StepError },
}
