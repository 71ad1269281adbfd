//! Why a command is refused.
ghost use Rattle.std.specs.Prelude.{◌≡◌, Some, None, IfOk, OnErr};
ghost use Rattle.dali_turns.specs.Whys.{why_in};

use dali_bytes::OutOfMemory;
use dali_system::SystemError;
use dali_transcripts::clients::Why;

/// Why a command is refused where the system refuses its record. Want of memory refuses no command, it ends the round.
pub(crate) fn why_of(error: SystemError) -> Result<Why, OutOfMemory>
    ensures given { IfOk result (λ why. why_in error ≡ Some why) }
    ensures memory { OnErr result (why_in error ≡ None) }
{
    match error {
        SystemError::Stopped { cause } => Ok(Why::Stopped { cause }),
        SystemError::LogFull { end, limit } => Ok(Why::LogFull { end, limit }),
        SystemError::OutOfMemory => Err(OutOfMemory),
    }
}
