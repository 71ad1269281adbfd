//! What clients say.

use crate::clients::command::Command;
use dali_record::{Answer, Call, Regions};
use dali_runs::Cause;

/// Why a command was refused.
#[derive(Clone, Copy, PartialEq, Eq)]
pub enum Why {
    /// The engine is stopped.
    Stopped {
        cause: Cause,
    },
    /// The log has no room: `end` and the length of the command's record are more than `limit`.
    LogFull {
        end: u64,
        limit: u64,
    },
    /// The words of this region haven't the parity `codeword`, but `found`.
    Damaged {
        region: u32,
        codeword: u64,
        found: u64,
    },
    /// The store failed in it.
    StoreStopped,
    /// Another checkpoint is under way.
    InProgress,
}

/// A line of a client, without its number.
#[derive(PartialEq, Eq, Drop)]
pub enum Line {
    /// A transaction has begun.
    Begun { txn: u64 },
    /// A call was answered.
    Answered { call: Call, answer: Answer },
    /// The transaction is committed, and stays so.
    CommitOk,
    /// The transaction was taken back, as it was told.
    AbortOk,
    /// The transaction was taken back at the end of the block, or as a try that got Busy.
    Aborted,
    /// It couldn't be taken back, for the engine is stopped.
    LeftOpen,
    /// The client died in the call.
    Died,
    /// The last try got Busy: this older transaction holds the key.
    Busy { holder: u64 },
    /// The word was changed.
    PokeOk,
    /// There is no such region.
    PokeOutOfRange,
    /// The audit found that the words of these regions haven't the parity of their codeword; none where all are clean.
    Audited { failing: Regions },
    /// The checkpoint's image is the current one; this is its number.
    Checkpointed { number: u64 },
    /// The checkpoint's audit failed.
    CheckpointFailed { failing: Regions },
    /// The command was refused.
    Refused { command: Command, why: Why },
}
