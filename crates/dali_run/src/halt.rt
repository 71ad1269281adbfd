//! What ends a run before its script is done: its status, and its last line.
ghost use Rattle.std.specs.Prelude.{◌≡◌};
ghost use Rattle.dali_run.specs.declared.halt.Halt.TheVariants.{OutOfMemory, StoreFault};

use crate::status::Status;
use dali_arguments::ArgumentError;
use dali_dump::DumpError;
use dali_inspect::InspectError;
use dali_restart::RestartError;
use dali_script::{Kind, ScriptError};
use dali_store::{FileName, StoreFault};
use dali_streams::ReadError;
use std::alloc::AllocError;

/// Why a script wasn't run to its end.
#[derive(Clone, Copy, PartialEq, Eq)]
pub enum Halt {
    /// The words aren't those of a command.
    BadWords,
    /// The bytes aren't in the grammar of scripts: the first wrong line, and what is wrong with it.
    BadScript { line: u64, kind: Kind },
    /// The script is longer than its limit.
    TooLong,
    /// The source failed.
    ReadFault,
    /// The sink failed in writing an answer.
    WriteFault,
    /// The store failed by itself: outside a round, or in the round of `gen`.
    StoreFault,
    /// A file of the store isn't in its form, from this byte on.
    BadStore { file: FileName, at: u64 },
    /// A database was to be found, and the log has none.
    Unformatted,
    /// A database was to be made, and the log has one.
    Formatted,
    /// A restart read the store more than once, and it gave other bytes then.
    StoreUnsteady,
    /// The record of a restart would have more than the 2^30 bytes of a batch.
    RecordTooLong,
    /// The log has no room for a command: `end` is where it ends with the records that wait, `limit` how far it may go.
    LogFull { end: u64, limit: u64 },
    /// Memory was wanted and refused.
    OutOfMemory,
    /// The regions have no room for the rows of the source.
    TooSmall,
    /// The rows of the source aren't all there, for another reason than want of room.
    NotLoaded,
}

impl From<AllocError> for Halt {
    ghost from_gives = { λ _ e. e ≡ OutOfMemory };

    fn from(_: AllocError) -> Self {
        Halt::OutOfMemory
    }
}

impl From<dali_bytes::OutOfMemory> for Halt {
    ghost from_gives = { λ _ e. e ≡ OutOfMemory };

    fn from(_: dali_bytes::OutOfMemory) -> Self {
        Halt::OutOfMemory
    }
}

impl From<StoreFault> for Halt {
    ghost from_gives = { λ _ e. e ≡ StoreFault };

    fn from(_: StoreFault) -> Self {
        Halt::StoreFault
    }
}

impl From<ArgumentError> for Halt {
    ghost use Rattle.dali_run.specs.Halts.{halt_of_words};

    ghost from_gives = { λ error e. e ≡ halt_of_words error };

    fn from(error: ArgumentError) -> Self {
        match error {
            ArgumentError::Faulty => Halt::BadWords,
            ArgumentError::OutOfMemory => Halt::OutOfMemory,
        }
    }
}

impl From<DumpError> for Halt {
    ghost use Rattle.dali_run.specs.Halts.{halt_of_dump};

    ghost from_gives = { λ error e. e ≡ halt_of_dump error };

    fn from(error: DumpError) -> Self {
        match error {
            DumpError::Fault => Halt::StoreFault,
            DumpError::BadLog { at } => Halt::BadStore {
                file: FileName::Log,
                at,
            },
            DumpError::Unformatted => Halt::Unformatted,
            DumpError::OutOfMemory => Halt::OutOfMemory,
        }
    }
}

impl From<RestartError> for Halt {
    ghost use Rattle.dali_run.specs.Halts.{halt_of_restart};

    ghost from_gives = { λ error e. e ≡ halt_of_restart error };

    fn from(error: RestartError) -> Self {
        match error {
            RestartError::Fault => Halt::StoreFault,
            RestartError::BadStore { file, at } => Halt::BadStore { file, at },
            RestartError::Unformatted => Halt::Unformatted,
            RestartError::Formatted => Halt::Formatted,
            RestartError::TooLong => Halt::RecordTooLong,
            RestartError::Unsteady => Halt::StoreUnsteady,
            RestartError::OutOfMemory => Halt::OutOfMemory,
        }
    }
}

impl From<InspectError> for Halt {
    ghost use Rattle.dali_run.specs.Halts.{halt_of_inspection};

    ghost from_gives = { λ error e. e ≡ halt_of_inspection error };

    fn from(error: InspectError) -> Self {
        match error {
            InspectError::StoreFault => Halt::StoreFault,
            InspectError::BadStore { file, at } => Halt::BadStore { file, at },
            InspectError::Unformatted => Halt::Unformatted,
            InspectError::TooLong => Halt::RecordTooLong,
            InspectError::OutOfMemory => Halt::OutOfMemory,
        }
    }
}

impl From<ScriptError> for Halt {
    ghost use Rattle.dali_run.specs.Halts.{halt_of_script};

    ghost from_gives = { λ error e. e ≡ halt_of_script error };

    fn from(error: ScriptError) -> Self {
        match error {
            ScriptError::BadLine { line, kind } => Halt::BadScript { line, kind },
            ScriptError::OutOfMemory => Halt::OutOfMemory,
        }
    }
}

impl From<ReadError> for Halt {
    ghost use Rattle.dali_run.specs.Halts.{halt_of_read};

    ghost from_gives = { λ error e. e ≡ halt_of_read error };

    fn from(error: ReadError) -> Self {
        match error {
            ReadError::Fault => Halt::ReadFault,
            ReadError::TooLong => Halt::TooLong,
            ReadError::OutOfMemory => Halt::OutOfMemory,
        }
    }
}

impl Halt {
    ghost use Rattle.dali_run.specs.Halts.{status_of};

    /// The status of a run that ends so.
    pub fn status(self) -> Status
        ensures { result ≡ status_of self }
    {
        match self {
            Halt::BadWords => Status::BadWords,
            Halt::BadScript { line, kind } => Status::BadScript { line, kind },
            Halt::TooLong => Status::TooLong,
            Halt::ReadFault => Status::ReadFault,
            Halt::WriteFault => Status::WriteFault,
            Halt::StoreFault => Status::StoreFault,
            Halt::BadStore { file, at } => Status::BadStore { file, at },
            Halt::Unformatted => Status::Unformatted,
            Halt::Formatted => Status::Formatted,
            Halt::StoreUnsteady => Status::StoreUnsteady,
            Halt::RecordTooLong => Status::RecordTooLong,
            Halt::LogFull { end, limit } => Status::LogFull { end, limit },
            Halt::OutOfMemory => Status::OutOfMemory,
            Halt::TooSmall => Status::TooSmall,
            Halt::NotLoaded => Status::NotLoaded,
        }
    }
}
