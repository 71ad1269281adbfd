//! How a run ends.
use dali_script::Kind;
use dali_store::FileName;

/// How a run ended.
#[derive(Clone, Copy, PartialEq, Eq)]
pub enum Status {
    /// Everything was read and run.
    Done,
    /// The words are not those of a command.
    BadWords,
    /// The script isn't in the grammar: the first wrong line, from 1, and what is wrong with it.
    BadScript { line: u64, kind: Kind },
    /// The script is longer than its limit.
    TooLong,
    /// The source failed.
    ReadFault,
    /// The sink failed.
    WriteFault,
    /// The store failed by itself: outside a round, or in the round of `gen`.
    StoreFault,
    /// A file of the store isn't in its form, from this byte on.
    BadStore { file: FileName, at: u64 },
    /// The store holds no database.
    Unformatted,
    /// The store holds one already.
    Formatted,
    /// The store gave other bytes when it was read again.
    StoreUnsteady,
    /// The record of a restart would have more bytes than a batch.
    RecordTooLong,
    /// Memory was wanted and refused.
    OutOfMemory,
    /// The log has no room for a command: `end` is where it ends with the records that wait, `limit` how far it may go.
    LogFull { end: u64, limit: u64 },
    /// The regions have no room for the records.
    TooSmall,
    /// The records aren't all there, for another reason than want of room.
    NotLoaded,
}
