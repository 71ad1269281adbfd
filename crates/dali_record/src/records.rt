use crate::lists::{Numbers, Regions};
use crate::operations::Block;
use dali_words::Value;

/// A call on a record.
#[derive(Clone, Copy, PartialEq, Eq)]
pub enum Call {
    /// Stores a record with this key and value.
    Insert { key: u64, value: Value },
    /// Gives the record with this key another value.
    Update { key: u64, value: Value },
    /// Removes the record with this key.
    Delete { key: u64 },
    /// Asks for the value of the record with this key.
    Get { key: u64 },
}

/// What a call answered.
#[derive(Clone, Copy, PartialEq, Eq)]
pub enum Answer {
    /// The record was stored, changed or removed.
    Ok,
    /// There is a record with the key already.
    Exists,
    /// There is no record with the key.
    Missing,
    /// The record's value.
    Got { value: Value },
    /// No heap region has a free cell.
    FullHeap,
    /// No index region has a free entry.
    FullIndex,
    /// The entry with the key names this place, and no record with the key can be there.
    Odd { place: u64 },
}

/// A record of the log. A transaction, a call on it and a block are said by number, so that the log alone tells what
/// happened.
#[derive(Drop, PartialEq, Eq)]
pub enum Record {
    /// The first record of a log: so many index regions, from 1 to 32768, and heap regions, from 1 to 65536.
    Format {
        index: u32,
        heap: u32,
    },
    /// The transaction begins.
    Begin {
        txn: u64,
    },
    /// An operation of the transaction's present call.
    Forward {
        txn: u64,
        block: Block,
    },
    /// The transaction's present call was answered.
    Done {
        txn: u64,
        call: Call,
        answer: Answer,
    },
    /// The transaction is committed.
    Commit {
        txn: u64,
    },
    /// The transaction has ended: it is committed and what it removed is free, or all its changes were taken back.
    Ended {
        txn: u64,
    },
    /// A block that is a transaction of its own: it frees what the committed transaction `parent` removed.
    Solo {
        txn: u64,
        parent: u64,
        block: Block,
    },
    /// An audit begins.
    AuditBegin,
    /// The audit that began at the record with this number found no region damaged.
    AuditClean {
        begin: u64,
    },
    /// The audit that began at the record with this number found these regions damaged: at least one, ascending.
    AuditFail {
        begin: u64,
        regions: Regions,
    },
    /// A restart recovered the log so far: the unfinished transactions that it rolled back, and the committed ones that
    /// it deleted, each ascending.
    Restarted {
        rolled_back: Numbers,
        deleted: Numbers,
    },
    /// An operation that takes back the last change of the transaction that still stands.
    Back {
        txn: u64,
        block: Block,
    },
}
