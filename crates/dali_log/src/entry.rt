//! What is written behind the records of a batch.
ghost use Rattle.std.specs.Prelude.{◌≡◌, ◌≤◌, ◌+◌, ◌++◌, length, vec_len, vec_capacity, OnOk, OnErr, IsOk};
ghost use Rattle.dali_record.specs.Spelling.{CanBeSpelled, spelling};
ghost use Rattle.dali_log.specs.Entries.{record_of};

use dali_bytes::OutOfMemory;
use dali_record::{
    Block, Record, encode, encode_back, encode_op, encode_solo, length, op_record_length,
    solo_record_length,
};

/// A record that is to be written, or the parts of an operation's record: its block is borrowed, and isn't copied into a record
/// first.
#[derive(Clone, Copy)]
pub enum Entry<'a> {
    /// A record.
    Whole(&'a Record),
    /// An operation of this transaction.
    Op {
        txn: u64,
        block: &'a Block,
    },
    /// An operation that takes back.
    Back {
        txn: u64,
        block: &'a Block,
    },
    /// The one operation of a solo, with the transaction whose removal it frees.
    Solo {
        txn: u64,
        parent: u64,
        block: &'a Block,
    },
}

/// How many bytes its spelling has.
pub fn entry_length(given: Entry<'_>) -> u64
    requires { CanBeSpelled (record_of given) }
    ensures { result ≡ length (spelling (record_of given.entry)) }
{
    match given {
        Entry::Whole(rec) => length(rec),
        Entry::Op { txn, block } => op_record_length(txn, block),
        Entry::Back { txn, block } => op_record_length(txn, block),
        Entry::Solo { block, .. } => solo_record_length(block),
    }
}

// Appends its spelling. No memory is wanted where there is room.
pub(crate) fn append(given: Entry<'_>, into: &mut Vec<u8>) -> Result<(), OutOfMemory>
    requires { CanBeSpelled (record_of given) }
    ensures ok { OnOk result (into.new.items ≡ into.old.items ++ spelling (record_of given.entry)) }
    ensures err { OnErr result (into.new.items ≡ into.old.items) }
    ensures room { vec_len into.old + length (spelling (record_of given.entry)) ≤ vec_capacity into.old → IsOk result }
    ensures capacity { vec_capacity into.old ≤ vec_capacity into.new }
{
    match given {
        Entry::Whole(rec) => encode(rec, into),
        Entry::Op { txn, block } => encode_op(txn, block, into),
        Entry::Back { txn, block } => encode_back(txn, block, into),
        Entry::Solo { txn, parent, block } => encode_solo(txn, parent, block, into),
    }
}
