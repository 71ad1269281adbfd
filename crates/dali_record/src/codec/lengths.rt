ghost use Rattle.std.specs.Prelude.{◌≡◌, ◌≤◌, ℕ, length};
ghost use Rattle.dali_words.specs.Values.{IsValue};
ghost use Rattle.dali_record.specs.declared.records.Record.TheVariants.{Forward, Back, Solo};
ghost use Rattle.dali_record.specs.Spelling.{CanBeSpelled, IsOperation, IsOutcome, MayBeUndo, IsBlock, IsCall, IsAnswer, op_length, outcome_length, undo_length, block_length, call_length, answer_length, record_length, spelling};

use crate::operations::{Block, Op, Outcome, Undo};
use crate::records::{Answer, Call, Record};
use dali_words::Value;

fn value_length(value: &Value) -> u64
    ensures same { result ≡ length value.now }
    ensures few { result ≤ 40 }
{
    value.bytes().len() as u64
}

fn op_length(op: &Op) -> u64
    ensures length { result ≡ op_length op.now }
    ensures few { result ≤ 50 }
{
    match op {
        Op::Look => 1,
        Op::Add { .. } => 9,
        Op::Put { value } => 2 + value_length(value),
        Op::Change { value, .. } => 3 + value_length(value),
        Op::Restore { .. } => 50,
        Op::KillEntry { .. }
        | Op::Read { .. }
        | Op::KillCell { .. }
        | Op::FreeCell { .. }
        | Op::ReviveCell { .. }
        | Op::FreeEntry { .. }
        | Op::ReviveEntry { .. } => 2,
    }
}

fn outcome_length(outcome: &Outcome) -> u64
    ensures length { result ≡ outcome_length outcome.now }
    ensures few { result ≤ 42 }
{
    match outcome {
        Outcome::Found { .. } => 10,
        Outcome::Absent { .. } | Outcome::Added { .. } | Outcome::Put { .. } => 2,
        Outcome::Value { value } => 2 + value_length(value),
        Outcome::NotLive { .. } | Outcome::OtherKey { .. } | Outcome::OddLength { .. } => 9,
        Outcome::NoEntry | Outcome::Killed | Outcome::NoCell | Outcome::Changed | Outcome::Undone =>
            1,
    }
}

fn undo_length(undo: &Option<Undo>) -> u64
    ensures length { result ≡ undo_length undo.now }
    ensures few { result ≤ 50 }
{
    match undo {
        None => 1,
        Some(Undo::Restore { .. }) => 50,
        Some(_) => 2,
    }
}

fn block_length(block: &Block) -> u64
    ensures length { result ≡ block_length block.now }
    ensures few { result ≤ 1000 }
{
    36 + op_length(&block.op)
        + 8 * block.after.as_slice().len() as u64
        + outcome_length(&block.outcome)
        + undo_length(&block.undo)
}

fn call_length(call: &Call) -> u64
    ensures length { result ≡ call_length call.now }
    ensures few { result ≤ 50 }
{
    match call {
        Call::Insert { value, .. } | Call::Update { value, .. } => 10 + value_length(value),
        Call::Delete { .. } | Call::Get { .. } => 9,
    }
}

fn answer_length(answer: &Answer) -> u64
    ensures length { result ≡ answer_length answer.now }
    ensures few { result ≤ 42 }
{
    match answer {
        Answer::Got { value } => 2 + value_length(value),
        Answer::Odd { .. } => 9,
        Answer::Ok | Answer::Exists | Answer::Missing | Answer::FullHeap | Answer::FullIndex => 1,
    }
}

fn record_length(rec: &Record) -> u64
    requires { CanBeSpelled rec.now }
    ensures { result ≡ record_length rec.now }
{
    match rec {
        Record::Format { .. } => 10,
        Record::Begin { .. }
        | Record::Commit { .. }
        | Record::Ended { .. }
        | Record::AuditClean { .. } => 9,
        Record::Forward { block, .. } | Record::Back { block, .. } => 9 + block_length(block),
        Record::Solo { block, .. } => 17 + block_length(block),
        Record::Done { call, answer, .. } => 9 + call_length(call) + answer_length(answer),
        Record::AuditBegin => 1,
        Record::AuditFail { regions, .. } => 13 + 4 * regions.as_slice().len() as u64,
        Record::Restarted {
            rolled_back,
            deleted,
        } => 9 + 8 * rolled_back.as_slice().len() as u64 + 8 * deleted.as_slice().len() as u64,
    }
}

/// How many bytes the spelling of the record has.
pub fn length(rec: &Record) -> u64
    requires { CanBeSpelled rec.now }
    ensures spelled { result ≡ length (spelling rec.now) }
    ensures by_fields { result ≡ record_length rec.now }
{
    record_length(rec)
}

/// How many bytes the record of an operation has, be it forward or back.
pub fn op_record_length(txn: u64, block: &Block) -> u64
    ensures forward { result ≡ record_length (Forward txn block.now) }
    ensures back { result ≡ record_length (Back txn block.now) }
    ensures spelled { CanBeSpelled (Forward txn block.now) → result ≡ length (spelling (Forward txn block.now)) }
    ensures spelled_back { CanBeSpelled (Back txn block.now) → result ≡ length (spelling (Back txn block.now)) }
    ensures few { result ≤ 1009 }
{
    let _ = txn;
    9 + block_length(block)
}

/// How many bytes the record of a solo has.
pub fn solo_record_length(block: &Block) -> u64
    ensures solo { (txn parent : ℕ) → result ≡ record_length (Solo txn parent block.now) }
    ensures spelled { (txn parent : ℕ) → CanBeSpelled (Solo txn parent block.now) → result ≡ length (spelling (Solo txn parent block.now)) }
    ensures few { result ≤ 1017 }
{
    17 + block_length(block)
}
