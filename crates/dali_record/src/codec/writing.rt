ghost use Rattle.std.specs.Prelude.{◌≡◌, ◌≤◌, ◌<◌, ◌^◌, ◌+◌, ◌++◌, [], ◌∷◌, length, vec_len, vec_capacity, OnOk, OnErr, IsOk};
ghost use Rattle.dali_bytes.specs.Fields.{number32, number64};
ghost use Rattle.dali_record.specs.declared.records.Record.TheVariants.{Forward, Back, Solo};
ghost use Rattle.dali_record.specs.Spelling.{CanBeSpelled, spelling, value_bytes, flag_bytes, words_bytes, counted32, counted64, op_bytes, outcome_bytes, undo_bytes, block_bytes, call_bytes, answer_bytes};

use crate::codec::VERSION;
use crate::codec::lengths::{length, op_record_length, solo_record_length};
use crate::lists::{Numbers, Regions};
use crate::operations::{Block, Op, Outcome, Undo};
use crate::records::{Answer, Call, Record};
use dali_bytes::{OutOfMemory, put, put32, put64};
use dali_words::Value;

fn add_byte(into: &mut Vec<u8>, byte: u8)
    requires { vec_len into.old + 1 ≤ vec_capacity into.old }
    ensures added { into.new.items ≡ into.old.items ++ byte ∷ [] }
    ensures capacity { vec_capacity into.old ≤ vec_capacity into.new }
{
    into.push_reserved(byte);
}

#[tactic(auto, using(crate::proofs::Lengths::number64_is_8))]
fn add64(into: &mut Vec<u8>, number: u64)
    requires { vec_len into.old + length (number64 number) ≤ vec_capacity into.old }
    ensures added { into.new.items ≡ into.old.items ++ number64 number }
    ensures capacity { vec_capacity into.old ≤ vec_capacity into.new }
{
    put64(into, number).unwrap();
}

#[tactic(auto, using(crate::proofs::Lengths::number32_is_4))]
fn add32(into: &mut Vec<u8>, number: u32)
    requires { vec_len into.old + length (number32 number) ≤ vec_capacity into.old }
    ensures added { into.new.items ≡ into.old.items ++ number32 number }
    ensures capacity { vec_capacity into.old ≤ vec_capacity into.new }
{
    put32(into, number).unwrap();
}

fn add(into: &mut Vec<u8>, bytes: &[u8])
    requires { vec_len into.old + length bytes.now ≤ vec_capacity into.old }
    ensures added { into.new.items ≡ into.old.items ++ bytes.now }
    ensures capacity { vec_capacity into.old ≤ vec_capacity into.new }
{
    put(into, bytes).unwrap();
}

fn add_value(into: &mut Vec<u8>, value: &Value)
    requires { vec_len into.old + length (value_bytes value.now) ≤ vec_capacity into.old }
    ensures added { into.new.items ≡ into.old.items ++ value_bytes value.now }
    ensures capacity { vec_capacity into.old ≤ vec_capacity into.new }
{
    add_byte(into, value.bytes().len() as u8);
    add(into, value.bytes());
}

fn add_call(into: &mut Vec<u8>, call: &Call)
    requires { vec_len into.old + length (call_bytes call.now) ≤ vec_capacity into.old }
    ensures added { into.new.items ≡ into.old.items ++ call_bytes call.now }
    ensures capacity { vec_capacity into.old ≤ vec_capacity into.new }
{
    match call {
        Call::Insert { key, value } => {
            add_byte(into, 1);
            add64(into, *key);
            add_value(into, value);
        }
        Call::Update { key, value } => {
            add_byte(into, 2);
            add64(into, *key);
            add_value(into, value);
        }
        Call::Delete { key } => {
            add_byte(into, 3);
            add64(into, *key);
        }
        Call::Get { key } => {
            add_byte(into, 4);
            add64(into, *key);
        }
    }
}

fn add_flag(into: &mut Vec<u8>, flag: bool)
    requires { vec_len into.old + length (flag_bytes flag) ≤ vec_capacity into.old }
    ensures added { into.new.items ≡ into.old.items ++ flag_bytes flag }
    ensures capacity { vec_capacity into.old ≤ vec_capacity into.new }
{
    add_byte(into, flag as u8);
}

fn add_words(into: &mut Vec<u8>, words: &[u64])
    requires { vec_len into.old + length (words_bytes words.now) ≤ vec_capacity into.old }
    ensures added { into.new.items ≡ into.old.items ++ words_bytes words.now }
    ensures capacity { vec_capacity into.old ≤ vec_capacity into.new }
{
    for word in words {
        add64(into, *word);
    }
}

fn add_numbers(into: &mut Vec<u8>, numbers: &Numbers)
    requires few { length numbers.now < 2 ^ 32 }
    requires room { vec_len into.old + length (counted64 numbers.now) ≤ vec_capacity into.old }
    ensures added { into.new.items ≡ into.old.items ++ counted64 numbers.now }
    ensures capacity { vec_capacity into.old ≤ vec_capacity into.new }
{
    let numbers = numbers.as_slice();
    add32(into, numbers.len() as u32);
    add_words(into, numbers);
}

fn add_regions(into: &mut Vec<u8>, regions: &Regions)
    requires few { length regions.now < 2 ^ 32 }
    requires room { vec_len into.old + length (counted32 regions.now) ≤ vec_capacity into.old }
    ensures added { into.new.items ≡ into.old.items ++ counted32 regions.now }
    ensures capacity { vec_capacity into.old ≤ vec_capacity into.new }
{
    let regions = regions.as_slice();
    add32(into, regions.len() as u32);
    for region in regions {
        add32(into, *region);
    }
}

fn add_op(into: &mut Vec<u8>, op: &Op)
    requires { vec_len into.old + length (op_bytes op.now) ≤ vec_capacity into.old }
    ensures added { into.new.items ≡ into.old.items ++ op_bytes op.now }
    ensures capacity { vec_capacity into.old ≤ vec_capacity into.new }
{
    match op {
        Op::Look => add_byte(into, 1),
        Op::Add { place } => {
            add_byte(into, 2);
            add64(into, *place);
        }
        Op::KillEntry { entry } => {
            add_byte(into, 3);
            add_byte(into, *entry);
        }
        Op::Put { value } => {
            add_byte(into, 4);
            add_value(into, value);
        }
        Op::Read { cell } => {
            add_byte(into, 5);
            add_byte(into, *cell);
        }
        Op::Change { cell, value } => {
            add_byte(into, 6);
            add_byte(into, *cell);
            add_value(into, value);
        }
        Op::KillCell { cell } => {
            add_byte(into, 7);
            add_byte(into, *cell);
        }
        Op::FreeCell { cell } => {
            add_byte(into, 8);
            add_byte(into, *cell);
        }
        Op::ReviveCell { cell } => {
            add_byte(into, 9);
            add_byte(into, *cell);
        }
        Op::Restore {
            cell,
            length,
            words,
        } => {
            add_byte(into, 10);
            add_byte(into, *cell);
            add64(into, *length);
            add_words(into, words);
        }
        Op::FreeEntry { entry } => {
            add_byte(into, 11);
            add_byte(into, *entry);
        }
        Op::ReviveEntry { entry } => {
            add_byte(into, 12);
            add_byte(into, *entry);
        }
    }
}

fn add_outcome(into: &mut Vec<u8>, outcome: &Outcome)
    requires { vec_len into.old + length (outcome_bytes outcome.now) ≤ vec_capacity into.old }
    ensures added { into.new.items ≡ into.old.items ++ outcome_bytes outcome.now }
    ensures capacity { vec_capacity into.old ≤ vec_capacity into.new }
{
    match outcome {
        Outcome::Found { entry, place } => {
            add_byte(into, 1);
            add_byte(into, *entry);
            add64(into, *place);
        }
        Outcome::Absent { overflow } => {
            add_byte(into, 2);
            add_flag(into, *overflow);
        }
        Outcome::Added { entry } => {
            add_byte(into, 3);
            add_byte(into, *entry);
        }
        Outcome::NoEntry => add_byte(into, 4),
        Outcome::Killed => add_byte(into, 5),
        Outcome::Put { cell } => {
            add_byte(into, 6);
            add_byte(into, *cell);
        }
        Outcome::NoCell => add_byte(into, 7),
        Outcome::Value { value } => {
            add_byte(into, 8);
            add_value(into, value);
        }
        Outcome::Changed => add_byte(into, 9),
        Outcome::NotLive { state } => {
            add_byte(into, 10);
            add64(into, *state);
        }
        Outcome::OtherKey { key } => {
            add_byte(into, 11);
            add64(into, *key);
        }
        Outcome::OddLength { length } => {
            add_byte(into, 12);
            add64(into, *length);
        }
        Outcome::Undone => add_byte(into, 13),
    }
}

fn add_undo(into: &mut Vec<u8>, undo: &Option<Undo>)
    requires { vec_len into.old + length (undo_bytes undo.now) ≤ vec_capacity into.old }
    ensures added { into.new.items ≡ into.old.items ++ undo_bytes undo.now }
    ensures capacity { vec_capacity into.old ≤ vec_capacity into.new }
{
    match undo {
        None => add_byte(into, 0),
        Some(Undo::FreeCell { cell }) => {
            add_byte(into, 1);
            add_byte(into, *cell);
        }
        Some(Undo::ReviveCell { cell }) => {
            add_byte(into, 2);
            add_byte(into, *cell);
        }
        Some(
            Undo::Restore {
                cell,
                length,
                words,
            },
        ) => {
            add_byte(into, 3);
            add_byte(into, *cell);
            add64(into, *length);
            add_words(into, words);
        }
        Some(Undo::FreeEntry { entry }) => {
            add_byte(into, 4);
            add_byte(into, *entry);
        }
        Some(Undo::ReviveEntry { entry }) => {
            add_byte(into, 5);
            add_byte(into, *entry);
        }
    }
}

fn add_block(into: &mut Vec<u8>, block: &Block)
    requires { vec_len into.old + length (block_bytes block.now) ≤ vec_capacity into.old }
    ensures added { into.new.items ≡ into.old.items ++ block_bytes block.now }
    ensures capacity { vec_capacity into.old ≤ vec_capacity into.new }
{
    add64(into, block.key);
    add32(into, block.region);
    add_op(into, &block.op);
    add64(into, block.read);
    add64(into, block.xor);
    add64(into, block.write);
    add_words(into, block.after.as_slice());
    add_outcome(into, &block.outcome);
    add_undo(into, &block.undo);
}

fn add_answer(into: &mut Vec<u8>, answer: &Answer)
    requires { vec_len into.old + length (answer_bytes answer.now) ≤ vec_capacity into.old }
    ensures added { into.new.items ≡ into.old.items ++ answer_bytes answer.now }
    ensures capacity { vec_capacity into.old ≤ vec_capacity into.new }
{
    match answer {
        Answer::Ok => add_byte(into, 1),
        Answer::Exists => add_byte(into, 2),
        Answer::Missing => add_byte(into, 3),
        Answer::Got { value } => {
            add_byte(into, 4);
            add_value(into, value);
        }
        Answer::FullHeap => add_byte(into, 5),
        Answer::FullIndex => add_byte(into, 6),
        Answer::Odd { place } => {
            add_byte(into, 7);
            add64(into, *place);
        }
    }
}

fn add_record(into: &mut Vec<u8>, rec: &Record)
    requires spelled { CanBeSpelled rec.now }
    requires room { vec_len into.old + length (spelling rec.now) ≤ vec_capacity into.old }
    ensures added { into.new.items ≡ into.old.items ++ spelling rec.now }
    ensures capacity { vec_capacity into.old ≤ vec_capacity into.new }
{
    match rec {
        Record::Format { index, heap } => {
            add_byte(into, 1);
            add_byte(into, VERSION);
            add32(into, *index);
            add32(into, *heap);
        }
        Record::Begin { txn } => {
            add_byte(into, 2);
            add64(into, *txn);
        }
        Record::Forward { txn, block } => {
            add_byte(into, 3);
            add64(into, *txn);
            add_block(into, block);
        }
        Record::Done { txn, call, answer } => {
            add_byte(into, 4);
            add64(into, *txn);
            add_call(into, call);
            add_answer(into, answer);
        }
        Record::Commit { txn } => {
            add_byte(into, 5);
            add64(into, *txn);
        }
        Record::Ended { txn } => {
            add_byte(into, 6);
            add64(into, *txn);
        }
        Record::Solo { txn, parent, block } => {
            add_byte(into, 7);
            add64(into, *txn);
            add64(into, *parent);
            add_block(into, block);
        }
        Record::AuditBegin => add_byte(into, 8),
        Record::AuditClean { begin } => {
            add_byte(into, 9);
            add64(into, *begin);
        }
        Record::AuditFail { begin, regions } => {
            add_byte(into, 10);
            add64(into, *begin);
            add_regions(into, regions);
        }
        Record::Restarted {
            rolled_back,
            deleted,
        } => {
            add_byte(into, 11);
            add_numbers(into, rolled_back);
            add_numbers(into, deleted);
        }
        Record::Back { txn, block } => {
            add_byte(into, 12);
            add64(into, *txn);
            add_block(into, block);
        }
    }
}

/// Appends the record's spelling. Unchanged where memory is refused; none is wanted where there is
/// room.
pub fn encode(rec: &Record, into: &mut Vec<u8>) -> Result<(), OutOfMemory>
    requires { CanBeSpelled rec.now }
    ensures ok { OnOk result (into.new.items ≡ into.old.items ++ spelling rec.now) }
    ensures err { OnErr result (into.new.items ≡ into.old.items) }
    ensures room { vec_len into.old + length (spelling rec.now) ≤ vec_capacity into.old → IsOk result }
    ensures capacity { vec_capacity into.old ≤ vec_capacity into.new }
{
    into.reserve(length(rec) as usize)?;
    add_record(into, rec);
    Ok(())
}

fn add_op_record(into: &mut Vec<u8>, kind: u8, txn: u64, block: &Block)
    requires { vec_len into.old + length (kind ∷ (number64 txn ++ block_bytes block.now)) ≤ vec_capacity into.old }
    ensures added { into.new.items ≡ into.old.items ++ kind ∷ (number64 txn ++ block_bytes block.now) }
    ensures capacity { vec_capacity into.old ≤ vec_capacity into.new }
{
    add_byte(into, kind);
    add64(into, txn);
    add_block(into, block);
}

/// Appends the spelling of the record of an operation. The block is borrowed, so that it isn't copied into a record first.
/// Unchanged where memory is refused; none is wanted where there is room.
pub fn encode_op(txn: u64, block: &Block, into: &mut Vec<u8>) -> Result<(), OutOfMemory>
    requires { CanBeSpelled (Forward txn block.now) }
    ensures ok { OnOk result (into.new.items ≡ into.old.items ++ spelling (Forward txn block.now)) }
    ensures err { OnErr result (into.new.items ≡ into.old.items) }
    ensures room { vec_len into.old + length (spelling (Forward txn block.now)) ≤ vec_capacity into.old → IsOk result }
    ensures capacity { vec_capacity into.old ≤ vec_capacity into.new }
{
    into.reserve(op_record_length(txn, block) as usize)?;
    add_op_record(into, 3, txn, block);
    Ok(())
}

/// The same for an operation that takes back.
pub fn encode_back(txn: u64, block: &Block, into: &mut Vec<u8>) -> Result<(), OutOfMemory>
    requires { CanBeSpelled (Back txn block.now) }
    ensures ok { OnOk result (into.new.items ≡ into.old.items ++ spelling (Back txn block.now)) }
    ensures err { OnErr result (into.new.items ≡ into.old.items) }
    ensures room { vec_len into.old + length (spelling (Back txn block.now)) ≤ vec_capacity into.old → IsOk result }
    ensures capacity { vec_capacity into.old ≤ vec_capacity into.new }
{
    into.reserve(op_record_length(txn, block) as usize)?;
    add_op_record(into, 12, txn, block);
    Ok(())
}

fn add_solo_record(into: &mut Vec<u8>, txn: u64, parent: u64, block: &Block)
    requires room { vec_len into.old + length (spelling (Solo txn parent block.now)) ≤ vec_capacity into.old }
    requires spelled { CanBeSpelled (Solo txn parent block.now) }
    ensures added { into.new.items ≡ into.old.items ++ spelling (Solo txn parent block.now) }
    ensures capacity { vec_capacity into.old ≤ vec_capacity into.new }
{
    add_byte(into, 7);
    add64(into, txn);
    add64(into, parent);
    add_block(into, block);
}

/// The same for the one operation of a solo.
pub fn encode_solo(
    txn: u64,
    parent: u64,
    block: &Block,
    into: &mut Vec<u8>,
) -> Result<(), OutOfMemory>
    requires { CanBeSpelled (Solo txn parent block.now) }
    ensures ok { OnOk result (into.new.items ≡ into.old.items ++ spelling (Solo txn parent block.now)) }
    ensures err { OnErr result (into.new.items ≡ into.old.items) }
    ensures room { vec_len into.old + length (spelling (Solo txn parent block.now)) ≤ vec_capacity into.old → IsOk result }
    ensures capacity { vec_capacity into.old ≤ vec_capacity into.new }
{
    into.reserve(solo_record_length(block) as usize)?;
    add_solo_record(into, txn, parent, block);
    Ok(())
}
