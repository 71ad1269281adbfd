ghost use Rattle.std.specs.Prelude.{◌≡◌, ◌≤◌, [], ◌++◌, ◌&&◌, ◌⊎◌, ◌↔◌, true, IsErrOf, length, IsTrue, IsSome, IfOk, IfErr, OnOk, OnErr, count_ones};
ghost use Rattle.dali_bytes.specs.Cursor.{left};
ghost use Rattle.dali_bytes.specs.Reading.{Reads, number64_at};
ghost use Rattle.dali_record.specs.Spelling;
ghost use Rattle.dali_record.specs.Spelling.{CanBeSpelled, Begins, spelling, has_list};
ghost use Rattle.dali_record.specs.declared.records.Record.{Record};
ghost use Rattle.dali_record.specs.Reading.{Gives, Puts, Fills, HasList, Passes, is_above, cell_at, entry_at, flag_at, value_at, numbers_at, counted32_at, counted64_at, op_at, outcome_at, undo_at, block_at, block_of_at, call_at, answer_at, done_at, format_at, audit_fail_at, restarted_at, record_at, one, two, three};

use crate::codec::VERSION;
use crate::codec::failure::{Failure, NoSpelling};
use crate::codec::fitting::{fits, is_answer_of, is_forward, is_solo};
use crate::error::DecodeError;
use crate::lists::{Numbers, Regions, Words};
use crate::operations::{Block, Op, Outcome, Undo};
use crate::records::{Answer, Call, Record};
use dali_bytes::Reader;
use dali_words::Value;
use std::alloc::Global;

/// How many index regions and how many heap regions there are at most.
const MAX_INDEX: u32 = 32_768;

const MAX_HEAP: u32 = 65_536;

#[tactic(auto, unfolding(crate::specs::Reading::cell_at))]
fn cell(reader: &mut Reader) -> Result<u8, NoSpelling>
    ensures same { reader.new.all ≡ reader.old.all }
    ensures later { reader.old.at ≤ reader.new.at }
    ensures read { Reads result (left reader.new) (cell_at (left reader.old)) }
{
    let cell = reader.byte()?;
    if cell < 1 || 7 < cell {
        return Err(NoSpelling);
    }
    Ok(cell)
}

#[tactic(auto, unfolding(crate::specs::Reading::entry_at))]
fn entry(reader: &mut Reader) -> Result<u8, NoSpelling>
    ensures same { reader.new.all ≡ reader.old.all }
    ensures later { reader.old.at ≤ reader.new.at }
    ensures read { Reads result (left reader.new) (entry_at (left reader.old)) }
{
    let entry = reader.byte()?;
    if 20 < entry {
        return Err(NoSpelling);
    }
    Ok(entry)
}

#[tactic(auto, unfolding(crate::specs::Reading::flag_at))]
fn flag(reader: &mut Reader) -> Result<bool, NoSpelling>
    ensures same { reader.new.all ≡ reader.old.all }
    ensures later { reader.old.at ≤ reader.new.at }
    ensures read { Reads result (left reader.new) (flag_at (left reader.old)) }
{
    match reader.byte()? {
        0 => Ok(false),
        1 => Ok(true),
        _ => Err(NoSpelling),
    }
}

#[tactic(auto, unfolding(crate::specs::Reading::value_at))]
fn value(reader: &mut Reader) -> Result<Value, NoSpelling>
    ensures same { reader.new.all ≡ reader.old.all }
    ensures later { reader.old.at ≤ reader.new.at }
    ensures read { Reads result (left reader.new) (value_at (left reader.old)) }
{
    let length = reader.byte()?;
    let bytes = reader.take(length as usize)?;
    Value::from_bytes(bytes).ok_or(NoSpelling)
}

#[tactic(auto, unfolding(crate::specs::Reading::numbers_at))]
fn five(reader: &mut Reader) -> Result<[u64; 5], NoSpelling>
    ensures same { reader.new.all ≡ reader.old.all }
    ensures later { reader.old.at ≤ reader.new.at }
    ensures read { Reads result (left reader.new) (numbers_at 5 (left reader.old)) }
{
    let first = reader.number64()?;
    let second = reader.number64()?;
    let third = reader.number64()?;
    let fourth = reader.number64()?;
    let fifth = reader.number64()?;
    Ok([first, second, third, fourth, fifth])
}

#[tactic(auto, unfolding(crate::specs::Reading::op_at))]
fn op(reader: &mut Reader) -> Result<Op, NoSpelling>
    ensures same { reader.new.all ≡ reader.old.all }
    ensures later { reader.old.at ≤ reader.new.at }
    ensures read { Reads result (left reader.new) (op_at (left reader.old)) }
{
    Ok(match reader.byte()? {
        1 => Op::Look,
        2 => Op::Add {
            place: reader.number64()?,
        },
        3 => Op::KillEntry {
            entry: entry(reader)?,
        },
        4 => Op::Put {
            value: value(reader)?,
        },
        5 => Op::Read {
            cell: cell(reader)?,
        },
        6 => Op::Change {
            cell: cell(reader)?,
            value: value(reader)?,
        },
        7 => Op::KillCell {
            cell: cell(reader)?,
        },
        8 => Op::FreeCell {
            cell: cell(reader)?,
        },
        9 => Op::ReviveCell {
            cell: cell(reader)?,
        },
        10 => Op::Restore {
            cell: cell(reader)?,
            length: reader.number64()?,
            words: five(reader)?,
        },
        11 => Op::FreeEntry {
            entry: entry(reader)?,
        },
        12 => Op::ReviveEntry {
            entry: entry(reader)?,
        },
        _ => return Err(NoSpelling),
    })
}

#[tactic(auto, unfolding(crate::specs::Reading::outcome_at))]
fn outcome(reader: &mut Reader) -> Result<Outcome, NoSpelling>
    ensures same { reader.new.all ≡ reader.old.all }
    ensures later { reader.old.at ≤ reader.new.at }
    ensures read { Reads result (left reader.new) (outcome_at (left reader.old)) }
{
    Ok(match reader.byte()? {
        1 => Outcome::Found {
            entry: entry(reader)?,
            place: reader.number64()?,
        },
        2 => Outcome::Absent {
            overflow: flag(reader)?,
        },
        3 => Outcome::Added {
            entry: entry(reader)?,
        },
        4 => Outcome::NoEntry,
        5 => Outcome::Killed,
        6 => Outcome::Put {
            cell: cell(reader)?,
        },
        7 => Outcome::NoCell,
        8 => Outcome::Value {
            value: value(reader)?,
        },
        9 => Outcome::Changed,
        10 => Outcome::NotLive {
            state: reader.number64()?,
        },
        11 => Outcome::OtherKey {
            key: reader.number64()?,
        },
        12 => Outcome::OddLength {
            length: reader.number64()?,
        },
        13 => Outcome::Undone,
        _ => return Err(NoSpelling),
    })
}

#[tactic(auto, unfolding(crate::specs::Reading::undo_at))]
fn undo(reader: &mut Reader) -> Result<Option<Undo>, NoSpelling>
    ensures same { reader.new.all ≡ reader.old.all }
    ensures later { reader.old.at ≤ reader.new.at }
    ensures read { Reads result (left reader.new) (undo_at (left reader.old)) }
{
    Ok(match reader.byte()? {
        0 => None,
        1 => Some(Undo::FreeCell {
            cell: cell(reader)?,
        }),
        2 => Some(Undo::ReviveCell {
            cell: cell(reader)?,
        }),
        3 => Some(Undo::Restore {
            cell: cell(reader)?,
            length: reader.number64()?,
            words: five(reader)?,
        }),
        4 => Some(Undo::FreeEntry {
            entry: entry(reader)?,
        }),
        5 => Some(Undo::ReviveEntry {
            entry: entry(reader)?,
        }),
        _ => return Err(NoSpelling),
    })
}

#[tactic(auto, unfolding(crate::specs::Reading::call_at))]
fn call(reader: &mut Reader) -> Result<Call, NoSpelling>
    ensures same { reader.new.all ≡ reader.old.all }
    ensures later { reader.old.at ≤ reader.new.at }
    ensures read { Reads result (left reader.new) (call_at (left reader.old)) }
{
    Ok(match reader.byte()? {
        1 => Call::Insert {
            key: reader.number64()?,
            value: value(reader)?,
        },
        2 => Call::Update {
            key: reader.number64()?,
            value: value(reader)?,
        },
        3 => Call::Delete {
            key: reader.number64()?,
        },
        4 => Call::Get {
            key: reader.number64()?,
        },
        _ => return Err(NoSpelling),
    })
}

#[tactic(auto, unfolding(crate::specs::Reading::answer_at))]
fn answer(reader: &mut Reader) -> Result<Answer, NoSpelling>
    ensures same { reader.new.all ≡ reader.old.all }
    ensures later { reader.old.at ≤ reader.new.at }
    ensures read { Reads result (left reader.new) (answer_at (left reader.old)) }
{
    Ok(match reader.byte()? {
        1 => Answer::Ok,
        2 => Answer::Exists,
        3 => Answer::Missing,
        4 => Answer::Got {
            value: value(reader)?,
        },
        5 => Answer::FullHeap,
        6 => Answer::FullIndex,
        7 => Answer::Odd {
            place: reader.number64()?,
        },
        _ => return Err(NoSpelling),
    })
}

/// So many words, into a list without any.
#[tactic(auto, unfolding(crate::specs::Reading::numbers_at))]
fn words(reader: &mut Reader, count: u32, into: &mut Words) -> Result<(), NoSpelling>
    requires few { count ≤ 64 }
    requires none { into.old ≡ [] }
    ensures same { reader.new.all ≡ reader.old.all }
    ensures later { reader.old.at ≤ reader.new.at }
    ensures read { Fills result into.new (left reader.new) (numbers_at count (left reader.old)) }
{
    for _ in 0..count {
        into.push(reader.number64()?);
    }
    Ok(())
}

/// A block, into one without new words.
#[tactic(auto, unfolding(crate::specs::Reading::block_at))]
fn block(reader: &mut Reader, into: &mut Block) -> Result<(), NoSpelling>
    requires { into.old.after ≡ [] }
    ensures same { reader.new.all ≡ reader.old.all }
    ensures later { reader.old.at ≤ reader.new.at }
    ensures read { Fills result into.new (left reader.new) (block_at (left reader.old)) }
{
    into.key = reader.number64()?;
    into.region = reader.number32()?;
    into.op = op(reader)?;
    into.read = reader.number64()?;
    into.xor = reader.number64()?;
    into.write = reader.number64()?;
    words(reader, into.write.count_ones(), &mut into.after)?;
    into.outcome = outcome(reader)?;
    into.undo = undo(reader)?;
    if !fits(into) {
        return Err(NoSpelling);
    }
    Ok(())
}

/// A block whose operation passes the test.
#[tactic(auto, unfolding(crate::specs::Reading::block_of_at))]
fn forward(reader: &mut Reader, into: &mut Block) -> Result<(), NoSpelling>
    requires { into.old.after ≡ [] }
    ensures same { reader.new.all ≡ reader.old.all }
    ensures later { reader.old.at ≤ reader.new.at }
    ensures read { Fills result into.new (left reader.new) (block_of_at Spelling.is_forward (left reader.old)) }
{
    block(reader, into)?;
    if !is_forward(&into.op) {
        return Err(NoSpelling);
    }
    Ok(())
}

/// A block that takes back.
#[tactic(auto, unfolding(crate::specs::Reading::block_of_at))]
fn back(reader: &mut Reader, into: &mut Block) -> Result<(), NoSpelling>
    requires { into.old.after ≡ [] }
    ensures same { reader.new.all ≡ reader.old.all }
    ensures later { reader.old.at ≤ reader.new.at }
    ensures read { Fills result into.new (left reader.new) (block_of_at Spelling.is_back (left reader.old)) }
{
    block(reader, into)?;
    if is_forward(&into.op) {
        return Err(NoSpelling);
    }
    Ok(())
}

/// A block that frees what a removal left.
#[tactic(auto, unfolding(crate::specs::Reading::block_of_at))]
fn solo(reader: &mut Reader, into: &mut Block) -> Result<(), NoSpelling>
    requires { into.old.after ≡ [] }
    ensures same { reader.new.all ≡ reader.old.all }
    ensures later { reader.old.at ≤ reader.new.at }
    ensures read { Fills result into.new (left reader.new) (block_of_at Spelling.is_solo (left reader.old)) }
{
    block(reader, into)?;
    if !is_solo(&into.op) {
        return Err(NoSpelling);
    }
    Ok(())
}

/// An operation of a transaction's call, into a place: the block stays where it is, where one lies there.
#[inline(never)]
fn operation(reader: &mut Reader, into: &mut Record) -> Result<(), Failure>
    ensures same { reader.new.all ≡ reader.old.all }
    ensures later { reader.old.at ≤ reader.new.at }
    ensures read { Puts result into.new (left reader.new) (two Record.Forward number64_at (block_of_at Spelling.is_forward) (left reader.old)) }
    ensures known { IsErrOf result Failure.OutOfMemory → ⊥ }
{
    let number = reader.number64()?;
    match into {
        Record::Forward { txn, block } => {
            *txn = number;
            block.after.clear();
            forward(reader, block)?;
        }
        _ => {
            let mut block = Block::blank();
            forward(reader, &mut block)?;
            *into = Record::Forward { txn: number, block };
        }
    }
    Ok(())
}

/// A block that is a transaction of its own.
#[inline(never)]
fn freeing(reader: &mut Reader, into: &mut Record) -> Result<(), Failure>
    ensures same { reader.new.all ≡ reader.old.all }
    ensures later { reader.old.at ≤ reader.new.at }
    ensures read { Puts result into.new (left reader.new) (three Record.Solo number64_at number64_at (block_of_at Spelling.is_solo) (left reader.old)) }
    ensures known { IsErrOf result Failure.OutOfMemory → ⊥ }
{
    let number = reader.number64()?;
    let of = reader.number64()?;
    match into {
        Record::Solo { txn, parent, block } => {
            *txn = number;
            *parent = of;
            block.after.clear();
            solo(reader, block)?;
        }
        _ => {
            let mut block = Block::blank();
            solo(reader, &mut block)?;
            *into = Record::Solo {
                txn: number,
                parent: of,
                block,
            };
        }
    }
    Ok(())
}

/// An operation that takes back.
#[inline(never)]
fn taking_back(reader: &mut Reader, into: &mut Record) -> Result<(), Failure>
    ensures same { reader.new.all ≡ reader.old.all }
    ensures later { reader.old.at ≤ reader.new.at }
    ensures read { Puts result into.new (left reader.new) (two Record.Back number64_at (block_of_at Spelling.is_back) (left reader.old)) }
    ensures known { IsErrOf result Failure.OutOfMemory → ⊥ }
{
    let number = reader.number64()?;
    match into {
        Record::Back { txn, block } => {
            *txn = number;
            block.after.clear();
            back(reader, block)?;
        }
        _ => {
            let mut block = Block::blank();
            back(reader, &mut block)?;
            *into = Record::Back { txn: number, block };
        }
    }
    Ok(())
}

#[tactic(auto, unfolding(crate::specs::Reading::done_at))]
#[inline(never)]
fn done(reader: &mut Reader, into: &mut Record) -> Result<(), Failure>
    ensures same { reader.new.all ≡ reader.old.all }
    ensures later { reader.old.at ≤ reader.new.at }
    ensures read { Puts result into.new (left reader.new) (done_at (left reader.old)) }
    ensures known { IsErrOf result Failure.OutOfMemory → ⊥ }
{
    let txn = reader.number64()?;
    let call = call(reader)?;
    let answer = answer(reader)?;
    if !is_answer_of(&call, &answer) {
        return Err(Failure::NoSpelling);
    }
    *into = Record::Done { txn, call, answer };
    Ok(())
}

#[tactic(auto, unfolding(crate::specs::Reading::format_at, crate::specs::Reading::version_at))]
#[inline(never)]
fn format(reader: &mut Reader, into: &mut Record) -> Result<(), Failure>
    ensures same { reader.new.all ≡ reader.old.all }
    ensures later { reader.old.at ≤ reader.new.at }
    ensures read { Puts result into.new (left reader.new) (format_at (left reader.old)) }
    ensures known { IsErrOf result Failure.OutOfMemory → ⊥ }
{
    if reader.byte()? != VERSION {
        return Err(Failure::NoSpelling);
    }
    let index = reader.number32()?;
    if index < 1 || MAX_INDEX < index {
        return Err(Failure::NoSpelling);
    }
    let heap = reader.number32()?;
    if heap < 1 || MAX_HEAP < heap {
        return Err(Failure::NoSpelling);
    }
    *into = Record::Format { index, heap };
    Ok(())
}

/// Whether the number may follow the last one of an ascending list.
fn is_above(last: Option<u64>, number: u64) -> bool
    ensures { result ≡ is_above last number }
{
    match last {
        None => true,
        Some(last) => last < number,
    }
}

/// Passes over an ascending list, and answers how many numbers it has. Takes no memory.
#[tactic(auto, unfolding(crate::specs::Reading::counted64_at, crate::specs::Reading::numbers_at))]
fn pass64(reader: &mut Reader) -> Result<u32, NoSpelling>
    ensures same { reader.new.all ≡ reader.old.all }
    ensures later { reader.old.at ≤ reader.new.at }
    ensures read { Passes result (left reader.new) (counted64_at (left reader.old)) }
{
    let count = reader.number32()?;
    let mut last = None;
    for _ in 0..count {
        let number = reader.number64()?;
        if !is_above(last, number) {
            return Err(NoSpelling);
        }
        last = Some(number);
    }
    Ok(count)
}

/// Passes over an ascending list, and answers how many numbers it has. Takes no memory.
#[tactic(auto, unfolding(crate::specs::Reading::counted32_at, crate::specs::Reading::regions_at))]
fn pass32(reader: &mut Reader) -> Result<u32, NoSpelling>
    ensures same { reader.new.all ≡ reader.old.all }
    ensures later { reader.old.at ≤ reader.new.at }
    ensures read { Passes result (left reader.new) (counted32_at (left reader.old)) }
{
    let count = reader.number32()?;
    let mut last = None;
    for _ in 0..count {
        let number = reader.number32()?;
        if !is_above(last, number as u64) {
            return Err(NoSpelling);
        }
        last = Some(number as u64);
    }
    Ok(count)
}

/// An ascending list, over which `pass64` has gone.
#[tactic(auto, unfolding(crate::specs::Reading::counted64_at, crate::specs::Reading::numbers_at))]
fn numbers(alloc: Global, reader: &mut Reader) -> Result<Numbers, Failure>
    requires { IsSome (counted64_at (left reader.old)) }
    ensures same { reader.new.all ≡ reader.old.all }
    ensures later { reader.old.at ≤ reader.new.at }
    ensures read { Gives result (left reader.new) (counted64_at (left reader.old)) }
{
    let count = reader.number32()?;
    let mut numbers = Vec::with_capacity(alloc, count as usize)?;
    for _ in 0..count {
        numbers.push(reader.number64()?)?;
    }
    Ok(Numbers::new(numbers))
}

/// An ascending list, over which `pass32` has gone.
#[tactic(auto, unfolding(crate::specs::Reading::counted32_at, crate::specs::Reading::regions_at))]
fn regions(alloc: Global, reader: &mut Reader) -> Result<Regions, Failure>
    requires { IsSome (counted32_at (left reader.old)) }
    ensures same { reader.new.all ≡ reader.old.all }
    ensures later { reader.old.at ≤ reader.new.at }
    ensures read { Gives result (left reader.new) (counted32_at (left reader.old)) }
{
    let count = reader.number32()?;
    let mut regions = Vec::with_capacity(alloc, count as usize)?;
    for _ in 0..count {
        regions.push(reader.number32()?)?;
    }
    Ok(Regions::new(regions))
}

#[tactic(auto, unfolding(crate::specs::Reading::audit_fail_at))]
#[inline(never)]
fn audit_fail(alloc: Global, reader: &mut Reader, into: &mut Record) -> Result<(), Failure>
    ensures same { reader.new.all ≡ reader.old.all }
    ensures later { reader.old.at ≤ reader.new.at }
    ensures read { Puts result into.new (left reader.new) (audit_fail_at (left reader.old)) }
{
    let begin = reader.number64()?;
    let start = reader.at();
    if pass32(reader)? == 0 {
        return Err(Failure::NoSpelling);
    }
    reader.go_back(start);
    let regions = regions(alloc, reader)?;
    *into = Record::AuditFail { begin, regions };
    Ok(())
}

#[tactic(auto, unfolding(crate::specs::Reading::restarted_at))]
#[inline(never)]
fn restarted(alloc: Global, reader: &mut Reader, into: &mut Record) -> Result<(), Failure>
    ensures same { reader.new.all ≡ reader.old.all }
    ensures later { reader.old.at ≤ reader.new.at }
    ensures read { Puts result into.new (left reader.new) (restarted_at (left reader.old)) }
{
    let start = reader.at();
    pass64(reader)?;
    pass64(reader)?;
    reader.go_back(start);
    let rolled_back = numbers(alloc, reader)?;
    let deleted = numbers(alloc, reader)?;
    *into = Record::Restarted {
        rolled_back,
        deleted,
    };
    Ok(())
}

// Each kind of record has a function of its own, which clears room for that kind alone.

/// The record of a begin.
#[inline(never)]
fn begin(reader: &mut Reader, into: &mut Record) -> Result<(), Failure>
    ensures same { reader.new.all ≡ reader.old.all }
    ensures later { reader.old.at ≤ reader.new.at }
    ensures read { Puts result into.new (left reader.new) (one Record.Begin number64_at (left reader.old)) }
    ensures known { IsErrOf result Failure.OutOfMemory → ⊥ }
{
    let txn = reader.number64()?;
    *into = Record::Begin { txn };
    Ok(())
}

/// The record of a commit.
#[inline(never)]
fn commit(reader: &mut Reader, into: &mut Record) -> Result<(), Failure>
    ensures same { reader.new.all ≡ reader.old.all }
    ensures later { reader.old.at ≤ reader.new.at }
    ensures read { Puts result into.new (left reader.new) (one Record.Commit number64_at (left reader.old)) }
    ensures known { IsErrOf result Failure.OutOfMemory → ⊥ }
{
    let txn = reader.number64()?;
    *into = Record::Commit { txn };
    Ok(())
}

/// The record of an end.
#[inline(never)]
fn ended(reader: &mut Reader, into: &mut Record) -> Result<(), Failure>
    ensures same { reader.new.all ≡ reader.old.all }
    ensures later { reader.old.at ≤ reader.new.at }
    ensures read { Puts result into.new (left reader.new) (one Record.Ended number64_at (left reader.old)) }
    ensures known { IsErrOf result Failure.OutOfMemory → ⊥ }
{
    let txn = reader.number64()?;
    *into = Record::Ended { txn };
    Ok(())
}

/// The record of an audit that found nothing.
#[inline(never)]
fn audit_clean(reader: &mut Reader, into: &mut Record) -> Result<(), Failure>
    ensures same { reader.new.all ≡ reader.old.all }
    ensures later { reader.old.at ≤ reader.new.at }
    ensures read { Puts result into.new (left reader.new) (one Record.AuditClean number64_at (left reader.old)) }
    ensures known { IsErrOf result Failure.OutOfMemory → ⊥ }
{
    let begin = reader.number64()?;
    *into = Record::AuditClean { begin };
    Ok(())
}

/// The record of an audit's beginning.
#[inline(never)]
fn audit_begin(into: &mut Record)
    ensures { into.new ≡ Record.AuditBegin }
{
    *into = Record::AuditBegin;
}

/// The record that begins at the reader, if one does, into a place.
#[tactic(auto, unfolding(crate::specs::Reading::record_at), using(crate::proofs::Spelled::audit_fail_lists, crate::proofs::Spelled::restarted_lists))]
#[inline(never)]
fn record(alloc: Global, reader: &mut Reader, into: &mut Record) -> Result<(), Failure>
    ensures same { reader.new.all ≡ reader.old.all }
    ensures later { reader.old.at ≤ reader.new.at }
    ensures read { Puts result into.new (left reader.new) (record_at (left reader.old)) }
    ensures lists { IsErrOf result Failure.OutOfMemory → HasList (record_at (left reader.old)) }
{
    match reader.byte()? {
        1 => format(reader, into),
        2 => begin(reader, into),
        3 => operation(reader, into),
        4 => done(reader, into),
        5 => commit(reader, into),
        6 => ended(reader, into),
        7 => freeing(reader, into),
        8 => {
            audit_begin(into);
            Ok(())
        }
        9 => audit_clean(reader, into),
        10 => audit_fail(alloc, reader, into),
        11 => restarted(alloc, reader, into),
        12 => taking_back(reader, into),
        _ => Err(Failure::NoSpelling),
    }
}

/// Reads the record whose spelling begins at the reader into a place, and leaves the reader behind it. What the place had
/// is let go; after an error nothing is said of it. The errors are those of `decode`. A caller that lends the same place for
/// each record doesn't move them.
pub fn decode_into(alloc: Global, reader: &mut Reader, into: &mut Record) -> Result<(), DecodeError>
    // A record that can be spelled, and the reader is behind its spelling.
    ensures record { OnOk result (CanBeSpelled into.new × (left reader.old ≡ spelling into.new ++ left reader.new)) }
    ensures same { reader.new.all ≡ reader.old.all }

    // No record is spelled at the front of what is left.
    ensures bad { IsErrOf result (DecodeError.BadRecord reader.old.at) ↔ ((r : Record) → Begins (left reader.old) r → ⊥) }
    // A record with a list is.
    ensures memory { IsErrOf result DecodeError.OutOfMemory → (r : Record) × Begins (left reader.old) r × (has_list r ≡ true) }
    ensures errors { IfErr result (λ e. (e ≡ DecodeError.BadRecord reader.old.at) ⊎ (e ≡ DecodeError.OutOfMemory)) }
    ensures unchanged { OnErr result (reader.new ≡ reader.old) }
{
    let start = reader.at();
    match record(alloc, reader, into) {
        Ok(()) => Ok(()),
        Err(Failure::NoSpelling) => {
            reader.go_back(start);
            Err(DecodeError::BadRecord { at: start })
        }
        Err(Failure::OutOfMemory) => {
            reader.go_back(start);
            Err(DecodeError::OutOfMemory)
        }
    }
}

/// Reads the record whose spelling begins at the reader, and leaves the reader behind it.
///
/// BadRecord comes exactly where no spelling begins there, and names its first byte. Only the lists
/// of AuditFail and Restarted take memory, and only once the whole record was found good. After an
/// error the reader stands where it was.
pub fn decode(alloc: Global, reader: &mut Reader) -> Result<Record, DecodeError>
    // A record that can be spelled, and the reader is behind its spelling.
    ensures record { IfOk result (λ r. CanBeSpelled r × (left reader.old ≡ spelling r ++ left reader.new)) }
    ensures same { reader.new.all ≡ reader.old.all }

    // No record is spelled at the front of what is left.
    ensures bad { IsErrOf result (DecodeError.BadRecord reader.old.at) ↔ ((r : Record) → Begins (left reader.old) r → ⊥) }
    // A record with a list is.
    ensures memory { IsErrOf result DecodeError.OutOfMemory → (r : Record) × Begins (left reader.old) r × (has_list r ≡ true) }
    ensures errors { IfErr result (λ e. (e ≡ DecodeError.BadRecord reader.old.at) ⊎ (e ≡ DecodeError.OutOfMemory)) }
    ensures unchanged { OnErr result (reader.new ≡ reader.old) }
{
    let mut found = Record::AuditBegin;
    match decode_into(alloc, reader, &mut found) {
        Ok(()) => Ok(found),
        Err(error) => Err(error),
    }
}
