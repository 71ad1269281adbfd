//! The line of a record. Where memory is refused nothing is said of the text.
ghost use Rattle.std.specs.Prelude.{◌≡◌, ◌++◌, codes, OnOk};
ghost use Rattle.std.specs.Fmt.{decimal};
ghost use Rattle.dali_script.specs.Names.{text_of as name_text};
ghost use Rattle.dali_report.specs.Said.{call_name};
ghost use Rattle.dali_dump.specs.Lines.{op_name, key_of, block_text, done_text, record_text, record_line};

use dali_record::{Answer, Block, Call, Op, Record};
use dali_report::{
    put_text, put_with_hex, put_with_number, put_with_numbers, put_with_regions, said_line,
};
use dali_transcripts::clients::Line;
use std::alloc::AllocError;

fn name_of(op: &Op) -> &'static str
    ensures { result.now ≡ op_name op.now }
{
    match op {
        Op::Look => "look",
        Op::Add { .. } => "add",
        Op::KillEntry { .. } => "killentry",
        Op::Put { .. } => "put",
        Op::Read { .. } => "read",
        Op::Change { .. } => "change",
        Op::KillCell { .. } => "killcell",
        Op::FreeCell { .. } => "freecell",
        Op::ReviveCell { .. } => "revivecell",
        Op::Restore { .. } => "restore",
        Op::FreeEntry { .. } => "freeentry",
        Op::ReviveEntry { .. } => "reviveentry",
    }
}

fn name_of_call(call: &Call) -> &'static str
    ensures { result.now ≡ name_text (call_name call.now) }
{
    match call {
        Call::Insert { .. } => "insert",
        Call::Update { .. } => "update",
        Call::Delete { .. } => "delete",
        Call::Get { .. } => "get",
    }
}

fn key_in(call: &Call) -> u64
    ensures { result ≡ key_of call.now }
{
    match call {
        Call::Insert { key, .. }
        | Call::Update { key, .. }
        | Call::Delete { key }
        | Call::Get { key } => *key,
    }
}

fn put_block(block: &Block, into: &mut Vec<u8>) -> Result<(), AllocError>
    ensures { OnOk result (into.new.items ≡ into.old.items ++ block_text block.now) }
{
    put_with_number(b"", u64::from(block.region), into)?;
    put_with_number(b" ", block.key, into)?;
    put_text(b" ", into)?;
    put_text(name_of(&block.op).as_bytes(), into)?;
    put_with_hex(b" ", block.read, into)?;
    put_with_hex(b" ", block.xor, into)?;
    put_with_hex(b" ", block.write, into)?;
    Ok(())
}

// The end of a line: a number.
fn end_with_number(text: &[u8], number: u64, into: &mut Vec<u8>) -> Result<(), AllocError>
    ensures { OnOk result (into.new.items ≡ into.old.items ++ (text.now ++ decimal number ++ codes "\n")) }
{
    put_with_number(text, number, into)?;
    put_text(b"\n", into)?;
    Ok(())
}

// The end of a line: a number and a block.
fn end_with_block(
    text: &[u8],
    number: u64,
    block: &Block,
    into: &mut Vec<u8>,
) -> Result<(), AllocError>
    ensures { OnOk result (into.new.items ≡ into.old.items ++ (text.now ++ decimal number ++ codes " " ++ block_text block.now ++ codes "\n")) }
{
    put_with_number(text, number, into)?;
    put_text(b" ", into)?;
    put_block(block, into)?;
    put_text(b"\n", into)?;
    Ok(())
}

fn end_with_done(
    txn: u64,
    call: &Call,
    answer: &Answer,
    into: &mut Vec<u8>,
) -> Result<(), AllocError>
    ensures { OnOk result (into.new.items ≡ into.old.items ++ (done_text txn call.now answer.now ++ codes "\n")) }
{
    put_with_number(b"done ", txn, into)?;
    put_text(b" ", into)?;
    put_text(name_of_call(call).as_bytes(), into)?;
    put_with_number(b" ", key_in(call), into)?;
    put_text(b" ", into)?;
    said_line(
        &Line::Answered {
            call: *call,
            answer: *answer,
        },
        into,
    )
}

// A record's line, without its number.
fn put_record(logged: &Record, into: &mut Vec<u8>) -> Result<(), AllocError>
    ensures { OnOk result (into.new.items ≡ into.old.items ++ (record_text logged.now ++ codes "\n")) }
{
    match logged {
        Record::Format { index, heap } => {
            put_with_number(b"format ", u64::from(*index), into)?;
            end_with_number(b" ", u64::from(*heap), into)
        }
        Record::Begin { txn } => end_with_number(b"begin ", *txn, into),
        Record::Forward { txn, block } => end_with_block(b"op ", *txn, block, into),
        Record::Done { txn, call, answer } => end_with_done(*txn, call, answer, into),
        Record::Commit { txn } => end_with_number(b"commit ", *txn, into),
        Record::Ended { txn } => end_with_number(b"ended ", *txn, into),
        Record::Solo { txn, parent, block } => {
            put_with_number(b"solo ", *txn, into)?;
            end_with_block(b" ", *parent, block, into)
        }
        Record::AuditBegin => put_text(b"audit begin\n", into),
        Record::AuditClean { begin } => end_with_number(b"audit clean ", *begin, into),
        Record::AuditFail { begin, regions } => {
            put_with_number(b"audit fail ", *begin, into)?;
            put_with_regions(b" ", regions, into)?;
            put_text(b"\n", into)
        }
        Record::Restarted {
            rolled_back,
            deleted,
        } => {
            put_with_numbers(b"restarted rolled back ", rolled_back, into)?;
            put_with_numbers(b" deleted ", deleted, into)?;
            put_text(b"\n", into)
        }
        Record::Back { txn, block } => end_with_block(b"back ", *txn, block, into),
    }
}

/// Adds a record's line: its number and a blank, and its fields. It takes memory for the text; where that is refused nothing
/// is said of the text.
pub fn put_line(number: u64, logged: &Record, into: &mut Vec<u8>) -> Result<(), AllocError>
    ensures { OnOk result (into.new.items ≡ into.old.items ++ record_line number logged.now) }
{
    put_with_number(b"", number, into)?;
    put_text(b" ", into)?;
    put_record(logged, into)?;
    Ok(())
}
