//! What a client says, without its number.
ghost use Rattle.std.specs.Prelude.{◌≡◌, ◌++◌, OnOk, OnErr};
ghost use Rattle.dali_script.specs.Names.{text_of as name_text};
ghost use Rattle.dali_transcripts.specs.Clients.Told.{act_of, reason_of, said_of};
ghost use Rattle.dali_report.specs.Texts.{IsFront};
ghost use Rattle.dali_report.specs.Said.{call_name, act_name, answer_text, stop_text, reason_text, clean_or_failed, said_text};

use crate::leaves::{
    put_number, put_text, put_with_hex, put_with_name, put_with_number, put_with_regions,
    put_with_value,
};
use dali_record::{Answer, Call, Regions};
use dali_runs::Cause;
use dali_script::Name;
use dali_transcripts::clients::{Command, Line, Why};
use std::alloc::AllocError;

fn name_of_call(call: &Call) -> Name
    ensures { result ≡ call_name call.now }
{
    match call {
        Call::Insert { .. } => Name::Insert,
        Call::Update { .. } => Name::Update,
        Call::Delete { .. } => Name::Delete,
        Call::Get { .. } => Name::Get,
    }
}

fn name_of(command: &Command) -> Name
    ensures { result ≡ act_name (act_of command.now) }
{
    match command {
        Command::Begin => Name::Begin,
        Command::Call { call } => name_of_call(call),
        Command::Die { .. } => Name::Die,
        Command::Commit => Name::Commit,
        Command::Abort => Name::Abort,
        Command::Poke { .. } => Name::Poke,
        Command::Audit => Name::Audit,
        Command::Checkpoint => Name::Checkpoint,
    }
}

fn put_answer(call: &Call, answer: &Answer, into: &mut Vec<u8>) -> Result<(), AllocError>
    ensures ok { OnOk result (into.new.items ≡ into.old.items ++ answer_text call.now answer.now) }
    ensures err { OnErr result (IsFront into.old.items into.new.items) }
{
    let name = name_of_call(call);
    match answer {
        Answer::Ok => put_with_name(name, b" ok", into),
        Answer::Exists => put_with_name(name, b" exists", into),
        Answer::Missing => put_with_name(name, b" missing", into),
        Answer::Got { value } => put_with_value(b"got ", value, into),
        Answer::FullHeap => put_with_name(name, b" full heap", into),
        Answer::FullIndex => put_with_name(name, b" full index", into),
        Answer::Odd { place } => {
            put_with_name(name, b" odd ", into)?;
            put_number(*place, into)?;
            Ok(())
        }
    }
}

/// A command that was refused since the engine is stopped.
pub fn put_stop(name: Name, cause: Cause, into: &mut Vec<u8>) -> Result<(), AllocError>
    ensures ok { OnOk result (into.new.items ≡ into.old.items ++ stop_text name cause) }
    ensures err { OnErr result (IsFront into.old.items into.new.items) }
{
    match cause {
        Cause::Store => put_with_name(name, b" stopped store", into),
        Cause::Damage { region } => {
            put_with_name(name, b" stopped damage ", into)?;
            put_number(u64::from(region), into)?;
            Ok(())
        }
    }
}

fn put_refusal(name: Name, why: &Why, into: &mut Vec<u8>) -> Result<(), AllocError>
    ensures ok { OnOk result (into.new.items ≡ into.old.items ++ reason_text name (reason_of why.now)) }
    ensures err { OnErr result (IsFront into.old.items into.new.items) }
{
    match why {
        Why::Stopped { cause } => put_stop(name, *cause, into),
        Why::LogFull { end, limit } => {
            put_with_name(name, b" log full ", into)?;
            put_number(*end, into)?;
            put_with_number(b" ", *limit, into)?;
            Ok(())
        }
        Why::Damaged {
            region,
            codeword,
            found,
        } => {
            put_with_name(name, b" damaged ", into)?;
            put_number(u64::from(*region), into)?;
            put_with_hex(b" ", *codeword, into)?;
            put_with_hex(b" ", *found, into)?;
            Ok(())
        }
        Why::StoreStopped => put_with_name(name, b" store stopped", into),
        Why::InProgress => put_with_name(name, b" in progress", into),
    }
}

fn put_audited(failing: &Regions, into: &mut Vec<u8>) -> Result<(), AllocError>
    ensures ok { OnOk result (into.new.items ≡ into.old.items ++ clean_or_failed failing.now) }
    ensures err { OnErr result (IsFront into.old.items into.new.items) }
{
    if failing.as_slice().is_empty() {
        return put_text(b"audit clean", into);
    }
    put_with_regions(b"audit failed ", failing, into)
}

/// A line that a client says.
pub fn put_said(line: &Line, into: &mut Vec<u8>) -> Result<(), AllocError>
    ensures ok { OnOk result (into.new.items ≡ into.old.items ++ said_text (said_of line.now)) }
    ensures err { OnErr result (IsFront into.old.items into.new.items) }
{
    match line {
        Line::Begun { txn } => put_with_number(b"begin ", *txn, into),
        Line::Answered { call, answer } => put_answer(call, answer, into),
        Line::CommitOk => put_text(b"commit ok", into),
        Line::AbortOk => put_text(b"abort ok", into),
        Line::Aborted => put_text(b"aborted", into),
        Line::LeftOpen => put_text(b"left open", into),
        Line::Died => put_text(b"died", into),
        Line::Busy { holder } => put_with_number(b"busy ", *holder, into),
        Line::PokeOk => put_text(b"poke ok", into),
        Line::PokeOutOfRange => put_text(b"poke out of range", into),
        Line::Audited { failing } => put_audited(failing, into),
        Line::Checkpointed { number } => put_with_number(b"checkpoint ", *number, into),
        Line::CheckpointFailed { failing } => put_with_regions(
            b"checkpoint failed ",
            failing,
            into,
        ),
        Line::Refused { command, why } => put_refusal(name_of(command), why, into),
    }
}
