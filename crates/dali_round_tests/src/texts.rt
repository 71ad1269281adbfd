//! The text of lines.

use anyhow::Result;
use dali_record::{Answer, Call};
use dali_round::{Command, Line, Transcript, Why};
use dali_runs::Cause;
use dali_words::Value;
use std::alloc::Global;

fn name_of(call: &Call) -> &'static str {
    match call {
        Call::Insert { .. } => "insert",
        Call::Update { .. } => "update",
        Call::Delete { .. } => "delete",
        Call::Get { .. } => "get",
    }
}

fn name(command: &Command) -> &'static str {
    match command {
        Command::Begin => "begin",
        Command::Call { call } => name_of(call),
        Command::Die { .. } => "die",
        Command::Commit => "commit",
        Command::Abort => "abort",
        Command::Poke { .. } => "poke",
        Command::Audit => "audit",
        Command::Checkpoint => "checkpoint",
    }
}

fn value_text(alloc: Global, value: &Value) -> Result<String> {
    let mut text = String::new(alloc);
    for byte in value.bytes() {
        text.push(*byte as char)?;
    }
    Ok(text)
}

fn list(alloc: Global, numbers: &[u32]) -> Result<String> {
    let mut text = String::new(alloc);
    for number in numbers {
        text.push_str(" ")?;
        text.push_str(&format!(in alloc; "{number}")?)?;
    }
    Ok(text)
}

fn answer_text(alloc: Global, call: &Call, answer: &Answer) -> Result<String> {
    let name = name_of(call);
    Ok(match answer {
        Answer::Ok => format!(in alloc; "{name} ok")?,
        Answer::Exists => format!(in alloc; "{name} exists")?,
        Answer::Missing => format!(in alloc; "{name} missing")?,
        Answer::Got { value } => {
            let value = value_text(alloc, value)?;
            format!(in alloc; "got {value}")?
        }
        Answer::FullHeap => format!(in alloc; "{name} full heap")?,
        Answer::FullIndex => format!(in alloc; "{name} full index")?,
        Answer::Odd { place } => format!(in alloc; "{name} odd {place}")?,
    })
}

fn refusal_text(alloc: Global, command: &Command, why: &Why) -> Result<String> {
    let name = name(command);
    Ok(match why {
        Why::Stopped {
            cause: Cause::Damage { region },
        } => format!(in alloc; "{name} stopped damage {region}")?,
        Why::Stopped {
            cause: Cause::Store,
        } => format!(in alloc; "{name} stopped store")?,
        Why::LogFull { end, limit } => format!(in alloc; "{name} log full {end} {limit}")?,
        Why::Damaged {
            region,
            codeword,
            found,
        } => format!(in alloc; "{name} damaged {region} {codeword:016x} {found:016x}")?,
        Why::StoreStopped => format!(in alloc; "{name} store stopped")?,
        Why::InProgress => format!(in alloc; "{name} in progress")?,
    })
}

fn line_text(alloc: Global, line: &Line) -> Result<String> {
    Ok(match line {
        Line::Begun { txn } => format!(in alloc; "begin {txn}")?,
        Line::Answered { call, answer } => answer_text(alloc, call, answer)?,
        Line::CommitOk => format!(in alloc; "commit ok")?,
        Line::AbortOk => format!(in alloc; "abort ok")?,
        Line::Aborted => format!(in alloc; "aborted")?,
        Line::LeftOpen => format!(in alloc; "left open")?,
        Line::Died => format!(in alloc; "died")?,
        Line::Busy { holder } => format!(in alloc; "busy {holder}")?,
        Line::PokeOk => format!(in alloc; "poke ok")?,
        Line::PokeOutOfRange => format!(in alloc; "poke out of range")?,
        Line::Audited { failing } => match failing.as_slice() {
            [] => format!(in alloc; "audit clean")?,
            failing => {
                let failing = list(alloc, failing)?;
                format!(in alloc; "audit failed{failing}")?
            }
        },
        Line::Checkpointed { number } => format!(in alloc; "checkpoint {number}")?,
        Line::CheckpointFailed { failing } => {
            let failing = list(alloc, failing.as_slice())?;
            format!(in alloc; "checkpoint failed{failing}")?
        }
        Line::Refused { command, why } => refusal_text(alloc, command, why)?,
    })
}

/// The lines of these transcripts by ascending client, each behind its client's number, with ` / ` between them.
pub fn text_of(alloc: Global, transcripts: &[Transcript]) -> Result<String> {
    let mut text = String::new(alloc);
    for client in 1..=64 {
        for transcript in transcripts {
            if transcript.client() != client {
                continue;
            }
            for line in transcript.lines() {
                if !text.is_empty() {
                    text.push_str(" / ")?;
                }
                text.push_str(&format!(in alloc; "{client} ")?)?;
                text.push_str(&line_text(alloc, line)?)?;
            }
        }
    }
    Ok(text)
}
