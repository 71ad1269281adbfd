//! The lines.
ghost use Rattle.std.specs.Prelude.{◌≡◌, ◌++◌, OnOk, OnErr, take};
ghost use Rattle.dali_transcripts.specs.Clients.Told.{said_of};
ghost use Rattle.dali_report.specs.Texts.{IsFront};
ghost use Rattle.dali_report.specs.Lines.{line_text, text_of, alone_text, client_text};

use crate::leaves::{
    put_number, put_text, put_with_name, put_with_number, put_with_numbers, put_with_value,
};
use crate::printed::Line;
use crate::said::{put_said, put_stop};
use dali_transcripts::clients::Line as ClientLine;
use std::alloc::AllocError;

fn put_line(line: &Line, into: &mut Vec<u8>) -> Result<(), AllocError>
    ensures ok { OnOk result (into.new.items ≡ into.old.items ++ line_text line.now) }
    ensures err { OnErr result (IsFront into.old.items into.new.items) }
{
    match line {
        Line::Stopped { name, cause } => put_stop(*name, *cause, into),
        Line::RolledBack { transactions } => put_with_numbers(b"rolled back ", transactions, into),
        Line::Deleted { transactions } => put_with_numbers(b"deleted ", transactions, into),
        Line::RestartStoreStopped => put_text(b"restart store stopped", into),
        Line::Cleaned { transactions } => put_with_numbers(b"cleaned ", transactions, into),
        Line::Shown { key, value } => {
            put_number(*key, into)?;
            put_with_value(b" ", value, into)?;
            Ok(())
        }
        Line::Records { count } => put_with_number(b"records ", *count, into),
        Line::VerifyOk => put_text(b"verify ok", into),
        Line::VerifyDiffers => put_text(b"verify differs", into),
        Line::VerifyStoreStopped => put_text(b"verify store stopped", into),
        Line::Fuse { passes } => put_with_number(b"fuse ", *passes, into),
        Line::Crash { choice } => put_with_number(b"crash ", u64::from(*choice), into),
        Line::Down { name } => put_with_name(*name, b" down", into),
        Line::RoundDown => put_text(b"round down", into),
    }
}

fn put_ended(line: &Line, into: &mut Vec<u8>) -> Result<(), AllocError>
    ensures ok { OnOk result (into.new.items ≡ into.old.items ++ text_of line.now) }
    ensures err { OnErr result (IsFront into.old.items into.new.items) }
{
    put_line(line, into)?;
    put_text(b"\n", into)?;
    Ok(())
}

fn put_alone(said: &ClientLine, into: &mut Vec<u8>) -> Result<(), AllocError>
    ensures ok { OnOk result (into.new.items ≡ into.old.items ++ alone_text (said_of said.now)) }
    ensures err { OnErr result (IsFront into.old.items into.new.items) }
{
    put_said(said, into)?;
    put_text(b"\n", into)?;
    Ok(())
}

fn put_client(client: u32, line: &ClientLine, into: &mut Vec<u8>) -> Result<(), AllocError>
    ensures ok { OnOk result (into.new.items ≡ into.old.items ++ client_text client (said_of line.now)) }
    ensures err { OnErr result (IsFront into.old.items into.new.items) }
{
    put_number(u64::from(client), into)?;
    put_text(b" ", into)?;
    put_said(line, into)?;
    put_text(b"\n", into)?;
    Ok(())
}

// Takes back what was added since the text had this length, where memory was refused.
fn whole_or_nothing(
    added: Result<(), AllocError>,
    length: usize,
    into: &mut Vec<u8>,
) -> Result<(), AllocError>
    ensures same { result ≡ added }
    ensures ok { OnOk result (into.new.items ≡ into.old.items) }
    ensures err { OnErr result (into.new.items ≡ take length into.old.items) }
{
    if added.is_err() {
        into.truncate(length);
    }
    added
}

/// Adds the text of a line, its end included. It takes memory for the text; where that is refused
/// nothing is added.
pub fn line(line: &Line, into: &mut Vec<u8>) -> Result<(), AllocError>
    ensures added { OnOk result (into.new.items ≡ into.old.items ++ text_of line.now) }
    ensures unchanged { OnErr result (into.new.items ≡ into.old.items) }
{
    let length = into.len();
    let added = put_ended(line, into);
    whole_or_nothing(added, length, into)
}

/// Adds the text of a line that a client prints: the client's number, a blank, and the line with its
/// end. It takes memory for the text; where that is refused nothing is added.
pub fn client_line(client: u32, line: &ClientLine, into: &mut Vec<u8>) -> Result<(), AllocError>
    ensures added { OnOk result (into.new.items ≡ into.old.items ++ client_text client (said_of line.now)) }
    ensures unchanged { OnErr result (into.new.items ≡ into.old.items) }
{
    let length = into.len();
    let added = put_client(client, line, into);
    whole_or_nothing(added, length, into)
}

/// Adds the text of what a single `poke`, `audit` or `checkpoint` says, its end included. It takes memory for the text;
/// where that is refused nothing is added.
pub fn said_line(said: &ClientLine, into: &mut Vec<u8>) -> Result<(), AllocError>
    ensures added { OnOk result (into.new.items ≡ into.old.items ++ alone_text (said_of said.now)) }
    ensures unchanged { OnErr result (into.new.items ≡ into.old.items) }
{
    let length = into.len();
    let added = put_alone(said, into);
    whole_or_nothing(added, length, into)
}
