//! The texts of lines, and the last line of a run.
ghost use Rattle.std.specs.Prelude.{◌≡◌, ◌≤◌, ◌++◌, ◌∷◌, [], IfOk, IfErr, OnOk, codes, map, flat_map, length};
ghost use Rattle.std.specs.Fmt.{decimal};
ghost use Rattle.dali_store.specs.Faults.{HasCause, Rose};
ghost use Rattle.dali_store.specs.Store.{name_of as file_text};
ghost use Rattle.dali_streams.specs.Streams.{Appends, AppendsSome};
ghost use Rattle.dali_report.specs.Lines.{texts, client_texts};
ghost use Rattle.dali_report.specs.declared.printed.Line.TheVariants as lines;
ghost use Rattle.dali_round.specs.Leads.{lines_in};
ghost use Rattle.dali_run.specs.declared.halt.Halt.TheVariants.{OutOfMemory, WriteFault};
ghost use Rattle.dali_run.specs.Halts.{status_of, last_line};
ghost use Rattle.dali_run.specs.Texts.{alone_texts, said_by, said_texts, shown};

use crate::halt::Halt;
use dali_listing::Listed;
use dali_record::Numbers;
use dali_report::{Line, client_line, line, said_line};
use dali_runs::Cause;
use dali_script::Name;
use dali_store::FileName;
use dali_streams::{Failed, Sink, write_all};
use dali_transcripts::clients::Transcript;
use itoa::Buffer;
use std::alloc::Global;

/// The text of one line. It takes memory for the text.
pub fn text_of_line(alloc: Global, entry: &Line) -> Result<Vec<u8>, Halt>
    ensures text { IfOk result (λ text. text.items ≡ texts (entry.now ∷ [])) }
    ensures memory { IfErr result (λ halt. halt ≡ OutOfMemory) }
{
    let mut text = Vec::new(alloc);
    line(entry, &mut text)?;
    Ok(text)
}

/// What a command says of an engine that is stopped. It takes memory for the text.
pub fn text_of_stop(alloc: Global, name: Name, cause: Cause) -> Result<Vec<u8>, Halt>
    ensures text { IfOk result (λ text. text.items ≡ texts (lines.Stopped name cause ∷ [])) }
    ensures memory { IfErr result (λ halt. halt ≡ OutOfMemory) }
{
    text_of_line(alloc, &Line::Stopped { name, cause })
}

/// The lines of a restart.
pub fn text_of_restart(
    alloc: Global,
    rolled_back: Vec<u64>,
    deleted: Vec<u64>,
) -> Result<Vec<u8>, Halt>
    ensures text { IfOk result (λ text. text.items ≡ texts (lines.RolledBack rolled_back.items ∷ lines.Deleted deleted.items ∷ [])) }
    ensures memory { IfErr result (λ halt. halt ≡ OutOfMemory) }
{
    let mut text = Vec::new(alloc);
    line(
        &Line::RolledBack {
            transactions: Numbers::new(rolled_back),
        },
        &mut text,
    )?;
    line(
        &Line::Deleted {
            transactions: Numbers::new(deleted),
        },
        &mut text,
    )?;
    Ok(text)
}

/// A line for each record, and their number.
pub fn text_of_records(alloc: Global, rows: &[Listed]) -> Result<Vec<u8>, Halt>
    ensures text { IfOk result (λ text. text.items ≡ texts (map shown rows.now ++ lines.Records (length rows.now) ∷ [])) }
    ensures memory { IfErr result (λ halt. halt ≡ OutOfMemory) }
{
    let mut text = Vec::new(alloc);
    for row in rows {
        let shown = Line::Shown {
            key: row.key,
            value: row.value,
        };
        line(&shown, &mut text)?;
    }
    let count = rows.len() as u64;
    line(&Line::Records { count }, &mut text)?;
    Ok(text)
}

// Adds the lines of a client behind its number.
fn put_transcript(transcript: &Transcript, text: &mut Vec<u8>) -> Result<(), Halt>
    ensures added { OnOk result (text.new.items ≡ text.old.items ++ client_texts transcript.now.client (lines_in transcript.now)) }
    ensures memory { IfErr result (λ halt. halt ≡ OutOfMemory) }
{
    let client = transcript.client();
    for said in transcript.lines() {
        client_line(client, said, text)?;
    }
    Ok(())
}

// Adds the lines of the client with this number, if there is one.
fn put_client(transcripts: &[Transcript], number: u32, text: &mut Vec<u8>) -> Result<(), Halt>
    ensures added { OnOk result (text.new.items ≡ text.old.items ++ client_texts number (said_by transcripts.now number)) }
    ensures memory { IfErr result (λ halt. halt ≡ OutOfMemory) }
{
    for transcript in transcripts {
        if transcript.client() == number {
            return put_transcript(transcript, text);
        }
    }
    Ok(())
}

/// The lines of a round's clients, by ascending number.
pub fn text_of_round(alloc: Global, transcripts: &[Transcript]) -> Result<Vec<u8>, Halt>
    ensures text { IfOk result (λ text. text.items ≡ said_texts transcripts.now) }
    ensures memory { IfErr result (λ halt. halt ≡ OutOfMemory) }
{
    let mut text = Vec::new(alloc);
    for number in 0..64 {
        put_client(transcripts, number + 1, &mut text)?;
    }
    Ok(text)
}

// Adds the lines of a client without its number.
fn put_alone(transcript: &Transcript, text: &mut Vec<u8>) -> Result<(), Halt>
    ensures added { OnOk result (text.new.items ≡ text.old.items ++ alone_texts transcript.now) }
    ensures memory { IfErr result (λ halt. halt ≡ OutOfMemory) }
{
    for said in transcript.lines() {
        said_line(said, text)?;
    }
    Ok(())
}

/// The lines of clients without their numbers.
pub fn text_alone(alloc: Global, transcripts: &[Transcript]) -> Result<Vec<u8>, Halt>
    ensures text { IfOk result (λ text. text.items ≡ flat_map alone_texts transcripts.now) }
    ensures memory { IfErr result (λ halt. halt ≡ OutOfMemory) }
{
    let mut text = Vec::new(alloc);
    for transcript in transcripts {
        put_alone(transcript, &mut text)?;
    }
    Ok(text)
}

// Writes a text, a number and another text. Where it fails, some of the first of these bytes were taken.
fn write_numbered<K: Sink>(
    sink: &mut K,
    before: &[u8],
    number: u64,
    behind: &[u8],
) -> Result<(), Failed>
    ensures all { OnOk result (Appends (K.taken sink.old) (before.now ++ (decimal number ++ behind.now)) (K.taken sink.new)) }
    ensures some { AppendsSome (K.taken sink.old) (before.now ++ (decimal number ++ behind.now)) (K.taken sink.new) }
    ensures cause { HasCause (K.faults sink.old) (K.faults sink.new) result }
{
    write_all(sink, before)?;
    write_all(sink, Buffer::new().format(number).as_bytes())?;
    write_all(sink, behind)
}

// The same with a third text.
fn write_in_line<K: Sink>(sink: &mut K, number: u64, text: &[u8]) -> Result<(), Failed>
    ensures all { OnOk result (Appends (K.taken sink.old) (codes "line " ++ (decimal number ++ (codes ": " ++ (text.now ++ codes "\n")))) (K.taken sink.new)) }
    ensures some { AppendsSome (K.taken sink.old) (codes "line " ++ (decimal number ++ (codes ": " ++ (text.now ++ codes "\n")))) (K.taken sink.new) }
    ensures cause { HasCause (K.faults sink.old) (K.faults sink.new) result }
{
    write_numbered(sink, b"line ", number, b": ")?;
    write_all(sink, text)?;
    write_all(sink, b"\n")
}

/// Writes the lines of a command to standard output.
pub fn write_whole<K: Sink>(sink: &mut K, text: &[u8]) -> Result<(), Halt>
    ensures all { OnOk result (Appends (K.taken sink.old) text.now (K.taken sink.new)) }
    ensures some { IfErr result (λ halt. (halt ≡ WriteFault) × AppendsSome (K.taken sink.old) text.now (K.taken sink.new) × Rose (K.faults sink.old) (K.faults sink.new)) }
    ensures later { K.faults sink.old ≤ K.faults sink.new }
    ensures kept { OnOk result (K.faults sink.new ≡ K.faults sink.old) }
{
    match write_all(sink, text) {
        Ok(()) => Ok(()),
        Err(_) => Err(Halt::WriteFault),
    }
}

// The line of a log without room.
fn write_log_full<K: Sink>(sink: &mut K, end: u64, limit: u64) -> Result<(), Failed>
    ensures all { OnOk result (Appends (K.taken sink.old) (codes "log full " ++ (decimal end ++ (codes " " ++ (decimal limit ++ codes "\n")))) (K.taken sink.new)) }
    ensures some { AppendsSome (K.taken sink.old) (codes "log full " ++ (decimal end ++ (codes " " ++ (decimal limit ++ codes "\n")))) (K.taken sink.new) }
    ensures cause { HasCause (K.faults sink.old) (K.faults sink.new) result }
{
    write_numbered(sink, b"log full ", end, b" ")?;
    write_numbered(sink, b"", limit, b"\n")
}

/// What is printed of a file.
pub fn name_of(file: FileName) -> &'static [u8]
    ensures { result.now ≡ file_text file }
{
    match file {
        FileName::Log => b"log",
        FileName::ImageA => b"a",
        FileName::ImageB => b"b",
        FileName::Anchor => b"anchor",
    }
}

// The line of a bad file.
fn write_bad_store<K: Sink>(sink: &mut K, file: FileName, at: u64) -> Result<(), Failed>
    ensures all { OnOk result (Appends (K.taken sink.old) (codes "bad store " ++ (file_text file ++ (codes " " ++ (decimal at ++ codes "\n")))) (K.taken sink.new)) }
    ensures some { AppendsSome (K.taken sink.old) (codes "bad store " ++ (file_text file ++ (codes " " ++ (decimal at ++ codes "\n")))) (K.taken sink.new) }
    ensures cause { HasCause (K.faults sink.old) (K.faults sink.new) result }
{
    write_all(sink, b"bad store ")?;
    write_all(sink, name_of(file))?;
    write_numbered(sink, b" ", at, b"\n")
}

/// Writes the last line of a run that ends so, with its end; nothing where the sink has failed already. It takes no
/// memory but the sink's own. Where it fails, some of the first of its bytes were taken.
pub fn write_last_line<K: Sink>(sink: &mut K, halt: Halt) -> Result<(), Failed>
    ensures all { OnOk result (Appends (K.taken sink.old) (last_line (status_of halt)) (K.taken sink.new)) }
    ensures some { AppendsSome (K.taken sink.old) (last_line (status_of halt)) (K.taken sink.new) }
    ensures cause { HasCause (K.faults sink.old) (K.faults sink.new) result }
{
    match halt {
        Halt::BadWords => {
            write_all(
                sink,
                b"usage: dali run [--precheck] [--log-limit N] | gen CLIENTS SIZE NUMBER | dump\n",
            )
        }
        Halt::BadScript { line, kind } => write_in_line(sink, line, kind.text().as_bytes()),
        Halt::TooLong => write_all(sink, b"script too long\n"),
        Halt::ReadFault => write_all(sink, b"read fault\n"),
        Halt::WriteFault => Ok(()),
        Halt::StoreFault => write_all(sink, b"store fault\n"),
        Halt::BadStore { file, at } => write_bad_store(sink, file, at),
        Halt::Unformatted => write_all(sink, b"unformatted\n"),
        Halt::Formatted => write_all(sink, b"formatted\n"),
        Halt::StoreUnsteady => write_all(sink, b"store unsteady\n"),
        Halt::RecordTooLong => write_all(sink, b"record too long\n"),
        Halt::LogFull { end, limit } => write_log_full(sink, end, limit),
        Halt::OutOfMemory => write_all(sink, b"out of memory\n"),
        Halt::TooSmall => write_all(sink, b"too small\n"),
        Halt::NotLoaded => write_all(sink, b"not loaded\n"),
    }
}
