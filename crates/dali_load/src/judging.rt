//! What the lines of such a script say.
ghost use Rattle.std.specs.Prelude.{◌≡◌, ◌<◌, ◌++◌, IfOk, OnOk, map};
ghost use Rattle.dali_script.specs.Lines.{lines_of};
ghost use Rattle.dali_load.specs.Answers as specs;
ghost use Rattle.dali_load.specs.Scripts.{groups as group_count};

use crate::building::{GROUP, groups};
use dali_script::{first_line, number, put_words};
use itoa::Buffer;
use std::alloc::{AllocError, Global};

/// What the lines of a script that stores rows say.
#[derive(Clone, Copy, PartialEq, Eq)]
pub enum Verdict {
    /// Each row was stored, each transaction is committed, and the checkpoint is made.
    AllWell,
    /// A row found no room: the heap or the index is full.
    TooSmall,
    /// The log has no room: `end` is where it ends with the records that wait, `limit` how far it may go.
    LogFull { end: u64, limit: u64 },
    /// Something else is said.
    NotLoaded,
}

// How many rows a group has.
fn size_at(count: usize, group: usize) -> usize
    requires { group < group_count count }
    ensures { result ≡ specs.size_at count group }
{
    GROUP.min(count - GROUP * group)
}

fn put_inserted(count: usize, text: &mut Vec<u8>) -> Result<(), AllocError>
    ensures { OnOk result (text.new.items ≡ text.old.items ++ specs.inserted count) }
{
    for _ in 0..count {
        text.extend_from_slice(b"1 insert ok\n")?;
    }
    Ok(())
}

// Adds the lines of a group's round.
fn put_lines(count: usize, group: usize, text: &mut Vec<u8>) -> Result<(), AllocError>
    requires { group < group_count count }
    ensures { OnOk result (text.new.items ≡ text.old.items ++ specs.lines_at count group) }
{
    text.extend_from_slice(b"1 begin ")?;
    text.extend_from_slice(Buffer::new().format(group as u64 + 1).as_bytes())?;
    text.extend_from_slice(b"\n")?;
    put_inserted(size_at(count, group), text)?;
    text.extend_from_slice(b"1 commit ok\n")?;
    Ok(())
}

// The lines where all went well.
fn expected(alloc: Global, count: usize) -> Result<Vec<u8>, AllocError>
    ensures { IfOk result (λ text. text.items ≡ specs.expected count) }
{
    let mut text = Vec::new(alloc);
    for group in 0..groups(count) {
        put_lines(count, group, &mut text)?;
    }
    text.extend_from_slice(b"checkpoint 1\n")?;
    Ok(text)
}

fn full_at(end: &[u8], limit: &[u8]) -> Option<Verdict>
    ensures { result ≡ specs.full_at end.now limit.now }
{
    Some(Verdict::LogFull {
        end: number(end)?,
        limit: number(limit)?,
    })
}

// What a line of these words says that refuses a row.
fn refusal_in(words: &[&[u8]]) -> Option<Verdict>
    ensures { result ≡ specs.refusal_in (map (λ word. word.now) words.now) }
{
    match words {
        [_, _, word, _] => {
            if *word == b"full".as_slice() {
                Some(Verdict::TooSmall)
            } else {
                None
            }
        }
        [_, word, _, end, limit] | [_, _, word, _, end, limit] => {
            if *word == b"log".as_slice() {
                full_at(end, limit)
            } else {
                None
            }
        }
        _ => None,
    }
}

fn first_refusal(alloc: Global, text: &[u8]) -> Result<Option<Verdict>, AllocError>
    ensures { IfOk result (λ refusal. refusal ≡ specs.first_refusal (lines_of text.now)) }
{
    let mut words = Vec::new(alloc);
    let mut rest = Some(text);
    while let Some(left) = rest {
        let (line, behind) = first_line(left);
        put_words(line, &mut words)?;
        let refusal = refusal_in(&words);
        if refusal.is_some() {
            return Ok(refusal);
        }
        rest = behind;
    }
    Ok(None)
}

/// What the lines of a script that stores so many rows say: that all went well, exactly where they are what is said then;
/// else the first refusal of a row for want of room, or of a record for want of room in the log. It takes memory.
pub fn judge(alloc: Global, count: usize, lines: &[u8]) -> Result<Verdict, AllocError>
    ensures { IfOk result (λ verdict. verdict ≡ specs.verdict_of count lines.now) }
{
    let expected = expected(alloc, count)?;
    if lines == expected.as_slice() {
        return Ok(Verdict::AllWell);
    }
    Ok(first_refusal(alloc, lines)?.unwrap_or(Verdict::NotLoaded))
}
