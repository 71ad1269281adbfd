//! A script that is parsed.

use crate::keys::mix_bytes;
use crate::timing::Timing;
use anyhow::{Result, ensure};
use dali_script::{Block, Command, Script, parse};
use std::alloc::Global;
use std::fmt::Write;
use std::rt::Clock;
use std::time::Instant;

/// How many bytes a script has at most.
pub const LIMIT: usize = 1_048_576;

// A round of one client, with a transaction of ten inserts and a get.
fn put_round(round: u64, text: &mut String) -> Result<()> {
    text.push_str("client 1\nbegin\n")?;
    let mut key = round.wrapping_mul(10);
    for _ in 0..10 {
        key = key.wrapping_add(1);
        write!(text, "insert {key} hello\\x20world\n")?;
    }
    write!(text, "get {key}\ncommit\nend\nnext\n")?;
    Ok(())
}

// A header of 15 bytes, and rounds as long as both together stay within a limit in bytes.
fn text(alloc: Global, limit: usize) -> Result<String> {
    let mut text = String::from_str(alloc, "size 1024 2048\n")?;
    for number in 0..limit as u64 {
        let mut round = String::new(alloc);
        put_round(number, &mut round)?;
        if text.len() + round.len() > limit {
            return Ok(text);
        }
        text.push_str(round.as_str())?;
    }
    Ok(text)
}

// How many commands blocks have.
fn count_in_blocks(blocks: &[Block]) -> u64 {
    let mut count: u64 = 0;
    for block in blocks {
        count = count.wrapping_add(block.commands.as_slice().len() as u64);
    }
    count
}

// How many commands this is, with those of its blocks.
fn count_of(command: &Command) -> u64 {
    match command {
        Command::Round { blocks } => count_in_blocks(blocks.as_slice()).wrapping_add(1),
        _ => 1,
    }
}

// How many commands a script has, with those of its blocks.
fn count_in(script: &Script) -> u64 {
    let mut count: u64 = 0;
    for command in script.commands() {
        count = count.wrapping_add(count_of(command));
    }
    count
}

/// A script of at most so many bytes, or of the 15 of its header, is parsed, so many times.
pub fn run(clock: &impl Clock, alloc: Global, passes: u32, limit: usize) -> Result<Timing> {
    let text = text(alloc, limit)?;
    let bytes = text.as_bytes();
    let start = Instant::now(clock)?;
    let mut commands: u64 = 0;
    for _ in 0..passes {
        let script = parse(alloc, bytes)?;
        commands = commands.wrapping_add(count_in(&script));
    }
    let count = (bytes.len() as u64).saturating_mul(passes as u64);
    let timing = Timing::since(clock, start, count, "bytes")?;
    ensure!(commands > 0, "no commands");
    Ok(timing.checked(mix_bytes(bytes).wrapping_add(commands)))
}
