//! Records of blocks, encoded and decoded.
ghost use Rattle.std.specs.Prelude.{◌≡◌, ◌≤◌, true};
ghost use Rattle.dali_words.specs.Values.{IsValue};
ghost use Rattle.dali_record.specs.Spelling.{IsOperation, is_forward};

use crate::keys::mix_bytes;
use crate::timing::Timing;
use anyhow::{Context, Result, ensure};
use dali_bytes::Reader;
use dali_record::{Block, Op, Record, decode, effect, encode};
use dali_words::Value;
use std::alloc::Global;
use std::marker::Model;
use std::rt::Clock;
use std::time::Instant;

const RECORDS: u32 = 1000;

const REGION: u32 = 7;

/// A record that can be encoded.
#[derive(Drop)]
struct Sample {
    entry: Record,
}

impl Model for Sample {
    ghost use Rattle.dali_record.specs.declared.records.Record.{Record};
    ghost use Rattle.dali_record.specs.Spelling.{CanBeSpelled};

    ghost Value = { Record };

    ghost view = { λ s. s.entry };

    ghost invariant = { λ s. CanBeSpelled s.entry };
}

// The record of an operation of a call.
fn make_sample(txn: u64, op: Op, key: u64, words: &[u64; 64]) -> Sample
    requires operation { IsOperation op }
    requires forward { is_forward op ≡ true }
{
    Sample {
        entry: Record::Forward {
            txn,
            block: Block::new(op, key, REGION, words),
        },
    }
}

// The words of a region in which the cells from 1 to this one hold the value, each under its key.
fn words_with(cells: u8, value: Value) -> [u64; 64]
    requires few { cells ≤ 7 }
    requires value { IsValue value }
{
    let mut words = [0; 64];
    words[0] = 1;
    for full in 0..cells {
        words = effect(&Op::Put { value }, key_of(full + 1), &words).0.after;
    }
    words
}

fn key_of(cell: u8) -> u64 {
    1000 + cell as u64
}

// A put, a read or a change in one of the cells 1 to 7, by turns.
fn sample_at(place: u64, value: Value) -> Sample
    requires value { IsValue value }
{
    let full = (place % 7) as u8;
    let cell = full + 1;
    if place % 3 == 0 {
        let words = words_with(full, value);
        return make_sample(place, Op::Put { value }, key_of(cell), &words);
    }
    let words = words_with(cell, value);
    if place % 3 == 1 {
        return make_sample(place, Op::Read { cell }, key_of(cell), &words);
    }
    make_sample(place, Op::Change { cell, value }, key_of(cell), &words)
}

// So many records.
fn samples(alloc: Global, count: u32) -> Result<Vec<Sample>> {
    let value = Value::from_bytes(b"abc").context("no value")?;
    let _bytes = value.bytes();
    let mut samples = Vec::with_capacity(alloc, count as usize)?;
    for place in 0..count {
        samples.push(sample_at(place as u64, value))?;
    }
    Ok(samples)
}

fn encode_all(samples: &[Sample], bytes: &mut Vec<u8>) -> Result<()> {
    for sample in samples {
        encode(&sample.entry, bytes)?;
    }
    Ok(())
}

// How many new words a block has.
fn count_words(entry: &Record) -> usize {
    match entry {
        Record::Forward { block, .. } => block.after.as_slice().len(),
        _ => 0,
    }
}

// Decodes so many records. It answers how many new words their blocks have.
fn decode_all(alloc: Global, bytes: &[u8], count: usize) -> Result<usize> {
    let mut reader = Reader::new(bytes);
    let mut words: usize = 0;
    for done in 0..count {
        let entry = decode(alloc, &mut reader)?;
        words = words.wrapping_add(count_words(&entry));
    }
    ensure!(reader.left() == 0, "bytes are left");
    Ok(words)
}

// Encodes the records into a buffer that is cleared, and decodes them again. It answers how many new words their
// blocks have.
fn pass(alloc: Global, samples: &[Sample], bytes: &mut Vec<u8>) -> Result<usize> {
    bytes.clear();
    encode_all(samples, bytes)?;
    let words = decode_all(alloc, bytes.as_slice(), samples.len())?;
    Ok(words)
}

/// Encodes and decodes so many records of blocks, rounded down to thousands, a thousand at a time. The check number is
/// made of the bytes that they spell and of the new words that were decoded in all.
pub fn run(clock: &impl Clock, alloc: Global, count: u32) -> Result<Timing> {
    let samples = samples(alloc, RECORDS)?;
    let passes = count / RECORDS;
    let mut bytes = Vec::new(alloc);
    let mut words: usize = 0;
    let start = Instant::now(clock)?;
    for _ in 0..passes {
        words = words.wrapping_add(pass(alloc, &samples, &mut bytes)?);
    }
    let timing = Timing::since(clock, start, passes as u64 * RECORDS as u64, "records")?;
    ensure!(words > 0, "no words were read");
    Ok(timing.checked(mix_bytes(&bytes).wrapping_add(words as u64)))
}
