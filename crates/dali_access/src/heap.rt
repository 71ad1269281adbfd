//! Operations on the cells of a heap region.
//!
//! Cell c, from 1 to 7, stands at the words 8c to 8c+7: its state (0 free, 1 live, 2 dead), its key,
//! the length of its value, and five words that hold the value. Each operation is a function of the
//! region's 64 words, on any words: it says which words it reads and writes, all words afterwards,
//! and what it found. It stops at the first test that fails and has read no more. What it does
//! depends on the words that it reads alone.

ghost use Rattle.std.specs.Prelude.{◌≡◌, ◌≤◌};
ghost use Rattle.dali_words.specs.Effects.{DependsOnReads, AnswersByReads};
ghost use Rattle.dali_access.specs.Heap.Cells;
ghost use Rattle.dali_access.specs.Heap.Rows as rows;

pub mod laws;

use dali_words::{Effect, KillOutcome, Value, bit, bits, is_size, pack, unpack};

/// The states of a cell.
const FREE: u64 = 0;

const LIVE: u64 = 1;

const DEAD: u64 = 2;

/// What storing a value found.
#[derive(Clone, Copy, PartialEq, Eq)]
pub enum PutOutcome {
    /// It is in this cell, which was the first free one.
    Put { cell: u8 },
    /// No cell is free.
    NoCell,
}

/// What reading a cell found.
#[derive(Clone, Copy, PartialEq, Eq)]
pub enum ReadOutcome {
    /// The state isn't that of a live cell.
    NotLive { state: u64 },
    /// It has another key.
    OtherKey { key: u64 },
    /// The length isn't 1 to 40.
    OddLength { length: u64 },
    /// It has this value.
    Value { value: Value },
}

/// What changing a cell found.
#[derive(Clone, Copy, PartialEq, Eq)]
pub enum ChangeOutcome {
    /// The state isn't that of a live cell.
    NotLive { state: u64 },
    /// It has another key.
    OtherKey { key: u64 },
    /// The length isn't 1 to 40.
    OddLength { length: u64 },
    /// It has the new value.
    Changed,
}

/// The five words that hold the value of a cell.
pub fn value_words(words: &[u64; 64], cell: u8) -> [u64; 5]
    requires low { 1 ≤ cell }
    requires high { cell ≤ 7 }
    ensures { result ≡ Cells.value_of words.now cell }
{
    let first = 8 * cell as usize + 3;
    let mut value = [0; 5];
    value.copy_from_slice(&words[first..first + 5]);
    value
}

/// Stores a value for `key` in the first free cell: writes its state, key, length and value, the
/// padding too. Reads the states of the cells up to it, and the words that it writes.
pub fn put(words: &[u64; 64], key: u64, value: &Value) -> (Effect, PutOutcome)
    ensures row { result ≡ rows.put words.now key value.now }
    ensures by_reads { AnswersByReads (λ ws. rows.put ws key value.now) words.now }
{
    let mut read = 0;
    for cell in 1..8 {
        let first = 8 * cell;
        if words[first as usize] == FREE {
            let mut news = [LIVE, key, value.bytes().len() as u64, 0, 0, 0, 0, 0];
            news[3..].copy_from_slice(&pack(value));
            let read = read | bits(first, 8);
            return (
                Effect::writing(words, read, first, &news),
                PutOutcome::Put { cell },
            );
        }
        read |= bit(first);
    }
    (Effect::reading(words, read), PutOutcome::NoCell)
}

/// The value of a live cell with this key. Reads the cell's state, key, length and value, in this order.
pub fn read(words: &[u64; 64], cell: u8, key: u64) -> (Effect, ReadOutcome)
    requires low { 1 ≤ cell }
    requires high { cell ≤ 7 }
    ensures row { result ≡ rows.read words.now cell key }
    ensures by_reads { AnswersByReads (λ ws. rows.read ws cell key) words.now }
{
    let first = 8 * cell;
    let state = words[first as usize];
    if state != LIVE {
        return (
            Effect::reading(words, bits(first, 1)),
            ReadOutcome::NotLive { state },
        );
    }
    let found = words[first as usize + 1];
    if found != key {
        return (
            Effect::reading(words, bits(first, 2)),
            ReadOutcome::OtherKey { key: found },
        );
    }
    let length = words[first as usize + 2];
    match unpack(length, &value_words(words, cell)) {
        None => (
            Effect::reading(words, bits(first, 3)),
            ReadOutcome::OddLength { length },
        ),
        Some(value) => (
            Effect::reading(words, bits(first, 8)),
            ReadOutcome::Value { value },
        ),
    }
}

/// Gives a live cell with this key another value: writes its length and value, the padding too.
/// Reads the cell's state, key, length and value.
pub fn change(words: &[u64; 64], cell: u8, key: u64, value: &Value) -> (Effect, ChangeOutcome)
    requires low { 1 ≤ cell }
    requires high { cell ≤ 7 }
    ensures row { result ≡ rows.change words.now cell key value.now }
    ensures by_reads { AnswersByReads (λ ws. rows.change ws cell key value.now) words.now }
{
    let first = 8 * cell;
    let state = words[first as usize];
    if state != LIVE {
        return (
            Effect::reading(words, bits(first, 1)),
            ChangeOutcome::NotLive { state },
        );
    }
    let found = words[first as usize + 1];
    if found != key {
        return (
            Effect::reading(words, bits(first, 2)),
            ChangeOutcome::OtherKey { key: found },
        );
    }
    let length = words[first as usize + 2];
    if !is_size(length) {
        return (
            Effect::reading(words, bits(first, 3)),
            ChangeOutcome::OddLength { length },
        );
    }
    let mut news = [value.bytes().len() as u64, 0, 0, 0, 0, 0];
    news[1..].copy_from_slice(&pack(value));
    (
        Effect::writing(words, bits(first, 8), first + 2, &news),
        ChangeOutcome::Changed,
    )
}

/// Kills a live cell with this key: writes its state. Reads the cell's state, key and length.
pub fn kill(words: &[u64; 64], cell: u8, key: u64) -> (Effect, KillOutcome)
    requires low { 1 ≤ cell }
    requires high { cell ≤ 7 }
    ensures row { result ≡ rows.kill words.now cell key }
    ensures by_reads { AnswersByReads (λ ws. rows.kill ws cell key) words.now }
{
    let first = 8 * cell;
    let state = words[first as usize];
    if state != LIVE {
        return (
            Effect::reading(words, bits(first, 1)),
            KillOutcome::NotLive { state },
        );
    }
    let found = words[first as usize + 1];
    if found != key {
        return (
            Effect::reading(words, bits(first, 2)),
            KillOutcome::OtherKey { key: found },
        );
    }
    let length = words[first as usize + 2];
    if !is_size(length) {
        return (
            Effect::reading(words, bits(first, 3)),
            KillOutcome::OddLength { length },
        );
    }
    (
        Effect::writing(words, bits(first, 3), first, &[DEAD]),
        KillOutcome::Killed,
    )
}

/// Makes a cell free: reads and writes its state.
pub fn free(words: &[u64; 64], cell: u8) -> Effect
    requires low { 1 ≤ cell }
    requires high { cell ≤ 7 }
    ensures row { result ≡ rows.free words.now cell }
    ensures by_reads { DependsOnReads (λ ws. rows.free ws cell) words.now }
{
    Effect::writing(words, bit(8 * cell), 8 * cell, &[FREE])
}

/// Makes a cell live again: reads and writes its state.
pub fn revive(words: &[u64; 64], cell: u8) -> Effect
    requires low { 1 ≤ cell }
    requires high { cell ≤ 7 }
    ensures row { result ≡ rows.revive words.now cell }
    ensures by_reads { DependsOnReads (λ ws. rows.revive ws cell) words.now }
{
    Effect::writing(words, bit(8 * cell), 8 * cell, &[LIVE])
}

/// Gives a cell the length and the value words that it had: reads and writes them.
pub fn restore(words: &[u64; 64], cell: u8, length: u64, value: &[u64; 5]) -> Effect
    requires low { 1 ≤ cell }
    requires high { cell ≤ 7 }
    ensures row { result ≡ rows.restore words.now cell length value.now }
    ensures by_reads { DependsOnReads (λ ws. rows.restore ws cell length value.now) words.now }
{
    let first = 8 * cell + 2;
    let mut news = [length, 0, 0, 0, 0, 0];
    news[1..].copy_from_slice(value);
    Effect::writing(words, bits(first, 6), first, &news)
}
