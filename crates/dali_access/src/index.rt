//! Operations on the entries of an index region, and the records that a database stores.
//!
//! Entry e, from 0 to 20, stands at the words 3e+1 to 3e+3: its state (0 free, 1 live, 2 dead), its
//! key, and the place that it names. Word 0 is the overflow flag: where it isn't 0, the walk of a key
//! goes on to the next index region. Each operation is a function of the region's 64 words, on any
//! words: it says which words it reads and writes, all words afterwards, and what it found. It stops
//! at the first test that fails and has read no more. What it does depends on the words that it
//! reads alone.

ghost use Rattle.std.specs.Prelude.{◌≡◌, ◌≤◌, ◌&&◌, ◌==◌, IsTrue};
ghost use Rattle.dali_words.specs.Effects.{DependsOnReads, AnswersByReads};
ghost use Rattle.dali_words.specs.Words.{mask_of};
ghost use Rattle.dali_access.specs.Index.Entries as entries;
ghost use Rattle.dali_access.specs.Index.Rows as rows;

pub mod laws;

use dali_words::{Effect, KillOutcome, bit, bits};

/// The states of an entry.
const FREE: u64 = 0;

const LIVE: u64 = 1;

const DEAD: u64 = 2;

/// What looking for a key found.
#[derive(Clone, Copy, PartialEq, Eq)]
pub enum LookOutcome {
    /// This live entry has the key, and names this place.
    Found { entry: u8, place: u64 },
    /// No live entry has it. `overflow` says that the walk goes on.
    Absent { overflow: bool },
}

/// What adding an entry found.
#[derive(Clone, Copy, PartialEq, Eq)]
pub enum AddOutcome {
    /// It is this entry, which was the first free one.
    Added { entry: u8 },
    /// No entry is free.
    NoEntry,
}

// Whether an entry is live and has the key.
fn has_key(words: &[u64; 64], entry: u8, key: u64) -> bool
    requires { entry ≤ 20 }
    ensures { result ≡ ((entries.state_of words.now entry == 1) && (entries.key_of words.now entry == key)) }
{
    let first = 3 * entry as usize + 1;
    words[first] == LIVE && words[first + 1] == key
}

// The words that a look reads of an entry that isn't the one.
fn passed(words: &[u64; 64], entry: u8) -> u64
    requires { entry ≤ 20 }
    ensures { result ≡ mask_of (rows.passed words.now entry) }
{
    let first = 3 * entry + 1;
    let count = if words[first as usize] == LIVE { 2 } else { 1 };
    bits(first, count)
}

/// The first live entry with this key, and the place that it names. Reads the state of each entry up
/// to it, the key of each live one, and its place. Where there is none, reads the overflow flag.
pub fn look(words: &[u64; 64], key: u64) -> (Effect, LookOutcome)
    ensures row { result ≡ rows.look words.now key }
    ensures by_reads { AnswersByReads (λ ws. rows.look ws key) words.now }
{
    let mut read = 0;
    for entry in 0..21 {
        let first = 3 * entry + 1;
        if has_key(words, entry, key) {
            let place = words[first as usize + 2];
            return (
                Effect::reading(words, read | bits(first, 3)),
                LookOutcome::Found { entry, place },
            );
        }
        read |= passed(words, entry);
    }
    let overflow = words[0] != 0;
    (
        Effect::reading(words, read | bit(0)),
        LookOutcome::Absent { overflow },
    )
}

/// Makes the first free entry a live one of this key, naming this place. Reads the states of the
/// entries up to it, and the words that it writes. Where none is free, reads the overflow flag and
/// raises it, if it is down.
pub fn add(words: &[u64; 64], key: u64, place: u64) -> (Effect, AddOutcome)
    ensures row { result ≡ rows.add words.now key place }
    ensures by_reads { AnswersByReads (λ ws. rows.add ws key place) words.now }
{
    let mut read = 0;
    for entry in 0..21 {
        let first = 3 * entry + 1;
        if words[first as usize] == FREE {
            let read = read | bits(first, 3);
            return (
                Effect::writing(words, read, first, &[LIVE, key, place]),
                AddOutcome::Added { entry },
            );
        }
        read |= bit(first);
    }
    let read = read | bit(0);
    if words[0] == 0 {
        return (Effect::writing(words, read, 0, &[1]), AddOutcome::NoEntry);
    }
    (Effect::reading(words, read), AddOutcome::NoEntry)
}

/// Kills a live entry with this key: writes its state. Reads its state and key.
pub fn kill(words: &[u64; 64], entry: u8, key: u64) -> (Effect, KillOutcome)
    requires { entry ≤ 20 }
    ensures row { result ≡ rows.kill words.now entry key }
    ensures by_reads { AnswersByReads (λ ws. rows.kill ws entry key) words.now }
{
    let first = 3 * entry + 1;
    let state = words[first as usize];
    if state != LIVE {
        return (
            Effect::reading(words, bits(first, 1)),
            KillOutcome::NotLive { state },
        );
    }
    let found = words[first as usize + 1];
    if found != key {
        return (
            Effect::reading(words, bits(first, 2)),
            KillOutcome::OtherKey { key: found },
        );
    }
    (
        Effect::writing(words, bits(first, 2), first, &[DEAD]),
        KillOutcome::Killed,
    )
}

/// Makes an entry free: reads and writes its state.
pub fn free(words: &[u64; 64], entry: u8) -> Effect
    requires { entry ≤ 20 }
    ensures row { result ≡ rows.free words.now entry }
    ensures by_reads { DependsOnReads (λ ws. rows.free ws entry) words.now }
{
    let state = 3 * entry + 1;
    Effect::writing(words, bit(state), state, &[FREE])
}

/// Makes an entry live again: reads and writes its state.
pub fn revive(words: &[u64; 64], entry: u8) -> Effect
    requires { entry ≤ 20 }
    ensures row { result ≡ rows.revive words.now entry }
    ensures by_reads { DependsOnReads (λ ws. rows.revive ws entry) words.now }
{
    let state = 3 * entry + 1;
    Effect::writing(words, bit(state), state, &[LIVE])
}
