//! A region of 64 words with its codeword, its latch and its dirty flags.
//!
//! The codeword and its audits are those of Bohannon, Rastogi, Seshadri, Silberschatz and Sudarshan, "Detection and
//! recovery techniques for database corruption" (IEEE TKDE 15(5), 2003). An update that goes through the region changes
//! the codeword by the difference of the old and the new word. So a word that is changed in any other way leaves the
//! two apart, unless several such changes cancel.
#![tactic(auto)]

ghost use Rattle.std.specs.Prelude.{◌≡◌, ◌≢◌, ◌<◌, IsSome, OnOk, OnErr};
ghost use Rattle.dali_region.specs.State;
ghost use Rattle.dali_region.specs.State.{IsProtected, damaged, IsLive, IsUnwritten, HasRead, loaded, latched, with_reads, updated, taken_back, touched, poked, checked, dead};
ghost use Rattle.dali_region.specs.State.{KeepsOthers, restored, kept};
ghost use Rattle.dali_region.specs.Answers.{latch_answer, is_dirty, cleaned};

mod mirror;

use dali_words::{bit, parity, xor_under};
use mirror::Mirror;
use std::marker::Model;
use std::mem::size_of;
use thiserror::Error;

/// The latch of a region: which transaction has it, and what its operation has read and written so far.
#[derive(Clone, Copy, PartialEq, Eq)]
pub struct Hold {
    /// The number of the transaction.
    pub txn: u64,
    /// The client has died with the latch held.
    pub dead: bool,
    /// The words read: bit i stands for word i.
    pub read: u64,
    /// The exclusive-or of the words read.
    pub xor: u64,
    /// The words written.
    pub write: u64,
}

/// The number of a log record that a call has made.
#[derive(Clone, Copy, PartialEq, Eq)]
pub struct Receipt {
    pub number: u64,
}

/// One of the two checkpoint images.
#[derive(Clone, Copy, PartialEq, Eq)]
pub enum Side {
    A,
    B,
}

/// Why a latch was refused.
#[derive(Clone, Copy, Debug, Error, PartialEq, Eq)]
pub enum LatchError {
    /// A live hold stands.
    #[error("latched by transaction {holder}")]
    Latched { holder: u64 },
    /// The hold of a client that died stands.
    #[error("held by transaction {txn}, whose client is dead")]
    DeadHolder { txn: u64 },
    /// The precheck found another parity than the codeword tells.
    #[error("damaged: codeword {codeword:016x}, parity {found:016x}")]
    Damaged { codeword: u64, found: u64 },
}

const _: () = prove!(size_of::<Region>() == 1120);

/// 64 words with their codeword, latch and dirty flags.
///
/// Each word is a `u64`; words are numbered from 0, and a set of words is a `u64` in which bit i stands for word i.
/// The codeword is the exclusive-or of all words as they were loaded, changed at each update by the exclusive-or of
/// the old and the new word. A poke changes a word and nothing else that running code can see.
///
/// No call takes memory. A region has 1,120 bytes: 512 for its words, 512 for the values that words had before the open
/// operation wrote them, and 96 for all else. The second 512 are the price of taking an operation back whatever it
/// wrote: it may write each word that it has read, so all 64 old values may be wanted.
#[derive(Drop)]
pub struct Region {
    words: [u64; 64],
    // of each word that the hold has written its value before the first write; those of other words mean nothing
    olds: [u64; 64],
    hold: Option<Hold>,
    codeword: u64,
    touches: u64,
    mirror: Mirror,
    dirty_a: bool,
    dirty_b: bool,
}

impl Model for Region {
    ghost use Rattle.dali_region.specs.State.{RegionState};

    ghost Value = { RegionState };

    ghost use Rattle.dali_region.specs.Fields.{state_of, KeepsItsCodeword};

    ghost view = { state_of };

    ghost invariant = { KeepsItsCodeword };
}

// The set of the words that a hold has written.
fn written(hold: &Option<Hold>) -> u64
    ensures { result ≡ State.written hold.now }
{
    match hold {
        Some(hold) => hold.write,
        None => 0,
    }
}

// Gives the words in a set their old values.
fn restore(words: &mut [u64; 64], olds: &[u64; 64], set: u64)
    ensures { words.new ≡ restored set olds.now words.old }
{
    for word in 0..64 {
        if set & bit(word) != 0 {
            words[word as usize] = olds[word as usize];
        }
    }
}

// Keeps the value of a word that is about to be written, where it wasn't written before.
fn keep(olds: &mut [u64; 64], words: &[u64; 64], set: u64, word: u8)
    requires { word < 64 }
    ensures { olds.new ≡ kept set word words.now olds.old }
{
    if set & bit(word) == 0 {
        olds[word as usize] = words[word as usize];
    }
}

fn damage(words: &mut [u64; 64], word: u8, mask: u64)
    requires { word < 64 }
    ensures { words.new ≡ damaged word mask words.old }
{
    words[word as usize] ^= mask;
}

impl Region {
    /// A region with these words: no hold, both flags set, no operation done, its codeword the parity of the words.
    pub fn load(words: [u64; 64]) -> Self
        ensures value { result ≡ loaded words }
        ensures protected { IsProtected result }
    {
        Region {
            words,
            olds: words,
            hold: None,
            codeword: parity(&words),
            touches: 0,
            mirror: Mirror::new(),
            dirty_a: true,
            dirty_b: true,
        }
    }

    /// Latches the region for an operation of a transaction. With a precheck the parity of the words is compared
    /// with the codeword first.
    pub fn latch(&mut self, txn: u64, precheck: bool) -> Result<(), LatchError>
        ensures answer { result ≡ latch_answer precheck self.old }
        ensures taken { OnOk result (self.new ≡ latched txn self.old) }
        ensures refused { OnErr result (self.new ≡ self.old) }
        ensures was_protected { IsProtected self.old }
        ensures protected { IsProtected self.new }
    {
        if let Some(hold) = self.hold {
            return Err(if hold.dead {
                LatchError::DeadHolder { txn: hold.txn }
            } else {
                LatchError::Latched { holder: hold.txn }
            });
        }
        if precheck {
            let found = parity(&self.words);
            if found != self.codeword {
                return Err(LatchError::Damaged {
                    codeword: self.codeword,
                    found,
                });
            }
        }
        self.hold = Some(Hold {
            txn,
            dead: false,
            read: 0,
            xor: 0,
            write: 0,
        });
        Ok(())
    }

    /// The words as they stand, the updates of an open operation among them.
    pub fn words(&self) -> &[u64; 64]
        ensures value { result.now ≡ self.now.words }
        ensures protected { IsProtected self.now }
    {
        &self.words
    }

    /// The latch, if it is held.
    pub fn hold(&self) -> Option<Hold>
        ensures value { result ≡ self.now.hold }
        ensures protected { IsProtected self.now }
    {
        self.hold
    }

    /// How many operations were done since the load. The count stands still at its type's end.
    pub fn touches(&self) -> u64
        ensures value { result ≡ self.now.touches }
        ensures protected { IsProtected self.now }
    {
        self.touches
    }

    /// The operation reads the words in the set `mask`: those that it hasn't read yet go into the hold.
    /// The hold is to be live and to have written nothing.
    pub fn note_reads(&mut self, mask: u64)
        requires { IsUnwritten self.old }
        ensures after { self.new ≡ with_reads mask self.old }
        ensures was_protected { IsProtected self.old }
        ensures protected { IsProtected self.new }
    {
        let hold = self.hold.unwrap();
        let unread = mask & !hold.read;
        self.hold = Some(Hold {
            read: hold.read | mask,
            xor: hold.xor ^ xor_under(&self.words, unread),
            ..hold
        });
    }

    /// Writes a word of an open operation. The hold is to be live and to have read the word.
    pub fn update(&mut self, word: u8, value: u64)
        requires { HasRead self.old word }
        ensures after { self.new ≡ updated word value self.old }
        ensures was_protected { IsProtected self.old }
        ensures protected { IsProtected self.new }
    {
        let hold = self.hold.unwrap();
        let at = word as usize;
        keep(&mut self.olds, &self.words, hold.write, word);
        self.codeword ^= self.words[at] ^ value;
        self.words[at] = value;
        self.hold = Some(Hold {
            write: hold.write | bit(word),
            ..hold
        });
    }

    /// Gives each word that the open operation has written its value from before the first write, and ends the hold.
    /// A hold is to stand, live or dead.
    pub fn take_back(&mut self)
        requires { IsSome self.old.hold }
        ensures after { self.new ≡ taken_back self.old }
        ensures others { KeepsOthers self.old self.new }
        ensures was_protected { IsProtected self.old }
        ensures protected { IsProtected self.new }
    {
        let before = parity(&self.words);
        restore(&mut self.words, &self.olds, written(&self.hold));
        self.codeword ^= before ^ parity(&self.words);
        self.hold = None;
    }

    /// The operation is done: counts it, ends the hold, and sets both flags where a word was written.
    /// The hold is to be live. The count of touches stands still at its type's end.
    pub fn touch(&mut self)
        requires { IsLive self.old }
        ensures after { self.new ≡ touched self.old }
        ensures was_protected { IsProtected self.old }
        ensures protected { IsProtected self.new }
    {
        let hold = self.hold.unwrap();
        if hold.write != 0 {
            self.dirty_a = true;
            self.dirty_b = true;
        }
        self.hold = None;
        self.touches = self.touches.saturating_add(1);
        self.mirror.touch();
    }

    /// Damages a word, as a stray write would: no codeword, hold, flag or count changes.
    /// The word's number is to be below 64, and the mask not 0.
    pub fn poke(&mut self, word: u8, mask: u64)
        requires in_range { word < 64 }
        requires changes { mask ≢ 0 }
        ensures after { self.new ≡ poked word mask self.old }
        ensures was_protected { IsProtected self.old }
        ensures protected { IsProtected self.new }
    {
        damage(&mut self.words, word, mask);
        self.mirror.poke(mask);
    }

    /// The codeword compared with the parity of the words: the exclusive-or of the two, 0 where they agree.
    pub fn check(&mut self) -> u64
        ensures answer { result ≡ self.old.stray }
        ensures after { self.new ≡ checked self.old }
        ensures was_protected { IsProtected self.old }
        ensures protected { IsProtected self.new }
    {
        let stray = self.codeword ^ parity(&self.words);
        self.mirror.check(stray);
        stray
    }

    /// The codeword.
    pub fn codeword(&mut self) -> u64
        ensures answer { result ≡ self.old.codeword }
        ensures same { self.new ≡ self.old }
        ensures was_protected { IsProtected self.old }
        ensures protected { IsProtected self.new }
    {
        self.codeword
    }

    /// Copies the words with the updates of an open operation taken back.
    pub fn copy_settled(&self, into: &mut [u64; 64])
        ensures copied { into.new ≡ self.now.back }
        ensures protected { IsProtected self.now }
    {
        *into = self.words;
        restore(into, &self.olds, written(&self.hold));
    }

    /// The client that has the latch died. The hold is to be live.
    pub fn mark_dead(&mut self)
        requires { IsLive self.old }
        ensures after { self.new ≡ dead self.old }
        ensures was_protected { IsProtected self.old }
        ensures protected { IsProtected self.new }
    {
        let hold = self.hold.unwrap();
        self.hold = Some(Hold { dead: true, ..hold });
    }

    /// Whether the region was loaded or written since this image's flag was cleared.
    pub fn dirty(&self, side: Side) -> bool
        ensures value { result ≡ is_dirty self.now side }
        ensures protected { IsProtected self.now }
    {
        match side {
            Side::A => self.dirty_a,
            Side::B => self.dirty_b,
        }
    }

    /// Clears the flag of this image.
    pub fn clear_dirty(&mut self, side: Side)
        ensures after { self.new ≡ cleaned side self.old }
        ensures was_protected { IsProtected self.old }
        ensures protected { IsProtected self.new }
    {
        match side {
            Side::A => self.dirty_a = false,
            Side::B => self.dirty_b = false,
        }
    }
}
