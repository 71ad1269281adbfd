//! Files in memory, which tell what reads give.
ghost use Rattle.std.specs.Prelude.{◌≡◌, ◌≤◌, ◌<◌, ◌^◌, ◌⊎◌, ◌↔◌, Some, [], ◌∷◌, ◌++◌, length, Contains, OnOk, OnErr, IfOk, IsErr, IsTrue, if◌then◌else◌};
ghost use Rattle.dali_store.specs.Faults.{Rose, HasCause, one_more};
ghost use Rattle.dali_store.specs.Store.{ReadsAt};
ghost use Rattle.dali_files.specs.Files.{HoldsIn};
ghost use Rattle.dali_memfiles.specs.Counts.{IsListed, passed, failed, refused};
ghost use Rattle.dali_memfiles.specs.Shelf.{files_of, HasRemoved};
ghost use Rattle.dali_memfiles.specs.declared.event.Event.TheVariants.{Wrote, Synced, Removed, Cut};

use crate::event::Change;
use crate::held::Held;
use crate::past::Past;
use crate::shelf::{bytes_of, cut_all, number_of, remove_of, sync_of, write_to};
use dali_files::{FileKey, Files};
use dali_store::StoreFault;
use std::alloc::{AllocError, Global};
use std::marker::Model;

// A length of this and more counts as a fault.
const LIMIT: u64 = 1 << 62;

/// Files in memory, which tell what reads give.
///
/// The calls with the given numbers, from 0, fail and change nothing. A write that finds no memory fails too, and
/// changes nothing. No other call takes memory. What a crash at an earlier moment might have left is known to contracts
/// alone: it takes no memory.
#[derive(Drop)]
pub struct MemoryFiles {
    alloc: Global,
    files: Vec<Held>,
    past: Past,
    failing: Vec<u64>,
    calls: u64,
    faults: u64,
    refused: u64,
}

impl Model for MemoryFiles {
    ghost use Rattle.std.specs.Prelude.{◌≡◌};
    ghost use Rattle.dali_memfiles.specs.Shelf.{Memory, reads, shelf};

    ghost Value = { Memory };

    ghost view = { λ m. record {
      events = m.past.events;
      counts = record { failing = m.failing.items; calls = m.calls; faults = m.faults; refused = m.refused };
    } };

    ghost invariant = { λ m. reads m.files.items ≡ shelf m.past.events };
}

impl MemoryFiles {
    /// No files. The calls with these numbers, from 0, fail. Takes no memory.
    pub fn new(alloc: Global, failing: Vec<u64>) -> Self
        ensures { result ≡ record {
          events = [];
          counts = record { failing = failing.items; calls = 0; faults = 0; refused = 0 };
        } }
    {
        MemoryFiles {
            alloc,
            files: Vec::new(alloc),
            past: Past::new(),
            failing,
            calls: 0,
            faults: 0,
            refused: 0,
        }
    }

    /// What reads of a file give.
    pub fn file(&self, file: FileKey) -> &[u8]
        ensures { result.now ≡ files_of self.now file }
    {
        bytes_of(&self.files, number_of(file))
    }

    /// How many writes found no memory.
    pub fn refused(&self) -> u64
        ensures { result ≡ self.now.counts.refused }
    {
        self.refused
    }

    // Counts a call, and says whether it fails: where it is listed, or for another reason.
    fn fails_or(&mut self, other: bool) -> bool
        ensures fails { IsTrue result ↔ (IsListed self.old.counts ⊎ IsTrue other) }
        ensures events { self.new.events ≡ self.old.events }
        ensures counts { self.new.counts ≡ (if result then failed self.old.counts else passed self.old.counts) }
        ensures later { self.old.counts.faults ≤ self.new.counts.faults }
        ensures rose { IsTrue result → Rose self.old.counts.faults self.new.counts.faults }
    {
        let number = self.calls;
        self.calls = self.calls.saturating_add(1);
        if !other && !self.failing.contains(&number) {
            return false;
        }
        self.faults = self.faults.saturating_add(1);
        true
    }

    // Counts a write that found no memory.
    fn refuse(&mut self)
        ensures events { self.new.events ≡ self.old.events }
        ensures counts { self.new.counts ≡ record self.old.counts { faults = one_more self.old.counts.faults; refused = one_more self.old.counts.refused } }
        ensures later { self.old.counts.faults ≤ self.new.counts.faults }
        ensures rose { Rose self.old.counts.faults self.new.counts.faults }
    {
        self.refused = self.refused.saturating_add(1);
        self.faults = self.faults.saturating_add(1);
    }

    // Writes, and adds it to the past. Unchanged where memory is refused.
    fn add(&mut self, file: FileKey, at: usize, bytes: &[u8]) -> Result<(), AllocError>
        requires { at ≤ length (files_of self.old file) }
        ensures ok { OnOk result (self.new.events ≡ self.old.events ++ Wrote file at bytes.now ∷ []) }
        ensures err { OnErr result (self.new.events ≡ self.old.events) }
        ensures counts { self.new.counts ≡ self.old.counts }
    {
        write_to(&mut self.files, self.alloc, number_of(file), at, bytes)?;
        self.past = self.past.and(&Change::Wrote { file, at, bytes });
        Ok(())
    }

    // Keeps what was written to a file, or its removal.
    fn keep(&mut self, file: FileKey)
        ensures events { self.new.events ≡ self.old.events ++ Synced file ∷ [] }
        ensures counts { self.new.counts ≡ self.old.counts }
    {
        sync_of(&mut self.files, number_of(file));
        self.past = self.past.and(&Change::Synced { file });
    }

    // Removes a file where there is one.
    fn take_away(&mut self, file: FileKey)
        ensures events { HasRemoved file self.old.events self.new.events }
        ensures counts { self.new.counts ≡ self.old.counts }
    {
        let number = number_of(file);
        if number < self.files.len() {
            remove_of(&mut self.files, self.alloc, number);
            self.past = self.past.and(&Change::Removed { file });
        }
    }

    // A crash.
    fn crash(&mut self, choice: u32)
        ensures events { self.new.events ≡ self.old.events ++ Cut choice ∷ [] }
        ensures counts { self.new.counts ≡ self.old.counts }
    {
        cut_all(&mut self.files, choice);
        self.past = self.past.and(&Change::Cut { choice });
    }

    /// The length of a file, as [`Files::length`]. It fails exactly where the call is listed, or the file has 2^62 bytes or more.
    pub fn length(&mut self, file: FileKey) -> Result<u64, StoreFault>
        ensures fails { IsErr result ↔ (IsListed self.old.counts ⊎ (2 ^ 62 ≤ length (files_of self.old file))) }
        ensures length { IfOk result (λ n. n ≡ length (files_of self.old file)) }
        ensures events { self.new.events ≡ self.old.events }
        ensures passed { OnOk result (self.new.counts ≡ passed self.old.counts) }
        ensures failed { OnErr result (self.new.counts ≡ failed self.old.counts) }
        ensures cause { HasCause self.old.counts.faults self.new.counts.faults result }
    {
        let length = self.file(file).len() as u64;
        if self.fails_or(length >= LIMIT) {
            return Err(StoreFault);
        }
        Ok(length)
    }

    /// Reads into the front of a buffer, as [`Files::read_at`]. It fails exactly where the call is listed.
    pub fn read_at(&mut self, file: FileKey, at: u64, into: &mut [u8]) -> Result<usize, StoreFault>
        ensures fails { IsErr result ↔ IsListed self.old.counts }
        ensures bytes { IfOk result (λ n. ReadsAt (files_of self.old file) at into.old n into.new) }
        ensures unread { OnErr result (into.new ≡ into.old) }
        ensures events { self.new.events ≡ self.old.events }
        ensures passed { OnOk result (self.new.counts ≡ passed self.old.counts) }
        ensures failed { OnErr result (self.new.counts ≡ failed self.old.counts) }
        ensures cause { HasCause self.old.counts.faults self.new.counts.faults result }
    {
        if self.fails_or(false) {
            return Err(StoreFault);
        }
        Ok(read_from(self.file(file), at, into))
    }

    /// Writes, as [`Files::write_at`]. It fails exactly where the call is listed or it finds no memory, and then changes nothing.
    pub fn write_at(&mut self, file: FileKey, at: u64, bytes: &[u8]) -> Result<(), StoreFault>
        requires { at ≤ length (files_of self.old file) }
        ensures written { OnOk result (self.new.events ≡ self.old.events ++ Wrote file at bytes.now ∷ []) }
        ensures unwritten { OnErr result (self.new.events ≡ self.old.events) }
        ensures passed { OnOk result (self.new.counts ≡ passed self.old.counts) }
        ensures listed { IsListed self.old.counts → IsErr result × (self.new.counts ≡ failed self.old.counts) }
        ensures no_memory { (IsListed self.old.counts → ⊥) → OnErr result (self.new.counts ≡ refused self.old.counts) }
        ensures cause { HasCause self.old.counts.faults self.new.counts.faults result }
    {
        if self.fails_or(false) {
            return Err(StoreFault);
        }
        match self.add(file, at as usize, bytes) {
            Ok(()) => Ok(()),
            Err(_) => {
                self.refuse();
                Err(StoreFault)
            }
        }
    }

    /// Keeps what was written to a file, or its removal, as [`Files::sync`]. It fails exactly where the call is listed, and
    /// then changes nothing.
    pub fn sync(&mut self, file: FileKey) -> Result<(), StoreFault>
        ensures fails { IsErr result ↔ IsListed self.old.counts }
        ensures synced { OnOk result (self.new.events ≡ self.old.events ++ Synced file ∷ []) }
        ensures unsynced { OnErr result (self.new.events ≡ self.old.events) }
        ensures passed { OnOk result (self.new.counts ≡ passed self.old.counts) }
        ensures failed { OnErr result (self.new.counts ≡ failed self.old.counts) }
        ensures cause { HasCause self.old.counts.faults self.new.counts.faults result }
    {
        if self.fails_or(false) {
            return Err(StoreFault);
        }
        self.keep(file);
        Ok(())
    }

    /// Removes a file, as [`Files::remove`]. It fails exactly where the call is listed, and then changes nothing.
    pub fn remove(&mut self, file: FileKey) -> Result<(), StoreFault>
        ensures fails { IsErr result ↔ IsListed self.old.counts }
        ensures removed { OnOk result (HasRemoved file self.old.events self.new.events) }
        ensures unremoved { OnErr result (self.new.events ≡ self.old.events) }
        ensures passed { OnOk result (self.new.counts ≡ passed self.old.counts) }
        ensures failed { OnErr result (self.new.counts ≡ failed self.old.counts) }
        ensures cause { HasCause self.old.counts.faults self.new.counts.faults result }
    {
        if self.fails_or(false) {
            return Err(StoreFault);
        }
        self.take_away(file);
        Ok(())
    }

    /// A crash, as [`Files::cut`]. Choice 0 keeps all that was written or removed since the last syncs. Every other one takes
    /// a removal back; 1 drops what was written, and every other choice mixes it. It fails exactly where the call is listed,
    /// and then changes nothing.
    pub fn cut(&mut self, choice: u32) -> Result<(), StoreFault>
        ensures fails { IsErr result ↔ IsListed self.old.counts }
        ensures cut { OnOk result (self.new.events ≡ self.old.events ++ Cut choice ∷ []) }
        ensures uncut { OnErr result (self.new.events ≡ self.old.events) }
        ensures passed { OnOk result (self.new.counts ≡ passed self.old.counts) }
        ensures failed { OnErr result (self.new.counts ≡ failed self.old.counts) }
        ensures cause { HasCause self.old.counts.faults self.new.counts.faults result }
    {
        if self.fails_or(false) {
            return Err(StoreFault);
        }
        self.crash(choice);
        Ok(())
    }
}

impl Files for MemoryFiles {
    ghost use Rattle.std.specs.Prelude.{Some, length, refl};
    ghost use Rattle.dali_memfiles.specs.Held.{IsGoing};
    ghost use Rattle.dali_memfiles.specs.Shelf.{number_of, shelf, files_of, cut_files, IsCrash, LeftSince};
    ghost use Rattle.dali_memfiles.specs.Laws.{sound, seen_crash, no_longer_law, cuts_leave_law, counts_now_law, only_now_law};

    ghost told = { λ m. Some (files_of m) };

    ghost may_leave = { λ m. IsCrash (shelf m.events) };

    ghost moment = { λ m. length m.events };

    ghost left_since = { λ m. LeftSince m.events };

    ghost faults = { λ m. m.counts.faults };

    ghost cuts = { λ m choice. Some (cut_files choice m) };

    ghost is_going = { λ m f. IsGoing (shelf m.events (number_of f)).before };

    ghost reads_now = { λ m. seen_crash (shelf m.events) (sound m.events) };

    ghost no_longer = { λ m. no_longer_law (shelf m.events) };

    ghost tells_cuts = { λ m choice. refl };

    ghost cuts_leave = { λ m choice. cuts_leave_law choice (shelf m.events) (sound m.events) };

    ghost counts_now = { λ m. counts_now_law m.events };

    ghost only_now = { λ m. only_now_law m.events };

    fn length(&mut self, file: FileKey) -> Result<u64, StoreFault> {
        self.length(file)
    }

    fn read_at(&mut self, file: FileKey, at: u64, into: &mut [u8]) -> Result<usize, StoreFault> {
        self.read_at(file, at, into)
    }

    fn write_at(&mut self, file: FileKey, at: u64, bytes: &[u8]) -> Result<(), StoreFault> {
        self.write_at(file, at, bytes)
    }

    fn sync(&mut self, file: FileKey) -> Result<(), StoreFault> {
        self.sync(file)
    }

    fn remove(&mut self, file: FileKey) -> Result<(), StoreFault> {
        self.remove(file)
    }

    fn cut(&mut self, choice: u32) -> Result<(), StoreFault> {
        self.cut(choice)
    }
}

// Copies what stands at a place to the front of a buffer.
fn read_from(bytes: &[u8], at: u64, into: &mut [u8]) -> usize
    ensures count { result ≤ length into.old }
    ensures bytes { ReadsAt bytes.now at into.old result into.new }
{
    let at = at as usize;
    if at >= bytes.len() {
        return 0;
    }
    let count = into.len().min(bytes.len() - at);
    into[..count].copy_from_slice(&bytes[at..at + count]);
    count
}
