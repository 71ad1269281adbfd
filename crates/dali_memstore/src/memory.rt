//! A store in memory: it keeps all that changed it, so that each moment can be named.
ghost use Rattle.std.specs.Prelude.{◌≡◌, ◌≤◌, ◌<◌, ◌^◌, ◌⊎◌, ◌↔◌, Some, List, [], ◌∷◌, length, map, Contains, OnOk, OnErr, IfOk, IsErr, IsTrue, if◌then◌else◌, not, ◌==◌};
ghost use Rattle.dali_store.specs.Faults.{Rose, HasCause};
ghost use Rattle.dali_store.specs.Store.{file_of, HoldsIn, ReadsAt};
ghost use Rattle.dali_memstore.specs.Counts.{IsListed, passed, failed, refused};
ghost use Rattle.dali_store.specs.Faults.{one_more};
ghost use Rattle.dali_memstore.specs.Memory.{disks, disk_of, files_of, no_files, starting_with, push, Happened, waits_of};
ghost use Rattle.dali_memstore.specs.State.{waits};
ghost use Rattle.dali_memstore.specs.declared.event.Event.TheVariants.{Wrote, Synced, Cut};

use crate::bytes::Bytes;
use crate::disk::Disk;
use crate::disks::Disks;
use crate::event::Event;
use dali_store::{FileName, Store, StoreFault};
use std::alloc::{AllocError, Global};
use std::marker::Model;
use std::mem;

// A length of this and more counts as a fault.
const LIMIT: u64 = 1 << 62;

/// A store of four files in memory, which tells what its reads give.
///
/// The calls with the given numbers, from 0, fail and change nothing. A write that finds no memory fails too, and
/// changes nothing. Syncs and cuts take no memory. The store keeps each write with its bytes, each sync and each
/// cut that changed anything, since what a crash at an earlier moment might have left is determined by them.
/// Its log is in one piece: `drop_log` and `first_kept` answer 0, and have no number.
#[derive(Drop)]
pub struct MemoryStore {
    alloc: Global,
    disks: Disks,
    events: Vec<Event>,
    failing: Vec<u64>,
    calls: u64,
    faults: u64,
    refused: u64,
}

impl Model for MemoryStore {
    ghost use Rattle.std.specs.Prelude.{vec_capacity};
    ghost use Rattle.dali_memstore.specs.Memory.{Memory, starts_of, IsKept};

    ghost Value = { Memory };

    ghost view = { λ m. record {
      history = record { start = starts_of m.disks; events = m.events.items };
      counts = record { failing = m.failing.items; calls = m.calls; faults = m.faults; refused = m.refused };
    } };

    ghost invariant = { λ m. IsKept m.disks m.events.items (vec_capacity m.events) };
}

impl MemoryStore {
    /// A store of four empty files, of which the calls with these numbers, from 0, fail. Takes no memory.
    pub fn new(alloc: Global, failing: Vec<u64>) -> Self
        ensures { result ≡ record {
          history = record { start = no_files; events = [] };
          counts = record { failing = failing.items; calls = 0; faults = 0; refused = 0 };
        } }
    {
        MemoryStore::with(
            [
                Vec::new(alloc),
                Vec::new(alloc),
                Vec::new(alloc),
                Vec::new(alloc),
            ],
            failing,
        )
    }

    /// A store of files with these bytes, in the order log, image A, image B, anchor, which count as synced.
    /// The calls with these numbers, from 0, fail. Takes no memory.
    pub fn with(files: [Vec<u8>; 4], failing: Vec<u64>) -> Self
        ensures { result ≡ record {
          history = record { start = starting_with (map (λ v. v.items) files); events = [] };
          counts = record { failing = failing.items; calls = 0; faults = 0; refused = 0 };
        } }
    {
        let alloc = *failing.allocator();
        let mut files = files;
        let log = mem::replace(&mut files[0], Vec::new(alloc));
        let a = mem::replace(&mut files[1], Vec::new(alloc));
        let b = mem::replace(&mut files[2], Vec::new(alloc));
        let anchor = mem::replace(&mut files[3], Vec::new(alloc));
        MemoryStore {
            alloc,
            disks: Disks {
                log: Disk::new(alloc, log),
                a: Disk::new(alloc, a),
                b: Disk::new(alloc, b),
                anchor: Disk::new(alloc, anchor),
            },
            events: Vec::new(alloc),
            failing,
            calls: 0,
            faults: 0,
            refused: 0,
        }
    }

    /// What reads of a file give.
    pub fn file(&self, file: FileName) -> &[u8]
        ensures { result.now ≡ file_of file (files_of self.now) }
    {
        self.disks.disk(file).bytes()
    }

    /// How many writes found no memory.
    pub fn refused(&self) -> u64
        ensures { result ≡ self.now.counts.refused }
    {
        self.refused
    }

    // Counts a call, and says whether it fails: where it is listed, or for another reason.
    fn fails_or(&mut self, other: bool) -> bool
        ensures fails { IsTrue result ↔ (IsListed self.old.counts ⊎ IsTrue other) }
        ensures history { self.new.history ≡ self.old.history }
        ensures counts { self.new.counts ≡ (if result then failed self.old.counts else passed self.old.counts) }
        ensures later { self.old.counts.faults ≤ self.new.counts.faults }
        ensures rose { IsTrue result → Rose self.old.counts.faults self.new.counts.faults }
    {
        let number = self.calls;
        self.calls = self.calls.saturating_add(1);
        if !other && !self.failing.contains(&number) {
            return false;
        }
        self.faults = self.faults.saturating_add(1);
        true
    }

    // Counts a write that found no memory.
    fn refuse(&mut self)
        ensures history { self.new.history ≡ self.old.history }
        ensures counts { self.new.counts ≡ record self.old.counts { faults = one_more self.old.counts.faults; refused = one_more self.old.counts.refused } }
        ensures later { self.old.counts.faults ≤ self.new.counts.faults }
        ensures rose { Rose self.old.counts.faults self.new.counts.faults }
    {
        self.refused = self.refused.saturating_add(1);
        self.faults = self.faults.saturating_add(1);
    }

    // Writes, and adds it to the history. Unchanged where memory is refused.
    fn add(&mut self, file: FileName, at: usize, bytes: &[u8]) -> Result<(), AllocError>
        requires { at ≤ length (file_of file (files_of self.old)) }
        ensures ok { OnOk result (self.new.history ≡ push (Wrote file at bytes.now) self.old.history) }
        ensures err { OnErr result (self.new.history ≡ self.old.history) }
        ensures counts { self.new.counts ≡ self.old.counts }
    {
        let copy = Bytes::from_slice(self.alloc, bytes)?;
        self.events.reserve(5)?;
        self.disks.write(self.alloc, file, at, bytes)?;
        self.events.push_reserved(Event::Wrote {
            file,
            at,
            bytes: copy,
        });
        Ok(())
    }

    // Keeps what was written to a file that waits for it.
    fn keep(&mut self, file: FileName)
        requires { 0 < waits (disk_of file (disks self.old.history)) }
        ensures history { self.new.history ≡ push (Synced file) self.old.history }
        ensures counts { self.new.counts ≡ self.old.counts }
    {
        self.disks.sync(file);
        self.events.push_reserved(Event::Synced { file });
    }

    // A crash of files of which one waits for a sync.
    fn crash(&mut self, choice: u32)
        requires { 0 < waits_of (disks self.old.history) }
        ensures history { self.new.history ≡ push (Cut choice) self.old.history }
        ensures counts { self.new.counts ≡ self.old.counts }
    {
        self.disks.cut(choice);
        self.events.push_reserved(Event::Cut { choice });
    }

    fn is_pending(&self, file: FileName) -> bool
        ensures { result ≡ not (waits (disk_of file (disks self.now.history)) == 0) }
    {
        self.disks.disk(file).is_pending()
    }

    fn is_pending_at_all(&self) -> bool
        ensures { result ≡ not (waits_of (disks self.now.history) == 0) }
    {
        self.disks.is_pending()
    }

    // A sync.
    fn settle(&mut self, file: FileName)
        ensures history { Happened (Synced file) self.old.history self.new.history }
        ensures counts { self.new.counts ≡ self.old.counts }
    {
        if self.is_pending(file) {
            self.keep(file);
        }
    }

    // A crash.
    fn settle_all(&mut self, choice: u32)
        ensures history { Happened (Cut choice) self.old.history self.new.history }
        ensures counts { self.new.counts ≡ self.old.counts }
    {
        if self.is_pending_at_all() {
            self.crash(choice);
        }
    }

    /// The length of a file, as [`Store::length`]. It fails exactly where the call is listed, or the file has 2^62 bytes or more.
    pub fn length(&mut self, file: FileName) -> Result<u64, StoreFault>
        ensures fails { IsErr result ↔ (IsListed self.old.counts ⊎ (2 ^ 62 ≤ length (file_of file (files_of self.old)))) }
        ensures length { IfOk result (λ n. n ≡ length (file_of file (files_of self.old))) }
        ensures history { self.new.history ≡ self.old.history }
        ensures passed { OnOk result (self.new.counts ≡ passed self.old.counts) }
        ensures failed { OnErr result (self.new.counts ≡ failed self.old.counts) }
        ensures cause { HasCause self.old.counts.faults self.new.counts.faults result }
    {
        let length = self.file(file).len() as u64;
        if self.fails_or(length >= LIMIT) {
            return Err(StoreFault);
        }
        Ok(length)
    }

    /// Reads into the front of a buffer, as [`Store::read_at`]. It fails exactly where the call is listed.
    pub fn read_at(&mut self, file: FileName, at: u64, into: &mut [u8]) -> Result<usize, StoreFault>
        ensures fails { IsErr result ↔ IsListed self.old.counts }
        ensures bytes { IfOk result (λ n. ReadsAt (file_of file (files_of self.old)) at into.old n into.new) }
        ensures unread { OnErr result (into.new ≡ into.old) }
        ensures history { self.new.history ≡ self.old.history }
        ensures passed { OnOk result (self.new.counts ≡ passed self.old.counts) }
        ensures failed { OnErr result (self.new.counts ≡ failed self.old.counts) }
        ensures cause { HasCause self.old.counts.faults self.new.counts.faults result }
    {
        if self.fails_or(false) {
            return Err(StoreFault);
        }
        Ok(read_from(self.file(file), at, into))
    }

    /// Writes, as [`Store::write_at`]. It fails exactly where the call is listed or it finds no memory, and then changes nothing.
    pub fn write_at(&mut self, file: FileName, at: u64, bytes: &[u8]) -> Result<(), StoreFault>
        requires { at ≤ length (file_of file (files_of self.old)) }
        ensures written { OnOk result (self.new.history ≡ push (Wrote file at bytes.now) self.old.history) }
        ensures files { OnOk result (HoldsIn file at bytes.now (Some (files_of self.old)) (Some (files_of self.new))) }
        ensures unwritten { OnErr result (self.new.history ≡ self.old.history) }
        ensures passed { OnOk result (self.new.counts ≡ passed self.old.counts) }
        ensures listed { IsListed self.old.counts → IsErr result × (self.new.counts ≡ failed self.old.counts) }
        ensures no_memory { (IsListed self.old.counts → ⊥) → OnErr result (self.new.counts ≡ refused self.old.counts) }
        ensures cause { HasCause self.old.counts.faults self.new.counts.faults result }
    {
        if self.fails_or(false) {
            return Err(StoreFault);
        }
        match self.add(file, at as usize, bytes) {
            Ok(()) => Ok(()),
            Err(_) => {
                self.refuse();
                Err(StoreFault)
            }
        }
    }

    /// Keeps what was written to a file, as [`Store::sync`]. It fails exactly where the call is listed, and then changes nothing.
    pub fn sync(&mut self, file: FileName) -> Result<(), StoreFault>
        ensures fails { IsErr result ↔ IsListed self.old.counts }
        ensures synced { OnOk result (Happened (Synced file) self.old.history self.new.history) }
        ensures files { files_of self.new ≡ files_of self.old }
        ensures unsynced { OnErr result (self.new.history ≡ self.old.history) }
        ensures passed { OnOk result (self.new.counts ≡ passed self.old.counts) }
        ensures failed { OnErr result (self.new.counts ≡ failed self.old.counts) }
        ensures cause { HasCause self.old.counts.faults self.new.counts.faults result }
    {
        if self.fails_or(false) {
            return Err(StoreFault);
        }
        self.settle(file);
        Ok(())
    }

    /// A crash, as [`Store::cut`]. Choice 0 keeps all that was written since the last syncs, 1 drops it, and every other
    /// choice mixes it. It fails exactly where the call is listed, and then changes nothing.
    pub fn cut(&mut self, choice: u32) -> Result<(), StoreFault>
        ensures fails { IsErr result ↔ IsListed self.old.counts }
        ensures cut { OnOk result (Happened (Cut choice) self.old.history self.new.history) }
        ensures uncut { OnErr result (self.new.history ≡ self.old.history) }
        ensures passed { OnOk result (self.new.counts ≡ passed self.old.counts) }
        ensures failed { OnErr result (self.new.counts ≡ failed self.old.counts) }
        ensures cause { HasCause self.old.counts.faults self.new.counts.faults result }
    {
        if self.fails_or(false) {
            return Err(StoreFault);
        }
        self.settle_all(choice);
        Ok(())
    }
}

impl Store for MemoryStore {
    ghost use Rattle.std.specs.Prelude.{None, Some, length, refl};
    ghost use Rattle.dali_memstore.specs.Memory.{disks, files_of, cut_files, IsCrash, LeftSince};
    ghost use Rattle.dali_memstore.specs.Sound.{sound};
    ghost use Rattle.dali_memstore.specs.Laws.{seen_crash, no_longer_law, cuts_leave_law, counts_now_law, only_now_law};

    ghost told = { λ m. Some (files_of m) };

    ghost may_leave = { λ m. IsCrash (disks m.history) };

    ghost moment = { λ m. length m.history.events };

    ghost left_since = { λ m. LeftSince m.history };

    ghost faults = { λ m. m.counts.faults };

    ghost lets_pass = { λ m. None };

    ghost cuts = { λ m choice. Some (cut_files choice m) };

    ghost droppable = { λ m below. 0 };

    ghost dropped_to = { λ m. 0 };

    ghost reads_now = { λ m. seen_crash (disks m.history) (sound m.history) };

    ghost no_longer = { λ m. no_longer_law (disks m.history) };

    ghost tells_cuts = { λ m choice. refl };

    ghost cuts_leave = { λ m choice. cuts_leave_law choice (disks m.history) (sound m.history) };

    ghost counts_now = { λ m. counts_now_law m.history };

    ghost only_now = { λ m. only_now_law m.history };

    fn length(&mut self, file: FileName) -> Result<u64, StoreFault> {
        self.length(file)
    }

    fn read_at(&mut self, file: FileName, at: u64, into: &mut [u8]) -> Result<usize, StoreFault> {
        self.read_at(file, at, into)
    }

    fn write_at(&mut self, file: FileName, at: u64, bytes: &[u8]) -> Result<(), StoreFault> {
        self.write_at(file, at, bytes)
    }

    fn sync(&mut self, file: FileName) -> Result<(), StoreFault> {
        self.sync(file)
    }

    fn cut(&mut self, choice: u32) -> Result<(), StoreFault> {
        self.cut(choice)
    }

    fn drop_log(&mut self, _below: u64) -> Result<u64, StoreFault> {
        Ok(0) // The log is kept in one piece.
    }

    fn first_kept(&mut self) -> Result<u64, StoreFault> {
        Ok(0)
    }
}

// Copies what stands at a place to the front of a buffer.
fn read_from(bytes: &[u8], at: u64, into: &mut [u8]) -> usize
    ensures count { result ≤ length into.old }
    ensures bytes { ReadsAt bytes.now at into.old result into.new }
{
    let at = at as usize;
    if at >= bytes.len() {
        return 0;
    }
    let count = into.len().min(bytes.len() - at);
    into[..count].copy_from_slice(&bytes[at..at + count]);
    count
}
