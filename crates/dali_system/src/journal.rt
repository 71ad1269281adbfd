//! The records since the load, of which those that wait are kept.
ghost use Rattle.std.specs.Prelude.{◌≡◌, ◌≤◌, ◌+◌, ◌++◌, [], length, OnOk, OnErr, IsOk, IfOk};
ghost use Rattle.dali_record.specs.declared.records.Record.TheVariants.{Forward, Back, Solo};
ghost use Rattle.dali_record.specs.Spelling.{CanBeSpelled, spelling};
ghost use Rattle.dali_store.specs.Faults.{one_more};
ghost use Rattle.dali_log.specs.Log.{body_bytes};
ghost use Rattle.dali_log.specs.Entries.{record_of};
ghost use Rattle.std.specs.FinMap as map;
ghost use Rattle.dali_system.specs.Promised.{promised_to, Covers};
ghost use Rattle.dali_system.specs.Journaled.{waiting, noted, noted_by, noted_from, noted_last, HasMemory, IsSmall};

use crate::past::Past;
use crate::promises::{Promises, Uses};
use dali_bytes::OutOfMemory;
use dali_log::{Entry, Frame, MOST_BYTES, entry_length};
use dali_record::{Block, Record};
use std::alloc::Global;
use std::marker::Model;
use std::mem;

// The most bytes that all records have.
const MOST_LOGGED: u64 = 1 << 62;

/// The records that were logged since the load. It keeps a frame with the spellings of those that aren't flushed, and
/// counts the others. Contracts see all of them.
///
/// Memory can be promised to records of a transaction that come later: whatever is logged in between, they take none
/// then.
#[derive(Drop)]
pub struct Journal {
    since: Past<Record>,
    frame: Frame,
    count: u64,
    taken: u64,
    bytes: u64,
    promises: Promises,
}

impl Model for Journal {
    ghost use Rattle.dali_system.specs.Journaled.{Journaled, IsKept, HasMemory};
    ghost use Rattle.dali_system.specs.Coded.{journaled_code};
    ghost use Rattle.dali_system.specs.Promised.{total};

    ghost Value = { Journaled };

    ghost coded = { journaled_code };

    ghost view = { λ j. record { since = j.since.items; taken = j.taken; promised = j.promises } };

    ghost invariant = { λ j. IsKept j.since.items j.frame j.count j.taken j.bytes × HasMemory (total j.promises) j.bytes j.frame };
}

// Takes memory for a record of this length and so many bytes more, where there isn't; refused too where a batch or all records
// would have too many.
fn make_room(all: u64, frame: &mut Frame, size: u64, more: usize) -> Result<(), OutOfMemory>
    ensures ok { OnOk result (HasMemory (size + more) all frame.new) }
    ensures room { HasMemory (size + more) all frame.old → IsOk result }
    ensures same { (frame.new.body ≡ frame.old.body) × (frame.new.records ≡ frame.old.records) }
    ensures kept { frame.old.room ≤ frame.new.room }
{
    let room = (size as usize).checked_add(more).ok_or(OutOfMemory)?;
    if room > MOST_BYTES as usize - frame.len() {
        return Err(OutOfMemory);
    }
    match all.checked_add(room as u64) {
        Some(sum) if sum <= MOST_LOGGED => {}
        _ => return Err(OutOfMemory),
    }
    frame.reserve(room)?;
    Ok(())
}

// Writes a record's spelling into the frame, and leaves memory for so many bytes more. It answers how many bytes all records
// have then.
fn write(all: u64, frame: &mut Frame, given: Entry<'_>, more: usize) -> Result<u64, OutOfMemory>
    requires { CanBeSpelled (record_of given) }
    ensures all { IfOk result (λ sum. (sum ≡ all + length (spelling (record_of given.entry))) × HasMemory more sum frame.new) }
    ensures body { OnOk result (frame.new.body ≡ frame.old.body ++ spelling (record_of given.entry)) }
    ensures records { OnOk result (frame.new.records ≡ one_more frame.old.records) }
    ensures room { HasMemory (length (spelling (record_of given.entry)) + more) all frame.old → IsOk result }
    ensures err { OnErr result ((frame.new.body ≡ frame.old.body) × (frame.new.records ≡ frame.old.records) × (frame.old.room ≤ frame.new.room)) }
{
    let size = entry_length(given);
    make_room(all, frame, size, more)?;
    frame.write(given).unwrap();
    Ok(all + size)
}

impl Journal {
    /// No records. It takes memory for an empty frame.
    pub fn new(alloc: Global) -> Result<Self, OutOfMemory>
        ensures { IfOk result (λ j. j ≡ record { since = []; taken = 0; promised = map.empty }) }
    {
        Ok(Journal {
            since: Past::new(),
            frame: Frame::new(alloc)?,
            count: 0,
            taken: 0,
            bytes: 0,
            promises: Promises::new(alloc),
        })
    }

    /// How many records there are.
    pub fn len(&self) -> u64
        ensures count { result ≡ length self.now.since }
        ensures small { IsSmall self.now }
    {
        self.count
    }

    /// The records that aren't flushed, as a batch.
    pub fn frame(&self) -> &Frame
        ensures body { result.now.body ≡ body_bytes (waiting self.now) }
        ensures records { result.now.records ≡ length (waiting self.now) }
    {
        &self.frame
    }

    /// All records are flushed. The frame keeps its room.
    pub fn flushed(&mut self)
        ensures { self.new ≡ record self.old { taken = length self.old.since } }
    {
        self.taken = self.count;
        self.frame.clear();
    }

    /// The records that aren't taken yet, as a batch; they are taken then. It takes memory for the next batch, with
    /// what is promised; unchanged where that is refused.
    pub fn take_frame(&mut self, alloc: Global) -> Result<Frame, OutOfMemory>
        ensures frame { IfOk result (λ frame. (frame.body ≡ body_bytes (waiting self.old)) × (frame.records ≡ length (waiting self.old))) }
        ensures ok { OnOk result (self.new ≡ record self.old { taken = length self.old.since }) }
        ensures err { OnErr result (self.new ≡ self.old) }
    {
        let mut next = Frame::new(alloc)?;
        next.reserve(self.promises.all())?;
        self.taken = self.count;
        Ok(mem::replace(&mut self.frame, next))
    }

    /// Promises memory for so many bytes of records of a transaction, in place of what was promised to it. Unchanged
    /// where that is refused.
    pub fn promise(&mut self, txn: u64, bytes: usize) -> Result<(), OutOfMemory>
        ensures ok { OnOk result (self.new ≡ record self.old { promised = map.insert self.old.promised txn bytes }) }
        ensures err { OnErr result (self.new ≡ self.old) }
    {
        let all = self.promises.all_with(txn, bytes)?;
        make_room(self.bytes, &mut self.frame, 0, all)?;
        self.promises.set(txn, bytes)?;
        Ok(())
    }

    // One record more, which uses so much of what is promised: where that is enough it takes no memory. Unchanged where
    // memory is refused.
    fn add(&mut self, given: Entry<'_>, uses: Uses) -> Result<(), OutOfMemory>
        requires { CanBeSpelled (record_of given) }
        ensures ok { OnOk result (self.new ≡ noted_by self.old (record_of given.entry) uses) }
        ensures enough { Covers self.old.promised uses (length (spelling (record_of given.entry))) → IsOk result }
        ensures err { OnErr result (self.new ≡ self.old) }
        ensures small { IsSmall self.new }
    {
        let promised = self.promises.all_behind(uses);
        self.bytes = write(self.bytes, &mut self.frame, given, promised)?;
        self.count += 1;
        self.since = self.since.and(&given);
        self.promises.use_up(uses);
        Ok(())
    }

    /// One record more. What is promised stays so; unchanged where memory is refused.
    pub fn push(&mut self, rec: &Record) -> Result<(), OutOfMemory>
        requires { CanBeSpelled rec.now }
        ensures ok { OnOk result (self.new ≡ noted self.old rec.now) }
        ensures err { OnErr result (self.new ≡ self.old) }
        ensures small { IsSmall self.new }
    {
        self.add(Entry::Whole(rec), Uses::Nothing)
    }

    /// One record more, which uses up so many of the bytes that are promised to the transaction. Where these are enough
    /// it takes no memory; unchanged where memory is refused.
    pub fn push_from(&mut self, rec: &Record, txn: u64, from: usize) -> Result<(), OutOfMemory>
        requires { CanBeSpelled rec.now }
        ensures ok { OnOk result (self.new ≡ noted_from self.old rec.now txn from) }
        ensures promised { length (spelling rec.now) ≤ from → length (spelling rec.now) ≤ promised_to self.old.promised txn → IsOk result }
        ensures err { OnErr result (self.new ≡ self.old) }
        ensures small { IsSmall self.new }
    {
        self.add(Entry::Whole(rec), Uses::Bytes { txn, bytes: from })
    }

    /// The last record of a transaction, which is promised nothing then.
    pub fn push_last(&mut self, rec: &Record, txn: u64) -> Result<(), OutOfMemory>
        requires { CanBeSpelled rec.now }
        ensures ok { OnOk result (self.new ≡ noted_last self.old rec.now txn) }
        ensures promised { length (spelling rec.now) ≤ promised_to self.old.promised txn → IsOk result }
        ensures err { OnErr result (self.new ≡ self.old) }
        ensures small { IsSmall self.new }
    {
        self.add(Entry::Whole(rec), Uses::All { txn })
    }

    /// The record of an operation, whose block is borrowed and encoded once. What is promised stays so.
    pub fn push_op(&mut self, txn: u64, block: &Block) -> Result<(), OutOfMemory>
        requires { CanBeSpelled (Forward txn block.now) }
        ensures ok { OnOk result (self.new ≡ noted self.old (Forward txn block.now)) }
        ensures err { OnErr result (self.new ≡ self.old) }
        ensures small { IsSmall self.new }
    {
        self.add(Entry::Op { txn, block }, Uses::Nothing)
    }

    /// The same for an operation that takes back.
    pub fn push_back(&mut self, txn: u64, block: &Block) -> Result<(), OutOfMemory>
        requires { CanBeSpelled (Back txn block.now) }
        ensures ok { OnOk result (self.new ≡ noted self.old (Back txn block.now)) }
        ensures err { OnErr result (self.new ≡ self.old) }
        ensures small { IsSmall self.new }
    {
        self.add(Entry::Back { txn, block }, Uses::Nothing)
    }

    /// The same for the operation of a solo, which uses up so many of the bytes that are promised to its parent.
    pub fn push_solo(
        &mut self,
        txn: u64,
        parent: u64,
        block: &Block,
        from: usize,
    ) -> Result<(), OutOfMemory>
        requires { CanBeSpelled (Solo txn parent block.now) }
        ensures ok { OnOk result (self.new ≡ noted_from self.old (Solo txn parent block.now) parent from) }
        ensures promised { length (spelling (Solo txn parent block.now)) ≤ from → length (spelling (Solo txn parent block.now)) ≤ promised_to self.old.promised parent → IsOk result }
        ensures err { OnErr result (self.new ≡ self.old) }
        ensures small { IsSmall self.new }
    {
        let uses = Uses::Bytes {
            txn: parent,
            bytes: from,
        };
        self.add(Entry::Solo { txn, parent, block }, uses)
    }
}
