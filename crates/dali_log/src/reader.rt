//! The log, record by record.
ghost use Rattle.std.specs.Prelude.{◌≡◌, ◌≤◌, ◌<◌, ◌+◌, ◌-◌, ◌^◌, ◌++◌, ◌⊎◌, [], ◌∷◌, ℕ, true, false, Bool, List, Err, length, take, drop, IfOk, OnOk, OnErr, IfErr, IsErr, IsErrOf, IfSome, IsNone, IsSome};
ghost use Rattle.dali_store.specs.Calls.{MakesAtMost};
ghost use Rattle.dali_record.specs.declared.records.Record.{Record};
ghost use Rattle.dali_record.specs.Spelling.{CanBeSpelled, Begins, spelling};
ghost use Rattle.dali_log.specs.Batch.{IsUnformatted, IsClosedAt};
ghost use Rattle.dali_log.specs.Finding.{IsBad};
ghost use Rattle.dali_log.specs.Reads.{ReadsOrFails};
ghost use Rattle.dali_log.specs.Log.{IsBadFirst, BadAt, BadFrom};
ghost use Rattle.dali_log.specs.Stream.{Covers, IsWhole, IsWindow, IsReadFrom, HandsOut, GoesOn, EndsAt, IsBadFrom, Stays, HasBatch, Keeps};

use crate::finding::{fill, number_of};
use crate::{BatchError, LogError, MOST_BYTES, OPEN};
use dali_bytes::Reader;
use dali_record::{DecodeError, Record, decode, decode_into};
use dali_store::{FileName, Store};
use std::alloc::Global;
use std::marker::Model;

/// How many bytes of the log are read at once, where it has so many.
const AHEAD: u64 = 1 << 18;

/// The bytes of the first batch: no more are read before a reader goes on to a place.
const FIRST: u64 = 15;

/// A record, the place of its first byte in the log, and whether it is the first of its batch.
#[derive(Drop)]
pub struct Placed {
    pub entry: Record,
    pub at: u64,
    pub first: bool,
}

/// Reads a log to its end, one record after another: its first batch, and then from the place behind it or from another
/// one on. It holds a part of the file in one buffer, of 2^18 bytes or of one batch where that is longer.
#[derive(Drop)]
pub struct LogReader {
    alloc: Global,
    // the part of the file that was read, and its place
    bytes: Vec<u8>,
    from: u64,
    // how many bytes are read at once
    ahead: u64,
    // the length of the file
    length: u64,
    // the place of the body of the batch that is being read, that of the next record in it, and its end
    body: u64,
    at: u64,
    end: u64,
}

impl Model for LogReader {
    ghost use Rattle.dali_log.specs.Stream.{Reading};

    ghost Value = { Reading };

    ghost use Rattle.dali_log.specs.Fields.{reading_of, IsInOrder};

    ghost view = { reading_of };

    ghost invariant = { IsInOrder };
}

// The sizes in a Format.
fn sizes_of(entry: &Record) -> Option<(u32, u32)>
    ensures some { IfSome result (λ sizes. entry.now ≡ Record.Format sizes.0 sizes.1) }
    ensures none { IsNone result → (index heap : ℕ) → entry.now ≡ Record.Format index heap → ⊥ }
{
    match entry {
        Record::Format { index, heap } => Some((*index, *heap)),
        _ => None,
    }
}

/// The sizes in a body that holds the one record Format, else none.
pub fn format_of(alloc: Global, body: &[u8]) -> Option<(u32, u32)>
    ensures some { IfSome result (λ sizes. CanBeSpelled (Record.Format sizes.0 sizes.1) × (body.now ≡ spelling (Record.Format sizes.0 sizes.1))) }
    ensures none { IsNone result → (index heap : ℕ) → CanBeSpelled (Record.Format index heap) → body.now ≡ spelling (Record.Format index heap) → ⊥ }
{
    let mut reader = Reader::new(body);
    let entry = match decode(alloc, &mut reader) {
        Ok(entry) => entry,
        Err(_) => return None,
    };
    if reader.left() > 0 {
        return None;
    }
    sizes_of(&entry)
}

impl LogReader {
    // Answers whether the file has so many bytes from a place on; they stand in the part that was read then. Where some of them
    // don't stand in it, the part from that place on is read in its place.
    fn need<V: Store>(&mut self, store: &mut V, at: u64, size: u32) -> Result<bool, BatchError>
        requires some { 0 < size }
        requires read { self.old.at ≡ self.old.end }
        ensures whole { IfOk result (λ whole. whole ≡ true → Covers self.new at size × (at + size ≤ self.new.length)) }
        ensures short { IfOk result (λ whole. whole ≡ false → IfSome (V.told store.old) (λ fs. IsWindow fs.log self.old → length fs.log < at + size)) }
        ensures window { OnOk result (IfSome (V.told store.old) (λ fs. IsWindow fs.log self.old → IsWindow fs.log self.new)) }
        ensures keeps { Keeps self.old self.new }
        ensures wanting { IsErrOf result BatchError.OutOfMemory → self.new ≡ self.old }
        ensures good { IfErr result (λ e. (bad : ℕ) → e ≡ BatchError.BadLog bad → ⊥) }
        ensures store { ReadsOrFails V.Store (IsErrOf result BatchError.Fault) store.old store.new }
        ensures most { MakesAtMost 1 (V.lets_pass store.old) (V.lets_pass store.new) }
    {
        if self.length < at || self.length - at < size as u64 {
            return Ok(false);
        }
        let have = self.bytes.len() as u64;
        if self.from <= at && at - self.from <= have && size as u64 <= have - (at - self.from) {
            return Ok(true);
        }
        let count = (self.length - at).min(self.ahead.max(size as u64));
        self.bytes.resize(count as usize, 0)?;
        self.from = at;
        match fill(store, at, &mut self.bytes) {
            Ok(true) => Ok(true),
            Ok(false) => {
                self.bytes.clear();
                Ok(false)
            }
            Err(fault) => {
                self.bytes.clear();
                Err(fault.into())
            }
        }
    }

    // So many bytes from a place on, which stand in the part that was read.
    fn part(&self, at: u64, size: u64) -> &[u8]
        requires { Covers self.now at size }
        ensures { result.now ≡ take size (drop (at - self.now.from) self.now.bytes) }
    {
        let start = (at - self.from) as usize;
        &self.bytes[start..start + size as usize]
    }

    // The size of the batch at a place, whose body stands in the part that was read then; none at a closed gate.
    fn batch_at<V: Store>(&mut self, store: &mut V, at: u64) -> Result<Option<u32>, BatchError>
        requires read { self.old.at ≡ self.old.end }
        requires small { self.old.length < 2 ^ 62 }
        requires inside { at ≤ self.old.length }
        ensures batch { IfOk result (λ found. IfSome found (λ size. IfSome (V.told store.old) (λ fs. IsWindow fs.log self.old → HasBatch fs.log at size))) }
        ensures none { IfOk result (λ found. IsNone found → IfSome (V.told store.old) (λ fs. IsWindow fs.log self.old → IsClosedAt at fs.log)) }
        ensures there { IfOk result (λ found. IfSome found (λ size. Covers self.new (at + 5) size × (at + 5 + size ≤ self.new.length) × (0 < size))) }
        ensures window { OnOk result (IfSome (V.told store.old) (λ fs. IsWindow fs.log self.old → IsWindow fs.log self.new)) }
        ensures keeps { Keeps self.old self.new }
        ensures wanting { IsErrOf result BatchError.OutOfMemory → IfSome (V.told store.old) (λ fs. IsWindow fs.log self.old → IsWindow fs.log self.new) }
        ensures bad { IfErr result (λ e. (bad : ℕ) → e ≡ BatchError.BadLog bad → IfSome (V.told store.old) (λ fs. IsWindow fs.log self.old → IsBad fs.log at bad)) }
        ensures store { ReadsOrFails V.Store (IsErrOf result BatchError.Fault) store.old store.new }
        ensures most { MakesAtMost 3 (V.lets_pass store.old) (V.lets_pass store.new) }
    {
        if !self.need(store, at, 1)? {
            return Err(BatchError::BadLog { at });
        }
        if self.part(at, 1)[0] != OPEN {
            return Ok(None);
        }
        if !self.need(store, at + 1, 4)? {
            return Err(BatchError::BadLog { at: at + 1 });
        }
        let size = number_of(self.part(at + 1, 4));
        if size == 0 || size > MOST_BYTES {
            return Err(BatchError::BadLog { at: at + 1 });
        }
        if !self.need(store, at + 5, size)? {
            return Err(BatchError::BadLog { at: at + 1 });
        }
        Ok(Some(size))
    }

    /// A reader of the log, and the sizes in its first batch, which it has read; of a log whose first batch is good no byte
    /// behind that was read. `Unformatted` exactly where the log has fewer than two bytes or its first gate is closed,
    /// `BadLog` exactly where no first batch with one Format stands there, with the first bad place in it, which is the
    /// log's. It takes memory for the part that it holds.
    pub fn open<V: Store>(alloc: Global, store: &mut V) -> Result<(Self, (u32, u32)), LogError>
        ensures whole { IfOk result (λ opened. IsWhole opened.0) }
        ensures further { IfOk result (λ opened. 0 < opened.0.at) }
        ensures first { IfOk result (λ opened. IfSome (V.told store.old) (λ fs. IsReadFrom fs.log 0 ((Record.Format opened.1.0 opened.1.1 ∷ []) ∷ []) [] opened.0)) }
        ensures spelled { IfOk result (λ opened. CanBeSpelled (Record.Format opened.1.0 opened.1.1)) }
        ensures bad { IfErr result (λ e. (bad : ℕ) → e ≡ LogError.BadLog bad → IfSome (V.told store.old) (λ fs. IsBadFirst fs.log bad)) }
        ensures log { IfErr result (λ e. (bad : ℕ) → e ≡ LogError.BadLog bad → IfSome (V.told store.old) (λ fs. BadAt fs.log bad)) }
        ensures unformatted { IsErrOf result LogError.Unformatted → IfSome (V.told store.old) (λ fs. IsUnformatted fs.log) }
        ensures store { ReadsOrFails V.Store (IsErrOf result LogError.Fault) store.old store.new }
        ensures most { MakesAtMost 4 (V.lets_pass store.old) (V.lets_pass store.new) }
    {
        let length = store.length(FileName::Log)?;
        if length < 2 {
            return Err(LogError::Unformatted);
        }
        let mut reader = LogReader {
            alloc,
            bytes: Vec::new(alloc),
            from: 0,
            ahead: FIRST,
            length,
            body: 0,
            at: 0,
            end: 0,
        };
        let Some(size) = reader.batch_at(store, 0)? else {
            return Err(LogError::Unformatted);
        };
        let Some(sizes) = format_of(alloc, reader.part(5, size as u64)) else {
            return Err(LogError::BadLog { at: 5 });
        };
        reader.ahead = AHEAD;
        reader.at = 5 + size as u64;
        reader.end = reader.at;
        Ok((reader, sizes))
    }

    /// Goes on at a place, where a batch is to begin: the batches between aren't read. `BadLog` exactly where the log ends
    /// before it. It takes no memory.
    pub fn seek(&mut self, at: u64) -> Result<(), LogError>
        ensures ok { OnOk result (self.new ≡ record self.old { body = at; at = at; end = at }) }
        ensures whole { IsWhole self.new }
        ensures stands { OnOk result ((log : List ℕ) → IsWindow log self.old → IsReadFrom log at [] [] self.new) }
        ensures err { OnErr result ((result ≡ Err (LogError.BadLog at)) × (self.old.length < at) × (self.new ≡ self.old)) }
        ensures bad { OnErr result ((log : List ℕ) → IsWindow log self.old → BadFrom log at at) }
        ensures inside { self.old.length < at → IsErr result }
    {
        if self.length < at {
            return Err(LogError::BadLog { at });
        }
        self.body = at;
        self.at = at;
        self.end = at;
        Ok(())
    }

    // Goes on to the batch behind the one that was read. It answers whether there is one.
    fn next_batch<V: Store>(&mut self, store: &mut V) -> Result<bool, BatchError>
        requires read { self.old.at ≡ self.old.end }
        ensures whole { IsWhole self.new }
        ensures more { IfOk result (λ more. more ≡ true → (self.old.at < self.new.at) × (self.new.at < self.new.end)) }
        ensures none { IfOk result (λ more. more ≡ false → self.new.at ≡ self.new.end) }
        ensures stands { IfOk result (λ more. more ≡ true → IfSome (V.told store.old) (λ fs. Stays fs.log self.old self.new)) }
        ensures ends { IfOk result (λ more. more ≡ false → IfSome (V.told store.old) (λ fs. EndsAt fs.log self.old self.new)) }
        ensures bad { IfErr result (λ e. (bad : ℕ) → e ≡ BatchError.BadLog bad → IfSome (V.told store.old) (λ fs. IsBadFrom fs.log self.old bad)) }
        ensures wanting { IsErrOf result BatchError.OutOfMemory → IfSome (V.told store.old) (λ fs. Stays fs.log self.old self.new) }
        ensures store { ReadsOrFails V.Store (IsErrOf result BatchError.Fault) store.old store.new }
        ensures most { MakesAtMost 3 (V.lets_pass store.old) (V.lets_pass store.new) }
    {
        let place = self.end;
        let Some(size) = self.batch_at(store, place)? else {
            return Ok(false);
        };
        self.body = place + 5;
        self.at = self.body;
        self.end = self.body + size as u64;
        Ok(true)
    }

    // Reads the next record of the batch, of which some is left, into a place.
    fn next_record(&mut self, into: &mut Placed) -> Result<(), LogError>
        requires left { self.old.at < self.old.end }
        ensures whole { IsWhole self.new }
        ensures further { OnOk result (self.old.at < self.new.at) }
        ensures spelled { OnOk result (CanBeSpelled into.new.entry) }
        ensures read { OnOk result ((log : List ℕ) → GoesOn log self.old into.new self.new) }
        ensures bad { IfErr result (λ e. (bad : ℕ) → e ≡ LogError.BadLog bad → (log : List ℕ) → IsBadFrom log self.old bad) }
        ensures err { OnErr result (self.new ≡ self.old) }
        ensures errors { IfErr result (λ e. ((bad : ℕ) × (e ≡ LogError.BadLog bad)) ⊎ (e ≡ LogError.OutOfMemory)) }
    {
        let at = self.at;
        let first = at == self.body;
        let mut reader = Reader::new(self.part(at, self.end - at));
        match decode_into(self.alloc, &mut reader, &mut into.entry) {
            Ok(()) => {
                let size = reader.at() as u64;
                self.at = at + size;
                into.at = at;
                into.first = first;
                Ok(())
            }
            Err(DecodeError::OutOfMemory) => Err(LogError::OutOfMemory),
            Err(DecodeError::BadRecord { .. }) => Err(LogError::BadLog { at }),
        }
    }

    /// Reads the next record into a place, and answers whether there was one: `next` for a caller that lends the same place
    /// each time, so that no record is moved. Where there was none, or an error came, nothing is said of the place.
    pub fn next_into<V: Store>(
        &mut self,
        store: &mut V,
        into: &mut Placed,
    ) -> Result<bool, LogError>
        ensures whole { IsWhole self.new }
        ensures further { IfOk result (λ more. more ≡ true → self.old.at < self.new.at) }
        ensures spelled { IfOk result (λ more. more ≡ true → CanBeSpelled into.new.entry) }
        ensures read { IfOk result (λ more. more ≡ true → IfSome (V.told store.old) (λ fs. GoesOn fs.log self.old into.new self.new)) }
        ensures ends { IfOk result (λ more. more ≡ false → IfSome (V.told store.old) (λ fs. EndsAt fs.log self.old self.new)) }
        ensures bad { IfErr result (λ e. (bad : ℕ) → e ≡ LogError.BadLog bad → IfSome (V.told store.old) (λ fs. IsBadFrom fs.log self.old bad)) }
        ensures wanting { IsErrOf result LogError.OutOfMemory → IfSome (V.told store.old) (λ fs. Stays fs.log self.old self.new) }
        ensures formatted { IsErrOf result LogError.Unformatted → ⊥ }
        ensures store { ReadsOrFails V.Store (IsErrOf result LogError.Fault) store.old store.new }
        ensures most { MakesAtMost 3 (V.lets_pass store.old) (V.lets_pass store.new) }
    {
        if self.at < self.end {
            self.next_record(into)?;
            return Ok(true);
        }
        if !self.next_batch(store)? {
            return Ok(false);
        }
        self.next_record(into)?;
        Ok(true)
    }

    /// The next record, or none where the log ends. `BadLog` exactly where the bytes are no log, with the first bad
    /// place: a place without a gate, a length that isn't 1 to 2^30 with so many bytes behind it, a place in a batch
    /// where no record begins. `Fault` exactly where the store's count of faults rose. It takes memory for a record's lists,
    /// and for the buffer where a part is longer than those before; where that is refused it goes on where it was.
    /// What it hands out can be spelled, also over a store that doesn't tell its contents. At the end of the log `seek` may
    /// be asked again. Nothing is said of the reader after another error but that its places are in order.
    pub fn next<V: Store>(&mut self, store: &mut V) -> Result<Option<Placed>, LogError>
        ensures whole { IsWhole self.new }
        ensures further { IfOk result (λ next. IsSome next → self.old.at < self.new.at) }
        ensures spelled { IfOk result (λ next. IfSome next (λ given. CanBeSpelled given.entry)) }
        ensures read { IfOk result (λ next. IfSome next (λ given. IfSome (V.told store.old) (λ fs. GoesOn fs.log self.old given self.new))) }
        ensures ends { IfOk result (λ next. IsNone next → IfSome (V.told store.old) (λ fs. EndsAt fs.log self.old self.new)) }
        ensures bad { IfErr result (λ e. (bad : ℕ) → e ≡ LogError.BadLog bad → IfSome (V.told store.old) (λ fs. IsBadFrom fs.log self.old bad)) }
        ensures wanting { IsErrOf result LogError.OutOfMemory → IfSome (V.told store.old) (λ fs. Stays fs.log self.old self.new) }
        ensures formatted { IsErrOf result LogError.Unformatted → ⊥ }
        ensures store { ReadsOrFails V.Store (IsErrOf result LogError.Fault) store.old store.new }
        ensures most { MakesAtMost 3 (V.lets_pass store.old) (V.lets_pass store.new) }
    {
        let mut given = Placed {
            entry: Record::AuditBegin,
            at: 0,
            first: false,
        };
        match self.next_into(store, &mut given) {
            Ok(true) => Ok(Some(given)),
            Ok(false) => Ok(None),
            Err(error) => Err(error),
        }
    }

    /// The place behind the record that was read last; at the end of the log its place.
    pub fn at(&self) -> u64
        ensures { result ≡ self.now.at }
    {
        self.at
    }
}
