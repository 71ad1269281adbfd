//! A batch that is being put together.
ghost use Rattle.std.specs.Prelude.{◌≡◌, ◌≤◌, ◌<◌, ◌+◌, ◌^◌, ℕ, List, [], ◌∷◌, ◌++◌, length, IfOk, IsOk, OnOk, OnErr, IsTrue, ◌↔◌};
ghost use Rattle.dali_store.specs.Faults.{one_more};
ghost use Rattle.dali_record.specs.Spelling.{CanBeSpelled, spelling};
ghost use Rattle.dali_log.specs.Batch.{closed_gate, frame_of};
ghost use Rattle.dali_log.specs.Entries.{record_of};

use crate::CLOSED;
use crate::entry::{Entry, append};
use byteorder::{BigEndian, ByteOrder};
use dali_bytes::OutOfMemory;
use std::alloc::Global;
use std::marker::Model;

// The bytes of a frame beside its records: their length before them, and the next gate behind.
const BESIDE: usize = 5;

// The bytes of the length.
const LENGTH: usize = 4;

/// The records of a batch, ready to be written with their length and the next closed gate. Contracts see the bytes
/// of the records, how many records they are, and for how many bytes more there is memory. A frame without records is
/// empty.
#[derive(Drop)]
pub struct Frame {
    bytes: Vec<u8>,
    records: u64,
}

impl Model for Frame {
    ghost use Rattle.std.specs.Prelude.{◌-◌, vec_len, vec_capacity};
    ghost use Rattle.dali_log.specs.Batch.{Framed, framed_code, body_of, IsFrame};

    ghost Value = { Framed };

    ghost coded = { framed_code };

    ghost view = { λ f. record { body = body_of f.bytes.items; records = f.records; room = vec_capacity f.bytes - vec_len f.bytes } };

    ghost invariant = { λ f. IsFrame f.bytes.items };
}

// Moves the closed gate at this place behind the bytes that follow it.
fn move_back(bytes: &mut [u8], gate: usize)
    requires { gate < length bytes.old }
    ensures { (front rest : List ℕ) → bytes.old ≡ front ++ closed_gate ∷ rest → length front ≡ gate → bytes.new ≡ front ++ rest ++ closed_gate ∷ [] }
{
    bytes[gate..].rotate_left(1);
}

// Makes a frame of a frame with its gate at this place and of bytes that were added behind it.
fn settle(bytes: &mut [u8], gate: usize)
    requires inside { gate < length bytes.old }
    requires long { 5 ≤ length bytes.old }
    requires room { length bytes.old ≤ 2 ^ 30 + 5 }
    ensures { (body added : List ℕ) → bytes.old ≡ frame_of body ++ added → gate ≡ length body + 4 → bytes.new ≡ frame_of (body ++ added) }
{
    move_back(bytes, gate);
    let size = (bytes.len() - BESIDE) as u32;
    BigEndian::write_u32(bytes, size);
}

impl Frame {
    /// An empty frame. It takes memory for its length and gate.
    pub fn new(alloc: Global) -> Result<Self, OutOfMemory>
        ensures { IfOk result (λ frame. (frame.body ≡ []) × (frame.records ≡ 0)) }
    {
        let bytes = vec![in alloc; CLOSED; BESIDE]?;
        Ok(Frame { bytes, records: 0 })
    }

    /// Takes memory for so many bytes more. Where there is room for them it takes none.
    pub fn reserve(&mut self, more: usize) -> Result<(), OutOfMemory>
        ensures ok { OnOk result (more ≤ self.new.room) }
        ensures room { more ≤ self.old.room → IsOk result }
        ensures same { (self.new.body ≡ self.old.body) × (self.new.records ≡ self.old.records) × (self.old.room ≤ self.new.room) }
    {
        self.bytes.reserve(more)?;
        Ok(())
    }

    /// Adds the bytes of a record behind those that are there. Where there is no room for them it takes memory;
    /// unchanged where that is refused.
    pub fn add(&mut self, bytes: &[u8]) -> Result<(), OutOfMemory>
        requires { length self.old.body + length bytes.now ≤ 2 ^ 30 }
        ensures ok { OnOk result ((self.new.body ≡ self.old.body ++ bytes.now) × (self.old.room ≤ self.new.room + length bytes.now)) }
        ensures records { OnOk result (self.new.records ≡ one_more self.old.records) }
        ensures room { length bytes.now ≤ self.old.room → IsOk result }
        ensures err { OnErr result ((self.new.body ≡ self.old.body) × (self.new.records ≡ self.old.records) × (self.old.room ≤ self.new.room)) }
    {
        let gate = self.bytes.len() - 1;
        self.bytes.extend_from_slice(bytes)?;
        settle(&mut self.bytes, gate);
        self.records = self.records.saturating_add(1);
        Ok(())
    }

    /// Writes a record's spelling behind the bytes that are there: what `add` does with its bytes.
    pub fn write(&mut self, given: Entry<'_>) -> Result<(), OutOfMemory>
        requires spelled { CanBeSpelled (record_of given) }
        requires few { length self.old.body + length (spelling (record_of given)) ≤ 2 ^ 30 }
        ensures ok { OnOk result ((self.new.body ≡ self.old.body ++ spelling (record_of given.entry)) × (self.old.room ≤ self.new.room + length (spelling (record_of given.entry)))) }
        ensures records { OnOk result (self.new.records ≡ one_more self.old.records) }
        ensures room { length (spelling (record_of given.entry)) ≤ self.old.room → IsOk result }
        ensures err { OnErr result ((self.new.body ≡ self.old.body) × (self.new.records ≡ self.old.records) × (self.old.room ≤ self.new.room)) }
    {
        let gate = self.bytes.len() - 1;
        append(given, &mut self.bytes)?;
        settle(&mut self.bytes, gate);
        self.records = self.records.saturating_add(1);
        Ok(())
    }

    /// The bytes of the records.
    pub fn body(&self) -> &[u8]
        ensures { result.now ≡ self.now.body }
    {
        &self.bytes[LENGTH..LENGTH + self.len()]
    }

    /// How many bytes the records have, at most 2^30.
    pub fn len(&self) -> usize
        ensures len { result ≡ length self.now.body }
        ensures most { result ≤ 2 ^ 30 }
    {
        self.bytes.len() - BESIDE
    }

    /// How many records were added. The count stands still at its type's end.
    pub fn records(&self) -> u64
        ensures { result ≡ self.now.records }
    {
        self.records
    }

    /// Whether there are no records.
    pub fn is_empty(&self) -> bool
        ensures { IsTrue result ↔ (length self.now.body ≡ 0) }
    {
        self.len() == 0
    }

    /// Takes the records out, and keeps the memory for others.
    pub fn clear(&mut self)
        ensures { self.new ≡ record { body = []; records = 0; room = self.old.room + length self.old.body } }
    {
        self.bytes.truncate(BESIDE);
        self.bytes.fill(CLOSED);
        self.records = 0;
    }

    /// The length of the records, the records, and the next closed gate.
    pub(crate) fn whole(&self) -> &[u8]
        ensures whole { result.now ≡ frame_of self.now.body }
        ensures most { length self.now.body ≤ 2 ^ 30 }
    {
        &self.bytes
    }
}
