ghost use Rattle.std.specs.Prelude.{◌≡◌, ◌≤◌, ◌<◌, ◌-◌, ◌++◌, ◌∷◌, length, take, IfOk, IfErr, OnOk, OnErr};
ghost use Rattle.dali_bytes.specs.Cursor.{Cursor, left, moved, IsBytes};
ghost use Rattle.dali_bytes.specs.Fields.{number32, number64};
ghost use Rattle.dali_bytes.specs.Reading.{Reads, byte_at, number32_at, number64_at, bytes_at};

use crate::Short;
use byteorder::{BigEndian, ByteOrder};
use std::marker::Model;

/// Reads the fields of a slice of bytes, from left to right.
///
/// Contracts see all bytes and the place of the next one. A field that is cut short leaves the
/// reader where it was.
#[derive(Drop)]
pub struct Reader<'a> {
    bytes: &'a [u8],
    at: usize,
}

impl<'a> Model for Reader<'a> {
    ghost use Rattle.std.specs.Prelude.{◌≤◌, length};
    ghost use Rattle.dali_bytes.specs.Cursor.{Cursor, IsBytes};

    ghost Value = { Cursor };

    ghost view = { λ r. record { all = r.bytes.now; at = r.at } };

    ghost invariant = { λ r. (r.at ≤ length r.bytes.now) × IsBytes r.bytes.now };
}

impl<'a> Reader<'a> {
    /// A reader at the first of these bytes.
    pub fn new(bytes: &'a [u8]) -> Self
        ensures { result ≡ record { all = bytes.now; at = 0 } }
    {
        Reader { bytes, at: 0 }
    }

    /// How many bytes have been read.
    pub fn at(&self) -> usize
        ensures at { result ≡ self.now.at }
        ensures inside { result ≤ length self.now.all }
        ensures bytes { IsBytes self.now.all }
    {
        let _bytes = self.bytes;
        self.at
    }

    /// How many bytes are left.
    pub fn left(&self) -> usize
        ensures { result ≡ length (left self.now) }
    {
        self.bytes.len() - self.at
    }

    /// Goes back to an earlier place, as `at` told it.
    pub fn go_back(&mut self, at: usize)
        requires { at ≤ self.old.at }
        ensures { self.new ≡ record { all = self.old.all; at = at } }
    {
        self.at = at;
    }

    /// The next byte. `Short` exactly where none is left.
    pub fn byte(&mut self) -> Result<u8, Short>
        ensures next { IfOk result (λ byte. left self.old ≡ byte ∷ left self.new) }
        ensures moved { OnOk result (self.new ≡ moved 1 self.old) }
        ensures short { IfErr result (λ e. (length (left self.old) < 1) × (e.at ≡ self.old.at)) }
        ensures unchanged { OnErr result (self.new ≡ self.old) }
        ensures exact { Reads result (left self.new) (byte_at (left self.old)) }
    {
        if self.left() < 1 {
            return Err(Short { at: self.at });
        }
        let byte = self.bytes[self.at];
        self.at += 1;
        Ok(byte)
    }

    /// The number in the next four bytes. `Short` exactly where fewer are left.
    #[tactic(auto, unfolding(crate::specs::Reading::number32_at))]
    pub fn number32(&mut self) -> Result<u32, Short>
        ensures next { IfOk result (λ n. left self.old ≡ number32 n ++ left self.new) }
        ensures moved { OnOk result (self.new ≡ moved 4 self.old) }
        ensures short { IfErr result (λ e. (length (left self.old) < 4) × (e.at ≡ self.old.at)) }
        ensures unchanged { OnErr result (self.new ≡ self.old) }
        ensures exact { Reads result (left self.new) (number32_at (left self.old)) }
    {
        if self.left() < 4 {
            return Err(Short { at: self.at });
        }
        let number = BigEndian::read_u32(&self.bytes[self.at..]);
        self.at += 4;
        Ok(number)
    }

    /// The number in the next eight bytes. `Short` exactly where fewer are left.
    #[tactic(auto, unfolding(crate::specs::Reading::number64_at))]
    pub fn number64(&mut self) -> Result<u64, Short>
        ensures next { IfOk result (λ n. left self.old ≡ number64 n ++ left self.new) }
        ensures moved { OnOk result (self.new ≡ moved 8 self.old) }
        ensures short { IfErr result (λ e. (length (left self.old) < 8) × (e.at ≡ self.old.at)) }
        ensures unchanged { OnErr result (self.new ≡ self.old) }
        ensures exact { Reads result (left self.new) (number64_at (left self.old)) }
    {
        if self.left() < 8 {
            return Err(Short { at: self.at });
        }
        let number = BigEndian::read_u64(&self.bytes[self.at..]);
        self.at += 8;
        Ok(number)
    }

    /// The next `count` bytes. `Short` exactly where fewer are left.
    #[tactic(auto, unfolding(crate::specs::Reading::bytes_at))]
    pub fn take(&mut self, count: usize) -> Result<&'a [u8], Short>
        ensures next { IfOk result (λ bytes. left self.old ≡ bytes.now ++ left self.new) }
        ensures moved { OnOk result (self.new ≡ moved count self.old) }
        ensures short { IfErr result (λ e. (length (left self.old) < count) × (e.at ≡ self.old.at)) }
        ensures unchanged { OnErr result (self.new ≡ self.old) }
        ensures exact { IfOk result (λ bytes. bytes_at count (left self.old) ≡ Some (bytes.now, left self.new)) }
        ensures none { OnErr result (bytes_at count (left self.old) ≡ None) }
    {
        if self.left() < count {
            return Err(Short { at: self.at });
        }
        let front = &self.bytes[self.at..self.at + count];
        self.at += count;
        Ok(front)
    }
}
