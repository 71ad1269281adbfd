//! What stands at a place of the log.
ghost use Rattle.std.specs.Prelude.{◌≡◌, ◌≤◌, ◌<◌, ◌+◌, ℕ, true, false, length, take, drop, IfOk, OnOk, OnErr, IfErr, IsErrOf, IfSome, IsNone};
ghost use Rattle.dali_store.specs.Calls.{one_less, MakesAtMost};
ghost use Rattle.dali_store.specs.Faults.{Rose};
ghost use Rattle.dali_bytes.specs.Fields.{number32};
ghost use Rattle.dali_log.specs.Finding.{IsBad, IsFound, IsFurther};
ghost use Rattle.dali_log.specs.Reads.{OnlyReads, ReadsOrFails};

use crate::{BatchError, MOST_BYTES, OPEN};
use byteorder::{BigEndian, ByteOrder};
use dali_store::{FileName, Store, StoreFault};
use std::alloc::Global;
use std::marker::Model;

/// The records of a batch as bytes.
#[derive(Drop)]
pub struct Body {
    bytes: Vec<u8>,
}

impl Model for Body {
    ghost use Rattle.std.specs.Prelude.{List, ℕ};

    ghost Value = { List ℕ };

    ghost view = { λ b. b.bytes.items };
}

impl Body {
    /// The bytes.
    pub fn bytes(&self) -> &[u8]
        ensures { result.now ≡ self.now }
    {
        &self.bytes
    }
}

/// What stands at a place of the log.
#[derive(Drop)]
pub enum Found {
    /// A batch with these records, and the place behind it.
    Batch { body: Body, next: u64 },
    /// A closed gate: the log ends here.
    End,
}

// Reads so many bytes as the buffer has. It answers whether all were there.
pub fn fill<V: Store>(store: &mut V, at: u64, into: &mut [u8]) -> Result<bool, StoreFault>
    requires { 0 < length into.old }
    ensures whole { IfOk result (λ whole. whole ≡ true → IfSome (V.told store.old) (λ fs.
        (at + length into.old ≤ length fs.log) × (into.new ≡ take (length into.old) (drop at fs.log)))) }
    ensures short { IfOk result (λ whole. whole ≡ false → IfSome (V.told store.old) (λ fs. length fs.log < at + length into.old)) }
    ensures reads { OnlyReads V.told V.moment V.left_since V.may_leave store.old store.new }
    ensures later { V.faults store.old ≤ V.faults store.new }
    ensures fault { OnErr result (Rose (V.faults store.old) (V.faults store.new)) }
    ensures kept { OnOk result (V.faults store.new ≡ V.faults store.old) }
    ensures calls { V.lets_pass store.new ≡ one_less (V.lets_pass store.old) }
{
    let count = store.read_at(FileName::Log, at, into)?;
    Ok(count == into.len())
}

// The number that four bytes spell.
pub fn number_of(bytes: &[u8]) -> u32
    requires { length bytes.now ≡ 4 }
    ensures { bytes.now ≡ number32 result }
{
    BigEndian::read_u32(bytes)
}

// So many bytes of the log from a place on, or none where it has fewer.
fn read_bytes<V: Store>(
    alloc: Global,
    store: &mut V,
    at: u64,
    size: u32,
) -> Result<Option<Body>, BatchError>
    requires { 0 < size }
    ensures read { IfOk result (λ read. IfSome read (λ body. IfSome (V.told store.old) (λ fs.
        (at + size ≤ length fs.log) × (body ≡ take size (drop at fs.log))))) }
    ensures none { IfOk result (λ read. IsNone read → IfSome (V.told store.old) (λ fs. length fs.log < at + size)) }
    ensures good { IfErr result (λ e. (bad : ℕ) → e ≡ BatchError.BadLog bad → ⊥) }
    ensures store { ReadsOrFails V.Store (IsErrOf result BatchError.Fault) store.old store.new }
    ensures most { MakesAtMost 1 (V.lets_pass store.old) (V.lets_pass store.new) }
{
    let mut bytes = vec![in alloc; 0; size as usize]?;
    if !fill(store, at, &mut bytes)? {
        return Ok(None);
    }
    Ok(Some(Body { bytes }))
}

/// What stands at a place of the log: a batch, or a closed gate, where it ends. `BadLog` at the place itself where the
/// file has no gate there, and at the length behind an open gate where that isn't 1 to 2^30 with so many bytes behind
/// it. `Fault` exactly where the store's count of faults rose. It takes memory for the records.
pub fn find<V: Store>(alloc: Global, store: &mut V, at: u64) -> Result<Found, BatchError>
    ensures found { IfOk result (λ found. IfSome (V.told store.old) (λ fs. IsFound fs.log at found)) }
    ensures further { IfOk result (λ found. IsFurther at found) }
    ensures bad { IfErr result (λ e. (bad : ℕ) → e ≡ BatchError.BadLog bad → IfSome (V.told store.old) (λ fs. IsBad fs.log at bad)) }
    ensures store { ReadsOrFails V.Store (IsErrOf result BatchError.Fault) store.old store.new }
    ensures most { MakesAtMost 4 (V.lets_pass store.old) (V.lets_pass store.new) }
{
    let length = store.length(FileName::Log)?;
    if length <= at {
        return Err(BatchError::BadLog { at });
    }
    let mut gate = [0];
    if !fill(store, at, &mut gate)? {
        return Err(BatchError::BadLog { at });
    }
    if gate[0] != OPEN {
        return Ok(Found::End);
    }
    let mut number = [0; 4];
    if !fill(store, at + 1, &mut number)? {
        return Err(BatchError::BadLog { at: at + 1 });
    }
    let size = number_of(&number);
    if size == 0 || size > MOST_BYTES || length - at < 5 + size as u64 {
        return Err(BatchError::BadLog { at: at + 1 });
    }
    let Some(body) = read_bytes(alloc, store, at + 5, size)? else {
        return Err(BatchError::BadLog { at: at + 1 });
    };
    let next = at + 5 + size as u64;
    Ok(Found::Batch { body, next })
}
