//! The record of a restart is added to the log.
ghost use Rattle.std.specs.Prelude.{◌≡◌, ◌⊎◌, ◌<◌, ◌≤◌, ◌^◌, ◌++◌, ◌↔◌, [], ◌∷◌, length, IfOk, IfErr, OnOk, OnErr, IfSome, IsErrOf, is_some};
ghost use Rattle.dali_store.specs.declared.store.FileName.TheVariants.{Log};
ghost use Rattle.dali_store.specs.Calls.{fewer, PassesFewer, MakesAtMost};
ghost use Rattle.dali_store.specs.Faults.{Rose};
ghost use Rattle.dali_store.specs.Store.{Files, LeavesOnly, HoldsIn};
ghost use Rattle.dali_log.specs.Batch.{batch, closed_gate, IsClosedAt};
ghost use Rattle.dali_log.specs.Appending.{next_place, SomeAdded, AllAdded};
ghost use Rattle.dali_restart.specs.Renewal.Logged.{restart_body, restart_bodies, restart_length, AreAscending};
ghost use Rattle.dali_restart.specs.declared.renewal.error.RenewalError.TheVariants as errors;

use crate::renewal::error::RenewalError;
use dali_bytes::OutOfMemory;
use dali_log::{Frame, append};
use dali_record::{Numbers, Record, encode};
use dali_store::{Store, StoreFault};
use std::alloc::{AllocError, Global};

// How many transactions the two lists may name: then the record has 2^30 bytes at most.
const MOST: usize = 134_217_726;

// The numbers of a list, as a record holds them.
fn numbers_of(alloc: Global, list: &[u64]) -> Result<Numbers, AllocError>
    ensures { IfOk result (λ numbers. numbers ≡ list.now) }
{
    Ok(Numbers::new(Vec::from_slice(alloc, list)?))
}

// The bytes of a record.
fn bytes_of(alloc: Global, rolled_back: &[u64], deleted: &[u64]) -> Result<Vec<u8>, OutOfMemory>
    requires ascending { AreAscending rolled_back.now deleted.now }
    requires fits { restart_length rolled_back.now deleted.now ≤ 2 ^ 30 }
    ensures bytes { IfOk result (λ bytes. bytes.items ≡ restart_body rolled_back.now deleted.now) }
{
    let record = Record::Restarted {
        rolled_back: numbers_of(alloc, rolled_back)?,
        deleted: numbers_of(alloc, deleted)?,
    };
    let mut bytes = Vec::new(alloc);
    encode(&record, &mut bytes)?;
    Ok(bytes)
}

// A frame of one record.
fn frame_of(alloc: Global, bytes: &[u8]) -> Result<Frame, OutOfMemory>
    requires { length bytes.now ≤ 2 ^ 30 }
    ensures { IfOk result (λ frame. frame.body ≡ bytes.now) }
{
    let mut frame = Frame::new(alloc)?;
    frame.add(bytes)?;
    Ok(frame)
}

// The batch of the record of a restart.
pub(crate) fn restart_frame(
    alloc: Global,
    rolled_back: &[u64],
    deleted: &[u64],
) -> Result<Frame, RenewalError>
    requires ascending { AreAscending rolled_back.now deleted.now }
    ensures body { IfOk result (λ frame. frame.body ≡ restart_body rolled_back.now deleted.now) }
    ensures long { IsErrOf result errors.TooLong ↔ (2 ^ 30 < restart_length rolled_back.now deleted.now) }
    ensures errors { IfErr result (λ e. (e ≡ errors.TooLong) ⊎ (e ≡ errors.OutOfMemory)) }
{
    if rolled_back.len() + deleted.len() > MOST {
        return Err(RenewalError::TooLong);
    }
    let bytes = match bytes_of(alloc, rolled_back, deleted) {
        Ok(bytes) => bytes,
        Err(_) => return Err(RenewalError::OutOfMemory),
    };
    match frame_of(alloc, &bytes) {
        Ok(frame) => Ok(frame),
        Err(_) => Err(RenewalError::OutOfMemory),
    }
}

/// Adds a batch of one record, Restarted with these two lists, to a log that ends at this place, and answers where it ends
/// then. A crash at any moment leaves the log as it was or with that batch, and the other files as they were; after Ok it
/// leaves the batch. After a fault either may be so.
///
/// `TooLong` exactly where the record has more than 2^30 bytes, which are the most that a batch has: then, and where
/// memory is refused (`OutOfMemory`), no call is made. `Fault` exactly where the store's count of faults rose. It takes
/// memory for the record, three times, and gives it back.
pub fn log_restart<V: Store>(
    alloc: Global,
    store: &mut V,
    end: u64,
    rolled_back: &[u64],
    deleted: &[u64],
) -> Result<u64, RenewalError>
    requires small { end < 2 ^ 62 }
    requires ascending { AreAscending rolled_back.now deleted.now }
    requires closed { IfSome (V.told store.old) (λ _. (c : Files) → V.may_leave store.old c → IsClosedAt end c.log) }
    ensures next { IfOk result (λ next. next ≡ next_place end (restart_bodies rolled_back.now deleted.now)) }
    ensures tells { is_some (V.told store.new) ≡ is_some (V.told store.old) }
    ensures written { OnOk result (HoldsIn Log end (batch (restart_body rolled_back.now deleted.now) ++ closed_gate ∷ []) (V.told store.old) (V.told store.new)) }
    ensures any_moment { IfSome (V.told store.old) (λ _. LeavesOnly V.moment V.left_since store.old store.new
        (SomeAdded (V.may_leave store.old) end (restart_bodies rolled_back.now deleted.now))) }
    ensures acknowledged { OnOk result (IfSome (V.told store.old) (λ _. (c : Files) → V.may_leave store.new c →
        AllAdded (V.may_leave store.old) end (restart_bodies rolled_back.now deleted.now) c)) }
    ensures long { IsErrOf result errors.TooLong ↔ (2 ^ 30 < restart_length rolled_back.now deleted.now) }
    ensures untouched { (IsErrOf result errors.Fault → ⊥) → OnErr result (store.new ≡ store.old) }
    ensures fault { IsErrOf result errors.Fault → Rose (V.faults store.old) (V.faults store.new) }
    ensures later { V.faults store.old ≤ V.faults store.new }
    ensures kept { (IsErrOf result errors.Fault → ⊥) → V.faults store.new ≡ V.faults store.old }
    ensures calls { OnOk result (V.lets_pass store.new ≡ fewer 4 (V.lets_pass store.old)) }
    ensures most { MakesAtMost 4 (V.lets_pass store.old) (V.lets_pass store.new) }
    ensures passes { PassesFewer (V.lets_pass store.old) (V.lets_pass store.new) }
{
    let frame = match restart_frame(alloc, rolled_back, deleted) {
        Ok(frame) => frame,
        Err(error) => return Err(error),
    };
    match append(store, end, &frame) {
        Ok(next) => Ok(next),
        Err(StoreFault) => Err(RenewalError::Fault),
    }
}
