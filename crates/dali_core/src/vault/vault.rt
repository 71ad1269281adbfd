//! A store with the place where its log ends.
ghost use Rattle.std.specs.Prelude.{◌≡◌, ◌==◌, ◌≤◌, ◌<◌, ◌+◌, ◌^◌, true, false, ℕ, Err, length, is_some, if◌then◌else◌, IfOk, IfErr, OnOk, OnErr, IfSome, IsErrOf};
ghost use Rattle.dali_store.specs.declared.store.FileName.TheVariants.{Log, Anchor};
ghost use Rattle.dali_store.specs.Calls.{fewer, one_less, PassesFewer, MakesAtMost};
ghost use Rattle.dali_store.specs.Faults.{Rose};
ghost use Rattle.dali_store.specs.Store.{Files, file_of, LeavesOnly, HoldsIn, TornIn, TornTold, Follows, Elapses};
ghost use Rattle.dali_log.specs.Batch.{IsClosedAt};
ghost use Rattle.dali_log.specs.Appending.{bodies_of, SomeAdded, AllAdded};
ghost use Rattle.dali_log.specs.Finding.{IsFound, IsBad, IsFurther};
ghost use Rattle.dali_log.specs.Reads.{OnlyReads};
ghost use Rattle.dali_log.specs.declared.error.BatchError.TheVariants.{BadLog, Fault as BatchFault};
ghost use Rattle.dali_fuse.specs.Fuse.{inner, passes_of, failed_of, failed_by};
ghost use Rattle.dali_crash.specs.Disks.Disks.{image_name};
ghost use Rattle.dali_log.specs.Anchors.{HasMoved, MayHaveMoved, AreAnchored};
ghost use Rattle.dali_core.specs.Vault.Vaulted.{with_store, grown, moved, faulted};
ghost use Rattle.dali_core.specs.declared.vault.error.VaultError.TheVariants.{Fault, Stopped};

use crate::vault::error::VaultError;
use dali_fuse::Fuse;
use dali_log::{BatchError, Found, Frame};
use dali_region::Side;
use dali_store::{FileName, Store, StoreFault};
use std::alloc::Global;
use std::marker::Model;

/// A store, the place where its log ends, the number of its current image, and how many records were flushed since the
/// vault was made. Once a call of the store has failed the vault is stopped, and nothing more is written. Until then each
/// crash leaves a closed gate where the log ends, and an anchor with as many open gates as the current number.
#[derive(Drop)]
pub struct Vault<V: Store> {
    store: V,
    end: u64,
    flushed: u64,
    current: u64,
    stopped: bool,
}

impl<V: Store> Model for Vault<V> {
    ghost use Rattle.dali_core.specs.Vault.Vaulted.{Vaulted, vaulted_code, IsServing};

    ghost Value = { Vaulted V };

    ghost coded = { vaulted_code V.code };

    ghost view = { λ v. record { store = v.store; end = v.end; flushed = v.flushed; current = v.current; stopped = v.stopped } };

    ghost invariant = { λ v. IsServing V.told V.may_leave (record { store = v.store; end = v.end; flushed = v.flushed; current = v.current; stopped = v.stopped }) };
}

impl<V: Store> Vault<Fuse<V>> {
    /// Lets the fuse over the store pass so many calls on from now on: `Fuse::set` of a store that is in use.
    pub fn set_fuse(&mut self, passes: Option<u64>)
        ensures same { self.new ≡ with_store self.old self.new.store }
        ensures inner { inner self.new.store ≡ inner self.old.store }
        ensures passes { passes_of self.new.store ≡ passes }
        ensures failed { failed_of self.new.store ≡ failed_by passes (failed_of self.old.store) }
    {
        self.store.set(passes);
    }

    /// How many calls the fuse over the store has failed since it last forgot them.
    pub fn failed(&self) -> u64
        ensures { result ≡ failed_of self.now.store }
    {
        self.store.failed()
    }
}

impl<V: Store> Vault<V> {
    /// The vault of a store whose log ends at this place and whose anchor has so many open gates. It runs, and has
    /// flushed nothing.
    pub fn new(store: V, end: u64, current: u64) -> Self
        requires closed { IfSome (V.told store) (λ _. (c : Files) → V.may_leave store c → IsClosedAt end c.log) }
        requires anchored { IfSome (V.told store) (λ _. AreAnchored (V.may_leave store) current) }
        ensures { result ≡ record { store = store; end = end; flushed = 0; current = current; stopped = false } }
    {
        Vault {
            store,
            end,
            flushed: 0,
            current,
            stopped: false,
        }
    }

    /// The place where the log ends, in bytes.
    pub fn end(&self) -> u64
        ensures { result ≡ self.now.end }
    {
        self.end
    }

    /// How many records were flushed since the vault was made. The count stands still at its type's end.
    pub fn flushed(&self) -> u64
        ensures { result ≡ self.now.flushed }
    {
        self.flushed
    }

    /// The number of the current image: how often a checkpoint or a restart moved the anchor.
    pub fn current(&self) -> u64
        ensures { result ≡ self.now.current }
    {
        self.current
    }

    /// Whether it has stopped: a flush, a write or a sync of an image, or a move of the anchor met a fault.
    pub fn stopped(&self) -> bool
        ensures { result ≡ self.now.stopped }
    {
        self.stopped
    }

    /// The store.
    pub fn into_store(self) -> V
        ensures { result ≡ self.store }
    {
        self.store
    }

    /// Adds the frame to the log as one batch, and answers the place where the log ends then. Four store calls; none
    /// for a frame without records. `Stopped` exactly where the vault was stopped before, and `Fault` only where the
    /// store's count of faults rose; then the vault stops. It takes no memory beyond the store's own.
    pub fn flush(&mut self, frame: &Frame) -> Result<u64, VaultError>
        requires small { self.old.end < 2 ^ 62 }
        ensures stopped { self.old.stopped ≡ true → (result ≡ Err Stopped) × (self.new ≡ self.old) }
        ensures ok { IfOk result (λ next. (self.new ≡ grown self.old self.new.store frame.now) × (next ≡ self.new.end) × (self.new.stopped ≡ false)) }
        ensures fault { IsErrOf result Fault → (self.new ≡ faulted self.old self.new.store) × Rose (V.faults self.old.store) (V.faults self.new.store) }
        ensures runs { IsErrOf result Stopped → self.old.stopped ≡ true }
        ensures kept { OnOk result (V.faults self.new.store ≡ V.faults self.old.store) }
        ensures untouched { length frame.now.body ≡ 0 → self.new.store ≡ self.old.store }
        ensures calls { OnOk result (V.lets_pass self.new.store ≡ fewer (if length frame.now.body == 0 then 0 else 4) (V.lets_pass self.old.store)) }
        ensures most { MakesAtMost 4 (V.lets_pass self.old.store) (V.lets_pass self.new.store) }
        ensures passes { PassesFewer (V.lets_pass self.old.store) (V.lets_pass self.new.store) }
        ensures tells { is_some (V.told self.new.store) ≡ is_some (V.told self.old.store) }
        ensures torn { self.old.stopped ≡ false → TornTold Log self.old.end (length frame.now.body + 6) (V.told self.old.store) (V.told self.new.store) }
        ensures any_moment { self.old.stopped ≡ false → IfSome (V.told self.old.store) (λ _. LeavesOnly V.moment V.left_since self.old.store self.new.store
            (SomeAdded (V.may_leave self.old.store) self.old.end (bodies_of frame.now.body))) }
        ensures acknowledged { OnOk result (IfSome (V.told self.old.store) (λ _. (c : Files) → V.may_leave self.new.store c →
            AllAdded (V.may_leave self.old.store) self.old.end (bodies_of frame.now.body) c)) }
    {
        running(self.stopped)?;
        match dali_log::flush(&mut self.store, self.end, frame) {
            Ok(next) => {
                self.end = next;
                self.flushed = self.flushed.saturating_add(frame.records());
                Ok(next)
            }
            Err(StoreFault) => Err(fail(&mut self.stopped)),
        }
    }

    /// Writes to the file of this side's image, within it or at its end. It answers and stops as `flush` does. It may
    /// take memory for the store.
    pub fn image_write(&mut self, side: Side, at: u64, bytes: &[u8]) -> Result<(), VaultError>
        requires { self.old.stopped ≡ false → IfSome (V.told self.old.store) (λ fs. at ≤ length (file_of (image_name side) fs)) }
        ensures stopped { self.old.stopped ≡ true → (result ≡ Err Stopped) × (self.new ≡ self.old) }
        ensures ok { OnOk result ((self.new ≡ with_store self.old self.new.store) × (self.old.stopped ≡ false)) }
        ensures fault { IsErrOf result Fault → (self.new ≡ faulted self.old self.new.store) × Rose (V.faults self.old.store) (V.faults self.new.store) }
        ensures runs { IsErrOf result Stopped → self.old.stopped ≡ true }
        ensures kept { OnOk result (V.faults self.new.store ≡ V.faults self.old.store) }
        ensures tells { is_some (V.told self.new.store) ≡ is_some (V.told self.old.store) }
        ensures calls { self.old.stopped ≡ false → V.lets_pass self.new.store ≡ one_less (V.lets_pass self.old.store) }
        ensures written { OnOk result (HoldsIn (image_name side) at bytes.now (V.told self.old.store) (V.told self.new.store)) }
        ensures torn { self.old.stopped ≡ false → TornTold (image_name side) at (length bytes.now) (V.told self.old.store) (V.told self.new.store) }
        ensures crash { self.old.stopped ≡ false → Follows (TornIn (image_name side) at (length bytes.now)) (V.may_leave self.old.store) (V.may_leave self.new.store) }
        ensures time { self.old.stopped ≡ false → Elapses (V.moment self.old.store) (V.moment self.new.store) (V.left_since self.old.store) (V.left_since self.new.store) (V.may_leave self.new.store) }
    {
        running(self.stopped)?;
        match self.store.write_at(file_of(side), at, bytes) {
            Ok(()) => Ok(()),
            Err(StoreFault) => Err(fail(&mut self.stopped)),
        }
    }

    /// Keeps what was written to the file of this side's image: after Ok a crash leaves of it what reads give. It
    /// answers and stops as `flush` does, and takes no memory.
    pub fn image_sync(&mut self, side: Side) -> Result<(), VaultError>
        ensures stopped { self.old.stopped ≡ true → (result ≡ Err Stopped) × (self.new ≡ self.old) }
        ensures ok { OnOk result ((self.new ≡ with_store self.old self.new.store) × (self.old.stopped ≡ false)) }
        ensures fault { IsErrOf result Fault → (self.new ≡ faulted self.old self.new.store) × Rose (V.faults self.old.store) (V.faults self.new.store) }
        ensures runs { IsErrOf result Stopped → self.old.stopped ≡ true }
        ensures kept { OnOk result (V.faults self.new.store ≡ V.faults self.old.store) }
        ensures told { V.told self.new.store ≡ V.told self.old.store }
        ensures calls { self.old.stopped ≡ false → V.lets_pass self.new.store ≡ one_less (V.lets_pass self.old.store) }
        ensures durable { OnOk result (IfSome (V.told self.old.store) (λ fs. (c : Files) → V.may_leave self.new.store c → file_of (image_name side) c ≡ file_of (image_name side) fs)) }
        ensures crash { (c : Files) → V.may_leave self.new.store c → V.may_leave self.old.store c }
        ensures time { self.old.stopped ≡ false → Elapses (V.moment self.old.store) (V.moment self.new.store) (V.left_since self.old.store) (V.left_since self.new.store) (V.may_leave self.new.store) }
    {
        running(self.stopped)?;
        match self.store.sync(file_of(side)) {
            Ok(()) => Ok(()),
            Err(StoreFault) => Err(fail(&mut self.stopped)),
        }
    }

    /// Moves the anchor to the next image: one gate more is open. Four store calls. A crash at any moment leaves as many
    /// as before or one more, and the other files as they were; after Ok it leaves one more. It answers and stops as
    /// `flush` does, and takes no memory beyond the store's own.
    pub fn move_anchor(&mut self) -> Result<(), VaultError>
        requires small { self.old.current < 2 ^ 62 }
        ensures stopped { self.old.stopped ≡ true → (result ≡ Err Stopped) × (self.new ≡ self.old) }
        ensures ok { OnOk result ((self.new ≡ moved self.old self.new.store) × (self.old.stopped ≡ false)) }
        ensures fault { IsErrOf result Fault → (self.new ≡ faulted self.old self.new.store) × Rose (V.faults self.old.store) (V.faults self.new.store) }
        ensures runs { IsErrOf result Stopped → self.old.stopped ≡ true }
        ensures kept { OnOk result (V.faults self.new.store ≡ V.faults self.old.store) }
        ensures tells { is_some (V.told self.new.store) ≡ is_some (V.told self.old.store) }
        ensures torn { self.old.stopped ≡ false → TornTold Anchor self.old.current 2 (V.told self.old.store) (V.told self.new.store) }
        ensures any_moment { self.old.stopped ≡ false → IfSome (V.told self.old.store) (λ _. LeavesOnly V.moment V.left_since self.old.store self.new.store
            (MayHaveMoved (V.may_leave self.old.store) self.old.current)) }
        ensures acknowledged { OnOk result (IfSome (V.told self.old.store) (λ _. (c : Files) → V.may_leave self.new.store c →
            HasMoved (V.may_leave self.old.store) self.old.current c)) }
        ensures calls { OnOk result (V.lets_pass self.new.store ≡ fewer 4 (V.lets_pass self.old.store)) }
        ensures most { MakesAtMost 4 (V.lets_pass self.old.store) (V.lets_pass self.new.store) }
    {
        running(self.stopped)?;
        match dali_log::move_anchor(&mut self.store, self.current) {
            Ok(()) => {
                self.current += 1;
                Ok(())
            }
            Err(StoreFault) => Err(fail(&mut self.stopped)),
        }
    }

    /// What stands at a place of the log: a batch, or a closed gate, where it ends. It answers and refuses as `find` of
    /// the log's file, and stops nothing. It takes memory for the records.
    pub fn read_log(&mut self, alloc: Global, at: u64) -> Result<Found, BatchError>
        ensures same { self.new ≡ with_store self.old self.new.store }
        ensures found { IfOk result (λ found. IfSome (V.told self.old.store) (λ fs. IsFound fs.log at found)) }
        ensures further { IfOk result (λ found. IsFurther at found) }
        ensures bad { IfErr result (λ e. (bad : ℕ) → e ≡ BadLog bad → IfSome (V.told self.old.store) (λ fs. IsBad fs.log at bad)) }
        ensures reads { OnlyReads V.told V.moment V.left_since V.may_leave self.old.store self.new.store }
        ensures fault { IsErrOf result (BatchFault) → Rose (V.faults self.old.store) (V.faults self.new.store) }
        ensures kept { (IsErrOf result BatchFault → ⊥) → V.faults self.new.store ≡ V.faults self.old.store }
    {
        dali_log::find(alloc, &mut self.store, at)
    }
}

// Whether the vault may write.
fn running(stopped: bool) -> Result<(), VaultError>
    ensures stopped { stopped ≡ true → result ≡ Err Stopped }
    ensures runs { OnOk result (stopped ≡ false) }
    ensures refused { OnErr result (stopped ≡ true) }
    ensures is_stopped { IfErr result (λ e. e ≡ Stopped) }
{
    if stopped {
        return Err(VaultError::Stopped);
    }
    Ok(())
}

// A call of the store failed: nothing more is written.
fn fail(stopped: &mut bool) -> VaultError
    ensures { (stopped.new ≡ true) × (result ≡ Fault) }
{
    *stopped = true;
    VaultError::Fault
}

// The file of a side's image.
fn file_of(side: Side) -> FileName
    ensures { result ≡ image_name side }
{
    match side {
        Side::A => FileName::ImageA,
        Side::B => FileName::ImageB,
    }
}
