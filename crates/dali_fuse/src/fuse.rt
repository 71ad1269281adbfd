//! A store that passes so many calls on, and fails those that follow.
ghost use Rattle.std.specs.Prelude.{◌≡◌, ◌≢◌, ◌≤◌, ◌<◌, ◌+◌, ◌^◌, ◌↔◌, Option, Some, None, List, ℕ, length, max, IfOk, IsErr, OnOk, OnErr, IfSome, is_some, IsTrue};
ghost use Rattle.dali_store.specs.Calls.{one_less};
ghost use Rattle.dali_store.specs.Faults.{HasCause};
ghost use Rattle.dali_store.specs.Drops.{DroppedIn, DroppedTold, IsIdle, IsSynced, After, LogStays};
ghost use Rattle.dali_store.specs.Store.{Files, file_of, Only, Follows, TornIn, TornTold, HoldsIn, ReadsAt, Elapses};
ghost use Rattle.dali_fuse.specs.Fuse.{Burns, PassesOn, inner, passes_of, failed_by, failed_of, forgetful};
ghost use Rattle.dali_store.specs.Faults.{one_more};

use dali_store::{FileName, Store, StoreFault};

/// Passes so many calls on to its store. Once none of these is left it fails each call but `cut`, without making it.
/// With no number it passes all calls on. A cut is always passed on, and uses up one of the calls where some are left.
///
/// The calls that it still makes are those that it passes on; what its store counts isn't told.
/// Its count of faults is the store's plus the calls that it failed since it last forgot them, none while it has no number.
#[derive(Drop)]
pub struct Fuse<V: Store> {
    store: V,
    passes: Option<u64>,
    failed: u64,
}

impl<V: Store> Fuse<V> {
    /// A fuse that has failed no call yet.
    pub fn new(store: V, passes: Option<u64>) -> Fuse<V>
        ensures inner { inner result ≡ store }
        ensures passes { passes_of result ≡ passes }
        ensures failed { failed_of result ≡ 0 }
    {
        Fuse {
            store,
            passes,
            failed: 0,
        }
    }

    /// How many calls it failed since it last forgot them; none while it has no number.
    pub fn failed(&self) -> u64
        ensures { result ≡ failed_of self.now }
    {
        match self.passes {
            Some(_) => self.failed,
            None => 0,
        }
    }

    /// Whether a call was failed by the fuse since it last forgot them. Where none was, its count is the store's.
    pub fn spent(&self) -> bool
        ensures { IsTrue result ↔ (0 < failed_of self.now) }
    {
        self.failed() > 0
    }

    /// Passes so many calls on from now on. The calls that were failed stay counted, but none are where it has no number.
    pub fn set(&mut self, passes: Option<u64>)
        ensures inner { inner self.new ≡ inner self.old }
        ensures passes { passes_of self.new ≡ passes }
        ensures failed { failed_of self.new ≡ failed_by passes (failed_of self.old) }
    {
        self.failed = self.failed();
        self.passes = passes;
    }

    /// Forgets the calls that it failed: they are counted from 0 on again. It goes on to pass on as many.
    pub fn forget(&mut self)
        ensures { self.new ≡ forgetful self.old }
    {
        self.failed = 0;
    }

    /// The store.
    pub fn into_inner(self) -> V
        ensures { result ≡ inner self }
    {
        self.store
    }

    // Uses up one of the calls to pass on, where some are left.
    fn use_up(&mut self)
        ensures inner { inner self.new ≡ inner self.old }
        ensures passes { passes_of self.new ≡ one_less (passes_of self.old) }
        ensures failed { failed_of self.new ≡ failed_of self.old }
    {
        self.passes = self.passes.map(|left| left.saturating_sub(1));
    }

    // Uses up one of the calls to pass on. Where none is left, the call is failed, and counted.
    fn burn(&mut self) -> Result<(), StoreFault>
        ensures blown { IsErr result ↔ (passes_of self.old ≡ Some 0) }
        ensures inner { inner self.new ≡ inner self.old }
        ensures passes { passes_of self.new ≡ one_less (passes_of self.old) }
        ensures kept { OnOk result (failed_of self.new ≡ failed_of self.old) }
        ensures failed { OnErr result (failed_of self.new ≡ one_more (failed_of self.old)) }
        ensures cause { HasCause (V.faults (inner self.old) + failed_of self.old) (V.faults (inner self.new) + failed_of self.new) result }
    {
        if self.passes == Some(0) {
            self.failed = self.failed.saturating_add(1);
            return Err(StoreFault);
        }
        self.use_up();
        Ok(())
    }
}

// The clauses `burns` and `passed` say what the trait says of the calls left, and more.
impl<V: Store> Store for Fuse<V> {
    ghost use Rattle.std.specs.Prelude.{◌+◌};

    ghost told = { λ f. V.told f.store };

    ghost may_leave = { λ f. V.may_leave f.store };

    ghost moment = { λ f. V.moment f.store };

    ghost left_since = { λ f. V.left_since f.store };

    ghost faults = { λ f. V.faults f.store + failed_of f };

    ghost lets_pass = { passes_of };

    ghost cuts = { λ f. V.cuts f.store };

    ghost droppable = { λ f. V.droppable f.store };

    ghost dropped_to = { λ f. V.dropped_to f.store };

    ghost reads_now = { λ f. V.reads_now f.store };

    ghost no_longer = { λ f. V.no_longer f.store };

    ghost tells_cuts = { λ f. V.tells_cuts f.store };

    ghost cuts_leave = { λ f. V.cuts_leave f.store };

    ghost counts_now = { λ f. V.counts_now f.store };

    ghost only_now = { λ f. V.only_now f.store };

    fn length(&mut self, file: FileName) -> Result<u64, StoreFault>
        ensures burns { Burns V.faults self.old self.new result }
        ensures bound { IfOk result (λ n. n < 2 ^ 62) }
        ensures length { IfOk result (λ n. IfSome (V.told (inner self.old)) (λ fs. n ≡ length (file_of file fs))) }
        ensures told { V.told (inner self.new) ≡ V.told (inner self.old) }
        ensures crash { (c : Files) → V.may_leave (inner self.new) c → V.may_leave (inner self.old) c }
        ensures time { Elapses (V.moment (inner self.old)) (V.moment (inner self.new)) (V.left_since (inner self.old)) (V.left_since (inner self.new)) (V.may_leave (inner self.new)) }
        ensures cause { HasCause (V.faults (inner self.old) + failed_of self.old) (V.faults (inner self.new) + failed_of self.new) result }
        ensures droppable { V.droppable (inner self.new) ≡ V.droppable (inner self.old) }
        ensures dropped { V.dropped_to (inner self.new) ≡ V.dropped_to (inner self.old) }
    {
        self.burn()?;
        self.store.length(file)
    }

    fn read_at(&mut self, file: FileName, at: u64, into: &mut [u8]) -> Result<usize, StoreFault>
        ensures burns { Burns V.faults self.old self.new result }
        ensures count { IfOk result (λ n. n ≤ length into.old) }
        ensures bytes { IfOk result (λ n. IfSome (V.told (inner self.old)) (λ fs. ReadsAt (file_of file fs) at into.old n into.new)) }
        ensures told { V.told (inner self.new) ≡ V.told (inner self.old) }
        ensures crash { (c : Files) → V.may_leave (inner self.new) c → V.may_leave (inner self.old) c }
        ensures time { Elapses (V.moment (inner self.old)) (V.moment (inner self.new)) (V.left_since (inner self.old)) (V.left_since (inner self.new)) (V.may_leave (inner self.new)) }
        ensures cause { HasCause (V.faults (inner self.old) + failed_of self.old) (V.faults (inner self.new) + failed_of self.new) result }
        ensures droppable { V.droppable (inner self.new) ≡ V.droppable (inner self.old) }
        ensures dropped { V.dropped_to (inner self.new) ≡ V.dropped_to (inner self.old) }
    {
        self.burn()?;
        self.store.read_at(file, at, into)
    }

    fn write_at(&mut self, file: FileName, at: u64, bytes: &[u8]) -> Result<(), StoreFault>
        requires { IfSome (V.told (inner self.old)) (λ fs. at ≤ length (file_of file fs)) }
        ensures burns { Burns V.faults self.old self.new result }
        ensures tells { is_some (V.told (inner self.new)) ≡ is_some (V.told (inner self.old)) }
        ensures written { OnOk result (HoldsIn file at bytes.now (V.told (inner self.old)) (V.told (inner self.new))) }
        ensures torn { TornTold file at (length bytes.now) (V.told (inner self.old)) (V.told (inner self.new)) }
        ensures crash { Follows (TornIn file at (length bytes.now)) (V.may_leave (inner self.old)) (V.may_leave (inner self.new)) }
        ensures time { Elapses (V.moment (inner self.old)) (V.moment (inner self.new)) (V.left_since (inner self.old)) (V.left_since (inner self.new)) (V.may_leave (inner self.new)) }
        ensures cause { HasCause (V.faults (inner self.old) + failed_of self.old) (V.faults (inner self.new) + failed_of self.new) result }
        ensures droppable { IfSome (V.told (inner self.old)) (λ fs. LogStays (length fs.log) (V.droppable (inner self.old)) (V.droppable (inner self.new))) }
        ensures dropped { V.dropped_to (inner self.new) ≡ V.dropped_to (inner self.old) }
    {
        self.burn()?;
        self.store.write_at(file, at, bytes)
    }

    fn sync(&mut self, file: FileName) -> Result<(), StoreFault>
        ensures burns { Burns V.faults self.old self.new result }
        ensures durable { OnOk result (IfSome (V.told (inner self.old)) (λ fs. (c : Files) → V.may_leave (inner self.new) c → file_of file c ≡ file_of file fs)) }
        ensures told { V.told (inner self.new) ≡ V.told (inner self.old) }
        ensures crash { (c : Files) → V.may_leave (inner self.new) c → V.may_leave (inner self.old) c }
        ensures time { Elapses (V.moment (inner self.old)) (V.moment (inner self.new)) (V.left_since (inner self.old)) (V.left_since (inner self.new)) (V.may_leave (inner self.new)) }
        ensures cause { HasCause (V.faults (inner self.old) + failed_of self.old) (V.faults (inner self.new) + failed_of self.new) result }
        ensures droppable { V.droppable (inner self.new) ≡ V.droppable (inner self.old) }
        ensures dropped { V.dropped_to (inner self.new) ≡ V.dropped_to (inner self.old) }
    {
        self.burn()?;
        self.store.sync(file)
    }

    fn cut(&mut self, choice: u32) -> Result<(), StoreFault>
        ensures passed { PassesOn V.faults self.old self.new result }
        ensures tells { is_some (V.told (inner self.new)) ≡ is_some (V.told (inner self.old)) }
        ensures chosen { OnOk result (V.told (inner self.new) ≡ V.cuts (inner self.old) choice) }
        ensures cut { OnOk result (IfSome (V.told (inner self.new)) (λ fs. V.may_leave (inner self.old) fs)) }
        ensures durable { OnOk result (IfSome (V.told (inner self.new)) (λ fs. Only fs (V.may_leave (inner self.new)))) }
        ensures crash { (c : Files) → V.may_leave (inner self.new) c → V.may_leave (inner self.old) c }
        ensures time { Elapses (V.moment (inner self.old)) (V.moment (inner self.new)) (V.left_since (inner self.old)) (V.left_since (inner self.new)) (V.may_leave (inner self.new)) }
        ensures cause { HasCause (V.faults (inner self.old) + failed_of self.old) (V.faults (inner self.new) + failed_of self.new) result }
    {
        self.use_up();
        self.store.cut(choice)
    }

    fn drop_log(&mut self, below: u64) -> Result<u64, StoreFault>
        requires { IfSome (V.told (inner self.old)) (λ fs. below < length fs.log) }
        ensures burns { Burns V.faults self.old self.new result }
        ensures count { IfOk result (λ n. n ≡ V.droppable (inner self.old) below) }
        ensures none_left { OnOk result (V.droppable (inner self.new) below ≡ 0) }
        ensures fewer { (place : ℕ) → V.droppable (inner self.new) place ≤ V.droppable (inner self.old) place }
        ensures reaches { IfOk result (λ n. n ≤ V.dropped_to (inner self.new)) }
        ensures further { V.dropped_to (inner self.old) ≤ V.dropped_to (inner self.new) }
        ensures within { V.dropped_to (inner self.new) ≤ max (V.dropped_to (inner self.old)) below }
        ensures idle { V.droppable (inner self.old) below ≡ 0 → IsIdle (V.told (inner self.old)) (V.told (inner self.new)) (V.may_leave (inner self.old)) (V.may_leave (inner self.new)) }
        ensures durable { OnOk result (0 < V.droppable (inner self.old) below → IsSynced FileName.Log (V.told (inner self.new)) (V.may_leave (inner self.new))) }
        ensures dropped { DroppedTold below (V.told (inner self.old)) (V.told (inner self.new)) }
        ensures kept { DroppedTold (V.dropped_to (inner self.new)) (V.told (inner self.old)) (V.told (inner self.new)) }
        ensures crash { Follows (DroppedIn below) (V.may_leave (inner self.old)) (V.may_leave (inner self.new)) }
        ensures time { Elapses (V.moment (inner self.old)) (V.moment (inner self.new)) (V.left_since (inner self.old)) (V.left_since (inner self.new)) (After (DroppedIn below) (V.may_leave (inner self.old))) }
        ensures cause { HasCause (V.faults (inner self.old) + failed_of self.old) (V.faults (inner self.new) + failed_of self.new) result }
    {
        self.burn()?;
        self.store.drop_log(below)
    }

    fn first_kept(&mut self) -> Result<u64, StoreFault>
        ensures burns { Burns V.faults self.old self.new result }
        ensures place { IfOk result (λ n. n ≡ V.dropped_to (inner self.old)) }
        ensures told { V.told (inner self.new) ≡ V.told (inner self.old) }
        ensures crash { (c : Files) → V.may_leave (inner self.new) c → V.may_leave (inner self.old) c }
        ensures time { Elapses (V.moment (inner self.old)) (V.moment (inner self.new)) (V.left_since (inner self.old)) (V.left_since (inner self.new)) (V.may_leave (inner self.new)) }
        ensures cause { HasCause (V.faults (inner self.old) + failed_of self.old) (V.faults (inner self.new) + failed_of self.new) result }
        ensures droppable { V.droppable (inner self.new) ≡ V.droppable (inner self.old) }
        ensures dropped { V.dropped_to (inner self.new) ≡ V.dropped_to (inner self.old) }
    {
        self.burn()?;
        self.store.first_kept()
    }
}
