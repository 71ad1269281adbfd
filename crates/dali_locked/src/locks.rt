//! The locks, and how a client waits for what stands behind them.
ghost use Rattle.std.specs.Prelude.{◌≡◌, ◌≢◌, ◌<◌, ◌≤◌, [], true, false, None, Some, OnErr, IfOk, IfErr, IfSome, OnOk, vec_len, vec_capacity};
ghost use Rattle.dali_system.specs.UnderWay.{all_written, words_left};
ghost use Rattle.dali_calls.specs.Steps.{region_in};
ghost use Rattle.dali_calls.specs.Plans.{is_back, plan_next, with_operation, IsWhole};
ghost use Rattle.dali_locked.specs.Regions.{IsAt, IsAmid, record_on};
ghost use Rattle.dali_record.specs.declared.records.Record.TheVariants.{Ended};
ghost use Rattle.dali_calls.specs.Stepwise.Stepwise.{IsNew};
ghost use Rattle.dali_locked.specs.Sights.{HasLogged, Knows};
ghost use Rattle.dali_locked.specs.SystemSteps.{Asking, Driving, GoesOn, HasGone, HasJust, MayEnd};
ghost use Rattle.dali_locked.specs.declared.locks.RegionError.TheVariants.{NoRegion, Logged};
ghost use Rattle.dali_locked.specs.declared.error.LockedError.TheVariants.{Unfit};
ghost use Rattle.dali_locked.specs.Begun.{FromEach};
ghost use Rattle.dali_locked.specs.Unlocked.{StraysOn, LatchesOn, UpdatesOn, CommitsOn, GoesBackOn, RefusedOn, LeftOn};
ghost use Rattle.dali_locked.specs.Vaults.{IsDurable, IsLogged, SeesFault};

use crate::client::ClientNote;
use crate::error::LockedError;
use crate::history::{Beginning, Home, Mark, OfRound};
use crate::region::LockedRegion;
use crate::system::LockedSystem;
use crate::vault::{FlushError, LockedVault, VaultBeginning, make_durable};
use dali_calls::Plan;
use dali_locks::LockAnswer;
use dali_notes::{Note, Notes};
use dali_region::{LatchError, Receipt, Region};
use dali_schedule::Schedule;
use dali_store::Store;
use dali_system::SystemError;
use std::marker::Model;
use std::sync::{Condvar, Mutex, Wait};
use thiserror::Error;

/// A region's lock, with the news that an operation has ended there.
#[derive(Drop)]
pub struct RegionLock<B: Beginning, H: Home> {
    pub(crate) lock: Mutex<LockedRegion<B, H>>,
    pub(crate) freed: Condvar,
}

impl<B: Beginning, H: Home> RegionLock<B, H> {
    /// A lock over the region.
    pub fn new(region: LockedRegion<B, H>) -> RegionLock<B, H> {
        RegionLock {
            lock: Mutex::new(region),
            freed: Condvar::new(),
        }
    }
}

/// Why a step on a region isn't made.
#[derive(Clone, Copy, Debug, PartialEq, Eq, Error)]
pub enum RegionError {
    /// There is no region with this number. Nothing has changed.
    #[error("no such region")]
    NoRegion,
    /// The region isn't latched. Nothing has changed.
    #[error("{cause}")]
    Latch { cause: LatchError },
    /// The operation isn't logged.
    #[error("{cause}")]
    Logged { cause: LockedError },
}

/// What the clients of a round share: each value behind a lock of its own. Who takes several takes the vault's first, then a region's,
/// then the system's. A client comes to its schedule before each step, with no lock in hand.
#[derive(Drop)]
pub struct Locks<B: Beginning + VaultBeginning<V>, H: Home, V: Store, S: Schedule> {
    pub(crate) notes: Notes<Mark, OfRound<B>>,
    pub(crate) schedule: S,
    pub(crate) system: Mutex<LockedSystem<B, H>>,
    // a transaction has ended, its client has died, its claim is given back, or the engine is stopped
    pub(crate) ended: Condvar,
    pub(crate) regions: Vec<RegionLock<B, H>>,
    pub(crate) vault: Mutex<LockedVault<B, H, V>>,
    // what the core's regions and the notes stood in, empty
    pub(crate) rooms: (Vec<Region>, Vec<Note<Mark, OfRound<B>>>),
}

impl<B: Beginning + VaultBeginning<V>, H: Home, V: Store, S: Schedule> Model for Locks<B, H, V, S> {
    ghost use Rattle.std.specs.Prelude.{◌≡◌, ◌≤◌, [], vec_len, vec_capacity};
    ghost use Rattle.dali_notes.specs.History.{Place};

    ghost Value = { Place };

    ghost view = { λ l. l.notes };

    ghost invariant = { λ l. (l.notes.table ≡ H.table) × (vec_len l.regions ≡ B.begun.count)
        × (l.rooms.0.items ≡ []) × (B.begun.count ≤ vec_capacity l.rooms.0) × (l.rooms.1.items ≡ []) × (l.notes.count ≤ vec_capacity l.rooms.1) };
}

impl<B: Beginning + VaultBeginning<V>, H: Home, V: Store, S: Schedule> Locks<B, H, V, S> {
    /// The locks of a round, over values whose notes are of this history: a lock for each region, the last one first. `rooms`: with room for
    /// the regions and for all notes, which come back when the round ends.
    pub fn new(
        notes: Notes<Mark, OfRound<B>>,
        schedule: S,
        system: LockedSystem<B, H>,
        regions: Vec<RegionLock<B, H>>,
        vault: LockedVault<B, H, V>,
        rooms: (Vec<Region>, Vec<Note<Mark, OfRound<B>>>),
    ) -> Locks<B, H, V, S>
        requires home { notes.table ≡ H.table }
        requires each { vec_len regions ≡ B.begun.count }
        requires none { (rooms.0.items ≡ []) × (rooms.1.items ≡ []) }
        requires room { (B.begun.count ≤ vec_capacity rooms.0) × (notes.count ≤ vec_capacity rooms.1) }
        ensures { result ≡ notes }
    {
        Locks {
            notes,
            schedule,
            system: Mutex::new(system),
            ended: Condvar::new(),
            regions,
            vault: Mutex::new(vault),
            rooms,
        }
    }

    /// By which its clients go on. Each has the number `ClientNote::seat` there.
    pub fn schedule(&self) -> &S {
        &self.schedule
    }

    /// The client asks for the lock of its new plan's call, as `LockedSystem::request`, and waits while a younger transaction has it: so
    /// the answer is `Granted` or `Busy`.
    pub fn request<R: Wait>(
        &self,
        rt: &R,
        client: &mut ClientNote<B, H>,
        plan: &Plan,
    ) -> Result<LockAnswer, SystemError>
        requires fresh { IsNew plan.now }
        requires asks { Knows B.begun (Asking client.old.id plan.now) client.old }
        requires only { Knows B.begun (HasJust client.old.id (Some plan.now.txn) None) client.old }
        ensures goes { IfOk result (λ a. Knows B.begun (GoesOn a client.old.id plan.now) client.new) }
        ensures err { OnErr result (client.new ≡ client.old) }
    {
        for _ in rt.forever() {
            self.schedule.step(rt, client.seat());
            let mut system = self.system.lock(rt);
            let answer = system.request(&self.notes, client, plan)?;
            let LockAnswer::Wait { .. } = answer else {
                return Ok(answer);
            };
            self.schedule.pause(rt, client.seat(), system, &self.ended);
        }
        unreachable!()
    }

    /// The client's transaction ends, as `LockedSystem::ended`: then its locks are free, and who waits for one is woken.
    pub fn end<R: Wait>(
        &self,
        rt: &R,
        client: &mut ClientNote<B, H>,
        txn: u64,
    ) -> Result<Receipt, SystemError>
        requires may { Knows B.begun (MayEnd client.old.id txn) client.old }
        ensures gone { OnOk result (Knows B.begun (HasGone txn) client.new) }
        ensures receipt { IfOk result (λ given. Knows B.begun (HasLogged given.number (Ended txn)) client.new) }
        ensures err { OnErr result (client.new ≡ client.old) }
    {
        self.schedule.step(rt, client.seat());
        let receipt = self.system.lock(rt).ended(&self.notes, client, txn)?;
        self.ended.notify_all();
        Ok(receipt)
    }

    /// Answers once the record with this number is flushed, as `make_durable`. Where the store fails who waits for a key is woken.
    pub fn flush<R: Wait>(
        &self,
        rt: &R,
        client: &mut ClientNote<B, H>,
        number: u64,
    ) -> Result<(), FlushError>
        requires logged { Knows B.begun (IsLogged number) client.old }
        ensures ok { OnOk result (Knows B.begun (IsDurable number) client.new) }
        ensures err { IfErr result (λ e. SeesFault B.begun e client.old client.new) }
    {
        self.schedule.step(rt, client.seat());
        let flushed = make_durable(rt, &self.notes, &self.vault, &self.system, client, number);
        if flushed.is_err() {
            self.ended.notify_all();
        }
        flushed
    }

    // The lock of the region with this number. The last region's lock stands first.
    pub(crate) fn region_lock(&self, region: u32) -> Option<&RegionLock<B, H>>
        ensures some { IfSome result (λ lock. region < B.begun.count) }
        ensures none { result ≡ None → B.begun.count ≤ region }
    {
        let last = self.regions.len().checked_sub(1)?;
        self.regions.get(last.checked_sub(region as usize)?)
    }

    /// The client latches the region for its plan's next operation, as `LockedRegion::latch`, and waits while another one's operation is
    /// under way there. Answers the number of the step, by which it comes back.
    pub fn latch<R: Wait>(
        &self,
        rt: &R,
        client: &mut ClientNote<B, H>,
        plan: &mut Plan,
        region: u32,
        precheck: bool,
    ) -> Result<u64, RegionError>
        requires precheck { precheck ≡ B.begun.precheck }
        requires wants { region_in (plan_next plan.old) ≡ Some region }
        requires closed { plan.old.operation ≡ None }
        requires drives { Knows B.begun (Driving client.old.id plan.old) client.old }
        ensures at { IfOk result (λ step. IsAt region step plan.new.operation client.new.seen) }
        ensures amid { OnOk result (Knows B.begun (IsAmid client.old.id region plan.new) client.new) }
        ensures same { (plan.new ≡ with_operation plan.old plan.new.operation) × (client.new.id ≡ client.old.id) }
        ensures whole { IsWhole plan.old → OnOk result (IsWhole plan.new) }
        ensures latches { OnOk result (LatchesOn B.begun client.old plan.old region plan.new client.new) }
        ensures refused { IfErr result (RefusedOn B.begun plan.old) }
        ensures err { OnErr result ((plan.new ≡ plan.old) × (client.new ≡ client.old)) }
        ensures none { result ≡ Err NoRegion → B.begun.count ≤ region }
        ensures beyond { B.begun.count ≤ region → result ≡ Err NoRegion }
    {
        let Some(lock) = self.region_lock(region) else {
            return Err(RegionError::NoRegion);
        };
        for _ in rt.forever() {
            self.schedule.step(rt, client.seat());
            let mut held = lock.lock.lock(rt);
            if held.number() == region && held.is_free() {
                return match held.latch(&self.notes, client, plan, precheck) {
                    Ok(step) => Ok(step),
                    Err(cause) => Err(RegionError::Latch { cause }),
                };
            }
            self.schedule.pause(rt, client.seat(), held, &lock.freed);
        }
        unreachable!()
    }

    /// The client writes the next word of its plan's operation, which stands in the region behind the step `at`, as `LockedRegion::update`.
    pub fn update<R: Wait>(
        &self,
        rt: &R,
        client: &mut ClientNote<B, H>,
        plan: &mut Plan,
        region: u32,
        at: u64,
    ) -> Result<u64, RegionError>
        requires stood { IsAt region at plan.old.operation client.old.seen }
        requires amid { Knows B.begun (IsAmid client.old.id region plan.old) client.old }
        requires whole { IsWhole plan.old }
        requires left { all_written plan.old.operation ≡ false }
        ensures at { IfOk result (λ step. IsAt region step plan.new.operation client.new.seen) }
        ensures amid { OnOk result (Knows B.begun (IsAmid client.old.id region plan.new) client.new) }
        ensures same { (plan.new ≡ with_operation plan.old plan.new.operation) × (client.new.id ≡ client.old.id) }
        ensures whole { IsWhole plan.new }
        ensures fewer { OnOk result (words_left plan.new.operation < words_left plan.old.operation) }
        ensures writes { OnOk result (UpdatesOn B.begun client.old plan.old region plan.new client.new) }
        ensures err { IfErr result (λ e. (e ≡ NoRegion) × (B.begun.count ≤ region) × (plan.new ≡ plan.old) × (client.new ≡ client.old)) }
        ensures beyond { B.begun.count ≤ region → result ≡ Err NoRegion }
    {
        let Some(lock) = self.region_lock(region) else {
            return Err(RegionError::NoRegion);
        };
        for _ in rt.forever() {
            self.schedule.step(rt, client.seat());
            let mut held = lock.lock.lock(rt);
            if held.number() == region && held.steps() == at && at < u64::MAX {
                return Ok(held.update(&self.notes, client, plan, at));
            }
            self.schedule.pause(rt, client.seat(), held, &lock.freed);
        }
        unreachable!()
    }

    /// The client logs its plan's operation, all of whose words are written, as `LockedRegion::commit`; and wakes who waits for the region.
    pub fn commit<R: Wait>(
        &self,
        rt: &R,
        client: &mut ClientNote<B, H>,
        plan: &mut Plan,
        region: u32,
        at: u64,
    ) -> Result<Receipt, RegionError>
        requires stood { IsAt region at plan.old.operation client.old.seen }
        requires amid { Knows B.begun (IsAmid client.old.id region plan.old) client.old }
        requires whole { IsWhole plan.old }
        requires wants { region_in (plan_next plan.old) ≡ Some region }
        requires written { all_written plan.old.operation ≡ true }
        ensures drives { OnOk result (Knows B.begun (Driving client.old.id plan.new) client.new) }
        ensures receipt { IfOk result (λ receipt. Knows B.begun (HasLogged receipt.number (record_on (is_back plan.old) plan.old.txn plan.old.operation)) client.new) }
        ensures logs { OnOk result (CommitsOn B.begun client.old plan.old region plan.new client.new) }
        ensures err { IfErr result (λ e. LeftOn e (GoesBackOn B.begun client.old plan.old region plan.new client.new) ((client.new ≡ client.old) × (plan.new ≡ plan.old))) }
        ensures unfit { result ≡ Err (Logged Unfit) → FromEach B.begun (λ s p. ⊥) }
        ensures none { result ≡ Err NoRegion → B.begun.count ≤ region }
        ensures beyond { B.begun.count ≤ region → result ≡ Err NoRegion }
    {
        let Some(lock) = self.region_lock(region) else {
            return Err(RegionError::NoRegion);
        };
        for _ in rt.forever() {
            self.schedule.step(rt, client.seat());
            let mut held = lock.lock.lock(rt);
            if held.number() == region && held.steps() == at && at < u64::MAX {
                let logged = {
                    let mut system = self.system.lock(rt);
                    held.commit(&self.notes, client, &mut system, plan, at)
                };
                drop(held);
                lock.freed.notify_all();
                match logged {
                    Ok(receipt) => return Ok(receipt),
                    Err(cause) => return Err(RegionError::Logged { cause }),
                }
            }
            self.schedule.pause(rt, client.seat(), held, &lock.freed);
        }
        unreachable!()
    }

    /// A stray write of the client damages a word of the region, as `LockedRegion::poke`. The word's number is below 64, and the mask not 0.
    pub fn poke<R: Wait>(
        &self,
        rt: &R,
        client: &mut ClientNote<B, H>,
        region: u32,
        word: u8,
        mask: u64,
    ) -> Result<(), RegionError>
        requires in_range { word < 64 }
        requires changes { mask ≢ 0 }
        ensures id { client.new.id ≡ client.old.id }
        ensures strays { OnOk result (StraysOn B.begun client.old region word mask client.new) }
        ensures err { IfErr result (λ e. (e ≡ NoRegion) × (B.begun.count ≤ region) × (client.new ≡ client.old)) }
        ensures beyond { B.begun.count ≤ region → result ≡ Err NoRegion }
    {
        let Some(lock) = self.region_lock(region) else {
            return Err(RegionError::NoRegion);
        };
        for _ in rt.forever() {
            self.schedule.step(rt, client.seat());
            let mut held = lock.lock.lock(rt);
            if held.number() == region {
                held.poke(&self.notes, client, word, mask);
                return Ok(());
            }
            self.schedule.pause(rt, client.seat(), held, &lock.freed);
        }
        unreachable!()
    }
}
