//! A client dies in an operation on a region, and who has claimed its transaction takes back what it left there.
ghost use Rattle.std.specs.Prelude.{◌≡◌, ◌+◌, ◌<◌, true, false, [], ◌∷◌, Some, None, OnOk, OnErr, IfOk, IfErr};
ghost use Rattle.dali_region.specs.State.{dead, taken_back};
ghost use Rattle.dali_att.specs.declared.state.State.TheVariants.{Dead};
ghost use Rattle.dali_runs.specs.Steps.{in_state};
ghost use Rattle.dali_transcripts.specs.World.{is_claimed_in};
ghost use Rattle.dali_calls.specs.Plans.{IsWhole, is_back};
ghost use Rattle.dali_notes.specs.History.{Added, AllMay, MayAdd};
ghost use Rattle.dali_locked.specs.Begun.{FromEach, may_add};
ghost use Rattle.dali_locked.specs.Sights.{Knows, client_sight, system_sight, region_sight};
ghost use Rattle.dali_locked.specs.Regions.{IsAt, IsAmid, is_live as is_live_in};
ghost use Rattle.dali_locked.specs.SystemSteps.{Cleaning, Keeps, TakesClaim, LetsClaim, StaysAll, StaysBut, MayGiveBack};
ghost use Rattle.dali_locked.specs.Dying.{dies_item, gives_item, recovered_item, HasDied, IsIdle, left_in, is_left as is_left_on};
ghost use Rattle.dali_locked.specs.declared.error.LockedError.TheVariants.{Unfit};

use crate::client::ClientNote;
use crate::error::LockedError;
use crate::history::{Beginning, Home, Mark, OfRound};
use crate::locks::{Locks, RegionError};
use crate::region::LockedRegion;
use crate::system::LockedSystem;
use crate::vault::VaultBeginning;
use dali_att::State;
use dali_calls::Plan;
use dali_notes::{Note, Notes, Tells};
use dali_region::{Hold, Region};
use dali_schedule::Schedule;
use dali_store::Store;
use dali_system::{NotDead, System};
use std::marker::{Brand, PhantomData};
use std::sync::Wait;

// What a step tells. Each call picks it.
trait DeathItem {
    ghost use Rattle.dali_concurrent.specs.Told.{Item};

    ghost item: { Item };
}

impl DeathItem for Brand {
    ghost use Rattle.dali_locked.specs.Begun.{no_item};

    ghost item = { no_item };
}

struct OfDeath<D> {
    of: PhantomData<D>,
}

impl<X, D: DeathItem> Tells<X, Mark> for OfDeath<D> {
    ghost entry = { λ x. D.item };
}

// Client and region tell what was taken back: by the client's number and the region's.
fn sign_recovery<B: Beginning, D: DeathItem>(
    notes: &Notes<Mark, OfRound<B>>,
    client: &mut Note<Mark, OfRound<B>>,
    note: &mut Note<Mark, OfRound<B>>,
    about: &(u32, u32),
    region: &Region,
)
    requires tables { (client.old.table ≡ notes.now.table) × (note.old.table ≡ notes.now.table) }
    requires may { MayAdd (may_add B.begun) (client.old ∷ note.old ∷ []) D.item }
    ensures client { (client.new.number ≡ client.old.number) × (client.new.table ≡ client.old.table) }
    ensures region { note.new ≡ record note.old { seen = client.new.seen } }
    ensures added { Added (client.old ∷ note.old ∷ []) D.item client.new.seen }
    ensures all { AllMay (may_add B.begun) client.new.seen }
{
    let _ = about;
    notes.add_both::<Region, OfDeath<D>>(client, note, region);
}

// With the system, which the step has left so: by the client's number, the region's and the transaction's.
fn sign_death<B: Beginning, D: DeathItem>(
    notes: &Notes<Mark, OfRound<B>>,
    client: &mut Note<Mark, OfRound<B>>,
    system: &mut Note<Mark, OfRound<B>>,
    note: &mut Note<Mark, OfRound<B>>,
    about: &(u32, u32, u64),
    region: &Region,
    after: &System,
)
    requires tables { (client.old.table ≡ notes.now.table) × (system.old.table ≡ notes.now.table) × (note.old.table ≡ notes.now.table) }
    requires may { MayAdd (may_add B.begun) (client.old ∷ system.old ∷ note.old ∷ []) D.item }
    ensures client { (client.new.number ≡ client.old.number) × (client.new.table ≡ client.old.table) }
    ensures system { system.new ≡ record system.old { seen = client.new.seen } }
    ensures region { note.new ≡ record note.old { seen = client.new.seen } }
    ensures added { Added (client.old ∷ system.old ∷ note.old ∷ []) D.item client.new.seen }
    ensures all { AllMay (may_add B.begun) client.new.seen }
{
    let _ = about;
    let _ = after;
    notes.add_three::<Region, OfDeath<D>>(client, system, note, region);
}

// Whether the transaction that stands so is live.
fn is_live(state: Option<State>) -> bool
    ensures { result ≡ is_live_in state }
{
    matches!(state, Some(State::Live))
}

// Whether it is claimed.
fn is_claimed(state: Option<State>) -> bool
    ensures { result ≡ is_claimed_in state }
{
    matches!(state, Some(State::Cleaning { .. }))
}

// Whether it is a dead hold of this transaction.
fn is_left(hold: Option<Hold>, txn: u64) -> bool
    ensures { result ≡ left_in txn hold }
{
    match hold {
        Some(hold) => hold.dead && hold.txn == txn,
        None => false,
    }
}

impl<B: Beginning, H: Home> LockedRegion<B, H> {
    /// The client dies in its plan's operation, onward on its call, which stood here behind the step `at`, the last one. Its
    /// words stay written, the region is held by a dead client, and the transaction is dead and names the region. It takes no
    /// memory. `Unfit` never comes: it stands for a transaction that isn't live; then nothing has changed.
    pub fn die(
        &mut self,
        notes: &Notes<Mark, OfRound<B>>,
        client: &mut ClientNote<B, H>,
        system: &mut LockedSystem<B, H>,
        plan: &Plan,
        at: u64,
    ) -> Result<(), LockedError>
        requires home { notes.now.table ≡ H.table }
        requires last { at ≡ self.old.steps }
        requires stood { IsAt self.old.number at plan.now.operation client.old.seen }
        requires amid { Knows B.begun (IsAmid client.old.id self.old.number plan.now) client.old }
        requires whole { IsWhole plan.now }
        requires onward { is_back plan.now ≡ false }
        requires room { self.old.steps < 18446744073709551615 }
        ensures region { OnOk result (self.new.region ≡ dead self.old.region) }
        ensures same { (self.new.number ≡ self.old.number) × (self.new.audits ≡ self.old.audits) }
        ensures steps { OnOk result (self.new.steps ≡ self.old.steps + 1) }
        ensures system { OnOk result (system.new.served ≡ record system.old.served { state = in_state system.old.served.state plan.now.txn (Dead (Some self.old.number)) }) }
        ensures tells { OnOk result (Added (client_sight B.begun client.old ∷ system_sight B.begun system.old ∷ region_sight B.begun self.old ∷ [])
            (dies_item client.old.id self.old.number plan.now.txn self.new.region system.new.served.state) client.new.seen) }
        ensures sees { OnOk result ((client.new.id ≡ client.old.id) × (system.new.seen ≡ client.new.seen) × (self.new.seen ≡ client.new.seen)) }
        ensures dies { OnOk result (Knows B.begun (HasDied plan.now.txn self.old.number) client.new) }
        ensures keeps { Keeps B.begun client.old client.new }
        ensures beside { OnOk result (StaysBut B.begun client.old plan.now.txn client.new) }
        ensures err { OnErr result ((client.new ≡ client.old) × (system.new.served ≡ system.old.served)
            × (self.new.region ≡ self.old.region) × (self.new.steps ≡ self.old.steps)) }
        ensures unfit { IfErr result (λ e. (e ≡ Unfit) × FromEach B.begun (λ s p. ⊥)) }
    {
        let _ = at;
        notes.meet(&mut self.note, &mut client.note);
        notes.meet(&mut system.note, &mut client.note);
        let txn = plan.txn();
        let lives = is_live(system.system.state(txn));
        if !lives {
            return Err(LockedError::Unfit);
        }
        self.region.mark_dead();
        system.system.mark_dead(txn, Some(self.number));
        sign_death::<B, Brand>(
            notes,
            &mut client.note,
            &mut system.note,
            &mut self.note,
            &(client.id, self.number, txn),
            &self.region,
            &system.system,
        );
        self.steps += 1;
        Ok(())
    }

    /// Whether a dead client's hold of this transaction stands on it.
    pub fn is_left(&self, txn: u64) -> bool
        ensures { result ≡ is_left_on txn self.now.region }
    {
        is_left(self.region.hold(), txn)
    }

    /// What a dead client left on it is taken back, by who has claimed its transaction: each word that its operation has
    /// written has its value from before again, and the region is free. False, with nothing changed, where its hold doesn't
    /// stand here any more. It takes no memory.
    pub fn recover(
        &mut self,
        notes: &Notes<Mark, OfRound<B>>,
        client: &mut ClientNote<B, H>,
        txn: u64,
    ) -> bool
        requires home { notes.now.table ≡ H.table }
        requires cleans { Knows B.begun (Cleaning client.old.id txn (Some self.old.number)) client.old }
        requires idle { Knows B.begun (IsIdle txn) client.old }
        requires room { self.old.steps < 18446744073709551615 }
        ensures was { result ≡ is_left_on txn self.old.region }
        ensures region { result ≡ true → self.new.region ≡ taken_back self.old.region }
        ensures same { (self.new.number ≡ self.old.number) × (self.new.audits ≡ self.old.audits) × (client.new.id ≡ client.old.id) }
        ensures steps { result ≡ true → self.new.steps ≡ self.old.steps + 1 }
        ensures tells { result ≡ true → Added (client_sight B.begun client.old ∷ region_sight B.begun self.old ∷ []) (recovered_item client.old.id self.old.number self.new.region) client.new.seen }
        ensures sees { result ≡ true → self.new.seen ≡ client.new.seen }
        ensures still { result ≡ false → self.new ≡ self.old }
        ensures cleans { Knows B.begun (Cleaning client.old.id txn (Some self.old.number)) client.new }
        ensures clear { Knows B.begun (MayGiveBack client.old.id txn) client.new }
        ensures keeps { Keeps B.begun client.old client.new }
        ensures beside { StaysAll B.begun client.old client.new }
    {
        notes.meet(&mut client.note, &mut self.note);
        let left = is_left(self.region.hold(), txn);
        if !left {
            return false;
        }
        self.region.take_back();
        sign_recovery::<B, Brand>(
            notes,
            &mut client.note,
            &mut self.note,
            &(client.id, self.number),
            &self.region,
        );
        self.steps += 1;
        true
    }

    /// The client gives its claim back of a transaction whose dead client's operation latches this region still: the
    /// transaction is dead again, and names the region. It takes no memory. `Unfit` never comes: it stands for a transaction
    /// that isn't claimed; then nothing has changed.
    pub fn give_back(
        &mut self,
        notes: &Notes<Mark, OfRound<B>>,
        client: &mut ClientNote<B, H>,
        system: &mut LockedSystem<B, H>,
        txn: u64,
    ) -> Result<(), LockedError>
        requires home { notes.now.table ≡ H.table }
        requires cleans { Knows B.begun (Cleaning client.old.id txn (Some self.old.number)) client.old }
        requires idle { Knows B.begun (IsIdle txn) client.old }
        requires left { is_left_on txn self.old.region ≡ true }
        ensures region { self.new ≡ record self.old { seen = self.new.seen } }
        ensures system { OnOk result (system.new.served ≡ record system.old.served { state = in_state system.old.served.state txn (Dead (Some self.old.number)) }) }
        ensures tells { OnOk result (Added (client_sight B.begun client.old ∷ system_sight B.begun system.old ∷ region_sight B.begun self.old ∷ [])
            (gives_item client.old.id self.old.number txn system.new.served.state) client.new.seen) }
        ensures sees { OnOk result ((client.new.id ≡ client.old.id) × (system.new.seen ≡ client.new.seen) × (self.new.seen ≡ client.new.seen)) }
        ensures lets { OnOk result (LetsClaim B.begun client.old txn client.new) }
        ensures beside { OnOk result (StaysBut B.begun client.old txn client.new) }
        ensures err { OnErr result ((client.new ≡ client.old) × (system.new.served ≡ system.old.served)) }
        ensures unfit { IfErr result (λ e. (e ≡ Unfit) × FromEach B.begun (λ s p. ⊥)) }
    {
        notes.meet(&mut system.note, &mut client.note);
        let claimed = is_claimed(system.system.state(txn));
        if !claimed {
            return Err(LockedError::Unfit);
        }
        let latched = Some(self.number);
        system.system.mark_dead(txn, latched);
        sign_death::<B, Brand>(
            notes,
            &mut client.note,
            &mut system.note,
            &mut self.note,
            &(client.id, self.number, txn),
            &self.region,
            &system.system,
        );
        Ok(())
    }
}

// The client gives its claim back, with this region latched still or not.
fn give_up<B: Beginning, H: Home>(
    notes: &Notes<Mark, OfRound<B>>,
    client: &mut ClientNote<B, H>,
    held: &mut LockedRegion<B, H>,
    system: &mut LockedSystem<B, H>,
    txn: u64,
) -> Result<(), LockedError>
    requires home { notes.now.table ≡ H.table }
    requires cleans { Knows B.begun (Cleaning client.old.id txn (Some held.old.number)) client.old }
    requires idle { Knows B.begun (IsIdle txn) client.old }
    requires room { held.old.steps < 18446744073709551615 }
    ensures lets { OnOk result (LetsClaim B.begun client.old txn client.new) }
    ensures unfit { IfErr result (λ e. FromEach B.begun (λ s p. ⊥)) }
{
    if held.is_left(txn) {
        return match held.give_back(notes, client, system, txn) {
            Ok(()) => Ok(()),
            Err(cause) => Err(cause),
        };
    }
    held.recover(notes, client, txn);
    match system.give_back(notes, client, txn) {
        Ok(()) => Ok(()),
        Err(cause) => Err(cause),
    }
}

impl<B: Beginning + VaultBeginning<V>, H: Home, V: Store, S: Schedule> Locks<B, H, V, S> {
    /// The client dies in its plan's operation, which stands in the region behind the step `at`, as `LockedRegion::die`; and
    /// wakes who waits for the region or for one of its keys.
    pub fn die<R: Wait>(
        &self,
        rt: &R,
        client: &mut ClientNote<B, H>,
        plan: &Plan,
        region: u32,
        at: u64,
    ) -> Result<(), RegionError>
        requires stood { IsAt region at plan.now.operation client.old.seen }
        requires amid { Knows B.begun (IsAmid client.old.id region plan.now) client.old }
        requires whole { IsWhole plan.now }
        requires onward { is_back plan.now ≡ false }
        ensures dies { OnOk result (Knows B.begun (HasDied plan.now.txn region) client.new) }
        ensures keeps { Keeps B.begun client.old client.new }
        ensures id { client.new.id ≡ client.old.id }
        ensures err { OnErr result (client.new ≡ client.old) }
    {
        let Some(lock) = self.region_lock(region) else {
            return Err(RegionError::NoRegion);
        };
        for _ in rt.forever() {
            self.schedule.step(rt, client.seat());
            let mut held = lock.lock.lock(rt);
            if held.number() == region && held.steps() == at && at < u64::MAX {
                let died = {
                    let mut system = self.system.lock(rt);
                    held.die(&self.notes, client, &mut system, plan, at)
                };
                drop(held);
                lock.freed.notify_all();
                self.ended.notify_all();
                match died {
                    Ok(()) => return Ok(()),
                    Err(cause) => return Err(RegionError::Logged { cause }),
                }
            }
            self.schedule.pause(rt, client.seat(), held, &lock.freed);
        }
        unreachable!()
    }

    /// The client claims a dead transaction, as `LockedSystem::claim`. Answers the region that its client's operation latched,
    /// which is to be recovered first.
    pub fn claim<R: Wait>(
        &self,
        rt: &R,
        client: &mut ClientNote<B, H>,
        txn: u64,
    ) -> Result<Option<u32>, NotDead>
        ensures cleans { IfOk result (λ latched. Knows B.begun (Cleaning client.old.id txn latched) client.new) }
        ensures idle { OnOk result (Knows B.begun (IsIdle txn) client.new) }
        ensures clear { IfOk result (λ latched. latched ≡ None → Knows B.begun (MayGiveBack client.old.id txn) client.new) }
        ensures takes { OnOk result (TakesClaim B.begun client.old txn client.new) }
        ensures beside { OnOk result (StaysBut B.begun client.old txn client.new) }
        ensures id { client.new.id ≡ client.old.id }
        ensures err { OnErr result (client.new ≡ client.old) }
    {
        self.schedule.step(rt, client.seat());
        self.system.lock(rt).claim(&self.notes, client, txn)
    }

    /// What a dead client left on the region is taken back by who has claimed its transaction, as `LockedRegion::recover`; and
    /// who waits for the region is woken. Answers whether its hold still stood there.
    pub fn recover<R: Wait>(
        &self,
        rt: &R,
        client: &mut ClientNote<B, H>,
        txn: u64,
        region: u32,
    ) -> Result<bool, RegionError>
        requires cleans { Knows B.begun (Cleaning client.old.id txn (Some region)) client.old }
        requires idle { Knows B.begun (IsIdle txn) client.old }
        ensures cleans { Knows B.begun (Cleaning client.old.id txn (Some region)) client.new }
        ensures clear { OnOk result (Knows B.begun (MayGiveBack client.old.id txn) client.new) }
        ensures keeps { Keeps B.begun client.old client.new }
        ensures id { client.new.id ≡ client.old.id }
        ensures err { OnErr result (client.new ≡ client.old) }
    {
        let Some(lock) = self.region_lock(region) else {
            return Err(RegionError::NoRegion);
        };
        for _ in rt.forever() {
            self.schedule.step(rt, client.seat());
            let mut held = lock.lock.lock(rt);
            if held.number() == region && held.steps() < u64::MAX {
                let left = held.recover(&self.notes, client, txn);
                drop(held);
                lock.freed.notify_all();
                return Ok(left);
            }
            self.schedule.pause(rt, client.seat(), held, &lock.freed);
        }
        unreachable!()
    }

    /// The client gives its claim back of a transaction whose dead client latched the region, and which names it still where
    /// that hold stands, as `LockedRegion::give_back`, and none otherwise. Who waits for the region or for a key
    /// of the transaction is woken.
    pub fn give_back<R: Wait>(
        &self,
        rt: &R,
        client: &mut ClientNote<B, H>,
        txn: u64,
        region: u32,
    ) -> Result<(), RegionError>
        requires cleans { Knows B.begun (Cleaning client.old.id txn (Some region)) client.old }
        requires idle { Knows B.begun (IsIdle txn) client.old }
        ensures lets { OnOk result (LetsClaim B.begun client.old txn client.new) }
    {
        let Some(lock) = self.region_lock(region) else {
            return Err(RegionError::NoRegion);
        };
        for _ in rt.forever() {
            self.schedule.step(rt, client.seat());
            let mut held = lock.lock.lock(rt);
            if held.number() == region && held.steps() < u64::MAX {
                let mut system = self.system.lock(rt);
                let given = give_up(&self.notes, client, &mut held, &mut system, txn);
                drop(system);
                drop(held);
                lock.freed.notify_all();
                self.ended.notify_all();
                match given {
                    Ok(()) => return Ok(()),
                    Err(cause) => return Err(RegionError::Logged { cause }),
                }
            }
            self.schedule.pause(rt, client.seat(), held, &lock.freed);
        }
        unreachable!()
    }
}
