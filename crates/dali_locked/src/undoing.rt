//! A transaction is taken back on a region behind its lock, by its client or by who cleans it up.
ghost use Rattle.std.specs.Prelude.{◌≡◌, ◌<◌, [], ◌∷◌, true, false, Some, None, Ok, Err, IsSome, IsSomeAnd, IfSome, IfOk, IfErr, OnOk, OnErr};
ghost use Rattle.dali_record.specs.declared.records.Record.TheVariants.{Back};
ghost use Rattle.dali_record.specs.Spelling.{IsUndo};
ghost use Rattle.dali_region.specs.State.{latched, with_reads, touched};
ghost use Rattle.dali_region.specs.Answers.{latch_answer};
ghost use Rattle.dali_att.specs.Table.{undos_at};
ghost use Rattle.dali_runs.specs.Steps.{back_logged};
ghost use Rattle.dali_system.specs.declared.error.SystemError.TheVariants.{OutOfMemory as Memory};
ghost use Rattle.dali_system.specs.Refused.{stop_refusal};
ghost use Rattle.dali_system.specs.TakenBack.{next_undo, IsUndoBlock, IsUndoOn};
ghost use Rattle.dali_system.specs.UnderWay.{WritesNext, all_written};
ghost use Rattle.dali_notes.specs.History.{Added, AllMay};
ghost use Rattle.dali_locked.specs.Begun.{may_add};
ghost use Rattle.dali_locked.specs.Sights.{HasLogged, Knows, client_sight, system_sight, region_sight};
ghost use Rattle.dali_locked.specs.Regions.{IsAt, latch_item, freed_item, logged_item};
ghost use Rattle.dali_locked.specs.RegionWords.{word_item};
ghost use Rattle.dali_locked.specs.SystemSteps.{MayEnd};
ghost use Rattle.dali_locked.specs.Undoing.{IsOwn, MayUndo, Undoes, IsUndoing, BacksOff};

use crate::client::ClientNote;
use crate::history::{Beginning, Home, Mark, OfRound};
use crate::locks::Locks;
use crate::region::{LockedRegion, OfRegion, RegionItem};
use crate::system::LockedSystem;
use crate::vault::VaultBeginning;
use dali_notes::Notes;
use dali_region::{LatchError, Receipt, Region};
use dali_schedule::Schedule;
use dali_store::Store;
use dali_system::{SystemError, TakeBack};
use std::marker::Brand;
use std::sync::Wait;

impl<B: Beginning, H: Home> LockedRegion<B, H> {
    // As `latch_undo`, with what is told.
    fn latch_undo_as<D: RegionItem>(
        &mut self,
        notes: &Notes<Mark, OfRound<B>>,
        client: &mut ClientNote<B, H>,
        plan: &mut TakeBack,
    ) -> Result<u64, LatchError>
        requires item { D.item ≡ latch_item client.old.id self.old.number plan.old.txn }
        requires home { notes.now.table ≡ H.table }
        requires wants { IsSomeAnd plan.old.next (λ u. IsUndo u.undo × (u.region ≡ self.old.number)) }
        requires closed { plan.old.operation ≡ None }
        requires undoes { Knows B.begun (Undoes client.old.id plan.old) client.old }
        requires room { self.old.steps < 18446744073709551615 }
        ensures cause { IfErr result (λ e. Err e ≡ latch_answer false self.old.region) }
        ensures refused { OnErr result ((self.new ≡ self.old) × (plan.new ≡ plan.old) × (client.new ≡ client.old)) }
        ensures free { OnOk result (Ok tt ≡ latch_answer false self.old.region) }
        ensures made { OnOk result (IsSomeAnd plan.new.operation (λ o. (o.txn ≡ plan.old.txn) × IsUndoBlock plan.old.next o.block
            × (self.new.region ≡ with_reads o.block.read (latched plan.old.txn self.old.region)))) }
        ensures of { OnOk result (IsSomeAnd plan.new.operation (λ o. IsUndoOn self.old.region.words plan.old.next o.block)) }
        ensures own { OnOk result (IsOwn plan.new plan.new.operation) }
        ensures same { (plan.new ≡ record plan.old { operation = plan.new.operation }) × (self.new.number ≡ self.old.number) }
        ensures tells { OnOk result (Added (client_sight B.begun client.old ∷ region_sight B.begun self.old ∷ [])
            (latch_item client.old.id self.old.number plan.old.txn self.new.region) client.new.seen) }
        ensures sees { OnOk result ((client.new.id ≡ client.old.id) × (self.new.seen ≡ client.new.seen)) }
        ensures all { OnOk result (AllMay (may_add B.begun) client.new.seen) }
        ensures at { IfOk result (λ step. (step ≡ self.new.steps) × IsAt self.old.number step plan.new.operation client.new.seen) }
        ensures undoing { OnOk result (Knows B.begun (IsUndoing client.old.id self.old.number plan.new) client.new) }
    {
        match plan.latch(&mut self.region, false) {
            Ok(()) => {}
            Err(cause) => return Err(cause),
        }
        notes.add_both::<Region, OfRegion<D>>(&mut client.note, &mut self.note, &self.region);
        self.steps += 1;
        Ok(self.steps)
    }

    /// Latches it for the operation that performs the next undo. Answers the number of that step, by which its client
    /// finds the operation again. Refused exactly as the latch without a precheck; then nothing has changed.
    pub fn latch_undo(
        &mut self,
        notes: &Notes<Mark, OfRound<B>>,
        client: &mut ClientNote<B, H>,
        plan: &mut TakeBack,
    ) -> Result<u64, LatchError>
        requires home { notes.now.table ≡ H.table }
        requires wants { IsSomeAnd plan.old.next (λ u. IsUndo u.undo × (u.region ≡ self.old.number)) }
        requires closed { plan.old.operation ≡ None }
        requires undoes { Knows B.begun (Undoes client.old.id plan.old) client.old }
        requires room { self.old.steps < 18446744073709551615 }
        ensures cause { IfErr result (λ e. Err e ≡ latch_answer false self.old.region) }
        ensures refused { OnErr result ((self.new ≡ self.old) × (plan.new ≡ plan.old) × (client.new ≡ client.old)) }
        ensures free { OnOk result (Ok tt ≡ latch_answer false self.old.region) }
        ensures made { OnOk result (IsSomeAnd plan.new.operation (λ o. (o.txn ≡ plan.old.txn) × IsUndoBlock plan.old.next o.block
            × (self.new.region ≡ with_reads o.block.read (latched plan.old.txn self.old.region)))) }
        ensures of { OnOk result (IsSomeAnd plan.new.operation (λ o. IsUndoOn self.old.region.words plan.old.next o.block)) }
        ensures own { OnOk result (IsOwn plan.new plan.new.operation) }
        ensures same { (plan.new ≡ record plan.old { operation = plan.new.operation }) × (self.new.number ≡ self.old.number) }
        ensures tells { OnOk result (Added (client_sight B.begun client.old ∷ region_sight B.begun self.old ∷ [])
            (latch_item client.old.id self.old.number plan.old.txn self.new.region) client.new.seen) }
        ensures sees { OnOk result ((client.new.id ≡ client.old.id) × (self.new.seen ≡ client.new.seen)) }
        ensures all { OnOk result (AllMay (may_add B.begun) client.new.seen) }
        ensures at { IfOk result (λ step. (step ≡ self.new.steps) × IsAt self.old.number step plan.new.operation client.new.seen) }
        ensures undoing { OnOk result (Knows B.begun (IsUndoing client.old.id self.old.number plan.new) client.new) }
    {
        self.latch_undo_as::<Brand>(notes, client, plan)
    }

    // As `update_undo`, with what is told.
    fn update_undo_as<D: RegionItem>(
        &mut self,
        notes: &Notes<Mark, OfRound<B>>,
        client: &mut ClientNote<B, H>,
        plan: &mut TakeBack,
        at: u64,
    ) -> u64
        requires item { D.item ≡ word_item client.old.id self.old.number self.old.region }
        requires home { notes.now.table ≡ H.table }
        requires last { at ≡ self.old.steps }
        requires stood { IsAt self.old.number at plan.old.operation client.old.seen }
        requires undoing { Knows B.begun (IsUndoing client.old.id self.old.number plan.old) client.old }
        requires own { IsOwn plan.old plan.old.operation }
        requires left { all_written plan.old.operation ≡ false }
        requires room { self.old.steps < 18446744073709551615 }
        ensures writes { WritesNext plan.old.operation self.old.region true plan.new.operation self.new.region }
        ensures same { (plan.new ≡ record plan.old { operation = plan.new.operation }) × (self.new.number ≡ self.old.number) }
        ensures tells { Added (client_sight B.begun client.old ∷ region_sight B.begun self.old ∷ [])
            (word_item client.old.id self.old.number self.old.region self.new.region) client.new.seen }
        ensures sees { (client.new.id ≡ client.old.id) × (self.new.seen ≡ client.new.seen) }
        ensures all { AllMay (may_add B.begun) client.new.seen }
        ensures at { (result ≡ self.new.steps) × IsAt self.old.number result plan.new.operation client.new.seen }
        ensures undoing { Knows B.begun (IsUndoing client.old.id self.old.number plan.new) client.new }
        ensures own { IsOwn plan.new plan.new.operation }
    {
        let _ = at;
        notes.meet(&mut self.note, &mut client.note);
        plan.update(&mut self.region);
        notes.add_both::<Region, OfRegion<D>>(&mut client.note, &mut self.note, &self.region);
        self.steps += 1;
        self.steps
    }

    /// Writes the next word of the operation, which stood here behind the step `at`, the last one. Some word is to be left:
    /// the plan alone tells (`is_written`).
    pub fn update_undo(
        &mut self,
        notes: &Notes<Mark, OfRound<B>>,
        client: &mut ClientNote<B, H>,
        plan: &mut TakeBack,
        at: u64,
    ) -> u64
        requires home { notes.now.table ≡ H.table }
        requires last { at ≡ self.old.steps }
        requires stood { IsAt self.old.number at plan.old.operation client.old.seen }
        requires undoing { Knows B.begun (IsUndoing client.old.id self.old.number plan.old) client.old }
        requires own { IsOwn plan.old plan.old.operation }
        requires left { all_written plan.old.operation ≡ false }
        requires room { self.old.steps < 18446744073709551615 }
        ensures writes { WritesNext plan.old.operation self.old.region true plan.new.operation self.new.region }
        ensures same { (plan.new ≡ record plan.old { operation = plan.new.operation }) × (self.new.number ≡ self.old.number) }
        ensures tells { Added (client_sight B.begun client.old ∷ region_sight B.begun self.old ∷ [])
            (word_item client.old.id self.old.number self.old.region self.new.region) client.new.seen }
        ensures sees { (client.new.id ≡ client.old.id) × (self.new.seen ≡ client.new.seen) }
        ensures all { AllMay (may_add B.begun) client.new.seen }
        ensures at { (result ≡ self.new.steps) × IsAt self.old.number result plan.new.operation client.new.seen }
        ensures undoing { Knows B.begun (IsUndoing client.old.id self.old.number plan.new) client.new }
        ensures own { IsOwn plan.new plan.new.operation }
    {
        self.update_undo_as::<Brand>(notes, client, plan, at)
    }

    // As `commit_undo`, with what is told.
    fn commit_undo_as<D: RegionItem, E: RegionItem>(
        &mut self,
        notes: &Notes<Mark, OfRound<B>>,
        client: &mut ClientNote<B, H>,
        system: &mut LockedSystem<B, H>,
        plan: &mut TakeBack,
        at: u64,
    ) -> Result<Receipt, SystemError>
        requires item { D.item ≡ logged_item client.old.id true plan.old.txn plan.old.operation system.old.served.state }
        requires freed { E.item ≡ freed_item client.old.id self.old.number }
        requires home { notes.now.table ≡ H.table }
        requires last { at ≡ self.old.steps }
        requires stood { IsAt self.old.number at plan.old.operation client.old.seen }
        requires undoing { Knows B.begun (IsUndoing client.old.id self.old.number plan.old) client.old }
        requires own { IsOwn plan.old plan.old.operation }
        requires wants { IsSomeAnd plan.old.next (λ u. u.region ≡ self.old.number) }
        requires written { all_written plan.old.operation ≡ true }
        requires room { self.old.steps < 18446744073709551615 }
        ensures ok { OnOk result (IfSome plan.old.operation (λ o. system.new.served ≡ record system.old.served { state = back_logged system.old.served.state plan.old.txn o.block })) }
        ensures next { OnOk result (plan.new ≡ record plan.old { next = next_undo (undos_at system.new.served.state.table plan.old.txn) plan.old.down_to; operation = None }) }
        ensures undoes { OnOk result (IfSome plan.new.next (λ u. IsUndo u.undo)) }
        ensures done { OnOk result ((self.new.region ≡ touched self.old.region) × (self.new.number ≡ self.old.number)) }
        ensures number { IfOk result (λ receipt. receipt.number ≡ system.old.served.state.records) }
        ensures tells { OnOk result (Added (client_sight B.begun client.old ∷ system_sight B.begun system.old ∷ region_sight B.begun self.old ∷ [])
            (logged_item client.old.id true plan.old.txn plan.old.operation system.old.served.state self.new.region) client.new.seen) }
        ensures sees { OnOk result ((client.new.id ≡ client.old.id) × (self.new.seen ≡ client.new.seen) × (system.new.seen ≡ client.new.seen)) }
        ensures all { OnOk result (AllMay (may_add B.begun) client.new.seen) }
        ensures further { OnOk result (Knows B.begun (Undoes client.old.id plan.new) client.new) }
        ensures receipt { IfOk result (λ receipt. IfSome plan.old.operation (λ o. Knows B.begun (HasLogged receipt.number (Back plan.old.txn o.block)) client.new)) }
        ensures err { OnErr result (BacksOff B.begun client.old self.old client.new self.new × (system.new ≡ system.old)) }
        ensures again { OnErr result ((plan.new ≡ record plan.old { operation = None }) × Knows B.begun (Undoes client.old.id plan.new) client.new) }
        ensures refused { IfSome (stop_refusal system.old.served.state) (λ e. result ≡ Err e) }
        ensures memory { stop_refusal system.old.served.state ≡ None → IfErr result (λ e. e ≡ Memory) }
    {
        let _ = (at, plan.txn());
        notes.meet(&mut self.note, &mut client.note);
        match plan.commit(&mut self.region, &mut system.system) {
            Ok(receipt) => {
                notes.add_three::<Region, OfRegion<D>>(
                    &mut client.note,
                    &mut system.note,
                    &mut self.note,
                    &self.region,
                );
                self.steps += 1;
                Ok(receipt)
            }
            Err(cause) => {
                notes.add_both::<Region, OfRegion<E>>(
                    &mut client.note,
                    &mut self.note,
                    &self.region,
                );
                self.steps += 1;
                Err(cause)
            }
        }
    }

    /// Logs the operation, which stood here behind the step `at`, the last one, and all of whose words are written. Where
    /// the system refuses its words are taken back, and the plan wants the region again.
    pub fn commit_undo(
        &mut self,
        notes: &Notes<Mark, OfRound<B>>,
        client: &mut ClientNote<B, H>,
        system: &mut LockedSystem<B, H>,
        plan: &mut TakeBack,
        at: u64,
    ) -> Result<Receipt, SystemError>
        requires home { notes.now.table ≡ H.table }
        requires last { at ≡ self.old.steps }
        requires stood { IsAt self.old.number at plan.old.operation client.old.seen }
        requires undoing { Knows B.begun (IsUndoing client.old.id self.old.number plan.old) client.old }
        requires own { IsOwn plan.old plan.old.operation }
        requires wants { IsSomeAnd plan.old.next (λ u. u.region ≡ self.old.number) }
        requires written { all_written plan.old.operation ≡ true }
        requires room { self.old.steps < 18446744073709551615 }
        ensures ok { OnOk result (IfSome plan.old.operation (λ o. system.new.served ≡ record system.old.served { state = back_logged system.old.served.state plan.old.txn o.block })) }
        ensures next { OnOk result (plan.new ≡ record plan.old { next = next_undo (undos_at system.new.served.state.table plan.old.txn) plan.old.down_to; operation = None }) }
        ensures undoes { OnOk result (IfSome plan.new.next (λ u. IsUndo u.undo)) }
        ensures done { OnOk result ((self.new.region ≡ touched self.old.region) × (self.new.number ≡ self.old.number)) }
        ensures number { IfOk result (λ receipt. receipt.number ≡ system.old.served.state.records) }
        ensures tells { OnOk result (Added (client_sight B.begun client.old ∷ system_sight B.begun system.old ∷ region_sight B.begun self.old ∷ [])
            (logged_item client.old.id true plan.old.txn plan.old.operation system.old.served.state self.new.region) client.new.seen) }
        ensures sees { OnOk result ((client.new.id ≡ client.old.id) × (self.new.seen ≡ client.new.seen) × (system.new.seen ≡ client.new.seen)) }
        ensures all { OnOk result (AllMay (may_add B.begun) client.new.seen) }
        ensures further { OnOk result (Knows B.begun (Undoes client.old.id plan.new) client.new) }
        ensures receipt { IfOk result (λ receipt. IfSome plan.old.operation (λ o. Knows B.begun (HasLogged receipt.number (Back plan.old.txn o.block)) client.new)) }
        ensures err { OnErr result (BacksOff B.begun client.old self.old client.new self.new × (system.new ≡ system.old)) }
        ensures again { OnErr result ((plan.new ≡ record plan.old { operation = None }) × Knows B.begun (Undoes client.old.id plan.new) client.new) }
        ensures refused { IfSome (stop_refusal system.old.served.state) (λ e. result ≡ Err e) }
        ensures memory { stop_refusal system.old.served.state ≡ None → IfErr result (λ e. e ≡ Memory) }
    {
        self.commit_undo_as::<Brand, Brand>(notes, client, system, plan, at)
    }
}

impl<B: Beginning, H: Home> LockedSystem<B, H> {
    /// The plan that takes a transaction of the client back until so many undos are left: its own, between two calls or in one with no
    /// operation open, or one that it cleans up, of which no region has a hold. No entry tells of it, and it takes no memory.
    pub fn undo(
        &mut self,
        notes: &Notes<Mark, OfRound<B>>,
        client: &mut ClientNote<B, H>,
        txn: u64,
        down_to: usize,
    ) -> TakeBack
        requires home { notes.now.table ≡ H.table }
        requires may { MayUndo B.begun client.old txn }
        ensures fields { (result.txn ≡ txn) × (result.down_to ≡ down_to) × (result.operation ≡ None) }
        ensures next { result.next ≡ next_undo (undos_at self.old.served.state.table txn) down_to }
        ensures undos { IfSome result.next (λ u. IsUndo u.undo) }
        ensures same { (self.new ≡ self.old) × (client.new.id ≡ client.old.id) }
        ensures undoes { Knows B.begun (Undoes client.old.id result) client.new }
    {
        notes.meet(&mut client.note, &mut self.note);
        TakeBack::new(&self.system, txn, down_to)
    }
}

impl<B: Beginning, H: Home> ClientNote<B, H> {
    /// Its transaction, of which all is taken back, may end.
    pub fn has_undone(&self, plan: &TakeBack)
        requires undoes { Knows B.begun (Undoes self.now.id plan.now) self.now }
        requires all { (plan.now.next ≡ None) × (plan.now.down_to ≡ 0) }
        ensures { Knows B.begun (MayEnd self.now.id plan.now.txn) self.now }
    {
        let _ = (self.id, plan.txn());
    }
}

impl<B: Beginning + VaultBeginning<V>, H: Home, V: Store, S: Schedule> Locks<B, H, V, S> {
    /// The plan that takes a transaction of the client back, as `LockedSystem::undo`.
    pub fn undo<R: Wait>(
        &self,
        rt: &R,
        client: &mut ClientNote<B, H>,
        txn: u64,
        down_to: usize,
    ) -> TakeBack
        requires may { MayUndo B.begun client.old txn }
        ensures fields { (result.txn ≡ txn) × (result.down_to ≡ down_to) × (result.operation ≡ None) }
        ensures undos { IfSome result.next (λ u. IsUndo u.undo) }
        ensures undoes { Knows B.begun (Undoes client.old.id result) client.new }
        ensures id { client.new.id ≡ client.old.id }
    {
        self.schedule.step(rt, client.id());
        self.system.lock(rt).undo(&self.notes, client, txn, down_to)
    }
}
