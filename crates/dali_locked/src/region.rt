//! A region behind its lock.
ghost use Rattle.std.specs.Prelude.{◌≡◌, ◌≢◌, ◌==◌, ◌+◌, ◌<◌, ◌≤◌, ℕ, List, Bool, Option as OptionOf, IsSome, ◌&&◌, not, nat_lt, [], ◌∷◌, true, false, Some, None, Ok, Err, IsSomeAnd, IfSome, IfOk, IfErr, OnOk, OnErr};
ghost use Rattle.dali_record.specs.declared.records.Record.TheVariants.{Forward};
ghost use Rattle.dali_record.specs.Spelling.{record_length};
ghost use Rattle.dali_notes.specs.History.{Added, AllMay, MayAdd};
ghost use Rattle.dali_record.specs.Blocks.{IsSoundOn};
ghost use Rattle.dali_region.specs.State.{RegionState, latched, with_reads, poked, touched, taken_back, checked};
ghost use Rattle.dali_region.specs.Answers.{latch_answer};
ghost use Rattle.dali_calls.specs.Steps.{call_key, region_in, IsBlockOf};
ghost use Rattle.dali_att.specs.declared.state.State.TheVariants.{Live};
ghost use Rattle.dali_runs.specs.State.{row_of, state_of};
ghost use Rattle.dali_runs.specs.Regions.{IsOpen};
ghost use Rattle.dali_runs.specs.Steps.{op_logged, back_logged};
ghost use Rattle.dali_runs.specs.Keeps.{HasRoom};
ghost use Rattle.dali_system.specs.declared.error.SystemError.TheVariants.{OutOfMemory as Memory};
ghost use Rattle.dali_system.specs.Served.{Served};
ghost use Rattle.dali_system.specs.declared.operation.Operation.{Operation as OperationOf};
ghost use Rattle.dali_system.specs.UnderWay.{OneIsUnderWay, WritesNext, all_written};
ghost use Rattle.dali_calls.specs.Plans.{Planned, is_back, plan_next, with_operation, went_back, commit_refusal, GoesOn, IsWhole};
ghost use Rattle.dali_concurrent.specs.Entries.{At, Passed, region_note};
ghost use Rattle.dali_concurrent.specs.Told.{plain};
ghost use Rattle.dali_concurrent.specs.Kept.{RegionTold};
ghost use Rattle.dali_locked.specs.Begun.{FromEach, Led, Of, may_add};
ghost use Rattle.dali_locked.specs.Sights.{HasLogged, Knows, client_sight, system_sight, region_sight};
ghost use Rattle.dali_locked.specs.declared.error.LockedError.TheVariants.{System as BySystem, Unfit};
ghost use Rattle.dali_locked.specs.SystemSteps.{Driving};
ghost use Rattle.dali_locked.specs.Regions.{IsAt, IsAmid, IsOpenAudit, HasPassed, HasGoneBack, IfRefused, is_live, is_unheld, LeftBy, LogsPlan, stray_item, latch_item, freed_item, logged_item, pass_item, record_on};
ghost use Rattle.dali_locked.specs.RegionWords.{word_item};

use crate::client::ClientNote;
use crate::error::LockedError;
use crate::history::{Beginning, Home, Mark, OfRound};
use crate::system::LockedSystem;
use dali_att::State;
use dali_calls::Plan;
use dali_notes::{Note, Notes, Tells};
use dali_region::{LatchError, Receipt, Region};
use dali_system::{System, SystemError};
use std::marker::{Brand, Model, PhantomData};

/// A region with its number, its note, and the number of steps that operations have made on it since the round began.
#[derive(Drop)]
pub struct LockedRegion<B: Beginning, H: Home> {
    pub(crate) number: u32,
    pub(crate) steps: u64,
    // one more than the record at which the last audit that passed it began
    pub(crate) audits: u64,
    pub(crate) region: Region,
    pub(crate) note: Note<Mark, OfRound<B>>,
    pub(crate) home: PhantomData<H>,
}

impl<B: Beginning, H: Home> Model for LockedRegion<B, H> {
    ghost use Rattle.dali_locked.specs.Begun.{homed};
    ghost use Rattle.std.specs.Coded.{codes};
    ghost use Rattle.dali_system.specs.Coded.{system_code};
    ghost use Rattle.dali_locked.specs.Sights.{RegionSight};
    ghost use Rattle.dali_locked.specs.Regions.{RegionKept};

    ghost Value = { RegionSight };

    ghost coded = { Prim.hlevel (codes, system_code) };

    ghost view = { λ l. record { number = l.number; steps = l.steps; audits = l.audits; region = l.region; seen = l.note.seen } };

    ghost invariant = { λ l. RegionKept (homed H.table B.begun) l.note.table l.note.number (record { number = l.number; steps = l.steps; audits = l.audits; region = l.region; seen = l.note.seen }) };
}

// What a step tells of the region behind it. Each call picks it.
pub(crate) trait RegionItem {
    ghost use Rattle.dali_region.specs.State.{RegionState};
    ghost use Rattle.dali_concurrent.specs.Told.{Item};

    ghost item: { RegionState → Item };
}

impl RegionItem for Brand {
    ghost use Rattle.dali_locked.specs.Begun.{no_item};

    ghost item = { λ h. no_item };
}

pub(crate) struct OfRegion<D> {
    of: PhantomData<D>,
}

impl<D: RegionItem> Tells<Region, Mark> for OfRegion<D> {
    ghost entry = { λ h. D.item h };
}

// Client and region tell a step, which is picked by the client, by what the step shows and by the region behind it.
pub(crate) fn tell_both<B: Beginning, X, D: RegionItem>(
    notes: &Notes<Mark, OfRound<B>>,
    client: &mut Note<Mark, OfRound<B>>,
    note: &mut Note<Mark, OfRound<B>>,
    id: u32,
    about: &X,
    after: &Region,
)
    requires tables { (client.old.table ≡ notes.now.table) × (note.old.table ≡ notes.now.table) }
    requires may { MayAdd (may_add B.begun) (client.old ∷ note.old ∷ []) (D.item after.now) }
    ensures table { client.new.table ≡ client.old.table }
    ensures number { client.new.number ≡ client.old.number }
    ensures added { Added (client.old ∷ note.old ∷ []) (D.item after.now) client.new.seen }
    ensures all { AllMay (may_add B.begun) client.new.seen }
    ensures other { note.new ≡ record note.old { seen = client.new.seen } }
{
    let _ = id;
    let _ = about;
    notes.add_both::<Region, OfRegion<D>>(client, note, after);
}

// Writes the next word of the plan's operation, which client and region tell. `by`: the client's number, and the region's.
fn write<B: Beginning, D: RegionItem>(
    notes: &Notes<Mark, OfRound<B>>,
    client: &mut Note<Mark, OfRound<B>>,
    note: &mut Note<Mark, OfRound<B>>,
    by: (u32, u32),
    region: &mut Region,
    plan: &mut Plan,
)
    requires item { D.item ≡ word_item by.0 by.1 region.old }
    requires tables { (client.old.table ≡ notes.now.table) × (note.old.table ≡ notes.now.table) }
    requires under_way { OneIsUnderWay plan.old.operation region.old }
    requires left { all_written plan.old.operation ≡ false }
    requires may { (h : RegionState) (o : OptionOf OperationOf) → WritesNext plan.old.operation region.old true o h
        → MayAdd (may_add B.begun) (client.old ∷ note.old ∷ []) (word_item by.0 by.1 region.old h) }
    ensures writes { WritesNext plan.old.operation region.old true plan.new.operation region.new }
    ensures rest { plan.new ≡ with_operation plan.old plan.new.operation }
    ensures table { client.new.table ≡ client.old.table }
    ensures number { client.new.number ≡ client.old.number }
    ensures added { Added (client.old ∷ note.old ∷ []) (word_item by.0 by.1 region.old region.new) client.new.seen }
    ensures all { AllMay (may_add B.begun) client.new.seen }
    ensures other { note.new ≡ record note.old { seen = client.new.seen } }
{
    let _ = by;
    plan.update(region);
    notes.add_both::<Region, OfRegion<D>>(client, note, region);
}

// Logs the plan's operation, which client, system and region tell, the notes in this order. Where the system refuses nothing is told.
fn log<B: Beginning, D: RegionItem>(
    notes: &Notes<Mark, OfRound<B>>,
    client: &mut Note<Mark, OfRound<B>>,
    of_system: &mut Note<Mark, OfRound<B>>,
    note: &mut Note<Mark, OfRound<B>>,
    id: u32,
    system: &mut System,
    region: &mut Region,
    plan: &mut Plan,
) -> Result<Receipt, SystemError>
    requires item { D.item ≡ logged_item id (is_back plan.old) plan.old.txn plan.old.operation system.old.state }
    requires tables { (client.old.table ≡ notes.now.table) × (of_system.old.table ≡ notes.now.table) × (note.old.table ≡ notes.now.table) }
    requires written { IsSomeAnd plan.old.operation (λ o. IsOpen region.old o.txn o.block) }
    requires running { IsSome (row_of system.old.state plan.old.txn) }
    requires may { (q : Planned) (z : Served) → LogsPlan plan.old system.old q z → MayAdd (may_add B.begun) (client.old ∷ of_system.old ∷ note.old ∷ [])
        (logged_item id (is_back plan.old) plan.old.txn plan.old.operation system.old.state (touched region.old)) }
    ensures logs { OnOk result (LogsPlan plan.old system.old plan.new system.new × (region.new ≡ touched region.old)) }
    ensures number { IfOk result (λ receipt. receipt.number ≡ system.old.state.records) }
    ensures told { OnOk result ((client.new.table ≡ client.old.table) × (client.new.number ≡ client.old.number) × AllMay (may_add B.begun) client.new.seen
        × (of_system.new ≡ record of_system.old { seen = client.new.seen }) × (note.new ≡ record note.old { seen = client.new.seen })) }
    ensures added { OnOk result (Added (client.old ∷ of_system.old ∷ note.old ∷ [])
        (logged_item id (is_back plan.old) plan.old.txn plan.old.operation system.old.state region.new) client.new.seen) }
    ensures err { OnErr result ((system.new ≡ system.old) × (region.new ≡ taken_back region.old) × (plan.new ≡ with_operation plan.old None)) }
    ensures untold { OnErr result ((client.new ≡ client.old) × (of_system.new ≡ of_system.old) × (note.new ≡ note.old)) }
    ensures refused { IfSome plan.old.operation (λ o. IfSome (commit_refusal (is_back plan.old) system.old.state (record_length (Forward plan.old.txn o.block))) (λ e. result ≡ Err e)) }
    ensures memory { IfSome plan.old.operation (λ o. commit_refusal (is_back plan.old) system.old.state (record_length (Forward plan.old.txn o.block)) ≡ None → IfErr result (λ e. e ≡ Memory)) }
{
    let _ = id;
    match plan.commit(region, system) {
        Ok(receipt) => {
            notes.add_three::<Region, OfRegion<D>>(client, of_system, note, region);
            Ok(receipt)
        }
        Err(cause) => Err(cause),
    }
}

// The region alone tells that an audit has passed it.
fn tell_pass<B: Beginning, D: RegionItem>(
    notes: &Notes<Mark, OfRound<B>>,
    note: &mut Note<Mark, OfRound<B>>,
    number: u32,
    begin: u64,
    right: bool,
    after: &Region,
)
    requires table { note.old.table ≡ notes.now.table }
    requires item { D.item ≡ pass_item number begin right }
    requires may { MayAdd (may_add B.begun) (note.old ∷ []) (pass_item number begin right after.now) }
    ensures note { (note.new.table ≡ note.old.table) × (note.new.number ≡ note.old.number) }
    ensures added { Added (note.old ∷ []) (pass_item number begin right after.now) note.new.seen }
    ensures all { AllMay (may_add B.begun) note.new.seen }
{
    let _ = (number, begin, right);
    notes.add::<Region, OfRegion<D>>(note, after);
}

fn lives(system: &System, txn: u64) -> bool
    ensures { result ≡ is_live (state_of system.now.state txn) }
{
    matches!(system.state(txn), Some(State::Live))
}

impl<B: Beginning, H: Home> LockedRegion<B, H> {
    /// The region where the notes are made: no operation was done on it.
    pub fn new(number: u32, region: Region, note: Note<Mark, OfRound<B>>) -> LockedRegion<B, H>
        requires note { (note.table ≡ H.table) × (note.number ≡ region_note number) }
        requires led { Led B.begun note.seen }
        requires told { Of B.begun (λ o T. RegionTold o number region T) note.seen }
        requires fresh { note.seen ≡ [] }
        ensures { result ≡ record { number = number; steps = 0; audits = 0; region = region; seen = note.seen } }
    {
        LockedRegion {
            number,
            steps: 0,
            audits: 0,
            region,
            note,
            home: PhantomData,
        }
    }

    /// Its number.
    pub fn number(&self) -> u32
        ensures { result ≡ self.now.number }
    {
        self.number
    }

    /// How many steps operations have made on it.
    pub fn steps(&self) -> u64
        ensures { result ≡ self.now.steps }
    {
        self.steps
    }

    /// Whether no live hold stands on it, and one step more can be counted.
    pub fn is_free(&self) -> bool
        ensures free { result ≡ (is_unheld self.now.region.hold && nat_lt self.now.steps 18446744073709551615) }
        ensures room { result ≡ true → self.now.steps < 18446744073709551615 }
    {
        match self.region.hold() {
            None => self.steps < u64::MAX,
            Some(hold) => hold.dead && self.steps < u64::MAX,
        }
    }

    /// Damages a word, as a stray write of this client would. The word's number is below 64, and the mask not 0.
    pub fn poke(
        &mut self,
        notes: &Notes<Mark, OfRound<B>>,
        client: &mut ClientNote<B, H>,
        word: u8,
        mask: u64,
    )
        requires home { notes.now.table ≡ H.table }
        requires in_range { word < 64 }
        requires changes { mask ≢ 0 }
        ensures after { self.new.region ≡ poked word mask self.old.region }
        ensures same { (self.new.number ≡ self.old.number) × (self.new.steps ≡ self.old.steps) }
        ensures tells { Added (client_sight B.begun client.old ∷ region_sight B.begun self.old ∷ []) (stray_item client.old.id self.old.number word mask self.new.region) client.new.seen }
        ensures sees { (client.new.id ≡ client.old.id) × (self.new.seen ≡ client.new.seen) }
    {
        self.region.poke(word, mask);
        tell_both::<B, (u32, u8, u64), Brand>(
            notes,
            &mut client.note,
            &mut self.note,
            client.id,
            &(self.number, word, mask),
            &self.region,
        );
    }

    /// Latches it for the plan's next operation, which then reads. Answers the number of that step, by which its client
    /// finds the operation again. Refused exactly as the plan's latch; then nothing has changed.
    pub fn latch(
        &mut self,
        notes: &Notes<Mark, OfRound<B>>,
        client: &mut ClientNote<B, H>,
        plan: &mut Plan,
        precheck: bool,
    ) -> Result<u64, LatchError>
        requires home { notes.now.table ≡ H.table }
        requires precheck { precheck ≡ B.begun.precheck }
        requires wants { region_in (plan_next plan.old) ≡ Some self.old.number }
        requires closed { plan.old.operation ≡ None }
        requires acts { Knows B.begun (Driving client.old.id plan.old) client.old }
        requires room { self.old.steps < 18446744073709551615 }
        ensures cause { IfErr result (λ e. Err e ≡ latch_answer (not (is_back plan.old) && precheck) self.old.region) }
        ensures refused { OnErr result ((self.new ≡ self.old) × (plan.new ≡ plan.old) × (client.new ≡ client.old)) }
        ensures free { OnOk result (Ok tt ≡ latch_answer (not (is_back plan.old) && precheck) self.old.region) }
        ensures made { OnOk result (IsSomeAnd plan.new.operation (λ o. (o.txn ≡ plan.old.txn) × IsBlockOf (plan_next plan.old) (call_key plan.old.call) o.block
            × IsSoundOn self.old.region.words o.block × (self.new.region ≡ with_reads o.block.read (latched plan.old.txn self.old.region)))) }
        ensures checked { is_back plan.old ≡ false → precheck ≡ true → OnOk result (self.old.region.stray ≡ 0) }
        ensures same { (plan.new ≡ with_operation plan.old plan.new.operation) × (self.new.number ≡ self.old.number) }
        ensures tells { OnOk result (Added (client_sight B.begun client.old ∷ region_sight B.begun self.old ∷ [])
            (latch_item client.old.id self.old.number plan.old.txn self.new.region) client.new.seen) }
        ensures sees { OnOk result ((client.new.id ≡ client.old.id) × (self.new.seen ≡ client.new.seen)) }
        ensures at { IfOk result (λ step. (step ≡ self.new.steps) × IsAt self.old.number step plan.new.operation client.new.seen) }
        ensures amid { OnOk result (Knows B.begun (IsAmid client.old.id self.old.number plan.new) client.new) }
        ensures whole { IsWhole plan.old → OnOk result (IsWhole plan.new) }
    {
        match plan.latch(&mut self.region, precheck) {
            Ok(()) => {}
            Err(cause) => return Err(cause),
        }
        let txn = plan.txn();
        tell_both::<B, (u32, u64), Brand>(
            notes,
            &mut client.note,
            &mut self.note,
            client.id,
            &(self.number, txn),
            &self.region,
        );
        self.steps += 1;
        Ok(self.steps)
    }

    /// Writes the next word of the plan's operation, which stood here behind the step `at`, the last one. Answers the
    /// number of this step. Some word is to be left: the plan alone tells (`is_written`).
    pub fn update(
        &mut self,
        notes: &Notes<Mark, OfRound<B>>,
        client: &mut ClientNote<B, H>,
        plan: &mut Plan,
        at: u64,
    ) -> u64
        requires home { notes.now.table ≡ H.table }
        requires last { at ≡ self.old.steps }
        requires stood { IsAt self.old.number at plan.old.operation client.old.seen }
        requires amid { Knows B.begun (IsAmid client.old.id self.old.number plan.old) client.old }
        requires whole { IsWhole plan.old }
        requires left { all_written plan.old.operation ≡ false }
        requires room { self.old.steps < 18446744073709551615 }
        ensures writes { WritesNext plan.old.operation self.old.region true plan.new.operation self.new.region }
        ensures same { (plan.new ≡ with_operation plan.old plan.new.operation) × (self.new.number ≡ self.old.number) }
        ensures tells { Added (client_sight B.begun client.old ∷ region_sight B.begun self.old ∷ [])
            (word_item client.old.id self.old.number self.old.region self.new.region) client.new.seen }
        ensures sees { (client.new.id ≡ client.old.id) × (self.new.seen ≡ client.new.seen) }
        ensures at { (result ≡ self.new.steps) × IsAt self.old.number result plan.new.operation client.new.seen }
        ensures amid { Knows B.begun (IsAmid client.old.id self.old.number plan.new) client.new }
        ensures whole { IsWhole plan.new }
    {
        let _ = at;
        notes.meet(&mut self.note, &mut client.note);
        write::<B, Brand>(
            notes,
            &mut client.note,
            &mut self.note,
            (client.id, self.number),
            &mut self.region,
            plan,
        );
        self.steps += 1;
        self.steps
    }

    /// Logs the plan's operation, which stood here behind the step `at`, the last one, and all of whose words are written.
    /// Where the system refuses its words are taken back, and the plan wants the region again. `Unfit` never comes: it
    /// stands for a transaction that isn't live; then nothing has changed.
    pub fn commit(
        &mut self,
        notes: &Notes<Mark, OfRound<B>>,
        client: &mut ClientNote<B, H>,
        system: &mut LockedSystem<B, H>,
        plan: &mut Plan,
        at: u64,
    ) -> Result<Receipt, LockedError>
        requires home { notes.now.table ≡ H.table }
        requires last { at ≡ self.old.steps }
        requires stood { IsAt self.old.number at plan.old.operation client.old.seen }
        requires amid { Knows B.begun (IsAmid client.old.id self.old.number plan.old) client.old }
        requires whole { IsWhole plan.old }
        requires wants { region_in (plan_next plan.old) ≡ Some self.old.number }
        requires written { all_written plan.old.operation ≡ true }
        requires room { self.old.steps < 18446744073709551615 }
        ensures onward { is_back plan.old ≡ false → OnOk result (IfSome plan.old.operation (λ o. (system.new.served ≡ record system.old.served { state = op_logged system.old.served.state plan.old.txn o.block })
            × HasRoom system.old.served.state (Forward plan.old.txn o.block) × GoesOn plan.old o.block plan.new)) }
        ensures back { is_back plan.old ≡ true → OnOk result (IfSome plan.old.operation (λ o. (system.new.served ≡ record system.old.served { state = back_logged system.old.served.state plan.old.txn o.block })
            × (system.old.served.state.stop ≡ None) × (plan.new ≡ went_back plan.old))) }
        ensures done { OnOk result ((self.new.region ≡ touched self.old.region) × (self.new.number ≡ self.old.number)) }
        ensures number { IfOk result (λ receipt. receipt.number ≡ system.old.served.state.records) }
        ensures tells { OnOk result (Added (client_sight B.begun client.old ∷ system_sight B.begun system.old ∷ region_sight B.begun self.old ∷ [])
            (logged_item client.old.id (is_back plan.old) plan.old.txn plan.old.operation system.old.served.state self.new.region) client.new.seen) }
        ensures sees { OnOk result ((client.new.id ≡ client.old.id) × (self.new.seen ≡ client.new.seen) × (system.new.seen ≡ client.new.seen)) }
        ensures drives { OnOk result (Knows B.begun (Driving client.old.id plan.new) client.new) }
        ensures receipt { IfOk result (λ receipt. Knows B.begun (HasLogged receipt.number (record_on (is_back plan.old) plan.old.txn plan.old.operation)) client.new) }
        ensures err { IfErr result (λ e. LeftBy e (HasGoneBack B.begun client.old self.old plan.old client.new self.new plan.new × (system.new ≡ system.old))
            ((client.new ≡ client.old) × (self.new ≡ self.old) × (plan.new ≡ plan.old) × (system.new.served ≡ system.old.served))) }
        ensures unfit { result ≡ Err Unfit → FromEach B.begun (λ s p. ⊥) }
        ensures refused { state_of system.old.served.state plan.old.txn ≡ Some Live → IfSome plan.old.operation (λ o.
            IfSome (commit_refusal (is_back plan.old) system.old.served.state (record_length (Forward plan.old.txn o.block))) (λ e. result ≡ Err (BySystem e))) }
        ensures memory { IfSome plan.old.operation (λ o. commit_refusal (is_back plan.old) system.old.served.state (record_length (Forward plan.old.txn o.block)) ≡ None
            → IfErr result (λ e. IfRefused e (λ cause. cause ≡ Memory))) }
    {
        if !lives(&system.system, plan.txn()) {
            notes.meet(&mut system.note, &mut client.note);
            return Err(LockedError::Unfit);
        }
        let _ = at;
        notes.meet(&mut self.note, &mut client.note);
        match log::<B, Brand>(
            notes,
            &mut client.note,
            &mut system.note,
            &mut self.note,
            client.id,
            &mut system.system,
            &mut self.region,
            plan,
        ) {
            Ok(receipt) => {
                self.steps += 1;
                return Ok(receipt);
            }
            Err(cause) => {
                tell_both::<B, u32, Brand>(
                    notes,
                    &mut client.note,
                    &mut self.note,
                    client.id,
                    &self.number,
                    &self.region,
                );
                self.steps += 1;
                return Err(LockedError::System { cause });
            }
        }
    }

    /// The audit that began at this record passes it: whether its words have the parity that its codeword tells. The
    /// witness has seen the audit's begin, and has then seen that it passed. None, with nothing changed, where an audit
    /// has passed it that began there or later.
    pub fn pass(
        &mut self,
        notes: &Notes<Mark, OfRound<B>>,
        witness: &mut ClientNote<B, H>,
        begin: u64,
    ) -> Option<bool>
        requires home { notes.now.table ≡ H.table }
        requires begun { Knows B.begun (IsOpenAudit begin) witness.old }
        requires room { begin < 18446744073709551615 }
        ensures some { IfSome result (λ right. right ≡ (self.old.region.stray == 0)) }
        ensures after { IfSome result (λ right. (self.new.region ≡ checked self.old.region) × (self.new.number ≡ self.old.number) × (self.new.steps ≡ self.old.steps)) }
        ensures none { result ≡ None → (self.new ≡ self.old) × (witness.new ≡ witness.old) }
        ensures later { result ≡ None → (b : ℕ) × (begin ≤ b) × (i : ℕ) × (k : List ℕ) × (right : Bool) × At (plain self.old.seen) i (k, Passed self.old.number b right) }
        ensures tells { IfSome result (λ right. Added (region_sight B.begun self.old ∷ []) (pass_item self.old.number begin right self.new.region) self.new.seen) }
        ensures told { IfSome result (λ right. (witness.new.id ≡ witness.old.id) × Knows B.begun (HasPassed self.old.number begin right) witness.new) }
    {
        if begin < self.audits {
            return None;
        }
        notes.meet(&mut self.note, &mut witness.note);
        let right = self.region.check() == 0;
        tell_pass::<B, Brand>(
            notes,
            &mut self.note,
            self.number,
            begin,
            right,
            &self.region,
        );
        self.audits = begin + 1;
        notes.meet(&mut witness.note, &mut self.note);
        Some(right)
    }
}
