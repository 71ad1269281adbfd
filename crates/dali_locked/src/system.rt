//! The system behind its lock.
ghost use Rattle.std.specs.Prelude.{◌≡◌, ◌≤◌, ℕ, true, false, not, [], ◌∷◌, Option as OptionOf, Some, None, Err, OnOk, OnErr, IfOk, IfErr, IfSome, IsOk, IsErrOf, IsSomeAnd, length, replicate};
ghost use Rattle.std.specs.FinMap as map;
ghost use Rattle.dali_geometry.specs.Places.{regions};
ghost use Rattle.dali_record.specs.declared.records.Record.TheVariants.{Begin, Done, Commit, Ended, AuditBegin};
ghost use Rattle.dali_record.specs.declared.records.Answer.{Answer as AnswerOf};
ghost use Rattle.dali_record.specs.Legal.{dead_of};
ghost use Rattle.dali_record.specs.Spelling.{record_length};
ghost use Rattle.dali_locks.specs.Locks.{IsAnswer};
ghost use Rattle.dali_att.specs.Table.{undos_at};
ghost use Rattle.dali_att.specs.declared.state.State.TheVariants.{Live, Dead, Cleaning as IsCleaning};
ghost use Rattle.dali_runs.specs.State.{state_of};
ghost use Rattle.dali_runs.specs.Steps.{begun, done_logged, commit_logged, ended_logged, audit_begun, audit_ended, audit_record, in_state, in_checkpoint};
ghost use Rattle.dali_runs.specs.Keeps.{moves_to};
ghost use Rattle.dali_runs.specs.Courses.{Begins, Answers, Commits, Ends, AuditBegins, AuditEnds, Claims as ClaimsIt, GivesBack as GivesItBack};
ghost use Rattle.dali_crash.specs.Checkpoints.{Does, Starts, Finishes};
ghost use Rattle.dali_transcripts.specs.Words.{StoppedBy, Full, UnderWay};
ghost use Rattle.dali_transcripts.specs.World.{Logs, Claims, GivesBack, StartsCheckpoint, EndsCheckpoint, Meets, is_dead_in, is_claimed_in};
ghost use Rattle.dali_notes.specs.History.{Added, AllMay, MayAdd};
ghost use Rattle.dali_concurrent.specs.Entries.{Did, system_note};
ghost use Rattle.dali_concurrent.specs.Told.{Leaves, OnSystem};
ghost use Rattle.dali_concurrent.specs.Kept.{SystemTold};
ghost use Rattle.dali_concurrent.specs.Stages.{Started};
ghost use Rattle.dali_system.specs.Refused.{refusal, stop_refusal};
ghost use Rattle.dali_system.specs.Audits.{audit_refusal};
ghost use Rattle.dali_system.specs.Asked.{after_request};
ghost use Rattle.dali_system.specs.Served.{promised_for};
ghost use Rattle.dali_system.specs.Promised.{promised_to, used};
ghost use Rattle.dali_system.specs.declared.want.Want.TheVariants.{Done as AnswerIsNext};
ghost use Rattle.dali_system.specs.declared.error.SystemError.TheVariants.{OutOfMemory as Memory, LogFull};
ghost use Rattle.dali_audit.specs.Findings.{AllPassed, damaged};
ghost use Rattle.dali_audit.specs.declared.audit.Finding.TheVariants.{Waiting};
ghost use Rattle.dali_calls.specs.Steps.{call_key, answer_of};
ghost use Rattle.dali_calls.specs.Plans.{mode_of, want_of, answered};
ghost use Rattle.dali_calls.specs.Stepwise.Stepwise.{IsNew};
ghost use Rattle.dali_locked.specs.Begun.{FromEach, Led, Of, may_add};
ghost use Rattle.dali_locked.specs.Sights.{HasLogged, Knows};
ghost use Rattle.dali_locked.specs.SystemSteps.{Resting, Asking, Driving, GoesOn, HasJust, Keeps, Takes, TakesClaim, LetsGo, LetsClaim, StaysAll, StaysBut, Settling, MayEnd, HasGone, Auditing, PassesTold, Cleaning, MayGiveBack, NotChecking, Checking, BothTell, IsTold};
ghost use Rattle.dali_locked.specs.Dying.{IsIdle};
ghost use Rattle.dali_locked.specs.HeadKept.{HasStage};
ghost use Rattle.dali_locked.specs.declared.error.LockedError.TheVariants.{System as BySystem, Unfit};

use crate::client::ClientNote;
use crate::error::LockedError;
use crate::history::{Beginning, Home, Mark, OfRound};
use dali_att::State;
use dali_audit::{Audit, Verdict};
use dali_calls::Plan;
use dali_locks::{LockAnswer, Mode};
use dali_notes::{Note, Notes, Tells};
use dali_record::{Answer, Pending};
use dali_region::Receipt;
use dali_runs::{Cause, Refusal};
use dali_system::{NotDead, System, SystemError};
use std::alloc::Global;
use std::marker::{Brand, Model, PhantomData};

/// The system, with its note.
#[derive(Drop)]
pub struct LockedSystem<B: Beginning, H: Home> {
    pub(crate) system: System,
    pub(crate) note: Note<Mark, OfRound<B>>,
    pub(crate) home: PhantomData<H>,
}

impl<B: Beginning, H: Home> Model for LockedSystem<B, H> {
    ghost use Rattle.std.specs.Coded.{codes};
    ghost use Rattle.std.specs.Prelude.{◌≡◌};
    ghost use Rattle.dali_system.specs.Coded.{system_code};
    ghost use Rattle.dali_system.specs.Served.{served_code};
    ghost use Rattle.dali_concurrent.specs.Entries.{system_note};
    ghost use Rattle.dali_concurrent.specs.Kept.{SystemTold};
    ghost use Rattle.dali_locked.specs.Begun.{Led, Of};
    ghost use Rattle.dali_locked.specs.Sights.{SystemSight};

    ghost Value = { SystemSight };

    ghost coded = { Prim.hlevel (codes, system_code, served_code) };

    ghost view = { λ l. record { served = l.system; seen = l.note.seen } };

    ghost invariant = { λ l. (l.note.table ≡ H.table) × (l.note.number ≡ system_note) × Led B.begun l.note.seen
        × Of B.begun (λ o T. SystemTold o l.system.state T) l.note.seen };
}

// What client and system tell of a step. Each call picks it.
trait Chosen {
    ghost use Rattle.dali_concurrent.specs.Told.{Item};

    ghost item: { Item };
}

impl Chosen for Brand {
    ghost use Rattle.dali_locked.specs.Begun.{no_item};

    ghost item = { no_item };
}

struct OfChoice<C> {
    of: PhantomData<C>,
}

impl<X, C: Chosen> Tells<X, Mark> for OfChoice<C> {
    ghost entry = { λ x. C.item };
}

// Client and system tell what was done to the system, which is picked by the client, by what the step shows and by the system behind it.
fn tell<B: Beginning, X, C: Chosen>(
    notes: &Notes<Mark, OfRound<B>>,
    client: &mut Note<Mark, OfRound<B>>,
    system: &mut Note<Mark, OfRound<B>>,
    id: u32,
    about: &X,
    after: &System,
)
    requires tables { (client.old.table ≡ notes.now.table) × (system.old.table ≡ notes.now.table) }
    requires may { MayAdd (may_add B.begun) (client.old ∷ system.old ∷ []) C.item }
    ensures client { (client.new.number ≡ client.old.number) × (client.new.table ≡ client.old.table) }
    ensures system { system.new ≡ record system.old { seen = client.new.seen } }
    ensures added { Added (client.old ∷ system.old ∷ []) C.item client.new.seen }
    ensures all { AllMay (may_add B.begun) client.new.seen }
{
    let _ = id;
    let _ = after;
    notes.add_both::<X, OfChoice<C>>(client, system, about);
}

// Whether the client is dead of the transaction that stands so.
fn is_dead(state: Option<State>) -> bool
    ensures { result ≡ is_dead_in state }
{
    matches!(state, Some(State::Dead { .. }))
}

// Whether it is live.
fn is_live(state: Option<State>) -> bool
    ensures live { result ≡ true → state ≡ Some Live }
    ensures told { state ≡ Some Live → result ≡ true }
{
    matches!(state, Some(State::Live))
}

// Whether it is claimed.
fn is_claimed(state: Option<State>) -> bool
    ensures moves { result ≡ true → IsSomeAnd state (λ s. moves_to s (Dead None) ≡ true) }
    ensures told { result ≡ is_claimed_in state }
{
    matches!(state, Some(State::Cleaning { .. }))
}

// Logs the commit of a live transaction, with the memory for what follows it.
fn log_commit(
    system: &mut System,
    alloc: Global,
    txn: u64,
) -> Result<(Vec<Pending>, Receipt), SystemError>
    requires lives { state_of system.old.state txn ≡ Some Live }
    ensures removals { IfOk result (λ given. given.0.items ≡ dead_of (undos_at system.old.state.table txn)) }
    ensures number { IfOk result (λ given. given.1.number ≡ system.old.state.records) }
    ensures system { IfOk result (λ given. system.new ≡ record {
      state = commit_logged system.old.state txn;
      promised = used (map.insert system.old.promised txn (promised_for (length given.0.items))) txn 9;
    }) }
    ensures runs { OnOk result (system.old.state.stop ≡ None) }
    ensures err { OnErr result (system.new ≡ system.old) }
    ensures refused { IfSome (stop_refusal system.old.state) (λ e. result ≡ Err e) }
    ensures memory { stop_refusal system.old.state ≡ None → IfErr result (λ e. e ≡ Memory) }
{
    let removed = system.ready(alloc, txn)?;
    let receipt = system.commit(txn)?;
    Ok((removed, receipt))
}

impl<B: Beginning, H: Home> LockedSystem<B, H> {
    /// The system where the notes are made.
    pub fn new(system: System, note: Note<Mark, OfRound<B>>) -> LockedSystem<B, H>
        requires note { (note.table ≡ H.table) × (note.number ≡ system_note) }
        requires led { Led B.begun note.seen }
        requires told { Of B.begun (λ o T. SystemTold o system.state T) note.seen }
        ensures { result ≡ record { served = system; seen = note.seen } }
    {
        LockedSystem {
            system,
            note,
            home: PhantomData,
        }
    }

    /// The system, and its note.
    pub fn into_parts(self) -> (System, Note<Mark, OfRound<B>>)
        ensures parts { (result.0 ≡ self.served) × (result.1.seen ≡ self.seen) }
        ensures note { (result.1.table ≡ H.table) × (result.1.number ≡ system_note) × Led B.begun result.1.seen }
        ensures told { Of B.begun (λ o T. SystemTold o result.0.state T) result.1.seen }
    {
        let LockedSystem {
            system,
            note,
            home: _,
        } = self;
        (system, note)
    }

    /// The client begins a transaction, whose number is answered with that of its record. Refused as any record that uses room;
    /// it takes memory for its row and its record.
    pub fn begin(
        &mut self,
        notes: &Notes<Mark, OfRound<B>>,
        client: &mut ClientNote<B, H>,
    ) -> Result<(u64, Receipt), SystemError>
        requires home { notes.now.table ≡ H.table }
        ensures number { IfOk result (λ given. (given.0 ≡ self.old.served.state.next) × (given.1.number ≡ self.old.served.state.records)) }
        ensures system { OnOk result (self.new.served ≡ record self.old.served { state = begun self.old.served.state }) }
        ensures tells { IfOk result (λ given. BothTell B.begun client.old self.old
            (Did (Logs (Begin given.0)) client.old.id, OnSystem self.new.served.state, Does Begins ∷ []) client.new self.new) }
        ensures rests { IfOk result (λ given. Knows B.begun (Resting client.old.id given.0) client.new) }
        ensures takes { IfOk result (λ given. Takes B.begun client.old given.0 client.new) }
        ensures receipt { IfOk result (λ given. Knows B.begun (HasLogged given.1.number (Begin given.0)) client.new) }
        ensures err { OnErr result ((client.new ≡ client.old) × (self.new ≡ self.old)) }
        ensures refused { IfSome (refusal self.old.served.state 9) (λ e. result ≡ Err e) }
        ensures memory { refusal self.old.served.state 9 ≡ None → IfErr result (λ e. e ≡ Memory) }
    {
        let (txn, receipt) = self.system.begin()?;
        tell::<B, u64, Brand>(
            notes,
            &mut client.note,
            &mut self.note,
            client.id,
            &txn,
            &self.system,
        );
        Ok((txn, receipt))
    }

    /// The client asks for the lock of its new plan's call. What is granted or refused is told; a wait changes nothing. Refused
    /// where the engine is stopped; it takes memory.
    pub fn request(
        &mut self,
        notes: &Notes<Mark, OfRound<B>>,
        client: &mut ClientNote<B, H>,
        plan: &Plan,
    ) -> Result<LockAnswer, SystemError>
        requires home { notes.now.table ≡ H.table }
        requires fresh { IsNew plan.now }
        requires asks { Knows B.begun (Asking client.old.id plan.now) client.old }
        requires only { Knows B.begun (HasJust client.old.id (Some plan.now.txn) None) client.old }
        ensures answer { IfOk result (IsAnswer self.old.served.state.locks plan.now.txn (call_key plan.now.call) (mode_of plan.now.call)) }
        ensures system { IfOk result (λ a. self.new.served ≡
            record self.old.served { state = after_request self.old.served.state plan.now.txn (call_key plan.now.call) (mode_of plan.now.call) a }) }
        ensures tells { IfOk result (λ a. IsTold a B.begun plan.now client.old self.old client.new self.new) }
        ensures goes { IfOk result (λ a. Knows B.begun (GoesOn a client.old.id plan.now) client.new) }
        ensures keeps { Keeps B.begun client.old client.new }
        ensures err { OnErr result ((client.new ≡ client.old) × (self.new ≡ self.old)) }
        ensures refused { IfSome (stop_refusal self.old.served.state) (λ e. result ≡ Err e) }
        ensures memory { stop_refusal self.old.served.state ≡ None → IfErr result (λ e. e ≡ Memory) }
    {
        let txn = plan.txn();
        let (key, mode) = plan.lock();
        let at = self.system.records();
        let answer = self.system.request(txn, key, mode)?;
        match answer {
            LockAnswer::Granted => {
                let asked = (txn, key, mode);
                tell::<B, (u64, u64, Mode), Brand>(
                    notes,
                    &mut client.note,
                    &mut self.note,
                    client.id,
                    &asked,
                    &self.system,
                );
                Ok(answer)
            }
            LockAnswer::Wait { .. } => Ok(answer),
            LockAnswer::Busy { holder } => {
                let refusal = Refusal {
                    txn,
                    key,
                    mode,
                    holder,
                    at,
                };
                let dead = is_dead(self.system.state(holder));
                let hindered = (refusal, dead);
                tell::<B, (Refusal, bool), Brand>(
                    notes,
                    &mut client.note,
                    &mut self.note,
                    client.id,
                    &hindered,
                    &self.system,
                );
                Ok(answer)
            }
        }
    }

    /// The client logs the answer of its plan, which wants nothing else. Refused as any record that uses room; it takes memory
    /// for its record.
    pub fn done(
        &mut self,
        notes: &Notes<Mark, OfRound<B>>,
        client: &mut ClientNote<B, H>,
        plan: &mut Plan,
    ) -> Result<(Answer, Receipt), SystemError>
        requires home { notes.now.table ≡ H.table }
        requires wants { want_of plan.old ≡ AnswerIsNext }
        requires drives { Knows B.begun (Driving client.old.id plan.old) client.old }
        ensures answer { IfOk result (λ given. (answer_of plan.old.geometry plan.old.call plan.old.stage ≡ Some given.0) × (plan.new ≡ answered plan.old)) }
        ensures number { IfOk result (λ given. given.1.number ≡ self.old.served.state.records) }
        ensures system { IfOk result (λ given. self.new.served ≡ record self.old.served { state = done_logged self.old.served.state plan.old.txn plan.old.call given.0 }) }
        ensures tells { IfOk result (λ given. BothTell B.begun client.old self.old (
          Did (Logs (Done plan.old.txn plan.old.call given.0)) client.old.id,
          OnSystem self.new.served.state,
          Does (Answers plan.old.txn plan.old.call given.0) ∷ [],
        ) client.new self.new) }
        ensures rests { OnOk result (Knows B.begun (Resting client.old.id plan.old.txn) client.new) }
        ensures keeps { Keeps B.begun client.old client.new }
        ensures receipt { IfOk result (λ given. Knows B.begun (HasLogged given.1.number (Done plan.old.txn plan.old.call given.0)) client.new) }
        ensures err { OnErr result ((client.new ≡ client.old) × (self.new ≡ self.old) × (plan.new ≡ plan.old)) }
        ensures refused { IfSome (answer_of plan.old.geometry plan.old.call plan.old.stage) (λ a.
            IfSome (refusal self.old.served.state (record_length (Done plan.old.txn plan.old.call a))) (λ e. result ≡ Err e)) }
        ensures memory { IfSome (answer_of plan.old.geometry plan.old.call plan.old.stage) (λ a.
            refusal self.old.served.state (record_length (Done plan.old.txn plan.old.call a)) ≡ None → IfErr result (λ e. e ≡ Memory)) }
    {
        let _whole = plan.wants();
        let (answer, receipt) = plan.done(&mut self.system)?;
        tell::<B, Plan, Brand>(
            notes,
            &mut client.note,
            &mut self.note,
            client.id,
            plan,
            &self.system,
        );
        Ok((answer, receipt))
    }

    /// The client logs the commit of its transaction, and is answered what that removed, which its solos are to free. Memory is
    /// promised for these and for the end. `System` where the engine is stopped, or memory is refused.
    pub fn commit(
        &mut self,
        notes: &Notes<Mark, OfRound<B>>,
        client: &mut ClientNote<B, H>,
        alloc: Global,
        txn: u64,
    ) -> Result<(Vec<Pending>, Receipt), LockedError>
        requires home { notes.now.table ≡ H.table }
        requires rests { Knows B.begun (Resting client.old.id txn) client.old }
        ensures removals { IfOk result (λ given. given.0.items ≡ dead_of (undos_at self.old.served.state.table txn)) }
        ensures number { IfOk result (λ given. given.1.number ≡ self.old.served.state.records) }
        ensures system { IfOk result (λ given. self.new.served ≡ record {
          state = commit_logged self.old.served.state txn;
          promised = used (map.insert self.old.served.promised txn (promised_for (length given.0.items))) txn 9;
        }) }
        ensures tells { OnOk result (BothTell B.begun client.old self.old
            (Did (Logs (Commit txn)) client.old.id, OnSystem self.new.served.state, Does (Commits txn) ∷ []) client.new self.new) }
        ensures settles { IfOk result (λ given. Knows B.begun (Settling client.old.id txn given.0.items) client.new) }
        ensures keeps { Keeps B.begun client.old client.new }
        ensures receipt { IfOk result (λ given. Knows B.begun (HasLogged given.1.number (Commit txn)) client.new) }
        ensures err { OnErr result ((client.new ≡ client.old) × (self.new.served ≡ self.old.served)) }
        ensures same { IfErr result (λ e. (e ≡ Unfit → ⊥) → self.new ≡ self.old) }
        ensures refused { IfSome (stop_refusal self.old.served.state) (λ e. result ≡ Err (BySystem e)) }
        ensures memory { stop_refusal self.old.served.state ≡ None → IfErr result (λ e. (e ≡ Unfit → ⊥) → e ≡ BySystem Memory) }
        ensures unfit { IsErrOf result Unfit → FromEach B.begun (λ s p. ⊥) }
    {
        if let Some(cause) = self.system.stopped() {
            let cause = SystemError::Stopped { cause };
            return Err(LockedError::System { cause });
        }
        if !is_live(self.system.state(txn)) {
            notes.meet(&mut self.note, &mut client.note);
            return Err(LockedError::Unfit);
        }
        let (removed, receipt) = match log_commit(&mut self.system, alloc, txn) {
            Ok(given) => given,
            Err(cause) => return Err(LockedError::System { cause }),
        };
        tell::<B, u64, Brand>(
            notes,
            &mut client.note,
            &mut self.note,
            client.id,
            &txn,
            &self.system,
        );
        Ok((removed, receipt))
    }

    /// The client logs the end of its transaction, which has nothing left to be taken back or freed. Refused where the engine is
    /// stopped; it takes memory only where fewer than its 9 bytes are promised to the transaction.
    pub fn ended(
        &mut self,
        notes: &Notes<Mark, OfRound<B>>,
        client: &mut ClientNote<B, H>,
        txn: u64,
    ) -> Result<Receipt, SystemError>
        requires home { notes.now.table ≡ H.table }
        requires may { Knows B.begun (MayEnd client.old.id txn) client.old }
        ensures number { IfOk result (λ given. given.number ≡ self.old.served.state.records) }
        ensures system { OnOk result (self.new.served ≡ record { state = ended_logged self.old.served.state txn; promised = map.remove self.old.served.promised txn }) }
        ensures tells { OnOk result (BothTell B.begun client.old self.old
            (Did (Logs (Ended txn)) client.old.id, OnSystem self.new.served.state, Does (Ends txn) ∷ []) client.new self.new) }
        ensures gone { OnOk result (Knows B.begun (HasGone txn) client.new) }
        ensures lets { OnOk result (LetsGo B.begun client.old txn client.new × LetsClaim B.begun client.old txn client.new) }
        ensures beside { OnOk result (StaysBut B.begun client.old txn client.new) }
        ensures receipt { IfOk result (λ given. Knows B.begun (HasLogged given.number (Ended txn)) client.new) }
        ensures err { OnErr result ((client.new ≡ client.old) × (self.new ≡ self.old)) }
        ensures refused { IfSome (stop_refusal self.old.served.state) (λ e. result ≡ Err e) }
        ensures memory { stop_refusal self.old.served.state ≡ None → IfErr result (λ e. e ≡ Memory) }
        ensures promised { stop_refusal self.old.served.state ≡ None → 9 ≤ promised_to self.old.served.promised txn → IsOk result }
    {
        let receipt = self.system.ended(txn)?;
        tell::<B, u64, Brand>(
            notes,
            &mut client.note,
            &mut self.note,
            client.id,
            &txn,
            &self.system,
        );
        Ok(receipt)
    }

    /// The client begins an audit of all regions. Refused where the engine is stopped, or the log is full by the limit of audits;
    /// it takes memory for all passes, and for its record.
    pub fn begin_audit(
        &mut self,
        notes: &Notes<Mark, OfRound<B>>,
        client: &mut ClientNote<B, H>,
        alloc: Global,
    ) -> Result<Audit, SystemError>
        requires home { notes.now.table ≡ H.table }
        ensures audit { IfOk result (λ audit. audit ≡ record { begin = self.old.served.state.records; findings = replicate (regions self.old.served.state.sizes) Waiting }) }
        ensures system { OnOk result (self.new.served ≡ record self.old.served { state = audit_begun self.old.served.state }) }
        ensures tells { OnOk result (BothTell B.begun client.old self.old
            (Did (Logs AuditBegin) client.old.id, OnSystem self.new.served.state, Does AuditBegins ∷ []) client.new self.new) }
        ensures audits { IfOk result (λ audit. Knows B.begun (Auditing client.old.id audit.begin) client.new) }
        ensures keeps { Keeps B.begun client.old client.new }
        ensures receipt { IfOk result (λ audit. Knows B.begun (HasLogged audit.begin AuditBegin) client.new) }
        ensures err { OnErr result ((client.new ≡ client.old) × (self.new ≡ self.old)) }
        ensures refused { IfSome (audit_refusal self.old.served.state AuditBegin) (λ e. result ≡ Err e) }
        ensures memory { audit_refusal self.old.served.state AuditBegin ≡ None → IfErr result (λ e. e ≡ Memory) }
    {
        let audit = Audit::begin(alloc, &mut self.system)?;
        tell::<B, (), Brand>(
            notes,
            &mut client.note,
            &mut self.note,
            client.id,
            &(),
            &self.system,
        );
        Ok(audit)
    }

    /// The client logs what its audit found, which has passed each region: that all are clean, or which are not, and then the
    /// engine stops. Refused where that is stopped; it takes memory for its record.
    pub fn end_audit(
        &mut self,
        notes: &Notes<Mark, OfRound<B>>,
        client: &mut ClientNote<B, H>,
        audit: Audit,
    ) -> Result<Verdict, SystemError>
        requires home { notes.now.table ≡ H.table }
        requires passed { AllPassed audit.findings }
        requires audits { Knows B.begun (Auditing client.old.id audit.begin) client.old }
        requires told { Knows B.begun (PassesTold audit.begin audit.findings) client.old }
        ensures verdict { IfOk result (λ verdict. verdict ≡ record { begin = audit.begin; failing = damaged audit.findings }) }
        ensures system { OnOk result (self.new.served ≡ record self.old.served { state = audit_ended self.old.served.state audit.begin (damaged audit.findings) }) }
        ensures tells { OnOk result (BothTell B.begun client.old self.old (
          Did (Logs (audit_record audit.begin (damaged audit.findings))) client.old.id,
          OnSystem self.new.served.state,
          Does (AuditEnds audit.begin (damaged audit.findings)) ∷ [],
        ) client.new self.new) }
        ensures keeps { Keeps B.begun client.old client.new }
        ensures receipt { OnOk result (Knows B.begun (HasLogged self.old.served.state.records (audit_record audit.begin (damaged audit.findings))) client.new) }
        ensures err { OnErr result ((client.new ≡ client.old) × (self.new ≡ self.old)) }
        ensures refused { IfSome (stop_refusal self.old.served.state) (λ e. result ≡ Err e) }
        ensures memory { stop_refusal self.old.served.state ≡ None → IfErr result (λ e. e ≡ Memory) }
    {
        let _few = audit.waits(0);
        let verdict = audit.end(&mut self.system)?;
        tell::<B, Verdict, Brand>(
            notes,
            &mut client.note,
            &mut self.note,
            client.id,
            &verdict,
            &self.system,
        );
        Ok(verdict)
    }

    /// The client claims a dead transaction, and is answered the region that is latched for it still, if one is. It takes no
    /// memory.
    pub fn claim(
        &mut self,
        notes: &Notes<Mark, OfRound<B>>,
        client: &mut ClientNote<B, H>,
        txn: u64,
    ) -> Result<Option<u32>, NotDead>
        requires home { notes.now.table ≡ H.table }
        ensures dead { IfOk result (λ latched. state_of self.old.served.state txn ≡ Some (Dead latched)) }
        ensures system { IfOk result (λ latched. self.new.served ≡ record self.old.served { state = in_state self.old.served.state txn (IsCleaning latched) }) }
        ensures tells { OnOk result (BothTell B.begun client.old self.old
            (Did (Claims txn) client.old.id, OnSystem self.new.served.state, Does (ClaimsIt txn) ∷ []) client.new self.new) }
        ensures idle { OnOk result (Knows B.begun (IsIdle txn) client.new) }
        ensures clear { IfOk result (λ latched. latched ≡ None → Knows B.begun (MayGiveBack client.old.id txn) client.new) }
        ensures cleans { IfOk result (λ latched. Knows B.begun (Cleaning client.old.id txn latched) client.new) }
        ensures takes { OnOk result (TakesClaim B.begun client.old txn client.new) }
        ensures beside { OnOk result (StaysBut B.begun client.old txn client.new) }
        ensures err { OnErr result ((client.new ≡ client.old) × (self.new ≡ self.old)) }
        ensures not_dead { OnErr result ((latched : OptionOf ℕ) → state_of self.old.served.state txn ≡ Some (Dead latched) → ⊥) }
    {
        let latched = self.system.claim(txn)?;
        tell::<B, u64, Brand>(
            notes,
            &mut client.note,
            &mut self.note,
            client.id,
            &txn,
            &self.system,
        );
        Ok(latched)
    }

    /// The client gives its claim back of a transaction for which no region is latched any more. It takes no memory.
    pub fn give_back(
        &mut self,
        notes: &Notes<Mark, OfRound<B>>,
        client: &mut ClientNote<B, H>,
        txn: u64,
    ) -> Result<(), LockedError>
        requires home { notes.now.table ≡ H.table }
        requires may { Knows B.begun (MayGiveBack client.old.id txn) client.old }
        ensures system { OnOk result (self.new.served ≡ record self.old.served { state = in_state self.old.served.state txn (Dead None) }) }
        ensures tells { OnOk result (BothTell B.begun client.old self.old
            (Did (GivesBack txn None) client.old.id, OnSystem self.new.served.state, Does (GivesItBack txn None) ∷ []) client.new self.new) }
        ensures lets { OnOk result (LetsClaim B.begun client.old txn client.new) }
        ensures beside { OnOk result (StaysBut B.begun client.old txn client.new) }
        ensures err { OnErr result ((client.new ≡ client.old) × (self.new.served ≡ self.old.served)) }
        ensures unfit { IfErr result (λ e. (e ≡ Unfit) × FromEach B.begun (λ s p. ⊥)) }
    {
        if !is_claimed(self.system.state(txn)) {
            notes.meet(&mut self.note, &mut client.note);
            return Err(LockedError::Unfit);
        }
        self.system.mark_dead(txn, None);
        tell::<B, u64, Brand>(
            notes,
            &mut client.note,
            &mut self.note,
            client.id,
            &txn,
            &self.system,
        );
        Ok(())
    }

    /// The client starts a checkpoint. False where one is under way already, which is another client's: so it is told then that the
    /// client meets it. It takes no memory.
    pub fn start_checkpoint(
        &mut self,
        notes: &Notes<Mark, OfRound<B>>,
        client: &mut ClientNote<B, H>,
    ) -> bool
        requires home { notes.now.table ≡ H.table }
        requires idle { Knows B.begun (NotChecking client.old.id) client.old }
        ensures was { result ≡ not self.old.served.state.checking }
        ensures system { self.new.served ≡ record self.old.served { state = in_checkpoint self.old.served.state true } }
        ensures starts { result ≡ true → BothTell B.begun client.old self.old (Did StartsCheckpoint client.old.id, OnSystem self.new.served.state, Starts ∷ []) client.new self.new }
        ensures meets { result ≡ false → BothTell B.begun client.old self.old (Did (Meets UnderWay) client.old.id, Leaves, []) client.new self.new }
        ensures checks { result ≡ true → Knows B.begun (Checking client.old.id) client.new }
        ensures stage { result ≡ true → Knows B.begun (HasStage client.old.id Started) client.new }
        ensures still { result ≡ false → Knows B.begun (NotChecking client.old.id) client.new }
        ensures keeps { Keeps B.begun client.old client.new }
    {
        let started = self.system.start_copy();
        if started {
            tell::<B, bool, Brand>(
                notes,
                &mut client.note,
                &mut self.note,
                client.id,
                &true,
                &self.system,
            );
        } else {
            tell::<B, bool, Brand>(
                notes,
                &mut client.note,
                &mut self.note,
                client.id,
                &false,
                &self.system,
            );
        }
        started
    }

    /// The client's checkpoint ends. It takes no memory.
    pub fn end_checkpoint(&mut self, notes: &Notes<Mark, OfRound<B>>, client: &mut ClientNote<B, H>)
        requires home { notes.now.table ≡ H.table }
        requires checks { Knows B.begun (Checking client.old.id) client.old }
        ensures system { self.new.served ≡ record self.old.served { state = in_checkpoint self.old.served.state false } }
        ensures tells { BothTell B.begun client.old self.old (Did EndsCheckpoint client.old.id, OnSystem self.new.served.state, Finishes ∷ []) client.new self.new }
        ensures ended { Knows B.begun (NotChecking client.old.id) client.new }
        ensures keeps { Keeps B.begun client.old client.new }
    {
        self.system.end_copy();
        tell::<B, (), Brand>(
            notes,
            &mut client.note,
            &mut self.note,
            client.id,
            &(),
            &self.system,
        );
    }

    /// The client meets the stop of the engine, and is told its cause; nothing is told where the engine runs. It takes no memory.
    pub fn meet_stop(
        &mut self,
        notes: &Notes<Mark, OfRound<B>>,
        client: &mut ClientNote<B, H>,
    ) -> Option<Cause>
        requires home { notes.now.table ≡ H.table }
        ensures cause { result ≡ self.old.served.state.stop }
        ensures system { self.new.served ≡ self.old.served }
        ensures meets { IfSome result (λ cause. BothTell B.begun client.old self.old (Did (Meets (StoppedBy cause)) client.old.id, Leaves, []) client.new self.new) }
        ensures runs { result ≡ None → (client.new ≡ client.old) × (self.new ≡ self.old) }
        ensures keeps { Keeps B.begun client.old client.new }
        ensures stays { StaysAll B.begun client.old client.new }
    {
        let cause = self.system.stopped()?;
        tell::<B, Cause, Brand>(
            notes,
            &mut client.note,
            &mut self.note,
            client.id,
            &cause,
            &self.system,
        );
        Some(cause)
    }
    /// The client meets a log that has no room for the begin of a transaction. It takes no memory.
    pub fn meet_full_begin(
        &mut self,
        notes: &Notes<Mark, OfRound<B>>,
        client: &mut ClientNote<B, H>,
        end: u64,
        limit: u64,
    )
        requires home { notes.now.table ≡ H.table }
        requires full { refusal self.old.served.state 9 ≡ Some (LogFull end limit) }
        ensures system { self.new.served ≡ self.old.served }
        ensures meets { BothTell B.begun client.old self.old (Did (Meets (Full end limit)) client.old.id, Leaves, []) client.new self.new }
        ensures keeps { Keeps B.begun client.old client.new }
    {
        let room = (end, limit);
        tell::<B, (u64, u64), Brand>(
            notes,
            &mut client.note,
            &mut self.note,
            client.id,
            &room,
            &self.system,
        );
    }

    /// So it meets one that has none for its plan's answer. It takes no memory.
    pub fn meet_full_answer(
        &mut self,
        notes: &Notes<Mark, OfRound<B>>,
        client: &mut ClientNote<B, H>,
        plan: &Plan,
        end: u64,
        limit: u64,
    )
        requires home { notes.now.table ≡ H.table }
        requires wants { want_of plan.now ≡ AnswerIsNext }
        requires drives { Knows B.begun (Driving client.old.id plan.now) client.old }
        requires full { (a : AnswerOf) × (answer_of plan.now.geometry plan.now.call plan.now.stage ≡ Some a)
            × (refusal self.old.served.state (record_length (Done plan.now.txn plan.now.call a)) ≡ Some (LogFull end limit)) }
        ensures system { self.new.served ≡ self.old.served }
        ensures meets { BothTell B.begun client.old self.old (Did (Meets (Full end limit)) client.old.id, Leaves, []) client.new self.new }
        ensures keeps { Keeps B.begun client.old client.new }
        ensures stays { StaysAll B.begun client.old client.new }
    {
        let _whole = plan.wants();
        let room = (end, limit);
        tell::<B, (u64, u64), Brand>(
            notes,
            &mut client.note,
            &mut self.note,
            client.id,
            &room,
            &self.system,
        );
    }

    /// And one that has none for the begin of an audit, whose limit is larger. It takes no memory.
    pub fn meet_full_audit(
        &mut self,
        notes: &Notes<Mark, OfRound<B>>,
        client: &mut ClientNote<B, H>,
        end: u64,
        limit: u64,
    )
        requires home { notes.now.table ≡ H.table }
        requires full { audit_refusal self.old.served.state AuditBegin ≡ Some (LogFull end limit) }
        ensures system { self.new.served ≡ self.old.served }
        ensures meets { BothTell B.begun client.old self.old (Did (Meets (Full end limit)) client.old.id, Leaves, []) client.new self.new }
        ensures keeps { Keeps B.begun client.old client.new }
    {
        let room = (end, limit);
        tell::<B, (u64, u64), Brand>(
            notes,
            &mut client.note,
            &mut self.note,
            client.id,
            &room,
            &self.system,
        );
    }
}
