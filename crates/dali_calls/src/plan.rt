//! The plan of one call.
ghost use Rattle.std.specs.Prelude.{◌≡◌, ◌≤◌, ◌+◌, ◌&&◌, [], ◌++◌, not, Some, None, Ok, Err, OnOk, OnErr, IfOk, IfErr, IfSome, IsSome, IsSomeAnd, true, false, is_some, length};
ghost use Rattle.dali_record.specs.declared.records.Record.TheVariants.{Forward, Done};
ghost use Rattle.dali_record.specs.Calls.{follow};
ghost use Rattle.dali_record.specs.Calls;
ghost use Rattle.dali_record.specs.Log.{drop_last, undo_added};
ghost use Rattle.dali_record.specs.Blocks.{IsSoundOn};
ghost use Rattle.dali_record.specs.Spelling.{IsCall, record_length};
ghost use Rattle.dali_region.specs.State.{latched, with_reads, touched, taken_back};
ghost use Rattle.dali_region.specs.Answers.{latch_answer};
ghost use Rattle.dali_runs.specs.State.{row_of};
ghost use Rattle.dali_runs.specs.Steps.{op_logged, back_logged, done_logged};
ghost use Rattle.dali_runs.specs.Keeps.{HasRoom};
ghost use Rattle.dali_runs.specs.Regions.{IsOpen};
ghost use Rattle.dali_system.specs.Refused.{refusal};
ghost use Rattle.dali_system.specs.UnderWay.{IsUnderWay, OneIsUnderWay, WritesNext, all_written};
ghost use Rattle.dali_system.specs.Receipts.{GivesReceipt};
ghost use Rattle.dali_system.specs.declared.error.SystemError.TheVariants.{OutOfMemory as Memory};
ghost use Rattle.dali_system.specs.declared.want.Want.TheVariants.{Done as AnswerIsNext};
ghost use Rattle.dali_calls.specs.declared.stage.Stage.TheVariants.{Fresh};
ghost use Rattle.dali_calls.specs.declared.plan.Phase.TheVariants.{Calling, Refused, Answered};
ghost use Rattle.dali_calls.specs.Steps.{call_key, progress_of, answer_of, region_in, IsBlockOf};
ghost use Rattle.dali_calls.specs.Plans.{Planned, plan_next, want_of, mode_of, with_operation, refused, answered, went_back, commit_refusal, GoesOn, IsWhole};
ghost use Rattle.dali_calls.specs.Plans;

use crate::changes::Changes;
use crate::stage::{Stage, key_of};
use dali_geometry::Geometry;
use dali_locks::Mode;
use dali_record::{Answer, Block, Call, Op, undo_op};
use dali_region::{LatchError, Receipt, Region};
use dali_system::{OpenOperation, System, SystemError, Want};
use std::marker::Model;

/// Where a plan stands.
#[derive(Clone, Copy, PartialEq, Eq)]
pub enum Phase {
    /// It makes the operations of its call.
    Calling,
    /// It was refused, and takes back what it changed.
    Refused,
    /// Its answer is logged.
    Answered,
}

/// The operations of one call of a transaction, made one after another, and its answer.
///
/// A step is `wants`, then on the region that it names `latch`, `update` until it answers false, and `commit`. An
/// answer that says that nothing fits, or that something odd was found, comes after the call's own changes were taken
/// back; so does the end of a plan that was refused. A plan takes no memory; the system does at `commit` and `done`.
#[derive(Drop)]
pub struct Plan {
    geometry: Geometry,
    txn: u64,
    call: Call,
    stage: Stage,
    phase: Phase,
    changes: Changes,
    operation: OpenOperation,
}

impl Model for Plan {
    ghost use Rattle.dali_calls.specs.Plans.{Planned};
    ghost use Rattle.dali_calls.specs.Fields.{planned_of, IsWholeInside};

    ghost Value = { Planned };

    ghost view = { planned_of };

    ghost invariant = { IsWholeInside };
}

// Whether the changes of a call are taken back before this answer.
fn takes_back(answer: &Answer) -> bool
    ensures { result ≡ Calls.takes_back answer.now }
{
    matches!(
        answer,
        Answer::FullHeap | Answer::FullIndex | Answer::Odd { .. }
    )
}

// Whether an operation latches with the precheck: one that takes back doesn't.
fn prechecks(back: bool, precheck: bool) -> bool
    ensures { result ≡ (not back && precheck) }
{
    !back && precheck
}

// Notes what takes the block back, where it changed something.
fn note_change(changes: &mut Changes, block: &Block)
    requires room { length changes.old + length (undo_added block.now block.now.undo) ≤ 2 }
    ensures { changes.new ≡ changes.old ++ undo_added block.now block.now.undo }
{
    if let Some(undo) = block.undo {
        changes.push(block.pending(undo));
    }
}

impl Plan {
    /// The plan of a call that has made no operation.
    pub fn new(geometry: Geometry, txn: u64, call: Call) -> Self
        requires { IsCall call }
        ensures { result ≡ record { geometry = geometry; txn = txn; call = call; stage = Fresh; phase = Calling; changes = []; operation = None } }
    {
        let _in_range = geometry.index();
        Plan {
            geometry,
            txn,
            call,
            stage: Stage::Fresh,
            phase: Phase::Calling,
            changes: Changes::new(),
            operation: OpenOperation::none(),
        }
    }

    /// The sizes of the database whose regions it names.
    pub fn geometry(&self) -> Geometry
        ensures { result ≡ self.now.geometry }
    {
        self.geometry
    }

    /// The transaction whose call the plan is.
    pub fn txn(&self) -> u64
        ensures { result ≡ self.now.txn }
    {
        self.txn
    }

    /// Whether an operation is open.
    pub fn is_open(&self) -> bool
        ensures { result ≡ is_some self.now.operation }
    {
        self.operation.is_open()
    }

    /// Whether an operation is open, all of whose words are written: then `commit` logs its block. So who gives up the
    /// region between two words need not lock it once more to learn that none is left.
    pub fn is_written(&self) -> bool
        ensures { result ≡ all_written self.now.operation }
    {
        self.operation.is_written()
    }

    /// The key of its call, and the mode in which the transaction is to hold it: alone, unless the call is a get.
    pub fn lock(&self) -> (u64, Mode)
        ensures { result ≡ (call_key self.now.call, mode_of self.now.call) }
    {
        let mode = match self.call {
            Call::Get { .. } => Mode::Shared,
            _ => Mode::Exclusive,
        };
        (key_of(&self.call), mode)
    }

    /// Whether its next operation takes back a change of the call, and doesn't go on with it.
    pub fn is_back(&self) -> bool
        ensures { result ≡ Plans.is_back self.now }
    {
        match self.phase {
            Phase::Calling => match self.stage.answer(&self.geometry, &self.call) {
                Some(answer) => takes_back(&answer) && !self.changes.is_empty(),
                None => false,
            },
            Phase::Refused => true,
            Phase::Answered => false,
        }
    }

    // The next operation and its region.
    fn next(&self) -> Option<(u32, Op)>
        ensures { result ≡ plan_next self.now }
    {
        if !self.changes.is_empty() && self.is_back() {
            let last = self.changes.last()?;
            return Some((last.region, undo_op(&last.undo)));
        }
        match self.phase {
            Phase::Calling => self.stage.next(&self.geometry, self.txn, &self.call),
            _ => None,
        }
    }

    // The region of the next operation.
    fn next_region(&self) -> Option<u32>
        ensures { result ≡ region_in (plan_next self.now) }
    {
        if !self.changes.is_empty() && self.is_back() {
            return Some(self.changes.last()?.region);
        }
        match self.phase {
            Phase::Calling => self.stage.next_region(&self.geometry, self.txn, &self.call),
            _ => None,
        }
    }

    /// What the plan needs next.
    pub fn wants(&self) -> Want
        ensures wants { result ≡ want_of self.now }
        ensures whole { IsWhole self.now }
    {
        match self.next_region() {
            Some(region) => Want::Region { region },
            None => match self.phase {
                Phase::Calling => Want::Done,
                _ => Want::Nothing,
            },
        }
    }

    /// Latches the region that is wanted, and makes the block of the next operation on its words. What takes back
    /// latches without the precheck. Refused exactly as the latch; plan and region are then as before.
    pub fn latch(&mut self, region: &mut Region, precheck: bool) -> Result<(), LatchError>
        requires wants { IsSome (plan_next self.old) }
        requires closed { self.old.operation ≡ None }
        ensures answer { result ≡ latch_answer (not (Plans.is_back self.old) && precheck) region.old }
        ensures refused { OnErr result ((self.new ≡ self.old) × (region.new ≡ region.old)) }
        ensures checked { Plans.is_back self.old ≡ false → precheck ≡ true → OnOk result (region.old.stray ≡ 0) }
        ensures made { OnOk result (IsSomeAnd self.new.operation (λ o. (o.txn ≡ self.old.txn) × IsBlockOf (plan_next self.old) (call_key self.old.call) o.block
            × IsUnderWay o.txn o.block o.left o.taken region.new × (region.new ≡ with_reads o.block.read (latched self.old.txn region.old)))) }
        ensures sound { OnOk result (IsSomeAnd self.new.operation (λ o. IsSoundOn region.old.words o.block)) }
        ensures same { self.new ≡ with_operation self.old self.new.operation }
    {
        let Some((number, op)) = self.next() else {
            unreachable!()
        };
        let checks = prechecks(self.is_back(), precheck);
        self.operation
            .start(region, number, self.txn, key_of(&self.call), op, checks)?;
        Ok(())
    }

    /// Writes the next word of the open operation; false exactly where none is left.
    pub fn update(&mut self, region: &mut Region) -> bool
        requires under_way { OneIsUnderWay self.old.operation region.old }
        ensures writes { WritesNext self.old.operation region.old result self.new.operation region.new }
        ensures rest { self.new ≡ with_operation self.old self.new.operation }
    {
        self.operation.update(region)
    }

    // Takes back the words of the open operation, whose record was refused; then none is open.
    fn let_go(&mut self, region: &mut Region)
        requires { IsSome region.old.hold }
        ensures closed { self.new ≡ with_operation self.old None }
        ensures taken_back { region.new ≡ taken_back region.old }
    {
        self.operation.close();
        region.take_back();
    }

    // The open operation goes on with the call.
    fn commit_onward(
        &mut self,
        region: &mut Region,
        system: &mut System,
    ) -> Result<Receipt, SystemError>
        requires way { Plans.is_back self.old ≡ false }
        requires written { IsSomeAnd self.old.operation (λ o. IsOpen region.old o.txn o.block) }
        requires running { IsSome (row_of system.old.state self.old.txn) }
        ensures ok { OnOk result (IfSome self.old.operation (λ o. (system.new ≡ record system.old { state = op_logged system.old.state self.old.txn o.block }) × (region.new ≡ touched region.old) × GoesOn self.old o.block self.new)) }
        ensures number { IfOk result (λ receipt. receipt.number ≡ system.old.state.records) }
        ensures room { OnOk result (IfSome self.old.operation (λ o. HasRoom system.old.state (Forward self.old.txn o.block))) }
        ensures err { OnErr result ((system.new ≡ system.old) × (region.new ≡ taken_back region.old) × (self.new ≡ with_operation self.old None)) }
        ensures refused { IfSome self.old.operation (λ o. IfSome (refusal system.old.state (record_length (Forward self.old.txn o.block))) (λ e. result ≡ Err e)) }
        ensures memory { IfSome self.old.operation (λ o. refusal system.old.state (record_length (Forward self.old.txn o.block)) ≡ None → IfErr result (λ e. e ≡ Memory)) }
    {
        let Some(operation) = self.operation.get() else {
            unreachable!()
        };
        let block = operation.block();
        match system.commit_op(region, self.txn, block) {
            Ok(receipt) => {
                note_change(&mut self.changes, block);
                self.stage = self
                    .stage
                    .after(&self.geometry, self.txn, &self.call, block);
                self.operation.close();
                Ok(receipt)
            }
            Err(error) => {
                self.let_go(region);
                Err(error)
            }
        }
    }

    // The open operation takes back the last change.
    fn commit_back(
        &mut self,
        region: &mut Region,
        system: &mut System,
    ) -> Result<Receipt, SystemError>
        requires way { Plans.is_back self.old ≡ true }
        requires written { IsSomeAnd self.old.operation (λ o. IsOpen region.old o.txn o.block) }
        ensures ok { OnOk result (IfSome self.old.operation (λ o. (system.new ≡ record system.old { state = back_logged system.old.state self.old.txn o.block }) × (region.new ≡ touched region.old) × (self.new ≡ went_back self.old))) }
        ensures receipt { GivesReceipt system.old.state ((system.new ≡ system.old) × (region.new ≡ taken_back region.old) × (self.new ≡ with_operation self.old None)) result }
    {
        let Some(operation) = self.operation.get() else {
            unreachable!()
        };
        match system.back_op(region, self.txn, operation.block()) {
            Ok(receipt) => {
                self.changes.pop();
                self.operation.close();
                Ok(receipt)
            }
            Err(error) => {
                self.let_go(region);
                Err(error)
            }
        }
    }

    /// Logs the block of the open operation, all of whose words are written. Where that is refused the operation is
    /// taken back, and the plan wants the region again; it may be refused.
    pub fn commit(
        &mut self,
        region: &mut Region,
        system: &mut System,
    ) -> Result<Receipt, SystemError>
        requires written { IsSomeAnd self.old.operation (λ o. IsOpen region.old o.txn o.block) }
        requires running { IsSome (row_of system.old.state self.old.txn) }
        ensures onward { Plans.is_back self.old ≡ false → OnOk result (IfSome self.old.operation (λ o. (system.new ≡ record system.old { state = op_logged system.old.state self.old.txn o.block }) × HasRoom system.old.state (Forward self.old.txn o.block) × GoesOn self.old o.block self.new)) }
        ensures back { Plans.is_back self.old ≡ true → OnOk result (IfSome self.old.operation (λ o. (system.new ≡ record system.old { state = back_logged system.old.state self.old.txn o.block }) × (system.old.state.stop ≡ None) × (self.new ≡ went_back self.old))) }
        ensures ok { OnOk result (region.new ≡ touched region.old) }
        ensures number { IfOk result (λ receipt. receipt.number ≡ system.old.state.records) }
        ensures err { OnErr result ((system.new ≡ system.old) × (region.new ≡ taken_back region.old) × (self.new ≡ with_operation self.old None)) }
        ensures refused { IfSome self.old.operation (λ o. IfSome (commit_refusal (Plans.is_back self.old) system.old.state (record_length (Forward self.old.txn o.block))) (λ e. result ≡ Err e)) }
        ensures memory { IfSome self.old.operation (λ o. commit_refusal (Plans.is_back self.old) system.old.state (record_length (Forward self.old.txn o.block)) ≡ None → IfErr result (λ e. e ≡ Memory)) }
    {
        if self.is_back() {
            return self.commit_back(region, system);
        }
        self.commit_onward(region, system)
    }

    /// Turns to taking back what the call has changed. No operation is open then.
    pub fn refuse(&mut self)
        requires closed { self.old.operation ≡ None }
        requires before { Plans.is_answered self.old.phase ≡ false }
        ensures { self.new ≡ refused self.old }
    {
        self.phase = Phase::Refused;
    }

    /// Logs the call's answer.
    pub fn done(&mut self, system: &mut System) -> Result<(Answer, Receipt), SystemError>
        requires wants { want_of self.old ≡ AnswerIsNext }
        ensures ok { IfOk result (λ given. (answer_of self.old.geometry self.old.call self.old.stage ≡ Some given.0)
            × (system.new ≡ record system.old { state = done_logged system.old.state self.old.txn self.old.call given.0 })) }
        ensures answered { OnOk result (self.new ≡ answered self.old) }
        ensures number { IfOk result (λ given. given.1.number ≡ system.old.state.records) }
        ensures room { IfOk result (λ given. HasRoom system.old.state (Done self.old.txn self.old.call given.0)) }
        ensures err { OnErr result ((system.new ≡ system.old) × (self.new ≡ self.old)) }
        ensures refused { IfSome (answer_of self.old.geometry self.old.call self.old.stage) (λ a. IfSome (refusal system.old.state (record_length (Done self.old.txn self.old.call a))) (λ e. result ≡ Err e)) }
        ensures memory { IfSome (answer_of self.old.geometry self.old.call self.old.stage) (λ a. refusal system.old.state (record_length (Done self.old.txn self.old.call a)) ≡ None → IfErr result (λ e. e ≡ Memory)) }
    {
        let Some(answer) = self.stage.answer(&self.geometry, &self.call) else {
            unreachable!()
        };
        let receipt = system.done(self.txn, &self.call, &answer)?;
        self.phase = Phase::Answered;
        Ok((answer, receipt))
    }
}
