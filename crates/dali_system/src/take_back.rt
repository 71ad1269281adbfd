//! The plan that takes a transaction back.
ghost use Rattle.std.specs.Prelude.{◌≡◌, None, OnOk, OnErr, IfSome, IsSomeAnd};
ghost use Rattle.dali_record.specs.Spelling.{IsUndo};
ghost use Rattle.dali_region.specs.State.{latched, with_reads, touched, taken_back};
ghost use Rattle.dali_region.specs.Answers.{latch_answer};
ghost use Rattle.dali_att.specs.Table.{undos_at};
ghost use Rattle.dali_runs.specs.Steps.{back_logged};
ghost use Rattle.dali_runs.specs.Regions.{IsOpen};
ghost use Rattle.dali_system.specs.Receipts.{GivesReceipt};
ghost use Rattle.dali_system.specs.TakenBack.{next_undo, want_of, IsUndoBlock, IsUndoOn};
ghost use Rattle.dali_system.specs.UnderWay.{IsUnderWay, OneIsUnderWay, WritesNext, all_written};

use crate::error::SystemError;
use crate::operation::Operation;
use crate::system::System;
use crate::want::Want;
use dali_record::{Pending, undo_op};
use dali_region::{LatchError, Receipt, Region};

// The undo that is performed next.
fn next_undo(system: &System, txn: u64, down_to: usize) -> Option<Pending>
    ensures next { result ≡ next_undo (undos_at system.now.state.table txn) down_to }
    ensures undoes { IfSome result (λ u. IsUndo u.undo) }
{
    if system.table().undos(txn).len() > down_to {
        return system.last_undo(txn);
    }
    None
}

/// Takes a transaction back: performs its undos, from the last one, until so many are left.
///
/// A step is `wants`, then on the region that it names `latch`, `update` until it answers false, and `commit`. It takes
/// no memory; the system does at `commit`.
#[derive(Drop)]
pub struct TakeBack {
    txn: u64,
    down_to: usize,
    next: Option<Pending>,
    operation: Option<Operation>,
}

impl TakeBack {
    /// The plan for a transaction of the system, with the undo that is its last now.
    pub fn new(system: &System, txn: u64, down_to: usize) -> Self
        ensures fields { (result.txn ≡ txn) × (result.down_to ≡ down_to) × (result.operation ≡ None) }
        ensures next { result.next ≡ next_undo (undos_at system.now.state.table txn) down_to }
        ensures undoes { IfSome result.next (λ u. IsUndo u.undo) }
    {
        TakeBack {
            txn,
            down_to,
            next: next_undo(system, txn, down_to),
            operation: None,
        }
    }

    /// The transaction that is taken back.
    pub fn txn(&self) -> u64
        ensures { result ≡ self.now.txn }
    {
        self.txn
    }

    /// Whether an operation is open, all of whose words are written: then `commit` logs its block. So who gives up the
    /// region between two words need not lock it once more to learn that none is left.
    pub fn is_written(&self) -> bool
        ensures { result ≡ all_written self.now.operation }
    {
        match &self.operation {
            Some(operation) => operation.is_written(),
            None => false,
        }
    }

    /// What the taking back needs next: a region, or nothing more.
    pub fn wants(&self) -> Want
        ensures { result ≡ want_of self.now.next }
    {
        match self.next {
            Some(pending) => Want::Region {
                region: pending.region,
            },
            None => Want::Nothing,
        }
    }

    /// Latches the region that is wanted, and makes the block of the operation that performs the undo, on the region's own
    /// words. Refused exactly as the latch; plan and region are then as before.
    pub fn latch(&mut self, region: &mut Region, precheck: bool) -> Result<(), LatchError>
        requires wants { IsSomeAnd self.old.next (λ u. IsUndo u.undo) }
        requires closed { self.old.operation ≡ None }
        ensures answer { result ≡ latch_answer precheck region.old }
        ensures refused { OnErr result ((self.new ≡ self.old) × (region.new ≡ region.old)) }
        ensures made { OnOk result (IsSomeAnd self.new.operation (λ o. (o.txn ≡ self.old.txn) × IsUndoBlock self.old.next o.block
            × IsUnderWay o.txn o.block o.left o.taken region.new × (region.new ≡ with_reads o.block.read (latched self.old.txn region.old)))) }
        ensures own { OnOk result (IsSomeAnd self.new.operation (λ o. IsUndoOn region.old.words self.old.next o.block)) }
        ensures same { self.new ≡ record self.old { operation = self.new.operation } }
    {
        let Some(pending) = self.next else {
            unreachable!()
        };
        let op = undo_op(&pending.undo);
        let operation = Operation::start(
            region,
            pending.region,
            self.txn,
            pending.key,
            op,
            precheck,
        )?;
        self.operation = Some(operation);
        Ok(())
    }

    /// Writes the next word of the open operation; false exactly where none is left.
    pub fn update(&mut self, region: &mut Region) -> bool
        requires under_way { OneIsUnderWay self.old.operation region.old }
        ensures writes { WritesNext self.old.operation region.old result self.new.operation region.new }
        ensures rest { self.new ≡ record self.old { operation = self.new.operation } }
    {
        let Some(operation) = &mut self.operation else {
            unreachable!()
        };
        operation.update(region)
    }

    /// Logs the block of the open operation, all of whose words are written, and takes the undo that is the last one
    /// then. Where that is refused the operation is taken back, and the plan may be latched again.
    pub fn commit(
        &mut self,
        region: &mut Region,
        system: &mut System,
    ) -> Result<Receipt, SystemError>
        requires written { IsSomeAnd self.old.operation (λ o. (o.txn ≡ self.old.txn) × IsUndoBlock self.old.next o.block × IsOpen region.old o.txn o.block) }
        ensures ok { OnOk result (IfSome self.old.operation (λ o. (system.new ≡ record system.old { state = back_logged system.old.state self.old.txn o.block }) × (region.new ≡ touched region.old))) }
        ensures next { OnOk result (self.new ≡ record self.old { next = next_undo (undos_at system.new.state.table self.old.txn) self.old.down_to; operation = None }) }
        ensures undoes { OnOk result (IfSome self.new.next (λ u. IsUndo u.undo)) }
        ensures receipt { GivesReceipt system.old.state ((system.new ≡ system.old) × (region.new ≡ taken_back region.old) × (self.new ≡ record self.old { operation = None })) result }
    {
        let Some(operation) = &self.operation else {
            unreachable!()
        };
        match system.back_op(region, self.txn, operation.block()) {
            Ok(receipt) => {
                self.next = next_undo(system, self.txn, self.down_to);
                self.operation = None;
                Ok(receipt)
            }
            Err(error) => {
                self.operation = None;
                region.take_back();
                Err(error)
            }
        }
    }
}
