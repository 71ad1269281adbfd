//! The operation that is open on a region, from its latch to its record.
ghost use Rattle.std.specs.Prelude.{◌≡◌, ◌<◌, ◌+◌, ℕ, [], true, false, is_some, IsNone, Ok, Err, None, Some, IfOk, IfErr, IfSome, IsSomeAnd, OnOk, OnErr, not, ◌==◌};
ghost use Rattle.dali_record.specs.Spelling.{IsOperation, IsBlock};
ghost use Rattle.dali_record.specs.Blocks.{made};
ghost use Rattle.dali_region.specs.State.{latched, with_reads};
ghost use Rattle.dali_region.specs.Answers.{latch_answer};
ghost use Rattle.dali_runs.specs.Regions.{IsOpen};
ghost use Rattle.dali_system.specs.UnderWay.{IsUpdated, IsUnderWay, OneIsUnderWay, WritesNext, words_left, all_written};

use dali_record::{Block, Op};
use dali_region::{LatchError, Region};
use std::marker::Model;

/// The operation that a transaction has open on a region: its block, the set of the words that are still to be written,
/// and how many new words were. It has some 750 bytes; no call takes memory.
#[derive(Drop)]
pub struct Operation {
    txn: u64,
    block: Block,
    left: u64,
    taken: usize,
}

impl Operation {
    /// Latches the region with this number for the transaction, notes what the operation on this key reads, and makes
    /// its block. Refused exactly as the latch; the region is then as before. With precheck the region's codeword tells
    /// no stray write. A cell that the operation names is from 1 to 7, and an entry from 0 to 20.
    pub fn start(
        region: &mut Region,
        number: u32,
        txn: u64,
        key: u64,
        op: Op,
        precheck: bool,
    ) -> Result<Self, LatchError>
        requires { IsOperation op }
        ensures refused { IfErr result (λ e. (latch_answer precheck region.old ≡ Err e) × (region.new ≡ region.old)) }
        ensures latched { IfOk result (λ o. (latch_answer precheck region.old ≡ Ok tt) × (region.new ≡ with_reads o.block.read (latched txn region.old))) }
        ensures checked { precheck ≡ true → OnOk result (region.old.stray ≡ 0) }
        ensures made { IfOk result (λ o. (o.block ≡ made region.old.words key number op) × IsBlock o.block × (o.txn ≡ txn)) }
        ensures under_way { IfOk result (λ o. IsUnderWay txn o.block o.left o.taken region.new) }
    {
        let mut open = OpenOperation::none();
        match open.start(region, number, txn, key, op, precheck) {
            Ok(()) => Ok(open.operation),
            Err(error) => Err(error),
        }
    }

    // A place for an operation.
    fn blank() -> Self
        ensures { result.block.after ≡ [] }
    {
        Operation {
            txn: 0,
            block: Block::blank(),
            left: 0,
            taken: 0,
        }
    }

    /// The transaction of the operation.
    pub fn txn(&self) -> u64
        ensures { result ≡ self.now.txn }
    {
        self.txn
    }

    /// The block of the operation: what the log keeps of it.
    pub fn block(&self) -> &Block
        ensures { result.now ≡ self.now.block }
    {
        &self.block
    }

    /// Whether all words of the operation are written.
    pub fn is_written(&self) -> bool
        ensures { result ≡ all_written (Some self.now) }
    {
        self.left == 0
    }

    /// Writes the next word; false exactly where none is left. Then the operation is open, and its block may be logged.
    pub fn update(&mut self, region: &mut Region) -> bool
        requires { IsUnderWay self.old.txn self.old.block self.old.left self.old.taken region.old }
        ensures some { result ≡ not (self.old.left == 0) }
        ensures same { (self.new.txn ≡ self.old.txn) × (self.new.block ≡ self.old.block) }
        ensures under_way { IsUnderWay self.new.txn self.new.block self.new.left self.new.taken region.new }
        ensures step { result ≡ true → (self.new.taken ≡ self.old.taken + 1) × IsUpdated region.old region.new }
        ensures fewer { result ≡ true → words_left (Some self.new) < words_left (Some self.old) }
        ensures none { result ≡ false → (region.new ≡ region.old) × (self.new ≡ self.old) × IsOpen region.new self.new.txn self.new.block }
    {
        if self.left == 0 {
            return false;
        }
        let word = self.left.trailing_zeros() as u8;
        region.update(word, self.block.after.as_slice()[self.taken]);
        self.left &= self.left - 1;
        self.taken += 1;
        true
    }
}

/// The operation that is open, where one is. Its room is there also where none is, so that an operation is started where it
/// lies and isn't moved. Contracts see an option of an operation.
#[derive(Drop)]
pub struct OpenOperation {
    is_open: bool,
    operation: Operation,
}

impl Model for OpenOperation {
    ghost use Rattle.std.specs.Prelude.{Option, Some, None, if◌then◌else◌};
    ghost use Rattle.dali_system.specs.declared.operation.Operation.{Operation as OperationOf};

    ghost Value = { Option OperationOf };

    ghost view = { λ o. if o.is_open then Some o.operation else None };
}

impl OpenOperation {
    /// No operation is open.
    pub fn none() -> Self
        ensures { result ≡ None }
    {
        OpenOperation {
            is_open: false,
            operation: Operation::blank(),
        }
    }

    /// Whether an operation is open.
    pub fn is_open(&self) -> bool
        ensures { result ≡ is_some self.now }
    {
        self.is_open
    }

    /// The operation that is open.
    pub fn get(&self) -> Option<&Operation>
        ensures some { IfSome result (λ o. self.now ≡ Some o.now) }
        ensures none { IsNone result → self.now ≡ None }
    {
        if self.is_open {
            Some(&self.operation)
        } else {
            None
        }
    }

    /// Whether one is open, all of whose words are written.
    pub fn is_written(&self) -> bool
        ensures { result ≡ all_written self.now }
    {
        self.is_open && self.operation.is_written()
    }

    /// Starts an operation, as `Operation::start` does; one that was open is let go.
    pub fn start(
        &mut self,
        region: &mut Region,
        number: u32,
        txn: u64,
        key: u64,
        op: Op,
        precheck: bool,
    ) -> Result<(), LatchError>
        requires { IsOperation op }
        ensures refused { IfErr result (λ e. (latch_answer precheck region.old ≡ Err e) × (region.new ≡ region.old) × (self.new ≡ self.old)) }
        ensures latched { OnOk result ((latch_answer precheck region.old ≡ Ok tt) × IsSomeAnd self.new (λ o. region.new ≡ with_reads o.block.read (latched txn region.old))) }
        ensures checked { precheck ≡ true → OnOk result (region.old.stray ≡ 0) }
        ensures made { OnOk result (IsSomeAnd self.new (λ o. (o.block ≡ made region.old.words key number op) × IsBlock o.block × (o.txn ≡ txn))) }
        ensures under_way { OnOk result (IsSomeAnd self.new (λ o. IsUnderWay txn o.block o.left o.taken region.new)) }
    {
        region.latch(txn, precheck)?;
        self.operation.block.make(op, key, number, region.words());
        region.note_reads(self.operation.block.read);
        self.operation.txn = txn;
        self.operation.left = self.operation.block.write;
        self.operation.taken = 0;
        self.is_open = true;
        Ok(())
    }

    /// Writes the next word, as `Operation::update` does.
    pub fn update(&mut self, region: &mut Region) -> bool
        requires { OneIsUnderWay self.old region.old }
        ensures { WritesNext self.old region.old result self.new region.new }
    {
        self.operation.update(region)
    }

    /// Closes the operation that is open on a region: none is open any more.
    pub fn close(&mut self)
        ensures { self.new ≡ None }
    {
        self.is_open = false;
    }
}
