//! The clean-up of a dead transaction, made as steps.
ghost use Rattle.std.specs.Prelude.{◌≡◌, true, false, Some, None, OnOk, OnErr, IfOk, IfSome, IsSomeAnd, Option as OptionOf, ℕ};
ghost use Rattle.std.specs.FinMap as map;
ghost use Rattle.dali_att.specs.Table.{undos_at};
ghost use Rattle.dali_att.specs.declared.state.State.TheVariants.{Dead, Cleaning as Claimed};
ghost use Rattle.dali_region.specs.State.{latched, with_reads, touched, taken_back};
ghost use Rattle.dali_runs.specs.State.{state_of};
ghost use Rattle.dali_runs.specs.Steps.{in_state, back_logged, ended_logged};
ghost use Rattle.dali_system.specs.TakenBack.{next_undo, IsUndoBlock, IsUndoOn};
ghost use Rattle.dali_system.specs.UnderWay.{IsUnderWay, OneIsUnderWay, WritesNext, all_written};
ghost use Rattle.dali_system.specs.Receipts.{GivesReceipt};
ghost use Rattle.dali_system.specs.declared.want.Want.TheVariants.{Done};
ghost use Rattle.dali_calls.specs.TakingBack.{is_claimed};
ghost use Rattle.dali_clean.specs.Cleanup.Cleaned.{want_of, clean_answer, MayLatch, MayCommit};

use dali_region::{LatchError, Receipt, Region};
use dali_system::{NotDead, System, SystemError, TakeBack, Want};
use std::marker::Model;

/// The clean-up of a transaction whose client died: it is claimed, the operation in which the client died is taken
/// back, then what the transaction did, from its last undo on, and its end is logged.
///
/// A step is `wants`, then on the region that it names `latch`, `update` until it answers false, and `commit`. Where a
/// region is still latched by the dead transaction it is wanted first, and its `latch` is a whole step. Behind the last
/// step comes `end`. It takes no memory; the system does at `commit` and `end`. Where the system refuses these the
/// claim is given back: the transaction is dead again, and may be claimed anew.
#[derive(Drop)]
pub struct Cleaning {
    claimed: bool,
    latched: Option<u32>,
    back: TakeBack,
}

impl Model for Cleaning {
    ghost use Rattle.dali_clean.specs.Cleanup.Cleaned.{Cleaned};
    ghost use Rattle.dali_clean.specs.Cleanup.Fields.{cleaned_of, IsWholeInside};

    ghost Value = { Cleaned };

    ghost view = { cleaned_of };

    ghost invariant = { IsWholeInside };
}

impl Cleaning {
    /// Claims a dead transaction. Refused exactly where its state isn't dead.
    pub fn claim(system: &mut System, txn: u64) -> Result<Self, NotDead>
        ensures dead { IfOk result (λ c. state_of system.old.state txn ≡ Some (Dead c.latched)) }
        ensures ok { IfOk result (λ c. system.new ≡ record system.old { state = in_state system.old.state txn (Claimed c.latched) }) }
        ensures claimed { OnOk result (IsSomeAnd (state_of system.new.state txn) is_claimed) }
        ensures plan { IfOk result (λ c. (c.txn ≡ txn) × (c.next ≡ next_undo (undos_at system.new.state.table txn) 0) × (c.operation ≡ None) × (c.claimed ≡ true)) }
        ensures err { OnErr result (system.new ≡ system.old) }
        ensures not_dead { OnErr result ((latched : OptionOf ℕ) → state_of system.old.state txn ≡ Some (Dead latched) → ⊥) }
    {
        let latched = system.claim(txn)?;
        Ok(Cleaning {
            claimed: true,
            latched,
            back: TakeBack::new(system, txn, 0),
        })
    }

    /// The dead transaction that is cleaned up.
    pub fn txn(&self) -> u64
        ensures { result ≡ self.now.txn }
    {
        self.back.txn()
    }

    /// Whether it has its claim still: a commit that is refused gives it back, and then nothing is wanted any more.
    pub fn claimed(&self) -> bool
        ensures { result ≡ self.now.claimed }
    {
        self.claimed
    }

    /// The region that the dead client's operation still latches.
    pub fn latched(&self) -> Option<u32>
        ensures { result ≡ self.now.latched }
    {
        self.latched
    }

    /// Whether an operation is open, all of whose words are written: then `commit` logs its block. So who gives up the
    /// region between two words need not lock it once more to learn that none is left.
    pub fn is_written(&self) -> bool
        ensures { result ≡ all_written self.now.operation }
    {
        self.back.is_written()
    }

    /// What it needs next: a region, or the end of the clean-up; nothing where the claim was given back.
    pub fn wants(&self) -> Want
        ensures { result ≡ want_of self.now }
    {
        if !self.claimed {
            return Want::Nothing;
        }
        if let Some(region) = self.latched {
            return Want::Region { region };
        }
        match self.back.wants() {
            Want::Region { region } => Want::Region { region },
            _ => Want::Done,
        }
    }

    /// Takes back the operation in which the client died, where its region is still latched: the region is to have the
    /// dead hold of this transaction. Else latches the region that is wanted, and makes the block of the operation that
    /// performs the undo: refused exactly as the region's latch; clean-up and region are then as before.
    pub fn latch(&mut self, region: &mut Region, precheck: bool) -> Result<(), LatchError>
        requires wants { MayLatch self.old region.old }
        requires closed { self.old.operation ≡ None }
        ensures answer { result ≡ clean_answer self.old.latched precheck region.old }
        ensures refused { OnErr result ((self.new ≡ self.old) × (region.new ≡ region.old)) }
        ensures recovered { IfSome self.old.latched (λ _. (self.new ≡ record self.old { latched = None }) × (region.new ≡ taken_back region.old)) }
        ensures made { self.old.latched ≡ None → OnOk result (IsSomeAnd self.new.operation (λ o. (o.txn ≡ self.old.txn) × IsUndoBlock self.old.next o.block
            × IsUnderWay o.txn o.block o.left o.taken region.new × (region.new ≡ with_reads o.block.read (latched self.old.txn region.old)))) }
        ensures own { self.old.latched ≡ None → OnOk result (IsSomeAnd self.new.operation (λ o. IsUndoOn region.old.words self.old.next o.block)) }
        ensures same { self.old.latched ≡ None → self.new ≡ record self.old { operation = self.new.operation } }
    {
        if self.latched.is_some() {
            self.latched = None;
            region.take_back();
            return Ok(());
        }
        self.back.latch(region, precheck)
    }

    /// Writes the next word of the open operation; false exactly where none is left.
    pub fn update(&mut self, region: &mut Region) -> bool
        requires under_way { OneIsUnderWay self.old.operation region.old }
        ensures writes { WritesNext self.old.operation region.old result self.new.operation region.new }
        ensures rest { self.new ≡ record self.old { operation = self.new.operation } }
    {
        self.back.update(region)
    }

    /// Logs the block of the open operation, all of whose words are written, and takes the undo that is the last one
    /// then. The undo that it has performed is to be the last one of the transaction still. Where that is refused the
    /// operation is taken back, and the transaction is dead again: this clean-up wants nothing more, and one that is
    /// claimed anew goes on.
    pub fn commit(
        &mut self,
        region: &mut Region,
        system: &mut System,
    ) -> Result<Receipt, SystemError>
        requires { MayCommit self.old region.old system.old.state }
        ensures ok { OnOk result (IfSome self.old.operation (λ o. (system.new ≡ record system.old { state = back_logged system.old.state self.old.txn o.block }) × (region.new ≡ touched region.old))) }
        ensures claimed { OnOk result (IsSomeAnd (state_of system.new.state self.old.txn) is_claimed) }
        ensures next { OnOk result (self.new ≡ record self.old { next = next_undo (undos_at system.new.state.table self.old.txn) 0; operation = None }) }
        ensures receipt { GivesReceipt system.old.state ((system.new ≡ record system.old { state = in_state system.old.state self.old.txn (Dead None) }) × (region.new ≡ taken_back region.old) × (self.new ≡ record self.old { operation = None; claimed = false })) result }
    {
        match self.back.commit(region, system) {
            Ok(receipt) => Ok(receipt),
            Err(error) => {
                system.mark_dead(self.back.txn(), None);
                self.claimed = false;
                Err(error)
            }
        }
    }

    /// Logs the end of the transaction, when nothing else is wanted. Where that is refused the transaction is dead
    /// again.
    pub fn end(self, system: &mut System) -> Result<Receipt, SystemError>
        requires done { want_of self ≡ Done }
        requires claimed { IsSomeAnd (state_of system.old.state self.txn) is_claimed }
        ensures ok { OnOk result (system.new ≡ record { state = ended_logged system.old.state self.txn; promised = map.remove system.old.promised self.txn }) }
        ensures receipt { GivesReceipt system.old.state (system.new ≡ record system.old { state = in_state system.old.state self.txn (Dead None) }) result }
    {
        let txn = self.back.txn();
        let done = system.ended(txn);
        if done.is_err() {
            system.mark_dead(txn, None);
        }
        done
    }
}
