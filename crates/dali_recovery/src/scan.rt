//! The scan for damage within an epoch.
ghost use Rattle.std.specs.Prelude.{◌≡◌, ◌&&◌, ◌==◌, ℕ, true, false, Some, IfOk, IfErr, OnOk};
ghost use Rattle.dali_geometry.specs.Sizes.{Sizes};
ghost use Rattle.dali_record.specs.Damage.{Damage};
ghost use Rattle.dali_record.specs.Spelling.{ascends};
ghost use Rattle.dali_resume.specs.Resumed.{deleted_by, scan as scan_of};
ghost use Rattle.dali_resume.specs.Tests.{Known, same_numbers};
ghost use Rattle.dali_redo.specs.Taint.Following.{Begins as BeginsTables};
ghost use Rattle.dali_redo.specs.Redoing.{Knows, MayUndo, breaks, is_tested};
ghost use Rattle.dali_recovery.specs.Standing.{FollowsBy, JudgedBy, Makes, MakesOrdered, Refuses, assumed_by};
ghost use Rattle.dali_recovery.specs.declared.error.RecoveryError.TheVariants.{OutOfMemory};

use crate::error::RecoveryError;
use dali_geometry::Geometry;
use dali_record::Record;
use dali_redo::Redo;
use dali_redo::taint::{Judgement, Taint};
use std::alloc::{AllocError, Global};

/// The scan of an epoch, and the damage of it that it assumes.
#[derive(Drop)]
pub struct Scan {
    taint: Taint,
    clean: u64,
    failing: Vec<u32>,
}

// Makes the record again, or leaves it out.
fn carry_out(redo: &mut Redo, judgement: Judgement, logged: &Record) -> Result<(), RecoveryError>
    requires undo { MayUndo logged.now }
    requires fits { (k : Known) → Knows redo.old k → breaks redo.old.sizes k logged.now ≡ false }
    ensures ok { OnOk result (JudgedBy judgement redo.old redo.new logged.now) }
    ensures err { IfErr result (λ e. e ≡ OutOfMemory) }
{
    match judgement {
        Judgement::Keep => {
            redo.apply(logged)?;
            Ok(())
        }
        Judgement::Drop => {
            redo.skip(logged)?;
            Ok(())
        }
    }
}

// Whether both lists have the same regions.
fn are_same(these: &[u32], those: &[u32]) -> bool
    ensures { result ≡ same_numbers these.now those.now }
{
    these == those
}

impl Scan {
    /// Before the first record of an epoch, or behind an image within one, with the table of what is made again. It takes memory.
    pub fn new(
        alloc: Global,
        geometry: Geometry,
        clean: u64,
        failing: &[u32],
        redo: &Redo,
    ) -> Result<Scan, AllocError>
        ensures assumes { IfOk result (λ z. (z.clean ≡ clean) × (z.failing.items ≡ failing.now)) }
        ensures follows { (k : Known) (d : Damage) → d.clean ≡ clean → d.failing ≡ failing.now → BeginsTables d k redo.now.table → IfOk result (λ z. FollowsBy geometry (Some z) d.first k) }
    {
        Ok(Scan {
            taint: Taint::new(alloc, geometry, clean, failing, redo.table())?,
            clean,
            failing: Vec::from_slice(alloc, failing)?,
        })
    }

    /// Whether this damage is the one that it assumes. Takes no memory.
    pub fn assumes(&self, clean: u64, failing: &[u32]) -> bool
        ensures { result ≡ ((self.now.clean == clean) && same_numbers self.now.failing.items failing.now) }
    {
        if self.clean != clean {
            return false;
        }
        are_same(&self.failing, failing)
    }

    /// Makes the record with this number again, or leaves it out. `OutOfMemory` may leave the scan a record ahead.
    pub fn make(
        &mut self,
        redo: &mut Redo,
        number: u64,
        logged: &Record,
    ) -> Result<(), RecoveryError>
        requires undo { MayUndo logged.now }
        requires tested { is_tested logged.now ≡ true }
        ensures ok { OnOk result (Makes redo.old (Some self.old) number logged.now redo.new (Some self.new)) }
        ensures ordered { OnOk result (MakesOrdered redo.old logged.now redo.new) }
        ensures err { IfErr result (λ e. Refuses redo.old (Some self.old) number logged.now e redo.new (Some self.new)) }
    {
        if redo.misfits(logged) {
            return Err(RecoveryError::Misfit);
        }
        let judgement = self.taint.judge(number, logged)?;
        carry_out(redo, judgement, logged)?;
        Ok(())
    }

    /// The deleted ones so far, ascending. It takes memory for them.
    pub fn deleted(&self) -> Result<Vec<u64>, AllocError>
        ensures deleted { (p : ℕ) (k : Known) (s : Sizes) → FollowsBy s (Some self.now) p k → IfOk result (λ deleted. deleted.items ≡ deleted_by k.table k.seen (scan_of (assumed_by (Some self.now) p) k.table k.seen)) }
        ensures ascending { IfOk result (λ deleted. ascends deleted.items ≡ true) }
    {
        self.taint.deleted()
    }
}
