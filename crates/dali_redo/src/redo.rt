//! The records of a log, made again.
ghost use Rattle.std.specs.Prelude.{◌≡◌, ◌↔◌, ◌≤◌, ◌^◌, ℕ, true, IfOk, OnOk, OnErr, IsErrOf, filter, length};
ghost use Rattle.std.specs.FinMap as map;
ghost use Rattle.dali_geometry.specs.Places as places;
ghost use Rattle.dali_att.specs.Table.{undos_at};
ghost use Rattle.dali_history.specs.Recovered.{freed};
ghost use Rattle.dali_resume.specs.Tests.{Known, is_running, next_behind as number_behind};
ghost use Rattle.dali_redo.specs.declared.error.RedoError.TheVariants.{Misfit};
ghost use Rattle.dali_redo.specs.Redoing.{Knows, AreUndos, status_at, performed_in, breaks, MayUndo};
ghost use Rattle.dali_redo.specs.Steps.{Applies, Skips, Performs, RollsBack, IsCleared};

use crate::error::RedoError;
use crate::image::Image;
use crate::{rules, tables};
use dali_att::Att;
use dali_geometry::Geometry;
use dali_record::{Pending, Record};
use std::alloc::{AllocError, Global};
use std::marker::Model;

/// The words of all regions while a restart makes the records of a log again, and the transactions at work:
/// repeating history (Mohan et al., TODS 1992), but for the records that are skipped.
///
/// Each record is tested against those before it, also one that is skipped. The words are plain ones: codewords
/// are made once, from what a restart comes to. Where no record is skipped one table serves the tests and the
/// undos; of each transaction of which a record is skipped it keeps the undos as they were then.
///
/// At the end of an epoch: `roll_back`, `free_dead`, and where a Restarted follows, `apply` of that.
#[derive(Drop)]
pub struct Redo {
    alloc: Global,
    geometry: Geometry,
    image: Image,
    table: Att<Pending>,
    left: Att<Pending>,
    next: u64,
}

impl Model for Redo {
    ghost use Rattle.dali_redo.specs.Redoing.{Redoing, redoing_code};

    ghost Value = { Redoing };

    ghost coded = { redoing_code };

    ghost use Rattle.dali_redo.specs.Fields.{redoing_of, IsWhole};

    ghost view = { redoing_of };

    ghost invariant = { IsWhole };
}

// The number that the next transaction may have at least, behind the record.
fn next_behind(next: u64, logged: &Record) -> u64
    requires { number_behind 0 logged.now ≤ 2 ^ 40 }
    ensures { result ≡ number_behind next logged.now }
{
    match logged {
        Record::Begin { txn } => *txn + 1,
        Record::Solo { txn, .. } => *txn + 1,
        _ => next,
    }
}

// Performs the undos of both tables, and empties them.
fn perform(image: &mut Image, table: &mut Att<Pending>, left: &mut Att<Pending>)
    requires { (t : ℕ) → AreUndos (performed_in left.old table.old t) }
    ensures image { Performs left.old table.old image.old image.new }
    ensures regions { length image.new ≡ length image.old }
    ensures table { table.new ≡ map.empty }
    ensures left { left.new ≡ map.empty }
{
    while let Some(txn) = tables::least(table, left) {
        image.roll_back(tables::undos_performed(left, table, txn));
        table.end(txn);
        left.end(txn);
    }
}

impl Redo {
    /// Before the first record of an epoch, or behind an image within one: its words region by region, the
    /// table there, and the least number that the next transaction may have. Takes no memory.
    pub fn new(
        alloc: Global,
        geometry: Geometry,
        regions: Vec<[u64; 64]>,
        att: Att<Pending>,
        next: u64,
    ) -> Redo
        requires regions { length regions.items ≡ places.regions geometry }
        requires undos { (t : ℕ) → AreUndos (undos_at att t) }
        ensures { result ≡ record { sizes = geometry; image = regions.items; table = att; left = map.empty; next = next } }
    {
        Redo {
            alloc,
            geometry,
            image: Image::new(regions),
            table: att,
            left: Att::new(alloc),
            next,
        }
    }

    /// Whether the record breaks its rule: `apply` and `skip` are a `Misfit` exactly then. Takes no memory.
    pub fn misfits(&self, logged: &Record) -> bool
        ensures { (k : Known) → Knows self.now k → result ≡ breaks self.now.sizes k logged.now }
    {
        rules::breaks(self.geometry, &self.table, self.next, logged)
    }

    /// The transactions at work with their undos, and those that are committed and haven't ended. Takes no memory.
    pub fn table(&self) -> &Att<Pending>
        ensures { result.now ≡ self.now.table }
    {
        &self.table
    }

    /// Takes the next record, and writes the new words of its block, if it has one, and nothing else. `Misfit`
    /// exactly where it is a Begin, Forward, Done, Back, Commit, Ended or Solo and breaks its rule; a restart
    /// tests the others. It takes memory for a transaction that begins, and for an undo. After either error
    /// nothing has changed.
    pub fn apply(&mut self, logged: &Record) -> Result<(), RedoError>
        requires { MayUndo logged.now }
        ensures misfit { (k : Known) → Knows self.old k → (IsErrOf result Misfit ↔ (breaks self.old.sizes k logged.now ≡ true)) }
        ensures ok { OnOk result (Applies self.old self.new logged.now) }
        ensures cleared { OnOk result (IsCleared self.old.table → IsCleared self.new.table) }
        ensures err { OnErr result (self.new ≡ self.old) }
    {
        if rules::breaks(self.geometry, &self.table, self.next, logged) {
            return Err(RedoError::Misfit);
        }
        tables::advance(self.alloc, &mut self.table, logged)?;
        tables::end_epoch(self.alloc, &mut self.left, logged);
        self.image.redo(logged);
        self.next = next_behind(self.next, logged);
        Ok(())
    }

    /// Takes the next record, tested in the same way, and writes nothing. The undos of its transaction that
    /// `roll_back` performs stay as they are, whatever records come. It takes memory for a copy of them at the
    /// transaction's first skipped record. After either error nothing has changed.
    pub fn skip(&mut self, logged: &Record) -> Result<(), RedoError>
        requires { MayUndo logged.now }
        ensures misfit { (k : Known) → Knows self.old k → (IsErrOf result Misfit ↔ (breaks self.old.sizes k logged.now ≡ true)) }
        ensures ok { OnOk result (Skips self.old self.new logged.now) }
        ensures cleared { OnOk result (IsCleared self.old.table → IsCleared self.new.table) }
        ensures err { OnErr result (self.new ≡ self.old) }
    {
        if rules::breaks(self.geometry, &self.table, self.next, logged) {
            return Err(RedoError::Misfit);
        }
        tables::skip(self.alloc, &mut self.left, &mut self.table, logged)?;
        self.next = next_behind(self.next, logged);
        Ok(())
    }

    /// The transactions at work, ascending: those that a restart rolls back and reports, where it is asked at
    /// the end of an epoch, before `roll_back`. It takes memory for them.
    pub fn rolled_back(&self) -> Result<Vec<u64>, AllocError>
        ensures { IfOk result (λ txns. txns.items ≡ filter (λ t. is_running (status_at self.now.table t)) (map.keys self.now.table)) }
    {
        tables::at_work(self.alloc, &self.table)
    }

    /// Performs the undos of all transactions that aren't committed, and of those of which a record was
    /// skipped: each list from its last, the transactions ascending. Then no transaction is known. Takes no
    /// memory.
    pub fn roll_back(&mut self)
        ensures { RollsBack self.old self.new }
    {
        perform(&mut self.image, &mut self.table, &mut self.left);
    }

    /// Frees the dead entries and cells. Takes no memory.
    pub fn free_dead(&mut self)
        ensures { self.new ≡ record self.old { image = freed self.old.sizes self.old.image } }
    {
        self.image.free_dead(self.geometry);
    }

    /// The words, region by region. Takes no memory.
    pub fn into_regions(self) -> Vec<[u64; 64]>
        ensures words { result.items ≡ self.image }
        ensures whole { length result.items ≡ places.regions self.sizes }
    {
        self.image.into_regions()
    }
}
