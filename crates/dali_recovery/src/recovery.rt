//! The state of a restart between two records.
ghost use Rattle.std.specs.Prelude.{◌≡◌, ◌⊎◌, ◌↔◌, ◌≤◌, ◌^◌, ◌||◌, ◌==◌, ◌<◌, ◌+◌, ℕ, true, false, max, nat_lt, length, None, OnOk, OnErr, IfOk, IfErr};
ghost use Rattle.std.specs.List.{list_all};
ghost use Rattle.dali_geometry.specs.Sizes.{Sizes};
ghost use Rattle.dali_geometry.specs.Places as places;
ghost use Rattle.dali_att.specs.Table.{undos_at};
ghost use Rattle.dali_record.specs.declared.records.Record.TheVariants.{AuditBegin, AuditClean, AuditFail, Restarted};
ghost use Rattle.dali_record.specs.Files.{Files};
ghost use Rattle.dali_record.specs.Spelling.{CanBeSpelled, ascends};
ghost use Rattle.dali_resume.specs.Onward.{going_at};
ghost use Rattle.dali_resume.specs.Tests.{next_behind as number_behind, same_numbers};
ghost use Rattle.dali_redo.specs.Taint.Tables.{has_number};
ghost use Rattle.dali_redo.specs.Redoing.{AreUndos, MayUndo, is_tested};
ghost use Rattle.dali_recovery.specs.Standing.{Starts, Stands, StandsOn, Scans, Takes, Fails, Makes, Refuses, Finds, FindsDeleted, Tells, TellsDamage, Begins, EndsScanned, IsRecovered, HandsLists, HandsOn, EndFails, IsOrdered, KeepsOrder, IsOrderedOut, MakesOrdered, Passes, Reopens, Ascend, passed, is_unscanned as unscanned};
ghost use Rattle.dali_recovery.specs.declared.error.RecoveryError.TheVariants.{Misfit, OutOfMemory};

use crate::error::RecoveryError;
use crate::scan::Scan;
use dali_att::Att;
use dali_geometry::Geometry;
use dali_record::{Pending, Record};
use dali_redo::Redo;
use std::alloc::{AllocError, Global};
use std::collections::BTreeSet;

/// What a restart knows between two records of the log, from a checkpoint's image on. It tests each record against those before
/// it, makes it again, and at each record of a restart behind the image's place recovers the epoch that ends there. So it is done
/// in one pass, where no audit failed.
///
/// Where an audit of an epoch failed, that is known only at the epoch's end. Then the records are read again from the image on,
/// and where that epoch begins `scan` is told its damage: from there to its end the records of those that read corrupt data are
/// left out.
#[derive(Drop)]
pub struct Recovery {
    alloc: Global,
    geometry: Geometry,
    redo: Redo,
    scan: Option<Scan>,
    image: u64,
    first: u64,
    clean: u64,
    failing: Vec<u32>,
    number: u64,
    next: u64,
    audits: BTreeSet<u64>,
    failed: bool,
    restarted: bool,
    rolled_back: Vec<u64>,
    deleted: Vec<u64>,
}

/// What a restart hands out at the log's end.
#[derive(Drop)]
pub struct Recovered {
    /// The words of all regions, recovered.
    pub regions: Vec<[u64; 64]>,
    /// The transactions that were rolled back, ascending.
    pub rolled_back: Vec<u64>,
    /// The committed ones that were deleted, ascending.
    pub deleted: Vec<u64>,
    /// The number of the next record.
    pub number: u64,
    /// The least number that the next transaction may have.
    pub next: u64,
}

/// The damage that an epoch's audits tell.
#[derive(Drop)]
pub struct Damage {
    /// The number of the epoch's first record that was read.
    pub first: u64,
    /// That of its clean place: the begin of the last audit that found no damage, or else the first record's.
    pub clean: u64,
    /// The regions that failed its audit.
    pub failing: Vec<u32>,
}

// Adds a number to a set of them.
fn note(numbers: &mut BTreeSet<u64>, number: u64) -> Result<(), AllocError>
    ensures ok { OnOk result ((t : ℕ) → has_number numbers.new t ≡ (has_number numbers.old t || (number == t))) }
    ensures err { OnErr result ((t : ℕ) → has_number numbers.new t ≡ has_number numbers.old t) }
{
    numbers.insert(number)?;
    Ok(())
}

// Whether these are regions of the database.
fn are_regions(geometry: Geometry, numbers: &[u32]) -> bool
    ensures { result ≡ list_all (λ r. nat_lt r (places.regions geometry)) numbers.now }
{
    let regions = geometry.regions();
    numbers.iter().all(|number| *number < regions)
}

// Whether both lists have the same numbers.
fn are_same(told: &[u64], numbers: &[u64]) -> bool
    ensures { result ≡ same_numbers told.now numbers.now }
{
    told == numbers
}

// The greater one.
fn later(number: u64, other: u64) -> u64
    ensures { result ≡ max number other }
{
    number.max(other)
}

// The number that the next transaction may have at least, behind the record.
fn next_behind(next: u64, logged: &Record) -> u64
    ensures { number_behind 0 logged.now ≤ 2 ^ 40 → result ≡ number_behind next logged.now }
{
    match logged {
        Record::Begin { txn } => txn.saturating_add(1),
        Record::Solo { txn, .. } => txn.saturating_add(1),
        _ => next,
    }
}

// Makes the record again, or leaves it out where a scan judges so.
fn make(
    redo: &mut Redo,
    scan: &mut Option<Scan>,
    number: u64,
    logged: &Record,
) -> Result<(), RecoveryError>
    requires undo { MayUndo logged.now }
    requires tested { is_tested logged.now ≡ true }
    ensures ok { OnOk result (Makes redo.old scan.old number logged.now redo.new scan.new) }
    ensures ordered { OnOk result (MakesOrdered redo.old logged.now redo.new) }
    ensures err { IfErr result (λ e. Refuses redo.old scan.old number logged.now e redo.new scan.new) }
{
    match scan {
        None => {
            redo.apply(logged)?;
            Ok(())
        }
        Some(scan) => scan.make(redo, number, logged),
    }
}

// Rolls the epoch back and frees what is dead.
fn recover(redo: &mut Redo)
    ensures { IsRecovered redo.old redo.new }
{
    redo.roll_back();
    redo.free_dead();
}

impl Recovery {
    /// Behind an image: the number of its record, its words region by region, its table, and the least number that the next
    /// transaction may have. Takes no memory.
    pub fn new(
        alloc: Global,
        geometry: Geometry,
        first: u64,
        regions: Vec<[u64; 64]>,
        table: Att<Pending>,
        next: u64,
    ) -> Recovery
        requires regions { length regions.items ≡ places.regions geometry }
        requires undos { (t : ℕ) → AreUndos (undos_at table t) }
        ensures stands { (F : Files) → F.first ≡ first → F.next ≡ next → F.image ≡ regions.items → Starts F table → Stands geometry first result (going_at F) }
        ensures plain { result.scan ≡ None }
        ensures ordered { next ≤ 2 ^ 40 → IsOrdered geometry result }
    {
        Recovery {
            alloc,
            geometry,
            redo: Redo::new(alloc, geometry, regions, table, next),
            scan: None,
            image: first,
            first,
            clean: first,
            failing: Vec::new(alloc),
            number: first,
            next,
            audits: BTreeSet::new(alloc),
            failed: false,
            restarted: false,
            rolled_back: Vec::new(alloc),
            deleted: Vec::new(alloc),
        }
    }

    // Goes on behind a record that ends no epoch.
    fn pass(&mut self, logged: &Record)
        ensures passed { number_behind 0 logged.now ≤ 2 ^ 40 → self.old.number + 1 < 2 ^ 64 → self.new ≡ passed self.old logged.now }
        ensures ordered { Passes self.old self.new logged.now }
    {
        self.next = next_behind(self.next, logged);
        self.number = self.number.saturating_add(1);
        self.restarted = false;
    }

    // Whether a record within the epoch may follow: none does behind an audit that failed.
    fn goes_on(&self) -> Result<(), RecoveryError>
        ensures ok { OnOk result (self.now.failed ≡ false) }
        ensures err { IfErr result (λ e. (e ≡ Misfit) × (self.now.failed ≡ true)) }
    {
        if self.failed {
            return Err(RecoveryError::Misfit);
        }
        Ok(())
    }

    // Takes a record of a transaction.
    fn take_again(&mut self, logged: &Record) -> Result<(), RecoveryError>
        requires undo { MayUndo logged.now }
        requires tested { is_tested logged.now ≡ true }
        ensures ok { OnOk result (Takes self.old self.new logged.now) }
        ensures ordered { OnOk result (CanBeSpelled logged.now → KeepsOrder self.old self.new) }
        ensures scanned { OnOk result (EndsScanned self.old logged.now) }
        ensures err { IfErr result (λ e. Fails self.old self.new logged.now e) }
    {
        self.goes_on()?;
        make(&mut self.redo, &mut self.scan, self.number, logged)?;
        self.pass(logged);
        Ok(())
    }

    // Takes the begin of an audit.
    fn begin_audit(&mut self, logged: &Record) -> Result<(), RecoveryError>
        requires { logged.now ≡ AuditBegin }
        ensures ok { OnOk result (Takes self.old self.new logged.now) }
        ensures ordered { OnOk result (CanBeSpelled logged.now → KeepsOrder self.old self.new) }
        ensures scanned { OnOk result (EndsScanned self.old logged.now) }
        ensures err { IfErr result (λ e. Fails self.old self.new logged.now e) }
    {
        self.goes_on()?;
        note(&mut self.audits, self.number)?;
        self.pass(logged);
        Ok(())
    }

    // Whether an audit that began at the record with this number may end.
    fn ends_audit(&self, begin: u64) -> bool
        ensures { result ≡ (has_number self.now.audits begin || nat_lt begin self.now.image) }
    {
        self.audits.contains(&begin) || begin < self.image
    }

    // Whether the end of an audit that began there may follow.
    fn may_end(&self, begin: u64) -> Result<(), RecoveryError>
        ensures ok { OnOk result ((self.now.failed ≡ false) × ((has_number self.now.audits begin || nat_lt begin self.now.image) ≡ true)) }
        ensures err { IfErr result (λ e. (e ≡ Misfit) × ((self.now.failed ≡ true) ⊎ ((has_number self.now.audits begin || nat_lt begin self.now.image) ≡ false))) }
    {
        self.goes_on()?;
        if !self.ends_audit(begin) {
            return Err(RecoveryError::Misfit);
        }
        Ok(())
    }

    // Takes the end of an audit that found no damage.
    fn end_audit(&mut self, logged: &Record, begin: u64) -> Result<(), RecoveryError>
        requires { logged.now ≡ AuditClean begin }
        ensures ok { OnOk result (Takes self.old self.new logged.now) }
        ensures ordered { OnOk result (CanBeSpelled logged.now → KeepsOrder self.old self.new) }
        ensures scanned { OnOk result (EndsScanned self.old logged.now) }
        ensures err { IfErr result (λ e. Fails self.old self.new logged.now e) }
    {
        self.may_end(begin)?;
        let clean = later(self.clean, begin);
        self.pass(logged);
        self.clean = clean;
        Ok(())
    }

    // Takes the end of an audit that found damage.
    fn fail_audit(
        &mut self,
        logged: &Record,
        begin: u64,
        regions: &[u32],
    ) -> Result<(), RecoveryError>
        requires { logged.now ≡ AuditFail begin regions.now }
        ensures ok { OnOk result (Takes self.old self.new logged.now) }
        ensures ordered { OnOk result (CanBeSpelled logged.now → KeepsOrder self.old self.new) }
        ensures scanned { OnOk result (EndsScanned self.old logged.now) }
        ensures err { IfErr result (λ e. Fails self.old self.new logged.now e) }
    {
        self.may_end(begin)?;
        if !are_regions(self.geometry, regions) {
            return Err(RecoveryError::Misfit);
        }
        let failing = Vec::from_slice(self.alloc, regions)?;
        self.pass(logged);
        self.failing = failing;
        self.failed = true;
        Ok(())
    }

    /// Whether an audit of the present epoch failed, and no scan was told of just that damage: then `finish` and a record of a
    /// restart are answered `Unscanned`. Takes no memory.
    pub fn is_unscanned(&self) -> bool
        ensures { result ≡ unscanned self.now }
    {
        match &self.scan {
            None => self.failed,
            Some(scan) => !scan.assumes(self.clean, self.failing.as_slice()),
        }
    }

    // The deleted ones of the present epoch.
    fn deleted_so_far(&self) -> Result<Vec<u64>, RecoveryError>
        ensures ok { IfOk result (λ deleted. FindsDeleted self.now deleted.items) }
        ensures ordered { IfOk result (λ deleted. ascends deleted.items ≡ true) }
        ensures err { IfErr result (λ e. e ≡ OutOfMemory) }
    {
        match &self.scan {
            None => Ok(Vec::new(self.alloc)),
            Some(scan) => Ok(scan.deleted()?),
        }
    }

    // Whom a restart of the present epoch rolls back, and whom it deletes.
    fn found(&self) -> Result<(Vec<u64>, Vec<u64>), RecoveryError>
        ensures ok { IfOk result (λ lists. Finds self.now lists.0.items lists.1.items) }
        ensures ordered { IfOk result (λ lists. Ascend lists.0.items lists.1.items) }
        ensures err { IfErr result (λ e. e ≡ OutOfMemory) }
    {
        let at_work = self.redo.rolled_back()?;
        let gone = self.deleted_so_far()?;
        Ok((at_work, gone))
    }

    // Whether a restart of the present epoch tells these lists.
    fn tells(&self, rolled_back: &[u64], deleted: &[u64]) -> Result<bool, RecoveryError>
        ensures ok { IfOk result (λ told. Tells self.now rolled_back.now deleted.now told) }
        ensures err { IfErr result (λ e. e ≡ OutOfMemory) }
    {
        let (at_work, gone) = self.found()?;
        if !are_same(rolled_back, at_work.as_slice()) {
            return Ok(false);
        }
        Ok(are_same(deleted, gone.as_slice()))
    }

    // The next epoch begins.
    fn begin_epoch(&mut self, rolled_back: Vec<u64>, deleted: Vec<u64>)
        ensures begins { self.old.number + 1 < 2 ^ 64 → Begins self.old self.new rolled_back.items deleted.items }
        ensures ordered { Reopens self.old self.new rolled_back.items deleted.items }
    {
        self.number = self.number.saturating_add(1);
        self.scan = None;
        self.first = self.number;
        self.clean = self.number;
        self.failing = Vec::new(self.alloc);
        self.audits = BTreeSet::new(self.alloc);
        self.failed = false;
        self.restarted = true;
        self.rolled_back = rolled_back;
        self.deleted = deleted;
    }

    // Takes the record of a restart at the image's place.
    fn take_first(
        &mut self,
        logged: &Record,
        rolled_back: Vec<u64>,
        deleted: Vec<u64>,
    ) -> Result<(), RecoveryError>
        requires restarted { logged.now ≡ Restarted rolled_back.items deleted.items }
        requires first { self.old.number ≡ self.old.image }
        requires alone { self.old.restarted ≡ false }
        ensures ok { OnOk result (Takes self.old self.new logged.now) }
        ensures ordered { OnOk result (CanBeSpelled logged.now → KeepsOrder self.old self.new) }
        ensures scanned { OnOk result (EndsScanned self.old logged.now) }
        ensures err { IfErr result (λ e. Fails self.old self.new logged.now e) }
    {
        self.redo.apply(logged)?;
        self.begin_epoch(rolled_back, deleted);
        Ok(())
    }

    // Takes the record of a restart.
    fn end_epoch(
        &mut self,
        logged: &Record,
        rolled_back: &[u64],
        deleted: &[u64],
    ) -> Result<(), RecoveryError>
        requires { logged.now ≡ Restarted rolled_back.now deleted.now }
        ensures ok { OnOk result (Takes self.old self.new logged.now) }
        ensures ordered { OnOk result (CanBeSpelled logged.now → KeepsOrder self.old self.new) }
        ensures scanned { OnOk result (EndsScanned self.old logged.now) }
        ensures err { IfErr result (λ e. Fails self.old self.new logged.now e) }
    {
        if self.restarted {
            return Err(RecoveryError::Misfit);
        }
        let rolled = Vec::from_slice(self.alloc, rolled_back)?;
        let gone = Vec::from_slice(self.alloc, deleted)?;
        if self.number == self.image {
            return self.take_first(logged, rolled, gone);
        }
        if self.is_unscanned() {
            return Err(RecoveryError::Unscanned);
        }
        if !self.tells(rolled_back, deleted)? {
            return Err(RecoveryError::Misfit);
        }
        recover(&mut self.redo);
        self.begin_epoch(rolled, gone);
        Ok(())
    }

    /// Whether the next record is the first of its epoch that is read. Takes no memory.
    pub fn begins(&self) -> bool
        ensures { (result ≡ true) ↔ (self.now.number ≡ self.now.first) }
    {
        self.number == self.first
    }

    /// The number of the next record. Takes no memory.
    pub fn number(&self) -> u64
        ensures { result ≡ self.now.number }
    {
        self.number
    }

    /// Where an epoch begins: the records from here to its end are judged by a scan for this damage, as `into_damage` tells it
    /// of a reading of that epoch. It takes memory for a copy of the table and a word a region; where that is wanting nothing
    /// has changed.
    pub fn scan(&mut self, clean: u64, failing: &[u32]) -> Result<(), RecoveryError>
        requires { self.old.number ≡ self.old.first }
        ensures ok { OnOk result (Scans self.old self.new clean failing.now) }
        ensures ordered { OnOk result (KeepsOrder self.old self.new) }
        ensures err { IfErr result (λ e. (e ≡ OutOfMemory) × (self.new ≡ self.old)) }
    {
        let scan = Scan::new(self.alloc, self.geometry, clean, failing, &self.redo)?;
        self.scan = Some(scan);
        Ok(())
    }

    /// The damage of the present epoch, by its records so far. Takes no memory.
    pub fn into_damage(self) -> Damage
        ensures { TellsDamage self result.first result.clean result.failing.items }
    {
        Damage {
            first: self.first,
            clean: self.clean,
            failing: self.failing,
        }
    }

    /// Takes the next record: one of a transaction is made again, at that of a restart behind the image's place the epoch is
    /// recovered, and at the image's place such a record ends nothing.
    ///
    /// `Misfit` where the record may not follow those before it (`Fails`), and only there. `Unscanned` where the record ends an
    /// epoch in which an audit failed, unless a scan was told of just that damage. `OutOfMemory` where memory was refused: it
    /// takes some for a transaction that begins, an undo, the records of an audit, what a scan marks, and the lists of a
    /// restart's record; a record of another kind may follow then. After each of them what is known is as it was, but for
    /// `OutOfMemory` within a scan: then it is to be let go.
    pub fn take(&mut self, logged: &Record) -> Result<(), RecoveryError>
        requires { MayUndo logged.now }
        ensures ok { OnOk result (Takes self.old self.new logged.now) }
        ensures ordered { OnOk result (CanBeSpelled logged.now → KeepsOrder self.old self.new) }
        ensures scanned { OnOk result (EndsScanned self.old logged.now) }
        ensures err { IfErr result (λ e. Fails self.old self.new logged.now e) }
    {
        match logged {
            Record::Format { .. } => Err(RecoveryError::Misfit),
            Record::Begin { .. } => self.take_again(logged),
            Record::Forward { .. } => self.take_again(logged),
            Record::Done { .. } => self.take_again(logged),
            Record::Commit { .. } => self.take_again(logged),
            Record::Ended { .. } => self.take_again(logged),
            Record::Solo { .. } => self.take_again(logged),
            Record::AuditBegin => self.begin_audit(logged),
            Record::AuditClean { begin } => self.end_audit(logged, *begin),
            Record::AuditFail { begin, regions } => {
                self.fail_audit(logged, *begin, regions.as_slice())
            }
            Record::Restarted {
                rolled_back,
                deleted,
            } => self.end_epoch(logged, rolled_back.as_slice(), deleted.as_slice()),
            Record::Back { .. } => self.take_again(logged),
        }
    }

    // The lists that are handed out.
    fn lists(&self) -> Result<(Vec<u64>, Vec<u64>), RecoveryError>
        ensures ok { IfOk result (λ lists. HandsLists self.now lists.0.items lists.1.items) }
        ensures ordered { IfOk result (λ lists. Ascend self.now.rolled_back.items self.now.deleted.items → Ascend lists.0.items lists.1.items) }
        ensures err { IfErr result (λ e. e ≡ OutOfMemory) }
    {
        if self.restarted {
            return Ok((
                Vec::from_slice(self.alloc, &self.rolled_back)?,
                Vec::from_slice(self.alloc, &self.deleted)?,
            ));
        }
        self.found()
    }

    /// What is handed out at the log's end: the present epoch recovered, and its lists, or those of the record of a restart that
    /// was taken last. `Unscanned` exactly where an audit of the epoch failed, unless a scan was told of just that damage. It
    /// takes memory for the lists alone.
    pub fn finish(self) -> Result<Recovered, RecoveryError>
        ensures ok { IfOk result (λ out. HandsOn self out) }
        ensures ordered { IfOk result (λ out. (s : Sizes) → IsOrdered s self → IsOrderedOut s out) }
        ensures err { IfErr result (λ e. EndFails self e) }
    {
        if self.is_unscanned() {
            return Err(RecoveryError::Unscanned);
        }
        let (rolled_back, deleted) = self.lists()?;
        let number = self.number;
        let next = self.next;
        let mut redo = self.redo;
        recover(&mut redo);
        Ok(Recovered {
            regions: redo.into_regions(),
            rolled_back,
            deleted,
            number,
            next,
        })
    }
}
