//! The scan for damage, record by record.
ghost use Rattle.std.specs.Prelude.{◌≡◌, ◌<◌, ℕ, true, ◌||◌, ◌==◌, length, filter, replicate, IfOk, OnOk, OnErr, []};
ghost use Rattle.std.specs.BTreeSet as tree;
ghost use Rattle.std.specs.Ordering.{nat_cmp};
ghost use Rattle.dali_record.specs.declared.records.Record.TheVariants.{Forward};
ghost use Rattle.dali_geometry.specs.Sizes.{Sizes};
ghost use Rattle.dali_record.specs.Damage.{Damage, has};
ghost use Rattle.dali_record.specs.Spelling.{ascends};
ghost use Rattle.dali_resume.specs.Resumed.{deleted_by};
ghost use Rattle.dali_resume.specs.Tests.{Known};
ghost use Rattle.dali_redo.specs.Taint.Tables.{has_number, reads_failing, is_reached, is_left_out, Drops, Keeps, Stays};
ghost use Rattle.dali_redo.specs.Taint.Following.{Begins, Follows, FollowsOn, JudgedIn, scanned};

use crate::taint::marks::{make_room, mark_changed, mark_undone, mark_words};
use crate::taint::undos;
use dali_att::Att;
use dali_geometry::Geometry;
use dali_record::{Block, Pending, Record};
use std::alloc::{AllocError, Global};
use std::collections::{BTreeSet, HashSet};

/// What a restart does with a record.
#[derive(Clone, Copy, PartialEq, Eq)]
pub enum Judgement {
    /// It stays: a block's new words are written.
    Keep,
    /// It is left out, since its transaction is corrupt, or becomes so by it.
    Drop,
}

/// The scan for damage over the records of an epoch, in their order (the idea is that of Bohannon et al., TKDE 2003).
///
/// At the clean place every word of a failing region becomes corrupt data. A transaction becomes corrupt at a block that
/// reads corrupt data, or is on the item of a block that was left out and changed it, or of an undo that a corrupt
/// transaction left at its first corrupt block. From that block on its records are left out, and the words that its
/// blocks wrote become corrupt data. A solo is a transaction of its own.
///
/// It keeps a set of words for each region, the marked items, the corrupt transactions, and the undos of those that are
/// at work: no record that it has seen.
#[derive(Drop)]
pub struct Taint {
    alloc: Global,
    clean: u64,
    failing: BTreeSet<u64>,
    words: Vec<u64>,
    items: HashSet<u64>,
    corrupt: BTreeSet<u64>,
    undos: Att<Pending>,
    deleted: BTreeSet<u64>,
}

// Adds a number to a set of them.
fn note(numbers: &mut BTreeSet<u64>, number: u64) -> Result<(), AllocError>
    ensures ok { OnOk result ((t : ℕ) → has_number numbers.new t ≡ (has_number numbers.old t || (number == t))) }
    ensures err { OnErr result ((t : ℕ) → has_number numbers.new t ≡ has_number numbers.old t) }
{
    numbers.insert(number)?;
    Ok(())
}

// The set of these numbers.
fn set_of(alloc: Global, numbers: &[u32]) -> Result<BTreeSet<u64>, AllocError>
    ensures { IfOk result (λ set. (t : ℕ) → has_number set t ≡ has numbers.now t) }
{
    let mut set = BTreeSet::new(alloc);
    for number in numbers {
        note(&mut set, u64::from(*number))?;
    }
    Ok(set)
}

// The numbers of a set, ascending.
fn ascending(alloc: Global, numbers: &BTreeSet<u64>) -> Result<Vec<u64>, AllocError>
    ensures keys { IfOk result (λ list. list.items ≡ numbers.now.keys) }
    ensures ordered { tree.IsOrdered nat_cmp numbers.now }
{
    numbers.iter().copied().collect(alloc)
}

// For so many regions no marked words.
fn no_words(alloc: Global, regions: u32) -> Result<Vec<u64>, AllocError>
    ensures { IfOk result (λ words. words.items ≡ replicate regions 0) }
{
    vec![in alloc; 0; regions as usize]
}

impl Taint {
    /// The scan before the first record of an epoch, or behind an image within one. `clean` is the number of the clean
    /// place and `failing` has the regions that failed the epoch's audit, both of the whole epoch; `att` is the table at
    /// that place, empty where the epoch begins there. It takes memory for a word a region and for a copy of the table.
    pub fn new(
        alloc: Global,
        geometry: Geometry,
        clean: u64,
        failing: &[u32],
        att: &Att<Pending>,
    ) -> Result<Taint, AllocError>
        ensures { (d : Damage) (k : Known) → d.clean ≡ clean → d.failing ≡ failing.now → Begins d k att.now → IfOk result (λ x. Follows geometry x d k) }
    {
        Ok(Taint {
            alloc,
            clean,
            failing: set_of(alloc, failing)?,
            words: no_words(alloc, geometry.regions())?,
            items: HashSet::new(alloc),
            corrupt: BTreeSet::new(alloc),
            undos: att.copy()?,
            deleted: BTreeSet::new(alloc),
        })
    }

    // Whether the block reads a failing region at or behind the clean place.
    fn reads_failing(&self, number: u64, block: &Block) -> bool
        ensures { result ≡ reads_failing self.now number block.now }
    {
        self.clean <= number && self.failing.contains(&u64::from(block.region)) && block.read != 0
    }

    // Whether the block reads a marked word or a failing region, or is on a marked item.
    fn reaches(&self, number: u64, block: &Block) -> bool
        ensures { result ≡ is_reached self.now number block.now }
    {
        if self.reads_failing(number, block) {
            return true;
        }
        let marked = self.words.get(block.region as usize).copied().unwrap_or(0);
        if marked & block.read != 0 {
            return true;
        }
        self.items.contains(&block.key)
    }

    // Whether the block's transaction is corrupt, or becomes so by it.
    fn leaves_block_out(&self, number: u64, txn: u64, block: &Block) -> bool
        ensures { result ≡ (has_number self.now.corrupt txn || is_reached self.now number block.now) }
    {
        if self.corrupt.contains(&txn) {
            return true;
        }
        self.reaches(number, block)
    }

    // Whether the record's transaction is corrupt, or becomes so by it.
    fn leaves_out(&self, number: u64, logged: &Record) -> bool
        ensures { result ≡ is_left_out self.now number logged.now }
    {
        match logged {
            Record::Begin { txn } => self.corrupt.contains(txn),
            Record::Done { txn, .. } => self.corrupt.contains(txn),
            Record::Commit { txn } => self.corrupt.contains(txn),
            Record::Ended { txn } => self.corrupt.contains(txn),
            Record::Forward { txn, block } => self.leaves_block_out(number, *txn, block),
            Record::Back { txn, block } => self.leaves_block_out(number, *txn, block),
            Record::Solo { txn, block, .. } => self.leaves_block_out(number, *txn, block),
            _ => false,
        }
    }

    // Leaves the block out: its transaction is corrupt from here on.
    fn drop_block(&mut self, txn: u64, block: &Block) -> Result<(), AllocError>
        ensures ok { OnOk result (Drops self.old self.new (Forward txn block.now)) }
        ensures err { OnErr result (Stays self.old self.new) }
    {
        let undos = self.undos.undos(txn);
        make_room(&mut self.items, undos.len() + 1)?;
        note(&mut self.corrupt, txn)?;
        mark_undone(&mut self.items, undos);
        mark_changed(&mut self.items, block);
        mark_words(&mut self.words, block.region, block.write);
        undos::forget(&mut self.undos, txn);
        Ok(())
    }

    // Leaves the record out.
    fn leave_out(&mut self, logged: &Record) -> Result<(), AllocError>
        ensures ok { OnOk result (Drops self.old self.new logged.now) }
        ensures err { OnErr result (Stays self.old self.new) }
    {
        match logged {
            Record::Forward { txn, block } => self.drop_block(*txn, block),
            Record::Back { txn, block } => self.drop_block(*txn, block),
            Record::Solo { txn, block, .. } => self.drop_block(*txn, block),
            Record::Commit { txn } => {
                note(&mut self.deleted, *txn)?;
                Ok(())
            }
            _ => Ok(()),
        }
    }

    // Takes the record as applied.
    fn keep(&mut self, logged: &Record) -> Result<(), AllocError>
        ensures ok { OnOk result (Keeps self.old self.new logged.now) }
        ensures err { OnErr result (Stays self.old self.new) }
    {
        match logged {
            Record::Forward { txn, block } => undos::add(&mut self.undos, *txn, block),
            Record::Back { txn, .. } => {
                undos::remove_last(&mut self.undos, *txn);
                Ok(())
            }
            Record::Commit { txn } => {
                undos::forget(&mut self.undos, *txn);
                Ok(())
            }
            Record::Ended { txn } => {
                undos::forget(&mut self.undos, *txn);
                Ok(())
            }
            _ => Ok(()),
        }
    }

    /// Judges the next record, whose number in the log this is. Of records that pass the tests of a restart, in their
    /// order, each is judged exactly as the scan over the whole list does. It takes memory for marked items, corrupt
    /// transactions and undos; where that is wanting nothing has changed, and the record may be judged again.
    pub fn judge(&mut self, number: u64, logged: &Record) -> Result<Judgement, AllocError>
        ensures ok { IfOk result (λ judgement. JudgedIn self.old number logged.now judgement self.new) }
        ensures err { OnErr result (FollowsOn self.old self.new) }
    {
        if self.leaves_out(number, logged) {
            self.leave_out(logged)?;
            return Ok(Judgement::Drop);
        }
        self.keep(logged)?;
        Ok(Judgement::Keep)
    }

    /// The deleted transactions, ascending: those that are corrupt and have a Commit. It takes memory for them.
    pub fn deleted(&self) -> Result<Vec<u64>, AllocError>
        ensures deleted { (s : Sizes) (d : Damage) (k : Known) → Follows s self.now d k → IfOk result (λ deleted. deleted.items ≡ deleted_by k.table k.seen (scanned d k)) }
        ensures ascending { IfOk result (λ deleted. ascends deleted.items ≡ true) }
    {
        ascending(self.alloc, &self.deleted)
    }
}
