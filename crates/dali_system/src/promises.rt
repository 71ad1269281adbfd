//! Memory that is promised, by transaction.
ghost use Rattle.std.specs.Prelude.{◌≡◌, ◌≤◌, ◌+◌, ◌<◌, ◌^◌, ℕ, OnOk, OnErr, IfOk};
ghost use Rattle.std.specs.FinMap as map;
ghost use Rattle.dali_system.specs.Promised.{behind, of_entries, promised_to, total, used};

use dali_bytes::OutOfMemory;
use std::alloc::{AllocError, Global};
use std::collections::BTreeMap;
use std::marker::Model;

/// What a record uses up of what is promised.
#[derive(Clone, Copy)]
pub enum Uses {
    /// Nothing.
    Nothing,
    /// So many of the bytes that are promised to a transaction.
    Bytes { txn: u64, bytes: usize },
    /// All that is promised to a transaction.
    All { txn: u64 },
}

/// For how many bytes of records of each transaction there is memory, and their sum.
#[derive(Drop)]
pub struct Promises {
    each: BTreeMap<u64, usize>,
    all: usize,
}

impl Model for Promises {
    ghost use Rattle.std.specs.Prelude.{◌≡◌};
    ghost use Rattle.dali_system.specs.Promised.{Promised, promised_code, of_entries, total};

    ghost Value = { Promised };

    ghost coded = { promised_code };

    ghost view = { λ p. of_entries p.each.entries };

    ghost invariant = { λ p. p.all ≡ total (of_entries p.each.entries) };
}

// So many bytes for a transaction, in place of what it had.
fn put(each: &mut BTreeMap<u64, usize>, txn: u64, bytes: usize) -> Result<(), AllocError>
    ensures ok { OnOk result (of_entries each.new.entries ≡ map.insert (of_entries each.old.entries) txn bytes) }
    ensures err { OnErr result (each.new.entries ≡ each.old.entries) }
{
    each.insert(txn, bytes)?;
    Ok(())
}

// So many bytes fewer for a transaction that has an entry.
fn lower(each: &mut BTreeMap<u64, usize>, txn: u64, by: usize)
    ensures { of_entries each.new.entries ≡ used (of_entries each.old.entries) txn by }
{
    match each.get_mut(&txn) {
        Some(bytes) => *bytes = bytes.saturating_sub(by),
        None => {}
    }
}

// Nothing for a transaction.
fn take(each: &mut BTreeMap<u64, usize>, txn: u64)
    ensures { of_entries each.new.entries ≡ map.remove (of_entries each.old.entries) txn }
{
    let _ = each.remove(&txn);
}

impl Promises {
    pub fn new(alloc: Global) -> Self
        ensures { result ≡ map.empty }
    {
        Promises {
            each: BTreeMap::new(alloc),
            all: 0,
        }
    }

    pub fn all(&self) -> usize
        ensures { result ≡ total self.now }
    {
        self.all
    }

    pub fn to(&self, txn: u64) -> usize
        ensures { result ≡ promised_to self.now txn }
    {
        match self.each.get(&txn) {
            Some(bytes) => *bytes,
            None => 0,
        }
    }

    /// The sum where the transaction is promised so many bytes, in place of what it was.
    pub fn all_with(&self, txn: u64, bytes: usize) -> Result<usize, OutOfMemory>
        ensures { IfOk result (λ all. all ≡ total (map.insert self.now txn bytes)) }
    {
        let to = self.to(txn);
        match (self.all - to).checked_add(bytes) {
            Some(all) => Ok(all),
            None => Err(OutOfMemory),
        }
    }

    /// The sum where the transaction has used so many.
    pub fn all_but(&self, txn: u64, by: usize) -> usize
        ensures { result ≡ total (used self.now txn by) }
    {
        let to = self.to(txn);
        self.all - to + to.saturating_sub(by)
    }

    /// The sum where the transaction is promised nothing.
    pub fn all_without(&self, txn: u64) -> usize
        ensures { result ≡ total (map.remove self.now txn) }
    {
        let to = self.to(txn);
        self.all - to
    }

    /// The sum behind a record that uses so much.
    pub fn all_behind(&self, uses: Uses) -> usize
        ensures { result ≡ total (behind self.now uses) }
    {
        match uses {
            Uses::Nothing => self.all(),
            Uses::Bytes { txn, bytes } => self.all_but(txn, bytes),
            Uses::All { txn } => self.all_without(txn),
        }
    }

    /// Promises so many bytes, in place of what was promised. Unchanged where memory is refused.
    pub fn set(&mut self, txn: u64, bytes: usize) -> Result<(), OutOfMemory>
        ensures ok { OnOk result (self.new ≡ map.insert self.old txn bytes) }
        ensures err { OnErr result (self.new ≡ self.old) }
    {
        let all = self.all_with(txn, bytes)?;
        put(&mut self.each, txn, bytes)?;
        self.all = all;
        Ok(())
    }

    pub fn spend(&mut self, txn: u64, by: usize)
        ensures { self.new ≡ used self.old txn by }
    {
        let all = self.all_but(txn, by);
        lower(&mut self.each, txn, by);
        self.all = all;
    }

    pub fn end(&mut self, txn: u64)
        ensures { self.new ≡ map.remove self.old txn }
    {
        let all = self.all_without(txn);
        take(&mut self.each, txn);
        self.all = all;
    }

    /// A record that uses so much was logged.
    pub fn use_up(&mut self, uses: Uses)
        ensures { self.new ≡ behind self.old uses }
    {
        match uses {
            Uses::Nothing => {}
            Uses::Bytes { txn, bytes } => self.spend(txn, bytes),
            Uses::All { txn } => self.end(txn),
        }
    }
}
