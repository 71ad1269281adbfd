//! The lock table, which keeps the locks twice: by transaction and by key.
ghost use Rattle.std.specs.Prelude.{◌≡◌, ℕ, ◌<◌, ◌≤◌, Some, None, IsSome, IfOk, IfSome, IfNone, ◌&&◌, OnOk, OnErr, MatchOption, if◌then◌else◌, ◌==◌, false};
ghost use Rattle.std.specs.FinMap as map;
ghost use Rattle.dali_locks.specs.Locks.{IsApart, IsFree, IsOldestConflict, IsAnswer, locks_with, table_after, locks_without};
ghost use Rattle.dali_locks.specs.Pairs.{mode_at, IsSetTo, HasSame, IsReleased, IsMirror, IsLeast, HasNone, IsOther};

use crate::mode::{LockAnswer, Mode};
use std::alloc::{AllocError, Global};
use std::collections::BTreeMap;
use std::marker::Model;
use std::ops::Bound;

/// Which transaction holds which key, and in which mode.
///
/// A transaction is known by its number, and a smaller number means an older transaction. Two holders of one key both share it.
///
/// Requests follow the wait-die rule (Rosenkrantz et al., TODS 1978): an older transaction may wait for younger ones, and a younger one
/// is refused where an older one is in its way.
///
/// The locks stand in two ordered maps, one by transaction and then key, one by key and then transaction. So [`LockTable::request`]
/// and [`LockTable::holds`] take a time that is logarithmic in the number of locks, and [`LockTable::release_all`] takes such a time
/// for each lock that the transaction holds.
#[derive(Drop)]
pub struct LockTable {
    held: BTreeMap<(u64, u64), Mode>,
    holders: BTreeMap<(u64, u64), Mode>,
}

impl Model for LockTable {
    ghost use Rattle.std.specs.FinMap as map;
    ghost use Rattle.std.specs.Coded.{coded×, coded_ℕ};
    ghost use Rattle.dali_locks.specs.declared.mode.Mode.{Mode};
    ghost use Rattle.dali_locks.specs.Locks.{lock_cmp, coded_mode};
    ghost use Rattle.dali_locks.specs.Pairs.{IsKept};

    ghost Value = { map.FinMap lock_cmp Mode };

    ghost coded = { map.code (coded× coded_ℕ coded_ℕ) coded_mode };

    ghost view = { λ locks. map.from_entries locks.held.entries };

    ghost invariant = { λ locks. IsKept locks.held.entries locks.holders.entries };
}

impl LockTable {
    /// The table without locks. It takes no memory.
    pub fn new(alloc: Global) -> Self
        ensures empty { result ≡ map.empty }
        ensures apart { IsApart result }
    {
        LockTable {
            held: BTreeMap::new(alloc),
            holders: BTreeMap::new(alloc),
        }
    }

    /// Asks for the key in a mode.
    ///
    /// Another holder is in the way where one of the two modes is exclusive. With nobody in the way the answer is `Granted`, and the
    /// transaction then holds the key in the stronger one of this mode and of that in which it held the key before, if it did. The request may
    /// wait where each transaction in the way is younger, and is refused otherwise; both answers name the oldest one in the way.
    ///
    /// The table changes only where the answer is `Granted`. Where memory is wanting it is unchanged. That comes only where nobody is in the
    /// way and the transaction doesn't hold the key yet: to ask again for a key that is held, in any mode, takes no memory, nor does
    /// an answer other than `Granted`.
    pub fn request(&mut self, txn: u64, key: u64, mode: Mode) -> Result<LockAnswer, AllocError>
        ensures answer { IfOk result (IsAnswer self.old txn key mode) }
        ensures table { IfOk result (λ answer. self.new ≡ table_after self.old txn key mode answer) }
        ensures err { OnErr result (self.new ≡ self.old) }
        ensures refused { OnErr result (IsFree self.old txn key mode × (map.get self.old (txn, key) ≡ None)) }
        ensures apart { IsApart self.new }
    {
        match self.oldest_conflict(txn, key, mode) {
            Some(holder) if holder < txn => Ok(LockAnswer::Busy { holder }),
            Some(holder) => Ok(LockAnswer::Wait { holder }),
            None => {
                self.grant(txn, key, mode)?;
                Ok(LockAnswer::Granted)
            }
        }
    }

    // The oldest holder in the way of a request. Where there are several others they share the key, so the oldest of them tells.
    fn oldest_conflict(&self, txn: u64, key: u64, mode: Mode) -> Option<u64>
        ensures free { IfNone result (IsFree self.now txn key mode) }
        ensures oldest { IfSome result (IsOldestConflict self.now txn key mode) }
        ensures apart { IsApart self.now }
    {
        match oldest_other(&self.holders, key, txn) {
            Some((holder, held)) if mode.conflicts_with(held) => Some(holder),
            _ => None,
        }
    }

    // Grants the lock that nobody is in the way of.
    fn grant(&mut self, txn: u64, key: u64, mode: Mode) -> Result<(), AllocError>
        requires { IsFree self.old txn key mode }
        ensures ok { OnOk result (self.new ≡ locks_with self.old txn key mode) }
        ensures err { OnErr result (self.new ≡ self.old) }
        ensures absent { OnErr result (map.get self.old (txn, key) ≡ None) }
        ensures apart { IsApart self.new }
    {
        let mode = mode.or_held(self.holds(txn, key));
        put(&mut self.held, &mut self.holders, txn, key, mode)
    }

    /// The mode in which the transaction holds the key, if it does.
    pub fn holds(&self, txn: u64, key: u64) -> Option<Mode>
        ensures mode { result ≡ map.get self.now (txn, key) }
        ensures apart { IsApart self.now }
    {
        self.held.get(&(txn, key)).copied()
    }

    /// Frees all keys that the transaction holds. It takes no memory.
    pub fn release_all(&mut self, txn: u64)
        ensures freed { self.new ≡ locks_without self.old txn }
        ensures apart { IsApart self.new }
    {
        release(&mut self.held, &mut self.holders, txn);
    }
}

// Writes a lock into both maps, or into none.
fn put(
    held: &mut BTreeMap<(u64, u64), Mode>,
    holders: &mut BTreeMap<(u64, u64), Mode>,
    txn: u64,
    key: u64,
    mode: Mode,
) -> Result<(), AllocError>
    requires { mode_at holders.old.entries key txn ≡ mode_at held.old.entries txn key }
    ensures ok { OnOk result (IsSetTo (Some mode) txn key held.old.entries held.new.entries × IsSetTo (Some mode) key txn holders.old.entries holders.new.entries) }
    ensures err { OnErr result (HasSame held.old.entries held.new.entries × HasSame holders.old.entries holders.new.entries) }
    ensures absent { OnErr result (mode_at held.old.entries txn key ≡ None) }
{
    held.insert((txn, key), mode)?;
    match holders.insert((key, txn), mode) {
        Ok(_) => Ok(()),
        Err(_) => {
            // Only a lock that is new here and there can be refused.
            let _ = held.remove(&(txn, key));
            Err(AllocError)
        }
    }
}

// Removes each lock of the transaction from both maps.
fn release(
    held: &mut BTreeMap<(u64, u64), Mode>,
    holders: &mut BTreeMap<(u64, u64), Mode>,
    txn: u64,
)
    requires { IsMirror held.old.entries holders.old.entries }
    ensures released { IsReleased txn held.old.entries held.new.entries }
    ensures mirror { IsMirror held.new.entries holders.new.entries }
{
    while let Some(key) = first_key(held, txn) {
        let _ = held.remove(&(txn, key));
        let _ = holders.remove(&(key, txn));
    }
}

// The least key that the transaction holds.
fn first_key(held: &BTreeMap<(u64, u64), Mode>, txn: u64) -> Option<u64>
    ensures none { IfNone result ((key : ℕ) → mode_at held.now.entries txn key ≡ None) }
    ensures held { IfSome result (λ key. IsSome (mode_at held.now.entries txn key)) }
{
    match held.range((txn, 0)..).next() {
        Some((&(holder, key), _)) if holder == txn => Some(key),
        _ => None,
    }
}

// The oldest holder of the key other than the transaction, and its mode.
fn oldest_other(holders: &BTreeMap<(u64, u64), Mode>, key: u64, txn: u64) -> Option<(u64, Mode)>
    ensures none { IfNone result (HasNone (IsOther txn) holders.now.entries key) }
    ensures oldest { IfSome result (λ other. IsLeast (IsOther txn) holders.now.entries key other.0 other.1) }
{
    match oldest_below(holders, key, txn) {
        Some(other) => Some(other),
        None => oldest_above(holders, key, txn),
    }
}

// The oldest one that is older than the transaction.
fn oldest_below(holders: &BTreeMap<(u64, u64), Mode>, key: u64, txn: u64) -> Option<(u64, Mode)>
    ensures none { IfNone result (HasNone (λ u. u < txn) holders.now.entries key) }
    ensures oldest { IfSome result (λ other. IsLeast (λ u. u < txn) holders.now.entries key other.0 other.1) }
{
    match holders.range((key, 0)..(key, txn)).next() {
        Some((&(_, holder), &mode)) => Some((holder, mode)),
        None => None,
    }
}

// The oldest one that is younger.
fn oldest_above(holders: &BTreeMap<(u64, u64), Mode>, key: u64, txn: u64) -> Option<(u64, Mode)>
    ensures none { IfNone result (HasNone (λ u. txn < u) holders.now.entries key) }
    ensures oldest { IfSome result (λ other. IsLeast (λ u. txn < u) holders.now.entries key other.0 other.1) }
{
    let above = (Bound::Excluded((key, txn)), Bound::Unbounded);
    match holders.range(above).next() {
        Some((&(other, holder), &mode)) if other == key => Some((holder, mode)),
        _ => None,
    }
}
