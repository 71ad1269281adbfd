//! The table, a map from a transaction's number to its row.
ghost use Rattle.std.specs.Prelude.{◌≡◌, ℕ, length, None, IsSome, IfSome, IfNone, IfOk, OnOk, OnErr, option_copied};
ghost use Rattle.std.specs.FinMap as map;
ghost use Rattle.std.specs.BTreeMap as tree;
ghost use Rattle.std.specs.Ordering.{nat_cmp};
ghost use Rattle.dali_att.specs.Table.{fresh_row, with_row, with_state, with_undo, without_last, without_undos, last_of, undos_at, state_at, IsFirst};

use crate::row::Row;
use crate::state::State;
use std::alloc::{AllocError, Global};
use std::collections::BTreeMap;
use std::marker::Model;

/// The active transaction table with the local undo logs (Jagadish et al., VLDB 1994): the running transactions by number, each with its
/// state and its own undo log, a list of undos with the oldest first.
///
/// To find a transaction takes a time that is logarithmic in the number of transactions. Besides, [`Att::push`] may move the
/// transaction's list to a larger place, [`Att::clear`] and [`Att::end`] drop the list, one undo after the other, and [`Att::numbers`]
/// and [`Att::copy`] go over the whole table.
#[derive(Drop)]
pub struct Att<U> {
    alloc: Global,
    rows: BTreeMap<u64, Row<U>>,
}

impl<U> Model for Att<U> {
    ghost use Rattle.std.specs.Ordering.{nat_cmp};
    ghost use Rattle.std.specs.FinMap as map;
    ghost use Rattle.std.specs.Coded.{coded_ℕ};
    ghost use Rattle.dali_att.specs.Table.{Row as RowOf, coded_row};

    ghost Value = { map.FinMap nat_cmp (RowOf U) };

    ghost coded = { map.code coded_ℕ (coded_row U.code) };

    ghost view = { λ att. map.from_entries att.rows.entries };
}

impl<U: Drop> Att<U> {
    /// The table without transactions. It takes no memory.
    pub fn new(alloc: Global) -> Self
        ensures { result ≡ map.empty }
    {
        Att {
            alloc,
            rows: BTreeMap::new(alloc),
        }
    }

    /// Adds a transaction, live and without undos. It must be absent. Where memory is wanting the table is unchanged.
    pub fn begin(&mut self, txn: u64) -> Result<(), AllocError>
        requires absent { map.get self.old txn ≡ None }
        ensures ok { OnOk result (self.new ≡ map.insert self.old txn fresh_row) }
        ensures err { OnErr result (self.new ≡ self.old) }
    {
        self.rows.insert(txn, Row::new(self.alloc))?;
        Ok(())
    }

    /// Adds an undo at the end of the transaction's list. The transaction must be present. Where memory is wanting the table is unchanged.
    pub fn push(&mut self, txn: u64, undo: U) -> Result<(), AllocError>
        requires present { IsSome (map.get self.old txn) }
        ensures ok { OnOk result (self.new ≡ with_row self.old txn (with_undo undo)) }
        ensures err { OnErr result (self.new ≡ self.old) }
    {
        match self.rows.get_mut(&txn) {
            Some(row) => row.push(undo),
            None => unreachable!(),
        }
    }

    /// Takes the last undo of the transaction's list. `None` where the list is empty or the transaction is absent.
    pub fn pop(&mut self, txn: u64) -> Option<U>
        ensures last { result ≡ last_of (undos_at self.old txn) }
        ensures rest { self.new ≡ with_row self.old txn without_last }
    {
        match self.rows.get_mut(&txn) {
            Some(row) => row.pop(),
            None => None,
        }
    }

    /// The last undo of the transaction's list. `None` where the list is empty or the transaction is absent.
    pub fn last(&self, txn: u64) -> Option<&U>
        ensures { option_copied result ≡ last_of (undos_at self.now txn) }
    {
        self.undos(txn).last()
    }

    /// The transaction's undos, the oldest first. Empty where it is absent.
    pub fn undos(&self, txn: u64) -> &[U]
        ensures { result.now ≡ undos_at self.now txn }
    {
        match self.rows.get(&txn) {
            Some(row) => row.undos(),
            None => &[],
        }
    }

    /// How many undos the transaction's list has, 0 where it is absent.
    pub fn mark(&self, txn: u64) -> usize
        ensures { result ≡ length (undos_at self.now txn) }
    {
        self.undos(txn).len()
    }

    /// The transaction's state. `None` where it is absent.
    pub fn state(&self, txn: u64) -> Option<State>
        ensures { result ≡ state_at self.now txn }
    {
        match self.rows.get(&txn) {
            Some(row) => Some(row.state()),
            None => None,
        }
    }

    /// Sets the transaction's state. The transaction must be present. Its undos stay.
    pub fn set_state(&mut self, txn: u64, state: State)
        requires present { IsSome (map.get self.old txn) }
        ensures { self.new ≡ with_row self.old txn (with_state state) }
    {
        match self.rows.get_mut(&txn) {
            Some(row) => row.set_state(state),
            None => unreachable!(),
        }
    }

    /// Removes the transaction's undos. Its state stays.
    pub fn clear(&mut self, txn: u64)
        ensures { self.new ≡ with_row self.old txn without_undos }
    {
        match self.rows.get_mut(&txn) {
            Some(row) => row.clear(),
            None => {}
        }
    }

    /// Removes the transaction, with its undos, where it is there.
    pub fn end(&mut self, txn: u64)
        ensures { self.new ≡ map.remove self.old txn }
    {
        let _ = self.rows.remove(&txn);
    }

    /// The least number of a transaction in the table.
    pub fn first(&self) -> Option<u64>
        ensures none { IfNone result (self.now ≡ map.empty) }
        ensures least { IfSome result (IsFirst self.now) }
    {
        match self.rows.first_key_value() {
            Some((&txn, _)) => Some(txn),
            None => None,
        }
    }

    /// The transactions' numbers, ascending. It takes memory for them.
    pub fn numbers(&self) -> Result<Vec<u64>, AllocError>
        ensures { IfOk result (λ numbers. numbers.items ≡ map.keys self.now) }
    {
        keys(self.alloc, &self.rows)
    }

    /// An equal table, which takes memory for all rows and undos.
    pub fn copy(&self) -> Result<Att<U>, AllocError>
    where
        U: Copy,
        ensures { IfOk result (λ copy. copy ≡ self.now) }
    {
        Ok(Att {
            alloc: self.alloc,
            rows: copy_rows(self.alloc, &self.rows)?,
        })
    }
}

// The keys of a map, in their order.
fn keys<V>(alloc: Global, rows: &BTreeMap<u64, V>) -> Result<Vec<u64>, AllocError>
    ensures keys { IfOk result (λ keys. keys.items ≡ tree.keys rows.now) }
    ensures ordered { tree.IsOrdered nat_cmp rows.now }
{
    rows.keys().copied().collect(alloc)
}

fn copy_rows<U: Copy>(
    alloc: Global,
    rows: &BTreeMap<u64, Row<U>>,
) -> Result<BTreeMap<u64, Row<U>>, AllocError>
    ensures { IfOk result (λ copy. copy.entries ≡ rows.now.entries) }
{
    let mut copy = BTreeMap::new(alloc);
    for (&txn, row) in rows {
        copy.insert(txn, row.copy(alloc)?)?;
    }
    Ok(copy)
}
