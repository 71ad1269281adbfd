//! Undo lists of transactions, by number. One that isn't in the table has no undos.
ghost use Rattle.std.specs.Prelude.{◌≡◌, ℕ, IsSome, OnOk, OnErr, if◌then◌else◌, ◌==◌, []};
ghost use Rattle.std.specs.FinMap as map;
ghost use Rattle.dali_att.specs.Table.{undos_at};
ghost use Rattle.dali_record.specs.Log.{drop_last};
ghost use Rattle.dali_redo.specs.Taint.Tables.{AddsUndo, SameUndos};

use dali_att::Att;
use dali_record::{Block, Pending};
use std::alloc::AllocError;

#[tactic(auto, using(crate::proofs::TaintLemmas::Lists::present, crate::proofs::TaintLemmas::Lists::entered_by, crate::proofs::TaintLemmas::Lists::is_there))]
// Makes sure that the transaction is in the table.
fn enter(table: &mut Att<Pending>, txn: u64) -> Result<(), AllocError>
    ensures present { OnOk result (IsSome (map.get table.new txn)) }
    ensures same { SameUndos table.old table.new }
{
    match table.state(txn) {
        Some(_) => Ok(()),
        None => {
            table.begin(txn)?;
            Ok(())
        }
    }
}

#[tactic(auto, using(crate::proofs::TaintLemmas::Lists::longer))]
/// Adds the block's undo, if it has one, to the list of its transaction. Where memory is wanting the lists stay.
pub fn add(table: &mut Att<Pending>, txn: u64, block: &Block) -> Result<(), AllocError>
    ensures ok { OnOk result (AddsUndo table.old table.new txn block.now) }
    ensures err { OnErr result (SameUndos table.old table.new) }
{
    match block.undo {
        Some(undo) => {
            enter(table, txn)?;
            table.push(txn, block.pending(undo))?;
            Ok(())
        }
        None => Ok(()),
    }
}

/// Removes the last undo of the transaction's list.
pub fn remove_last(table: &mut Att<Pending>, txn: u64)
    ensures { (u : ℕ) → undos_at table.new u ≡ (if txn == u then drop_last (undos_at table.old u) else undos_at table.old u) }
{
    let _ = table.pop(txn);
}

/// Removes the transaction's list.
pub fn forget(table: &mut Att<Pending>, txn: u64)
    ensures { (u : ℕ) → undos_at table.new u ≡ (if txn == u then [] else undos_at table.old u) }
{
    table.end(txn);
}
