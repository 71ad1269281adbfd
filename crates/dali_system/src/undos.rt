//! The undo that an operation leaves in the table.
ghost use Rattle.std.specs.Prelude.{◌≡◌, OnOk, OnErr, IfOk, IsSome};
ghost use Rattle.std.specs.FinMap as map;
ghost use Rattle.dali_att.specs.Table.{Table};
ghost use Rattle.dali_record.specs.declared.operations.Pending.{Pending as PendingOf};
ghost use Rattle.dali_record.specs.Legal;
ghost use Rattle.dali_record.specs.Legal.{dead_of};
ghost use Rattle.dali_runs.specs.Steps.{undo_kept};

use dali_att::Att;
use dali_record::{Block, Pending, Undo};
use std::alloc::{AllocError, Global};

/// Keeps the block's undo, if it has one. Unchanged where memory is refused.
pub(crate) fn keep(table: &mut Att<Pending>, txn: u64, block: &Block) -> Result<(), AllocError>
    requires { IsSome (map.get table.old txn) }
    ensures ok { OnOk result (table.new ≡ undo_kept table.old txn block.now block.now.undo) }
    ensures err { OnErr result (table.new ≡ table.old) }
{
    match block.undo {
        Some(undo) => table.push(txn, block.pending(undo)),
        None => Ok(()),
    }
}

/// Forgets it again.
pub(crate) fn forget(table: &mut Att<Pending>, txn: u64, block: &Block)
    ensures { (before : Table PendingOf) → IsSome (map.get before txn) → table.old ≡ undo_kept before txn block.now block.now.undo → table.new ≡ before }
{
    match block.undo {
        Some(_) => {
            let _ = table.pop(txn);
        }
        None => {}
    }
}

// Whether the undo is of a removal.
fn is_removal(undo: &Undo) -> bool
    ensures { result ≡ Legal.is_removal undo.now }
{
    match undo {
        Undo::ReviveCell { .. } | Undo::ReviveEntry { .. } => true,
        _ => false,
    }
}

/// The removals among some undos, in their order. It takes memory for them.
pub(crate) fn removals(alloc: Global, undos: &[Pending]) -> Result<Vec<Pending>, AllocError>
    ensures { IfOk result (λ removed. removed.items ≡ dead_of undos.now) }
{
    let mut removed = Vec::new(alloc);
    for pending in undos {
        if is_removal(&pending.undo) {
            removed.push(*pending)?;
        }
    }
    Ok(removed)
}
