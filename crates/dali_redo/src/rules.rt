//! The rules of records that the table of transactions tells.
ghost use Rattle.std.specs.Prelude.{◌≡◌, ◌^◌, ◌&&◌, nat_lt, nat_le, List, option_copied};
ghost use Rattle.dali_record.specs.declared.operations.Pending.{Pending as PendingOf};
ghost use Rattle.dali_record.specs.Operations as operations;
ghost use Rattle.dali_record.specs.Legal.{same_op as are_same, is_of as is_block_of};
ghost use Rattle.dali_resume.specs.Laws.{undos_in};
ghost use Rattle.dali_resume.specs.Tests as tests;
ghost use Rattle.dali_redo.specs.Redoing.{status_by, status_at, told_by, breaks as is_broken};

use dali_att::{Att, State};
use dali_geometry::Geometry;
use dali_record::{Block, Op, Pending, Record, Undo, on_kind};

// No transaction has a number as great as this.
const END_OF_NUMBERS: u64 = 1 << 40;

// Whether a state is that of a transaction at work.
fn works(state: Option<State>) -> bool
    ensures { (us : List PendingOf) → result ≡ tests.is_running (status_by state us) }
{
    match state {
        None => false,
        Some(State::Live) => true,
        Some(State::Dead { .. }) => true,
        Some(State::Cleaning { .. }) => true,
        Some(State::Committed) => false,
    }
}

/// Whether the transaction is at work.
pub fn is_active(table: &Att<Pending>, txn: u64) -> bool
    ensures { result ≡ tests.is_running (status_at table.now txn) }
{
    works(table.state(txn))
}

// Whether a state is that of a committed transaction.
fn waits(state: Option<State>) -> bool
    ensures { (us : List PendingOf) → result ≡ tests.is_waiting (status_by state us) }
{
    match state {
        None => false,
        Some(State::Live) => false,
        Some(State::Dead { .. }) => false,
        Some(State::Cleaning { .. }) => false,
        Some(State::Committed) => true,
    }
}

// Whether the transaction is committed and hasn't ended.
fn is_committed(table: &Att<Pending>, txn: u64) -> bool
    ensures { result ≡ tests.is_waiting (status_at table.now txn) }
{
    waits(table.state(txn))
}

/// The undos of a transaction at work; none of another.
pub fn undos_at_work(table: &Att<Pending>, txn: u64) -> &[Pending]
    ensures { result.now ≡ undos_in (status_at table.now txn) }
{
    if is_active(table, txn) {
        return table.undos(txn);
    }
    &[]
}

// Whether the transaction may end.
fn may_end(table: &Att<Pending>, txn: u64) -> bool
    ensures { result ≡ tests.may_end (status_at table.now txn) }
{
    if is_committed(table, txn) {
        return true;
    }
    is_active(table, txn) && table.undos(txn).is_empty()
}

// Whether the operation is the one that performs the undo.
fn performs(op: &Op, undo: &Undo) -> bool
    ensures { result ≡ are_same op.now (operations.undo_op undo.now) }
{
    match (op, undo) {
        (Op::FreeCell { cell }, Undo::FreeCell { cell: other }) => cell == other,
        (Op::ReviveCell { cell }, Undo::ReviveCell { cell: other }) => cell == other,
        (Op::FreeEntry { entry }, Undo::FreeEntry { entry: other }) => entry == other,
        (Op::ReviveEntry { entry }, Undo::ReviveEntry { entry: other }) => entry == other,
        (
            Op::Restore {
                cell,
                length,
                words,
            },
            Undo::Restore {
                cell: other_cell,
                length: other_length,
                words: other_words,
            },
        ) => cell == other_cell && length == other_length && words == other_words,
        _ => false,
    }
}

// Whether the block takes the pending undo back.
fn takes_back(block: &Block, pending: &Pending) -> bool
    ensures { result ≡ is_block_of (operations.undo_op pending.now.undo) pending.now block.now }
{
    block.key == pending.key && block.region == pending.region && performs(&block.op, &pending.undo)
}

// Whether the block takes the last of these undos back.
fn takes_last_back(block: &Block, last: Option<&Pending>) -> bool
    ensures { result ≡ tests.undoes_last block.now (option_copied last.entry) }
{
    match last {
        Some(pending) => takes_back(block, pending),
        None => false,
    }
}

// Whether the block takes the transaction's last undo back.
fn may_take_back(table: &Att<Pending>, txn: u64, block: &Block) -> bool
    ensures { result ≡ tests.may_take_back (status_at table.now txn) block.now }
{
    is_active(table, txn) && takes_last_back(block, table.last(txn))
}

// Whether a transaction may begin with this number.
fn is_new(next: u64, txn: u64) -> bool
    ensures { result ≡ (nat_lt txn (2 ^ 40) && nat_le next txn) }
{
    txn < END_OF_NUMBERS && next <= txn
}

/// Whether the record's rule is tested here, and broken.
pub fn breaks(geometry: Geometry, table: &Att<Pending>, next: u64, logged: &Record) -> bool
    ensures { result ≡ is_broken geometry (told_by table.now next) logged.now }
{
    match logged {
        Record::Begin { txn } => !is_new(next, *txn),
        Record::Forward { txn, block } => {
            !(is_active(table, *txn) && on_kind(geometry, block.region, &block.op))
        }
        Record::Done { txn, .. } => !is_active(table, *txn),
        Record::Back { txn, block } => {
            !(may_take_back(table, *txn, block) && on_kind(geometry, block.region, &block.op))
        }
        Record::Commit { txn } => !is_active(table, *txn),
        Record::Ended { txn } => !may_end(table, *txn),
        Record::Solo { txn, parent, block } => {
            !(is_new(next, *txn)
                && (is_committed(table, *parent) && on_kind(geometry, block.region, &block.op)))
        }
        _ => false,
    }
}
