//! Which outcome, undo and answer belong to which operation and call.
ghost use Rattle.std.specs.Prelude.{◌≡◌, ◌&&◌};
ghost use Rattle.dali_record.specs.Spelling;

use crate::operations::{Block, Op, Outcome, Undo};
use crate::records::{Answer, Call};

/// Whether the call can have this answer.
pub fn is_answer_of(call: &Call, answer: &Answer) -> bool
    ensures { result ≡ Spelling.is_answer_of call.now answer.now }
{
    match call {
        Call::Insert { .. } => matches!(
            answer,
            Answer::Ok | Answer::Exists | Answer::FullHeap | Answer::FullIndex
        ),
        Call::Update { .. } | Call::Delete { .. } => {
            matches!(answer, Answer::Ok | Answer::Missing | Answer::Odd { .. })
        }
        Call::Get { .. } => {
            matches!(
                answer,
                Answer::Got { .. } | Answer::Missing | Answer::Odd { .. }
            )
        }
    }
}

/// Whether the operation can have this outcome.
pub fn is_outcome_of(op: &Op, outcome: &Outcome) -> bool
    ensures { result ≡ Spelling.is_outcome_of op.now outcome.now }
{
    match op {
        Op::Look => matches!(outcome, Outcome::Found { .. } | Outcome::Absent { .. }),
        Op::Add { .. } => matches!(outcome, Outcome::Added { .. } | Outcome::NoEntry),
        Op::KillEntry { .. } => matches!(
            outcome,
            Outcome::NotLive { .. } | Outcome::OtherKey { .. } | Outcome::Killed
        ),
        Op::Put { .. } => matches!(outcome, Outcome::Put { .. } | Outcome::NoCell),
        Op::Read { .. } => matches!(
            outcome,
            Outcome::NotLive { .. }
                | Outcome::OtherKey { .. }
                | Outcome::OddLength { .. }
                | Outcome::Value { .. }
        ),
        Op::Change { .. } => matches!(
            outcome,
            Outcome::NotLive { .. }
                | Outcome::OtherKey { .. }
                | Outcome::OddLength { .. }
                | Outcome::Changed
        ),
        Op::KillCell { .. } => matches!(
            outcome,
            Outcome::NotLive { .. }
                | Outcome::OtherKey { .. }
                | Outcome::OddLength { .. }
                | Outcome::Killed
        ),
        Op::FreeCell { .. }
        | Op::ReviveCell { .. }
        | Op::Restore { .. }
        | Op::FreeEntry { .. }
        | Op::ReviveEntry { .. } => matches!(outcome, Outcome::Undone),
    }
}

/// Whether the undo is the one that the operation gives with this outcome.
pub fn undoes(op: &Op, outcome: &Outcome, undo: &Option<Undo>) -> bool
    ensures { result ≡ Spelling.undoes op.now outcome.now undo.now }
{
    match (op, outcome) {
        (Op::Add { .. }, Outcome::Added { entry }) => {
            matches!(undo, Some(Undo::FreeEntry { entry: freed }) if freed == entry)
        }
        (Op::KillEntry { entry }, Outcome::Killed) => {
            matches!(undo, Some(Undo::ReviveEntry { entry: revived }) if revived == entry)
        }
        (Op::Put { .. }, Outcome::Put { cell }) => {
            matches!(undo, Some(Undo::FreeCell { cell: freed }) if freed == cell)
        }
        (Op::Change { cell, .. }, Outcome::Changed) => {
            matches!(undo, Some(Undo::Restore { cell: restored, .. }) if restored == cell)
        }
        (Op::KillCell { cell }, Outcome::Killed) => {
            matches!(undo, Some(Undo::ReviveCell { cell: revived }) if revived == cell)
        }
        _ => undo.is_none(),
    }
}

/// Whether the operation stands in a call.
pub fn is_forward(op: &Op) -> bool
    ensures { result ≡ Spelling.is_forward op.now }
{
    matches!(
        op,
        Op::Look
            | Op::Add { .. }
            | Op::KillEntry { .. }
            | Op::Put { .. }
            | Op::Read { .. }
            | Op::Change { .. }
            | Op::KillCell { .. }
    )
}

/// Whether the operation frees what a removal left.
pub fn is_solo(op: &Op) -> bool
    ensures { result ≡ Spelling.is_solo op.now }
{
    matches!(op, Op::FreeCell { .. } | Op::FreeEntry { .. })
}

/// Whether the masks lie one within the other, and outcome and undo belong to the operation.
pub fn fits(block: &Block) -> bool
    ensures { result ≡ Spelling.fits block.now }
{
    block.write & block.read == block.write
        && is_outcome_of(&block.op, &block.outcome)
        && undoes(&block.op, &block.outcome, &block.undo)
}
