//! What each operation does to the words of a region.
ghost use Rattle.std.specs.Prelude.{◌≡◌, ◌≤◌, None, []};
ghost use Rattle.dali_access.specs.Heap.Rows as heap;
ghost use Rattle.dali_access.specs.Index.Rows as index;
ghost use Rattle.dali_record.specs.Spelling.{IsOperation, IsBlock};
ghost use Rattle.dali_record.specs.Blocks.{made, pending};
ghost use Rattle.dali_record.specs.Operations as table;
ghost use Rattle.dali_record.specs.Operations.{EffectByReads};

use crate::lists::Words;
use crate::operations::{Block, Op, Outcome, Pending, Undo};
use dali_access::heap::{ChangeOutcome, PutOutcome, ReadOutcome};
use dali_access::index::{AddOutcome, LookOutcome};
use dali_words::{Effect, KillOutcome, Value, xor_under};

impl From<LookOutcome> for Outcome {
    ghost use Rattle.dali_record.specs.Operations.{looked};

    ghost from_gives = { λ found outcome. outcome ≡ looked found };

    fn from(found: LookOutcome) -> Outcome {
        match found {
            LookOutcome::Found { entry, place } => Outcome::Found { entry, place },
            LookOutcome::Absent { overflow } => Outcome::Absent { overflow },
        }
    }
}

impl From<AddOutcome> for Outcome {
    ghost use Rattle.dali_record.specs.Operations.{added};

    ghost from_gives = { λ found outcome. outcome ≡ added found };

    fn from(found: AddOutcome) -> Outcome {
        match found {
            AddOutcome::Added { entry } => Outcome::Added { entry },
            AddOutcome::NoEntry => Outcome::NoEntry,
        }
    }
}

impl From<KillOutcome> for Outcome {
    ghost use Rattle.dali_record.specs.Operations.{killed};

    ghost from_gives = { λ found outcome. outcome ≡ killed found };

    fn from(found: KillOutcome) -> Outcome {
        match found {
            KillOutcome::NotLive { state } => Outcome::NotLive { state },
            KillOutcome::OtherKey { key } => Outcome::OtherKey { key },
            KillOutcome::OddLength { length } => Outcome::OddLength { length },
            KillOutcome::Killed => Outcome::Killed,
        }
    }
}

impl From<PutOutcome> for Outcome {
    ghost use Rattle.dali_record.specs.Operations.{stored};

    ghost from_gives = { λ found outcome. outcome ≡ stored found };

    fn from(found: PutOutcome) -> Outcome {
        match found {
            PutOutcome::Put { cell } => Outcome::Put { cell },
            PutOutcome::NoCell => Outcome::NoCell,
        }
    }
}

impl From<ReadOutcome> for Outcome {
    ghost use Rattle.dali_record.specs.Operations.{read};

    ghost from_gives = { λ found outcome. outcome ≡ read found };

    fn from(found: ReadOutcome) -> Outcome {
        match found {
            ReadOutcome::NotLive { state } => Outcome::NotLive { state },
            ReadOutcome::OtherKey { key } => Outcome::OtherKey { key },
            ReadOutcome::OddLength { length } => Outcome::OddLength { length },
            ReadOutcome::Value { value } => Outcome::Value { value },
        }
    }
}

impl From<ChangeOutcome> for Outcome {
    ghost use Rattle.dali_record.specs.Operations.{changed};

    ghost from_gives = { λ found outcome. outcome ≡ changed found };

    fn from(found: ChangeOutcome) -> Outcome {
        match found {
            ChangeOutcome::NotLive { state } => Outcome::NotLive { state },
            ChangeOutcome::OtherKey { key } => Outcome::OtherKey { key },
            ChangeOutcome::OddLength { length } => Outcome::OddLength { length },
            ChangeOutcome::Changed => Outcome::Changed,
        }
    }
}

// The undo where the cell or entry was killed.
fn undo_of_kill(undo: Undo, found: KillOutcome) -> Option<Undo>
    ensures { result ≡ table.undo_of_kill undo found }
{
    match found {
        KillOutcome::Killed => Some(undo),
        _ => None,
    }
}

// A look.
fn look(key: u64, words: &[u64; 64]) -> (Effect, Outcome, Option<Undo>)
    ensures { result ≡ table.effect Op.Look key words.now }
{
    let found = dali_access::index::look(words, key);
    (found.0, found.1.into(), None)
}

// An add.
fn add(place: u64, key: u64, words: &[u64; 64]) -> (Effect, Outcome, Option<Undo>)
    ensures { result ≡ table.effect (Op.Add place) key words.now }
{
    let found = dali_access::index::add(words, key, place);
    let undo = match found.1 {
        AddOutcome::Added { entry } => Some(Undo::FreeEntry { entry }),
        AddOutcome::NoEntry => None,
    };
    (found.0, found.1.into(), undo)
}

// The killing of an entry.
fn kill_entry(entry: u8, key: u64, words: &[u64; 64]) -> (Effect, Outcome, Option<Undo>)
    requires { entry ≤ 20 }
    ensures { result ≡ table.effect (Op.KillEntry entry) key words.now }
{
    let found = dali_access::index::kill(words, entry, key);
    let undo = undo_of_kill(Undo::ReviveEntry { entry }, found.1);
    (found.0, found.1.into(), undo)
}

// A put.
fn put(value: &Value, key: u64, words: &[u64; 64]) -> (Effect, Outcome, Option<Undo>)
    ensures { result ≡ table.effect (Op.Put value.now) key words.now }
{
    let found = dali_access::heap::put(words, key, value);
    let undo = match found.1 {
        PutOutcome::Put { cell } => Some(Undo::FreeCell { cell }),
        PutOutcome::NoCell => None,
    };
    (found.0, found.1.into(), undo)
}

// A read.
fn read(cell: u8, key: u64, words: &[u64; 64]) -> (Effect, Outcome, Option<Undo>)
    requires low { 1 ≤ cell }
    requires high { cell ≤ 7 }
    ensures { result ≡ table.effect (Op.Read cell) key words.now }
{
    let found = dali_access::heap::read(words, cell, key);
    (found.0, found.1.into(), None)
}

// The undo of a change.
fn undo_of_change(cell: u8, words: &[u64; 64], found: ChangeOutcome) -> Option<Undo>
    requires low { 1 ≤ cell }
    requires high { cell ≤ 7 }
    ensures { result ≡ table.undo_of_change words.now cell found }
{
    match found {
        ChangeOutcome::Changed => Some(Undo::Restore {
            cell,
            length: words[8 * cell as usize + 2],
            words: dali_access::heap::value_words(words, cell),
        }),
        _ => None,
    }
}

// A change.
fn change(cell: u8, value: &Value, key: u64, words: &[u64; 64]) -> (Effect, Outcome, Option<Undo>)
    requires low { 1 ≤ cell }
    requires high { cell ≤ 7 }
    ensures { result ≡ table.effect (Op.Change cell value.now) key words.now }
{
    let found = dali_access::heap::change(words, cell, key, value);
    let undo = undo_of_change(cell, words, found.1);
    (found.0, found.1.into(), undo)
}

// The killing of a cell.
fn kill_cell(cell: u8, key: u64, words: &[u64; 64]) -> (Effect, Outcome, Option<Undo>)
    requires low { 1 ≤ cell }
    requires high { cell ≤ 7 }
    ensures { result ≡ table.effect (Op.KillCell cell) key words.now }
{
    let found = dali_access::heap::kill(words, cell, key);
    let undo = undo_of_kill(Undo::ReviveCell { cell }, found.1);
    (found.0, found.1.into(), undo)
}

// The freeing of a cell.
fn free_cell(cell: u8, words: &[u64; 64]) -> (Effect, Outcome, Option<Undo>)
    requires low { 1 ≤ cell }
    requires high { cell ≤ 7 }
    ensures { result ≡ (heap.free words.now cell, Outcome.Undone, None) }
{
    (dali_access::heap::free(words, cell), Outcome::Undone, None)
}

// The revival of a cell.
fn revive_cell(cell: u8, words: &[u64; 64]) -> (Effect, Outcome, Option<Undo>)
    requires low { 1 ≤ cell }
    requires high { cell ≤ 7 }
    ensures { result ≡ (heap.revive words.now cell, Outcome.Undone, None) }
{
    (
        dali_access::heap::revive(words, cell),
        Outcome::Undone,
        None,
    )
}

// The restoring of a cell.
fn restore(
    cell: u8,
    length: u64,
    value: &[u64; 5],
    words: &[u64; 64],
) -> (Effect, Outcome, Option<Undo>)
    requires low { 1 ≤ cell }
    requires high { cell ≤ 7 }
    ensures { result ≡ (heap.restore words.now cell length value.now, Outcome.Undone, None) }
{
    (
        dali_access::heap::restore(words, cell, length, value),
        Outcome::Undone,
        None,
    )
}

// The freeing of an entry.
fn free_entry(entry: u8, words: &[u64; 64]) -> (Effect, Outcome, Option<Undo>)
    requires { entry ≤ 20 }
    ensures { result ≡ (index.free words.now entry, Outcome.Undone, None) }
{
    (
        dali_access::index::free(words, entry),
        Outcome::Undone,
        None,
    )
}

// The revival of an entry.
fn revive_entry(entry: u8, words: &[u64; 64]) -> (Effect, Outcome, Option<Undo>)
    requires { entry ≤ 20 }
    ensures { result ≡ (index.revive words.now entry, Outcome.Undone, None) }
{
    (
        dali_access::index::revive(words, entry),
        Outcome::Undone,
        None,
    )
}

/// What the operation does to the words of its region, what it finds there, and what takes it back.
///
/// It depends on the words that it reads alone. A cell that the operation names is from 1 to 7, and an entry from 0 to
/// 20, as in each that a plan makes or a log tells. Takes no memory.
#[tactic(auto, using(crate::proofs::ByReads::effect_by_reads))]
pub fn effect(op: &Op, key: u64, words: &[u64; 64]) -> (Effect, Outcome, Option<Undo>)
    requires { IsOperation op.now }
    ensures row { result ≡ table.effect op.now key words.now }
    ensures by_reads { EffectByReads op.now key words.now }
{
    match op {
        Op::Look => look(key, words),
        Op::Add { place } => add(*place, key, words),
        Op::KillEntry { entry } => kill_entry(*entry, key, words),
        Op::Put { value } => put(value, key, words),
        Op::Read { cell } => read(*cell, key, words),
        Op::Change { cell, value } => change(*cell, value, key, words),
        Op::KillCell { cell } => kill_cell(*cell, key, words),
        Op::FreeCell { cell } => free_cell(*cell, words),
        Op::ReviveCell { cell } => revive_cell(*cell, words),
        Op::Restore {
            cell,
            length,
            words: value,
        } => restore(*cell, *length, value, words),
        Op::FreeEntry { entry } => free_entry(*entry, words),
        Op::ReviveEntry { entry } => revive_entry(*entry, words),
    }
}

impl Block {
    /// A place for a block, with no new words.
    pub fn blank() -> Self
        ensures { result.after ≡ [] }
    {
        Block {
            key: 0,
            region: 0,
            op: Op::Look,
            read: 0,
            xor: 0,
            write: 0,
            after: Words::new(),
            outcome: Outcome::NoEntry,
            undo: None,
        }
    }

    /// Makes this the block of an operation on the words of a region, as they stand before it. It is made where it lies, since
    /// it is large. A cell that the operation names is from 1 to 7, and an entry from 0 to 20. Takes no memory.
    pub fn make(&mut self, op: Op, key: u64, region: u32, words: &[u64; 64])
        requires { IsOperation op }
        ensures made { self.new ≡ made words.now key region op }
        ensures spelled { IsBlock self.new }
    {
        let found = effect(&op, key, words);
        self.key = key;
        self.region = region;
        self.op = op;
        self.read = found.0.read;
        self.xor = xor_under(words, found.0.read);
        self.write = found.0.write;
        self.after.fill_under(found.0.write, &found.0.after);
        self.outcome = found.1;
        self.undo = found.2;
    }

    /// The block of an operation on the words of a region, as they stand before it. Takes no memory.
    pub fn new(op: Op, key: u64, region: u32, words: &[u64; 64]) -> Self
        requires { IsOperation op }
        ensures made { result ≡ made words.now key region op }
        ensures spelled { IsBlock result }
    {
        let mut block = Block::blank();
        block.make(op, key, region, words);
        block
    }

    /// An undo of the block, with its item and region. Takes no memory.
    pub fn pending(&self, undo: Undo) -> Pending
        ensures { result ≡ pending self.now undo }
    {
        Pending {
            key: self.key,
            region: self.region,
            undo,
        }
    }
}

/// The operation that performs the undo.
pub fn undo_op(undo: &Undo) -> Op
    ensures { result ≡ table.undo_op undo.now }
{
    match *undo {
        Undo::FreeCell { cell } => Op::FreeCell { cell },
        Undo::ReviveCell { cell } => Op::ReviveCell { cell },
        Undo::Restore {
            cell,
            length,
            words,
        } => Op::Restore {
            cell,
            length,
            words,
        },
        Undo::FreeEntry { entry } => Op::FreeEntry { entry },
        Undo::ReviveEntry { entry } => Op::ReviveEntry { entry },
    }
}

/// Whether a block with this outcome changes its item.
pub fn changes(outcome: &Outcome) -> bool
    ensures { result ≡ table.changes outcome.now }
{
    match outcome {
        Outcome::Added { .. } => true,
        Outcome::Killed => true,
        Outcome::Put { .. } => true,
        Outcome::Changed => true,
        Outcome::Undone => true,
        _ => false,
    }
}
