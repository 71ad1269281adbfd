use crate::lists::Words;
use dali_words::Value;

/// What an operation does in its region. Entries are numbered from 0 to 20, cells from 1 to 7.
#[derive(Clone, Copy, PartialEq, Eq)]
pub enum Op {
    /// Looks for the live entry with the key.
    Look,
    /// Makes a free entry a live one, with the key and this place.
    Add {
        place: u64,
    },
    /// Makes the live entry, whose key it is, dead.
    KillEntry {
        entry: u8,
    },
    /// Makes a free cell a live one, with the key and this value.
    Put {
        value: Value,
    },
    /// Reads the value of the live cell, whose key it is.
    Read {
        cell: u8,
    },
    /// Gives the live cell, whose key it is, another value.
    Change {
        cell: u8,
        value: Value,
    },
    /// Makes the live cell, whose key it is, dead.
    KillCell {
        cell: u8,
    },
    /// Makes the cell free.
    FreeCell {
        cell: u8,
    },
    /// Makes the cell live again.
    ReviveCell {
        cell: u8,
    },
    /// Gives the cell the length and the words of an earlier value.
    Restore {
        cell: u8,
        length: u64,
        words: [u64; 5],
    },
    /// Makes the entry free.
    FreeEntry {
        entry: u8,
    },
    /// Makes the entry live again.
    ReviveEntry {
        entry: u8,
    },
}

/// What an operation found.
#[derive(Clone, Copy, PartialEq, Eq)]
pub enum Outcome {
    /// The look found the key at this entry, with this place.
    Found { entry: u8, place: u64 },
    /// The look found no live entry with the key; whether the region's overflow flag is raised.
    Absent { overflow: bool },
    /// The key stands at this entry now.
    Added { entry: u8 },
    /// The region has no free entry.
    NoEntry,
    /// The entry or cell is dead now.
    Killed,
    /// The value stands in this cell now.
    Put { cell: u8 },
    /// The region has no free cell.
    NoCell,
    /// The cell's value.
    Value { value: Value },
    /// The cell has the new value now.
    Changed,
    /// The entry or cell isn't live: its state, another number than 1.
    NotLive { state: u64 },
    /// The entry or cell has this other key.
    OtherKey { key: u64 },
    /// The cell's length isn't 1 to 40.
    OddLength { length: u64 },
    /// A change was taken back, or something removed was freed.
    Undone,
}

/// What takes a change back.
#[derive(Clone, Copy, PartialEq, Eq)]
pub enum Undo {
    /// Frees the cell of a put.
    FreeCell {
        cell: u8,
    },
    /// Makes a killed cell live again.
    ReviveCell {
        cell: u8,
    },
    /// Gives a changed cell the length and the words that it had before.
    Restore {
        cell: u8,
        length: u64,
        words: [u64; 5],
    },
    /// Frees the entry of an add.
    FreeEntry {
        entry: u8,
    },
    /// Makes a killed entry live again.
    ReviveEntry {
        entry: u8,
    },
}

/// One operation as it is logged. A set of words is a mask in which bit i stands for word i of the region.
#[derive(Drop, PartialEq, Eq)]
pub struct Block {
    /// The key of the item that the operation is on.
    pub key: u64,
    /// The region that it works in.
    pub region: u32,
    pub op: Op,
    /// The words that it reads, those that it writes among them.
    pub read: u64,
    /// The exclusive-or of the words read, as they stood before it.
    pub xor: u64,
    /// The words that it writes, also those that get the value they had.
    pub write: u64,
    /// What these words are afterwards, ascending by word.
    pub after: Words,
    pub outcome: Outcome,
    /// What takes it back, where it made a change that can be.
    pub undo: Option<Undo>,
}

/// An undo with its item and region.
#[derive(Clone, Copy, PartialEq, Eq)]
pub struct Pending {
    /// The key of the item.
    pub key: u64,
    /// The region that was changed.
    pub region: u32,
    pub undo: Undo,
}
