//! When a log may answer that a database is full, over lists of records.
ghost use Rattle.dali_history.specs.Room.Room.{FullIsFilled, TakesFew, NoneIsFull};

/// Where an insert is answered `FullHeap`, each cell of each region was taken by an operation before, and each entry where
/// it is answered `FullIndex`, whatever was taken back or freed since.
pub fn a_full_database_was_filled()
    ensures { FullIsFilled }
{}

/// Where each transaction answers what it takes back and commits, no more is taken than inserts are answered.
pub fn each_insert_takes_one()
    ensures { TakesFew }
{}

/// So no insert is answered `FullHeap` or `FullIndex` where there are fewer inserts than cells, or than entries.
pub fn room_for_each_insert()
    ensures { NoneIsFull }
{}
