//! Laws of what is promised and of what is kept, each the contract of a function that does nothing.
ghost use Rattle.dali_system.specs.Light.{RecordsAreLight};
ghost use Rattle.dali_system.specs.UnderWay.{WrittenIsOpen};
ghost use Rattle.dali_system.specs.Promised.{OwnChanges, OthersStay};

/// A promise, what is used of it, and its end change what is promised to their transaction, as they say, and leave what
/// is promised to each other one.
pub fn promises_stand_apart()
    ensures own { OwnChanges }
    ensures others { OthersStay }
{}

/// In a run the spellings of the records since the load have fewer than 2^40 bytes, so the limit of 2^62 for all of them
/// is never met.
pub fn the_records_of_a_run_are_light()
    ensures { RecordsAreLight }
{}

/// An operation under way, all of whose words are written, is open: its block may be logged.
pub fn a_written_operation_is_open()
    ensures { WrittenIsOpen }
{}
