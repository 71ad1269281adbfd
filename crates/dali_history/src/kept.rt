//! The law of kept records.
ghost use Rattle.dali_history.specs.Kept.Kept.{LawOfKeptRecords};

/// Kept records, redone, with what is left undone in any order and the dead freed, give the records of the committed replayed one after another.
pub fn kept_records_replay()
    ensures { LawOfKeptRecords }
{}
