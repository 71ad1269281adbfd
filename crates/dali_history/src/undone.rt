//! An undo finds its slot as its transaction left it.
ghost use Rattle.dali_history.specs.Undone.AsLeft.{OneBlockLeaves, KeptUndosFind, OwnUndosFind, BacksFind, EpochUndosFind, EpochMomentsFind, EpochBacksFind, RestartUndosFind};
ghost use Rattle.dali_history.specs.Undone.Worked.{EntryIsAsLeft, ChangeIsAsLeft};

/// At each moment of a row of kept records, in whatever order the transactions without a Commit are taken back, each
/// undo finds its slot as the block that left it made it. That is state, key, length and value of a cell, and state,
/// key and place of an entry.
pub fn an_undo_finds_its_slot_as_it_was_left()
    ensures any_order { KeptUndosFind }
    ensures by_itself { OwnUndosFind }
    ensures one_block { OneBlockLeaves }
{}

/// Each block among these that took an undo back found the slot so.
pub fn a_taking_back_found_its_slot_as_it_was_left()
    ensures { BacksFind }
{}

/// In each epoch of a history, at its end and at each moment, and in the epoch that a restart recovers, whichever
/// of the transactions comes first.
pub fn a_restart_finds_each_slot_as_it_was_left()
    ensures epoch { EpochUndosFind }
    ensures moments { EpochMomentsFind }
    ensures backs { EpochBacksFind }
    ensures recovered { RestartUndosFind }
{}

/// A worked undo of an entry, which is found with its key and place and is free then, and one of a change, which finds the new
/// value and puts back the old one with its length.
pub fn worked_undos()
    ensures entry { EntryIsAsLeft }
    ensures change { ChangeIsAsLeft }
{}
