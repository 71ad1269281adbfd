//! Laws of the operations on entries and of the index's invariant, each the contract of a function that does nothing.

ghost use Rattle.dali_access.specs.Index.Laws.{OperationsStay, EntriesCommute, WalksWithin, UndoesKill, UndoesAdd, LookFindsFirst, AddTakesFirst};
ghost use Rattle.dali_access.specs.Index.Orders.{LookReads, AddReads, OperationsCommute, LookFinds, LookCommutes, AddCommutes, AddTakesFreed, LookAfterAdd};
ghost use Rattle.dali_access.specs.Index.Within.{WritesWithinReads};
ghost use Rattle.dali_access.specs.Index.Reached.{WalksAreReached, RecordsAreStored};
ghost use Rattle.dali_access.specs.Index.Form.{TidyIsForm, FormIsKept, FormattedIsEmpty};
ghost use Rattle.dali_access.specs.Index.Keeps.{GapsAreNone, PutKeeps, AddKeeps, KillCellKeeps, KillEntryKeeps, OthersKeep, FreeEntryKeeps, FreeCellKeeps, ReviveEntryKeeps, ReviveCellKeeps, DeadAreFreed, InsertKeeps, DeleteKeeps};

/// An operation that names an entry reads words of this entry alone, writes only words that it reads,
/// and depends on no others.
pub fn operations_stay_in_their_entry()
    ensures { OperationsStay }
{}

/// Operations on two entries do the same in either order.
pub fn operations_on_two_entries_commute()
    ensures { EntriesCommute }
{}

/// A look writes nothing. An add writes only words that it reads, and leaves all others.
pub fn a_walk_writes_what_it_reads()
    ensures { WalksWithin }
{}

/// A look finds the first live entry with the key, and says that there is none exactly where there is
/// none; then it also tells whether the overflow flag is up.
pub fn a_look_finds_the_first_entry()
    ensures { LookFindsFirst }
{}

/// An add takes the first free entry, and says that there is none exactly where none is free.
pub fn an_add_takes_the_first_free_entry()
    ensures { AddTakesFirst }
{}

/// To revive an entry right after it was killed gives the words before.
pub fn a_kill_is_undone()
    ensures { UndoesKill }
{}

/// To free an entry right after it was added gives the words before, but for its key and its place.
pub fn an_add_is_undone()
    ensures { UndoesAdd }
{}

/// Without gaps, the invariant where calls are under way is the index's invariant.
pub fn no_gap_is_the_invariant()
    ensures { GapsAreNone }
{}

/// A put for a key without an entry leaves its cell alone.
pub fn a_put_keeps_the_index()
    ensures { PutKeeps }
{}

/// An add that names the cell alone, in a region that the walk of the key comes to, matches them. One
/// that finds no free entry keeps each gap.
pub fn an_add_keeps_the_index()
    ensures { AddKeeps }
{}

/// A kill of the cell that the key's entry names leaves the entry alone.
pub fn a_kill_of_a_cell_keeps_the_index()
    ensures { KillCellKeeps }
{}

/// A kill of the entry alone leaves nothing unmatched.
pub fn a_kill_of_an_entry_keeps_the_index()
    ensures { KillEntryKeeps }
{}

/// A look, a read, a change and a restore keep each gap.
pub fn other_operations_keep_the_index()
    ensures { OthersKeep }
{}

/// To free the key's entry leaves its cell alone.
pub fn a_freed_entry_keeps_the_index()
    ensures { FreeEntryKeeps }
{}

/// To free the cell alone leaves nothing unmatched.
pub fn a_freed_cell_keeps_the_index()
    ensures { FreeCellKeeps }
{}

/// To revive a dead entry whose cell is dead leaves the entry alone.
pub fn a_revived_entry_keeps_the_index()
    ensures { ReviveEntryKeeps }
{}

/// To revive the cell of the entry alone matches them.
pub fn a_revived_cell_keeps_the_index()
    ensures { ReviveCellKeeps }
{}

/// To free a dead entry, or a dead cell of a key without a gap, keeps each gap.
pub fn what_is_dead_is_freed()
    ensures { DeadAreFreed }
{}

/// A put and the add that names its cell keep the index's invariant.
pub fn an_insert_keeps_the_index()
    ensures { InsertKeeps }
{}

/// A kill of a cell and of the entry that names it keep the index's invariant.
pub fn a_delete_keeps_the_index()
    ensures { DeleteKeeps }
{}

/// A look reads the state of each entry before the one that it finds, and the key of each live one among
/// them, and that entry whole; where it finds none, these of all entries, and the overflow flag.
pub fn a_look_reads_up_to_its_entry()
    ensures { LookReads }
{}

/// An add reads the states of the entries before the first free one, and that entry whole; where none is
/// free, the states of all, and the overflow flag.
pub fn an_add_reads_up_to_the_first_free_entry()
    ensures { AddReads }
{}

/// Operations on two entries do and find the same in either order: the same masks, new words and outcomes.
pub fn operations_on_two_entries_find_the_same()
    ensures { OperationsCommute }
{}

/// A look finds the same after an operation on another entry, where that entry stands behind the one that
/// it finds, or isn't a live one of its key after the operation.
pub fn a_look_finds_the_same_after_other_entries()
    ensures { LookFinds }
{}

/// Where that entry is also live both before and after, or at neither time, or stands behind the one that
/// the look finds, the two do and find the same in either order.
pub fn a_look_commutes_with_other_entries()
    ensures { LookCommutes }
{}

/// An add and an operation on another entry do and find the same in either order, where that entry stands
/// behind the one that the add takes, or isn't free after the operation.
pub fn an_add_commutes_with_other_entries()
    ensures { AddCommutes }
{}

/// An add after an operation that freed an entry which it would have passed takes that entry.
pub fn an_add_takes_an_entry_freed_before()
    ensures { AddTakesFreed }
{}

/// Each operation on cells or entries writes only words that it reads, and leaves all others.
pub fn operations_write_what_they_read()
    ensures { WritesWithinReads }
{}

/// The test whether the walk of a key comes to a region says just that each region before it on the walk
/// has its overflow flag raised.
pub fn walks_reach_what_is_reached()
    ensures { WalksAreReached }
{}

/// The records of an image are just the pairs that some entry stands for.
pub fn records_are_what_entries_stand_for()
    ensures { RecordsAreStored }
{}

/// An image is tidy exactly where it is in form and nothing in it is dead.
pub fn tidy_images_are_in_form()
    ensures { TidyIsForm }
{}

/// Each operation leads from an image in form to one in form: states stay 0, 1 or 2, and live and dead
/// cells keep a length of 1 to 40.
pub fn operations_keep_the_form()
    ensures { FormIsKept }
{}

/// The formatted image is an image, has the index's invariant, is tidy, and stores no records.
pub fn the_formatted_image_is_empty()
    ensures { FormattedIsEmpty }
{}

/// A look finds the same after an add of another key that took an entry. Where no live entry of its own key
/// stood before, it finds the one that was added.
pub fn a_look_after_an_add()
    ensures { LookAfterAdd }
{}
