//! Laws over the definitions, each the contract of a function that does nothing.

ghost use Rattle.dali_during.specs.During.{RightBases, IndexedInRuns, QuietInRuns, TakenBackInRuns, TakenBackSince, TakenBackAtItsEnd, ShowsWhatIsExpected, AllSurvive, UnpokedCourses, UnpokedCoreTraces, UnpokedPointCourses, UnpokedTraces};
ghost use Rattle.dali_during.specs.Points.{PointWholeKeeps, PointWholeCourseKeeps, PointCourseKeepsTheBase};
ghost use Rattle.dali_during.specs.Gaps.{CutInInsert, CutInDelete};
ghost use Rattle.dali_during.specs.Whole.{WorkedLife};
ghost use Rattle.dali_during.specs.UndosFind.{UndosFindInRuns, RowUndosFind, LastUndoFinds, BacksFindInRuns, FindsInInsert, FindsInDelete, FindsBelow};
ghost use Rattle.dali_during.specs.Reported.{ReportsAllDeleted, TableIsKept, NobodyIsDeleted};

/// The base of a run behind epochs from which no damage escaped keeps the index's invariant, and nothing in it is dead.
pub fn a_run_stands_on_a_right_base()
    ensures { RightBases }
{}

/// On a right base and without a stray write the index's invariant holds at each moment, but for gaps of keys on which
/// a running transaction has an undo.
pub fn a_run_keeps_the_index()
    ensures { IndexedInRuns }
{}

/// There no answer is Odd, and each block finds the slot that it looks for.
pub fn a_run_finds_nothing_amiss()
    ensures { QuietInRuns }
{}

/// There a transaction that has taken all back leaves each of its keys the records from before it.
pub fn a_transaction_is_taken_back_whole()
    ensures now { TakenBackInRuns }
    ensures since { TakenBackSince }
    ensures ended { TakenBackAtItsEnd }
{}

/// There each undo finds its slot at each moment as its transaction left it, in whatever order the transactions are
/// taken back, and so did each block that took one back.
pub fn a_run_finds_each_slot_as_it_was_left()
    ensures any_order { UndosFindInRuns }
    ensures rows { RowUndosFind }
    ensures last { LastUndoFinds }
    ensures backs { BacksFindInRuns }
{}

/// Behind epochs from which no damage escaped, without a stray write, and where no audit of the last epoch failed and
/// no transaction runs, the regions have the records that the log is expected to leave.
pub fn a_run_shows_what_is_expected()
    ensures { ShowsWhatIsExpected }
{}

/// Where no audit failed in any epoch of a log, every commit in it survives.
pub fn where_no_audit_failed_all_survive()
    ensures { AllSurvive }
{}

/// From a format or a restart of a history on, whatever steps are taken without a stray write, all of this holds, and
/// where no audit failed before, nobody is deleted in any epoch.
pub fn without_stray_writes_a_run_is_as_expected()
    ensures course { UnpokedCourses }
    ensures image { UnpokedCoreTraces }
{}

/// So it is of a core with its store, with the steps of checkpoints among the others.
pub fn without_stray_writes_a_run_with_its_store_is_as_expected()
    ensures course { UnpokedPointCourses }
    ensures image { UnpokedTraces }
{}

/// Each step of a core with its store keeps the core whole, those of a checkpoint too, and so does each list of steps, in
/// whatever order. Dead holds, the rows that name their regions, and holds of who is alive go together.
pub fn each_store_step_keeps_a_core_whole()
    ensures step { PointWholeKeeps }
    ensures course { PointWholeCourseKeeps }
{}

/// The base of the last epoch stays right, whatever steps are taken, those of a checkpoint too.
pub fn store_steps_keep_the_base()
    ensures { PointCourseKeepsTheBase }
{}

/// The deleted that the restarts of a log named, with those of its open epoch, are just those that a chain deletes,
/// and one after another the very list that a replay finds.
pub fn restarts_report_all_that_are_deleted()
    ensures { ReportsAllDeleted }
{}

/// The rows of the table are just those that a checkpoint keeps that starts now.
pub fn the_table_is_what_a_checkpoint_keeps()
    ensures { TableIsKept }
{}

/// From a format on, however often the store is stopped, crashes and is restarted: without stray writes no audit failed
/// in any epoch, and nobody is deleted in any.
pub fn nobody_is_deleted_in_any_life()
    ensures { NobodyIsDeleted }
{}

/// A run that is cut off inside an insert, between its cell and its entry, has the gap that its transaction left.
pub fn a_run_cut_in_an_insert()
    ensures { CutInInsert }
{}

/// So has one that is cut off inside a delete, between the two kills.
pub fn a_run_cut_in_a_delete()
    ensures { CutInDelete }
{}

/// Inside the insert the cell, and inside the delete the killed cell, stands as it was left, and so does the cell
/// of the put, once the undos above it are taken back.
pub fn a_cut_off_run_finds_its_slots()
    ensures insert { FindsInInsert }
    ensures delete { FindsInDelete }
    ensures below { FindsBelow }
{}

/// From a format on an insert, a delete with its removals, an abort, a death, a checkpoint and a stop. The premises of
/// each step are met, and a crash image that came along them has the checkpoint's image with records behind it, and
/// restarts right.
pub fn a_worked_life()
    ensures { WorkedLife }
{}
