//! Laws over the definitions, each the contract of a function that does nothing.

ghost use Rattle.dali_crash.specs.CrashLogs.{StopsHonest, UnpokedHonest, UnpokedEscapesNone, CrashLogs};
ghost use Rattle.dali_crash.specs.Worked.{WorkedRun};
ghost use Rattle.dali_crash.specs.Checkpointed.{WorkedCheckpoint};
ghost use Rattle.dali_crash.specs.CheckpointFaults.{WorkedFaults};
ghost use Rattle.dali_crash.specs.Restarted.{WorkedRestart};
ghost use Rattle.dali_crash.specs.Damaged.{DamagedRun};
ghost use Rattle.dali_crash.specs.Restarts.{FormatHasRightBase, RestartHasRightBase, CrashIsHistory, CrashIsRight, RunIsRight, FlushedStays, AcknowledgedStays, CourseKeepsTheBase, FormatIsHistory};
ghost use Rattle.dali_crash.specs.Fitting.{ButIsWhole, RedoesTheEpoch, RecoversFromImage};
ghost use Rattle.dali_crash.specs.Starts.{HistoryIsLawful, FreshFits, RestartStarts, LawfulRestarts};
ghost use Rattle.dali_crash.specs.StoreRuns.{StoreStepKeeps, StoreCourseKeeps, BareStoreCourseKeeps, CurrentIsSmall, TurnEnds, TurnLeaves, FlagStays, CourseFlagTells, FlagChanges, IdleLeavesImages, KeptStays, SyncedStays};
ghost use Rattle.dali_crash.specs.Growth.{CourseGrows};
ghost use Rattle.dali_crash.specs.Traces.{TraceGoesOn, FreshRests, CrashRests, FitsAtLast, StartRuns, BareStartRuns, EveryTraceIsRight, EveryMomentIsRight, FewGates, FlushedTraces, AcknowledgedTraces, UnpokedTraceIsRight, EveryCoreTraceIsRight, UnpokedCoreTraceIsRight};

/// Where no damage escapes a stop, the last epoch of what it leaves is honest.
pub fn a_stop_is_honest()
    ensures { StopsHonest }
{}

/// Where no stray write came, every block is sound.
pub fn without_stray_writes_all_is_sound()
    ensures { UnpokedHonest }
{}

/// Where no stray write came, no damage escapes a stop.
pub fn without_stray_writes_none_escapes()
    ensures { UnpokedEscapesNone }
{}

/// Where no damage escapes, the log of a crash image is legal, lock-legal and honest in its last epoch.
pub fn the_log_of_a_crash_image()
    ensures { CrashLogs }
{}

/// Of a log that was just formatted the formatted regions are the right base.
pub fn a_format_has_the_right_base()
    ensures { FormatHasRightBase }
{}

/// Of a log that was just restarted, from a history, the recovered image is the right base.
pub fn a_restart_has_the_right_base()
    ensures { RestartHasRightBase }
{}

/// The log of a crash image is a history, where no damage escapes and none escaped before.
pub fn a_crash_leaves_a_history()
    ensures { CrashIsHistory }
{}

/// A restart from it gives exactly the records of the survivors.
pub fn a_restart_after_a_crash_is_right()
    ensures { CrashIsRight }
{}

/// Whatever a crash of a run leaves, each image by itself, where no damage escapes and none escaped before: a restart
/// is right and keeps each commit that was acknowledged, unless a chain deletes it.
pub fn a_run_may_crash_anywhere()
    ensures { RunIsRight }
{}

/// What a run flushed stands in every crash image, damage or not.
pub fn what_was_flushed_stands_in_each_crash_image()
    ensures { FlushedStays }
{}

/// What a run acknowledged is committed in every crash image, damage or not.
pub fn what_was_acknowledged_is_in_each_crash_image()
    ensures { AcknowledgedStays }
{}

/// The base of the last epoch stays right, whatever steps are taken.
pub fn steps_keep_the_base()
    ensures { CourseKeepsTheBase }
{}

/// The log of a store that was just formatted is a history.
pub fn a_formatted_log_is_a_history()
    ensures { FormatIsHistory }
{}

/// A formatted store, one transaction that is flushed and one that looks for a key: the premises of each step are met.
pub fn a_worked_run()
    ensures { WorkedRun }
{}

/// Files that fit a log but for missed regions fit it whole, where none is missed.
pub fn files_fit_whole()
    ensures { ButIsWhole }
{}

/// The records from an image's number on, written over it, come to what the whole epoch comes to over
/// its base.
pub fn an_image_redoes_its_epoch()
    ensures { RedoesTheEpoch }
{}

/// A restart that begins with the image of files that fit, and reads the records from its number on,
/// comes to the same as one that reads the whole epoch over its base.
pub fn a_restart_may_begin_with_the_image()
    ensures { RecoversFromImage }
{}

/// A history is a lawful log that is honest besides.
pub fn a_history_is_lawful()
    ensures { HistoryIsLawful }
{}

/// The files that a format or a restart leaves fit their log.
pub fn fresh_files_fit()
    ensures { FreshFits }
{}

/// The log that a restart of a history leaves is a history without a record in its last epoch: so a core may be made
/// over it again. It is lawful where the log that the restart found is, honest or not.
pub fn a_restart_starts_a_run()
    ensures starts { RestartStarts }
    ensures lawful { LawfulRestarts }
{}

/// Each step keeps a run with its store, those of a checkpoint too: each crash image goes on to fit its
/// log.
pub fn each_store_step_keeps_a_run()
    ensures { StoreStepKeeps }
{}

/// So does each list of steps, in whatever order, and where nothing is said of crashes.
pub fn each_list_of_store_steps_keeps_a_run()
    ensures each { StoreCourseKeeps }
    ensures bare { BareStoreCourseKeeps }
{}

/// In a run with its store the number of the current image is below 2^62, whatever is known of the store. For a start asks
/// for 2^61 open gates more than records at most, and each move of the anchor behind it stands behind records of its own.
/// So the anchor may move once more.
pub fn the_anchor_may_always_move()
    ensures { CurrentIsSmall }
{}

/// Once the anchor moved, each crash image has the checkpoint's number, and its image stands at the
/// record where the checkpoint began.
pub fn a_checkpoint_ends()
    ensures point { TurnEnds }
    ensures image { TurnLeaves }
{}

/// Each step leaves the flag set where a checkpoint keeps what it took down.
pub fn each_step_keeps_what_the_flag_tells()
    ensures { FlagStays }
{}

/// So it is from the making of a core on, after any steps.
pub fn a_flag_tells_its_checkpoint()
    ensures { CourseFlagTells }
{}

/// Where no checkpoint keeps anything, as before its start and behind its anchor's move, a step leaves what the image
/// files read, their heads, which of them is synced and the number of the current one. It brings no place up to date,
/// and a crash image has all but its batches from before.
pub fn without_a_checkpoint_no_image_is_written()
    ensures { IdleLeavesImages }
{}

/// What a checkpoint kept stays until it is given up or its anchor moves: so none starts under another.
pub fn what_a_checkpoint_kept_stays()
    ensures { KeptStays }
{}

/// A file that is synced behind a step reads as before it, and was synced, but where the step is a sync.
pub fn what_is_synced_stays()
    ensures { SyncedStays }
{}

/// A start finds the flag clear and sets it, an end finds it set and clears it, and no other step changes it.
pub fn the_flag_changes_at_starts_and_ends()
    ensures { FlagChanges }
{}

/// Along any steps the current number and the flushed records only grow, the log only gets more records, what was
/// acknowledged stays so, and a vault that has stopped stays stopped.
pub fn steps_only_add()
    ensures { CourseGrows }
{}

/// A crash image that came along steps, and one step more.
pub fn a_trace_goes_on()
    ensures { TraceGoesOn }
{}

/// The crash image of a store that was just formatted or restarted fits its log, whose last epoch is empty.
pub fn a_fresh_store_is_at_rest()
    ensures { FreshRests }
{}

/// So does a crash image of a run that restarts right, where its log has no record in its last epoch, and one stands behind its
/// image or no gate is open: a core may be made over it as it is.
pub fn a_crash_image_may_be_at_rest()
    ensures { CrashRests }
{}

/// Files that fit a lawful log at rest, and behind whose image no record stands or Restarted alone, as a restart leaves
/// them, fit at its last epoch.
pub fn files_that_a_restart_leaves_fit_at_the_last_epoch()
    ensures { FitsAtLast }
{}

/// A core that is made over any such image is a run with its store; so is one of whose crashes nothing is said.
pub fn a_store_at_rest_is_a_run()
    ensures each { StartRuns }
    ensures bare { BareStartRuns }
{}

/// A run starts at any crash image that fits a lawful log whose last epoch is empty, as a format and a restart leave
/// one. Each crash image that came from it along any steps, those of checkpoints too, fits its log but for missed
/// regions. Where that lawful log is a history and no damage escapes, a restart from what came so gives exactly the
/// records of the survivors.
pub fn every_trace_is_right()
    ensures { EveryTraceIsRight }
{}

/// So is a restart from what a crash inside a step leaves, with what was acknowledged before the step.
pub fn every_moment_is_right()
    ensures { EveryMomentIsRight }
{}

/// Its anchor has at most 2^61 open gates more than its log has records, as a start asks.
pub fn a_trace_has_few_gates()
    ensures { FewGates }
{}

/// So is one from each that came along the steps of a core alone, whose image files nobody looks at.
pub fn every_trace_of_a_core_is_right()
    ensures { EveryCoreTraceIsRight }
{}

/// What was flushed stands in each crash image that came along the steps, damage or not.
pub fn what_was_flushed_stands_in_each_trace()
    ensures { FlushedTraces }
{}

/// What was acknowledged is committed in it, damage or not.
pub fn what_was_acknowledged_is_in_each_trace()
    ensures { AcknowledgedTraces }
{}

/// Without a stray write a restart from it is right, wherever the stop came, and deletes nobody of the epoch of these
/// steps. Where none of their records is in it, right behind a restart, the next one reports the lists of that one again.
pub fn every_trace_without_stray_writes_is_right()
    ensures { UnpokedTraceIsRight }
{}

/// So it is along the steps of a core alone.
pub fn every_trace_of_a_core_without_stray_writes_is_right()
    ensures { UnpokedCoreTraceIsRight }
{}

/// A formatted store, one transaction, and a checkpoint that ends: the premises of each of its steps are
/// met, and its image comes along them.
pub fn a_worked_checkpoint()
    ensures { WorkedCheckpoint }
{}

/// The same checkpoint up to a fault in a copy, in the head, in the sync or in the anchor's move. Before the fault in a
/// copy a region is skipped, and behind it the checkpoint is given up. And the same one given up without a fault, with
/// another one that starts behind it. The premises of these steps are met, and a crash image that came along them
/// restarts right.
pub fn worked_checkpoints_that_fail()
    ensures { WorkedFaults }
{}

/// A poke, a transaction that reads it and commits, an audit that fails: a crash leaves a history, and a restart
/// deletes the transaction.
pub fn a_worked_run_with_damage()
    ensures { DamagedRun }
{}

/// The files of a restart, whose anchor has moved, and a transaction that inserts a key: a crash leaves records
/// behind the image, and redone over it they store the key.
pub fn a_worked_restart()
    ensures { WorkedRestart }
{}
