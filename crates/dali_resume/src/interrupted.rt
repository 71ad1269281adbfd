//! A restart that is stopped at any of its store calls, over the bytes of the four files.

ghost use Rattle.dali_resume.specs.Interrupted.Stages.{EveryStageAnswers, StartsBehind, FoundLogged, AppendStages, Appended, LogSettles, Written, MoveStages, Moved, AnchorSettles};
ghost use Rattle.dali_resume.specs.Interrupted.Found.{CrashIsFound, FormatHasPlace, KeepsPlace, StartHasPlace, TurnedHasPlace};
ghost use Rattle.dali_resume.specs.Interrupted.Rests.{TellsStage, StagesSay};
ghost use Rattle.dali_resume.specs.Interrupted.Runs.{RunLeaves};

use dali_store::Store;

/// A restart hands out the same image and the same lists from the files as they were found, from those with the batch of
/// Restarted, and from those whose anchor names the image that the restart wrote. So it is by the rules on records and by
/// that on batches, where the log is a history. Behind it a run may start, over any lawful log; and one that finds the
/// batch of Restarted at the log's end goes on from there.
pub fn each_stage_of_a_restart_answers_alike()
    ensures answers { EveryStageAnswers }
    ensures starts { StartsBehind }
    ensures logged { FoundLogged }
{}

/// Whatever a crash leaves while the batch of Restarted is appended: the files as they were found, or with that batch;
/// and once it was appended, with that batch. So it is of an append that is made again behind a fault, without a crash.
/// Behind a sync of the log, as after such a fault, each disk is as reads of the log tell.
pub fn an_append_in_a_restart_leaves_a_stage<V: Store>()
    ensures meanwhile { (v : V) → AppendStages (V.may_leave v) }
    ensures behind { (v : V) → Appended (V.may_leave v) }
    ensures settles { (v w : V) → LogSettles (V.may_leave v) (V.may_leave w) }
{}

/// However much of the other image is written, the files read as they did, with the batch or without it.
pub fn a_write_in_a_restart_leaves_its_stage<V: Store>()
    ensures { (v w : V) → Written (V.may_leave v) (V.may_leave w) }
{}

/// Whatever a crash leaves while the anchor is moved to the image that was written: the files as they were, or with this
/// image; and once it was moved, with this image. So it is of a move that is made again behind a fault, without a crash.
/// Behind a sync of the anchor each disk is as reads of it tell.
pub fn a_move_in_a_restart_leaves_a_stage<V: Store>()
    ensures meanwhile { (v : V) → MoveStages (V.may_leave v) }
    ensures behind { (v : V) → Moved (V.may_leave v) }
    ensures settles { (v w : V) → AnchorSettles (V.may_leave v) (V.may_leave w) }
{}

/// Where no stray write was missed, what a crash of a run with its store leaves is what a restart finds: at any moment, inside a
/// step too, whether its log is a history or not. The files fit their log, which is lawful, so each stage behind them is one of
/// the above. The image of the run's start is to stand in its place, as `an_image_keeps_its_place` says of it.
pub fn a_crash_image_is_found()
    ensures { CrashIsFound }
{}

/// The image of a format's files stands behind the first batch, as does that of files behind a restart, and hardly more
/// checkpoints were made than records stand before it. Where a gate is open a record stands behind the image, so a restart
/// tells the lists of the last one. So it is of each start of a run that has no checkpoint's image, or whose log has a record
/// behind the format; and so it stays along any steps of a run with its store.
pub fn an_image_keeps_its_place()
    ensures format { FormatHasPlace }
    ensures turned { TurnedHasPlace }
    ensures starts { StartHasPlace }
    ensures keeps { KeepsPlace }
{}

/// Whatever a crash leaves at any moment of a run of calls, it might have left before the run, or may leave behind one of the
/// calls. So what is known of each of these disks, in whatever terms, is known of it.
pub fn a_run_of_calls_leaves_what_its_calls_leave<V: Store>()
    ensures { RunLeaves V.moment V.left_since V.may_leave }
{}

/// What stands behind the image tells at which stage files are that are found and that a disk spells. A restart is to begin where the last epoch has a
/// record, and so has the log behind the image. Where nothing stands there or a Restarted alone the files rest. Else a Restarted ends the log, as a
/// restart left it.
pub fn what_stands_behind_an_image_tells_the_stage()
    ensures { TellsStage }
{}

/// At each stage of a restart the log says the same: the recovered words and the recovered epoch, honest or not.
pub fn each_stage_of_a_restart_says_the_same()
    ensures { StagesSay }
{}
