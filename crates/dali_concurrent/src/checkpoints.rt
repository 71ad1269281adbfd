//! Laws of a checkpoint that runs beside other clients, each the contract of a function that does nothing.
ghost use Rattle.dali_concurrent.specs.Copying.{StartsLand, FinishesLand, KeepsLand, CopiesLand, SkipsLand, WritesHeadLand, SyncsLand, TurnsLand};
ghost use Rattle.dali_concurrent.specs.Copying.{CopyFailsLand, HeadFailsLand, SyncFailsLand, TurnFailsLand};
ghost use Rattle.dali_concurrent.specs.Stages.{StageGoes, StageStands, StageBegins, StageStays, StageTurns};
ghost use Rattle.dali_concurrent.specs.Calls.{AtMeets, FilesHold, HeaderHolds, TableHolds, SyncHolds, TurnHolds};
ghost use Rattle.dali_concurrent.specs.Calls.{HeadFaultHolds, SyncFaultHolds, TurnFaultHolds, RunBegins, RunMeets, RunCopies, RunEnds, RunFaultHolds};
ghost use Rattle.dali_concurrent.specs.Checking.{StageSees, CalmSees};
ghost use Rattle.dali_concurrent.specs.CallMoments.{FlushAdds, WriteAdds, RunAdds, SyncAdds, TurnAdds};

use dali_store::Store;

/// A checkpoint's steps land, each by what the values in hand give: its start and end by the system, the head that it keeps by
/// system and vault, a region that is copied or passed over by region and vault, writes, sync and the anchor's move by the vault.
pub fn a_checkpoints_steps_land()
    ensures starts { StartsLand }
    ensures finishes { FinishesLand }
    ensures keeps { KeepsLand }
    ensures copies { CopiesLand }
    ensures skips { SkipsLand }
    ensures written { WritesHeadLand }
    ensures synced { SyncsLand }
    ensures turns { TurnsLand }
{}

/// So does the fault of each of its store calls, with the stop behind it, by vault and system.
pub fn a_checkpoints_faults_land()
    ensures copy { CopyFailsLand }
    ensures head { HeadFailsLand }
    ensures sync { SyncFailsLand }
    ensures turn { TurnFailsLand }
{}

/// How far a checkpoint has come is told by the history alone, and so it is wherever that has come: what is kept, which regions are
/// copied, and which audits passed the copies. Entries of others leave it. Where the image is synced and an audit behind the
/// table's write ended clean and is flushed, the anchor may move.
pub fn a_checkpoint_is_as_far_as_the_history_tells()
    ensures goes { StageGoes }
    ensures stands { StageStands }
    ensures kept { StageBegins }
    ensures stays { StageStays }
    ensures turns { StageTurns }
{}

/// The vault is where the history has come to, and what is read of the next image is as far as the checkpoint's stage tells, behind
/// each call of a checkpoint, whatever others do between.
pub fn the_vault_keeps_the_next_image<V: Store>()
    ensures meets { AtMeets V.Store }
    ensures files { FilesHold V.Store }
    ensures header { HeaderHolds V.Store }
    ensures table { TableHolds V.Store }
    ensures synced { SyncHolds V.Store }
    ensures turned { TurnHolds V.Store }
{}

/// Behind the fault of such a call it is there too, with the stop.
pub fn the_vault_is_there_behind_a_fault<V: Store>()
    ensures head { HeadFaultHolds V.Store }
    ensures sync { SyncFaultHolds V.Store }
    ensures turn { TurnFaultHolds V.Store }
{}

/// Who holds the vault copies the next regions one by one, under the lock of each, and writes their words later by one call: the
/// vault is there but for that write, and behind it as many regions are copied.
pub fn copied_words_are_written_behind_others<V: Store>()
    ensures begins { RunBegins V.Store }
    ensures meets { RunMeets V.Store }
    ensures copies { RunCopies V.Store }
    ensures written { RunEnds V.Store }
    ensures fault { RunFaultHolds V.Store }
{}

/// What a crash at any moment of such a call leaves restarts right, whatever the call answers: so is what one leaves at any moment
/// since the round began.
pub fn a_crash_inside_a_call_is_right<V: Store>()
    ensures flush { FlushAdds V.Store }
    ensures write { WriteAdds V.Store }
    ensures run { RunAdds V.Store }
    ensures synced { SyncAdds V.Store }
    ensures turn { TurnAdds V.Store }
{}

/// Where only the client whose checkpoint is under way makes steps of one, entries of others leave it under way and as far as it was;
/// those that the vault's note hasn't signed either may stand inside a run of copies.
pub fn others_leave_a_checkpoint()
    ensures stage { StageSees }
    ensures calm { CalmSees }
{}
