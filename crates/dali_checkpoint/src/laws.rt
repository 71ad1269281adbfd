//! Laws of checkpoints over any store, each the contract of a function that does nothing.
ghost use Rattle.dali_checkpoint.specs.Laws.{StartGoes, CopyGoes, SkipGoes, RunGoes, RunSkips, WordsGo, WordsSkip, SettleGoes, OthersKeep, FlushKeeps, AuditsTell, CertifyGoes, StartFaults, CopyFaults, RunFaults, SettleFaults, CertifyFaults, FailureEnds, GivesUp, PointsTell, EndsIdle, EndIsFar, PlacesStay, PlacesGoOn, PlacesGoFar, ClearReaches};
ghost use Rattle.dali_checkpoint.specs.CopiedOut.{WaitBegins, SilentWaits, CopyWaits, CopiesWait, WriteEnds, WriteFails, WaitIsRight, WriteIsRight, LateWordsGo, LateWordsFail, OutBegins, OutGoes, OutStays, OutEnds, OutFails, OutIsRight};
ghost use Rattle.dali_checkpoint.specs.Moments.{StartIsRight, CopyIsRight, SettleIsRight, CertifyIsRight, FailureIsRight};

use dali_store::Store;

/// Let no checkpoint be under way, and the image files read as the run says. Then what a start leaves on Ok is behind steps:
/// its own start, a taking and a flush, the keeping of what the records come to, and the write of the header. Nothing is
/// copied yet then.
pub fn a_start_makes_steps<V: Store>()
    ensures { StartGoes V.Store }
{}

/// So is a copy of the next region, which is brought up to date with all records so far; one whose flag is clear was so
/// before. One region more is copied then.
pub fn a_copy_makes_a_step<V: Store>()
    ensures copied { CopyGoes V.Store }
    ensures skipped { SkipGoes V.Store }
{}

/// So is a run of regions that one call of the store wrote: each is a copy of its own, with no step of others between them. A
/// run whose flags are clear was so before.
pub fn a_run_of_copies_makes_steps<V: Store>()
    ensures copied { RunGoes V.Store }
    ensures skipped { RunSkips V.Store }
{}

/// So are words that were copied from the next regions and are written by one call, and regions that are passed over, where
/// nobody took a step between their copies and the write.
pub fn copied_words_make_steps<V: Store>()
    ensures copied { WordsGo V.Store }
    ensures passed { WordsSkip V.Store }
{}

/// Where one holds the vault and copies the next regions one by one, others may change them before their words are written: the
/// copies are steps of their own moments, and steps of others that call no store may stand anywhere between. Meanwhile the vault
/// is at each point that these lead to, but for the write (`IsAtBut`), and behind the write of just the words that the copies
/// told it is at that point. Where the write fails, whatever part of them it wrote, it is at the point behind the step of a head
/// that fails, which may be the head that the point has. Each disk that a crash leaves, meanwhile and inside the write, spells
/// files that restart right.
pub fn copied_words_wait_for_their_write<V: Store>()
    ensures begins { WaitBegins V.Store }
    ensures silent { SilentWaits V.Store }
    ensures copy { CopyWaits V.Store }
    ensures copies { CopiesWait V.Store }
    ensures written { WriteEnds V.Store }
    ensures failed { WriteFails V.Store }
    ensures meanwhile { WaitIsRight V.Store }
    ensures inside { WriteIsRight V.Store }
    ensures whole { LateWordsGo V.Store }
    ensures fault { LateWordsFail V.Store }
{}

/// So is the checkpoint that is under way, from its next region on (`IsCopyingBut`): each `copy_out` is the copy of one region
/// more, steps of others that call no store and take no frame may stand anywhere between, and behind `write_words` as many
/// regions more are copied. Its fault ends the checkpoint, with the regions as they are.
pub fn a_checkpoint_copies_beside_others<V: Store>()
    ensures begins { OutBegins V.Store }
    ensures copied { OutGoes V.Store }
    ensures others { OutStays V.Store }
    ensures written { OutEnds V.Store }
    ensures failed { OutFails V.Store }
    ensures inside { OutIsRight V.Store }
{}

/// So is a settlement, once all regions are copied: a taking and a flush, and the write of the table, behind which the whole
/// image is read.
pub fn a_settlement_makes_steps<V: Store>()
    ensures { SettleGoes V.Store }
{}

/// Between these calls each step of others that calls no store and takes no frame keeps all that they say, and so does a
/// flush of all records, as a commit makes it. The passes of an audit mark the copies; one that began behind the settlement
/// and ended clean certifies each copy.
pub fn an_audit_certifies_the_copies<V: Store>()
    ensures others { OthersKeep V.Store }
    ensures flush { FlushKeeps V.Store }
    ensures audit { AuditsTell }
{}

/// What a certified settlement leaves on Ok is behind a taking and a flush, the image's sync, the anchor's move and the
/// checkpoint's end. Then no checkpoint is under way and the image files read as the run says, so the next one may start.
/// The current image has the head that the start kept.
pub fn a_certification_makes_steps<V: Store>()
    ensures { CertifyGoes V.Store }
{}

/// Where a call meets a fault, where an audit failed, and where a checkpoint is given up, what is left is behind steps too.
pub fn a_checkpoint_that_fails_makes_steps<V: Store>()
    ensures start { StartFaults V.Store }
    ensures copy { CopyFaults V.Store }
    ensures run { RunFaults V.Store }
    ensures settle { SettleFaults V.Store }
    ensures certify { CertifyFaults V.Store }
    ensures audit { FailureEnds V.Store }
    ensures given_up { GivesUp V.Store }
{}

/// Where the file of a side has the place of each region whose flag for that side is clear, it has so behind a call that
/// leaves no image file shorter, and behind a copy, which clears a flag, or the copies of several. So it reaches behind the
/// next regions where their flags are clear.
pub fn a_clear_flag_has_its_place<V: Store>()
    ensures stays { PlacesStay V.Store }
    ensures copied { PlacesGoOn V.Store }
    ensures far { PlacesGoFar V.Store }
    ensures reaches { ClearReaches V.Store }
{}

/// Each disk that a crash inside a call of a checkpoint leaves spells files that restart right.
pub fn a_crash_inside_a_checkpoint_is_right<V: Store>()
    ensures start { StartIsRight V.Store }
    ensures copy { CopyIsRight V.Store }
    ensures settle { SettleIsRight V.Store }
    ensures certify { CertifyIsRight V.Store }
    ensures failure { FailureIsRight V.Store }
{}

/// Where a checkpoint has ended, given up ones and those with a fault among them, none is under way, and the next one may
/// start. So it is behind `give_up`, behind a start that failed, and behind each answer of `certify`.
pub fn a_checkpoint_that_ended_leaves_none_under_way<V: Store>()
    ensures told { PointsTell V.Store }
    ensures ends { EndsIdle V.Store }
{}

/// A core of a run may be asked for a whole checkpoint: its log's end is below 2^61, and its current number below 2^62.
pub fn a_core_of_a_run_may_make_a_checkpoint<V: Store>()
    ensures { EndIsFar V.Store }
{}
