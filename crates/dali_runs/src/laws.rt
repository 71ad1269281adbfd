//! Laws over the definitions, each the contract of a function that does nothing: a step takes a run to a run.

ghost use Rattle.dali_runs.specs.Keeps.{BeginKeeps, OpKeeps, BackKeeps, SoloKeeps, DoneKeeps, CommitKeeps, EndedKeeps, GrantKeeps, RefuseKeeps, RegionKeeps, StopKeeps, StateKeeps, DeathKeeps, RecoverKeeps, CheckpointFlagKeeps};
ghost use Rattle.dali_runs.specs.Flushes.{TakeKeeps, FlushKeeps, FaultKeeps, EndIsSmall};
ghost use Rattle.dali_runs.specs.Audits.{AuditBeginKeeps, AuditEndKeeps, AuditStarts, AuditGoesOn, PassCertifies, PassFinds, CertifiesStays};
ghost use Rattle.dali_runs.specs.Courses.{StepKeeps, CourseKeeps, TakenAllIsFlushed, LoadRunsAt, CheckpointsTurn, AuditEndTells, BareCourseKeeps, BareLoadRuns};
ghost use Rattle.dali_runs.specs.ImageSteps.{ImagesKeep, CopyKeeps, FlushKeepsImages, FaultKeepsImages};
ghost use Rattle.dali_runs.specs.Loads.{LoadRuns, FormatRests, EmptyRests};
ghost use Rattle.dali_runs.specs.Wholes.{WholeKeeps, WholeCourseKeeps, LoadIsWhole, WhoLogs};
ghost use Rattle.dali_runs.specs.Worked.{Removal, Abandoned, Damaged};

/// A transaction begins.
pub fn begin_keeps_a_run()
    ensures { BeginKeeps }
{}

/// An operation is logged, and its region touched.
pub fn operation_keeps_a_run()
    ensures { OpKeeps }
{}

/// A change is taken back.
pub fn back_keeps_a_run()
    ensures { BackKeeps }
{}

/// A removed cell or entry is freed.
pub fn solo_keeps_a_run()
    ensures { SoloKeeps }
{}

/// A call is answered.
pub fn done_keeps_a_run()
    ensures { DoneKeeps }
{}

/// A transaction is committed.
pub fn commit_keeps_a_run()
    ensures { CommitKeeps }
{}

/// A transaction ends, and its locks are free.
pub fn ended_keeps_a_run()
    ensures { EndedKeeps }
{}

/// An audit begins.
pub fn audit_begin_keeps_a_run()
    ensures { AuditBeginKeeps }
{}

/// An audit ends.
pub fn audit_end_keeps_a_run()
    ensures { AuditEndKeeps }
{}

/// A lock is granted.
pub fn grant_keeps_a_run()
    ensures { GrantKeeps }
{}

/// A lock is refused.
pub fn refusal_keeps_a_run()
    ensures { RefuseKeeps }
{}

/// One region is latched, read, updated, taken back, poked or checked.
pub fn region_keeps_a_run()
    ensures { RegionKeeps }
{}

/// The engine stops after a fault.
pub fn stop_keeps_a_run()
    ensures { StopKeeps }
{}

/// The state of a transaction's row changes as a death, a claim, or a claim that is given back changes it.
pub fn state_keeps_a_run()
    ensures { StateKeeps }
{}

/// A client dies, in an operation or in none: its hold is dead, and its transaction's row keeps the region.
pub fn death_keeps_a_run()
    ensures { DeathKeeps }
{}

/// Who claimed a transaction takes back the operation in which its client died.
pub fn recovery_keeps_a_run()
    ensures { RecoverKeeps }
{}

/// A checkpoint starts and ends.
pub fn checkpoint_flag_keeps_a_run()
    ensures { CheckpointFlagKeeps }
{}

/// A checkpoint starts only where the flag is clear, and sets it; it ends only where the flag is set, and clears it.
pub fn a_checkpoint_turns_the_flag()
    ensures { CheckpointsTurn }
{}

/// A frame of the log is taken, to be flushed.
pub fn take_keeps_a_run()
    ensures { TakeKeeps }
{}

/// A frame is flushed.
pub fn flush_keeps_a_run()
    ensures { FlushKeeps }
{}

/// A flush meets a fault.
pub fn fault_keeps_a_run()
    ensures { FaultKeeps }
{}

/// In a run the log's file ends below 2^62, whatever is known of the store: no flush meets that limit.
pub fn a_log_ends_below_its_limit()
    ensures { EndIsSmall }
{}

/// A core that was just made over a log at rest is a run.
pub fn a_load_is_a_run()
    ensures { LoadRuns }
{}

/// The log of a store that was just formatted is at rest.
pub fn a_format_rests()
    ensures { FormatRests }
{}

/// An audit that begins is open.
pub fn an_audit_starts()
    ensures { AuditStarts }
{}

/// A log whose last epoch has no record, as behind a format or a restart, is at rest.
pub fn a_log_with_an_empty_epoch_rests()
    ensures { EmptyRests }
{}

/// Each step takes a run to a run, the store with it.
pub fn each_step_keeps_a_run()
    ensures { StepKeeps }
{}

/// So does each list of steps, in whatever order.
pub fn each_list_of_steps_keeps_a_run()
    ensures each { CourseKeeps }
    ensures bare { BareCourseKeeps }
{}

/// A frame that is flushed as soon as it is taken has all records: behind it all are flushed.
pub fn a_frame_has_all_records()
    ensures { TakenAllIsFlushed }
{}

/// A core that was just made, over a log whose records are all flushed, is a run.
pub fn a_load_is_a_run_with_its_store()
    ensures each { LoadRunsAt }
    ensures bare { BareLoadRuns }
{}

/// An audit stays open while others log.
pub fn an_audit_goes_on()
    ensures { AuditGoesOn }
{}

/// A check that answers 0 certifies the blocks so far, or a stray write is missed.
pub fn a_pass_certifies()
    ensures { PassCertifies }
{}

/// A check that answers another number tells of a stray write.
pub fn a_pass_finds_a_stray_write()
    ensures { PassFinds }
{}

/// What a pass found out stays.
pub fn what_a_pass_found_stays()
    ensures { CertifiesStays }
{}

/// An audit that ends has passed each region just once since it began, and names just those whose answer wasn't 0; so it is clean
/// exactly where there is none. To each of these a stray write came, and each other one is certified.
pub fn an_audit_tells_what_it_passed()
    ensures { AuditEndTells }
{}

/// Each step keeps a core whole: dead holds, the rows that name their regions, and holds of who is alive go together.
pub fn each_step_keeps_a_core_whole()
    ensures { WholeKeeps }
{}

/// So does each list of steps, in whatever order.
pub fn each_list_of_steps_keeps_a_core_whole()
    ensures { WholeCourseKeeps }
{}

/// A core that was just made is whole.
pub fn a_load_is_whole()
    ensures { LoadIsWhole }
{}

/// A dead transaction logs nothing, one that is claimed takings back and its end, a committed one solos and its end.
pub fn the_state_tells_who_logs()
    ensures { WhoLogs }
{}

/// Images and log stay as they fit with every step that writes nothing to the store.
pub fn steps_leave_the_images()
    ensures { ImagesKeep }
{}

/// So they do when a region was copied for a checkpoint and its flag is cleared.
pub fn a_copy_keeps_the_images()
    ensures { CopyKeeps }
{}

/// So they do with one batch more, once it is flushed.
pub fn a_flush_keeps_the_images()
    ensures { FlushKeepsImages }
{}

/// So they do where a flush meets a fault, with the batch or without it.
pub fn a_fault_keeps_the_images()
    ensures { FaultKeepsImages }
{}

/// A record is removed, freed and audited: these steps can be taken.
pub fn a_removal()
    ensures { Removal }
{}

/// A request is refused, a client dies, its transaction is claimed, given back, claimed again and taken back,
/// the store fails in a flush: these steps can be taken.
pub fn an_abandoned_transaction()
    ensures { Abandoned }
{}

/// A poke, a transaction that reads it and commits, an audit that begins before the commit's frame is flushed, and
/// fails: no damage escapes.
pub fn a_damaged_region()
    ensures { Damaged }
{}
