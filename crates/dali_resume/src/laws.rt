//! Laws over the definitions, each the contract of a function that does nothing.
ghost use Rattle.dali_resume.specs.Laws.{FindsDamage, JudgesAlike, MarksAlike, DropsAlike, ReportsAlike, UndoesAlike, RecoversAlike, UndamagedIsPlain, UnfailedIsPlain, FailEndsEpoch, FollowsStatuses, OneTableServes, ReadsEpoch, ResumesFromFiles, PassesTests, FindsFirstBad};
ghost use Rattle.dali_resume.specs.Refused.{TellsApart};
ghost use Rattle.dali_resume.specs.Crashes.{EveryHistoryResumes, CrashResumes};
ghost use Rattle.dali_resume.specs.Again.{HandsOut, RestartsAgain, ResumeGives};
ghost use Rattle.dali_resume.specs.Finding.{WritesAlike, FindsFromImage, FindsInLast, FindsAfterCrash, KeepsUndos};
ghost use Rattle.dali_resume.specs.BehindTheEnd.{NobodyBehindTheEnd};
ghost use Rattle.dali_resume.specs.Ends.{EndsEpochs};
ghost use Rattle.dali_resume.specs.Rules.{FrontsStand, TestsAreRules, FindsMisfit, LegalStands};
ghost use Rattle.dali_resume.specs.Batches.{FindsMisplaced, FitsInBatches, AnswersOverBatches, FrontAnswersOverBatches};
ghost use Rattle.dali_resume.specs.Worked.{MiddleRestarts, MisfitsInTheMiddle};
ghost use Rattle.dali_resume.specs.OnTheWay.{WritesOnTheWay, FindsOnTheWay, EndsAreHistories};
ghost use Rattle.dali_resume.specs.Numbers.{ImageStandsWithin, NumberIsSome};
ghost use Rattle.dali_resume.specs.Onward.{ResumesThrough, ListsAreTested, KnowsAlike, ResumesHistories, FormatFits, FormatHandsOut, FormatRests, CrashIsAnswered, RestartsOnward, RestsFree, ServesAnyLog, OnePassOnward};

/// The clean place and the failing regions of an epoch are found in the records behind an image.
pub fn damage_is_found_behind_an_image()
    ensures { FindsDamage }
{}

/// A scan that begins with an image's table and nothing marked leaves out each record that the marks
/// of the whole epoch leave out, and knows which transactions are corrupt.
pub fn a_scan_behind_an_image_judges_alike()
    ensures { JudgesAlike }
{}

/// It marks the same blocks, as long as their transactions weren't corrupt before.
pub fn a_scan_behind_an_image_marks_alike()
    ensures { MarksAlike }
{}

/// It leaves out exactly the blocks that a chain anywhere in the epoch drops.
pub fn a_scan_behind_an_image_drops_by_chains()
    ensures { DropsAlike }
{}

/// The two lists that are reported are those of the whole epoch.
pub fn a_scan_behind_an_image_reports_alike()
    ensures { ReportsAlike }
{}

/// So are the undos that are performed.
pub fn a_scan_behind_an_image_undoes_alike()
    ensures { UndoesAlike }
{}

/// So is the image that a restart comes to.
pub fn a_scan_behind_an_image_recovers_alike()
    ensures { RecoversAlike }
{}

/// Where no audit failed, a restart writes every block in one pass and deletes nobody. A failed audit
/// is the last record of its epoch, so this is known when all were read.
pub fn without_a_failed_audit_one_pass_recovers()
    ensures undamaged { UndamagedIsPlain }
    ensures unfailed { UnfailedIsPlain }
    ensures last { FailEndsEpoch }
{}

/// The records that a restart reads behind an image, and their first number, are those of the epoch.
pub fn a_restart_reads_its_epoch()
    ensures { ReadsEpoch }
{}

/// From files that fit their log, a restart that reads the image, its table and the records from its
/// number on comes to what the whole epoch comes to over its base, and reports the same lists.
pub fn a_restart_resumes_from_its_files()
    ensures { ResumesFromFiles }
{}

/// The records from the image's number on, of files that fit, pass the tests of a restart, one after
/// another.
pub fn records_behind_an_image_pass()
    ensures { PassesTests }
{}

/// Where some record may not follow, the place of the first such is found.
pub fn the_first_bad_record_is_found()
    ensures { FindsFirstBad }
{}

/// A restart of a history with a record in its last epoch may be stopped at any of its store calls and made again. The
/// files as they are, those with the batch of its record, however much of the other image is written, and those behind
/// the turn of the anchor each fit their log. All three hand out the same image and the same lists.
pub fn a_restart_may_be_made_again()
    ensures { RestartsAgain }
{}

/// From the files of a history with a record in its last epoch a restart hands out exactly the records of the
/// survivors, and reports who was rolled back and who was deleted.
pub fn a_restart_from_an_image_is_right()
    ensures { ResumeGives }
{}

/// The undo lists that a restart's tests keep are those that it performs where no audit failed.
pub fn one_table_serves_tests_and_undos()
    ensures statuses { FollowsStatuses }
    ensures undos { OneTableServes }
{}

/// A case or more for each kind of record: what may follow, and what may not.
pub fn the_tests_tell_apart()
    ensures { TellsApart }
{}

/// What a restart hands out of any files that fit their log.
pub fn what_a_restart_hands_out()
    ensures { HandsOut }
{}

/// Whatever a crash of a run with its store leaves, where no damage escaped: its files pass the tests,
/// and a restart from them is right.
pub fn a_crash_image_resumes()
    ensures { CrashResumes }
{}

/// Files of a history that fit pass the tests, and a restart hands out what is recovered: where the last
/// epoch is empty, as behind a format or a restart, that is the image's words themselves.
pub fn every_history_resumes()
    ensures { EveryHistoryResumes }
{}

/// The records that the scan keeps, written over the image, come to what the kept records of the whole epoch come to
/// over its base. There each undo that the scan keeps finds its slot as its transaction left it, word by word, in any
/// order of the transactions.
pub fn undos_find_their_slots_in_an_image()
    ensures written { WritesAlike }
    ensures found { FindsFromImage }
    ensures last { FindsInLast }
    ensures crash { FindsAfterCrash }
    ensures undos { KeepsUndos }
{}

/// Whatever stands behind the image in a legal log, further records of restarts too: at each of them an
/// epoch ends and the next one begins, and at the end what the whole log says is handed out.
pub fn a_restart_goes_on_behind_restarts()
    ensures knows { KnowsAlike }
    ensures resumes { ResumesThrough }
    ensures lists { ListsAreTested }
{}

/// From a history, with an image anywhere in it and a record behind that, the records of the survivors are handed out,
/// and the lists of the recovered epoch.
pub fn every_history_resumes_behind_restarts()
    ensures { ResumesHistories }
{}

/// A format's files are read so too, however many restarts the log has: where no checkpoint was made,
/// the formatted regions are the image at the first epoch. With a Restarted right behind the Format they are
/// that at the epoch behind both, which is the last one.
pub fn a_format_is_an_image()
    ensures fits { FormatFits }
    ensures rests { FormatRests }
    ensures gives { FormatHandsOut }
{}

/// An image that was put behind the last Restarted, at the log's end: a log of three records, in which a restart rolled
/// transaction 1 back. The files fit it, but from there no record is read, so a restart hands out the right image and
/// names nobody. No checkpoint and no restart leaves such an image, and none of the laws on crashes speaks of it.
pub fn a_restart_names_nobody_behind_the_end()
    ensures { NobodyBehindTheEnd }
{}

/// Whatever a crash of a run with its store leaves, where a restart of its log is right: that is answered.
pub fn a_crash_image_is_answered()
    ensures { CrashIsAnswered }
{}

/// Such a restart may be stopped and made again.
pub fn a_restart_behind_restarts_may_be_made_again()
    ensures { RestartsOnward }
{}

/// What is tested of each record behind an image, beginning with its table and numbers, are rules of
/// the log, said of all records before it.
pub fn the_tests_are_the_rules_of_the_log()
    ensures stands { FrontsStand }
    ensures rules { TestsAreRules }
{}

/// What is answered of files tells whether each record behind the image may stand where it does, and
/// else the number of the first that may not; those of a legal log all may.
pub fn the_first_misfit_is_named()
    ensures finds { FindsMisfit }
    ensures legal { LegalStands }
{}

/// Of any records that pass the tests: the table that the tests keep is the one whose undos are
/// performed, and an epoch in which no audit failed is recovered in one pass with it.
pub fn one_pass_serves_any_log()
    ensures serves { ServesAnyLog }
    ensures once { OnePassOnward }
{}

/// A log of three epochs without a checkpoint: what is handed out, and which record is named where one is
/// wrong.
pub fn a_worked_log_ends_its_epochs()
    ensures { EndsEpochs }
{}

/// Each Restarted has to be the first record of its batch: the first that isn't is named, before any record that may not
/// follow and behind it. Of files that fit none is so named, and the answer is that of their records.
pub fn a_restarted_is_first_in_its_batch()
    ensures finds { FindsMisplaced }
    ensures fits { FitsInBatches }
    ensures answers { AnswersOverBatches }
    ensures front { FrontAnswersOverBatches }
{}

/// The image of files that fit stands behind a record, where its place is above 0. A restart tests that the place isn't below
/// that of the second batch, so no law that asks for a record number above 0 is left to its caller.
pub fn an_image_stands_behind_a_record()
    ensures { NumberIsSome }
{}

/// Where the last epoch has a record, the image stands before the last of them: so some of it is read.
pub fn an_image_stands_before_its_epochs_end()
    ensures { ImageStandsWithin }
{}

/// Where the last epoch has no record, what a restart of the log comes to has nothing to free, whatever the log.
pub fn a_resting_image_is_free()
    ensures { RestsFree }
{}

/// Behind any number of restarts behind the image, at the end of the log and wherever an epoch is recovered on the way, what
/// the scan keeps comes to what the epoch's kept records come to over its base. There each undo finds its slot as its
/// transaction left it, in any order of the transactions.
pub fn undos_find_their_slots_on_the_way()
    ensures written { WritesOnTheWay }
    ensures found { FindsOnTheWay }
    ensures ends { EndsAreHistories }
{}

/// A worked restart with a Restarted in the middle of its log and blocks on both sides: what it comes to there and at the end,
/// and which record is named where one is wrong.
pub fn a_worked_restart_ends_an_epoch_on_its_way()
    ensures restarts { MiddleRestarts }
    ensures misfits { MisfitsInTheMiddle }
{}
