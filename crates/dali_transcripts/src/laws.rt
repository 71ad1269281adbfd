//! Laws over the definitions, each the contract of a function that does nothing.

ghost use Rattle.dali_transcripts.specs.Laws.{OneMoreDeed, OneMoreStep, DeedIsDone, DeedsAreDone, GrowsOn, OwnGoesOn, OthersGoOn, RightGoesOn, EachIsOwned, OwnedByOne, OwnAscend, WorldGoesOn, LinesTell, LinesAreRecords, CutLinesAreRecords, DeedsAreTold, OperationsAreTold, AnchorsRise, OkIsFlushed, GoneIsSilent, NothingAfterDied, NothingAfterStop, TriesAreFew, TextAscends};
ghost use Rattle.dali_transcripts.specs.Grown.{StepsGrow, CoursesGrow};
ghost use Rattle.dali_transcripts.specs.Rounds.{RoundGoesOn, RoundIsDone, RoundIsCut};
ghost use Rattle.dali_transcripts.specs.Together.{TogetherAtFirst, TogetherByDeed, TogetherByNone, AtOnceTells};
ghost use Rattle.dali_transcripts.specs.Touches.{HoldersTouch, OthersAreLeft};
ghost use Rattle.dali_transcripts.specs.Looks.{LooksStayRight};
ghost use Rattle.dali_transcripts.specs.Left.{LeftHaveDied};
ghost use Rattle.dali_transcripts.specs.Worked.{AreMade, Conflict, ConflictRuns};
ghost use Rattle.dali_transcripts.specs.Corners.{CornersRun};
ghost use Rattle.dali_transcripts.specs.Faults.{FaultsRun};
ghost use Rattle.dali_transcripts.specs.Tries.{ThousandTries};
ghost use Rattle.dali_transcripts.specs.Wrong.{WrongOnes};

/// A client does a deed.
pub fn one_more_deed()
    ensures { OneMoreDeed }
{}

/// A client ends a step.
pub fn one_more_step()
    ensures { OneMoreStep }
{}

/// A client does a deed, in a world that goes on by it.
pub fn a_deed_is_done()
    ensures { DeedIsDone }
{}

/// A client does some deeds at once.
pub fn deeds_are_done()
    ensures { DeedsAreDone }
{}

/// A world goes on from itself, and step by step.
pub fn a_world_grows_on()
    ensures { GrowsOn }
{}

/// A deed of a client is one more of its own.
pub fn own_goes_on()
    ensures { OwnGoesOn }
{}

/// It is none of another client's.
pub fn others_go_on()
    ensures { OthersGoOn }
{}

/// The numbers of a client's records ascend, and the records are the log's.
pub fn own_records_ascend()
    ensures { OwnAscend }
{}

/// A transcript stays while the round goes on.
pub fn the_world_goes_on()
    ensures { WorldGoesOn }
{}

/// Each line has the record or the cause that the table names.
pub fn each_line_tells()
    ensures { LinesTell }
{}

/// Each record of a transaction that a line has to tell is told by one line, in order, and these lines are determined.
pub fn the_lines_are_those_of_the_records()
    ensures { LinesAreRecords }
{}

/// A commit that was answered ok is flushed.
pub fn an_ok_commit_is_flushed()
    ensures { OkIsFlushed }
{}

/// The lines of a client that was cut are those of the first part of its records.
pub fn the_lines_of_a_cut_client_are_those_of_its_first_records()
    ensures { CutLinesAreRecords }
{}

/// Each poke, each move of the anchor and the death of a client is told by one line, in order.
pub fn each_deed_is_told()
    ensures { DeedsAreTold }
{}

/// A step that logs an operation says the answer of a call, that it was refused, or that the client died.
pub fn each_operation_is_told()
    ensures { OperationsAreTold }
{}

/// The number of a move of the anchor is above the one at the start.
pub fn anchors_rise()
    ensures { AnchorsRise }
{}

/// After a death nothing is said and nothing done.
pub fn a_dead_client_is_silent()
    ensures { GoneIsSilent }
{}

/// No try follows the thousandth.
pub fn no_try_follows_the_thousandth()
    ensures { TriesAreFew }
{}

/// Two clients insert one key; one of them is refused, and tries again; the other one dies.
pub fn a_conflict()
    ensures { Conflict }
{}

/// No line follows `died`.
pub fn nothing_follows_a_death()
    ensures { NothingAfterDied }
{}

/// Wrong transcripts are none, and wrong rounds are none.
pub fn wrong_transcripts_are_none()
    ensures { WrongOnes }
{}

/// A step of one client leaves the others as they stand.
pub fn a_round_goes_on()
    ensures { RoundGoesOn }
{}

/// A round of which each client is done has transcripts.
pub fn a_round_is_done()
    ensures { RoundIsDone }
{}

/// A round that ends before has transcripts that are cut.
pub fn a_round_is_cut()
    ensures { RoundIsCut }
{}

/// A round's text has the lines of each client, by ascending number.
pub fn the_text_ascends()
    ensures { TextAscends }
{}

/// Each step of the engine is one in which the world goes on.
pub fn each_step_goes_on()
    ensures { StepsGrow }
{}

/// So is each list of such steps.
pub fn each_course_goes_on()
    ensures { CoursesGrow }
{}

/// Each deed of the round is its owner's.
pub fn each_record_is_owned()
    ensures { EachIsOwned }
{}

/// A record is no one else's.
pub fn a_record_has_one_owner()
    ensures { OwnedByOne }
{}

/// The blocks of the worked round are those of their operations.
pub fn the_worked_blocks_are_made()
    ensures { AreMade }
{}

/// Behind a line that says that the engine is stopped, no line matches a record.
pub fn nothing_is_logged_behind_a_stop()
    ensures { NothingAfterStop }
{}

/// The clause of a round holds of the worked one.
pub fn the_conflict_runs()
    ensures { ConflictRuns }
{}

/// It holds of a round with a poke, an audit that fails, and refusals.
pub fn the_corners_run()
    ensures { CornersRun }
{}

/// It holds of a round with two checkpoints, a damaged region, a store that fails and a transaction that stays open.
pub fn the_faults_run()
    ensures { FaultsRun }
{}

/// A client of which every try gets Busy tries a thousand times.
pub fn a_thousand_tries()
    ensures { ThousandTries }
{}

/// Where a round begins, what it says of all its clients holds.
pub fn all_holds_at_first()
    ensures { TogetherAtFirst }
{}

/// It holds behind a deed that does what it owes.
pub fn all_holds_behind_a_deed()
    ensures { TogetherByDeed }
{}

/// It holds where nothing is done.
pub fn all_holds_without_a_deed()
    ensures { TogetherByNone }
{}

/// Where a region is right at the place of an operation itself, as where one thread makes all steps of it, its client has looked.
pub fn looks_at_once_are_looks()
    ensures { AtOnceTells }
{}

/// What the holder of a region does on it is made on the region and on the system.
pub fn holders_touch_the_system()
    ensures { HoldersTouch }
{}

/// What is told of a region, of the system or of the vault changes by the deeds alone that are made on it.
pub fn deeds_leave_the_rest()
    ensures { OthersAreLeft }
{}

/// A look that was right stays so where another client then writes astray and begins an audit.
pub fn looks_stay_right()
    ensures { LooksStayRight }
{}

/// Where the engine runs behind a round that ended with Done, each transaction that has a row was dead before it, or its client
/// died in it.
pub fn who_is_left_has_died()
    ensures { LeftHaveDied }
{}

/// Each deed of a round has what it asks for at its place, also while the world goes on.
pub fn each_deed_stays_right()
    ensures { RightGoesOn }
{}
