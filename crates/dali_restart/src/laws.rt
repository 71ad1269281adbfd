//! Laws of what `open` finds and what `restart` reads, each the contract of a function that does nothing.
ghost use Rattle.dali_restart.specs.Headline.{CrashIsFoundBut, CrashRestartsRight, OnWayGoesOn, UnpokedRestartsRight};
ghost use Rattle.dali_restart.specs.Laws.{WhatOpensIsSpelled, OneAnswer, OpensOnce, ReadsOnce, IsBadOnce, FoundIsGood, FitIsFound, ClosedFormatIsFound};

/// Where the log is one from its first batch to its end, the disk spells files with just what was found: the sizes, the
/// current image with its number and its table. So it is of every files that a disk spells, which are one.
pub fn what_opens_is_spelled()
    ensures { WhatOpensIsSpelled }
{}

/// A disk has one answer at most. A log without batches is nowhere bad, and nothing is found there; where something is found
/// the files are nowhere bad; and they are bad at one place of one file.
pub fn a_store_has_one_answer()
    ensures { OneAnswer }
{}

/// What stands in the files of a disk before the records behind the image is found again by each `open`.
pub fn a_store_opens_the_same()
    ensures { OpensOnce }
{}

/// A restart of a disk hands out one thing at most, and then the disk is nowhere bad. It is bad at one place of one file: so the
/// place that `BadStore` names is the first one, also where a record may not stand where it does and bytes behind it in its batch
/// spell no record.
pub fn a_restart_has_one_answer()
    ensures reads { ReadsOnce }
    ensures bad { IsBadOnce }
{}

/// Files that a crash of a run left in which no audit missed a stray write, or of a restart at any of its calls, are nowhere bad.
/// Their log has its first batch, and the record of their restart fits a batch. So of a disk that spells such a restart answers
/// neither `BadStore` nor `Unformatted`, nor `TooLong`.
pub fn what_is_found_is_nowhere_bad()
    ensures { FoundIsGood }
{}

/// Files whose log is lawful and whose image fits it at its last epoch are found, also where no run left them: so what `restart`
/// says of files that are found it says of each store that spells such. The image is to stand behind a record, and hardly more
/// checkpoints to have been made than records stand before it. Where a gate of the anchor is open a record is to stand behind the
/// image: from one behind the last Restarted no restart knows whom that one named, and it names nobody
/// (`dali_resume::laws::a_restart_names_nobody_behind_the_end`).
pub fn files_that_fit_are_found()
    ensures { FitIsFound }
{}

/// Files whose log has a Format and right behind it a Restarted are found, where no checkpoint was made: the formatted regions are
/// the image. So a restart of them and whatever runs behind it is promised what all are.
pub fn a_log_of_a_format_and_a_restart_is_found()
    ensures { ClosedFormatIsFound }
{}

/// A run with its store may crash anywhere, also within a step, and the restart behind it may be stopped, any number of times.
/// Where no audit missed a stray write, what a restart then hands out is what the log of the crash says. Where the run began with a
/// history and no damage escapes, that log is a history, and the records are exactly those that serial replay of its survivors
/// leaves. Each transaction whose commit was acknowledged survives then, or was deleted since a chain led from damage to it. The
/// run's start has no checkpoint's image, or a record behind the format in its log. Without a stray write nobody of the last epoch
/// is deleted. The lists of the report are those of the recovered epoch.
pub fn a_crash_of_a_run_restarts_right()
    ensures right { CrashRestartsRight }
    ensures again { OnWayGoesOn }
    ensures unpoked { UnpokedRestartsRight }
{}

/// Whatever stray writes its audits missed, what a crash of a run leaves is found but for the words of its image. So a restart of
/// it, at each moment of it and whatever it answers, leaves all records of its log (`appends` of `restart`).
pub fn a_crash_of_a_run_keeps_its_log()
    ensures { CrashIsFoundBut }
{}
