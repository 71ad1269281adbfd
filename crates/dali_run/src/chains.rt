//! Laws that join a format, rounds, a crash and a restart, each the contract of a function that does nothing.
//!
//! A program goes through them so. Its first core comes from a format, or from a restart over files that a restart finds: there a
//! run from a start begins, and the core stands at it as a round asks for (`a_format_begins`, `a_restart_begins`). A round that
//! ends with `Done` leads to a point of the same run where the next one may begin (`rounds_begin_again`, for a row of rounds too).
//! Behind the last round, however it ended, a crash leaves files which a restart finds, if no audit missed a stray write, and what
//! it answers is what their log says (`a_crash_restarts`). The next start has their log, or that with the record of the restart,
//! and is a history where they are one: so all of it goes on from there.
ghost use Rattle.dali_run.specs.Chain.{FormatBegins, RestartBegins, RoundBegins, RoundsBegin, CrashRestarts};
ghost use Rattle.dali_run.specs.Shown.{ShowsExpected, VerifiesAlways};

use dali_store::Store;

/// The core that a format handed out stands where a round may begin: at the start of a run over the one record of its log. That
/// start is placed as the laws of a crash ask for.
pub fn a_format_begins<V: Store>()
    ensures { FormatBegins V.Store }
{}

/// So does the core that a restart handed out over files that are found, as those that a crash of a run leaves. The log is
/// theirs, or has the record of the restart besides, and is a history where theirs is one.
pub fn a_restart_begins<V: Store>()
    ensures { RestartBegins V.Store }
{}

/// Behind a round that ended with `Done` a round may begin, and behind a row of such rounds: the run goes on from the point where
/// the first began.
pub fn rounds_begin_again<V: Store>()
    ensures round { RoundBegins V.Store }
    ensures rounds { RoundsBegin V.Store }
{}

/// Where a run stands with its core, between two rounds or behind one that was cut, and no audit missed a stray write, each disk
/// that a crash leaves spells files that are found. A restart of them answers what their log says. Where the run began with a
/// history and no damage escapes, that is right, and whatever was acknowledged survives, or was deleted since a chain led from
/// damage to it. The start is to be placed as those above are.
pub fn a_crash_restarts<V: Store>()
    ensures { CrashRestarts V.Store }
{}

/// Between two rounds, where the engine runs, no transaction is left and no region was poked since the core was made, the words
/// in memory have the records that the log is expected to leave, unflushed records of it included. There a comparison with a
/// plain replay of the whole log comes out equal. The run is to have begun with a history, over a store that tells its files.
pub fn memory_is_as_expected<V: Store>()
    ensures records { ShowsExpected V.Store }
    ensures verifies { VerifiesAlways V.Store }
{}
