//! Laws of served rounds, each the contract of a function that does nothing.
ghost use Rattle.dali_served.specs.Apart.{NoneGivesWay};
ghost use Rattle.dali_served.specs.Free.{RoundsAreServed};
ghost use Rattle.dali_served.specs.Generates.{GeneratedAreServed, SummariesFollow};
ghost use Rattle.dali_served.specs.Oks.{OksStand};
ghost use Rattle.dali_served.specs.Served.{ServedRounds};
ghost use Rattle.dali_served.specs.Steady.{NoneIsClaimed, OwnIsSteady, LogIsSteady};

/// Of a round of whole transactions behind the format alone, of which each line says that all went well, what was
/// committed is what its clients were told.
pub fn a_served_round_made_all()
    ensures { ServedRounds }
{}

/// What a generated round leaves of which each line says that all went well has one summary, which follows from the three
/// numbers alone.
pub fn a_served_summary_follows()
    ensures { SummariesFollow }
{}

/// Where no transaction is claimed for a clean-up, take a client of which each line tells that a transaction began, that a
/// call was answered or that the commit is ok. It made no operation behind what it took back, before it had answered.
pub fn an_answered_client_is_steady()
    ensures { OwnIsSteady }
{}

/// Where no client died, before the round or in it, no transaction is claimed for a clean-up at any place of it.
pub fn without_a_death_none_is_claimed()
    ensures { NoneIsClaimed }
{}

/// Where one client alone logs the records of a transaction, the log leaves it steady if the deeds of that client do.
pub fn a_log_is_steady_by_its_client()
    ensures { LogIsSteady }
{}

/// Where clients are told whole transactions alone, no two of them call one key, and no transaction was dead when the round began,
/// no request gives way.
pub fn no_request_gives_way()
    ensures { NoneGivesWay }
{}

/// Let such a round have begun behind the format alone with no transaction, with fewer inserts than cells and entries. Let
/// no latch compare, and the engine not be stopped in the end. Where its log is a history, each line says that all went
/// well, unless one says that the log is full.
pub fn a_free_round_is_served()
    ensures { RoundsAreServed }
{}

/// Of a generated round, over a log that had the format alone and without precheck, each line says that all went well, unless
/// one says that the log is full, or the engine is stopped in the end.
pub fn a_generated_round_is_served()
    ensures { GeneratedAreServed }
{}

/// What the lines of a round acknowledge stands in its log. Take a transaction of which a client of a round that ended with Done was
/// told `commit ok`. Where the round's log is legal it has the Commit of that transaction, which is flushed, and before it just the
/// calls that the client was told of since the transaction's begin, with their answers.
pub fn what_lines_acknowledge_is_in_the_log()
    ensures { OksStand }
{}
