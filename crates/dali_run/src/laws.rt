//! Laws of runs, each the contract of a function that does nothing.
ghost use Rattle.std.specs.Prelude.{ℕ, Bool, List};
ghost use Rattle.dali_record.specs.declared.records.Record.{Record};
ghost use Rattle.dali_run.specs.Complete.{GeneratorFaultsRise, RunsComplete, StoreFaultsRise};
ghost use Rattle.dali_run.specs.Durable.{AcknowledgedStay};
ghost use Rattle.dali_run.specs.Ends.{Course, HasEnded};
ghost use Rattle.dali_run.specs.Headline.{AcknowledgedSurvive, WorkedLinesAcknowledge};
ghost use Rattle.dali_run.specs.Honest.{CoresAreHonest, EndsTellRounds, RoundsAreHonest, RunsAreHonest};
ghost use Rattle.dali_run.specs.Masks.{PokesAreTold, StraysAreNamed};
ghost use Rattle.dali_run.specs.Strays.{LoneAuditTells};
ghost use Rattle.dali_run.specs.Summaries.{SummaryDepends};
ghost use Rattle.dali_run.specs.Survives.{RunsSurvive};
ghost use Rattle.dali_run.specs.Unpoked.{UnpokedShows, UnpokedVerifies};
ghost use Rattle.dali_run.specs.declared.status.Status.{Status as StatusOf};

use dali_store::Store;

/// The headline: no commit that was answered ok is lost, unless damage reached it, and a restart gives just what the others leave.
/// Take a run of `run` and a state of it. Whatever a crash then leaves of the store, the log of these files has the commit of each
/// transaction for which a line `commit ok` was told up to there, and of its calls just those that its client was told of since its
/// begin, with the answers that it was told. It has the commits in base too, the records which every crash of the handed-in store
/// leaves. Each of them survives, or a chain of logged reads or undone changes links it to a region that failed its audit, and not
/// both. Each restart of the files, however many were stopped before, gives exactly the records of the survivors, replayed one
/// after another in commit order with the answers that they got. It reports just the transactions that were rolled back and those
/// that were deleted, of the last epoch that has a record. So does a restart of the run itself, in memory and by its lines, and so
/// do restarts of the store that comes back, with every status. It is asked that the handed-in store tells its files, and that a
/// crash leaves of it only files of which a restart finds a history, or no database. All this is said of each of the files that a
/// crash may leave by itself, if no damage escapes from them, as without stray writes. Where the memory was given up before, none
/// may have escaped from the files that were kept: those that a `crash` chose, or that `size`, `open` and `restart` went on from.
/// Within `size`, `open` and `restart`, and where one of them failed, it is asked of files that a crash might have left before it;
/// or else of the files as they read there, too. A state is one between two commands. What was told before a command is kept at
/// each moment within it too. Within a round, of which a single `poke`, `audit` or `checkpoint` is one, the files came from a point
/// between its begin and its end, and of damage is asked what memory was there. Their log is a front of the log at the round's end,
/// whose records the round's lines tell. So it is of `gen`: at each moment within its `size`, its round, its `crash` and its
/// `restart`, and of the store that comes back. It writes no lines of its round; the answers that its clients got count. Nobody
/// pokes in it, so of damage nothing is asked.
pub fn acknowledged_commits_survive<V: Store>()
    ensures { AcknowledgedSurvive V.Store }
{}

/// What was told as `commit ok` is durable, with damage too. Take a run of `run` over a store as the headline asks for. At each state
/// and at each moment within a command, also within a round and within one that fails, the log of whatever a crash then leaves has
/// the commit of each transaction for which a line `commit ok` was told before, and of its calls just those that its client was told
/// of, with these answers. It survives there, or a chain of logged reads or undone changes links it to a region that failed its
/// audit, and not both. So it is of the store that comes back, with every status. Of stray writes nothing is asked, also where a
/// `crash`, a `restart`, an `open` or a `size` gives the memory up, or fails: none takes a record from the log. Only of what is run
/// behind an `open` or a `restart` that found a database it is asked that no audit of the memory given up before had passed a region
/// whose stray writes cancelled. Else an image with these was made current: the restart hands out words that the log doesn't say,
/// and a core with such words stands at no point of a run.
pub fn acknowledged_commits_stay<V: Store>()
    ensures { AcknowledgedStay V.Store }
{}

/// What lines acknowledge, in an example (`dali_transcripts::laws::a_conflict`): of two clients that insert one key the first dies,
/// and the second is refused, begins again and commits. The lines of these two acknowledge just the transaction of that second try,
/// with its insert, and the log of the example has committed it and no other, with just that call.
pub fn worked_lines_acknowledge_their_commit()
    ensures { WorkedLinesAcknowledge }
{}

/// What was committed is never lost. Let the store that was handed in tell its files. Let a crash leave of it only files of which a
/// restart finds a history that begins with the records of base, or no database, where base is empty. Then each state of a run has a
/// list of records: while the program is up at a point of a run, just those that are flushed, and while it is down some that every
/// crash leaves. The first is base, and each begins with the one before, over crashes and restarts too. Behind a round it is the
/// flushed part of the log that the round's lines tell, where each commit that was answered ok is. The store that comes back, with
/// every status, has all of the last state's; where no command was run, all of base. Of such files `dali_restart::restart` gives
/// exactly the serial replay of the surviving transactions, with the answers that they got (`gives`). No damage is to escape where a
/// command gives the memory up, from the files that were kept: those that a `crash` chose, or that `size`, `open` and `restart` went
/// on from. Of the store that comes back it is said of each of the files that a crash may leave by itself, if no damage escapes from
/// them. Of `gen` nothing is asked of damage.
pub fn runs_survive<V: Store>()
    ensures { RunsSurvive V.Store }
{}

/// Where no region was poked since the core was made, and the engine runs before the clean-up of dead transactions and behind it,
/// `show` prints just the records that the log is expected to leave. Those of its unflushed records are included, and `verify`
/// never says that they differ. So it is at each point of a run, and the states of a run are such points, as `runs_survive` says.
pub fn what_nobody_poked_is_as_expected<V: Store>()
    ensures shows { UnpokedShows V.Store }
    ensures verifies { UnpokedVerifies V.Store }
{}

/// An audit outside of a round names just the regions whose stray writes don't cancel. Let it answer from a point of a run. Then
/// its list has a region exactly if the exclusive-or of the masks that were written to it astray isn't 0, in whichever of its words
/// they were.
pub fn a_lone_audit_names_stray_writes<V: Store>()
    ensures { (precheck : Bool) → LoneAuditTells V.Store precheck }
{}

/// The lines tell all stray writes. At each state of a script's run, while the program is up, the masks that were written astray to
/// a region since the load are those that lines `poke ok` told of it, of rounds too. The region's `stray` is their exclusive-or,
/// and it was poked exactly if there is one. So a lone `audit` or `checkpoint` that answers has just the regions on its list, none
/// where it is clean, whose masks don't cancel. So it is as long as each restart found files of a log of this program, which they
/// fit, whether damage had escaped from it or not (`named`). And where no such line was told and the engine runs, `show` prints
/// just the records that the log is expected to leave, and `verify` finds no difference (`told`). For this a crash may leave of the
/// store that was handed in only files of this program. No damage is to escape where a command that was run gives the memory up, as
/// in `runs_survive`; at the end it may.
pub fn pokes_are_told<V: Store>()
    ensures named { (limit : ℕ) (precheck : Bool) → StraysAreNamed V.Store limit precheck }
    ensures told { (limit : ℕ) (precheck : Bool) → PokesAreTold V.Store limit precheck }
{}

/// A failure of the store shows in its count. Let a crash leave of the store that was handed in only files of this program, and let
/// no damage escape where a command gives the memory up. Then a run with the status `StoreFault` was ended by a command in which
/// the store's own count of faults rose, a lone `poke`, `audit` or `checkpoint` too. Or this count and the calls that the fuse
/// failed come to 2^64 - 1 or more. So it is of a generated run, whose round counts too; of the damage nothing is asked there.
pub fn store_faults_rise<V: Store>()
    ensures generated { GeneratorFaultsRise V.Store }
    ensures scripts { (limit : ℕ) (precheck : Bool) → StoreFaultsRise V.Store limit precheck }
{}

/// A run comes to its end. Let the words be `run`, with its options or without. Let the source have the bytes of a script,
/// 1,048,576 at most. The first command is to find what it asks for: `size` a store without a database, `open` one of whose log
/// every crash leaves a record. A crash may leave of the store only files of this program, and no damage escapes. No count of
/// faults rises: the source's and the sink's in the run, the store's in the command that ended it. Then the status is `Done`,
/// or memory was refused, or the record of a restart would be too long.
pub fn runs_complete<V: Store>()
    ensures { (limit : ℕ) (precheck : Bool) → RunsComplete V.Store limit precheck }
{}

/// What a generated run writes follows from its three numbers alone. Let the words be to generate, and let a crash leave of the store
/// only files of this program. With the status `Done` the sink took just the summary of what the round's transactions leave on an
/// empty map, each client's one after another, whatever their order among the clients was. Of damage nothing is asked, as no script of
/// `gen` pokes.
pub fn the_summary_follows_from_the_numbers<V: Store>()
    ensures { SummaryDepends V.Store }
{}

/// What is asked of damage within a round may be asked at its end. Take the files that a crash left at some moment within it. If
/// no damage escapes from them at the memory of the round's end, none escaped at the point of the round that they came from.
pub fn the_end_of_a_round_tells_its_damage<V: Store>()
    ensures { EndsTellRounds V.Store }
{}

/// Without stray writes no damage escapes. So it is at each point of a run where no region was poked since the core was made, and
/// at each moment within a round, if no region was poked at its end. So it is at each state of a run whose script has no `poke`,
/// alone or in a block, as that of `gen` has none. A crash may leave of the store that was handed in only files of this program.
pub fn runs_without_pokes_are_honest<V: Store>()
    ensures cores { CoresAreHonest V.Store }
    ensures rounds { RoundsAreHonest V.Store }
    ensures runs { RunsAreHonest V.Store }
{}
