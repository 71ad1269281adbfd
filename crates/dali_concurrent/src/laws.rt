//! Laws over histories, each the contract of a function that does nothing.
ghost use Rattle.dali_concurrent.specs.Landing.{HistoryLands, StopStands, ToldIsWhole, CourseLands, StepLands, MeetsLands, TieLands};
ghost use Rattle.dali_concurrent.specs.Sorts.{SystemLands, BothLand, RegionLands, RegionStepsLand, FlushLands, FrameStays, FaultLands};
ghost use Rattle.dali_concurrent.specs.Sorts.{RecordIsRight, GrantIsRight, ClaimIsRight};
ghost use Rattle.dali_concurrent.specs.Cases.{BeginsLand, AnswersLand, CommitsLand, ClaimsLand, AuditBeginsLand, GrantsLand, YieldsLand, StraysLand};
ghost use Rattle.dali_concurrent.specs.Cases.{OperatesLand, TakesBackLand, FreesLand, EndsLand, DiesLand, GivesBackLand, RecoversLand};
ghost use Rattle.dali_concurrent.specs.Cases.{TakesLand, LookIsMade};
ghost use Rattle.dali_concurrent.specs.Kept.{SystemMeets, RegionMeets};
ghost use Rattle.dali_concurrent.specs.Holds.{HoldsAreTold, HoldIsOfActor, NoneIsLive, DeadIsNamed, StatesAreTold};
ghost use Rattle.dali_concurrent.specs.Holds.{NextIsFresh, NextMayBegin, ActorStays, LookStays};
ghost use Rattle.dali_concurrent.specs.Locking.{LocksAreTold, YieldsRight, FindsDeadRight};
ghost use Rattle.dali_concurrent.specs.Clients.{ClientMeets};
ghost use Rattle.dali_concurrent.specs.Amid.{OwnHoldIsSeen, NoneLiveIsSeen, OwnHoldStays, HeldRegionStays, OthersLog, OthersLeaveBe, DeadIsSeen, FreedStaysFree};
ghost use Rattle.dali_concurrent.specs.Closed.{RoundStands, NoneHolds};
ghost use Rattle.dali_concurrent.specs.Round.{RoundIsDone, RoundIsCut};
ghost use Rattle.dali_concurrent.specs.Calls.{FlushHolds, FaultHolds};
ghost use Rattle.dali_concurrent.specs.Stored.{VaultMeets, NoneInHandMeets, HandsOut};
ghost use Rattle.dali_concurrent.specs.Starts.{RoundStarts, VaultStarts};
ghost use Rattle.dali_concurrent.specs.Moments.{MomentsBegin, MomentsGoOn, MomentsMeet, CallAdds, FlushLeavesRight, HistoryLeavesRight};
ghost use Rattle.dali_concurrent.specs.Finish.{NotesFinish};
ghost use Rattle.dali_concurrent.specs.Audits.{PassesAreLines, PassFitsHere, PassesLand, AuditEndsLand, BeganIsHere};
ghost use Rattle.dali_concurrent.specs.Audits.{AuditOpens, AuditStaysOpen, OpenUntilPassed, OpenUntilItsEnd};
ghost use Rattle.dali_concurrent.specs.Leads.{OutsetBegins, RoundIsLed};

use dali_store::Store;

/// What each value keeps where a round begins: nothing was done.
pub fn each_value_starts()
    ensures { RoundStarts }
{}

/// Where each entry is a step of the core that those before it tell, it owes nothing more: the round is a course of a run, all
/// holds together, and each deed is right. The core that is told is a run there, and whole.
pub fn a_step_owes_nothing_more()
    ensures history { HistoryLands }
    ensures stop { StopStands }
    ensures whole { ToldIsWhole }
    ensures course { CourseLands }
    ensures step { StepLands }
    ensures meets { MeetsLands }
    ensures ties { TieLands }
{}

/// Each kind of entry is such a step, by what the value under the lock gives.
pub fn a_step_of_the_value_in_hand_lands()
    ensures system { SystemLands }
    ensures both { BothLand }
    ensures region { RegionLands }
    ensures steps { RegionStepsLand }
    ensures flush { FlushLands }
    ensures frame { FrameStays }
    ensures fault { FaultLands }
{}

/// What is right of a deed, by the system in hand.
pub fn what_the_system_in_hand_makes_right()
    ensures logged { RecordIsRight }
    ensures granted { GrantIsRight }
    ensures claimed { ClaimIsRight }
    ensures yields { YieldsRight }
    ensures dead { FindsDeadRight }
{}

/// Deeds of a round, each by what the value under the lock gives.
pub fn these_deeds_land()
    ensures begins { BeginsLand }
    ensures answers { AnswersLand }
    ensures commits { CommitsLand }
    ensures claims { ClaimsLand }
    ensures audits { AuditBeginsLand }
    ensures grants { GrantsLand }
    ensures yields { YieldsLand }
    ensures strays { StraysLand }
    ensures operates { OperatesLand }
    ensures back { TakesBackLand }
    ensures frees { FreesLand }
    ensures ends { EndsLand }
    ensures dies { DiesLand }
    ensures given { GivesBackLand }
    ensures recovers { RecoversLand }
    ensures takes { TakesLand }
    ensures looks { LookIsMade }
{}

/// Audits: each region is passed under its own lock; its entries tell what the audit has passed, and so its end lands.
pub fn an_audit_is_told()
    ensures began { BeganIsHere }
    ensures lines { PassesAreLines }
    ensures fits { PassFitsHere }
    ensures passes { PassesLand }
    ensures ends { AuditEndsLand }
{}

/// An audit is open from its begin on until its client ends it, and that isn't before each region was passed.
pub fn an_audit_is_open()
    ensures opens { AuditOpens }
    ensures stays { AuditStaysOpen }
    ensures passed { OpenUntilPassed }
    ensures ended { OpenUntilItsEnd }
{}

/// What a step may rely on that changes other values than those in hand.
pub fn what_others_leave_may_be_relied_on()
    ensures holds { HoldsAreTold }
    ensures actors { HoldIsOfActor }
    ensures live { NoneIsLive }
    ensures dead { DeadIsNamed }
    ensures states { StatesAreTold }
    ensures fresh { NextIsFresh }
    ensures begins { NextMayBegin }
    ensures locks { LocksAreTold }
    ensures stays { ActorStays }
    ensures looks { LookStays }
{}

/// Entries of others leave a value as told.
pub fn a_meeting_leaves_the_value()
    ensures system { SystemMeets }
    ensures region { RegionMeets }
    ensures client { ClientMeets }
{}

/// What a client amid a call may rely on that has only its own note.
pub fn a_client_amid_a_call_may_rely_on_its_own()
    ensures hold { OwnHoldIsSeen }
    ensures none { NoneLiveIsSeen }
    ensures stays { OwnHoldStays }
    ensures region { HeldRegionStays }
    ensures others { OthersLog }
    ensures dead { DeadIsSeen }
    ensures freed { FreedStaysFree }
{}

/// What others leave of the core to a transaction that it acts for: what `dali_calls` asks of steps between two of a call's own. So a
/// plan stands where it stood, and its client may call where it might.
pub fn others_leave_its_transaction_be()
    ensures { OthersLeaveBe }
{}

/// Once every note has seen all of its own entries the values stand behind a run, whole; no client that is alive has latched a
/// region.
pub fn a_closed_history_stands()
    ensures stands { RoundStands }
    ensures holds { NoneHolds }
{}

/// A closed round is what a round is to promise, where all clients are done, and where it was cut.
pub fn a_closed_round_is_a_round()
    ensures done { RoundIsDone }
    ensures cut { RoundIsCut }
{}

/// The history that the notes leave is closed: each number's note has seen all of its own entries.
pub fn the_notes_finish()
    ensures { NotesFinish }
{}

/// The vault is where the history has come to, and what is read of the next image is as far as the checkpoint's stage tells: at the
/// start, behind entries of others, and behind its own flush or a fault in one.
pub fn the_vault_is_where_the_history_is<V: Store>()
    ensures starts { VaultStarts V.Store }
    ensures meets { VaultMeets V.Store }
    ensures taken { NoneInHandMeets V.Store }
    ensures flush { FlushHolds V.Store }
    ensures fault { FaultHolds V.Store }
{}

/// A closed round hands out a core that stands, with its image files while the vault runs.
pub fn a_closed_round_hands_out_its_core<V: Store>()
    ensures { HandsOut V.Store }
{}

/// What a crash at any moment since the round began leaves is right between where it began and where the history has come; so
/// it stays while others go on, and behind a call of the vault's own; and once all is closed it is what a round promises.
pub fn a_crash_at_any_moment_is_right<V: Store>()
    ensures begins { MomentsBegin V.Store }
    ensures further { MomentsGoOn V.Store }
    ensures meets { MomentsMeet V.Store }
    ensures call { CallAdds V.Store }
    ensures flush { FlushLeavesRight V.Store }
    ensures closed { HistoryLeavesRight V.Store }
{}

/// A round in threads promises what a round promises, wherever it began: from the notes that were finished, and the values that
/// its caller holds, each as told by what its note has seen.
pub fn a_round_in_threads_is_a_round<V: Store>()
    ensures begins { OutsetBegins V.Store }
    ensures leads { RoundIsLed V.Store }
{}
