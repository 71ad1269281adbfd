//! Histories that may not be, and some that may.
ghost use Rattle.dali_concurrent.specs.Wrong.{Unsigned, Unlatched, Unaudited, Unfit, Unstored, Untold};
ghost use Rattle.dali_concurrent.specs.Worked.{WorkedHistory};
ghost use Rattle.dali_concurrent.specs.WorkedCheckpoint.{WorkedCheckpoint};
ghost use Rattle.dali_concurrent.specs.Idle.{RoundMayBegin, IdleRoundEnds};

use dali_store::Store;

/// Wrong histories are refused: behind one whose entries all follow no such line does.
pub fn wrong_histories_are_refused()
    ensures unsigned { Unsigned }
    ensures unlatched { Unlatched }
    ensures unaudited { Unaudited }
    ensures unfit { Unfit }
    ensures unstored { Unstored }
    ensures untold { Untold }
{}

/// A worked history: the rules can be met.
pub fn a_history_follows()
    ensures { WorkedHistory }
{}

/// A worked checkpoint, beside another client.
pub fn a_checkpoint_follows()
    ensures { WorkedCheckpoint }
{}

/// A round may begin where the core stands as between two rounds, and one in which nobody does anything ends as the closing asks.
pub fn an_idle_round_ends<V: Store>()
    ensures begins { RoundMayBegin V.Store }
    ensures ends { IdleRoundEnds V.Store }
{}
