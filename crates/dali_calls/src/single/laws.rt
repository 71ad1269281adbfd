//! Laws of what these calls ask for, and of what they leave to other transactions, each the contract of a function that does nothing.
ghost use Rattle.dali_calls.specs.Single.Single.{RunCovers};
ghost use Rattle.dali_calls.specs.Single.Others.{OwnStepStandsAside, OwnStepsStandAside, SettlingWaits, CommittedWaits};

/// Each step of a transaction's own, and so each list of them, leaves every other transaction its row, its locks, the
/// regions that it has latched, and where the rules of the log have it.
pub fn others_are_left_alone()
    ensures step { OwnStepStandsAside }
    ensures steps { OwnStepsStandAside }
{}

/// At each point of a run what a transaction would take back may be performed: the calls that end it ask for no more of its
/// undos.
pub fn the_undos_of_a_run_are_covered()
    ensures { RunCovers }
{}

/// What a committed transaction may free, and the memory that it is promised for that, stay whatever the calls of another
/// one do, and so does where the rules of the log have it behind the other's own steps. So `commit`, calls and ends of
/// others, and `settle` may come in this order.
pub fn a_settling_may_wait()
    ensures settling { SettlingWaits }
    ensures committed { CommittedWaits }
{}
