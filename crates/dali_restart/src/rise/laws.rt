//! Laws of a core over a log that a restart has renewed, each the contract of a function that does nothing.
ghost use Rattle.dali_restart.specs.Rise.Behind.{RestsBehind, BeginsBehind};

use dali_store::Store;

/// The log that a restart has renewed is at rest, with the words that the restart came to. It has one record more than the
/// restart found, the restart's own, whose length adds to the weight; the next transaction has the same number; and the
/// current image is the next one.
pub fn a_renewed_log_is_at_rest()
    ensures { RestsBehind }
{}

/// So a run begins with the core that rises over a store where each disk spells files with the image of the restart, as
/// behind a renewal.
pub fn a_run_begins_behind_a_renewal<V: Store>()
    ensures { BeginsBehind V.Store }
{}
