//! Laws of rounds, each the contract of a function that does nothing.
ghost use Rattle.dali_locked.specs.Begun.{homed};
ghost use Rattle.dali_locked.specs.Beginnings.{RoundEndsSo, ValuesBegin};
ghost use Rattle.dali_locked.specs.Endings.{RoundIsToEnd};
ghost use Rattle.dali_locked.specs.Locking.{ClientBegins, NumbersAscend, PassesAreKnown, SeenStays};
ghost use Rattle.dali_locked.specs.Refusing.{PlanRests, PlanTurns};
ghost use Rattle.dali_locked.specs.Vaults.{AcknowledgedIsHeld, VaultBegins};

use crate::history::{Beginning, Home};
use crate::vault::VaultBeginning;
use dali_store::Store;

/// Where a round begins with a core, its regions and its system are as told by the history that has no entry yet.
pub fn a_round_begins<B: Beginning, V: Store>()
    ensures { ValuesBegin V.Store B.begun }
{}

/// So is its vault, where the round begins with no other one.
pub fn a_vault_begins<B: Beginning + VaultBeginning<V>, V: Store>()
    ensures { VaultBegins V.Store B.began B.begun }
{}

/// Where the notes are finished, and the values that are handed back are as told by what their notes have seen, the round is what a round
/// is to promise of the core that it was given.
pub fn a_round_ends<B: Beginning, V: Store>()
    ensures { RoundEndsSo V.Store B.begun }
{}

/// What `gather` leaves is as a round ends, where each client that was handed back knows how it stands.
pub fn a_round_is_to_end<B: Beginning + VaultBeginning<V>, H: Home, V: Store>()
    ensures { RoundIsToEnd V.Store B.began (homed H.table B.begun) }
{}

/// A client whose plan is refused drives it back, and where nothing is left to be taken back it may call again.
pub fn a_refused_plan_turns<B: Beginning>()
    ensures turns { PlanTurns B.begun }
    ensures rests { PlanRests B.begun }
{}

/// What was acknowledged stands in the log of each disk that a crash may leave at any later time.
pub fn what_was_acknowledged_is_held<V: Store>()
    ensures { AcknowledgedIsHeld V.Store }
{}

/// A client that has done nothing has no transaction, no claim and no checkpoint under way.
pub fn a_client_begins<B: Beginning>()
    ensures { ClientBegins B.begun }
{}

/// What a client has seen of the log and of passes it knows ever after, and so does who meets it; the numbers of its records ascend; and
/// who has seen each pass of an audit may end it.
pub fn what_was_seen_is_known<B: Beginning>()
    ensures stays { SeenStays B.begun }
    ensures ascend { NumbersAscend B.begun }
    ensures passes { PassesAreKnown B.begun }
{}
