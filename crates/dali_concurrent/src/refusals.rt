//! Laws of what a client is refused, and of what it knows of its own transactions; each the contract of a function that does nothing.
ghost use Rattle.dali_concurrent.specs.Own.{OnlyStarts, OnlyBegins, OnlyEnds, OnlyClaims, OnlyLets, OnlyStays, OnlySeen, YieldsByOwn, GivesBackRight, RecoversByOwn};
ghost use Rattle.dali_concurrent.specs.Refused.{RefusalLands, StoppedFor, FullFor, DamagedFor, UnderWayFor};

/// A client that begins one transaction at a time, and claims one at a time, knows which it has: its own entries tell it, and
/// entries of others leave it.
pub fn a_client_knows_its_own_transactions()
    ensures starts { OnlyStarts }
    ensures begins { OnlyBegins }
    ensures ends { OnlyEnds }
    ensures claims { OnlyClaims }
    ensures lets { OnlyLets }
    ensures stays { OnlyStays }
    ensures seen { OnlySeen }
{}

/// So a request that is refused is right by the system in hand, and so is a claim that is given back; and who has claimed a
/// transaction takes back the operation in which its client died, by the region in hand.
pub fn what_a_client_has_makes_right()
    ensures yields { YieldsByOwn }
    ensures given { GivesBackRight }
    ensures recovers { RecoversByOwn }
{}

/// Each refusal lands, by the value in hand that gives its cause.
pub fn refusals_land()
    ensures lands { RefusalLands }
    ensures stopped { StoppedFor }
    ensures full { FullFor }
    ensures damaged { DamagedFor }
    ensures under_way { UnderWayFor }
{}
