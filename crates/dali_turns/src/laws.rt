//! Laws of the steps of clients over any store, each the contract of a function that does nothing.
ghost use Rattle.dali_turns.specs.Others.{OthersFit};

use dali_store::Store;

/// A client that fits a world of a round fits it behind a step of another client.
pub fn a_step_leaves_the_others<V: Store>()
    ensures { OthersFit V.Store }
{}
