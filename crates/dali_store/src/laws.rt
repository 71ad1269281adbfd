//! Laws of every store, each the contract of a function that does nothing.
ghost use Rattle.std.specs.Prelude.{Bool, IsTrue};
ghost use Rattle.dali_store.specs.Laws.{ARunGoesOn};
ghost use Rattle.dali_store.specs.Store.{Files};

use crate::Store;

/// A crash at any moment of a run of calls. Let each crash since the start leave files that pass some test, and let a
/// crash within each further call and after it leave only such files. Then each crash since the start still does.
pub fn runs_go_on<V: Store>()
    ensures { (test : Files → Bool) → ARunGoesOn V.moment V.left_since (λ c. IsTrue (test c)) }
{}
