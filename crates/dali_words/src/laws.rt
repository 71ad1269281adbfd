//! Laws of values and of effects, each the contract of a function that does nothing.

ghost use Rattle.dali_words.specs.Laws.{UnpacksWhatWasPacked, WritesOnce, ApartCommute};

/// A value comes back from the five words that it was packed into.
pub fn unpacks_what_was_packed()
    ensures { UnpacksWhatWasPacked }
{}

/// Writing new words over a set of words twice is writing them once.
pub fn writing_twice_is_writing_once()
    ensures { WritesOnce }
{}

/// Two effects that depend on what they read alone, and of which neither writes a word that the other
/// reads, do the same in either order.
pub fn effects_apart_commute()
    ensures { ApartCommute }
{}
