//! Laws of the geometry, each the contract of a function that does nothing.

ghost use Rattle.dali_geometry.specs.Laws.{IsOfFormattedRegions};

/// Each region of the formatted image has the words that `formatted` gives.
pub fn the_image_is_of_formatted_regions()
    ensures { IsOfFormattedRegions }
{}
