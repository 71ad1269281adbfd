//! The regions of a database that was just made.
ghost use Rattle.std.specs.Prelude.{◌≡◌, map, IfOk};
ghost use Rattle.dali_geometry.specs.Places.{formatted_image};
ghost use Rattle.dali_region.specs.State.{loaded};

use dali_geometry::Geometry;
use dali_region::Region;
use std::alloc::{AllocError, Global};

// The words of the formatted regions, in order.
pub(crate) fn formatted_words(
    alloc: Global,
    geometry: &Geometry,
) -> Result<Vec<[u64; 64]>, AllocError>
    ensures { IfOk result (λ words. words.items ≡ formatted_image geometry.now) }
{
    let count = geometry.regions();
    let mut words = Vec::with_capacity(alloc, count as usize)?;
    for region in 0..count {
        words.push(geometry.formatted(region))?;
    }
    Ok(words)
}

// The formatted regions, in order.
pub(crate) fn formatted(alloc: Global, geometry: &Geometry) -> Result<Vec<Region>, AllocError>
    ensures { IfOk result (λ regions. regions.items ≡ map loaded (formatted_image geometry.now)) }
{
    let count = geometry.regions();
    let mut regions = Vec::with_capacity(alloc, count as usize)?;
    for region in 0..count {
        regions.push(Region::load(geometry.formatted(region)))?;
    }
    Ok(regions)
}
