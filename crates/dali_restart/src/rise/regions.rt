//! The regions of a core.
ghost use Rattle.std.specs.Prelude.{◌≡◌, map, IfOk};
ghost use Rattle.dali_region.specs.State.{loaded};

use dali_region::Region;
use std::alloc::{AllocError, Global};

// Regions with these words, in order: the codeword of each is made once.
pub(crate) fn load_all(alloc: Global, words: &[[u64; 64]]) -> Result<Vec<Region>, AllocError>
    ensures { IfOk result (λ regions. regions.items ≡ map loaded words.now) }
{
    let mut regions = Vec::with_capacity(alloc, words.len())?;
    for region in words {
        regions.push(Region::load(*region))?;
    }
    Ok(regions)
}
