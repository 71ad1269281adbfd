//! How much of the regions is in use.
ghost use Rattle.std.specs.Prelude.{◌≡◌, ◌≤◌, ◌<◌, length};
ghost use Rattle.dali_geometry.specs.Places;
ghost use Rattle.dali_access.specs.Index.Records.{words_of};
ghost use Rattle.dali_listing.specs.Listing.{in_memory};
ghost use Rattle.dali_inspect.specs.Counts;

use dali_geometry::Geometry;
use dali_region::Region;

/// The state of a live cell, and of a live entry.
const LIVE: u64 = 1;

/// How many cells a heap region has.
const CELLS: usize = 7;

/// How many entries an index region has.
const ENTRIES: usize = 21;

// The words of a region.
fn words_at(regions: &[Region], region: u32) -> &[u64; 64]
    requires { region < length regions.now }
    ensures { result.now ≡ words_of (in_memory regions.now) region }
{
    regions[region as usize].words()
}

// The live cells of a heap region.
fn live_cells(words: &[u64; 64]) -> u64
    ensures count { result ≡ Counts.live_cells words.now }
    ensures few { result ≤ 7 }
{
    let mut count = 0;
    for number in 0..CELLS {
        count += u64::from(words[8 * (number + 1)] == LIVE);
    }
    count
}

// The live entries of an index region.
fn live_entries(words: &[u64; 64]) -> u64
    ensures count { result ≡ Counts.live_entries words.now }
    ensures few { result ≤ 21 }
{
    let mut count = 0;
    for entry in 0..ENTRIES {
        count += u64::from(words[3 * entry + 1] == LIVE);
    }
    count
}

/// The live cells of all heap regions.
pub fn cells_in_use(geometry: &Geometry, regions: &[Region]) -> u64
    requires { length regions.now ≡ Places.regions geometry.now }
    ensures { result ≡ Counts.cells_in_use geometry.now (in_memory regions.now) }
{
    let mut count = 0;
    for number in 0..geometry.heap() {
        count += live_cells(words_at(regions, geometry.index() + number));
    }
    count
}

/// The live entries of all index regions.
pub fn entries_in_use(geometry: &Geometry, regions: &[Region]) -> u64
    requires { length regions.now ≡ Places.regions geometry.now }
    ensures { result ≡ Counts.entries_in_use geometry.now (in_memory regions.now) }
{
    let mut count = 0;
    for region in 0..geometry.index() {
        count += live_entries(words_at(regions, region));
    }
    count
}
