//! The records that regions store, in order.
//!
//! A record is a key with a value: a live entry that the walk from the key's home comes to names a live cell with
//! this key and a value of 1 to 40 bytes. The words are read as they stand in memory, damaged ones too.
#![tactic(auto)]

ghost use Rattle.std.specs.Prelude.{◌≡◌, ◌==◌, ◌≤◌, ◌<◌, ◌++◌, length, IfOk, OnOk};
ghost use Rattle.std.specs.Option.{option_map, option_to_list};
ghost use Rattle.dali_geometry.specs.Places;
ghost use Rattle.dali_access.specs.Index.Entries;
ghost use Rattle.dali_access.specs.Index.Records;
ghost use Rattle.dali_listing.specs.Listing.{in_memory, pair_of, pairs_of, in_region, IsListing};

use dali_access::heap::value_words;
use dali_bytes::OutOfMemory;
use dali_geometry::Geometry;
use dali_region::Region;
use dali_words::{Value, unpack};
use std::alloc::Global;

/// The state of a live entry, and of a live cell.
const LIVE: u64 = 1;

/// How many entries an index region has.
const ENTRIES: u8 = 21;

/// A record: a key with its value. Records are ordered by key, and those of one key by value.
#[derive(Clone, Copy, PartialEq, Eq, PartialOrd, Ord, Drop)]
pub struct Listed {
    pub key: u64,
    pub value: Value,
}

// The words of a region.
fn words_at(regions: &[Region], region: u32) -> &[u64; 64]
    requires { region < length regions.now }
    ensures { result.now ≡ Records.words_of (in_memory regions.now) region }
{
    regions[region as usize].words()
}

// Whether the walk from the key's home comes to the region: in each region before it the overflow flag is raised.
fn is_reached(geometry: &Geometry, regions: &[Region], key: u64, region: u32) -> bool
    requires { length regions.now ≡ Places.regions geometry.now }
    ensures { result ≡ Records.is_reached geometry.now (in_memory regions.now) key region }
{
    let mut here = geometry.home(key);
    for _ in 0..geometry.index() {
        if here == region {
            return true;
        }
        if words_at(regions, here)[0] == 0 {
            return false;
        }
        here = geometry.next_index(here);
    }
    false
}

// Whether an entry is live.
fn is_live(words: &[u64; 64], entry: u8) -> bool
    requires { entry < 21 }
    ensures { result ≡ (Entries.state_of words.now entry == 1) }
{
    words[3 * entry as usize + 1] == LIVE
}

// The value of a live cell with this key.
fn value_of(words: &[u64; 64], cell: u8, key: u64) -> Option<Value>
    requires low { 1 ≤ cell }
    requires high { cell ≤ 7 }
    ensures { result ≡ Records.cell_value words.now cell key }
{
    let first = 8 * cell as usize;
    if words[first] != LIVE || words[first + 1] != key {
        return None;
    }
    unpack(words[first + 2], &value_words(words, cell))
}

// The record that an entry stands for.
fn stored(geometry: &Geometry, regions: &[Region], region: u32, entry: u8) -> Option<Listed>
    requires all { length regions.now ≡ Places.regions geometry.now }
    requires index { region < geometry.now.index }
    requires within { entry < 21 }
    ensures { option_map pair_of result ≡ Records.stored geometry.now (in_memory regions.now) region entry }
{
    let words = words_at(regions, region);
    if !is_live(words, entry) {
        return None;
    }
    let first = 3 * entry as usize;
    let key = words[first + 2];
    let (place, cell) = geometry.cell_of(words[first + 3])?;
    if !is_reached(geometry, regions, key, region) {
        return None;
    }
    let value = value_of(words_at(regions, place), cell, key)?;
    Some(Listed { key, value })
}

// Adds a record, where there is one.
fn add_row(row: Option<Listed>, rows: &mut Vec<Listed>) -> Result<(), OutOfMemory>
    ensures { OnOk result (rows.new.items ≡ rows.old.items ++ option_to_list row) }
{
    if let Some(row) = row {
        rows.push(row)?;
    }
    Ok(())
}

// Adds the records that the entries of a region stand for.
fn add_region(
    geometry: &Geometry,
    regions: &[Region],
    region: u32,
    rows: &mut Vec<Listed>,
) -> Result<(), OutOfMemory>
    requires all { length regions.now ≡ Places.regions geometry.now }
    requires index { region < geometry.now.index }
    ensures { OnOk result (pairs_of rows.new.items ≡ pairs_of rows.old.items ++ in_region geometry.now (in_memory regions.now) region) }
{
    for entry in 0..ENTRIES {
        add_row(stored(geometry, regions, region, entry), rows)?;
    }
    Ok(())
}

// The records by region and entry.
fn found(alloc: Global, geometry: &Geometry, regions: &[Region]) -> Result<Vec<Listed>, OutOfMemory>
    requires { length regions.now ≡ Places.regions geometry.now }
    ensures { IfOk result (λ rows. pairs_of rows.items ≡ Records.records geometry.now (in_memory regions.now)) }
{
    let mut rows = Vec::new(alloc);
    for region in 0..geometry.index() {
        add_region(geometry, regions, region, &mut rows)?;
    }
    Ok(rows)
}

/// The records that the words of the regions store, ascending by key, and those of one key by value, byte by byte, a
/// prefix first; each once. It takes memory for them.
pub fn records(
    alloc: Global,
    geometry: &Geometry,
    regions: &[Region],
) -> Result<Vec<Listed>, OutOfMemory>
    requires { length regions.now ≡ Places.regions geometry.now }
    ensures { IfOk result (λ rows. IsListing geometry.now (in_memory regions.now) rows.items) }
{
    let mut rows = found(alloc, geometry, regions)?;
    rows.sort_unstable();
    rows.dedup();
    Ok(rows)
}
