//! Regions that are updated and checked.
ghost use Rattle.std.specs.Prelude.{◌≡◌, ◌<◌, length, None, OnOk};
ghost use Rattle.dali_bench.specs.Regions.{worked};

use crate::keys::{below, mix};
use crate::timing::Timing;
use anyhow::{Result, ensure};
use dali_region::{LatchError, Region};
use dali_words::bit;
use std::alloc::{AllocError, Global};
use std::rt::Clock;
use std::time::Instant;

/// So many regions have 64 MiB of words.
pub const REGIONS: u32 = 131_072;

const WORDS: u64 = 64;

fn words_of(region: u32) -> [u64; 64] {
    let first = region as u64 * WORDS;
    let mut words = [0; 64];
    for word in 0..64u8 {
        words[word as usize] = first + word as u64;
    }
    words
}

fn load(alloc: Global, count: u32) -> Result<Vec<Region>, AllocError> {
    let mut regions = Vec::new(alloc);
    for region in 0..count {
        regions.push(Region::load(words_of(region)))?;
    }
    Ok(regions)
}

// A check number with these words in it.
fn mix_words(check: u64, words: &[u64]) -> u64 {
    let mut mixed = check;
    for word in words {
        mixed = mix(mixed, *word);
    }
    mixed
}

// The check number of the words of all regions.
fn words_check(regions: &[Region]) -> u64 {
    let mut check = 0;
    for region in regions {
        check = mix_words(check, region.words());
    }
    check
}

/// An operation of a transaction that writes one word.
pub fn update_word(region: &mut Region, txn: u64, word: u8) -> Result<(), LatchError>
    requires { word < 64 }
    ensures done { OnOk result (region.new ≡ worked txn word region.old) }
    ensures free { OnOk result (region.old.hold ≡ None) }
{
    region.latch(txn, false)?;
    region.note_reads(bit(word));
    region.update(word, txn);
    region.touch();
    Ok(())
}

// The update with this number, of a word of one of the regions.
fn update_at(regions: &mut [Region], place: u64) -> Result<(), LatchError>
    requires { 0 < length regions.old }
{
    let region = below(regions.len() as u64, place) as usize;
    update_word(&mut regions[region], place, (place % WORDS) as u8)?;
    Ok(())
}

// So many updates.
fn update_times(regions: &mut [Region], count: u32) -> Result<(), LatchError>
    requires { 0 < length regions.old }
{
    for place in 0..count as u64 {
        update_at(regions, place)?;
    }
    Ok(())
}

/// One word of some region is updated, so many times.
pub fn update(clock: &impl Clock, alloc: Global, count: u32, regions: u32) -> Result<Timing> {
    let mut regions = load(alloc, regions)?;
    ensure!(!regions.is_empty(), "no regions");
    let start = Instant::now(clock)?;
    update_times(&mut regions, count)?;
    let timing = Timing::since(clock, start, count as u64, "updates")?;
    Ok(timing.checked(words_check(&regions)))
}

// Checks all regions. It answers the masks by which they are damaged, or-ed, and how many were checked.
fn check_all(regions: &mut [Region]) -> (u64, u64) {
    let many = regions.len() as u64;
    let mut strays = 0;
    for region in regions.iter_mut() {
        strays |= region.check();
    }
    (strays, many)
}

/// The codewords of all regions are compared with their words, so many times.
pub fn check(clock: &impl Clock, alloc: Global, passes: u32, regions: u32) -> Result<Timing> {
    let mut all = load(alloc, regions)?;
    let start = Instant::now(clock)?;
    let mut strays = 0;
    let mut checked: u64 = 0;
    for _ in 0..passes {
        let (found, many) = check_all(&mut all);
        strays |= found;
        checked = checked.saturating_add(many);
    }
    let bytes = checked.saturating_mul(8 * WORDS);
    let timing = Timing::since(clock, start, bytes, "bytes")?;
    ensure!(strays == 0, "a region is damaged");
    Ok(timing.checked(words_check(&all)))
}
