//! What the calls of a checkpoint are made of.
ghost use Rattle.std.specs.Prelude.{◌≡◌, ◌≤◌, ◌<◌, ◌+◌, ◌-◌, ◌*◌, ◌^◌, true, false, Err, OnOk, OnErr, IfSome, IfOk, Ok, length, drop, flat_map, vec_capacity};
ghost use Rattle.dali_record.specs.Spelling.{words_bytes};
ghost use Rattle.dali_region.specs.Answers.{cleaned};
ghost use Rattle.dali_store.specs.Calls.{fewer, one_less};
ghost use Rattle.dali_store.specs.Store.{file_of, LeavesOnly};
ghost use Rattle.dali_runs.specs.Steps.{taken, store_stopped};
ghost use Rattle.dali_log.specs.Anchors.{MayHaveMoved};
ghost use Rattle.dali_crash.specs.Disks.Disks.{image_name};
ghost use Rattle.dali_crash.specs.Disks.Places.{place_of};
ghost use Rattle.dali_crash.specs.Checkpoints;
ghost use Rattle.dali_core.specs.Steps.Said.{TornFrom, HasWritten, WriteHasFailed, HasSynced, SyncHasFailed, HasTurned, TurnHasFailed};
ghost use Rattle.dali_core.specs.Cores.{HoldsPlaces};
ghost use Rattle.dali_core.specs.Flushed.{FlushesFrame, FailsFrame};
ghost use Rattle.dali_core.specs.Moments.{flush_calls, FlushLeaves, Within};
ghost use Rattle.dali_checkpoint.specs.Kept;
ghost use Rattle.dali_checkpoint.specs.Done.{Reaches};
ghost use Rattle.dali_core.specs.Cores.{IsNoShorter};
ghost use Rattle.dali_checkpoint.specs.Runs.{is_first_dirty, run_of, change, bytes_between};
ghost use Rattle.dali_checkpoint.specs.declared.error.CheckpointError.TheVariants.{Fault};
ghost use Rattle.dali_core.specs.declared.vault.error.VaultError.TheVariants.{Fault as StoreFault, Stopped as VaultStopped};

use crate::error::CheckpointError;
use dali_bytes::put;
use dali_core::steps::called;
use dali_core::vault::{Vault, VaultError};
use dali_core::write_out;
use dali_image::{region_bytes, regions_bytes};
use dali_region::{Region, Side};
use dali_runs::Cause;
use dali_store::Store;
use dali_system::System;
use std::alloc::Global;

// How many regions are written at once, at most: 64 KiB.
pub const RUN: usize = 128;

// How many bytes the words of a region have.
pub const REGION: usize = 512;

// The side of the image with this number.
pub fn side_of(number: u64) -> Side
    ensures { result ≡ Checkpoints.side_of number }
{
    if number % 2 == 1 { Side::A } else { Side::B }
}

// Why the engine is stopped, if it is.
pub fn cause_of<V: Store>(system: &System, vault: &Vault<V>) -> Option<Cause>
    ensures { result ≡ Kept.cause_of system.now.state vault.now }
{
    match system.stopped() {
        Some(cause) => Some(cause),
        None if vault.stopped() => Some(Cause::Store),
        None => None,
    }
}

// Flushes all records. After a fault the system stops.
pub fn flush<V: Store>(
    alloc: Global,
    system: &mut System,
    vault: &mut Vault<V>,
) -> Result<(), CheckpointError>
    requires small { vault.old.end < 2 ^ 62 }
    requires runs { vault.old.stopped ≡ false }
    ensures ok { OnOk result ((system.new ≡ record system.old { state = taken system.old.state }) × FlushesFrame V.Store system.old.state vault.old vault.new) }
    ensures fault { OnErr result ((result ≡ Err Fault) × (system.new ≡ record system.old { state = store_stopped (taken system.old.state) }) × FailsFrame V.Store system.old.state vault.old vault.new) }
    ensures files { IsNoShorter V.told vault.old vault.new }
    ensures any_moment { Within V.told V.moment V.left_since vault.old vault.new (FlushLeaves V.may_leave system.old.state vault.old) }
    ensures grows { vault.new.end ≤ vault.old.end + 2 ^ 31 }
    ensures calls { OnOk result (V.lets_pass vault.new.store ≡ fewer (flush_calls system.old.state) (V.lets_pass vault.old.store)) }
{
    match write_out(system, vault, alloc) {
        Ok(_) => Ok(()),
        Err(_) => {
            system.stop();
            Err(CheckpointError::Fault)
        }
    }
}

// Writes to the image of this side. After a fault the system stops.
pub fn write<V: Store>(
    system: &mut System,
    vault: &mut Vault<V>,
    side: Side,
    at: u64,
    bytes: &[u8],
) -> Result<(), CheckpointError>
    requires inside { IfSome (V.told vault.old.store) (λ fs. at ≤ length (file_of (image_name side) fs)) }
    requires runs { vault.old.stopped ≡ false }
    ensures ok { OnOk result ((system.new ≡ system.old) × HasWritten V.Store vault.old (image_name side) at bytes.now vault.new) }
    ensures fault { OnErr result ((result ≡ Err Fault) × (system.new ≡ record system.old { state = store_stopped system.old.state }) × WriteHasFailed V.Store vault.old (image_name side) at (length bytes.now) vault.new) }
    ensures end { vault.new.end ≡ vault.old.end }
    ensures files { IsNoShorter V.told vault.old vault.new }
    ensures any_moment { LeavesOnly V.moment V.left_since vault.old.store vault.new.store (TornFrom (V.may_leave vault.old.store) (image_name side) at (length bytes.now)) }
    ensures calls { V.lets_pass vault.new.store ≡ one_less (V.lets_pass vault.old.store) }
{
    match called::image_write(vault, side, at, bytes) {
        Ok(()) => Ok(()),
        Err(_) => {
            system.stop();
            Err(CheckpointError::Fault)
        }
    }
}

// Syncs the image of this side. After a fault the system stops.
pub fn sync<V: Store>(
    system: &mut System,
    vault: &mut Vault<V>,
    side: Side,
) -> Result<(), CheckpointError>
    requires runs { vault.old.stopped ≡ false }
    ensures ok { OnOk result ((system.new ≡ system.old) × HasSynced V.Store vault.old (image_name side) vault.new) }
    ensures fault { OnErr result ((result ≡ Err Fault) × (system.new ≡ record system.old { state = store_stopped system.old.state }) × SyncHasFailed V.Store vault.old vault.new) }
    ensures end { vault.new.end ≡ vault.old.end }
    ensures files { IsNoShorter V.told vault.old vault.new }
    ensures any_moment { LeavesOnly V.moment V.left_since vault.old.store vault.new.store (V.may_leave vault.old.store) }
    ensures calls { V.lets_pass vault.new.store ≡ one_less (V.lets_pass vault.old.store) }
{
    match called::image_sync(vault, side) {
        Ok(()) => Ok(()),
        Err(_) => {
            system.stop();
            Err(CheckpointError::Fault)
        }
    }
}

// Moves the anchor. After a fault the system stops.
pub fn turn<V: Store>(system: &mut System, vault: &mut Vault<V>) -> Result<(), CheckpointError>
    requires small { vault.old.current < 2 ^ 62 }
    requires runs { vault.old.stopped ≡ false }
    ensures ok { OnOk result ((system.new ≡ system.old) × HasTurned V.Store vault.old vault.new) }
    ensures fault { OnErr result ((result ≡ Err Fault) × (system.new ≡ record system.old { state = store_stopped system.old.state }) × TurnHasFailed V.Store vault.old vault.new) }
    ensures end { vault.new.end ≡ vault.old.end }
    ensures files { IsNoShorter V.told vault.old vault.new }
    ensures any_moment { Within V.told V.moment V.left_since vault.old vault.new (MayHaveMoved (V.may_leave vault.old.store) vault.old.current) }
    ensures calls { OnOk result (V.lets_pass vault.new.store ≡ fewer 4 (V.lets_pass vault.old.store)) }
{
    match called::move_anchor(vault) {
        Ok(()) => Ok(()),
        Err(_) => {
            system.stop();
            Err(CheckpointError::Fault)
        }
    }
}

// Writes the words of a region to the image of this side, without the updates of an open operation, and clears its flag.
pub fn write_region<V: Store>(
    vault: &mut Vault<V>,
    side: Side,
    number: u32,
    region: &mut Region,
) -> Result<(), VaultError>
    requires inside { Reaches V.told side number vault.old }
    ensures stopped { vault.old.stopped ≡ true → (result ≡ Err VaultStopped) × (vault.new ≡ vault.old) }
    ensures ok { OnOk result ((region.new ≡ cleaned side region.old) × HasWritten V.Store vault.old (image_name side) (place_of number) (words_bytes region.old.back) vault.new) }
    ensures reaches { OnOk result (Reaches V.told side (number + 1) vault.new) }
    ensures same { OnErr result (region.new ≡ region.old) }
    ensures fault { vault.old.stopped ≡ false → OnErr result ((result ≡ Err StoreFault) × WriteHasFailed V.Store vault.old (image_name side) (place_of number) (length (words_bytes region.old.back)) vault.new) }
    ensures end { vault.new.end ≡ vault.old.end }
    ensures files { IsNoShorter V.told vault.old vault.new }
    ensures any_moment { vault.old.stopped ≡ false → LeavesOnly V.moment V.left_since vault.old.store vault.new.store (TornFrom (V.may_leave vault.old.store) (image_name side) (place_of number) (length (words_bytes region.old.back))) }
    ensures calls { vault.old.stopped ≡ false → V.lets_pass vault.new.store ≡ one_less (V.lets_pass vault.old.store) }
{
    let mut words = [0; 64];
    region.copy_settled(&mut words);
    called::image_write(
        vault,
        side,
        64 + 512 * u64::from(number),
        &region_bytes(&words),
    )?;
    region.clear_dirty(side);
    Ok(())
}

// Where the run of regions ends that begins with the one of this number: they have its flag for this side.
pub fn run_end(regions: &[Region], from: usize, side: Side) -> usize
    requires within { from < length regions.now }
    ensures end { result ≡ from + run_of side (drop from regions.now) }
    ensures further { from < result }
    ensures within { result ≤ length regions.now }
    ensures few { result ≤ from + 128 }
{
    let flag = regions[from].dirty(side);
    let most = (regions.len() - from).min(RUN);
    for count in 1..most {
        if regions[from + count].dirty(side) != flag {
            return from + count;
        }
    }
    from + most
}

// Fills a buffer that has room for a run with the words of these regions, without the updates of open operations.
fn gather(regions: &[Region], from: usize, until: usize, buffer: &mut Vec<u8>)
    requires order { from ≤ until }
    requires few { until ≤ from + 128 }
    requires within { until ≤ length regions.now }
    requires room { 65536 ≤ vec_capacity buffer.old }
    ensures bytes { buffer.new.items ≡ bytes_between from (until - from) regions.now }
    ensures size { length buffer.new.items ≡ 512 * (until - from) }
    ensures room { 65536 ≤ vec_capacity buffer.new }
{
    buffer.clear();
    for number in from..until {
        let mut words = [0; 64];
        regions[number].copy_settled(&mut words);
        put(buffer, &region_bytes(&words)).unwrap();
    }
}

// Clears the flags of these regions for this side.
fn clear_all(regions: &mut [Region], from: usize, until: usize, side: Side)
    requires order { from ≤ until }
    requires within { until ≤ length regions.old }
    ensures { regions.new ≡ change (cleaned side) from (until - from) regions.old }
{
    for number in from..until {
        regions[number].clear_dirty(side);
    }
}

// Writes the words of these regions to the image of this side, without the updates of open operations, by one call of the
// store, and clears their flags.
pub fn write_run<V: Store>(
    vault: &mut Vault<V>,
    side: Side,
    from: usize,
    until: usize,
    regions: &mut [Region],
    buffer: &mut Vec<u8>,
) -> Result<(), VaultError>
    requires order { from ≤ until }
    requires few { (until ≤ from + 128) × (length regions.old < 2 ^ 32) }
    requires within { until ≤ length regions.old }
    requires room { 65536 ≤ vec_capacity buffer.old }
    requires inside { Reaches V.told side from vault.old }
    ensures room { 65536 ≤ vec_capacity buffer.new }
    ensures stopped { vault.old.stopped ≡ true → (result ≡ Err VaultStopped) × (vault.new ≡ vault.old) }
    ensures ok { OnOk result (regions.new ≡ change (cleaned side) from (until - from) regions.old) }
    ensures written { OnOk result (HasWritten V.Store vault.old (image_name side) (place_of from) (bytes_between from (until - from) regions.old) vault.new) }
    ensures reaches { OnOk result (Reaches V.told side until vault.new) }
    ensures same { OnErr result (regions.new ≡ regions.old) }
    ensures fault { vault.old.stopped ≡ false → OnErr result ((result ≡ Err StoreFault) × WriteHasFailed V.Store vault.old (image_name side) (place_of from) (length (bytes_between from (until - from) regions.old)) vault.new) }
    ensures end { vault.new.end ≡ vault.old.end }
    ensures files { IsNoShorter V.told vault.old vault.new }
    ensures any_moment { vault.old.stopped ≡ false → LeavesOnly V.moment V.left_since vault.old.store vault.new.store (TornFrom (V.may_leave vault.old.store) (image_name side) (place_of from) (length (bytes_between from (until - from) regions.old))) }
    ensures calls { vault.old.stopped ≡ false → V.lets_pass vault.new.store ≡ one_less (V.lets_pass vault.old.store) }
{
    gather(regions, from, until, buffer);
    called::image_write(vault, side, 64 + 512 * from as u64, buffer)?;
    clear_all(regions, from, until, side);
    Ok(())
}

// Writes these words, for which the buffer has room, to the image of this side in the places of the regions from this one on,
// by one call of the store.
pub fn write_words<V: Store>(
    vault: &mut Vault<V>,
    side: Side,
    from: u32,
    words: &[[u64; 64]],
    buffer: &mut Vec<u8>,
) -> Result<(), VaultError>
    requires few { length words.now ≤ 128 }
    requires room { 65536 ≤ vec_capacity buffer.old }
    requires inside { Reaches V.told side from vault.old }
    ensures room { 65536 ≤ vec_capacity buffer.new }
    ensures stopped { vault.old.stopped ≡ true → (result ≡ Err VaultStopped) × (vault.new ≡ vault.old) }
    ensures written { OnOk result (HasWritten V.Store vault.old (image_name side) (place_of from) (flat_map words_bytes words.now) vault.new) }
    ensures reaches { OnOk result (Reaches V.told side (from + length words.now) vault.new) }
    ensures fault { vault.old.stopped ≡ false → OnErr result ((result ≡ Err StoreFault) × WriteHasFailed V.Store vault.old (image_name side) (place_of from) (length (flat_map words_bytes words.now)) vault.new) }
    ensures end { vault.new.end ≡ vault.old.end }
    ensures files { IsNoShorter V.told vault.old vault.new }
    ensures any_moment { vault.old.stopped ≡ false → LeavesOnly V.moment V.left_since vault.old.store vault.new.store (TornFrom (V.may_leave vault.old.store) (image_name side) (place_of from) (length (flat_map words_bytes words.now))) }
    ensures calls { vault.old.stopped ≡ false → V.lets_pass vault.new.store ≡ one_less (V.lets_pass vault.old.store) }
{
    buffer.clear();
    regions_bytes(words, buffer).unwrap();
    called::image_write(vault, side, 64 + 512 * u64::from(from), buffer)?;
    Ok(())
}

// Copies the run of regions that begins with the one of this number, where its flag is set, and answers where it ends.
pub fn next_run<V: Store>(
    vault: &mut Vault<V>,
    side: Side,
    from: usize,
    regions: &mut [Region],
    buffer: &mut Vec<u8>,
) -> Result<usize, VaultError>
    requires few { length regions.old < 2 ^ 32 }
    requires within { from < length regions.old }
    requires room { 65536 ≤ vec_capacity buffer.old }
    requires inside { Reaches V.told side from vault.old }
    requires places { IfSome (V.told vault.old.store) (HoldsPlaces regions.old) }
    ensures room { 65536 ≤ vec_capacity buffer.new }
    ensures until { IfOk result (λ until. until ≡ from + run_of side (drop from regions.old)) }
    ensures further { IfOk result (λ until. (from < until) × (until ≤ length regions.old)) }
    ensures ok { OnOk result (regions.new ≡ change (cleaned side) from (run_of side (drop from regions.old)) regions.old) }
    ensures reaches { IfOk result (λ until. Reaches V.told side until vault.new) }
    ensures places { IfSome (V.told vault.new.store) (HoldsPlaces regions.new) }
    ensures clean { is_first_dirty side (drop from regions.old) ≡ false → (regions.new ≡ regions.old) × (vault.new ≡ vault.old) }
    ensures skips { is_first_dirty side (drop from regions.old) ≡ false → OnErr result ⊥ }
    ensures written { is_first_dirty side (drop from regions.old) ≡ true → OnOk result
        (HasWritten V.Store vault.old (image_name side) (place_of from) (bytes_between from (run_of side (drop from regions.old)) regions.old) vault.new) }
    ensures stopped { is_first_dirty side (drop from regions.old) ≡ true → vault.old.stopped ≡ true → (result ≡ Err VaultStopped) × (vault.new ≡ vault.old) }
    ensures same { OnErr result (regions.new ≡ regions.old) }
    ensures fault { vault.old.stopped ≡ false → OnErr result (result ≡ Err StoreFault) }
    ensures failed { vault.old.stopped ≡ false → OnErr result
        (WriteHasFailed V.Store vault.old (image_name side) (place_of from) (length (bytes_between from (run_of side (drop from regions.old)) regions.old)) vault.new) }
    ensures end { vault.new.end ≡ vault.old.end }
    ensures files { IsNoShorter V.told vault.old vault.new }
    ensures any_moment { is_first_dirty side (drop from regions.old) ≡ true → vault.old.stopped ≡ false → LeavesOnly V.moment V.left_since vault.old.store vault.new.store
        (TornFrom (V.may_leave vault.old.store) (image_name side) (place_of from) (length (bytes_between from (run_of side (drop from regions.old)) regions.old))) }
    ensures calls { is_first_dirty side (drop from regions.old) ≡ true → vault.old.stopped ≡ false → V.lets_pass vault.new.store ≡ one_less (V.lets_pass vault.old.store) }
{
    let until = run_end(regions, from, side);
    if regions[from].dirty(side) {
        write_run(vault, side, from, until, regions, buffer)?;
    }
    Ok(until)
}
