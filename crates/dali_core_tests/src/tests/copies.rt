//! A checkpoint whose regions are copied one by one, while others change them, and whose words are written by one call: the bytes of
//! its image, by docs/FORMATS.md.
ghost use Rattle.std.specs.Prelude.{IfSome};
ghost use Rattle.dali_checkpoint.specs.Done.{Reaches};
ghost use Rattle.dali_checkpoint.specs.Kept.{side_in};

use super::operations::{finish, put, put_in};
use anyhow::{Context, Result};
use dali_checkpoint::Checkpoint;
use dali_core::vault::Vault;
use dali_geometry::Geometry;
use dali_memstore::MemoryStore;
use dali_region::{Region, Side};
use dali_restart::format;
use dali_store::{FileName, Store};
use dali_system::{Operation, System};
use std::alloc::Global;
use std::test::*;

// An image of one index region and three heap regions, of which three are written: the words of a formatted heap region are 0 but the
// first one, which is 1.
fn image() -> [u8; 1600] {
    let mut bytes = [0; 1600];
    bytes[..8].copy_from_slice(b"DALIIMG1");
    bytes[11] = 1; // index regions
    bytes[15] = 3; // heap regions
    bytes[23] = 1; // number
    bytes[31] = 15; // place: behind the batch of the format
    bytes[39] = 1; // records before it
    bytes[47] = 10; // their length
    bytes[55] = 1; // next transaction
    bytes[63] = 4; // length of the table: a count
    bytes[64..72].copy_from_slice(&[1, 2, 3, 4, 5, 6, 7, 8]);
    bytes[568..576].copy_from_slice(&[17, 18, 19, 20, 21, 22, 23, 24]);
    bytes[583] = 1;
    bytes[1095] = 1;
    bytes
}

// An index region whose first and last word are other than 0.
fn index() -> Region {
    let mut words = [0; 64];
    words[0] = 0x0102_0304_0506_0708;
    words[63] = 0x1112_1314_1516_1718;
    Region::load(words)
}

// Opens a put on the region, all of whose words are written.
fn open_put(region: &mut Region) -> Option<u32> {
    let op = put()?;
    let Ok(mut operation) = Operation::start(region, 2, 2, 8, op, true) else {
        return None;
    };
    finish(&mut operation, region)
}

fn start<V: Store>(alloc: Global, system: &mut System, vault: &mut Vault<V>) -> Option<Checkpoint>
    ensures { IfSome result (λ c. Reaches V.told (side_in c) c.copied vault.new) }
{
    if vault.end() >= 1 << 62 || vault.current() >= 1 << 62 {
        return None;
    }
    match Checkpoint::start(alloc, system, vault) {
        Ok(checkpoint) => Some(checkpoint),
        Err(_) => None,
    }
}

// Writes the words of the next regions, and passes over the one behind them.
fn write<V: Store>(
    checkpoint: &mut Checkpoint,
    words: &[[u64; 64]],
    vault: &mut Vault<V>,
) -> Option<(u32, u32)>
    requires { Reaches V.told (side_in checkpoint.old) checkpoint.old.copied vault.old }
{
    let left = checkpoint.regions().saturating_sub(checkpoint.copied()) as usize;
    if words.len() > 128 || words.len() >= left {
        return None;
    }
    if checkpoint.write_words(words, vault).is_err() {
        return None;
    }
    let written = checkpoint.copied();
    if written >= checkpoint.regions() {
        return None;
    }
    checkpoint.pass_over(1);
    Some((written, checkpoint.copied()))
}

// What the copies tell: of three regions that they are copied and of the last one, whose flag is clear, that it isn't; and what is
// copied, written and passed over.
type Copied = ([bool; 4], (u32, u32));

// Copies the regions, of which the second is changed behind its copy and the third amid an operation, and writes them.
fn copy_all<V: Store>(
    alloc: Global,
    system: &mut System,
    vault: &mut Vault<V>,
    regions: &mut [Region; 4],
) -> Option<Copied> {
    let mut checkpoint = start(alloc, system, vault)?;
    let (txn, _) = system.begin().ok()?;
    let mut words = [[0; 64]; 3];
    let mut none = [0; 64];
    regions[3].clear_dirty(Side::A);
    let first = checkpoint.copy_out(&mut regions[0], &mut words[0]);
    let second = checkpoint.copy_out(&mut regions[1], &mut words[1]);
    let Some(Ok(_)) = put_in(system, &mut regions[1], txn) else {
        return None;
    };
    open_put(&mut regions[2])?;
    let third = checkpoint.copy_out(&mut regions[2], &mut words[2]);
    let last = checkpoint.copy_out(&mut regions[3], &mut none);
    let written = write(&mut checkpoint, &words, vault)?;
    Some(([first, second, third, last], written))
}

// The same over a formatted store, with the bytes of the image, and which regions have words that it hasn't.
fn copied(alloc: Global) -> Option<(Copied, Vec<u8>, [bool; 4])> {
    let geometry = Geometry::new(1, 3).ok()?;
    let store = MemoryStore::new(alloc, Vec::new(alloc));
    let mut core = format(alloc, store, geometry, 100_000).ok()?;
    let heap = geometry.formatted(1);
    let mut regions = [
        index(),
        Region::load(heap),
        Region::load(heap),
        Region::load(heap),
    ];
    let told = copy_all(alloc, &mut core.system, &mut core.vault, &mut regions)?;
    let dirty = [
        regions[0].dirty(Side::A),
        regions[1].dirty(Side::A),
        regions[2].dirty(Side::A),
        regions[3].dirty(Side::A),
    ];
    let store = core.into_store();
    let mut bytes = Vec::new(alloc);
    bytes.extend_from_slice(store.file(FileName::ImageA)).ok()?;
    Some((told, bytes, dirty))
}

#[test]
fn copies_are_written_as_they_were_taken(rt: HostRuntime) -> Result<()> {
    let (told, bytes, dirty) = copied(rt.alloc()).context("a refusal")?;
    assert!(rt;
        told == ([true, true, true, false], (3, 4))
            && bytes.as_slice() == image().as_slice()
            && dirty == [false, true, false, false]
    );
    Ok(())
}
