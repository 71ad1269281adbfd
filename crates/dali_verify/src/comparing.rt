//! Memory beside a replay of the log.
ghost use Rattle.std.specs.Prelude.{◌≡◌, ◌++◌, ◌↔◌, length, IfOk, IfErr, OnOk, IsTrue};
ghost use Rattle.std.specs.FinMap as finite;
ghost use Rattle.std.specs.BTreeMap.{IsOrdered};
ghost use Rattle.std.specs.Ordering.{nat_cmp};
ghost use Rattle.dali_geometry.specs.Places;
ghost use Rattle.dali_listing.specs.Listing.{in_memory, pairs_of};
ghost use Rattle.dali_verify.specs.Verified.{deleted_in, told_deleted, HoldsJust, IsVerified};
ghost use Rattle.dali_verify.specs.declared.error.VerifyError.TheVariants.{OutOfMemory as Memory};

use crate::error::VerifyError;
use dali_geometry::Geometry;
use dali_listing::{Listed, records};
use dali_record::Record;
use dali_region::Region;
use dali_replay::replay;
use dali_words::Value;
use std::alloc::{AllocError, Global};
use std::collections::BTreeMap;

// Adds the deleted list of a restart.
fn add_deleted(logged: &Record, deleted: &mut Vec<u64>) -> Result<(), AllocError>
    ensures { OnOk result (deleted.new.items ≡ deleted.old.items ++ deleted_in logged.now) }
{
    match logged {
        Record::Restarted { deleted: told, .. } => {
            deleted.extend_from_slice(told.as_slice())?;
            Ok(())
        }
        _ => Ok(()),
    }
}

// The deleted lists of all restarts, one behind the other.
fn told_deleted(alloc: Global, log: &[Record]) -> Result<Vec<u64>, AllocError>
    ensures { IfOk result (λ deleted. deleted.items ≡ told_deleted log.now) }
{
    let mut deleted = Vec::new(alloc);
    for logged in log {
        add_deleted(logged, &mut deleted)?;
    }
    Ok(deleted)
}

// The records of a map, in order.
fn listed(alloc: Global, map: &BTreeMap<u64, Value>) -> Result<Vec<Listed>, AllocError>
    ensures pairs { IfOk result (λ rows. pairs_of rows.items ≡ map.now.entries) }
    ensures ordered { IsOrdered nat_cmp map.now }
{
    let mut rows = Vec::new(alloc);
    for (key, value) in map {
        rows.push(Listed {
            key: *key,
            value: *value,
        })?;
    }
    Ok(rows)
}

// Whether the restarts told the deleted transactions, ascending.
fn tells(alloc: Global, log: &[Record], deleted: &[u64]) -> Result<bool, AllocError>
    ensures { IfOk result (λ is. IsTrue is ↔ (told_deleted log.now ≡ deleted.now)) }
{
    let told = told_deleted(alloc, log)?;
    Ok(told.as_slice() == deleted)
}

// Whether the words of the regions store just the records of a map.
fn stores(
    alloc: Global,
    geometry: &Geometry,
    regions: &[Region],
    map: &BTreeMap<u64, Value>,
) -> Result<bool, VerifyError>
    requires { length regions.now ≡ Places.regions geometry.now }
    ensures is { IfOk result (λ is. IsTrue is ↔ HoldsJust geometry.now (in_memory regions.now) (finite.get {R = nat_cmp} (finite.from_entries map.now.entries))) }
    ensures memory { IfErr result (λ e. e ≡ Memory) }
{
    let expected = listed(alloc, map)?;
    let stored = records(alloc, geometry, regions)?;
    Ok(stored == expected)
}

/// Whether a replay of the log gives each call its logged answer, and leaves the records that the words of the regions store,
/// and the deleted transactions that the restarts told. It takes memory for both.
pub fn agrees(
    alloc: Global,
    geometry: &Geometry,
    regions: &[Region],
    log: &[Record],
) -> Result<bool, VerifyError>
    requires { length regions.now ≡ Places.regions geometry.now }
    ensures is { IfOk result (λ is. IsTrue is ↔ IsVerified geometry.now (in_memory regions.now) log.now) }
    ensures memory { IfErr result (λ e. e ≡ Memory) }
{
    let replay = replay(alloc, log)?;
    if !replay.agrees() {
        return Ok(false);
    }
    if !tells(alloc, log, replay.deleted())? {
        return Ok(false);
    }
    stores(alloc, geometry, regions, replay.map())
}
