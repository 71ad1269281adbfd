//! Whether regions and system have what a clean-up asks.
ghost use Rattle.std.specs.Prelude.{◌≡◌, true};
ghost use Rattle.std.specs.List.{list_all};
ghost use Rattle.dali_runs.specs.Wholes.{is_of_kind, latched_in};
ghost use Rattle.dali_clean.specs.Cleaned.{MayClean};
ghost use Rattle.dali_clean.specs.Fit.{HasLeft, IsNamed, StandsSo, StandSo};

use dali_att::State;
use dali_geometry::Geometry;
use dali_record::{Pending, on_kind, undo_op};
use dali_region::{Hold, Region};
use dali_system::System;

/// Whether an undo is on a region of its kind.
pub fn is_of_kind(geometry: Geometry, pending: &Pending) -> bool
    ensures { result ≡ is_of_kind geometry pending.now }
{
    on_kind(geometry, pending.region, &undo_op(&pending.undo))
}

// Whether each of them is.
fn are_of_kind(geometry: Geometry, undos: &[Pending]) -> bool
    ensures { result ≡ list_all (is_of_kind geometry) undos.now }
{
    for pending in undos {
        if !is_of_kind(geometry, pending) {
            return false;
        }
    }
    true
}

// The region that the state names as still latched.
fn latched_in(state: Option<State>) -> Option<u32>
    ensures { result ≡ latched_in state }
{
    match state {
        Some(State::Dead { latched }) => latched,
        Some(State::Cleaning { latched }) => latched,
        _ => None,
    }
}

// Whether the region is latched for the transaction, whose client died.
fn has_left(regions: &[Region], region: u32, txn: u64) -> bool
    ensures is { result ≡ true → HasLeft regions.now region txn }
    ensures always { HasLeft regions.now region txn → result ≡ true }
{
    match regions.get(region as usize) {
        Some(region) => match region.hold() {
            Some(hold) => hold.txn == txn && hold.dead,
            None => false,
        },
        None => false,
    }
}

// Whether the region that the state of a dead transaction names is latched for it.
fn is_named(regions: &[Region], state: Option<State>, txn: u64) -> bool
    ensures is { result ≡ true → IsNamed regions.now state txn }
    ensures always { IsNamed regions.now state txn → result ≡ true }
{
    match state {
        Some(
            State::Dead {
                latched: Some(region),
            },
        ) => has_left(regions, region, txn),
        _ => true,
    }
}

// Whether the region is named.
fn names(latched: Option<u32>, region: usize) -> bool
    ensures is { result ≡ true → latched ≡ Some region }
    ensures always { latched ≡ Some region → result ≡ true }
{
    match latched {
        Some(latched) => latched as usize == region,
        None => false,
    }
}

// Whether a hold on the region is of a client that died, and, if it is the transaction's, where its row names it.
fn stands_so(hold: Option<Hold>, region: usize, latched: Option<u32>, txn: u64) -> bool
    ensures is { result ≡ true → StandsSo latched txn region hold }
    ensures always { StandsSo latched txn region hold → result ≡ true }
{
    match hold {
        Some(hold) => hold.dead && (hold.txn != txn || names(latched, region)),
        None => true,
    }
}

// Whether each hold is.
fn stand_so(regions: &[Region], latched: Option<u32>, txn: u64) -> bool
    ensures is { result ≡ true → StandSo latched txn regions.now }
    ensures always { StandSo latched txn regions.now → result ≡ true }
{
    for region in 0..regions.len() {
        if !stands_so(regions[region].hold(), region, latched, txn) {
            return false;
        }
    }
    true
}

/// Whether a clean-up of the transaction may be asked for: whole regions and a system in which no client is alive have what it
/// asks. It looks at each region.
pub fn may_clean(regions: &[Region], system: &System, txn: u64) -> bool
    ensures is { result ≡ true → MayClean regions.now system.now.state txn }
    ensures always { MayClean regions.now system.now.state txn → result ≡ true }
{
    let geometry = system.geometry();
    let state = system.state(txn);
    if regions.len() != geometry.regions() as usize {
        return false;
    }
    if !are_of_kind(geometry, system.table().undos(txn)) {
        return false;
    }
    if !is_named(regions, state, txn) {
        return false;
    }
    stand_so(regions, latched_in(state), txn)
}
