//! Whether regions and system have what an end asks of them. So it is wherever a core stands in a run; where no run has come
//! to them, as behind files that another program wrote, it may not be.
ghost use Rattle.std.specs.Prelude.{◌≡◌, true, Some};
ghost use Rattle.std.specs.List.{list_all};
ghost use Rattle.dali_att.specs.declared.state.State.TheVariants.{Live, Committed};
ghost use Rattle.dali_runs.specs.State.{state_of};
ghost use Rattle.dali_record.specs.Legal.{is_removal as is_removal_of};
ghost use Rattle.dali_record.specs.Spelling.{IsUndo};
ghost use Rattle.dali_transactions.specs.Guards.{MayFreeOn, is_covered as is_covered_in, is_releasable as is_releasable_by, is_releasable_on as is_releasable_in, MayEnd};

use dali_att::State;
use dali_clean::is_of_kind;
use dali_locks::Mode;
use dali_record::{Pending, Undo};
use dali_region::{Hold, Region};
use dali_system::System;

// Whether the undo is on a region of its kind, and the transaction has its key alone.
fn is_covered(system: &System, txn: u64, undo: &Pending) -> bool
    ensures { result ≡ is_covered_in system.now.state txn undo.now }
{
    match system.lock(txn, undo.key) {
        Some(Mode::Exclusive) => is_of_kind(system.geometry(), undo),
        _ => false,
    }
}

// Whether each of them is.
fn are_covered(system: &System, txn: u64, undos: &[Pending]) -> bool
    ensures { result ≡ list_all (is_covered_in system.now.state txn) undos.now }
{
    for undo in undos {
        if !is_covered(system, txn, undo) {
            return false;
        }
    }
    true
}

/// Whether the hold is of a client that died, if there is one.
pub fn is_releasable(hold: Option<Hold>) -> bool
    ensures { result ≡ is_releasable_by hold }
{
    match hold {
        Some(hold) => hold.dead,
        None => true,
    }
}

// Whether so is that on the region of the undo.
fn is_releasable_on(regions: &[Region], undo: &Pending) -> bool
    ensures { result ≡ is_releasable_in regions.now undo.now }
{
    match regions.get(undo.region as usize) {
        Some(region) => is_releasable(region.hold()),
        None => true,
    }
}

// Whether so it is of each of them.
fn are_releasable(regions: &[Region], undos: &[Pending]) -> bool
    ensures { result ≡ list_all (is_releasable_in regions.now) undos.now }
{
    for undo in undos {
        if !is_releasable_on(regions, undo) {
            return false;
        }
    }
    true
}

// Whether the transaction is live.
fn is_live(system: &System, txn: u64) -> bool
    ensures is { result ≡ true → state_of system.now.state txn ≡ Some Live }
    ensures always { state_of system.now.state txn ≡ Some Live → result ≡ true }
{
    match system.state(txn) {
        Some(State::Live) => true,
        _ => false,
    }
}

/// Whether the transaction may be ended.
pub fn may_end(regions: &[Region], system: &System, txn: u64) -> bool
    ensures is { result ≡ true → MayEnd regions.now system.now.state txn }
    ensures always { MayEnd regions.now system.now.state txn → result ≡ true }
{
    let undos = system.table().undos(txn);
    if regions.len() != system.geometry().regions() as usize {
        return false;
    }
    if !is_live(system, txn) {
        return false;
    }
    if !are_covered(system, txn, undos) {
        return false;
    }
    are_releasable(regions, undos)
}

// Whether the undo puts a killed cell or entry back, one that a region has.
fn is_removal(undo: &Undo) -> bool
    ensures is { result ≡ true → (is_removal_of undo.now ≡ true) × IsUndo undo.now }
    ensures always { is_removal_of undo.now ≡ true → IsUndo undo.now → result ≡ true }
{
    match undo {
        Undo::ReviveCell { cell } => 1 <= *cell && *cell <= 7,
        Undo::ReviveEntry { entry } => *entry < 21,
        _ => false,
    }
}

/// Whether the transaction is committed.
pub fn is_committed(system: &System, txn: u64) -> bool
    ensures is { result ≡ true → state_of system.now.state txn ≡ Some Committed }
    ensures always { state_of system.now.state txn ≡ Some Committed → result ≡ true }
{
    match system.state(txn) {
        Some(State::Committed) => true,
        _ => false,
    }
}

/// Whether a committed transaction may free the removal.
pub fn may_free(regions: &[Region], system: &System, txn: u64, removal: &Pending) -> bool
    ensures is { result ≡ true → MayFreeOn regions.now system.now.state txn removal.now }
    ensures always { MayFreeOn regions.now system.now.state txn removal.now → result ≡ true }
{
    if regions.len() != system.geometry().regions() as usize {
        return false;
    }
    if !is_committed(system, txn) {
        return false;
    }
    if !is_removal(&removal.undo) {
        return false;
    }
    if !is_covered(system, txn, removal) {
        return false;
    }
    is_releasable_on(regions, removal)
}
