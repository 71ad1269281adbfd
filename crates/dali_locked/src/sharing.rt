//! How a core is shared among clients.
ghost use Rattle.std.specs.Prelude.{◌≡◌, ◌<◌, ◌≤◌, ◌+◌, [], Some, IfOk, IfErr, OnOk, ℕ, length, vec_len, vec_capacity, slice_get};
ghost use Rattle.dali_region.specs.State.{RegionState};
ghost use Rattle.dali_core.specs.Vault.Vaulted.{Vaulted};
ghost use Rattle.dali_notes.specs.History.{AreFresh};
ghost use Rattle.dali_concurrent.specs.Kept.{RegionTold};
ghost use Rattle.dali_locked.specs.Begun.{Led, Of};
ghost use Rattle.dali_locked.specs.Beginnings.{AreNew, BeginsWith};

use crate::client::ClientNote;
use crate::history::{Beginning, Home, Mark, OfRound};
use crate::locks::{Locks, RegionLock};
use crate::region::LockedRegion;
use crate::system::LockedSystem;
use crate::vault::{LockedVault, VaultBeginning};
use dali_core::Core;
use dali_notes::{Note, Notes};
use dali_region::Region;
use dali_schedule::Schedule;
use dali_store::Store;
use std::alloc::{AllocError, Global};

// The clients of all notes but the first `kept`, whose numbers are below.
fn share_clients<B: Beginning, H: Home>(
    list: &mut Vec<Note<Mark, OfRound<B>>>,
    clients: &mut Vec<ClientNote<B, H>>,
    kept: u32,
)
    requires fresh { AreFresh H.table 0 list.old.items }
    requires kept { (kept ≡ B.begun.count + 2) × (kept ≤ length list.old.items) }
    requires led { Led B.begun [] }
    requires room { (clients.old.items ≡ []) × (length list.old.items ≤ vec_capacity clients.old + kept) }
    requires small { length list.old.items < 4294967296 }
    ensures fresh { AreFresh H.table 0 list.new.items × (length list.new.items ≡ kept) }
    ensures room { vec_capacity list.new ≡ vec_capacity list.old }
    ensures clients { AreNew kept kept (length list.old.items) clients.new.items }
{
    while list.len() > kept as usize {
        let Some(note) = list.pop() else {
            unreachable!()
        };
        let id = list.len() as u32 - kept;
        clients.push_reserved(ClientNote::new(id, note));
    }
}

// The locks of the regions, the last one first, each with its note.
fn share_regions<B: Beginning, H: Home>(
    list: &mut Vec<Note<Mark, OfRound<B>>>,
    regions: &mut Vec<Region>,
    locks: &mut Vec<RegionLock<B, H>>,
)
    requires fresh { AreFresh H.table 0 list.old.items }
    requires each { length list.old.items ≡ length regions.old.items + 2 }
    requires led { Led B.begun [] }
    requires told { (r : ℕ) (g : RegionState) → slice_get regions.old.items r ≡ Some g → Of B.begun (λ o T. RegionTold o r g T) [] }
    requires room { (vec_len locks.old ≡ 0) × (length regions.old.items ≤ vec_capacity locks.old) }
    requires small { length list.old.items < 4294967296 }
    ensures fresh { AreFresh H.table 0 list.new.items × (length list.new.items ≡ 2) }
    ensures none { regions.new.items ≡ [] }
    ensures each { vec_len locks.new ≡ length regions.old.items }
    ensures rooms { (vec_capacity regions.new ≡ vec_capacity regions.old) × (vec_capacity list.new ≡ vec_capacity list.old) }
{
    while let Some(region) = regions.pop() {
        let Some(note) = list.pop() else {
            unreachable!()
        };
        let number = regions.len() as u32;
        locks.push_reserved(RegionLock::new(LockedRegion::new(number, region, note)));
    }
}

/// Shares a core among clients: each value goes behind a lock of its own, with one of the notes. There are as many clients as notes beside
/// those of the values; they are handed out with their numbers, from 0 on, the highest first. It takes memory for the locks and the clients;
/// where that is refused the core comes back as it was. What the regions
/// and the notes stood in is kept for `gather`.
pub fn share<B: Beginning + VaultBeginning<V>, H: Home, V: Store, S: Schedule + Drop>(
    alloc: Global,
    notes: Notes<Mark, OfRound<B>>,
    list: Vec<Note<Mark, OfRound<B>>>,
    core: Core<V>,
    schedule: S,
) -> Result<(Locks<B, H, V, S>, Vec<ClientNote<B, H>>), (Core<V>, AllocError)>
    requires home { (notes.table ≡ H.table) × AreFresh notes.table 0 list.items }
    requires many { (length core.regions.items + 2 ≤ length list.items) × (length list.items < 4294967296) }
    requires all { length list.items ≡ notes.count }
    requires begins { BeginsWith V.Store B.begun core.regions.items core.system.state core.vault }
    requires began { (u : Vaulted V) → B.began u → u ≡ core.vault }
    requires stored { (u : Vaulted V) → B.began u → u ≡ core.vault }
    ensures locks { IfOk result (λ made. made.0 ≡ notes) }
    ensures clients { IfOk result (λ made. AreNew (length core.regions.items + 2) (length core.regions.items + 2) (length list.items) made.1.items) }
    ensures err { IfErr result (λ e. e.0 ≡ core) }
{
    let mut list = list;
    let mut locks = match Vec::with_capacity(alloc, core.regions.len()) {
        Ok(locks) => locks,
        Err(error) => return Err((core, error)),
    };
    let mut clients = match Vec::with_capacity(alloc, list.len()) {
        Ok(clients) => clients,
        Err(error) => return Err((core, error)),
    };
    let Core {
        mut regions,
        system,
        vault,
    } = core;
    let first = system.first();
    share_clients::<B, H>(&mut list, &mut clients, regions.len() as u32 + 2);
    share_regions::<B, H>(&mut list, &mut regions, &mut locks);
    let (Some(of_vault), Some(of_system)) = (list.pop(), list.pop()) else {
        unreachable!()
    };
    let system = LockedSystem::new(system, of_system);
    let vault = LockedVault::new(alloc, vault, first, of_vault);
    let rooms = (regions, list);
    Ok((
        Locks::new(notes, schedule, system, locks, vault, rooms),
        clients,
    ))
}
