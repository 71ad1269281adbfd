//! How the values of a round come back from their locks when it ends.
ghost use Rattle.std.specs.Prelude.{◌≡◌, ◌+◌, ◌++◌, ◌≤◌, ℕ, List, [], true, Some, IfOk, IfErr, length, slice_get, vec_len, vec_capacity};
ghost use Rattle.dali_locked.specs.Begun.{homed};
ghost use Rattle.dali_region.specs.State.{RegionState};
ghost use Rattle.dali_notes.specs.History.{AreOf, In, Sight};
ghost use Rattle.dali_concurrent.specs.Told.{Item, History};
ghost use Rattle.dali_locked.specs.Endings.{AreSeen, RegionsAreTold, RoundIsLeft};
ghost use Rattle.dali_locked.specs.Vaults.{IsTold};

use crate::client::ClientNote;
use crate::history::{Beginning, Home, Mark, OfRound};
use crate::locks::{Locks, RegionLock};
use crate::region::LockedRegion;
use crate::vault::VaultBeginning;
use dali_core::Core;
use dali_core::vault::Vault;
use dali_notes::Note;
use dali_region::Region;
use dali_schedule::Schedule;
use dali_store::Store;

// The regions, the first one's lock standing last, each with its note. False where a lock has a region of another number than its place.
fn gather_regions<B: Beginning, H: Home>(
    locks: &mut Vec<RegionLock<B, H>>,
    regions: &mut Vec<Region>,
    notes: &mut Vec<Note<Mark, OfRound<B>>>,
) -> bool
    requires none { (regions.old.items ≡ []) × (notes.old.items ≡ []) }
    requires room { (vec_len locks.old ≤ vec_capacity regions.old) × (vec_len locks.old ≤ vec_capacity notes.old) }
    ensures all { result ≡ true → (length regions.new.items ≡ vec_len locks.old) × (length notes.new.items ≡ vec_len locks.old) }
    ensures told { result ≡ true → RegionsAreTold B.begun regions.new.items notes.new.items × AreOf H.table notes.new.items }
    ensures room { vec_capacity notes.new ≡ vec_capacity notes.old }
{
    while let Some(lock) = locks.pop() {
        let RegionLock { lock, freed: _ } = lock;
        let LockedRegion {
            number,
            steps: _,
            audits: _,
            region,
            note,
            home: _,
        } = lock.into_inner();
        if number as usize != regions.len() {
            return false;
        }
        regions.push_reserved(region);
        notes.push_reserved(note);
    }
    true
}

// The notes of the clients.
fn gather_clients<B: Beginning, H: Home>(
    clients: Vec<ClientNote<B, H>>,
    notes: &mut Vec<Note<Mark, OfRound<B>>>,
)
    requires tables { AreOf H.table notes.old.items }
    requires room { length clients.items + length notes.old.items ≤ vec_capacity notes.old }
    ensures more { (rest : List (Sight Item)) × (notes.new.items ≡ notes.old.items ++ rest) }
    ensures many { length notes.new.items ≡ length clients.items + length notes.old.items }
    ensures tables { AreOf H.table notes.new.items }
    ensures seen { AreSeen (homed H.table B.begun) clients.items notes.new.items }
{
    let mut clients = clients;
    while let Some(client) = clients.pop() {
        let ClientNote {
            id: _,
            note,
            home: _,
        } = client;
        notes.push_reserved(note);
    }
}

impl<B: Beginning + VaultBeginning<V>, H: Home, V: Store, S: Schedule + Drop> Locks<B, H, V, S> {
    /// The round ends: its values come out of their locks, the notes of all that took part are finished, and the core stands together again,
    /// as told by what its notes have seen. All clients are to come back. Where some lock had a region of another number than its place the vault
    /// alone comes back, as told: with the locks that `share` made this never comes, but no clause knows which value lies under which lock.
    /// It takes no memory.
    pub fn gather(self, clients: Vec<ClientNote<B, H>>) -> Result<Core<V>, Vault<V>>
        requires all { length clients.items + (B.begun.count + 2) ≡ self.count }
        ensures left { IfOk result (λ core. RoundIsLeft V.Store B.began (homed H.table B.begun) clients.items core.regions.items core.system.state core.vault) }
        ensures err { IfErr result (λ vault. (T : History) × IsTold V.Store B.began B.begun vault T) }
    {
        let Locks {
            rooms,
            notes,
            schedule: _,
            system,
            ended: _,
            mut regions,
            vault,
        } = self;
        let (mut gathered, mut finished) = rooms;
        let (vault, of_vault) = vault.into_inner().into_parts();
        if !gather_regions::<B, H>(&mut regions, &mut gathered, &mut finished) {
            return Err(vault);
        }
        let (system, of_system) = system.into_inner().into_parts();
        finished.push_reserved(of_system);
        finished.push_reserved(of_vault);
        gather_clients::<B, H>(clients, &mut finished);
        notes.finish(finished);
        Ok(Core {
            regions: gathered,
            system,
            vault,
        })
    }
}
