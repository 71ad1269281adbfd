//! A core over a log at rest.
ghost use Rattle.std.specs.Prelude.{◌≡◌, ◌≤◌, ◌<◌, ◌^◌, length, map, IfOk, IfErr, IfSome};
ghost use Rattle.dali_geometry.specs.Places.{regions as regions_of};
ghost use Rattle.dali_region.specs.State.{loaded};
ghost use Rattle.dali_store.specs.Store.{Files};
ghost use Rattle.dali_log.specs.Batch.{IsClosedAt};
ghost use Rattle.dali_log.specs.Anchors.{AreAnchored};
ghost use Rattle.dali_core.specs.Cores.{IsWholeCore};
ghost use Rattle.dali_restart.specs.Rise.Risen.{IsRisen, RunBegins, system_at};

use crate::rise::regions;
use dali_core::Core;
use dali_core::vault::Vault;
use dali_geometry::Geometry;
use dali_region::Region;
use dali_store::Store;
use dali_system::System;
use std::alloc::{AllocError, Global};

/// Where a log stands that nobody has at work: what a core over it begins with.
#[derive(Clone, Copy, PartialEq, Eq)]
pub struct Resting {
    /// The sizes of the database.
    pub geometry: Geometry,
    /// How many records the log has.
    pub records: u64,
    /// How many bytes spell them, without the batches around them.
    pub weight: u64,
    /// The number of the next transaction.
    pub next: u64,
    /// The place where the log ends, in bytes.
    pub end: u64,
    /// The number of the current image: how many gates of the anchor are open.
    pub current: u64,
}

/// Memory was wanted and refused. The store is the one that was handed in.
#[derive(Drop)]
pub struct Refused<V: Store> {
    pub store: V,
}

// What a core has in memory.
#[derive(Drop)]
struct Made {
    regions: Vec<Region>,
    system: System,
}

// What the core over such a log has there.
fn make(
    alloc: Global,
    resting: &Resting,
    words: &[[u64; 64]],
    limit: u64,
) -> Result<Made, AllocError>
    requires limit { limit ≤ 268435456 }
    requires records { resting.now.records < 2 ^ 63 }
    requires weight { resting.now.weight < 2 ^ 63 }
    requires next { resting.now.next < 2 ^ 63 }
    ensures regions { IfOk result (λ made. made.regions.items ≡ map loaded words.now) }
    ensures system { IfOk result (λ made. made.system ≡ system_at resting.now limit) }
{
    let regions = regions::load_all(alloc, words)?;
    match System::new(
        alloc,
        resting.geometry,
        resting.records,
        resting.next,
        resting.weight,
        limit,
    ) {
        Ok(system) => Ok(Made { regions, system }),
        Err(_) => Err(AllocError),
    }
}

/// The core over a store whose log is at rest: regions with these words, whose codewords are made here, an empty system, and
/// a vault over the log's end and the current image. Where the words are those that the log comes to, and each disk that a
/// crash may leave spells files from which a run may start, a run begins with it.
///
/// `Refused` where memory is refused, with the store as it was. No call of the store is made. It takes 1,120 bytes of memory
/// a region.
pub fn rise<V: Store>(
    alloc: Global,
    store: V,
    resting: &Resting,
    words: &[[u64; 64]],
    limit: u64,
) -> Result<Core<V>, Refused<V>>
    requires limit { limit ≤ 268435456 }
    requires records { resting.now.records < 2 ^ 63 }
    requires weight { resting.now.weight < 2 ^ 63 }
    requires next { resting.now.next < 2 ^ 63 }
    requires whole { length words.now ≡ regions_of resting.now.geometry }
    requires closed { IfSome (V.told store) (λ _. (c : Files) → V.may_leave store c → IsClosedAt resting.now.end c.log) }
    requires anchored { IfSome (V.told store) (λ _. AreAnchored (V.may_leave store) resting.now.current) }
    ensures core { IfOk result (λ core. IsRisen resting.now words.now limit store core.regions.items core.system core.vault) }
    ensures whole { IfOk result (λ core. IsWholeCore V.told core.regions.items core.system.state core.vault) }
    // The first steps of a run may follow.
    ensures begins { IfOk result (λ core. RunBegins V.Store resting.now words.now limit core.regions.items core.system.state core.vault) }
    ensures refused { IfErr result (λ refused. refused.store ≡ store) }
{
    match make(alloc, resting, words, limit) {
        Ok(made) => Ok(Core {
            regions: made.regions,
            system: made.system,
            vault: Vault::new(store, resting.end, resting.current),
        }),
        Err(AllocError) => Err(Refused { store }),
    }
}
