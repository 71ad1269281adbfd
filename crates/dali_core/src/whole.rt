//! A core as one value.
ghost use Rattle.std.specs.Prelude.{◌≡◌};

use crate::vault::Vault;
use dali_region::Region;
use dali_store::Store;
use dali_system::System;

/// What a main-memory storage manager keeps while it is up: its regions, the system, and the store with the end of its
/// log (Bohannon et al., TKDE 2003). Contracts say of its parts that it is whole, and that it stands at a point of a run.
#[derive(Drop)]
pub struct Core<V: Store> {
    /// Index regions first, then heap regions.
    pub regions: Vec<Region>,
    pub system: System,
    pub vault: Vault<V>,
}

impl<V: Store> Core<V> {
    /// The store. Regions and system are let go.
    pub fn into_store(self) -> V
        ensures { result ≡ self.vault.store }
    {
        self.vault.into_store()
    }
}
