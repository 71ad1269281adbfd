//! The values of a database behind their locks.
#![tactic(auto)]

mod calling;
mod client;
mod dying;
mod error;
mod gathering;
mod history;
mod keeping;
pub mod laws;
mod locks;
mod region;
mod sharing;
mod system;
mod undoing;
mod vault;

pub use client::ClientNote;
pub use error::LockedError;
pub use history::{Beginning, Home, Mark, OfRound};
pub use keeping::{KeepError, KeptHead};
pub use locks::{Locks, RegionError, RegionLock};
pub use region::LockedRegion;
pub use sharing::share;
pub use system::LockedSystem;
pub use vault::{FlushError, LockedVault, VaultBeginning, make_durable};
