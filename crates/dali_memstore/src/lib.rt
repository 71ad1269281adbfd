//! A store of four files in memory, which keeps all that changed it.
#![tactic(auto)]

mod bytes;
mod disk;
mod disks;
mod event;
mod memory;

pub use memory::MemoryStore;
