//! Files in memory: what reads give, and what a crash makes of what no sync kept.
#![tactic(auto)]

mod bytes;
mod event;
mod held;
mod memory;
mod past;
mod shelf;

pub use memory::MemoryFiles;
