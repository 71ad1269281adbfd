//! One file in memory: what reads give, what the last sync kept, and what a crash makes of the rest.
#![tactic(auto)]

mod disk;

pub use disk::{Disk, Span};
