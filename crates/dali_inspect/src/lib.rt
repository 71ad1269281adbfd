//! What a restart would find in the files of a store, told from a copy in memory: the store is only read.
#![tactic(auto)]

mod copying;
mod counting;
mod error;
mod inspecting;

pub use error::InspectError;
pub use inspecting::{Image, Inspection, inspect};
