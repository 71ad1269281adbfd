//! A database is made in the files of a store, as a core over it, and restarted from what a crash left of them.
#![tactic(auto)]

mod error;
mod formatting;
pub mod laws;
mod opening;
mod regions;
pub mod renewal;
mod restarting;
pub mod rise;

pub use error::{Refused, RestartError};
pub use formatting::format;
pub use opening::{Opened, open};
pub use restarting::{Report, restart};
