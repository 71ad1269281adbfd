//! The clean-up of a transaction whose client died, by a thread that has regions and system to itself.
#![tactic(auto)]

mod cleaner;
pub mod cleanup;
mod error;
mod fit;
pub mod laws;
mod undoing;

pub use cleaner::clean;
pub use error::CleanError;
pub use fit::{is_of_kind, may_clean};
pub use undoing::release;
