//! Four files as the storage manager sees them: what reads give, what a crash may leave, and why a call fails.
#![tactic(auto)]

pub mod laws;
mod store;

pub use store::{FileName, Store, StoreFault};
