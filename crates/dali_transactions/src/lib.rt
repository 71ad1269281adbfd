//! How a transaction ends, by a thread that steps all clients of a core: a commit, and an abort.
#![tactic(auto)]

mod aborting;
pub mod beside;
mod committing;
pub mod courses;
mod error;
mod guards;
pub mod laws;
mod parts;
mod steps;

pub use aborting::abort;
pub use committing::commit;
pub use error::{AbortError, CommitError};
pub use steps::{end_commit, free_removal, log_commit};
