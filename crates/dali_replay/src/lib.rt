//! The slow plain program that computes what a log is expected to leave.
#![tactic(auto)]

mod calls;
mod damage;
mod deleted;
mod links;
mod outcome;
mod top;

pub use outcome::{OutOfMemory, Replay};
pub use top::replay;
