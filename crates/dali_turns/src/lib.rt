//! Clients that make one step at a time over a core which they share.
//!
//! A step is a begin, a request for a lock, one operation of a call, the answer of a call, a commit or an abort. Or it is a
//! stray write, one region of an audit or of a checkpoint, or the clean-up of a transaction whose client died. Between two
//! steps of a client others make theirs.
#![tactic(auto)]

mod client;
pub mod laws;
mod operations;
mod paces;
mod plan;
mod run;
mod steps;
mod why;

pub use client::Client;
pub use paces::Paces;
pub use steps::{Setting, halt, turn};
