//! What clients in threads owe each other, over one history.
#![tactic(auto)]

pub mod checkpoints;
pub mod examples;
pub mod laws;
pub mod refusals;
