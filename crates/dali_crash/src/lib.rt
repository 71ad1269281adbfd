//! What a crash of a run leaves: a history, from which a restart is right.
#![tactic(auto)]

pub mod disks;
pub mod laws;
