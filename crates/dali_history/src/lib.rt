//! What a log stands for: the map that its surviving transactions leave, and the image that a restart recovers.
#![tactic(auto)]

pub mod examples;
pub mod headline;
pub mod kept;
pub mod laws;
pub mod room;
pub mod slots;
pub mod undone;
