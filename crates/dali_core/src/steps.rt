//! The calls of a vault as steps of a run.

pub mod called;
pub mod laws;
