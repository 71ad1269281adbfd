//! Crash images, one by one: along the steps of a core with its store, and as the bytes of the four files.

pub mod flushing;
pub mod laws;
pub mod turning;
