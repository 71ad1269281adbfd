//! A core is made over a store whose log is at rest, as a restart leaves it.

pub mod laws;
mod regions;
mod rising;

pub use rising::{Refused, Resting, rise};
