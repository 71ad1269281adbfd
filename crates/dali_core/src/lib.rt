//! A whole core: regions, system and vault as one value, and what makes its records durable.
#![tactic(auto)]

mod cleaning;
mod durable;
pub mod laws;
pub mod steps;
pub mod vault;
mod whole;

pub use cleaning::clean;
pub use durable::{flush, write_out};
pub use whole::Core;
