//! The clean-up of a transaction whose client died.

mod cleaning;
pub mod laws;

pub use cleaning::Cleaning;
