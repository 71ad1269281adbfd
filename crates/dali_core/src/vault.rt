//! The store while the program is up: where its log ends, which image is the current one, and whether a call has
//! failed.

mod error;
pub mod laws;
mod vault;

pub use error::VaultError;
pub use vault::Vault;
