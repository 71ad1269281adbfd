//! Why a call of the vault failed.

use thiserror::Error;

/// Why the vault didn't write.
#[derive(Clone, Copy, Debug, PartialEq, Eq, Error)]
pub enum VaultError {
    /// A call of the store failed. The vault is stopped then.
    #[error("store fault")]
    Fault,
    /// The vault was stopped before.
    #[error("store stopped")]
    Stopped,
}
