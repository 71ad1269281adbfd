//! What no clause says of a core over a store.
mod cores;
mod vaults;
