//! The table of locks on keys: who holds which key, and in which mode.
#![tactic(auto)]

mod mode;
mod table;

pub use mode::{LockAnswer, Mode};
pub use table::LockTable;
