//! Numbers below a count, which threads draw, each once.
#![tactic(auto)]

mod claim;

pub use claim::{ClaimSeat, Claims};
