//! The calls of a transaction as plans: the operations of a call, one after another, and its answer.
#![tactic(auto)]

mod changes;
pub mod laws;
mod plan;
pub mod single;
mod stage;
pub mod stepwise;
mod writing;

pub use changes::Changes;
pub use plan::{Phase, Plan};
pub use stage::Stage;
pub use writing::{write_all, write_back};
