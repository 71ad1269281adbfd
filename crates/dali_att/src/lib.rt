//! The active transaction table: for each running transaction its state and its local undo log, the undos that it still owes.
#![tactic(auto)]

mod row;
mod state;
mod table;

pub use state::State;
pub use table::Att;
