//! The system over regions and a vault: what a run of its steps keeps, as laws over lists of records.
#![tactic(auto)]

mod causes;
pub mod counts;
pub mod facts;
pub mod laws;
pub mod parts;
mod refusals;

pub use causes::Cause;
pub use refusals::Refusal;
