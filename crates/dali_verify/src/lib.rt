//! A running engine beside a plain replay of its whole log: whether the records in memory, the logged answers and the lists of
//! deleted transactions are those that the replay comes to.
#![tactic(auto)]

mod comparing;
mod error;
mod reading;
mod verifying;

pub use error::VerifyError;
pub use verifying::verify;
