//! The system: the log, the transaction table and the locks, and the calls that log a record.
#![tactic(auto)]

mod error;
mod journal;
pub mod laws;
mod operation;
mod past;
mod promises;
mod system;
mod take_back;
mod undos;
mod want;

pub use error::{NotDead, SystemError};
pub use journal::Journal;
pub use operation::{OpenOperation, Operation};
pub use system::System;
pub use take_back::TakeBack;
pub use want::Want;
