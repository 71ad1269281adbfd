//! Who goes on next among threads that share locks: whoever the machine picks, or one at a time in an order that can be made again.
#![tactic(auto)]

mod baton;
mod free;
mod order;
mod schedule;
mod scheduler;
mod seats;
mod threads;

pub use baton::Baton;
pub use free::Free;
pub use schedule::Schedule;
pub use scheduler::{Scheduler, Scheduling};
pub use threads::{Work, in_threads};
