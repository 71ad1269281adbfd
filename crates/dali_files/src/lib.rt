//! Files of a store whose log is kept in segments: what reads give, what a crash may leave, and why a call fails.
#![tactic(auto)]

mod files;
mod key;

pub use files::Files;
pub use key::{FileKey, SEGMENTS};
