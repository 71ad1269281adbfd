//! What the clients of a round are told, and what they say and log.
//!
//! A client has a block of commands. It says lines, each for a command of its own or for the end of a transaction, and logs
//! records, of which it keeps the numbers: its transcript.

mod command;
pub mod laws;
mod line;
mod transcript;

pub use command::{Block, Command};
pub use line::{Line, Why};
pub use transcript::Transcript;
