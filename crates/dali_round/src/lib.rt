//! Rounds: the blocks of several clients are run beside each other, one step at a time.
//!
//! A round has up to 64 clients. Each goes through the commands of its block, step by step; between two steps of a client
//! others make theirs.
#![tactic(auto)]

mod rounds;

pub use dali_calls::stepwise::{Gate, OpenGate};
pub use dali_transcripts::clients::{Block, Command, Line, Transcript, Why};
pub use rounds::{RoundEnd, round};
