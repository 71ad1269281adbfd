//! The program `dali`: a script is read, run over a store, and answered line by line.
#![tactic(auto)]

mod blocks;
pub mod chains;
mod cleaning;
mod commands;
mod dumping;
mod generating;
mod halt;
pub mod laws;
mod loading;
mod looking;
mod program;
mod rounds;
mod scripts;
mod setting;
mod states;
mod status;
mod stores;
mod texts;
mod top;

pub use dali_calls::stepwise::{Gate, OpenGate};
pub use loading::SOURCE_LIMIT;
pub use scripts::SCRIPT_LIMIT;
pub use status::Status;
pub use top::{refuse, run};
