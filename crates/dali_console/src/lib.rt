//! What people are told beside the answers, on standard error: how far a long run is, and why a stream failed.
#![tactic(auto)]

mod failure;
mod followed;
mod input;
mod output;
mod progress;

pub use failure::StreamFailure;
pub use followed::Followed;
pub use input::{INPUT_LIMIT, KeptInput};
pub use output::KeptOutput;
pub use progress::Progress;
