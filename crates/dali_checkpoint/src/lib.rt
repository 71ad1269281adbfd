//! Checkpoints: the regions that changed are written to the image that isn't the current one, and the anchor moves to it once
//! an audit has ended clean.
#![tactic(auto)]

mod checkpoint;
mod error;
pub mod laws;
mod making;
mod parts;

pub use checkpoint::Checkpoint;
pub use error::CheckpointError;
pub use making::{make_checkpoint, pass_all};
