//! What a thread does that has regions and system to itself: whole calls, and how a transaction ends.

mod call;
mod ending;
mod error;
pub mod laws;
mod operate;
mod settling;

pub use call::perform;
pub use ending::abort;
pub use error::{CallError, StepError};
pub use settling::{commit, free, settle};
