//! The log from an image's place on, read through a recovery: each record is handed to it in its place, and at the log's end the
//! recovered words and lists are handed out.

mod counts;
mod error;
pub mod laws;
mod reading;
mod scanning;

pub use counts::{BeforeRestart, Counts};
pub use error::ReloadError;
pub use reading::Reloaded;
pub use scanning::{Pass, read_scanned};
