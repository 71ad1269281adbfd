//! Numbers and bytes of a file: appended to a vector, and read from a slice one after another.
//!
//! All numbers are big-endian.
#![tactic(auto)]

mod error;
pub mod laws;
mod reader;
mod writing;

pub use error::{OutOfMemory, Short};
pub use reader::Reader;
pub use writing::{put, put_byte, put32, put64};
