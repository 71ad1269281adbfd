//! The log file: batches of records behind gates, added so that a crash leaves a batch whole or not at all.
//!
//! The byte a5 is an open gate, every other byte a closed one, written as 00. A batch is an open gate, the length of
//! its records in four bytes, and the records; the next gate follows. The log ends at the first closed gate.
#![tactic(auto)]

mod anchoring;
mod entry;
mod error;
mod finding;
mod formatting;
mod frame;
pub mod laws;
mod reader;
mod reading;
mod writing;

pub use anchoring::move_anchor;
pub use entry::{Entry, entry_length};
pub use error::{BatchError, LogError};
pub use finding::{Body, Found, find};
pub use formatting::{format, is_formatted};
pub use frame::Frame;
pub use reader::{LogReader, Placed, format_of};
pub use reading::{Log, read_log};
pub use writing::{append, flush};

/// The most bytes that the records of one batch have.
pub const MOST_BYTES: u32 = 1 << 30;

// The two gates, as they are written.
const OPEN: u8 = 0xa5;

const CLOSED: u8 = 0;
