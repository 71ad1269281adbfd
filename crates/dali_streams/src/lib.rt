//! Sources and sinks of bytes, whose faults are counted.
//!
//! A caller that is handed a [`Source`] or a [`Sink`] answers "the read failed" exactly where the object's own count of faults
//! has risen. Where an object tells its bytes, as those in memory do, contracts speak of them; the standard streams tell none.
#![tactic(auto)]

mod memory;
mod standard;
mod streams;
mod whole;

pub use memory::{MemorySink, MemorySource};
pub use standard::{StdSink, StdSource};
pub use streams::{Failed, Sink, Source};
pub use whole::{ReadError, read_all, write_all};
