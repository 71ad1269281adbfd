//! The bytes of an image file and of the anchor, read and written.
//!
//! An image file is a header of 64 bytes, the 64 words of each region, and the table of the transactions that had begun
//! and not ended, with their undos. The anchor has one open gate for each completed checkpoint or image of a restart,
//! and a closed one behind them. All numbers are big-endian.
#![tactic(auto)]

mod anchor;
mod decoding;
mod error;
mod header;
pub mod laws;
mod parts;
mod reading;
mod region;
mod table;

pub use anchor::current;
pub use error::ImageError;
pub use header::{Expected, Header, header_bytes};
pub use reading::{read_header, read_region, read_regions, read_table};
pub use region::{region_bytes, regions_bytes};
pub use table::table_bytes;
