//! Records as bytes.
mod failure;
mod fitting;
mod lengths;
mod reading;
mod writing;

pub use lengths::{length, op_record_length, solo_record_length};
pub use reading::{decode, decode_into};
pub use writing::{encode, encode_back, encode_op, encode_solo};

/// The one version of the format.
const VERSION: u8 = 1;
