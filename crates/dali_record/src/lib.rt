//! Records of the log, and the operations that their blocks name.
#![tactic(auto)]

mod codec;
mod effects;
mod error;
mod kinds;
pub mod laws;
pub mod lists;
pub mod operations;
pub mod records;

pub use codec::{
    decode, decode_into, encode, encode_back, encode_op, encode_solo, length, op_record_length,
    solo_record_length,
};
pub use effects::{changes, effect, undo_op};
pub use error::DecodeError;
pub use kinds::on_kind;
pub use lists::{Numbers, Regions, Words};
pub use operations::{Block, Op, Outcome, Pending, Undo};
pub use records::{Answer, Call, Record};
