//! The generated round: for each client transactions whose calls follow from one number, and what is printed of them.
//!
//! Client c, from 1 on, has transactions i from 0 on. Each begins, inserts the key `c * 1000000 + i`, makes at most one
//! more call, on the key before it, and commits. The value and the second call come from a linear congruential generator
//! of 64 bits that starts at `number xor c`. No two clients have a key in common, so no call waits for another client.
#![tactic(auto)]

pub mod laws;
mod numbers;
mod texts;
mod transactions;

pub use numbers::{heap_regions, index_regions};
pub use texts::summary;
pub use transactions::blocks;
