//! One history of entries for all threads, which exists in proofs alone: what threads share is one word, its length.
#![tactic(auto)]

mod history;

pub use history::{Anything, Note, Notes, Rules, Tells};
