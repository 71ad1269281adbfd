//! Audits: each region is compared with its codeword, and the log says what was found.
#![tactic(auto)]

mod audit;
pub mod laws;

pub use audit::{Audit, Finding, Verdict};
