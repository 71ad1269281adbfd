//! Tests of a log in segments.
#![tactic(auto)]

#[cfg(test)]
mod tests;
