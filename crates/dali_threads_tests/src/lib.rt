//! Tests of `dali_claims` and `dali_notes` in threads that run at once.
#![tactic(auto)]

#[cfg(test)]
mod tests;
