//! Tests of `dali_system`, `dali_calls`, `dali_clean::cleanup`, `dali_checkpoint` and `dali_core`.
#![tactic(auto)]

#[cfg(test)]
mod tests;
mod whole;
