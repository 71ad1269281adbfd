//! Tests of `dali_record` and `dali_log`.
#![tactic(auto)]

#[cfg(test)]
mod tests;
