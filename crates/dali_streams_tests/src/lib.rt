//! Tests of `dali_streams` and `dali_memstore`.
#![tactic(auto)]

#[cfg(test)]
mod tests;
