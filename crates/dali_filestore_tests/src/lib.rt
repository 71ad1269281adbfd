//! Tests of `dali_filestore`.
#![tactic(auto)]

#[cfg(test)]
mod tests;
