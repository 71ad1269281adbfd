//! Tests of files of a store whose log is kept in segments.
#![tactic(auto)]

#[cfg(test)]
mod tests;
