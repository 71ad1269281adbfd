//! Tests of `dali_core` over a store in memory.

#[cfg(test)]
mod tests;
