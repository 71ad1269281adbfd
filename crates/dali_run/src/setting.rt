//! How a run is made.

use dali_calls::stepwise::Gate;
use std::alloc::Global;

/// What holds for a whole run.
#[derive(Clone, Copy)]
pub struct Setting<'a, G: Gate> {
    pub alloc: Global,
    /// Whether each operation of a call first compares its region's codeword with the words.
    pub precheck: bool,
    /// How many bytes the log's records may have.
    pub limit: u64,
    /// What each operation passes behind its last update.
    pub gate: &'a G,
}
