//! What a plain replay comes to.
ghost use Rattle.std.specs.Prelude.{◌≡◌};
ghost use Rattle.std.specs.FinMap as finite;

use dali_words::Value;
use std::alloc::AllocError;
use std::collections::BTreeMap;
use std::marker::Model;
use thiserror::Error;

/// Memory was refused.
#[derive(Clone, Copy, Debug, PartialEq, Eq, Error)]
#[error("out of memory")]
pub struct OutOfMemory;

impl From<AllocError> for OutOfMemory {
    fn from(_error: AllocError) -> Self {
        OutOfMemory
    }
}

/// What a plain replay of a log comes to.
///
/// Contracts see the map, the deleted transactions, and whether the replay agrees with the log.
#[derive(Drop)]
pub struct Replay {
    map: BTreeMap<u64, Value>,
    deleted: Vec<u64>,
    agrees: bool,
}

impl Model for Replay {
    ghost use Rattle.std.specs.FinMap as finite;
    ghost use Rattle.dali_replay.specs.Replayed.{Replayed, replayed_code};

    ghost Value = { Replayed };

    ghost coded = { replayed_code };

    ghost view = { λ r. record { map = finite.from_entries r.map.entries; deleted = r.deleted.items; agrees = r.agrees } };
}

impl Replay {
    // A replay that came to these.
    pub(crate) fn new(map: BTreeMap<u64, Value>, deleted: Vec<u64>, agrees: bool) -> Self
        ensures { result ≡ record { map = finite.from_entries map.entries; deleted = deleted.items; agrees = agrees } }
    {
        Replay {
            map,
            deleted,
            agrees,
        }
    }

    /// The records that the surviving transactions leave, by key, where each of their calls gave its logged answer
    /// (`agrees`). Else those that their calls leave up to the first that didn't.
    pub fn map(&self) -> &BTreeMap<u64, Value>
        ensures { finite.from_entries result.now.entries ≡ self.now.map }
    {
        &self.map
    }

    /// The numbers of the committed transactions that a chain of logged reads or undone changes links to a region that failed its
    /// audit, ascending, of all epochs.
    pub fn deleted(&self) -> &[u64]
        ensures { result.now ≡ self.now.deleted }
    {
        &self.deleted
    }

    /// Whether each replayed call gave its logged answer.
    pub fn agrees(&self) -> bool
        ensures { result ≡ self.now.agrees }
    {
        self.agrees
    }
}
