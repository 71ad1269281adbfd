//! The replay of a whole log.
ghost use Rattle.std.specs.Prelude.{IfOk};
ghost use Rattle.dali_replay.specs.Replayed.{IsReplay};

use crate::calls::replay_all;
use crate::deleted::deleted;
use crate::outcome::{OutOfMemory, Replay};
use dali_record::Record;
use std::alloc::Global;
use std::collections::BTreeMap;

/// Replays the committed transactions that aren't deleted on an empty map, one after another, in the order of their Commits. It looks back
/// from each block over all earlier ones, so it is slow where there is damage. It takes memory for the map, the deleted transactions, and a mark
/// for each record of an epoch.
pub fn replay(alloc: Global, log: &[Record]) -> Result<Replay, OutOfMemory>
    ensures { IfOk result (λ replay. IsReplay log.now replay) }
{
    let deleted = deleted(alloc, log)?;
    let mut map = BTreeMap::new(alloc);
    let agrees = replay_all(&mut map, log, &deleted)?;
    Ok(Replay::new(map, deleted, agrees))
}
