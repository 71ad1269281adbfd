//! The operation that a client makes next: its region, and how many words it writes.
ghost use Rattle.std.specs.Prelude.{◌≡◌, ◌≤◌, slice_get};
ghost use Rattle.dali_calls.specs.Plans.{is_back, want_of};
ghost use Rattle.dali_turns.specs.Wanted.{onward_region, removed_in, wanted_region};

use crate::client::{Client, State};
use crate::steps::is_flushed;
use dali_calls::Plan;
use dali_core::Core;
use dali_record::{Call, Pending, Undo};
use dali_region::Region;
use dali_store::Store;
use dali_system::Want;
use dali_transcripts::clients::Command;

impl<'a> Client<'a> {
    /// The region of the operation that is its next step, if one is. What takes changes of a call back isn't told.
    pub(crate) fn wanted_region<V: Store>(&self, core: &Core<V>) -> Option<u32>
        ensures { result ≡ wanted_region self.now.state core.now.system.state core.now.vault.flushed }
    {
        match &self.state {
            State::Calling { plan, .. } => onward(plan.get()),
            State::Committing {
                number,
                removals,
                next,
                ..
            } => {
                if core.system.stopped().is_some() || !is_flushed(core, *number) {
                    return None;
                }
                removed(removals, *next)
            }
            _ => None,
        }
    }

    /// How many words that operation writes in its region. It takes as many turns, and two more.
    pub(crate) fn words_next<V: Store>(&self, core: &Core<V>, region: u32) -> u32
        ensures { result ≤ 8 }
    {
        match &self.state {
            State::Calling { plan, .. } => match self.command() {
                Some(Command::Call { call }) => of_call(plan.get(), &call, core, region),
                _ => 0,
            },
            _ => 1, // what frees a cell or an entry writes its state
        }
    }
}

// The region of a plan's next operation, where that one goes on with its call.
fn onward(plan: &Plan) -> Option<u32>
    ensures { result ≡ onward_region (is_back plan.now) (want_of plan.now) }
{
    if plan.is_back() {
        return None;
    }
    match plan.wants() {
        Want::Region { region } => Some(region),
        _ => None,
    }
}

// The region of a removal.
fn removed(removals: &[Pending], next: usize) -> Option<u32>
    ensures { result ≡ removed_in (slice_get removals.now next) }
{
    match removals.get(next) {
        Some(removal) => Some(removal.region),
        None => None,
    }
}

// How many words the next operation of a call writes in this region.
fn of_call<V: Store>(plan: &Plan, call: &Call, core: &Core<V>, number: u32) -> u32
    ensures { result ≤ 8 }
{
    let Some(region) = core.regions.get(number as usize) else {
        return 0;
    };
    if number < core.system.geometry().index() {
        words_in_index(call, core.system.last_undo(plan.txn()), region)
    } else {
        words_in_heap(call, region)
    }
}

fn has_free_cell(region: &Region) -> bool {
    let words = region.words();
    for cell in 1..8 {
        if words[8 * cell] == 0 {
            return true;
        }
    }
    false
}

fn has_free_entry(region: &Region) -> bool {
    let words = region.words();
    for entry in 0..21 {
        if words[3 * entry + 1] == 0 {
            return true;
        }
    }
    false
}

// How many words an operation of the call writes in a heap region: a cell has eight, its state, key and length among them.
fn words_in_heap(call: &Call, region: &Region) -> u32
    ensures { result ≤ 8 }
{
    match call {
        Call::Insert { .. } => { if has_free_cell(region) { 8 } else { 0 } }
        Call::Update { .. } => 6,
        Call::Delete { .. } => 1,
        Call::Get { .. } => 0,
    }
}

// How many in an index region: behind a put the entry is added, behind the end of a cell that of its entry comes, and else the
// call looks for its key.
fn words_in_index(call: &Call, last: Option<Pending>, region: &Region) -> u32
    ensures { result ≤ 8 }
{
    let Some(last) = last else {
        return 0;
    };
    match (call, last.undo) {
        (Call::Insert { key, .. }, Undo::FreeCell { .. }) => {
            if last.key != *key {
                0
            } else {
                words_of_add(region)
            }
        }
        (Call::Delete { key }, Undo::ReviveCell { .. }) => { if last.key == *key { 1 } else { 0 } }
        _ => 0,
    }
}

// An entry, or in a region that is full the mark that it was.
fn words_of_add(region: &Region) -> u32
    ensures { result ≤ 8 }
{
    if has_free_entry(region) {
        return 3;
    }
    if region.words()[0] == 0 { 1 } else { 0 }
}
