//! How far a call has come.
ghost use Rattle.std.specs.Prelude.{◌≡◌, ◌<◌, ◌≤◌, ◌+◌, ℕ, List, Some, None, IfSome, true, false};
ghost use Rattle.dali_geometry.specs.Sizes.{Sizes};
ghost use Rattle.dali_geometry.specs.Places.{regions};
ghost use Rattle.dali_record.specs.Calls.{follow, after_look, after_put, after_add, after_read, after_change, after_kill_cell, after_kill_entry};
ghost use Rattle.dali_record.specs.Spelling.{IsEntry, IsOutcome, IsAnswer, is_answer_of, is_look_outcome, is_put_outcome, is_add_outcome, is_read_outcome, is_change_outcome, is_kill_cell_outcome, is_kill_entry_outcome};
ghost use Rattle.dali_record.specs.declared.records.Call.{Call as CallOf};
ghost use Rattle.dali_record.specs.declared.records.Call.TheVariants.{Update, Delete, Get};
ghost use Rattle.dali_record.specs.declared.operations.Outcome.TheVariants.{Absent};
ghost use Rattle.dali_calls.specs.Steps.{progress_of, next_op, cell_op, region_in, after_cell, is_cell_outcome, answer_of, call_key, call_value, is_insert, is_fresh, adds, most, IsAt, IsNextBlock};

use dali_geometry::Geometry;
use dali_record::{Answer, Block, Call, Op, Outcome};

/// How far a call has come.
#[derive(Clone, Copy, PartialEq, Eq)]
pub enum Stage {
    /// No block yet.
    Fresh,
    /// So many index regions had no entry and an overflow; the next look is in this region.
    Walking { region: u32, looked: u32 },
    /// The walk found nothing.
    Nowhere,
    /// The walk found an entry with this place.
    Somewhere { region: u32, entry: u8, place: u64 },
    /// So many heap regions had no cell; the next one is this.
    Storing { region: u32, tried: u32 },
    /// The value stands at this place; so many index regions had no entry for it, and the next one is this.
    Adding { place: u64, region: u32, tried: u32 },
    /// The cell at this place is dead; the entry in this region is next.
    Removing { region: u32, entry: u8, place: u64 },
    /// Nothing is left to do.
    Finished { answer: Answer },
}

pub(crate) fn key_of(call: &Call) -> u64
    ensures { result ≡ call_key call.now }
{
    match call {
        Call::Insert { key, .. }
        | Call::Update { key, .. }
        | Call::Delete { key }
        | Call::Get { key } => *key,
    }
}

// What a call does in the cell that its entry names.
fn in_cell(geometry: &Geometry, call: &Call, place: u64) -> Option<(u32, Op)>
    ensures { result ≡ cell_op geometry.now call.now place }
{
    let (region, cell) = geometry.cell_of(place)?;
    match call {
        Call::Get { .. } => Some((region, Op::Read { cell })),
        Call::Update { value, .. } => Some((
            region,
            Op::Change {
                cell,
                value: *value,
            },
        )),
        Call::Delete { .. } => Some((region, Op::KillCell { cell })),
        Call::Insert { .. } => None,
    }
}

// The region of that cell.
fn region_of_cell(geometry: &Geometry, call: &Call, place: u64) -> Option<u32>
    ensures { result ≡ region_in (cell_op geometry.now call.now place) }
{
    let (region, _) = geometry.cell_of(place)?;
    match call {
        Call::Insert { .. } => None,
        _ => Some(region),
    }
}

impl Stage {
    /// The next operation of the call, and its region.
    pub(crate) fn next(self, geometry: &Geometry, txn: u64, call: &Call) -> Option<(u32, Op)>
        ensures { result ≡ next_op geometry.now txn call.now self }
    {
        match self {
            Stage::Fresh => Some((geometry.home(key_of(call)), Op::Look)),
            Stage::Walking { region, .. } => Some((region, Op::Look)),
            Stage::Nowhere => match call {
                Call::Insert { value, .. } => Some((
                    geometry.heap_start(txn),
                    Op::Put { value: *value },
                )),
                _ => None,
            },
            Stage::Somewhere { place, .. } => in_cell(geometry, call, place),
            Stage::Storing { region, .. } => match call {
                Call::Insert { value, .. } => Some((region, Op::Put { value: *value })),
                _ => None,
            },
            Stage::Adding { place, region, .. } => Some((region, Op::Add { place })),
            Stage::Removing { region, entry, .. } => Some((region, Op::KillEntry { entry })),
            Stage::Finished { .. } => None,
        }
    }

    /// The region of the next operation: `next` without its operation.
    pub(crate) fn next_region(&self, geometry: &Geometry, txn: u64, call: &Call) -> Option<u32>
        ensures { result ≡ region_in (next_op geometry.now txn call.now self.now) }
    {
        match self {
            Stage::Fresh => Some(geometry.home(key_of(call))),
            Stage::Walking { region, .. } => Some(*region),
            Stage::Nowhere => match call {
                Call::Insert { .. } => Some(geometry.heap_start(txn)),
                _ => None,
            },
            Stage::Somewhere { place, .. } => region_of_cell(geometry, call, *place),
            Stage::Storing { region, .. } => match call {
                Call::Insert { .. } => Some(*region),
                _ => None,
            },
            Stage::Adding { region, .. } => Some(*region),
            Stage::Removing { region, .. } => Some(*region),
            Stage::Finished { .. } => None,
        }
    }

    /// The call's answer, where no operation is left.
    pub(crate) fn answer(self, geometry: &Geometry, call: &Call) -> Option<Answer>
        requires at { IsAt geometry.now call.now self }
        ensures answer { result ≡ answer_of geometry.now call.now self }
        ensures spelled { IfSome result (λ a. IsAnswer a × (is_answer_of call.now a ≡ true)) }
    {
        match self {
            Stage::Nowhere => match call {
                Call::Insert { .. } => None,
                _ => Some(Answer::Missing),
            },
            Stage::Somewhere { place, .. } => match call {
                Call::Insert { .. } => Some(Answer::Exists),
                _ => match geometry.cell_of(place) {
                    Some(_) => None,
                    None => Some(Answer::Odd { place }),
                },
            },
            Stage::Finished { answer } => Some(answer),
            _ => None,
        }
    }

    /// The stage behind the block of the next operation.
    pub(crate) fn after(self, geometry: &Geometry, txn: u64, call: &Call, block: &Block) -> Stage
        requires at { IsAt geometry.now call.now self }
        requires next { IsNextBlock geometry.now txn call.now self block.now }
        ensures follows { follow geometry.now txn (progress_of call.now self) block.now ≡ Some (progress_of call.now result) }
        ensures at { IsAt geometry.now call.now result }
        ensures few { adds block.now.outcome + most self ≤ most result }
        ensures begun { is_fresh result ≡ false }
    {
        let _sizes = geometry.index();
        let region = block.region;
        let outcome = block.outcome;
        match self {
            Stage::Fresh => looked(geometry, region, outcome, 0),
            Stage::Walking { looked: count, .. } => looked(geometry, region, outcome, count),
            Stage::Nowhere => stored(geometry, call, region, outcome, 0),
            Stage::Storing { tried, .. } => stored(geometry, call, region, outcome, tried),
            Stage::Adding { place, tried, .. } => added(geometry, region, outcome, place, tried),
            Stage::Somewhere {
                region,
                entry,
                place,
            } => found(call, outcome, region, entry, place),
            Stage::Removing { place, .. } => removed(outcome, place),
            Stage::Finished { .. } => self,
        }
    }
}

// Behind a look: so many index regions were looked at before.
fn looked(geometry: &Geometry, region: u32, outcome: Outcome, count: u32) -> Stage
    requires region { region < geometry.now.index }
    requires count { count < geometry.now.index }
    requires found { is_look_outcome outcome ≡ true }
    requires in_range { IsOutcome outcome }
    ensures follows { (call : CallOf) → after_look geometry.now (call_key call) region count outcome ≡ Some (progress_of call result) }
    ensures at { (call : CallOf) → IsAt geometry.now call result }
    ensures few { adds outcome ≤ most result }
    ensures begun { is_fresh result ≡ false }
{
    match outcome {
        Outcome::Found { entry, place } => Stage::Somewhere {
            region,
            entry,
            place,
        },
        Outcome::Absent { overflow } => walked(geometry, region, overflow, count),
        _ => Stage::Nowhere,
    }
}

fn walked(geometry: &Geometry, region: u32, overflow: bool, count: u32) -> Stage
    requires region { region < geometry.now.index }
    requires count { count < geometry.now.index }
    ensures follows { (call : CallOf) → after_look geometry.now (call_key call) region count (Absent overflow) ≡ Some (progress_of call result) }
    ensures at { (call : CallOf) → IsAt geometry.now call result }
    ensures begun { is_fresh result ≡ false }
{
    let index = geometry.index();
    if overflow && count + 1 < index {
        return Stage::Walking {
            region: geometry.next_index(region),
            looked: count + 1,
        };
    }
    Stage::Nowhere
}

fn stored(geometry: &Geometry, call: &Call, region: u32, outcome: Outcome, tried: u32) -> Stage
    requires low { geometry.now.index ≤ region }
    requires high { region < regions geometry.now }
    requires tried { tried < geometry.now.heap }
    requires insert { is_insert call.now ≡ true }
    requires found { is_put_outcome outcome ≡ true }
    requires cell { IsOutcome outcome }
    ensures follows { after_put geometry.now (call_key call.now) (call_value call.now) region tried outcome ≡ Some (progress_of call.now result) }
    ensures at { IsAt geometry.now call.now result }
    ensures few { adds outcome ≤ most result }
    ensures begun { is_fresh result ≡ false }
{
    let heap = geometry.heap();
    match outcome {
        Outcome::Put { cell } => Stage::Adding {
            place: geometry.place_of(region, cell),
            region: geometry.home(key_of(call)),
            tried: 0,
        },
        _ => {
            if tried + 1 < heap {
                Stage::Storing {
                    region: geometry.next_heap(region),
                    tried: tried + 1,
                }
            } else {
                Stage::Finished {
                    answer: Answer::FullHeap,
                }
            }
        }
    }
}

fn added(geometry: &Geometry, region: u32, outcome: Outcome, place: u64, tried: u32) -> Stage
    requires region { region < geometry.now.index }
    requires tried { tried < geometry.now.index }
    requires found { is_add_outcome outcome ≡ true }
    ensures follows { (call : CallOf) → is_insert call ≡ true → after_add geometry.now (call_key call) (call_value call) place region tried outcome ≡ Some (progress_of call result) }
    ensures at { (call : CallOf) → is_insert call ≡ true → IsAt geometry.now call result }
    ensures few { adds outcome + 1 ≤ most result }
    ensures begun { is_fresh result ≡ false }
{
    let index = geometry.index();
    match outcome {
        Outcome::Added { .. } => Stage::Finished { answer: Answer::Ok },
        _ => {
            if tried + 1 < index {
                Stage::Adding {
                    place,
                    region: geometry.next_index(region),
                    tried: tried + 1,
                }
            } else {
                Stage::Finished {
                    answer: Answer::FullIndex,
                }
            }
        }
    }
}

// Behind the operation on the cell that the entry names.
fn found(call: &Call, outcome: Outcome, region: u32, entry: u8, place: u64) -> Stage
    requires outcome { is_cell_outcome call.now outcome ≡ true }
    requires in_range { IsOutcome outcome }
    ensures follows { after_cell call.now region entry place outcome ≡ Some (progress_of call.now result) }
    ensures at { (s : Sizes) → region < s.index → IsEntry entry → IsAt s call.now result }
    ensures few { adds outcome ≤ most result }
    ensures begun { is_fresh result ≡ false }
{
    match call {
        Call::Get { .. } => read(outcome, place),
        Call::Update { .. } => changed(outcome, place),
        Call::Delete { .. } => killed(outcome, region, entry, place),
        Call::Insert { .. } => Stage::Nowhere,
    }
}

fn read(outcome: Outcome, place: u64) -> Stage
    requires found { is_read_outcome outcome ≡ true }
    requires in_range { IsOutcome outcome }
    ensures follows { (key : ℕ) → after_read key place outcome ≡ Some (progress_of (Get key) result) }
    ensures at { (s : Sizes) (key : ℕ) → IsAt s (Get key) result }
    ensures few { adds outcome ≤ most result }
    ensures begun { is_fresh result ≡ false }
{
    match outcome {
        Outcome::Value { value } => Stage::Finished {
            answer: Answer::Got { value },
        },
        _ => Stage::Finished {
            answer: Answer::Odd { place },
        },
    }
}

fn changed(outcome: Outcome, place: u64) -> Stage
    requires found { is_change_outcome outcome ≡ true }
    ensures follows { (key : ℕ) (v : List ℕ) → after_change key place v outcome ≡ Some (progress_of (Update key v) result) }
    ensures at { (s : Sizes) (key : ℕ) (v : List ℕ) → IsAt s (Update key v) result }
    ensures few { adds outcome ≤ most result }
    ensures begun { is_fresh result ≡ false }
{
    match outcome {
        Outcome::Changed => Stage::Finished { answer: Answer::Ok },
        _ => Stage::Finished {
            answer: Answer::Odd { place },
        },
    }
}

fn killed(outcome: Outcome, region: u32, entry: u8, place: u64) -> Stage
    requires found { is_kill_cell_outcome outcome ≡ true }
    ensures follows { (key : ℕ) → after_kill_cell key region entry place outcome ≡ Some (progress_of (Delete key) result) }
    ensures at { (s : Sizes) (key : ℕ) → region < s.index → IsEntry entry → IsAt s (Delete key) result }
    ensures few { adds outcome ≤ most result }
    ensures begun { is_fresh result ≡ false }
{
    match outcome {
        Outcome::Killed => Stage::Removing {
            region,
            entry,
            place,
        },
        _ => Stage::Finished {
            answer: Answer::Odd { place },
        },
    }
}

// Behind the kill of the entry.
fn removed(outcome: Outcome, place: u64) -> Stage
    requires found { is_kill_entry_outcome outcome ≡ true }
    ensures follows { (key : ℕ) → after_kill_entry key place outcome ≡ Some (progress_of (Delete key) result) }
    ensures at { (s : Sizes) (key : ℕ) → IsAt s (Delete key) result }
    ensures few { adds outcome + 1 ≤ most result }
    ensures begun { is_fresh result ≡ false }
{
    match outcome {
        Outcome::Killed => Stage::Finished { answer: Answer::Ok },
        _ => Stage::Finished {
            answer: Answer::Odd { place },
        },
    }
}
