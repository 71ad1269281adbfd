//! Requests for locks, and their release.
ghost use Rattle.std.specs.Prelude.{◌≡◌, ◌+◌, ◌/◌, ◌%◌};

use crate::keys::below;
use crate::timing::Timing;
use anyhow::{Result, ensure};
use dali_locks::{LockAnswer, LockTable, Mode};
use std::alloc::{AllocError, Global};
use std::rt::Clock;
use std::time::Instant;

const CLIENTS: u64 = 64;

const KEYS: u64 = 100_000;

/// How many requests a transaction makes before it gives its locks back.
const REQUESTS: u64 = 100;

// How often the client of this request has asked, counted on from the client's own number.
fn step_of(place: u64) -> u64
    ensures { result ≡ place / 64 + place % 64 }
{
    place / CLIENTS + place % CLIENTS
}

// The transaction of this request.
fn txn_of(place: u64) -> u64 {
    step_of(place) / REQUESTS * CLIENTS + place % CLIENTS + 1
}

fn mode_of(place: u64) -> Mode {
    if place % 4 == 0 {
        Mode::Exclusive
    } else {
        Mode::Shared
    }
}

// The transaction of this request gives its locks back where it was its last.
fn give_back(locks: &mut LockTable, place: u64) {
    if step_of(place) % REQUESTS == REQUESTS - 1 {
        locks.release_all(txn_of(place));
    }
}

// The request with this number.
fn ask(locks: &mut LockTable, place: u64) -> Result<LockAnswer, AllocError> {
    let answer = locks.request(txn_of(place), below(KEYS, place), mode_of(place))?;
    give_back(locks, place);
    Ok(answer)
}

// One more where a lock was granted.
fn counted(answer: LockAnswer, granted: u64) -> u64 {
    match answer {
        LockAnswer::Granted => granted.wrapping_add(1),
        LockAnswer::Wait { .. } | LockAnswer::Busy { .. } => granted,
    }
}

/// So many requests by 64 transactions in turn, each of which gives its locks back after a hundred.
pub fn run(clock: &impl Clock, alloc: Global, count: u32) -> Result<Timing> {
    let mut locks = LockTable::new(alloc);
    let mut granted: u64 = 0;
    let start = Instant::now(clock)?;
    for place in 0..count as u64 {
        let answer = ask(&mut locks, place)?;
        granted = counted(answer, granted);
    }
    let timing = Timing::since(clock, start, count as u64, "requests")?;
    ensure!(granted > 0, "no lock was granted");
    Ok(timing.checked(granted))
}
