//! A system by itself: begins and locks, limits and stops, batches, operations, and what takes them back or frees them.
ghost use Rattle.std.specs.Prelude.{◌≤◌};

use super::operations::{Begun, Noted, die};
use anyhow::{Context, Result};
use dali_att::State;
use dali_geometry::Geometry;
use dali_locks::{LockAnswer, Mode};
use dali_record::{Answer, Call};
use dali_region::Receipt;
use dali_runs::Cause;
use dali_system::{NotDead, System, SystemError};
use std::alloc::Global;
use std::test::*;

// What is answered to a request for a lock, and to a claim.
type Given = Result<LockAnswer, SystemError>;

type Claimed = Result<Option<u32>, NotDead>;

// Commits a transaction of the table.
#[tactic(auto, using(dali_system::proofs::Guards::some_row))]
fn commit(system: &mut System, txn: u64) -> Option<Result<Receipt, SystemError>> {
    match system.state(txn) {
        Some(_) => Some(system.commit(txn)),
        None => None,
    }
}

// A log of 3 records and 100 bytes, and a limit.
fn system_to(alloc: Global, limit: u64) -> Option<System>
    requires { limit ≤ 268435456 }
{
    let geometry = Geometry::new(1, 1).ok()?;
    System::new(alloc, geometry, 3, 5, 100, limit).ok()
}

// Two clients begin, ask for two keys each, and one of them ends; then the other one asks again.
fn two_clients(
    system: &mut System,
) -> (
    (Begun, Begun),
    (Given, Given, Given, Given),
    Noted,
    (Option<Noted>, Option<State>),
    (Noted, Option<State>),
    Given,
) {
    let begun = (system.begin(), system.begin());
    let asked = (
        system.request(5, 7, Mode::Exclusive),
        system.request(6, 7, Mode::Shared),
        system.request(6, 8, Mode::Exclusive),
        system.request(5, 8, Mode::Shared),
    );
    let done = system.done(5, &Call::Get { key: 7 }, &Answer::Missing);
    let committed = (commit(system, 5), system.state(5));
    let ended = (system.ended(5), system.state(5));
    let again = system.request(6, 7, Mode::Shared);
    (begun, asked, done, committed, ended, again)
}

// One test states what it saw in few assertions: each of them takes seconds to prove.
#[test]
fn two_clients_and_one_key(rt: HostRuntime) -> Result<()> {
    let mut system = system_to(rt.alloc(), 1000).context("no system")?;
    let seen = two_clients(&mut system);
    // two records that begin, with 9 bytes each, come first, and one that commits and one that ends come last
    let first = [2, 0, 0, 0, 0, 0, 0, 0, 5, 2, 0, 0, 0, 0, 0, 0, 0, 6];
    let last = [5, 0, 0, 0, 0, 0, 0, 0, 5, 6, 0, 0, 0, 0, 0, 0, 0, 5];
    let logged = system.frame().body();
    assert!(rt;
        (
            seen,
            logged.starts_with(first.as_slice()),
            logged.ends_with(last.as_slice()),
            (system.records(), system.next(), system.end())
        ) == (
            (
                (
                    Ok((5, Receipt { number: 3 })),
                    Ok((6, Receipt { number: 4 }))
                ),
                (
                    Ok(LockAnswer::Granted),
                    Ok(LockAnswer::Busy { holder: 5 }),
                    Ok(LockAnswer::Granted),
                    Ok(LockAnswer::Wait { holder: 6 })
                ),
                Ok(Receipt { number: 5 }),
                (Some(Ok(Receipt { number: 6 })), Some(State::Committed)),
                (Ok(Receipt { number: 7 }), None),
                Ok(LockAnswer::Granted)
            ),
            true,
            true,
            (8, 7, 100 + logged.len() as u64)
        )
    );
    Ok(())
}

// A log with room for one begin: both begins and a call, how far the log goes then, and a commit.
fn limited(
    system: &mut System,
) -> (
    (Begun, Begun),
    Noted,
    (u64, u64, u64),
    (Option<Noted>, u64, Option<Cause>),
) {
    let begun = (system.begin(), system.begin());
    let done = system.done(5, &Call::Get { key: 7 }, &Answer::Missing);
    let counts = (system.records(), system.next(), system.end());
    // what ends a transaction uses no room
    let committed = (commit(system, 5), system.end(), system.stopped());
    (begun, done, counts, committed)
}

// An engine that was stopped refuses all calls.
fn stopped(
    alloc: Global,
    system: &mut System,
) -> (
    (Begun, Option<Cause>),
    Given,
    (Option<Noted>, Noted),
    (Option<SystemError>, u64),
) {
    system.stop();
    system.stop();
    let begun = (system.begin(), system.stopped());
    let asked = system.request(5, 7, Mode::Shared);
    let ended = (commit(system, 5), system.ended(5));
    let ready = (system.ready(alloc, 5).err(), system.records());
    (begun, asked, ended, ready)
}

#[test]
fn a_limit_and_a_stop(rt: HostRuntime) -> Result<()> {
    let mut system = system_to(rt.alloc(), 117).context("no system")?;
    let limited = limited(&mut system);
    let refused = stopped(rt.alloc(), &mut system);
    let full = SystemError::LogFull {
        end: 109,
        limit: 117,
    };
    let stopped = SystemError::Stopped {
        cause: Cause::Store,
    };
    assert!(rt;
        (limited, refused)
            == (
                (
                    (Ok((5, Receipt { number: 3 })), Err(full)),
                    Err(full),
                    (4, 6, 109),
                    (Some(Ok(Receipt { number: 4 })), 118, None)
                ),
                (
                    (Err(stopped), Some(Cause::Store)),
                    Err(stopped),
                    (Some(Err(stopped)), Err(stopped)),
                    (Some(stopped), 5)
                )
            )
    );
    Ok(())
}

// A client dies, and its transaction is claimed, and claimed again; another transaction isn't there.
fn claims(
    system: &mut System,
) -> (
    (Begun, Claimed),
    (bool, Option<State>),
    (Claimed, Claimed, Option<State>),
    Claimed,
) {
    let begun = (system.begin(), system.claim(5));
    let dead = (die(system, 5, Some(1)), system.state(5));
    let claimed = (system.claim(5), system.claim(5), system.state(5));
    let absent = system.claim(9);
    (begun, dead, claimed, absent)
}

// A second copy doesn't start before the first has ended.
fn copies(system: &mut System) -> (bool, bool, bool) {
    let copied = (system.start_copy(), system.start_copy());
    system.end_copy();
    (copied.0, copied.1, system.start_copy())
}

#[test]
fn a_client_dies(rt: HostRuntime) -> Result<()> {
    let mut system = system_to(rt.alloc(), 1000).context("no system")?;
    assert!(rt;
        (claims(&mut system), copies(&mut system))
            == (
                (
                    (Ok((5, Receipt { number: 3 })), Err(NotDead)),
                    (true, Some(State::Dead { latched: Some(1) })),
                    (
                        Ok(Some(1)),
                        Err(NotDead),
                        Some(State::Cleaning { latched: Some(1) })
                    ),
                    Err(NotDead)
                ),
                (true, false, true)
            )
    );
    Ok(())
}

// Records that wait and are taken as one batch, and one behind them.
fn batches(alloc: Global) -> Option<((u64, usize), (usize, bool), (Begun, usize), (usize, u64))> {
    let mut system = system_to(alloc, 1_000_000)?;
    for _ in 0..10_000 {
        let _ = system.begin();
    }
    let waiting = (system.end(), system.frame().len());
    let Ok(frame) = system.take_frame(alloc) else {
        return None;
    };
    let taken = (frame.len(), system.frame().is_empty());
    let next = (system.begin(), system.frame().len());
    system.flushed();
    let flushed = (system.frame().body().len(), system.end());
    Some((waiting, taken, next, flushed))
}

// 10,000 records of 9 bytes, which are more than 64 KiB, taken as one batch and then as another
#[test]
fn many_records_in_a_batch(rt: HostRuntime) {
    assert!(rt;
        batches(rt.alloc())
            == Some((
                (90_100, 90_000),
                (90_000, true),
                (Ok((10_005, Receipt { number: 10_003 })), 9),
                (0, 90_109)
            ))
    );
}
