//! The clean-up of a dead transaction step by step.
ghost use Rattle.std.specs.Prelude.{◌≡◌, None};
ghost use Rattle.dali_att.specs.Table.{undos_at};
ghost use Rattle.dali_system.specs.TakenBack.{next_undo};

use super::operations::{Begun, Noted, die, formatted, is_free_again, put, put_in};
use anyhow::{Context, Result};
use dali_att::State;
use dali_clean::cleanup::Cleaning;
use dali_geometry::Geometry;
use dali_region::{Hold, Receipt, Region};
use dali_runs::Cause;
use dali_system::{NotDead, Operation, System, SystemError, Want};
use std::alloc::Global;
use std::test::*;

// A log of 3 records and 100 bytes, with room for 900 more.
fn system(alloc: Global) -> Option<System> {
    let geometry = Geometry::new(1, 1).ok()?;
    System::new(alloc, geometry, 3, 5, 100, 1000).ok()
}

// Takes back the operation in which a client died.
#[tactic(auto, using(dali_clean::proofs::CleanupLemmas::Claims::is_left))]
fn recover(cleaning: &mut Cleaning, region: &mut Region) -> bool
    requires { cleaning.old.operation ≡ None }
{
    let (Some(_), Some(hold)) = (cleaning.latched(), region.hold()) else {
        return false;
    };
    if cleaning.claimed() && hold.dead && hold.txn == cleaning.txn() {
        return cleaning.latch(region, true).is_ok();
    }
    false
}

// Ends a clean-up that wants nothing else.
#[tactic(auto, using(dali_calls::proofs::TakingBack::claimed_by))]
fn end(cleaning: Cleaning, system: &mut System) -> Option<Result<Receipt, SystemError>> {
    match (cleaning.wants(), system.state(cleaning.txn())) {
        (Want::Done, Some(State::Cleaning { .. })) => Some(cleaning.end(system)),
        _ => None,
    }
}

// A begin, and claims of its live transaction and of one that isn't there.
fn not_claimed(alloc: Global) -> Option<(Begun, Option<NotDead>, Option<NotDead>)> {
    let mut system = system(alloc)?;
    let begun = system.begin();
    let live = Cleaning::claim(&mut system, 5).err();
    let absent = Cleaning::claim(&mut system, 6).err();
    Some((begun, live, absent))
}

#[test]
fn who_is_not_dead_is_not_claimed(rt: HostRuntime) -> Result<()> {
    let seen = not_claimed(rt.alloc()).context("no system")?;
    assert!(rt; seen == (Ok((5, Receipt { number: 3 })), Some(NotDead), Some(NotDead)));
    Ok(())
}

// The first word of a put is written, and then its client dies; what the word is then.
#[tactic(auto, using(dali_calls::proofs::Operating::is_live))]
fn die_in_put(system: &mut System, region: &mut Region) -> Option<u64> {
    let Some(op) = put() else { return None };
    let Ok(mut operation) = Operation::start(region, 1, 5, 7, op, true) else {
        return None;
    };
    let _ = operation.update(region);
    region.mark_dead();
    if die(system, 5, Some(1)) {
        return Some(region.words()[8]);
    }
    None
}

// A clean-up up to its end: what it wants first and then, with the word of the cell's state in between.
fn recovered(cleaning: &mut Cleaning, region: &mut Region) -> (Want, bool, u64, Want)
    requires { cleaning.old.operation ≡ None }
{
    let first = cleaning.wants();
    let done = recover(cleaning, region);
    (first, done, region.words()[8], cleaning.wants())
}

// A client dies in a put, and is cleaned up; a stopped engine refuses the end, and the transaction is dead again.
fn dead_in_put(
    alloc: Global,
) -> Option<
    (
        (Begun, Option<u64>),
        (Want, bool, u64, Want),
        (Option<Noted>, Option<State>),
    ),
> {
    let mut system = system(alloc)?;
    let mut region = formatted()?;
    let begun = (system.begin(), die_in_put(&mut system, &mut region));
    let Ok(mut cleaning) = Cleaning::claim(&mut system, 5) else {
        return None;
    };
    let back = recovered(&mut cleaning, &mut region);
    system.stop();
    let ended = (end(cleaning, &mut system), system.state(5));
    Some((begun, back, ended))
}

#[test]
fn the_operation_of_a_dead_client_comes_first(rt: HostRuntime) {
    let cause = Cause::Store;
    assert!(rt;
        dead_in_put(rt.alloc())
            == Some((
                (Ok((5, Receipt { number: 3 })), Some(1)),
                (Want::Region { region: 1 }, true, 0, Want::Done),
                (
                    Some(Err(SystemError::Stopped { cause })),
                    Some(State::Dead { latched: None })
                )
            ))
    );
}

// Takes the last undo back, which writes one word.
#[tactic(auto, using(dali_calls::proofs::TakingBack::claimed_by))]
fn take_back(
    cleaning: &mut Cleaning,
    region: &mut Region,
    system: &mut System,
) -> Option<Result<Receipt, SystemError>>
    requires closed { cleaning.old.operation ≡ None }
    requires last { cleaning.old.next ≡ next_undo (undos_at system.old.state.table cleaning.old.txn) 0 }
{
    if !cleaning.claimed() {
        return None;
    }
    let (Want::Region { .. }, None) = (cleaning.wants(), cleaning.latched()) else {
        return None;
    };
    let Ok(()) = cleaning.latch(region, true) else {
        return None;
    };
    let _ = cleaning.update(region);
    if cleaning.update(region) {
        return None;
    }
    match system.state(cleaning.txn()) {
        Some(State::Cleaning { .. }) => Some(cleaning.commit(region, system)),
        _ => None,
    }
}

// A system and a region in which the client of the transaction 5 died behind a put, and what was answered to its calls.
fn dead_behind_put(alloc: Global) -> Option<(System, Region, (Begun, Option<Noted>), bool)> {
    let mut system = system(alloc)?;
    let mut region = formatted()?;
    let begun = (system.begin(), put_in(&mut system, &mut region, 5));
    let dead = die(&mut system, 5, None);
    Some((system, region, begun, dead))
}

// The clean-up of a put up to its end: one word is written for the undo, the cell's state.
fn cleaned_up(
    alloc: Global,
) -> Option<
    (
        (Begun, Option<Noted>),
        bool,
        Option<Noted>,
        (u64, (Option<Noted>, Option<State>)),
        Option<bool>,
    ),
> {
    let (mut system, mut region, begun, dead) = dead_behind_put(alloc)?;
    let Ok(mut cleaning) = Cleaning::claim(&mut system, 5) else {
        return None;
    };
    let back = take_back(&mut cleaning, &mut region, &mut system);
    let ended = (end(cleaning, &mut system), system.state(5));
    let left = (region.words()[8], ended);
    Some((begun, dead, back, left, is_free_again(&mut region)))
}

#[test]
fn a_put_is_cleaned_up(rt: HostRuntime) {
    assert!(rt;
        cleaned_up(rt.alloc())
            == Some((
                (
                    Ok((5, Receipt { number: 3 })),
                    Some(Ok(Receipt { number: 4 }))
                ),
                true,
                Some(Ok(Receipt { number: 5 })),
                (0, (Some(Ok(Receipt { number: 6 })), None)),
                Some(true)
            ))
    );
}

// The clean-up of a put whose commit a stopped engine refuses: the put stands as it was, and the stale clean-up wants nothing
// of it.
fn refused(
    alloc: Global,
) -> Option<
    (
        bool,
        bool,
        Want,
        Option<Noted>,
        (u64, Option<Hold>, Want, Option<State>),
    ),
> {
    let (mut system, mut region, begun, dead) = dead_behind_put(alloc)?;
    let Ok(mut cleaning) = Cleaning::claim(&mut system, 5) else {
        return None;
    };
    let first = cleaning.wants();
    system.stop();
    let back = take_back(&mut cleaning, &mut region, &mut system);
    let left = (
        region.words()[8],
        region.hold(),
        cleaning.wants(),
        system.state(5),
    );
    Some((begun.0.is_ok(), dead, first, back, left))
}

#[test]
fn a_refused_commit_gives_the_claim_back(rt: HostRuntime) {
    let cause = Cause::Store;
    assert!(rt;
        refused(rt.alloc())
            == Some((
                true,
                true,
                Want::Region { region: 1 },
                Some(Err(SystemError::Stopped { cause })),
                (1, None, Want::Nothing, Some(State::Dead { latched: None }))
            ))
    );
}
