//! A plan whose words are written one by one, as by who gives up the region between two of them.
ghost use Rattle.std.specs.Prelude.{IfSome, IsSomeAnd};
ghost use Rattle.dali_runs.specs.Regions.{IsOpen};
ghost use Rattle.dali_system.specs.UnderWay.{OneIsUnderWay};

use anyhow::{Context, Result};
use dali_calls::Plan;
use dali_geometry::Geometry;
use dali_record::Call;
use dali_region::Region;
use dali_system::{System, Want};
use dali_words::Value;
use std::alloc::Global;
use std::test::*;

/// Of an operation: whether all its words were written at its latch, how many were written then, and whether the plan tells behind
/// its record that an operation is written.
pub(super) type Seen = (bool, u32, bool);

// Writes the words of a plan's open operation, of which there are eight at most, until it tells that all are written.
#[tactic(auto, using(dali_system::proofs::UnderWays::written_is_open))]
fn write_words(plan: &mut Plan, region: &mut Region) -> Option<u32>
    requires { OneIsUnderWay plan.old.operation region.old }
    ensures { IfSome result (λ _. IsSomeAnd plan.new.operation (λ o. IsOpen region.new o.txn o.block)) }
{
    for words in 0..9 {
        if plan.is_written() {
            return Some(words);
        }
        plan.update(region);
    }
    None
}

/// Makes the plan's next operation on this region.
#[tactic(auto, using(dali_system::proofs::Guards::some_row))]
pub(super) fn advance(plan: &mut Plan, region: &mut Region, system: &mut System) -> Option<Seen> {
    if plan.is_open() {
        return None;
    }
    let Want::Region { .. } = plan.wants() else {
        return None;
    };
    let Ok(()) = plan.latch(region, true) else {
        return None;
    };
    let at_once = plan.is_written();
    let Some(words) = write_words(plan, region) else {
        return None;
    };
    let Some(_) = system.state(plan.txn()) else {
        return None;
    };
    match plan.commit(region, system) {
        Ok(_) => Some((at_once, words, plan.is_written())),
        Err(_) => None,
    }
}

// An insert over a formatted region of each kind: its look, its put and its entry.
fn insert(alloc: Global) -> Option<(bool, Seen, Seen, Seen, bool)> {
    let geometry = Geometry::new(1, 1).ok()?;
    let mut system = System::new(alloc, geometry, 3, 5, 100, 1_000_000).ok()?;
    let (txn, _) = system.begin().ok()?;
    let mut index = Region::load(geometry.formatted(0));
    let mut heap = Region::load(geometry.formatted(1));
    let value = Value::from_bytes(b"abc")?;
    let mut plan = Plan::new(geometry, txn, Call::Insert { key: 7, value });
    let before = plan.is_written();
    let look = advance(&mut plan, &mut index, &mut system)?;
    let put = advance(&mut plan, &mut heap, &mut system)?;
    let entry = advance(&mut plan, &mut index, &mut system)?;
    Some((before, look, put, entry, plan.wants() == Want::Done))
}

#[test]
fn a_plan_tells_when_all_words_are_written(rt: HostRuntime) -> Result<()> {
    let seen = insert(rt.alloc()).context("a refusal")?;
    assert!(rt;
        seen == (
            false,
            (true, 0, false),
            (false, 8, false),
            (false, 3, false),
            true
        )
    );
    Ok(())
}
