//! All words of an open operation, one after another.
ghost use Rattle.std.specs.Prelude.{◌≡◌, IsSomeAnd, IfSome};
ghost use Rattle.dali_runs.specs.Regions.{IsOpen};
ghost use Rattle.dali_system.specs.UnderWay.{OneIsUnderWay};
ghost use Rattle.dali_calls.specs.Plans.{with_operation};
ghost use Rattle.dali_calls.specs.Operating.{AreWritten};

use crate::plan::Plan;
use dali_region::Region;
use dali_system::TakeBack;

/// Writes all words of a plan's open operation, which is under way on this region. Takes no memory.
pub fn write_all(plan: &mut Plan, region: &mut Region)
    requires { OneIsUnderWay plan.old.operation region.old }
    ensures is_open { IsSomeAnd plan.new.operation (λ o. IsOpen region.new o.txn o.block) }
    ensures same { IfSome plan.old.operation (λ o. IsSomeAnd plan.new.operation (λ p. (p.txn ≡ o.txn) × (p.block ≡ o.block))) }
    ensures rest { plan.new ≡ with_operation plan.old plan.new.operation }
    ensures written { AreWritten region.old region.new }
{
    while plan.update(region) {}
}

/// Writes all words of the open operation that performs an undo, and is under way on this region. Takes no memory.
pub fn write_back(back: &mut TakeBack, region: &mut Region)
    requires { OneIsUnderWay back.old.operation region.old }
    ensures is_open { IsSomeAnd back.new.operation (λ o. IsOpen region.new o.txn o.block) }
    ensures same { IfSome back.old.operation (λ o. IsSomeAnd back.new.operation (λ p. (p.txn ≡ o.txn) × (p.block ≡ o.block))) }
    ensures rest { back.new ≡ record back.old { operation = back.new.operation } }
    ensures written { AreWritten region.old region.new }
{
    while back.update(region) {}
}
