//! The plan of a call, as a client's state holds it.
ghost use Rattle.std.specs.Prelude.{◌≡◌, IfOk};

use dali_bytes::OutOfMemory;
use dali_calls::Plan;
use std::alloc::Global;
use std::marker::Model;

/// A plan in a box. It has room for an operation of some 750 bytes, and a client's state is moved in each step.
#[derive(Drop)]
pub(crate) struct BoxedPlan {
    pub(crate) plan: Box<Plan>,
}

impl Model for BoxedPlan {
    ghost use Rattle.dali_calls.specs.Plans.{Planned};

    ghost Value = { Planned };

    ghost view = { λ boxed. boxed.plan.value };
}

impl BoxedPlan {
    /// Puts a plan into a box.
    pub(crate) fn new(alloc: Global, plan: Plan) -> Result<Self, OutOfMemory>
        ensures { IfOk result (λ boxed. boxed ≡ plan) }
    {
        let plan = Box::new(alloc, plan)?;
        Ok(BoxedPlan { plan })
    }

    /// The plan.
    pub(crate) fn get(&self) -> &Plan
        ensures { result.now ≡ self.now }
    {
        &self.plan
    }
}
