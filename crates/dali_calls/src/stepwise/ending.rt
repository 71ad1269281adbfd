//! The answer of a call.
ghost use Rattle.std.specs.Prelude.{◌≡◌, List, Some, OnOk, OnErr, IfOk, IfErr};
ghost use Rattle.dali_record.specs.declared.records.Record.{Record};
ghost use Rattle.dali_record.specs.declared.records.Record.TheVariants.{Done};
ghost use Rattle.dali_region.specs.State.{RegionState};
ghost use Rattle.dali_runs.specs.State.{VaultState};
ghost use Rattle.dali_runs.specs.Steps.{done_logged};
ghost use Rattle.dali_runs.specs.Keeps.{HasRoom};
ghost use Rattle.dali_system.specs.declared.want.Want.TheVariants.{Done as AnswerIsNext};
ghost use Rattle.dali_calls.specs.Steps.{answer_of};
ghost use Rattle.dali_calls.specs.Plans.{want_of, answered};
ghost use Rattle.dali_calls.specs.declared.single.error.StepError.TheVariants.{System as BySystem};
ghost use Rattle.dali_calls.specs.Single.Refusals.{IsUnanswered};
ghost use Rattle.dali_calls.specs.Single.Stands.{core, IsAtRest, AtPlan};
ghost use Rattle.dali_calls.specs.Stepwise.Stepwise.{AnswersNow};

use crate::Plan;
use dali_record::Answer;
use dali_system::{System, SystemError, Want};

/// Logs the answer of a plan that wants nothing else. Refused where the system has stopped, where the log has no room for the
/// record, or for want of memory for it; nothing has changed then.
pub fn answer(plan: &mut Plan, system: &mut System) -> Result<Answer, SystemError>
    requires wants { want_of plan.old ≡ AnswerIsNext }
    ensures given { IfOk result (λ a. answer_of plan.old.geometry plan.old.call plan.old.stage ≡ Some a) }
    ensures ok { IfOk result (λ a. system.new ≡ record system.old { state = done_logged system.old.state plan.old.txn plan.old.call a }) }
    ensures room { IfOk result (λ a. HasRoom system.old.state (Done plan.old.txn plan.old.call a)) }
    ensures answered { OnOk result (plan.new ≡ answered plan.old) }
    ensures answers { IfOk result (λ a. (L : List Record) (rs : List RegionState) (v : VaultState) → IsAtRest rs system.old.state plan.old
        → AtPlan L (core rs system.old.state v) plan.old → AnswersNow L (core rs system.old.state v) plan.old a (core rs system.new.state v)) }
    ensures err { OnErr result ((plan.new ≡ plan.old) × (system.new ≡ system.old)) }
    ensures cause { IfErr result (λ e. IsUnanswered plan.old system.old.state (BySystem e)) }
{
    let Want::Done = plan.wants() else {
        unreachable!()
    };
    let (answer, _) = plan.done(system)?;
    Ok(answer)
}
