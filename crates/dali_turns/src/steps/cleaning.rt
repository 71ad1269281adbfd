//! What a client does with a dead transaction that is in its way.
ghost use Rattle.std.specs.Prelude.{◌≡◌, Some, None, Ok, IfSome, IfOk, OnErr};
ghost use Rattle.dali_runs.specs.State.{state_of};
ghost use Rattle.dali_runs.specs.declared.causes.Cause.{Cause as IsCause};
ghost use Rattle.dali_calls.specs.Flags.{FlagsStay};
ghost use Rattle.dali_clean.specs.Cleaned.{MayClean, IsDead};
ghost use Rattle.dali_transcripts.specs.declared.clients.line.Why.TheVariants.{Stopped as IsStopped};
ghost use Rattle.dali_turns.specs.Ends.{IsCleanedUp, IsLeftDead};

use crate::run::no_run;
use dali_bytes::OutOfMemory;
use dali_clean::CleanError;
use dali_core::{Core, clean};
use dali_store::Store;
use dali_transcripts::clients::Why;

/// Cleans up a dead transaction that is in the way. Answers why what met it is refused, where the engine is stopped.
pub(crate) fn clean_up<V: Store>(core: &mut Core<V>, txn: u64) -> Result<Option<Why>, OutOfMemory>
    ensures vault { core.new.vault ≡ core.old.vault }
    ensures flags { FlagsStay core.old.regions.items core.new.regions.items }
    ensures cleaned { result ≡ Ok None → IsCleanedUp txn core.old.regions.items core.old.system.state core.new.regions.items core.new.system.state }
    ensures runs { result ≡ Ok None → core.old.system.state.stop ≡ None }
    ensures refused { IfOk result (λ o. IfSome o (λ why. (cause : IsCause) × (why ≡ IsStopped cause) × (core.old.system.state.stop ≡ Some cause)
        × (MayClean core.old.regions.items core.old.system.state txn → IsLeftDead txn core.old.regions.items core.old.system.state core.new.regions.items core.new.system.state))) }
    ensures memory { OnErr result (MayClean core.old.regions.items core.old.system.state txn → IsDead (state_of core.old.system.state txn)
        → (core.old.system.state.stop ≡ None) × IsLeftDead txn core.old.regions.items core.old.system.state core.new.regions.items core.new.system.state) }
{
    match clean(core, txn) {
        Ok(()) => Ok(None),
        Err(CleanError::NotDead) => no_run(),
        Err(CleanError::Stopped { cause }) => Ok(Some(Why::Stopped { cause })),
        Err(CleanError::OutOfMemory) => Err(OutOfMemory),
    }
}
