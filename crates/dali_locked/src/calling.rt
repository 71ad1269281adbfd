//! What a client calls for its transaction between its operations, with the waits and the wakes.
ghost use Rattle.std.specs.Prelude.{◌≡◌, IfOk, IfErr};
ghost use Rattle.dali_record.specs.declared.records.Record.TheVariants.{Begin};
ghost use Rattle.dali_system.specs.Refused.{refusal};
ghost use Rattle.dali_locked.specs.Begun.{Led};
ghost use Rattle.dali_locked.specs.Sights.{HasLogged, Knows};
ghost use Rattle.dali_locked.specs.SystemSteps.{Resting, StaysBut, Takes};
ghost use Rattle.dali_locked.specs.Locking.{Advances, HasAtMost, HasMet, IsCauseOf, KeepsAll};

use crate::client::ClientNote;
use crate::history::{Beginning, Home, Mark, OfRound};
use crate::locks::Locks;
use crate::system::LockedSystem;
use crate::vault::VaultBeginning;
use dali_notes::Notes;
use dali_region::Receipt;
use dali_schedule::Schedule;
use dali_store::Store;
use dali_system::SystemError;
use std::sync::Wait;

// The client meets why the system refused the begin of a transaction: a stop, or a full log. Of want of memory nothing is told.
fn meet_unbegun<B: Beginning, H: Home>(
    system: &mut LockedSystem<B, H>,
    notes: &Notes<Mark, OfRound<B>>,
    client: &mut ClientNote<B, H>,
    cause: SystemError,
)
    requires home { notes.now.table ≡ H.table }
    requires led { Led B.begun client.old.seen }
    requires cause { IsCauseOf (refusal system.old.served.state 9) cause }
    ensures met { HasMet B.begun cause client.old client.new }
    ensures onward { KeepsAll B.begun client.old client.new }
{
    match cause {
        SystemError::Stopped { .. } => {
            system.meet_stop(notes, client);
        }
        SystemError::LogFull { end, limit } => {
            system.meet_full_begin(notes, client, end, limit);
        }
        SystemError::OutOfMemory => {}
    }
}

impl<B: Beginning + VaultBeginning<V>, H: Home, V: Store, S: Schedule> Locks<B, H, V, S> {
    /// The client begins a transaction, as `LockedSystem::begin`. Where it is refused for a full log or a stop the client meets that.
    pub fn begin<R: Wait>(
        &self,
        rt: &R,
        client: &mut ClientNote<B, H>,
    ) -> Result<(u64, Receipt), SystemError>
        ensures rests { IfOk result (λ given. Knows B.begun (Resting client.old.id given.0) client.new) }
        ensures takes { IfOk result (λ given. Takes B.begun client.old given.0 client.new) }
        ensures receipt { IfOk result (λ given. Knows B.begun (HasLogged given.1.number (Begin given.0)) client.new) }
        ensures ascends { IfOk result (λ given. Knows B.begun (HasAtMost given.1.number) client.old) }
        ensures onward { IfOk result (λ given. Advances B.begun client.old client.new × StaysBut B.begun client.old given.0 client.new) }
        ensures met { IfErr result (λ e. HasMet B.begun e client.old client.new × KeepsAll B.begun client.old client.new) }
    {
        self.schedule.step(rt, client.seat());
        let mut system = self.system.lock(rt);
        match system.begin(&self.notes, client) {
            Ok(given) => Ok(given),
            Err(cause) => {
                meet_unbegun(&mut system, &self.notes, client, cause);
                Err(cause)
            }
        }
    }
}
