//! One batch more at the end of the log.
ghost use Rattle.std.specs.Prelude.{◌≡◌, ◌≤◌, ◌<◌, ◌+◌, ◌^◌, ◌++◌, [], ◌∷◌, ◌==◌, length, IfOk, OnOk, IfSome, is_some, if◌then◌else◌};
ghost use Rattle.dali_store.specs.declared.store.FileName.TheVariants.{Log};
ghost use Rattle.dali_store.specs.Calls.{fewer, PassesFewer, MakesAtMost};
ghost use Rattle.dali_store.specs.Faults.{HasCause};
ghost use Rattle.dali_store.specs.Store.{Files, LeavesOnly, HoldsIn, TornTold};
ghost use Rattle.dali_log.specs.Batch.{batch, closed_gate, IsClosedAt};
ghost use Rattle.dali_log.specs.Appending.{bodies_of, next_place, SomeAdded, AllAdded};

use crate::{Frame, OPEN};
use dali_store::{FileName, Store, StoreFault};

/// Adds a batch to the log that ends at the place `at`, and answers the place where it ends then. Four store calls:
/// behind the gate the length, the records and the next closed gate are written; the log is synced; the gate is
/// opened; the log is synced. A crash at any moment leaves the batches before, or these and the new one, and the other
/// files as they were; after Ok it leaves the new one. After a fault either may be so. It takes no memory beyond the
/// store's own.
pub fn append<V: Store>(store: &mut V, at: u64, frame: &Frame) -> Result<u64, StoreFault>
    requires small { at < 2 ^ 62 }
    requires filled { 0 < length frame.now.body }
    requires closed { IfSome (V.told store.old) (λ _. (c : Files) → V.may_leave store.old c → IsClosedAt at c.log) }

    ensures next { IfOk result (λ next. next ≡ next_place at (frame.now.body ∷ [])) }
    // What reads give: on Ok the batch with its gate and the next one, else these places torn; nothing else changes.
    ensures tells { is_some (V.told store.new) ≡ is_some (V.told store.old) }
    ensures written { OnOk result (HoldsIn Log at (batch frame.now.body ++ closed_gate ∷ []) (V.told store.old) (V.told store.new)) }
    ensures torn { TornTold Log at (length frame.now.body + 6) (V.told store.old) (V.told store.new) }
    // A crash at any moment of the call leaves the batches before, or these and the new one.
    ensures any_moment { IfSome (V.told store.old) (λ _. LeavesOnly V.moment V.left_since store.old store.new
        (SomeAdded (V.may_leave store.old) at (frame.now.body ∷ []))) }
    // After Ok each crash leaves the new one.
    ensures acknowledged { OnOk result (IfSome (V.told store.old) (λ _. (c : Files) → V.may_leave store.new c →
        AllAdded (V.may_leave store.old) at (frame.now.body ∷ []) c)) }
    ensures cause { HasCause (V.faults store.old) (V.faults store.new) result }
    ensures calls { OnOk result (V.lets_pass store.new ≡ fewer 4 (V.lets_pass store.old)) }
    ensures most { MakesAtMost 4 (V.lets_pass store.old) (V.lets_pass store.new) }
    ensures passes { PassesFewer (V.lets_pass store.old) (V.lets_pass store.new) }
{
    store.write_at(FileName::Log, at + 1, frame.whole())?;
    store.sync(FileName::Log)?;
    store.write_at(FileName::Log, at, &[OPEN])?;
    store.sync(FileName::Log)?;
    Ok(at + frame.len() as u64 + 5)
}

/// The same for a frame that may be empty: then no call is made, and the log ends where it did.
pub fn flush<V: Store>(store: &mut V, at: u64, frame: &Frame) -> Result<u64, StoreFault>
    requires small { at < 2 ^ 62 }
    requires closed { IfSome (V.told store.old) (λ _. (c : Files) → V.may_leave store.old c → IsClosedAt at c.log) }

    ensures untouched { length frame.now.body ≡ 0 → store.new ≡ store.old }
    ensures next { IfOk result (λ next. next ≡ next_place at (bodies_of frame.now.body)) }
    ensures tells { is_some (V.told store.new) ≡ is_some (V.told store.old) }
    ensures torn { TornTold Log at (length frame.now.body + 6) (V.told store.old) (V.told store.new) }
    ensures any_moment { IfSome (V.told store.old) (λ _. LeavesOnly V.moment V.left_since store.old store.new
        (SomeAdded (V.may_leave store.old) at (bodies_of frame.now.body))) }
    ensures acknowledged { OnOk result (IfSome (V.told store.old) (λ _. (c : Files) → V.may_leave store.new c →
        AllAdded (V.may_leave store.old) at (bodies_of frame.now.body) c)) }
    ensures cause { HasCause (V.faults store.old) (V.faults store.new) result }
    // Four calls where there are records, else none.
    ensures calls { OnOk result (V.lets_pass store.new ≡ fewer (if length frame.now.body == 0 then 0 else 4) (V.lets_pass store.old)) }
    ensures most { MakesAtMost 4 (V.lets_pass store.old) (V.lets_pass store.new) }
    ensures passes { PassesFewer (V.lets_pass store.old) (V.lets_pass store.new) }
{
    if frame.is_empty() {
        return Ok(at);
    }
    append(store, at, frame)
}
