//! The first batch of a log.
ghost use Rattle.std.specs.Prelude.{◌≡◌, ◌<◌, ◌≤◌, true, false, [], ◌∷◌, length, IfOk, OnOk, IfSome, is_some};
ghost use Rattle.dali_store.specs.Calls.{fewer, PassesFewer, MakesAtMost};
ghost use Rattle.dali_store.specs.Faults.{HasCause};
ghost use Rattle.dali_store.specs.Store.{Files, LeavesOnly};
ghost use Rattle.dali_log.specs.Batch.{IsClosedAt, IsUnformatted};
ghost use Rattle.dali_log.specs.Appending.{next_place};
ghost use Rattle.dali_log.specs.Reads.{OnlyReads};
ghost use Rattle.dali_log.specs.Formatting.{CloseLeaves, AreClosed, FormatLeaves, IsFormattedBy};

use crate::{CLOSED, Frame, OPEN, append};
use dali_store::{FileName, Store, StoreFault};

/// Whether a log has a first batch: it has two bytes or more, and its first gate is open. It syncs the log before it
/// looks, so that after the answer no a crash leaves a log without batches, as `format` wants it. It takes no memory.
pub fn is_formatted<V: Store>(store: &mut V) -> Result<bool, StoreFault>
    ensures yes { IfOk result (λ yes. yes ≡ true → IfSome (V.told store.old) (λ fs. IsUnformatted fs.log → ⊥)) }
    ensures no { IfOk result (λ yes. yes ≡ false → IfSome (V.told store.old) (λ fs. IsUnformatted fs.log)) }
    // What `format` wants.
    ensures ready { IfOk result (λ yes. yes ≡ false → IfSome (V.told store.new) (λ _. (c : Files) → V.may_leave store.new c → IsUnformatted c.log)) }
    ensures synced { OnOk result (IfSome (V.told store.old) (λ fs. (c : Files) → V.may_leave store.new c → c.log ≡ fs.log)) }
    ensures reads { OnlyReads V.told V.moment V.left_since V.may_leave store.old store.new }
    ensures cause { HasCause (V.faults store.old) (V.faults store.new) result }
    ensures calls { OnOk result (V.lets_pass store.new ≡ fewer 3 (V.lets_pass store.old)) }
    ensures most { MakesAtMost 3 (V.lets_pass store.old) (V.lets_pass store.new) }
    ensures passes { PassesFewer (V.lets_pass store.old) (V.lets_pass store.new) }
{
    store.sync(FileName::Log)?;
    let length = store.length(FileName::Log)?;
    let mut gate = [CLOSED];
    store.read_at(FileName::Log, 0, &mut gate)?;
    Ok(length >= 2 && gate[0] == OPEN)
}

// Closes the first gate of the log where it has at most one byte.
fn close_log<V: Store>(store: &mut V) -> Result<(), StoreFault>
    requires unformatted { IfSome (V.told store.old) (λ _. (c : Files) → V.may_leave store.old c → IsUnformatted c.log) }
    ensures tells { is_some (V.told store.new) ≡ is_some (V.told store.old) }
    ensures any_moment { IfSome (V.told store.old) (λ _. LeavesOnly V.moment V.left_since store.old store.new (CloseLeaves (V.may_leave store.old))) }
    ensures closed { OnOk result (IfSome (V.told store.old) (λ _. (c : Files) → V.may_leave store.new c → IsClosedAt 0 c.log)) }
    ensures cause { HasCause (V.faults store.old) (V.faults store.new) result }
    ensures most { MakesAtMost 3 (V.lets_pass store.old) (V.lets_pass store.new) }
    ensures passes { PassesFewer (V.lets_pass store.old) (V.lets_pass store.new) }
{
    if store.length(FileName::Log)? >= 2 {
        return store.sync(FileName::Log);
    }
    store.write_at(FileName::Log, 0, &[CLOSED])?;
    store.sync(FileName::Log)
}

// Closes the first gates of both files, and syncs them.
fn close_gates<V: Store>(store: &mut V) -> Result<(), StoreFault>
    requires unformatted { IfSome (V.told store.old) (λ _. (c : Files) → V.may_leave store.old c → IsUnformatted c.log) }
    ensures tells { is_some (V.told store.new) ≡ is_some (V.told store.old) }
    ensures any_moment { IfSome (V.told store.old) (λ _. LeavesOnly V.moment V.left_since store.old store.new (CloseLeaves (V.may_leave store.old))) }
    ensures closed { OnOk result (IfSome (V.told store.old) (λ _. (c : Files) → V.may_leave store.new c → AreClosed c)) }
    ensures cause { HasCause (V.faults store.old) (V.faults store.new) result }
    ensures most { MakesAtMost 5 (V.lets_pass store.old) (V.lets_pass store.new) }
    ensures passes { PassesFewer (V.lets_pass store.old) (V.lets_pass store.new) }
{
    close_log(store)?;
    store.write_at(FileName::Anchor, 0, &[CLOSED])?;
    store.sync(FileName::Anchor)?;
    Ok(())
}

/// Formats a log without batches: writes the closed gate of the anchor and, where the log has at most one byte, its
/// closed gate; syncs both files; and appends the first batch. It answers the place where the log ends then. A crash at
/// any moment leaves a log without batches, or the first batch; after Ok it leaves the batch. After a fault either may be
/// so. It takes no memory beyond the store's own.
pub fn format<V: Store>(store: &mut V, frame: &Frame) -> Result<u64, StoreFault>
    requires filled { 0 < length frame.now.body }
    requires unformatted { IfSome (V.told store.old) (λ _. (c : Files) → V.may_leave store.old c → IsUnformatted c.log) }

    ensures next { IfOk result (λ next. next ≡ next_place 0 (frame.now.body ∷ [])) }
    ensures tells { is_some (V.told store.new) ≡ is_some (V.told store.old) }
    // A crash at any moment of the call leaves no batch, or the first one.
    ensures any_moment { IfSome (V.told store.old) (λ _. LeavesOnly V.moment V.left_since store.old store.new
        (FormatLeaves (V.may_leave store.old) frame.now.body)) }
    // After Ok each crash leaves it.
    ensures acknowledged { OnOk result (IfSome (V.told store.old) (λ _. (c : Files) → V.may_leave store.new c →
        IsFormattedBy (V.may_leave store.old) frame.now.body c)) }
    ensures cause { HasCause (V.faults store.old) (V.faults store.new) result }
    ensures most { MakesAtMost 9 (V.lets_pass store.old) (V.lets_pass store.new) }
    ensures passes { PassesFewer (V.lets_pass store.old) (V.lets_pass store.new) }
{
    close_gates(store)?;
    append(store, 0, frame)
}
