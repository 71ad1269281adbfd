//! The anchor's move from one image to the next.
ghost use Rattle.std.specs.Prelude.{◌≡◌, ◌<◌, ◌+◌, ◌^◌, [], ◌∷◌, OnOk, IfSome, is_some};
ghost use Rattle.dali_store.specs.declared.store.FileName.TheVariants.{Anchor};
ghost use Rattle.dali_store.specs.Calls.{fewer, PassesFewer, MakesAtMost};
ghost use Rattle.dali_store.specs.Faults.{HasCause};
ghost use Rattle.dali_store.specs.Store.{Files, LeavesOnly, HoldsIn, TornTold};
ghost use Rattle.dali_log.specs.Batch.{open_gate, closed_gate};
ghost use Rattle.dali_log.specs.Anchors.{HasMoved, MayHaveMoved, AreAnchored};

use dali_store::{FileName, Store, StoreFault};

// A gate that is open, and one that is closed.
const OPEN: u8 = 0xA5;

const CLOSED: u8 = 0;

/// Moves the anchor from this number of open gates to one more. Four store calls: the closed gate behind the next one is
/// written; the anchor is synced; the next gate is opened; the anchor is synced. A crash at any moment leaves as many
/// open gates as before or one more, and the other files as they were; after Ok it leaves one more. After a fault either
/// may be so. It takes no memory beyond the store's own.
pub fn move_anchor<V: Store>(store: &mut V, number: u64) -> Result<(), StoreFault>
    requires small { number < 2 ^ 62 }
    requires anchored { IfSome (V.told store.old) (λ _. AreAnchored (V.may_leave store.old) number) }

    // What reads give: on Ok the open gate and the closed one behind it, else these places torn; nothing else changes.
    ensures tells { is_some (V.told store.new) ≡ is_some (V.told store.old) }
    ensures written { OnOk result (HoldsIn Anchor number (open_gate ∷ closed_gate ∷ []) (V.told store.old) (V.told store.new)) }
    ensures torn { TornTold Anchor number 2 (V.told store.old) (V.told store.new) }
    // A crash at any moment of the call leaves the number of before, or the next one.
    ensures any_moment { IfSome (V.told store.old) (λ _. LeavesOnly V.moment V.left_since store.old store.new
        (MayHaveMoved (V.may_leave store.old) number)) }
    // After Ok each crash leaves the next one.
    ensures moved { OnOk result (IfSome (V.told store.old) (λ _. (c : Files) → V.may_leave store.new c →
        HasMoved (V.may_leave store.old) number c)) }
    ensures cause { HasCause (V.faults store.old) (V.faults store.new) result }
    ensures calls { OnOk result (V.lets_pass store.new ≡ fewer 4 (V.lets_pass store.old)) }
    ensures most { MakesAtMost 4 (V.lets_pass store.old) (V.lets_pass store.new) }
    ensures passes { PassesFewer (V.lets_pass store.old) (V.lets_pass store.new) }
{
    store.write_at(FileName::Anchor, number + 1, &[CLOSED])?;
    store.sync(FileName::Anchor)?; // the closed gate stands
    store.write_at(FileName::Anchor, number, &[OPEN])?;
    store.sync(FileName::Anchor)?; // so does the open one
    Ok(())
}
