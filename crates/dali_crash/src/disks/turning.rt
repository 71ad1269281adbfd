//! The anchor's move as a step of crash images.
ghost use Rattle.std.specs.Prelude.{◌<◌, ◌^◌, OnOk, IfSome};
ghost use Rattle.dali_store.specs.declared.store.FileName.TheVariants.{Anchor};
ghost use Rattle.dali_store.specs.Faults.{HasCause};
ghost use Rattle.dali_log.specs.Anchors.{AreAnchored};
ghost use Rattle.dali_crash.specs.Disks.Bridges.{TurnsBy, TurnStopsBy, TurnIsRightIn};

use dali_log::move_anchor;
use dali_store::{Store, StoreFault};

/// The same as a step. Let each disk that a crash may leave spell files that came along steps to a point, with this
/// number as its current one, and hold the next image as the point says. After Ok they have come along the anchor's move
/// too; after a fault, along the fault. At each moment of the call a crash leaves files that restart right. All this
/// holds of a store that tells what its reads give.
pub fn turn<V: Store>(store: &mut V, number: u64) -> Result<(), StoreFault>
    requires small { number < 2 ^ 62 }
    requires anchored { IfSome (V.told store.old) (λ _. AreAnchored (V.may_leave store.old) number) }

    ensures turns { OnOk result (IfSome (V.told store.old) (λ _. TurnsBy (V.may_leave store.old) (V.may_leave store.new) number)) }
    ensures stops { IfSome (V.told store.old) (λ _. TurnStopsBy (V.may_leave store.old) (V.may_leave store.new) number) }
    ensures any_moment { IfSome (V.told store.old) (λ _. TurnIsRightIn (V.may_leave store.old) (V.left_since store.new (V.moment store.old)) number) }
    ensures cause { HasCause (V.faults store.old) (V.faults store.new) result }
{
    move_anchor(store, number)
}
