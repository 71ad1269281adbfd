//! A flush of a store, as a step of crash images.
ghost use Rattle.std.specs.Prelude.{◌≡◌, ◌<◌, ◌^◌, IfOk, OnOk, IfSome};
ghost use Rattle.dali_store.specs.Faults.{HasCause};
ghost use Rattle.dali_store.specs.Store.{Files};
ghost use Rattle.dali_log.specs.Batch.{IsClosedAt};
ghost use Rattle.dali_log.specs.Appending.{bodies_of, next_place};
ghost use Rattle.dali_crash.specs.Disks.Bridges.{GoesOnBy, StopsBy, IsRightIn};

use dali_log::Frame;
use dali_store::{Store, StoreFault};

/// Flushes a frame at the end of the log. Let each disk that a crash may leave spell files that came along steps to a
/// point. Let the log end where its vault says, and the frame have the records that were taken there to be flushed.
/// After Ok they have come along the flush too; after a fault, along the fault. At each moment of the call a crash
/// leaves files that restart right. All this holds of a store that tells what its reads give.
pub fn flush<V: Store>(store: &mut V, at: u64, frame: &Frame) -> Result<u64, StoreFault>
    requires small { at < 2 ^ 62 }
    requires closed { IfSome (V.told store.old) (λ _. (c : Files) → V.may_leave store.old c → IsClosedAt at c.log) }

    ensures next { IfOk result (λ next. next ≡ next_place at (bodies_of frame.now.body)) }
    ensures goes_on { OnOk result (IfSome (V.told store.old) (λ _. GoesOnBy (V.may_leave store.old) (V.may_leave store.new) at frame.now.body)) }
    ensures stops { IfSome (V.told store.old) (λ _. StopsBy (V.may_leave store.old) (V.may_leave store.new) at frame.now.body) }
    ensures cause { HasCause (V.faults store.old) (V.faults store.new) result }
    ensures any_moment { IfSome (V.told store.old) (λ _. IsRightIn (V.may_leave store.old) (V.left_since store.new (V.moment store.old)) at frame.now.body) }
{
    dali_log::flush(store, at, frame)
}
