//! Parts of an image file and of the anchor.
ghost use Rattle.std.specs.Prelude.{◌≡◌, ◌≤◌, ◌<◌, ◌+◌, true, false, length, take, drop, IfOk, OnOk, OnErr, IfSome};
ghost use Rattle.dali_store.specs.Calls.{one_less};
ghost use Rattle.dali_store.specs.Faults.{Rose};
ghost use Rattle.dali_store.specs.Store.{file_of};
ghost use Rattle.dali_log.specs.Reads.{OnlyReads};
ghost use Rattle.dali_crash.specs.Disks.Disks.{image_name};

use dali_region::Side;
use dali_store::{FileName, Store, StoreFault};

/// The file of this side's image.
pub fn image_of(side: Side) -> FileName
    ensures { result ≡ image_name side }
{
    match side {
        Side::A => FileName::ImageA,
        Side::B => FileName::ImageB,
    }
}

/// Reads so many bytes as the buffer has. It answers whether all were there.
pub fn fill<V: Store>(
    store: &mut V,
    file: FileName,
    at: u64,
    into: &mut [u8],
) -> Result<bool, StoreFault>
    requires { 0 < length into.old }
    ensures whole { IfOk result (λ whole. whole ≡ true → IfSome (V.told store.old) (λ fs.
        (at + length into.old ≤ length (file_of file fs)) × (into.new ≡ take (length into.old) (drop at (file_of file fs))))) }
    ensures short { IfOk result (λ whole. whole ≡ false → IfSome (V.told store.old) (λ fs. length (file_of file fs) < at + length into.old)) }
    ensures size { length into.new ≡ length into.old }
    ensures reads { OnlyReads V.told V.moment V.left_since V.may_leave store.old store.new }
    ensures later { V.faults store.old ≤ V.faults store.new }
    ensures fault { OnErr result (Rose (V.faults store.old) (V.faults store.new)) }
    ensures kept { OnOk result (V.faults store.new ≡ V.faults store.old) }
    ensures calls { V.lets_pass store.new ≡ one_less (V.lets_pass store.old) }
{
    let count = store.read_at(file, at, into)?;
    Ok(count == into.len())
}
