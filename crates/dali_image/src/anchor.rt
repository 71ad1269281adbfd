//! The anchor.
ghost use Rattle.std.specs.Prelude.{◌≡◌, ◌<◌, ◌^◌, ℕ, length, IfOk, IfErr, IsErrOf, IfSome, IsNone};
ghost use Rattle.dali_store.specs.declared.store.FileName.{FileName};
ghost use Rattle.dali_store.specs.declared.store.FileName.TheVariants.{Anchor};
ghost use Rattle.dali_store.specs.Calls.{MakesAtMost};
ghost use Rattle.dali_log.specs.Batch.{IsOpenAt};
ghost use Rattle.dali_log.specs.Reads.{ReadsOrFails};
ghost use Rattle.dali_log.specs.Anchors.{IsAnchor};
ghost use Rattle.dali_image.specs.Reading.{NoAnchor};

use crate::ImageError;
use crate::parts::fill;
use dali_store::{FileName, Store};
use std::alloc::Global;

// An open gate; every other byte is a closed one.
const OPEN: u8 = 0xa5;

// How many open gates stand before the first closed one. None where all are open.
fn open_gates(gates: &[u8]) -> Option<usize>
    ensures some { IfSome result (λ n. IsAnchor gates.now n) }
    ensures none { IsNone result → (i : ℕ) → i < length gates.now → IsOpenAt i gates.now }
{
    for place in 0..gates.len() {
        if gates[place] != OPEN {
            return Some(place);
        }
    }
    None
}

/// The number of the current image, which is below 2^62: how many open gates the anchor begins with. At 0 there is none,
/// and the formatted regions count as it; else it is image A where the number is odd and image B where it is even.
/// `BadImage` of the anchor exactly where it is empty or all its gates are open, at its length. `Fault` exactly where the
/// store's count of faults rose. It takes memory for the anchor's bytes.
pub fn current<V: Store>(alloc: Global, store: &mut V) -> Result<u64, ImageError>
    ensures ok { IfOk result (λ number. IfSome (V.told store.old) (λ fs. IsAnchor fs.anchor number)) }
    ensures small { IfOk result (λ number. number < 2 ^ 62) }
    ensures bad { IfErr result (λ e. (file : FileName) (at : ℕ) → e ≡ ImageError.BadImage file at → (file ≡ Anchor) × IfSome (V.told store.old) (λ fs. NoAnchor fs.anchor at)) }
    ensures store { ReadsOrFails V.Store (IsErrOf result ImageError.Fault) store.old store.new }
    ensures most { MakesAtMost 2 (V.lets_pass store.old) (V.lets_pass store.new) }
{
    let file = FileName::Anchor;
    let length = store.length(file)?;
    if length == 0 {
        return Err(ImageError::BadImage { file, at: 0 });
    }
    let mut gates = vec![in alloc; 0; length as usize]?;
    if !fill(store, file, 0, &mut gates)? {
        return Err(ImageError::BadImage { file, at: length });
    }
    match open_gates(&gates) {
        Some(number) => Ok(number as u64),
        None => Err(ImageError::BadImage { file, at: length }),
    }
}
