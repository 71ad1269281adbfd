//! The files of a store, copied into memory.
ghost use Rattle.std.specs.Prelude.{◌≡◌, ◌⊎◌, IfOk, IfErr, IfSome, IsErrOf};
ghost use Rattle.dali_store.specs.Calls.{MakesAtMost};
ghost use Rattle.dali_store.specs.Store.{file_of};
ghost use Rattle.dali_log.specs.Reads.{ReadsOrFails};
ghost use Rattle.dali_memstore.specs.Memory.{files_of};
ghost use Rattle.dali_inspect.specs.declared.error.InspectError.TheVariants as errors;

use crate::error::InspectError;
use dali_memstore::MemoryStore;
use dali_store::{FileName, Store};
use std::alloc::Global;

// The bytes of a file.
fn read_file<V: Store>(
    alloc: Global,
    store: &mut V,
    file: FileName,
) -> Result<Vec<u8>, InspectError>
    ensures bytes { IfOk result (λ bytes. IfSome (V.told store.old) (λ fs. bytes.items ≡ file_of file fs)) }
    ensures errors { IfErr result (λ e. (e ≡ errors.StoreFault) ⊎ (e ≡ errors.OutOfMemory)) }
    ensures store { ReadsOrFails V.Store (IsErrOf result errors.StoreFault) store.old store.new }
    ensures most { MakesAtMost 2 (V.lets_pass store.old) (V.lets_pass store.new) }
{
    let length = store.length(file)?;
    let mut bytes = vec![in alloc; 0; length as usize]?;
    let count = store.read_at(file, 0, &mut bytes)?;
    bytes.truncate(count);
    Ok(bytes)
}

/// A store in memory that begins with the files of another one. That one's files are read, each at once, and nothing else is asked
/// of it. It takes memory for all of them.
pub fn copy<V: Store>(alloc: Global, store: &mut V) -> Result<MemoryStore, InspectError>
    ensures files { IfOk result (λ copied. IfSome (V.told store.old) (λ fs. files_of copied ≡ fs)) }
    ensures errors { IfErr result (λ e. (e ≡ errors.StoreFault) ⊎ (e ≡ errors.OutOfMemory)) }
    ensures store { ReadsOrFails V.Store (IsErrOf result errors.StoreFault) store.old store.new }
    ensures most { MakesAtMost 8 (V.lets_pass store.old) (V.lets_pass store.new) }
{
    let log = read_file(alloc, store, FileName::Log)?;
    let a = read_file(alloc, store, FileName::ImageA)?;
    let b = read_file(alloc, store, FileName::ImageB)?;
    let anchor = read_file(alloc, store, FileName::Anchor)?;
    Ok(MemoryStore::with([log, a, b, anchor], Vec::new(alloc)))
}
