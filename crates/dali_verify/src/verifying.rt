//! A running engine beside its log.
ghost use Rattle.std.specs.Prelude.{◌≡◌, ◌↔◌, ℕ, List, IfOk, IfErr, IfSome, IsErrOf, IsTrue};
ghost use Rattle.dali_store.specs.Faults.{Rose};
ghost use Rattle.dali_record.specs.declared.records.Record.{Record};
ghost use Rattle.dali_log.specs.Log.{BadAt};
ghost use Rattle.dali_log.specs.Reads.{OnlyReads};
ghost use Rattle.dali_listing.specs.Listing.{in_memory};
ghost use Rattle.dali_core.specs.Vault.Vaulted.{with_store};
ghost use Rattle.dali_verify.specs.Verified.{IsWholeLog, IsVerified};
ghost use Rattle.dali_verify.specs.declared.error.VerifyError.TheVariants as errors;

use crate::comparing::agrees;
use crate::error::VerifyError;
use crate::reading::whole_log;
use dali_core::Core;
use dali_store::Store;
use std::alloc::Global;

/// Whether the engine's memory is what a plain replay of its whole log comes to, records that wait to be flushed among them. Each
/// call that a surviving transaction logged gives its logged answer there, and the words of the regions store just the records
/// that are left then. The deleted lists of all restarts, one behind the other, are the transactions that the log deletes,
/// ascending. The store is only read, and the engine stays as it was.
///
/// The log is read from its first byte. Batches and records are tested, and that the first batch holds the one record Format;
/// what a record may follow isn't. `BadLog` names the first bad place. An unformatted log has no records. `Fault` exactly where
/// the store's count of faults rose; nothing is stopped then. It takes memory for the log, the replay and the records, and
/// answers as if there were none where the regions aren't as many as the sizes say, or the system's own log is no records.
pub fn verify<V: Store>(alloc: Global, core: &mut Core<V>) -> Result<bool, VerifyError>
    ensures verified { IfOk result (λ is. IfSome (V.told core.old.vault.store) (λ fs. (L : List Record) × IsWholeLog fs.log core.old.system.state L
        × (IsTrue is ↔ IsVerified core.old.system.state.sizes (in_memory core.old.regions.items) L))) }
    ensures bad { IfErr result (λ e. (bad : ℕ) → e ≡ errors.BadLog bad → IfSome (V.told core.old.vault.store) (λ fs. BadAt fs.log bad)) }
    ensures same { core.new ≡ record core.old { vault = with_store core.old.vault core.new.vault.store } }
    ensures reads { OnlyReads V.told V.moment V.left_since V.may_leave core.old.vault.store core.new.vault.store }
    ensures fault { IsErrOf result errors.Fault → Rose (V.faults core.old.vault.store) (V.faults core.new.vault.store) }
    ensures kept { (IsErrOf result errors.Fault → ⊥) → V.faults core.new.vault.store ≡ V.faults core.old.vault.store }
{
    let geometry = core.system.geometry();
    if core.regions.len() != geometry.regions() as usize {
        return Err(VerifyError::OutOfMemory);
    }
    let log = whole_log(alloc, &core.system, &mut core.vault)?;
    agrees(alloc, &geometry, &core.regions, &log)
}
