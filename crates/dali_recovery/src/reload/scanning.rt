//! The log from an image's place on, in one pass, to which the damage of some epochs may be known.
ghost use Rattle.std.specs.Prelude.{◌≡◌, ◌≤◌, ℕ, Contains, IfOk, IfErr, OnOk, IsErrOf, IfSome, IsNone};
ghost use Rattle.dali_store.specs.Calls.{PassesFewer};
ghost use Rattle.dali_store.specs.Faults.{Rose};
ghost use Rattle.dali_log.specs.Reads.{OnlyReads};
ghost use Rattle.dali_log.specs.Stream.{IsWhole};
ghost use Rattle.dali_geometry.specs.Sizes.{Sizes};
ghost use Rattle.dali_recovery.specs.Standing.{IsOrdered, IsOrderedOut, KeepsOrder};
ghost use Rattle.dali_recovery.specs.Reload.Reading.{Reloads, IsBadAt};
ghost use Rattle.dali_recovery.specs.Reload.Scanning.{HasDamageFor, ScansKnown, IfWhole, IfDamaged, Finds, MayGoOn, AreSmall};

use crate::reload::counts::Counts;
use crate::reload::error::ReloadError;
use crate::reload::reading::{Reloaded, finish_at, take_next};
use crate::{Damage, Recovery};
use dali_log::{LogReader, Placed};
use dali_record::Record;
use dali_store::Store;

/// What a pass over the log from an image's place on comes to.
#[derive(Drop)]
pub enum Pass {
    /// The log was read to its end.
    Whole(Reloaded),
    /// An audit of an epoch that is to be recovered failed. This is the epoch's damage, which wasn't known: with it, and the
    /// damage that was, the log is to be read again from the image's place on.
    Damaged(Damage),
}

// What is known of the damage of the epoch whose first record has this number.
fn known_at(known: &[Damage], first: u64) -> Option<&Damage>
    ensures some { IfSome result (λ damage. Contains known.now damage.now × (damage.now.first ≡ first)) }
    ensures none { IsNone result → HasDamageFor known.now first → ⊥ }
{
    known.iter().find(|damage| damage.first == first)
}

// Where an epoch begins whose damage is known, its records are scanned from here on.
fn scan_known(recovery: &mut Recovery, known: &[Damage]) -> Result<(), ReloadError>
    ensures ok { OnOk result (ScansKnown recovery.old recovery.new known.now) }
    ensures ordered { OnOk result (KeepsOrder recovery.old recovery.new) }
    ensures err { IfErr result (λ e. e ≡ ReloadError.OutOfMemory) }
{
    if !recovery.begins() {
        return Ok(());
    }
    let Some(damage) = known_at(known, recovery.number()) else {
        return Ok(());
    };
    match recovery.scan(damage.clean, damage.failing.as_slice()) {
        Ok(()) => Ok(()),
        Err(_) => Err(ReloadError::OutOfMemory),
    }
}

/// Reads the log from the place on where the reader stands, an image's place, through a recovery that stands behind that image:
/// one record after another, each tested and made again, and each epoch recovered where it ends. Where an epoch begins whose
/// damage is known its records are scanned; where an audit of an epoch failed whose damage isn't known, or was another, the pass
/// ends with that epoch and tells it. So whoever begins with no damage known, and adds what each pass tells, makes one pass more
/// than there are epochs with a failed audit, and the last one reads the whole log. The store is only read.
///
/// `BadLog` names the first place where the bytes are bad or a record begins that may not stand there: one that fails a rule, or
/// one of a restart that isn't the first of its batch. `Fault` exactly where the store's count of faults rose; never `Unscanned`.
/// It takes memory for what the reader, the recovery and the scans take it, and `OutOfMemory` says nothing of the log.
pub fn read_scanned<V: Store>(
    store: &mut V,
    reader: &mut LogReader,
    recovery: Recovery,
    known: &[Damage],
) -> Result<Pass, ReloadError>
    ensures ok { IfOk result (λ pass. IfWhole pass (λ out. IfSome (V.told store.old) (λ fs. Reloads fs.log reader.old recovery out))) }
    ensures damaged { IfOk result (λ pass. IfDamaged pass (λ d. IfSome (V.told store.old) (λ fs. Finds fs.log reader.old recovery known.now d))) }
    ensures window { IfOk result (λ pass. IfDamaged pass (λ _. IfSome (V.told store.old) (λ fs. MayGoOn fs.log reader.old recovery reader.new))) }
    ensures small { IfOk result (λ pass. IfWhole pass AreSmall) }
    ensures ordered { IfOk result (λ pass. IfWhole pass (λ out. (s : Sizes) → IsOrdered s recovery → IsOrderedOut s out.recovered)) }
    ensures bad { IfErr result (λ e. (at : ℕ) → e ≡ ReloadError.BadLog at → IfSome (V.told store.old) (λ fs. IsBadAt fs.log reader.old recovery at)) }
    ensures scanned { IsErrOf result ReloadError.Unscanned → ⊥ }
    ensures whole { IsWhole reader.new }
    ensures reads { OnlyReads V.told V.moment V.left_since V.may_leave store.old store.new }
    ensures later { V.faults store.old ≤ V.faults store.new }
    ensures fault { IsErrOf result ReloadError.Fault → Rose (V.faults store.old) (V.faults store.new) }
    ensures kept { (IsErrOf result ReloadError.Fault → ⊥) → V.faults store.new ≡ V.faults store.old }
    ensures passes { PassesFewer (V.lets_pass store.old) (V.lets_pass store.new) }
{
    let mut recovery = recovery;
    let mut counts = Counts::new();
    // one place for all records, so that none is moved
    let mut given = Placed {
        entry: Record::AuditBegin,
        at: 0,
        first: false,
    };
    'records: while reader.next_into(store, &mut given)? {
        scan_known(&mut recovery, known)?;
        match take_next(&mut recovery, counts, &given) {
            Ok(more) => counts = more,
            Err(ReloadError::Unscanned) => return Ok(Pass::Damaged(recovery.into_damage())),
            Err(error) => return Err(error),
        }
    }
    let end = reader.at();
    if recovery.is_unscanned() {
        return Ok(Pass::Damaged(recovery.into_damage()));
    }
    let recovered = finish_at(recovery, end)?;
    Ok(Pass::Whole(Reloaded {
        recovered,
        end,
        counts: counts.up_to(end),
    }))
}
