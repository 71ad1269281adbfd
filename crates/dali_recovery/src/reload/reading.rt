//! One record after another, handed to a recovery.
ghost use Rattle.std.specs.Prelude.{◌≡◌, IfOk, IfErr, OnOk};
ghost use Rattle.dali_geometry.specs.Sizes.{Sizes};
ghost use Rattle.dali_record.specs.Spelling.{CanBeSpelled};
ghost use Rattle.dali_recovery.specs.Standing.{HandsOn, IsOrdered, IsOrderedOut, KeepsOrder};
ghost use Rattle.dali_recovery.specs.Reload.Errors.{told_at as as_told};
ghost use Rattle.dali_recovery.specs.Reload.Reading.{TakesAt, TakesNext, RefusesAt, EndRefuses};

use crate::reload::counts::{Counts, is_restarted};
use crate::reload::error::ReloadError;
use crate::{Recovered, Recovery, RecoveryError};
use dali_log::Placed;

/// What the log from an image's place on comes to.
#[derive(Drop)]
pub struct Reloaded {
    /// The recovered words and lists, and the numbers of the next record and transaction.
    pub recovered: Recovered,
    /// The place of the closed gate where the log ends.
    pub end: u64,
    /// What was counted of the records.
    pub counts: Counts,
}

// How an error of the recovery is told, at the record that begins at this place.
fn told_at(at: u64, error: RecoveryError) -> ReloadError
    ensures { result ≡ as_told at error }
{
    match error {
        RecoveryError::Misfit => ReloadError::BadLog { at },
        RecoveryError::Unscanned => ReloadError::Unscanned,
        RecoveryError::OutOfMemory => ReloadError::OutOfMemory,
    }
}

// Hands a record to the recovery: that of a restart is the first of its batch.
fn take_at(recovery: &mut Recovery, given: &Placed) -> Result<(), ReloadError>
    requires { CanBeSpelled given.now.entry }
    ensures ok { OnOk result (TakesAt recovery.old recovery.new given.now) }
    ensures ordered { OnOk result (KeepsOrder recovery.old recovery.new) }
    ensures err { IfErr result (λ e. RefusesAt recovery.old recovery.new given.now e) }
{
    if is_restarted(&given.entry) && !given.first {
        return Err(ReloadError::BadLog { at: given.at });
    }
    match recovery.take(&given.entry) {
        Ok(()) => Ok(()),
        Err(error) => Err(told_at(given.at, error)),
    }
}

// Hands the next record to the recovery, and counts it.
pub(crate) fn take_next(
    recovery: &mut Recovery,
    counts: Counts,
    given: &Placed,
) -> Result<Counts, ReloadError>
    requires { CanBeSpelled given.now.entry }
    ensures ok { IfOk result (λ more. TakesNext recovery.old recovery.new counts given.now more) }
    ensures ordered { OnOk result (KeepsOrder recovery.old recovery.new) }
    ensures err { IfErr result (λ e. RefusesAt recovery.old recovery.new given.now e) }
{
    take_at(recovery, given)?;
    Ok(counts.with(given))
}

// What the recovery hands out at the log's end, which is this place.
pub(crate) fn finish_at(recovery: Recovery, end: u64) -> Result<Recovered, ReloadError>
    ensures ok { IfOk result (λ out. HandsOn recovery out) }
    ensures ordered { IfOk result (λ out. (s : Sizes) → IsOrdered s recovery → IsOrderedOut s out) }
    ensures err { IfErr result (λ e. EndRefuses recovery e) }
{
    match recovery.finish() {
        Ok(recovered) => Ok(recovered),
        Err(error) => Err(told_at(end, error)),
    }
}
