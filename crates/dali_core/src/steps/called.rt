//! The calls of a vault, with what they say as the laws ask for it, and those that write with what a crash leaves at each
//! moment of the call (`any_moment`) and with how many calls of the store each makes. Each is the vault's call and nothing
//! else.
ghost use Rattle.std.specs.Prelude.{◌≡◌, ◌==◌, ◌≤◌, ◌<◌, ◌+◌, ◌^◌, ℕ, true, false, if◌then◌else◌, Err, OnOk, OnErr, IfOk, IfErr, IfSome, IsErrOf, length};
ghost use Rattle.dali_store.specs.declared.store.FileName.TheVariants.{Anchor, Log};
ghost use Rattle.dali_store.specs.Calls.{fewer, one_less};
ghost use Rattle.dali_store.specs.Store.{file_of, LeavesOnly, TornTold};
ghost use Rattle.dali_log.specs.declared.error.BatchError.TheVariants.{BadLog, Fault as BatchFault};
ghost use Rattle.dali_log.specs.Appending.{bodies_of, SomeAdded};
ghost use Rattle.dali_log.specs.Finding.{IsFound, IsBad, IsFurther};
ghost use Rattle.dali_crash.specs.Disks.Disks.{image_name};
ghost use Rattle.dali_log.specs.Anchors.{MayHaveMoved};
ghost use Rattle.dali_core.specs.declared.vault.error.VaultError.TheVariants.{Fault, Stopped};
ghost use Rattle.dali_core.specs.Steps.Said.{HasFlushed, FlushHasFailed, TornFrom, HasWritten, WriteHasFailed, HasSynced, SyncHasFailed, HasTurned, TurnHasFailed, HasRead, ReadHasFailed};

use crate::vault::{Vault, VaultError};
use dali_log::{BatchError, Found, Frame};
use dali_region::Side;
use dali_store::Store;
use std::alloc::Global;

/// Adds a frame to the log, as `Vault::flush` does: by four calls of the store, and by none where it is empty. It answers where
/// the log then ends.
pub fn flush<V: Store>(vault: &mut Vault<V>, frame: &Frame) -> Result<u64, VaultError>
    requires small { vault.old.end < 2 ^ 62 }
    ensures stopped { vault.old.stopped ≡ true → (result ≡ Err Stopped) × (vault.new ≡ vault.old) }
    ensures place { IfOk result (λ next. next ≡ vault.new.end) }
    ensures ok { OnOk result (HasFlushed V.Store vault.old frame.now vault.new) }
    ensures fault { IsErrOf result Fault → FlushHasFailed V.Store vault.old frame.now vault.new }
    ensures torn { vault.old.stopped ≡ false → TornTold Log vault.old.end (length frame.now.body + 6) (V.told vault.old.store) (V.told vault.new.store) }
    ensures runs { vault.old.stopped ≡ false → OnErr result (result ≡ Err Fault) }
    ensures any_moment { vault.old.stopped ≡ false → IfSome (V.told vault.old.store) (λ _. LeavesOnly V.moment V.left_since vault.old.store vault.new.store
        (SomeAdded (V.may_leave vault.old.store) vault.old.end (bodies_of frame.now.body))) }
    ensures calls { OnOk result (V.lets_pass vault.new.store ≡ fewer (if length frame.now.body == 0 then 0 else 4) (V.lets_pass vault.old.store)) }
    ensures grows { OnOk result (vault.new.end ≤ vault.old.end + 2 ^ 31) }
{
    let _length = frame.len(); // 2^30 bytes at most
    vault.flush(frame)
}

/// Writes to an image, as `Vault::image_write` does, by one call of the store.
pub fn image_write<V: Store>(
    vault: &mut Vault<V>,
    side: Side,
    at: u64,
    bytes: &[u8],
) -> Result<(), VaultError>
    requires { vault.old.stopped ≡ false → IfSome (V.told vault.old.store) (λ fs. at ≤ length (file_of (image_name side) fs)) }
    ensures stopped { vault.old.stopped ≡ true → (result ≡ Err Stopped) × (vault.new ≡ vault.old) }
    ensures ok { OnOk result (HasWritten V.Store vault.old (image_name side) at bytes.now vault.new) }
    ensures fault { IsErrOf result Fault → WriteHasFailed V.Store vault.old (image_name side) at (length bytes.now) vault.new }
    ensures torn { vault.old.stopped ≡ false → TornTold (image_name side) at (length bytes.now) (V.told vault.old.store) (V.told vault.new.store) }
    ensures runs { IsErrOf result Stopped → vault.old.stopped ≡ true }
    ensures any_moment { vault.old.stopped ≡ false → LeavesOnly V.moment V.left_since vault.old.store vault.new.store
        (TornFrom (V.may_leave vault.old.store) (image_name side) at (length bytes.now)) }
    ensures calls { vault.old.stopped ≡ false → V.lets_pass vault.new.store ≡ one_less (V.lets_pass vault.old.store) }
{
    vault.image_write(side, at, bytes)
}

/// Syncs an image, as `Vault::image_sync` does, by one call of the store.
pub fn image_sync<V: Store>(vault: &mut Vault<V>, side: Side) -> Result<(), VaultError>
    ensures stopped { vault.old.stopped ≡ true → (result ≡ Err Stopped) × (vault.new ≡ vault.old) }
    ensures ok { OnOk result (HasSynced V.Store vault.old (image_name side) vault.new) }
    ensures fault { IsErrOf result Fault → SyncHasFailed V.Store vault.old vault.new }
    ensures told { V.told vault.new.store ≡ V.told vault.old.store }
    ensures runs { IsErrOf result Stopped → vault.old.stopped ≡ true }
    ensures any_moment { vault.old.stopped ≡ false → LeavesOnly V.moment V.left_since vault.old.store vault.new.store (V.may_leave vault.old.store) }
    ensures calls { vault.old.stopped ≡ false → V.lets_pass vault.new.store ≡ one_less (V.lets_pass vault.old.store) }
{
    vault.image_sync(side)
}

/// Moves the anchor, as `Vault::move_anchor` does, by four calls of the store.
pub fn move_anchor<V: Store>(vault: &mut Vault<V>) -> Result<(), VaultError>
    requires small { vault.old.current < 2 ^ 62 }
    ensures stopped { vault.old.stopped ≡ true → (result ≡ Err Stopped) × (vault.new ≡ vault.old) }
    ensures ok { OnOk result (HasTurned V.Store vault.old vault.new) }
    ensures fault { IsErrOf result Fault → TurnHasFailed V.Store vault.old vault.new }
    ensures torn { vault.old.stopped ≡ false → TornTold Anchor vault.old.current 2 (V.told vault.old.store) (V.told vault.new.store) }
    ensures runs { IsErrOf result Stopped → vault.old.stopped ≡ true }
    ensures any_moment { vault.old.stopped ≡ false → IfSome (V.told vault.old.store) (λ _. LeavesOnly V.moment V.left_since vault.old.store vault.new.store
        (MayHaveMoved (V.may_leave vault.old.store) vault.old.current)) }
    ensures calls { OnOk result (V.lets_pass vault.new.store ≡ fewer 4 (V.lets_pass vault.old.store)) }
{
    vault.move_anchor()
}

/// Reads the log, as `Vault::read_log` does.
pub fn read_log<V: Store>(vault: &mut Vault<V>, alloc: Global, at: u64) -> Result<Found, BatchError>
    ensures found { IfOk result (λ found. IfSome (V.told vault.old.store) (λ fs. IsFound fs.log at found)) }
    ensures further { IfOk result (λ found. IsFurther at found) }
    ensures bad { IfErr result (λ e. (bad : ℕ) → e ≡ BadLog bad → IfSome (V.told vault.old.store) (λ fs. IsBad fs.log at bad)) }
    ensures ok { (IsErrOf result BatchFault → ⊥) → HasRead V.Store vault.old vault.new }
    ensures fault { IsErrOf result BatchFault → ReadHasFailed V.Store vault.old vault.new }
{
    vault.read_log(alloc, at)
}
