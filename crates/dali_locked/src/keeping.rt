//! What a checkpoint keeps, under the locks of vault and system.
ghost use Rattle.std.specs.Prelude.{◌≡◌, ◌-◌, ◌<◌, ◌^◌, false, true, Err, OnErr, IfOk, IfErr};
ghost use Rattle.dali_locked.specs.Begun.{homed};
ghost use Rattle.dali_core.specs.declared.vault.error.VaultError.TheVariants.{Stopped};
ghost use Rattle.dali_concurrent.specs.Stages.{Started};
ghost use Rattle.dali_locked.specs.declared.vault.FlushError.TheVariants.{Store as OfStore};
ghost use Rattle.dali_locked.specs.declared.keeping.KeepError.TheVariants.{Flush, OutOfMemory as Memory};
ghost use Rattle.dali_locked.specs.Sights.{Knows};
ghost use Rattle.dali_locked.specs.Vaults.{IsTold, IsVaultNote};
ghost use Rattle.dali_locked.specs.HeadKept.{HasKeptAll, HasStage, IsMadeOf, SeesRefusal};

use crate::client::ClientNote;
use crate::history::{Beginning, Home, Mark, OfRound};
use crate::system::LockedSystem;
use crate::vault::{FlushError, LockedVault, VaultBeginning, flush_both};
use dali_core::vault::{Vault, VaultError};
use dali_image::{Header, table_bytes};
use dali_notes::{Note, Notes, Tells};
use dali_store::Store;
use dali_system::System;
use std::alloc::Global;
use std::marker::Model;
use std::sync::{Mutex, Wait};
use thiserror::Error;

/// The head that a checkpoint keeps of the log and of the table of running transactions, as the image is to have it: the header,
/// and the bytes of the table.
#[derive(Drop)]
pub struct KeptHead {
    pub(crate) header: Header,
    pub(crate) table: Vec<u8>,
}

impl Model for KeptHead {
    ghost use Rattle.dali_locked.specs.HeadKept.{HeadBytes};

    ghost Value = { HeadBytes };

    ghost view = { λ k. record { header = k.header; table = k.table.items } };
}

/// Why a checkpoint doesn't keep its head.
#[derive(Clone, Copy, Debug, PartialEq, Eq, Error)]
pub enum KeepError {
    /// The flush before failed, as `LockedVault::write_out`.
    #[error("{cause}")]
    Flush { cause: FlushError },
    /// Memory for the bytes of the table is refused. Nothing has changed.
    #[error("out of memory")]
    OutOfMemory,
}

struct Keeping;

impl Tells<System, Mark> for Keeping {
    ghost use Rattle.dali_locked.specs.HeadKept.{keeping};

    ghost entry = { λ y. keeping };
}

// With all records flushed the head is kept.
fn keep_head<B: Beginning + VaultBeginning<V>, H: Home, V: Store>(
    system: &mut LockedSystem<B, H>,
    notes: &Notes<Mark, OfRound<B>>,
    client: &mut ClientNote<B, H>,
    vault: &Vault<V>,
    note: &mut Note<Mark, OfRound<B>>,
    kept: &KeptHead,
)
    requires home { (notes.now.table ≡ H.table) × IsVaultNote (homed H.table B.begun) note.old }
    requires told { IsTold V.Store B.began B.begun vault.now note.old.seen }
    requires taken { system.old.served.state.taken ≡ system.old.served.state.records - system.old.served.state.first }
    requires runs { vault.now.stopped ≡ false }
    requires started { Knows B.begun (HasStage client.old.id Started) client.old }
    requires made { IsMadeOf system.old.served.state vault.now kept.now }
    ensures home { IsVaultNote (homed H.table B.begun) note.new }
    ensures told { IsTold V.Store B.began B.begun vault.now note.new.seen }
    ensures kept { Knows B.begun (HasKeptAll client.old.id kept.now) client.new }
    ensures id { client.new.id ≡ client.old.id }
{
    let _ = kept;
    notes.add_three::<System, Keeping>(&mut client.note, &mut system.note, note, &system.system);
}

// Flushes what waits, and keeps the head behind it.
fn keep_both<B: Beginning + VaultBeginning<V>, H: Home, V: Store>(
    alloc: Global,
    system: &mut LockedSystem<B, H>,
    notes: &Notes<Mark, OfRound<B>>,
    client: &mut ClientNote<B, H>,
    vault: &mut Vault<V>,
    note: &mut Note<Mark, OfRound<B>>,
) -> Result<KeptHead, KeepError>
    requires home { (notes.now.table ≡ H.table) × IsVaultNote (homed H.table B.begun) note.old }
    requires told { IsTold V.Store B.began B.begun vault.old note.old.seen }
    requires runs { (vault.old.stopped ≡ false) × (vault.old.end < 2 ^ 62) × (vault.old.current < 2 ^ 62) }
    requires started { Knows B.begun (HasStage client.old.id Started) client.old }
    ensures home { IsVaultNote (homed H.table B.begun) note.new }
    ensures told { IsTold V.Store B.began B.begun vault.new note.new.seen }
    ensures ok { IfOk result (λ kept. (client.new.id ≡ client.old.id) × Knows B.begun (HasKeptAll client.old.id kept) client.new) }
    ensures err { IfErr result (λ e. SeesRefusal B.begun e client.old client.new) }
    ensures memory { result ≡ Err Memory → (vault.new ≡ vault.old) × (note.new ≡ note.old) }
    ensures runs { result ≡ Err (Flush (OfStore Stopped)) → vault.old.stopped ≡ true }
{
    let Ok(table) = table_bytes(alloc, system.system.table()) else {
        return Err(KeepError::OutOfMemory);
    };
    match flush_both::<B, H, V>(system, notes, client, vault, note) {
        Ok(()) => {
            let header = Header {
                geometry: system.system.geometry(),
                number: vault.current() + 1,
                place: vault.end(),
                first: system.system.records(),
                weight: system.system.end(),
                next: system.system.next(),
                table: table.len() as u64,
            };
            let kept = KeptHead { header, table };
            keep_head::<B, H, V>(system, notes, client, vault, note, &kept);
            Ok(kept)
        }
        Err(cause) => Err(KeepError::Flush {
            cause: FlushError::Store { cause },
        }),
    }
}

impl<B: Beginning + VaultBeginning<V>, H: Home, V: Store> LockedVault<B, H, V> {
    /// The client's checkpoint, which has started, keeps what the log and the table come to, behind a flush of what waits, under
    /// both locks: so a flush before, as `write_out`, makes it short. It takes memory for the bytes of the table, before it flushes.
    /// It fails as `write_out`, or for want of memory.
    pub fn keep<R: Wait>(
        &mut self,
        rt: &R,
        notes: &Notes<Mark, OfRound<B>>,
        system: &Mutex<LockedSystem<B, H>>,
        client: &mut ClientNote<B, H>,
    ) -> Result<KeptHead, KeepError>
        requires home { notes.now.table ≡ H.table }
        requires started { Knows B.begun (HasStage client.old.id Started) client.old }
        ensures ok { IfOk result (λ kept. (client.new.id ≡ client.old.id) × Knows B.begun (HasKeptAll client.old.id kept) client.new) }
        ensures err { IfErr result (λ e. SeesRefusal B.begun e client.old client.new) }
        ensures memory { result ≡ Err Memory → self.new ≡ self.old }
        ensures stopped { self.old.vault.stopped ≡ true → (result ≡ Err (Flush (OfStore Stopped))) × (self.new ≡ self.old) }
        ensures runs { result ≡ Err (Flush (OfStore Stopped)) → self.old.vault.stopped ≡ true }
    {
        if self.vault.stopped() {
            return Err(KeepError::Flush {
                cause: FlushError::Store {
                    cause: VaultError::Stopped,
                },
            });
        }
        if self.vault.end() >= 1 << 62 {
            return Err(KeepError::Flush {
                cause: FlushError::Unfit,
            });
        }
        if self.vault.current() >= 1 << 62 {
            return Err(KeepError::Flush {
                cause: FlushError::Unfit,
            });
        }
        keep_both::<B, H, V>(
            self.alloc,
            &mut *system.lock(rt),
            notes,
            client,
            &mut self.vault,
            &mut self.note,
        )
    }
}
