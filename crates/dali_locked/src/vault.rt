//! The vault behind its lock, and the flush that serves many.
ghost use Rattle.std.specs.Prelude.{◌≡◌, ◌≤◌, ◌<◌, ◌+◌, ◌^◌, true, false, Err, OnOk, OnErr, IfOk, IfErr};
ghost use Rattle.dali_log.specs.Batch.{Framed};
ghost use Rattle.dali_runs.specs.State.{taken_to, stable};
ghost use Rattle.dali_runs.specs.Steps.{store_stopped, taken};
ghost use Rattle.dali_core.specs.Vault.Vaulted.{Vaulted};
ghost use Rattle.dali_core.specs.declared.vault.error.VaultError.TheVariants.{Fault, Stopped};
ghost use Rattle.dali_notes.specs.History.{IsSeen};
ghost use Rattle.dali_concurrent.specs.Entries.{client_note};
ghost use Rattle.dali_concurrent.specs.Told.{core_told};
ghost use Rattle.dali_locked.specs.declared.vault.FlushError.TheVariants.{Store as OfStore};
ghost use Rattle.dali_locked.specs.Begun.{FromEach, Of, outset, homed};
ghost use Rattle.dali_locked.specs.Sights.{Knows};
ghost use Rattle.dali_locked.specs.Vaults.{HasFrame, HasWritten, HasFault, IsTold, IsVaultNote, IsLogged, IsDurable, AllAreTaken, AllAreDurable, HasStopped, SeesFault};

use crate::client::ClientNote;
use crate::history::{Beginning, Home, Mark, OfRound};
use crate::system::LockedSystem;
use dali_bytes::OutOfMemory;
use dali_core::steps::called;
use dali_core::vault::{Vault, VaultError};
use dali_log::Frame;
use dali_notes::{Note, Notes, Tells};
use dali_store::Store;
use dali_system::System;
use std::alloc::Global;
use std::marker::{Brand, Model, PhantomData};
use std::sync::{Mutex, Wait};
use thiserror::Error;

/// With which vaults a round may have begun. Whoever makes the values of a round picks it.
pub trait VaultBeginning<V>: Send + Sync {
    ghost use Rattle.dali_core.specs.Vault.Vaulted.{Vaulted};

    ghost began: { Vaulted V → Type 0 };
}

impl<V> VaultBeginning<V> for Brand {
    ghost use Rattle.dali_locked.specs.Vaults.{no_vault};

    ghost began = { no_vault };
}

/// The vault, with its note, how many records stood when the system was made, and where the memory for a frame comes from.
#[derive(Drop)]
pub struct LockedVault<B: Beginning + VaultBeginning<V>, H: Home, V: Store> {
    pub(crate) vault: Vault<V>,
    first: u64,
    pub(crate) alloc: Global,
    pub(crate) note: Note<Mark, OfRound<B>>,
    pub(crate) home: PhantomData<H>,
}

impl<B: Beginning + VaultBeginning<V>, H: Home, V: Store> Model for LockedVault<B, H, V> {
    ghost use Rattle.dali_locked.specs.Begun.{homed};
    ghost use Rattle.std.specs.Coded.{codes};
    ghost use Rattle.std.specs.Prelude.{◌≡◌};
    ghost use Rattle.dali_system.specs.Coded.{system_code};
    ghost use Rattle.dali_core.specs.Vault.Vaulted.{vaulted_code};
    ghost use Rattle.dali_locked.specs.Begun.{FromEach};
    ghost use Rattle.dali_locked.specs.Sights.{VaultSight};
    ghost use Rattle.dali_locked.specs.Vaults.{IsTold, IsVaultNote};

    ghost Value = { VaultSight V };

    ghost coded = { Prim.hlevel (codes, system_code, vaulted_code V.code) };

    ghost view = { λ l. record { vault = l.vault; seen = l.note.seen } };

    ghost invariant = { λ l. IsVaultNote (homed H.table B.begun) l.note × IsTold V.Store B.began B.begun l.vault l.note.seen
        × FromEach B.begun (λ s p. p.core.system.first ≡ l.first) };
}

/// Why a record isn't flushed.
#[derive(Clone, Copy, Debug, PartialEq, Eq, Error)]
pub enum FlushError {
    /// A call of the store failed, now or before. The engine is stopped then.
    #[error("{cause}")]
    Store { cause: VaultError },
    /// The vault isn't one that a run may have come to.
    #[error("no vault of a run")]
    Unfit,
}

// ---- what is told
struct Taken;

impl Tells<System, Mark> for Taken {
    ghost use Rattle.dali_locked.specs.Vaults.{taking};

    ghost entry = { λ y. taking y.state };
}

struct Flushing<V> {
    of: PhantomData<V>,
}

impl<V: Store> Tells<Vault<V>, Mark> for Flushing<V> {
    ghost use Rattle.dali_locked.specs.Vaults.{flushing, vault_told};

    ghost entry = { λ v. flushing (vault_told V.Store v) };
}

// Under which client the store fails, and the system that it stops. Each call picks both.
pub(crate) trait Halt {
    ghost use Rattle.std.specs.Prelude.{ℕ};
    ghost use Rattle.dali_runs.specs.State.{SystemState};

    ghost client: { ℕ };

    ghost was: { SystemState };
}

impl Halt for Brand {
    ghost use Rattle.dali_locked.specs.Vaults.{no_system};

    ghost client = { 0 };

    ghost was = { no_system };
}

struct Failing<V, D> {
    of: PhantomData<(V, D)>,
}

impl<V: Store, D: Halt> Tells<Vault<V>, Mark> for Failing<V, D> {
    ghost use Rattle.dali_runs.specs.Steps.{store_stopped};
    ghost use Rattle.dali_locked.specs.Vaults.{failing, vault_told};

    ghost entry = { λ v. failing (vault_told V.Store v) (store_stopped D.was) D.client };
}

// ---- steps
// Takes the records that wait as a frame, those of the client among them.
fn take<B: Beginning + VaultBeginning<V>, H: Home, V: Store>(
    system: &mut LockedSystem<B, H>,
    notes: &Notes<Mark, OfRound<B>>,
    client: &mut ClientNote<B, H>,
    vault: &Vault<V>,
    note: &mut Note<Mark, OfRound<B>>,
    alloc: Global,
) -> Result<Frame, OutOfMemory>
    requires home { (notes.now.table ≡ H.table) × IsVaultNote (homed H.table B.begun) note.old }
    requires told { IsTold V.Store B.began B.begun vault.now note.old.seen }
    requires runs { vault.now.stopped ≡ false }
    ensures home { IsVaultNote (homed H.table B.begun) note.new }
    ensures client { client.new ≡ client.old }
    ensures frame { IfOk result (λ f. FromEach B.begun (λ s p. HasFrame V.Store B.began s p (outset B.begun s p) f vault.now note.new.seen)) }
    ensures all { OnOk result (AllAreTaken B.begun client.old.seen note.new.seen) }
    ensures err { OnErr result (note.new ≡ note.old) }
{
    notes.meet(&mut system.note, &mut client.note);
    let frame = system.system.take_frame(alloc)?;
    notes.add_both::<System, Taken>(note, &mut system.note, &system.system);
    Ok(frame)
}

// The frame is flushed.
fn tell_flush<B: Beginning + VaultBeginning<V>, H: Home, V: Store>(
    notes: &Notes<Mark, OfRound<B>>,
    vault: &Vault<V>,
    note: &mut Note<Mark, OfRound<B>>,
)
    requires home { (notes.now.table ≡ H.table) × IsVaultNote (homed H.table B.begun) note.old }
    requires written { (f : Framed) × (v : Vaulted V) × FromEach B.begun (λ s p. HasWritten V.Store B.began s p (outset B.begun s p) f v vault.now note.old.seen) }
    ensures home { IsVaultNote (homed H.table B.begun) note.new }
    ensures told { IsTold V.Store B.began B.begun vault.now note.new.seen }
    ensures all { FromEach B.begun (λ s p. taken_to (core_told (outset B.begun s p) note.old.seen).system ≤ stable (core_told (outset B.begun s p) note.new.seen)) }
{
    notes.add::<Vault<V>, Flushing<V>>(note, vault);
}

// Its flush met a fault: the system stops.
fn tell_fault<B: Beginning + VaultBeginning<V>, H: Home, V: Store, D: Halt>(
    system: &mut LockedSystem<B, H>,
    notes: &Notes<Mark, OfRound<B>>,
    client: &mut ClientNote<B, H>,
    vault: &Vault<V>,
    note: &mut Note<Mark, OfRound<B>>,
)
    requires home { (notes.now.table ≡ H.table) × IsVaultNote (homed H.table B.begun) note.old }
    requires fault { (f : Framed) × (v : Vaulted V) × FromEach B.begun (λ s p. HasFault V.Store B.began s p (outset B.begun s p) f v vault.now note.old.seen) }
    requires picked { (D.client ≡ client.old.id) × (D.was ≡ system.old.served.state) }
    ensures home { IsVaultNote (homed H.table B.begun) note.new }
    ensures told { IsTold V.Store B.began B.begun vault.now note.new.seen }
    ensures stops { HasStopped B.begun client.old client.new }
{
    system.system.stop();
    notes.add_three::<Vault<V>, Failing<V, D>>(&mut client.note, &mut system.note, note, vault);
}

fn fail<B: Beginning + VaultBeginning<V>, H: Home, V: Store>(
    system: &mut LockedSystem<B, H>,
    notes: &Notes<Mark, OfRound<B>>,
    client: &mut ClientNote<B, H>,
    vault: &Vault<V>,
    note: &mut Note<Mark, OfRound<B>>,
)
    requires home { (notes.now.table ≡ H.table) × IsVaultNote (homed H.table B.begun) note.old }
    requires fault { (f : Framed) × (v : Vaulted V) × FromEach B.begun (λ s p. HasFault V.Store B.began s p (outset B.begun s p) f v vault.now note.old.seen) }
    ensures home { IsVaultNote (homed H.table B.begun) note.new }
    ensures told { IsTold V.Store B.began B.begun vault.now note.new.seen }
    ensures stops { HasStopped B.begun client.old client.new }
{
    tell_fault::<B, H, V, Brand>(system, notes, client, vault, note);
}

// Flushes the frame that was taken.
fn flush_frame<B: Beginning + VaultBeginning<V>, H: Home, V: Store>(
    notes: &Notes<Mark, OfRound<B>>,
    vault: &mut Vault<V>,
    note: &mut Note<Mark, OfRound<B>>,
    frame: &Frame,
) -> Result<(), VaultError>
    requires home { (notes.now.table ≡ H.table) × IsVaultNote (homed H.table B.begun) note.old }
    requires frame { FromEach B.begun (λ s p. HasFrame V.Store B.began s p (outset B.begun s p) frame.now vault.old note.old.seen) }
    requires runs { (vault.old.stopped ≡ false) × (vault.old.end < 2 ^ 62) }
    ensures home { IsVaultNote (homed H.table B.begun) note.new }
    ensures told { OnOk result (IsTold V.Store B.began B.begun vault.new note.new.seen) }
    ensures all { OnOk result (FromEach B.begun (λ s p. taken_to (core_told (outset B.begun s p) note.old.seen).system ≤ stable (core_told (outset B.begun s p) note.new.seen))) }
    ensures err { OnErr result ((result ≡ Err Fault) × (note.new ≡ note.old)) }
    ensures fault { OnErr result (FromEach B.begun (λ s p. HasFault V.Store B.began s p (outset B.begun s p) frame.now vault.old vault.new note.old.seen)) }
{
    match called::flush(vault, frame) {
        Ok(_) => {
            tell_flush::<B, H, V>(notes, vault, note);
            Ok(())
        }
        Err(error) => Err(error),
    }
}

// Takes the records that wait and flushes them under both locks, without memory.
pub(crate) fn flush_both<B: Beginning + VaultBeginning<V>, H: Home, V: Store>(
    system: &mut LockedSystem<B, H>,
    notes: &Notes<Mark, OfRound<B>>,
    client: &mut ClientNote<B, H>,
    vault: &mut Vault<V>,
    note: &mut Note<Mark, OfRound<B>>,
) -> Result<(), VaultError>
    requires home { (notes.now.table ≡ H.table) × IsVaultNote (homed H.table B.begun) note.old }
    requires told { IsTold V.Store B.began B.begun vault.old note.old.seen }
    requires runs { (vault.old.stopped ≡ false) × (vault.old.end < 2 ^ 62) }
    ensures home { IsVaultNote (homed H.table B.begun) note.new }
    ensures told { IsTold V.Store B.began B.begun vault.new note.new.seen }
    ensures ok { OnOk result ((client.new ≡ client.old) × AllAreDurable B.begun client.old.seen note.new.seen) }
    ensures taken { OnOk result ((system.new.served.state ≡ taken system.old.served.state) × (vault.new.stopped ≡ false) × (vault.new.current ≡ vault.old.current)) }
    ensures fault { OnErr result ((result ≡ Err Fault) × HasStopped B.begun client.old client.new) }
{
    notes.meet(&mut system.note, &mut client.note);
    let flushed = called::flush(vault, system.system.frame());
    system.system.flushed();
    notes.add_both::<System, Taken>(note, &mut system.note, &system.system);
    match flushed {
        Ok(_) => {
            tell_flush::<B, H, V>(notes, vault, note);
            Ok(())
        }
        Err(error) => {
            fail::<B, H, V>(system, notes, client, vault, note);
            Err(error)
        }
    }
}

// Whether a record is one of the first that were flushed.
fn is_below(number: u64, first: u64, flushed: u64) -> bool
    ensures yes { result ≡ true → number < first + flushed }
    ensures no { result ≡ false → first + flushed ≤ number }
{
    number < first || number - first < flushed
}

impl<B: Beginning + VaultBeginning<V>, H: Home, V: Store> LockedVault<B, H, V> {
    /// The vault where the notes are made, over a system that was made where so many records stood.
    pub fn new(
        alloc: Global,
        vault: Vault<V>,
        first: u64,
        note: Note<Mark, OfRound<B>>,
    ) -> LockedVault<B, H, V>
        requires note { IsVaultNote (homed H.table B.begun) note }
        requires told { IsTold V.Store B.began B.begun vault note.seen }
        requires first { FromEach B.begun (λ s p. p.core.system.first ≡ first) }
        ensures { result ≡ record { vault = vault; seen = note.seen } }
    {
        LockedVault {
            vault,
            first,
            alloc,
            note,
            home: PhantomData,
        }
    }

    /// The vault, and its note.
    pub fn into_parts(self) -> (Vault<V>, Note<Mark, OfRound<B>>)
        ensures parts { (result.0 ≡ self.vault) × (result.1.seen ≡ self.seen) }
        ensures note { IsVaultNote (homed H.table B.begun) result.1 }
        ensures told { IsTold V.Store B.began B.begun result.0 result.1.seen }
    {
        let LockedVault {
            vault,
            first: _,
            alloc: _,
            note,
            home: _,
        } = self;
        (vault, note)
    }

    /// Whether the record with this number is flushed: then the client knows it.
    pub fn acknowledge(
        &mut self,
        notes: &Notes<Mark, OfRound<B>>,
        client: &mut ClientNote<B, H>,
        number: u64,
    ) -> bool
        requires home { notes.now.table ≡ H.table }
        ensures yes { result ≡ true → Knows B.begun (IsDurable number) client.new }
        ensures no { result ≡ false → Of B.begun (λ o T. stable (core_told o T) ≤ number) self.old.seen × (client.new ≡ client.old) }
        ensures client { (client.new.id ≡ client.old.id) × IsSeen client.new.seen (client_note B.begun.count client.old.id) client.old.seen }
        ensures same { self.new ≡ self.old }
    {
        if !is_below(number, self.first, self.vault.flushed()) {
            return false;
        }
        notes.meet(&mut client.note, &mut self.note);
        true
    }

    /// Takes the records that wait, under the system's lock, and flushes them, under the vault's alone: all that the client has
    /// logged. Where memory for the next frame is refused the system's lock is held for the flush. `Store` where the vault was
    /// stopped before, with `Stopped`, or a call of the store failed; that is told, and the engine is stopped, so the caller wakes
    /// all who wait for a key. `Unfit` never comes in a round. It makes at most four calls of the store.
    pub fn write_out<R: Wait>(
        &mut self,
        rt: &R,
        notes: &Notes<Mark, OfRound<B>>,
        system: &Mutex<LockedSystem<B, H>>,
        client: &mut ClientNote<B, H>,
    ) -> Result<(), FlushError>
        requires home { notes.now.table ≡ H.table }
        ensures ok { OnOk result ((client.new ≡ client.old) × AllAreDurable B.begun client.old.seen self.new.seen) }
        ensures err { IfErr result (λ e. SeesFault B.begun e client.old client.new) }
        ensures stopped { self.old.vault.stopped ≡ true → (result ≡ Err (OfStore Stopped)) × (self.new ≡ self.old) }
        ensures runs { result ≡ Err (OfStore Stopped) → self.old.vault.stopped ≡ true }
    {
        if self.vault.stopped() {
            return Err(FlushError::Store {
                cause: VaultError::Stopped,
            });
        }
        if self.vault.end() >= 1 << 62 {
            return Err(FlushError::Unfit);
        }
        let taken = take::<B, H, V>(
            &mut *system.lock(rt),
            notes,
            client,
            &self.vault,
            &mut self.note,
            self.alloc,
        );
        match taken {
            Ok(frame) => {
                match flush_frame::<B, H, V>(notes, &mut self.vault, &mut self.note, &frame) {
                    Ok(()) => Ok(()),
                    Err(cause) => {
                        fail::<B, H, V>(
                            &mut *system.lock(rt),
                            notes,
                            client,
                            &self.vault,
                            &mut self.note,
                        );
                        Err(FlushError::Store { cause })
                    }
                }
            }
            Err(_) => match flush_both::<B, H, V>(
                &mut *system.lock(rt),
                notes,
                client,
                &mut self.vault,
                &mut self.note,
            ) {
                Ok(()) => Ok(()),
                Err(cause) => Err(FlushError::Store { cause }),
            },
        }
    }
}

/// Answers once the record with this number is flushed, by the client or along with the frame of another one: who waits for the
/// vault's lock finds its record flushed by the next one. It fails as `write_out`.
pub fn make_durable<B: Beginning + VaultBeginning<V>, H: Home, V: Store, R: Wait>(
    rt: &R,
    notes: &Notes<Mark, OfRound<B>>,
    vault: &Mutex<LockedVault<B, H, V>>,
    system: &Mutex<LockedSystem<B, H>>,
    client: &mut ClientNote<B, H>,
    number: u64,
) -> Result<(), FlushError>
    requires home { notes.now.table ≡ H.table }
    requires logged { Knows B.begun (IsLogged number) client.old }
    ensures ok { OnOk result (Knows B.begun (IsDurable number) client.new) }
    ensures seen { OnOk result ((client.new.id ≡ client.old.id) × IsSeen client.new.seen (client_note B.begun.count client.old.id) client.old.seen) }
    ensures err { IfErr result (λ e. SeesFault B.begun e client.old client.new) }
{
    let mut vault = vault.lock(rt);
    if vault.acknowledge(notes, client, number) {
        return Ok(());
    }
    vault.write_out(rt, notes, system, client)?;
    if vault.acknowledge(notes, client, number) {
        Ok(())
    } else {
        Err(FlushError::Unfit)
    }
}
