//! One checkpoint, from its start to the anchor's move.
ghost use Rattle.std.specs.Prelude.{◌≡◌, ◌≤◌, ◌<◌, ◌+◌, ◌^◌, ◌⊎◌, [], true, false, Ok, Some, None, Err, OnOk, OnErr, IfOk, IfErr, IfSome, IsErrOf, IsSomeAnd, length, drop, flat_map, vec_capacity};
ghost use Rattle.dali_geometry.specs.Places.{regions as regions_of};
ghost use Rattle.dali_record.specs.Spelling.{words_bytes};
ghost use Rattle.dali_region.specs.Answers.{is_dirty, cleaned};
ghost use Rattle.dali_store.specs.Calls.{fewer, one_less};
ghost use Rattle.dali_store.specs.Store.{LeavesOnly};
ghost use Rattle.dali_runs.specs.declared.causes.Cause.TheVariants.{Store as ByStore};
ghost use Rattle.dali_runs.specs.Steps.{taken, store_stopped, in_checkpoint};
ghost use Rattle.dali_crash.specs.Checkpoints;
ghost use Rattle.dali_crash.specs.Disks.Disks.{image_name};
ghost use Rattle.dali_crash.specs.Disks.Places.{place_of};
ghost use Rattle.dali_core.specs.Steps.Said.{TornFrom, HasWritten, WriteHasFailed};
ghost use Rattle.dali_core.specs.Moments.{flush_calls, FlushLeaves, Within};
ghost use Rattle.dali_checkpoint.specs.Kept.{side_in, cause_of, given_up, IsEndOf, NoneInHand, AreAllFlushed};
ghost use Rattle.dali_checkpoint.specs.Done.{Reaches, CallsStore, Writes, FailsToWrite, HasStarted, HasTurnedTo, FailsToTurn, IsKept, IsLost};
ghost use Rattle.dali_core.specs.Cores.{IsNoShorter};
ghost use Rattle.dali_core.specs.Cores.{HoldsPlaces};
ghost use Rattle.dali_checkpoint.specs.Moments.{WriteLeaves, TurnLeaves};
ghost use Rattle.dali_checkpoint.specs.Runs.{is_run_dirty, run_bytes, behind_run, cleaned_run};
ghost use Rattle.dali_checkpoint.specs.declared.error.CheckpointError.TheVariants.{Failed, InProgress, Stopped, Fault, OutOfMemory};

use crate::error::CheckpointError;
use crate::parts::{self, REGION, RUN, side_of};
use dali_audit::Verdict;
use dali_core::vault::{Vault, VaultError};
use dali_image::{Header, header_bytes, table_bytes};
use dali_region::Region;
use dali_runs::Cause;
use dali_store::Store;
use dali_system::System;
use std::alloc::Global;
use std::marker::Model;

/// A checkpoint under way: what its start kept of the log and of the table, and how far it has come.
///
/// After `start` each region is copied, in the order of their numbers, one by one (`copy`) or in runs (`copy_run`), then `settle` ends the image. Behind it an audit of all
/// regions is made, and `certify` moves the anchor to the image where that audit found nothing. Between these calls others may log records, flush them and change regions. The
/// image is the one that isn't current (ping-pong checkpointing: Bohannon et al., TKDE 2003; Jagadish et al., VLDB 1994).
#[derive(Drop)]
pub struct Checkpoint {
    header: Header,
    table: Vec<u8>,
    copied: u32,
    settled: Option<u64>,
    faulted: bool,
    // room for the bytes of a run
    buffer: Vec<u8>,
}

impl Model for Checkpoint {
    ghost use Rattle.std.specs.Prelude.{◌≤◌, vec_capacity};
    ghost use Rattle.dali_checkpoint.specs.Kept.{Checkpointed};

    ghost Value = { Checkpointed };

    ghost view = { λ c. record { header = c.header; table = c.table.items; copied = c.copied; settled = c.settled; faulted = c.faulted } };

    ghost invariant = { λ c. 65536 ≤ vec_capacity c.buffer };
}

// Flushes all records, keeps what they come to, and writes the header of the image.
#[tactic(auto, using(crate::proofs::Joined::writes, crate::proofs::Joined::write_fails))]
fn begin<V: Store>(
    alloc: Global,
    system: &mut System,
    vault: &mut Vault<V>,
) -> Result<Checkpoint, CheckpointError>
    requires end { vault.old.end < 2 ^ 62 }
    requires current { vault.old.current < 2 ^ 62 }
    ensures ok { IfOk result (λ c. HasStarted V.Store system.old.state vault.old c vault.new) }
    ensures taken { OnOk result (system.new ≡ record system.old { state = taken system.old.state }) }
    ensures refused { IfSome (cause_of system.old.state vault.old) (λ cause. result ≡ Err (Stopped cause)) }
    ensures stops { IsErrOf result Fault → system.new ≡ record system.old { state = store_stopped (taken system.old.state) } }
    ensures fault { IsErrOf result Fault → FailsToWrite V.Store system.old.state vault.old (image_name (Checkpoints.side_of (vault.old.current + 1))) 0 64 vault.new }
    ensures same { (IsErrOf result Fault → ⊥) → OnErr result ((system.new ≡ system.old) × (vault.new ≡ vault.old)) }
    ensures memory { cause_of system.old.state vault.old ≡ None → IfErr result (λ e. (e ≡ Fault) ⊎ (e ≡ OutOfMemory)) }
    ensures reaches { IfOk result (λ c. Reaches V.told (side_in c) 0 vault.new) }
    ensures files { IsNoShorter V.told vault.old vault.new }
    ensures any_moment { vault.old.stopped ≡ false → Within V.told V.moment V.left_since vault.old vault.new
        (WriteLeaves V.Store system.old.state vault.old (image_name (Checkpoints.side_of (vault.old.current + 1))) 0 64) }
    ensures grows { vault.new.end ≤ vault.old.end + 2 ^ 31 }
    ensures store { CallsStore V.faults V.lets_pass (flush_calls system.old.state + 1) result vault.old.store vault.new.store }
{
    if let Some(cause) = parts::cause_of(system, vault) {
        return Err(CheckpointError::Stopped { cause });
    }
    let Ok(table) = table_bytes(alloc, system.table()) else {
        return Err(CheckpointError::OutOfMemory);
    };
    let Ok(buffer) = Vec::with_capacity(alloc, RUN * REGION) else {
        return Err(CheckpointError::OutOfMemory);
    };
    parts::flush(alloc, system, vault)?;
    let header = Header {
        geometry: system.geometry(),
        number: vault.current() + 1,
        place: vault.end(),
        first: system.records(),
        weight: system.end(),
        next: system.next(),
        table: table.len() as u64,
    };
    let side = side_of(header.number);
    parts::write(system, vault, side, 0, &header_bytes(&header))?;
    Ok(Checkpoint {
        header,
        table,
        copied: 0,
        settled: None,
        faulted: false,
        buffer,
    })
}

// Makes an image the current one, once all records are flushed.
#[tactic(auto, using(crate::proofs::Joined::turns, crate::proofs::Joined::sync_fails, crate::proofs::Joined::turn_fails))]
fn anchor<V: Store>(
    alloc: Global,
    number: u64,
    system: &mut System,
    vault: &mut Vault<V>,
) -> Result<u64, CheckpointError>
    requires end { vault.old.end < 2 ^ 62 }
    requires current { vault.old.current < 2 ^ 62 }
    ensures ok { IfOk result (λ now. (now ≡ vault.new.current) × HasTurnedTo V.Store system.old.state vault.old (Checkpoints.side_of number) vault.new) }
    ensures taken { OnOk result (system.new ≡ record system.old { state = taken system.old.state }) }
    ensures refused { IfSome (cause_of system.old.state vault.old) (λ cause. (result ≡ Err (Stopped cause)) × (system.new ≡ system.old) × (vault.new ≡ vault.old)) }
    ensures fault { cause_of system.old.state vault.old ≡ None → OnErr result ((result ≡ Err Fault) × (system.new ≡ record system.old { state = store_stopped (taken system.old.state) }) × FailsToTurn V.Store system.old.state vault.old (Checkpoints.side_of number) vault.new) }
    ensures number { IfOk result (λ now. now ≡ vault.old.current + 1) }
    ensures files { IsNoShorter V.told vault.old vault.new }
    ensures any_moment { vault.old.stopped ≡ false → Within V.told V.moment V.left_since vault.old vault.new (TurnLeaves V.Store system.old.state vault.old (Checkpoints.side_of number)) }
    ensures grows { vault.new.end ≤ vault.old.end + 2 ^ 31 }
    ensures store { CallsStore V.faults V.lets_pass (flush_calls system.old.state + 5) result vault.old.store vault.new.store }
    ensures promised { system.new.promised ≡ system.old.promised }
{
    if let Some(cause) = parts::cause_of(system, vault) {
        return Err(CheckpointError::Stopped { cause });
    }
    parts::flush(alloc, system, vault)?;
    parts::sync(system, vault, side_of(number))?;
    parts::turn(system, vault)?;
    Ok(vault.current())
}

// How many records were logged since the load.
fn logged(system: &System) -> u64
    ensures { result ≡ length system.now.state.since }
{
    system.records() - system.first()
}

// Whether another has taken all records, and a flush has lost none: a vault that runs flushes what is taken at once.
fn is_kept<V: Store>(system: &System, vault: &Vault<V>) -> bool
    ensures taken { result ≡ true → drop system.now.state.taken system.now.state.since ≡ [] }
    ensures flushed { result ≡ true → NoneInHand system.now.state vault.now → AreAllFlushed system.now.state vault.now }
    ensures runs { drop system.now.state.taken system.now.state.since ≡ [] → vault.now.stopped ≡ false → result ≡ true }
    ensures always { drop system.now.state.taken system.now.state.since ≡ [] → AreAllFlushed system.now.state vault.now → result ≡ true }
{
    if system.frame().records() > 0 {
        return false;
    }
    if !vault.stopped() {
        return true;
    }
    logged(system) <= vault.flushed()
}

// Flushes what an audit that failed logged, unless another has.
fn keep_failure<V: Store>(
    alloc: Global,
    system: &mut System,
    vault: &mut Vault<V>,
) -> Result<(), CheckpointError>
    requires end { vault.old.end < 2 ^ 62 }
    ensures kept { OnOk result (IsKept V.Store system.old.state vault.old system.new.state vault.new) }
    ensures lost { IfErr result (IsLost V.Store system.old.state vault.old system.new.state vault.new) }
    ensures flushed { OnOk result (NoneInHand system.old.state vault.old → AreAllFlushed system.new.state vault.new) }
    ensures files { IsNoShorter V.told vault.old vault.new }
    ensures any_moment { vault.old.stopped ≡ false → Within V.told V.moment V.left_since vault.old vault.new (FlushLeaves V.may_leave system.old.state vault.old) }
    ensures grows { vault.new.end ≤ vault.old.end + 2 ^ 31 }
    ensures store { CallsStore V.faults V.lets_pass (flush_calls system.old.state) result vault.old.store vault.new.store }
    ensures ends { system.new.state.checking ≡ false }
    ensures promised { system.new.promised ≡ system.old.promised }
{
    let _count = logged(system);
    system.end_copy();
    if is_kept(system, vault) {
        return Ok(());
    }
    match parts::cause_of(system, vault) {
        Some(cause) if vault.stopped() => Err(CheckpointError::Stopped { cause }),
        _ => parts::flush(alloc, system, vault),
    }
}

impl Checkpoint {
    /// Starts a checkpoint: all records are flushed, what they come to is kept with the table of running transactions, and the header is
    /// written to the image that isn't the current one. `InProgress` exactly where another checkpoint is under way, else `Stopped` exactly
    /// where engine or vault is stopped, with that cause; `OutOfMemory` where memory for the table, or for the 64 KiB of a run, is refused:
    /// then nothing changes. `Fault` only where the store's count of faults rose; then vault and engine stop.
    pub fn start<V: Store>(
        alloc: Global,
        system: &mut System,
        vault: &mut Vault<V>,
    ) -> Result<Self, CheckpointError>
        requires end { vault.old.end < 2 ^ 62 }
        requires current { vault.old.current < 2 ^ 62 }
        ensures ok { IfOk result (λ c. HasStarted V.Store system.old.state vault.old c vault.new) }
        ensures flag { OnOk result ((system.old.state.checking ≡ false) × (system.new ≡ record system.old { state = in_checkpoint (taken system.old.state) true })) }
        ensures reaches { IfOk result (λ c. Reaches V.told (side_in c) 0 vault.new) }
        ensures in_progress { system.old.state.checking ≡ true → result ≡ Err InProgress }
        ensures alone { IsErrOf result InProgress → system.old.state.checking ≡ true }
        ensures stopped { system.old.state.checking ≡ false → IfSome (cause_of system.old.state vault.old) (λ cause. result ≡ Err (Stopped cause)) }
        ensures runs { cause_of system.old.state vault.old ≡ None → IfErr result (λ e. (e ≡ InProgress) ⊎ ((e ≡ Fault) ⊎ (e ≡ OutOfMemory))) }
        ensures stops { IsErrOf result Fault → system.new ≡ record system.old { state = store_stopped (taken system.old.state) } }
        ensures fault { IsErrOf result Fault → FailsToWrite V.Store system.old.state vault.old (image_name (Checkpoints.side_of (vault.old.current + 1))) 0 64 vault.new }
        ensures files { IsNoShorter V.told vault.old vault.new }
        ensures any_moment { vault.old.stopped ≡ false → Within V.told V.moment V.left_since vault.old vault.new
            (WriteLeaves V.Store system.old.state vault.old (image_name (Checkpoints.side_of (vault.old.current + 1))) 0 64) }
        ensures grows { vault.new.end ≤ vault.old.end + 2 ^ 31 }
        ensures store { CallsStore V.faults V.lets_pass (flush_calls system.old.state + 1) result vault.old.store vault.new.store }
        ensures same { (IsErrOf result Fault → ⊥) → OnErr result ((system.new ≡ system.old) × (vault.new ≡ vault.old)) }
    {
        if !system.start_copy() {
            return Err(CheckpointError::InProgress);
        }
        match begin(alloc, system, vault) {
            Ok(checkpoint) => Ok(checkpoint),
            Err(error) => {
                system.end_copy();
                Err(error)
            }
        }
    }

    /// Copies the region with this number, which is the next one, to the image: its words are written without the updates of
    /// an open operation, and its flag for that image is cleared. Where the flag is clear the image has these words already,
    /// and nothing is written. `Stopped` exactly where the flag is set and the vault was stopped before, and then nothing
    /// changes. `Fault` only where the store's count of faults rose: then the vault stops, the region is as it was, and
    /// `give_up` stops the engine. It takes no memory beyond the store's own.
    pub fn copy<V: Store>(
        &mut self,
        number: u32,
        region: &mut Region,
        vault: &mut Vault<V>,
    ) -> Result<(), CheckpointError>
        requires next { number ≡ self.old.copied }
        requires within { number < regions_of self.old.header.geometry }
        requires reaches { Reaches V.told (side_in self.old) number vault.old }
        requires holds { is_dirty region.old (side_in self.old) ≡ false → Reaches V.told (side_in self.old) (number + 1) vault.old }
        ensures ok { OnOk result ((self.new ≡ record self.old { copied = number + 1 }) × (region.new ≡ cleaned (side_in self.old) region.old)) }
        ensures reaches { OnOk result (Reaches V.told (side_in self.old) (number + 1) vault.new) }
        ensures clean { is_dirty region.old (side_in self.old) ≡ false → (result ≡ Ok tt) × (region.new ≡ region.old) × (vault.new ≡ vault.old) }
        ensures written { is_dirty region.old (side_in self.old) ≡ true → OnOk result (HasWritten V.Store vault.old (image_name (side_in self.old)) (place_of number) (words_bytes region.old.back) vault.new) }
        ensures stopped { is_dirty region.old (side_in self.old) ≡ true → vault.old.stopped ≡ true → (result ≡ Err (Stopped ByStore)) × (self.new ≡ self.old) × (vault.new ≡ vault.old) }
        ensures end { vault.new.end ≡ vault.old.end }
        ensures files { IsNoShorter V.told vault.old vault.new }
        ensures any_moment { is_dirty region.old (side_in self.old) ≡ true → vault.old.stopped ≡ false → LeavesOnly V.moment V.left_since vault.old.store vault.new.store
            (TornFrom (V.may_leave vault.old.store) (image_name (side_in self.old)) (place_of number) (length (words_bytes region.old.back))) }
        ensures calls { is_dirty region.old (side_in self.old) ≡ true → vault.old.stopped ≡ false → V.lets_pass vault.new.store ≡ one_less (V.lets_pass vault.old.store) }
        ensures fault { vault.old.stopped ≡ false → OnErr result ((result ≡ Err Fault) × (self.new ≡ record self.old { faulted = true }) × WriteHasFailed V.Store vault.old (image_name (side_in self.old)) (place_of number) (length (words_bytes region.old.back)) vault.new) }
        ensures region { OnErr result (region.new ≡ region.old) }
    {
        let side = side_of(self.header.number);
        if region.dirty(side) {
            match parts::write_region(vault, side, number, region) {
                Ok(()) => {}
                Err(VaultError::Stopped) => {
                    return Err(CheckpointError::Stopped {
                        cause: Cause::Store,
                    });
                }
                Err(VaultError::Fault) => {
                    self.faulted = true;
                    return Err(CheckpointError::Fault);
                }
            }
        }
        let _count = self.header.geometry.regions();
        self.copied = number + 1;
        Ok(())
    }

    /// Copies a region alone, where its flag for the image is set: its words without the updates of an open operation. It clears
    /// the flag and answers true. Where the flag is clear it answers false and leaves words and region.
    ///
    /// It is for who holds one region at a time and not the vault. From then on until `write_words` has written these words, the
    /// flag is clear though the image hasn't them: so they are written next, and what others do to the region meanwhile sets
    /// the flag again. It takes no memory and calls no store.
    pub fn copy_out(&self, region: &mut Region, words: &mut [u64; 64]) -> bool
        ensures flag { result ≡ is_dirty region.old (side_in self.now) }
        ensures copied { is_dirty region.old (side_in self.now) ≡ true → (words.new ≡ region.old.back) × (region.new ≡ cleaned (side_in self.now) region.old) }
        ensures clean { is_dirty region.old (side_in self.now) ≡ false → (words.new ≡ words.old) × (region.new ≡ region.old) }
    {
        let side = side_of(self.header.number);
        if !region.dirty(side) {
            return false;
        }
        region.copy_settled(words);
        region.clear_dirty(side);
        true
    }

    /// Writes the words of the next regions, 128 at most, to the image: what `copy_out` gave of them, in the order of their
    /// numbers. It makes one call of the store, whose fault leaves any part of them in their places, and nothing else.
    /// `Stopped` exactly where the vault was stopped before, and then nothing changes. `Fault` only where the store's count of
    /// faults rose: then the vault stops, and `give_up` stops the engine. It takes no memory beyond the store's own.
    ///
    /// It is for who holds the vault and no region.
    pub fn write_words<V: Store>(
        &mut self,
        words: &[[u64; 64]],
        vault: &mut Vault<V>,
    ) -> Result<(), CheckpointError>
        requires few { length words.now ≤ 128 }
        requires within { self.old.copied + length words.now ≤ regions_of self.old.header.geometry }
        requires reaches { Reaches V.told (side_in self.old) self.old.copied vault.old }
        ensures ok { OnOk result (self.new ≡ record self.old { copied = self.old.copied + length words.now }) }
        ensures reaches { OnOk result (Reaches V.told (side_in self.old) self.new.copied vault.new) }
        ensures written { OnOk result
            (HasWritten V.Store vault.old (image_name (side_in self.old)) (place_of self.old.copied) (flat_map words_bytes words.now) vault.new) }
        ensures stopped { vault.old.stopped ≡ true → (result ≡ Err (Stopped ByStore)) × (self.new ≡ self.old) × (vault.new ≡ vault.old) }
        ensures end { vault.new.end ≡ vault.old.end }
        ensures files { IsNoShorter V.told vault.old vault.new }
        ensures any_moment { vault.old.stopped ≡ false → LeavesOnly V.moment V.left_since vault.old.store vault.new.store
            (TornFrom (V.may_leave vault.old.store) (image_name (side_in self.old)) (place_of self.old.copied) (length (flat_map words_bytes words.now))) }
        ensures calls { vault.old.stopped ≡ false → V.lets_pass vault.new.store ≡ one_less (V.lets_pass vault.old.store) }
        ensures fault { vault.old.stopped ≡ false → OnErr result ((result ≡ Err Fault) × (self.new ≡ record self.old { faulted = true })) }
        ensures failed { vault.old.stopped ≡ false → OnErr result
            (WriteHasFailed V.Store vault.old (image_name (side_in self.old)) (place_of self.old.copied) (length (flat_map words_bytes words.now)) vault.new) }
    {
        let side = side_of(self.header.number);
        let _count = self.header.geometry.regions();
        match parts::write_words(vault, side, self.copied, words, &mut self.buffer) {
            Ok(()) => {
                self.copied += words.len() as u32;
                Ok(())
            }
            Err(VaultError::Stopped) => Err(CheckpointError::Stopped {
                cause: Cause::Store,
            }),
            Err(VaultError::Fault) => {
                self.faulted = true;
                Err(CheckpointError::Fault)
            }
        }
    }

    /// Passes over so many of the next regions, whose flags for the image were clear when each was looked at: the image has
    /// their words already. It is for who copies by `copy_out`; what is written next asks that the image's file reaches
    /// behind them.
    pub fn pass_over(&mut self, count: u32)
        requires within { self.old.copied + count ≤ regions_of self.old.header.geometry }
        ensures { self.new ≡ record self.old { copied = self.old.copied + count } }
    {
        let _count = self.header.geometry.regions();
        self.copied += count;
    }

    /// How many regions are copied, or needed no copy.
    pub fn copied(&self) -> u32
        ensures { result ≡ self.now.copied }
    {
        self.copied
    }

    /// How many regions it copies.
    pub fn regions(&self) -> u32
        ensures { result ≡ regions_of self.now.header.geometry }
    {
        self.header.geometry.regions()
    }

    /// How many records the log had when it settled, if it has.
    pub fn settled(&self) -> Option<u64>
        ensures { result ≡ self.now.settled }
    {
        self.settled
    }

    /// Copies the next run of these regions, which are all regions of the database, to the image: the next one and those
    /// behind it whose flag for that image is as its own, 128 at most. Where the flag is set their words are written by one
    /// call of the store, each region's without the updates of an open operation, and then their flags are cleared; where it
    /// is clear nothing is written. The steps of others may stand between two such calls. It answers and stops as `copy` does,
    /// and takes no memory beyond the store's own.
    pub fn copy_run<V: Store>(
        &mut self,
        regions: &mut [Region],
        vault: &mut Vault<V>,
    ) -> Result<(), CheckpointError>
        requires all { length regions.old ≡ regions_of self.old.header.geometry }
        requires left { self.old.copied < length regions.old }
        requires reaches { Reaches V.told (side_in self.old) self.old.copied vault.old }
        requires places { IfSome (V.told vault.old.store) (HoldsPlaces regions.old) }
        ensures ok { OnOk result ((self.new ≡ behind_run self.old regions.old) × (regions.new ≡ cleaned_run self.old regions.old)) }
        ensures further { OnOk result ((self.old.copied < self.new.copied) × (self.new.copied ≤ length regions.old)) }
        ensures reaches { OnOk result (Reaches V.told (side_in self.old) self.new.copied vault.new) }
        ensures places { IfSome (V.told vault.new.store) (HoldsPlaces regions.new) }
        ensures clean { is_run_dirty self.old regions.old ≡ false → (result ≡ Ok tt) × (regions.new ≡ regions.old) × (vault.new ≡ vault.old) }
        ensures written { is_run_dirty self.old regions.old ≡ true → OnOk result
            (HasWritten V.Store vault.old (image_name (side_in self.old)) (place_of self.old.copied) (run_bytes self.old regions.old) vault.new) }
        ensures stopped { is_run_dirty self.old regions.old ≡ true → vault.old.stopped ≡ true → (result ≡ Err (Stopped ByStore)) × (self.new ≡ self.old) × (vault.new ≡ vault.old) }
        ensures end { vault.new.end ≡ vault.old.end }
        ensures files { IsNoShorter V.told vault.old vault.new }
        ensures any_moment { is_run_dirty self.old regions.old ≡ true → vault.old.stopped ≡ false → LeavesOnly V.moment V.left_since vault.old.store vault.new.store
            (TornFrom (V.may_leave vault.old.store) (image_name (side_in self.old)) (place_of self.old.copied) (length (run_bytes self.old regions.old))) }
        ensures calls { is_run_dirty self.old regions.old ≡ true → vault.old.stopped ≡ false → V.lets_pass vault.new.store ≡ one_less (V.lets_pass vault.old.store) }
        ensures fault { vault.old.stopped ≡ false → OnErr result ((result ≡ Err Fault) × (self.new ≡ record self.old { faulted = true })) }
        ensures failed { vault.old.stopped ≡ false → OnErr result
            (WriteHasFailed V.Store vault.old (image_name (side_in self.old)) (place_of self.old.copied) (length (run_bytes self.old regions.old)) vault.new) }
        ensures regions { OnErr result (regions.new ≡ regions.old) }
    {
        let side = side_of(self.header.number);
        let _count = self.header.geometry.regions();
        let from = self.copied as usize;
        match parts::next_run(vault, side, from, regions, &mut self.buffer) {
            Ok(until) => {
                self.copied = until as u32;
                Ok(())
            }
            Err(VaultError::Stopped) => Err(CheckpointError::Stopped {
                cause: Cause::Store,
            }),
            Err(VaultError::Fault) => {
                self.faulted = true;
                Err(CheckpointError::Fault)
            }
        }
    }

    /// Ends the image, once each region was copied: all records are flushed, and the table is written behind the regions. An
    /// audit that begins behind it may certify the image. `Stopped` exactly where engine or vault was stopped before, and
    /// then nothing changes; `Fault` only where the store's count of faults rose, and then vault and engine stop. It never
    /// fails for want of memory.
    #[tactic(auto, using(crate::proofs::Joined::writes, crate::proofs::Joined::write_fails))]
    pub fn settle<V: Store>(
        &mut self,
        alloc: Global,
        system: &mut System,
        vault: &mut Vault<V>,
    ) -> Result<(), CheckpointError>
        requires all { self.old.copied ≡ regions_of self.old.header.geometry }
        requires reaches { Reaches V.told (side_in self.old) self.old.copied vault.old }
        requires end { vault.old.end < 2 ^ 62 }
        ensures ok { OnOk result (Writes V.Store system.old.state vault.old (image_name (side_in self.old)) (place_of self.old.copied) self.old.table vault.new) }
        ensures settled { OnOk result ((self.new ≡ record self.old { settled = Some system.old.state.records }) × (system.new ≡ record system.old { state = taken system.old.state })) }
        ensures stopped { IfSome (cause_of system.old.state vault.old) (λ cause. (result ≡ Err (Stopped cause)) × (system.new ≡ system.old) × (vault.new ≡ vault.old)) }
        ensures fault { cause_of system.old.state vault.old ≡ None → OnErr result ((result ≡ Err Fault) × (system.new ≡ record system.old { state = store_stopped (taken system.old.state) }) × FailsToWrite V.Store system.old.state vault.old (image_name (side_in self.old)) (place_of self.old.copied) (length self.old.table) vault.new) }
        ensures files { IsNoShorter V.told vault.old vault.new }
        ensures any_moment { vault.old.stopped ≡ false → Within V.told V.moment V.left_since vault.old vault.new
            (WriteLeaves V.Store system.old.state vault.old (image_name (side_in self.old)) (place_of self.old.copied) (length self.old.table)) }
        ensures grows { vault.new.end ≤ vault.old.end + 2 ^ 31 }
        ensures store { CallsStore V.faults V.lets_pass (flush_calls system.old.state + 1) result vault.old.store vault.new.store }
        ensures same { OnErr result (self.new ≡ self.old) }
    {
        if let Some(cause) = parts::cause_of(system, vault) {
            return Err(CheckpointError::Stopped { cause });
        }
        parts::flush(alloc, system, vault)?;
        let side = side_of(self.header.number);
        parts::write(
            system,
            vault,
            side,
            64 + 512 * u64::from(self.copied),
            &self.table,
        )?;
        self.settled = Some(system.records());
        Ok(())
    }

    /// Ends the checkpoint by the verdict of an audit of this system that began behind `settle` and whose end is in its log.
    /// Where it names no region, all records are flushed, the image is synced and the anchor moves to it. It answers the
    /// number of the image, which is the current one then. Where the verdict names regions what the audit logged is flushed,
    /// unless another has flushed it, and it answers `Failed` once it is. Else it answers `Stopped`, where the vault was
    /// stopped before, be it in the flush of another who had taken it, or `Fault`, where its own flush met a fault. For a clean verdict `Stopped` comes exactly where engine or vault was
    /// stopped before. `Fault` comes only where the store's count of faults rose, and then vault and engine stop. No
    /// checkpoint is under way behind any answer. It never fails for want of memory.
    pub fn certify<V: Store>(
        self,
        alloc: Global,
        verdict: Verdict,
        system: &mut System,
        vault: &mut Vault<V>,
    ) -> Result<u64, CheckpointError>
        requires audited { IsSomeAnd self.settled (λ n. IsEndOf system.old.state n verdict) }
        requires end { vault.old.end < 2 ^ 62 }
        requires current { vault.old.current < 2 ^ 62 }
        ensures ok { IfOk result (λ now. (verdict.failing ≡ []) × (now ≡ vault.old.current + 1) × (now ≡ vault.new.current)) }
        ensures turned { OnOk result (HasTurnedTo V.Store system.old.state vault.old (side_in self) vault.new) }
        ensures flag { OnOk result (system.new ≡ record system.old { state = in_checkpoint (taken system.old.state) false }) }
        ensures kept { IsErrOf result (Failed verdict.failing) → IsKept V.Store system.old.state vault.old system.new.state vault.new }
        ensures flushed { IsErrOf result (Failed verdict.failing) → NoneInHand system.old.state vault.old → AreAllFlushed system.new.state vault.new }
        ensures failed { IfErr result (λ e. (verdict.failing ≡ [] → ⊥) → (e ≡ Failed verdict.failing) ⊎ IsLost V.Store system.old.state vault.old system.new.state vault.new e) }
        ensures stopped { verdict.failing ≡ [] → IfSome (cause_of system.old.state vault.old) (λ cause. (result ≡ Err (Stopped cause)) × (system.new ≡ record system.old { state = in_checkpoint system.old.state false }) × (vault.new ≡ vault.old)) }
        ensures fault { verdict.failing ≡ [] → cause_of system.old.state vault.old ≡ None → OnErr result ((result ≡ Err Fault) × (system.new ≡ record system.old { state = in_checkpoint (store_stopped (taken system.old.state)) false }) × FailsToTurn V.Store system.old.state vault.old (side_in self) vault.new) }
        ensures files { IsNoShorter V.told vault.old vault.new }
        ensures any_moment { verdict.failing ≡ [] → vault.old.stopped ≡ false → Within V.told V.moment V.left_since vault.old vault.new
            (TurnLeaves V.Store system.old.state vault.old (side_in self)) }
        ensures failing_moment { (verdict.failing ≡ [] → ⊥) → vault.old.stopped ≡ false → Within V.told V.moment V.left_since vault.old vault.new
            (FlushLeaves V.may_leave system.old.state vault.old) }
        ensures grows { vault.new.end ≤ vault.old.end + 2 ^ 31 }
        ensures store { CallsStore V.faults V.lets_pass (flush_calls system.old.state + 5) result vault.old.store vault.new.store }
        ensures failing_calls { IsErrOf result (Failed verdict.failing) → V.lets_pass vault.new.store ≡ fewer (flush_calls system.old.state) (V.lets_pass vault.old.store) }
        ensures ends { system.new.state.checking ≡ false }
        ensures promised { system.new.promised ≡ system.old.promised }
    {
        if !verdict.failing().is_empty() {
            return match keep_failure(alloc, system, vault) {
                Ok(()) => Err(CheckpointError::Failed {
                    regions: verdict.into_failing(),
                }),
                Err(error) => Err(error),
            };
        }
        let anchored = anchor(alloc, self.header.number, system, vault);
        system.end_copy(); // with every answer
        anchored
    }

    /// Ends a checkpoint without an image, behind an error of `copy` or `settle`, or where its audit was refused. Where a call
    /// of the store has failed in a copy, the engine stops. It takes no memory.
    pub fn give_up(self, system: &mut System)
        ensures { system.new ≡ record system.old { state = given_up self.faulted system.old.state } }
    {
        if self.faulted {
            system.stop();
        }
        system.end_copy();
    }
}
