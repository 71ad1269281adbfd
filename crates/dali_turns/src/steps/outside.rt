//! The steps of a client outside a transaction that are no audit's and no checkpoint's.
ghost use Rattle.std.specs.Prelude.{◌≡◌, ◌≢◌, ◌<◌, Bool, true, false, Some, None, Ok, is_ok, slice_get, slice_set, IfOk, OnOk};
ghost use Rattle.dali_region.specs.State.{RegionState, poked};
ghost use Rattle.dali_transcripts.specs.declared.clients.command.Command.{Command as Order};
ghost use Rattle.dali_transcripts.specs.declared.clients.command.Command.TheVariants.{Begin as IsBegin, Poke as IsPoke};
ghost use Rattle.dali_turns.specs.declared.client.State.{State as Place};
ghost use Rattle.dali_turns.specs.declared.client.State.TheVariants.{Outside as IsOutside, LeftOut as IsLeftOut, Waiting as IsWaiting};
ghost use Rattle.dali_turns.specs.Clients.{next_of, Passes, Stays, left_behind};
ghost use Rattle.dali_turns.specs.Outside.{HasGone, BeginsFrom};
ghost use Rattle.dali_turns.specs.Goes.{StepGoes};
ghost use Rattle.dali_turns.specs.Refuses.{RefusesNow, Refuses};
ghost use Rattle.dali_turns.specs.Places.{PlacesGo};
ghost use Rattle.dali_turns.specs.Waits.{StaysPut};

use crate::client::{Client, State, Transaction};
use crate::run::no_run;
use crate::why::why_of;
use dali_att::State as TxnState;
use dali_bytes::OutOfMemory;
use dali_core::Core;
use dali_store::Store;
use dali_system::System;
use dali_transcripts::clients::{Command, Line};

/// Begins a transaction of which so many tries got Busy. A begin that is refused leaves its transaction out.
pub(crate) fn begin<V: Store>(
    client: &mut Client<'_>,
    tries: u32,
    core: &mut Core<V>,
) -> Result<bool, OutOfMemory>
    requires next { next_of client.old ≡ Some IsBegin }
    requires stands { client.old.state ≡ IsOutside }
    ensures goes { (precheck : Bool) (state : Place) → BeginsFrom core.old.system.state tries state
        → StepGoes V.Store precheck state client.old core.old.regions.items core.old.system.state core.old.vault (is_ok result) client.new core.new.regions.items core.new.system.state core.new.vault }
    ensures places { (state : Place) → PlacesGo V.told state core.old.regions.items core.old.vault client.new.state core.new.regions.items core.new.vault }
    ensures on { IfOk result (λ went. went ≡ true) }
    ensures vault { core.new.vault ≡ core.old.vault }
    ensures refuses { RefusesNow core.old.system.state IsBegin client.old result client.new }
{
    let commands = client.rest;
    match core.system.begin() {
        Ok((txn, _)) => {
            let transaction = Transaction {
                txn,
                tries,
                commands,
                deadly: None,
            };
            client.finish(State::Within { transaction }, Line::Begun { txn })?;
            Ok(true)
        }
        Err(error) => {
            let why = why_of(error)?;
            let command = Command::Begin;
            client.finish(State::LeftOut, Line::Refused { command, why })?;
            Ok(true)
        }
    }
}

/// Begins again, where the holder for which the last try gave way has ended or is dead, or where the engine is stopped and
/// nobody ends any more.
pub(crate) fn wait<V: Store>(
    client: &mut Client<'_>,
    tries: u32,
    holder: u64,
    core: &mut Core<V>,
) -> Result<bool, OutOfMemory>
    requires stands { client.old.state ≡ IsOutside }
    ensures goes { (precheck : Bool) → StepGoes V.Store precheck (IsWaiting tries holder) client.old core.old.regions.items core.old.system.state core.old.vault (is_ok result) client.new core.new.regions.items core.new.system.state core.new.vault }
    ensures places { PlacesGo V.told (IsWaiting tries holder) core.old.regions.items core.old.vault client.new.state core.new.regions.items core.new.vault }
    ensures idle { result ≡ Ok false → StaysPut core.old.system.state (IsWaiting tries holder) client.old client.new × (core.new ≡ core.old) }
    ensures vault { core.new.vault ≡ core.old.vault }
    ensures refuses { (precheck : Bool) → Refuses precheck (IsWaiting tries holder) client.old core.old.regions.items core.old.system.state core.old.vault.flushed result client.new core.new.vault.stopped }
{
    if !begins_next(client) {
        return no_run(); // a transaction that is tried again begins
    }
    if has_gone(&core.system, holder) {
        return begin(client, tries, core);
    }
    if core.system.stopped().is_some() {
        return begin(client, tries, core);
    }
    client.state = State::Waiting { tries, holder };
    Ok(false)
}

// Whether a begin is the client's next command.
fn begins_next(client: &Client<'_>) -> bool
    ensures begins { result ≡ true → next_of client.now ≡ Some IsBegin }
    ensures told { next_of client.now ≡ Some IsBegin → result ≡ true }
{
    matches!(client.command(), Some(Command::Begin))
}

// Whether a transaction has ended, or its client died.
fn has_gone(system: &System, txn: u64) -> bool
    ensures is { result ≡ true → HasGone system.now.state txn }
    ensures never { result ≡ false → HasGone system.now.state txn → ⊥ }
{
    matches!(system.state(txn), None | Some(TxnState::Dead { .. }))
}

/// The next command behind a begin that was refused: it is left out.
pub(crate) fn left_out(client: &mut Client<'_>) -> Result<bool, OutOfMemory>
    ensures done { next_of client.old ≡ None → (result ≡ Ok false) × Stays client.old IsLeftOut client.new }
    ensures passed { (command : Order) → next_of client.old ≡ Some command → (result ≡ Ok true) × Passes client.old (left_behind command) client.new }
{
    let Some(command) = client.command() else {
        client.state = State::LeftOut;
        return Ok(false);
    };
    client.pass_command();
    if command.closes() {
        client.state = State::Outside;
        return Ok(true);
    }
    client.state = State::LeftOut;
    Ok(true)
}

// Whether a stray write with this mask changes a word of a region.
fn is_stray(word: u8, mask: u64) -> bool
    ensures stray { result ≡ true → (word < 64) × (mask ≢ 0) }
    ensures told { (word < 64) × (mask ≢ 0) → result ≡ true }
{
    word < 64 && mask != 0
}

/// A stray write. Its line comes first, for which memory may be refused.
pub(crate) fn poke<V: Store>(
    client: &mut Client<'_>,
    region: u32,
    word: u8,
    mask: u64,
    core: &mut Core<V>,
) -> Result<bool, OutOfMemory>
    requires next { next_of client.old ≡ Some (IsPoke region word mask) }
    requires stands { client.old.state ≡ IsOutside }
    ensures goes { (precheck : Bool) → StepGoes V.Store precheck IsOutside client.old core.old.regions.items core.old.system.state core.old.vault (is_ok result) client.new core.new.regions.items core.new.system.state core.new.vault }
    ensures places { PlacesGo V.told IsOutside core.old.regions.items core.old.vault client.new.state core.new.regions.items core.new.vault }
    ensures on { IfOk result (λ went. went ≡ true) }
    ensures word { (was : RegionState) → slice_get core.old.regions.items region ≡ Some was → OnOk result (core.new.regions.items ≡ slice_set core.old.regions.items region (poked word mask was)) }
    ensures vault { core.new.vault ≡ core.old.vault }
{
    if !is_stray(word, mask) {
        return no_run(); // each block's stray writes are so
    }
    match core.regions.get_mut(region as usize) {
        Some(region) => {
            client.finish(State::Outside, Line::PokeOk)?;
            region.poke(word, mask);
            Ok(true)
        }
        None => {
            client.finish(State::Outside, Line::PokeOutOfRange)?;
            Ok(true)
        }
    }
}
