//! A whole round.
ghost use Rattle.std.specs.Prelude.{◌≡◌, Bool, ◌<◌, ◌⊎◌, [], false, true, Ok, map, length, vec_capacity, vec_len, is_ok, IfOk, IfSome, OnOk};
ghost use Rattle.dali_transcripts.specs.Rounds.{AreBlocks};
ghost use Rattle.dali_transcripts.specs.Clients.Told.{told_of};
ghost use Rattle.dali_core.specs.Cores.{HoldsPlaces, IsNoShorter};
ghost use Rattle.dali_round.specs.Leads.{is_done, RoundGoes};
ghost use Rattle.dali_turns.specs.Moments.{TurnLeavesRight};
ghost use Rattle.dali_turns.specs.Places.{HasPlaces, PlacesGo};
ghost use Rattle.dali_turns.specs.Waits.{StaysPut};
ghost use Rattle.dali_round.specs.Played.{AreNew, AreOver, HavePlaces, MoveGoes, HaltsGo};
ghost use Rattle.dali_round.specs.Ends.{EndGoes, named};
ghost use Rattle.dali_round.specs.Idle.{AreIdle, IsOrder, MayPlay, NoneHasCome};
ghost use Rattle.dali_round.specs.Moments.{TurnsGo, HaltsEnd, PlayLeaves, RoundLeavesRight};

use dali_bytes::OutOfMemory;
use dali_calls::stepwise::Gate;
use dali_core::Core;
use dali_store::Store;
use dali_transcripts::clients::{Block, Transcript};
use dali_turns::{Client, Paces, Setting, halt, turn};
use std::alloc::Global;

/// How a round ended.
#[derive(Clone, Copy, PartialEq, Eq)]
pub enum RoundEnd {
    /// Each client is done.
    Done,
    /// The round was cut: no client does more. Transactions that were open are open still, and nobody ends them before a
    /// restart. The lines of the step that was under way may lack, and its call may have taken back changes of its own. It is
    /// for where memory was wanted and refused, but no clause says when it comes: tests show that it doesn't with ample memory.
    OutOfMemory,
}

// The places of the clients of these blocks, by ascending number.
fn order_of(alloc: Global, blocks: &[Block]) -> Result<Vec<usize>, OutOfMemory>
    requires { AreBlocks (map told_of blocks.now) }
    ensures { IfOk result (λ order. IsOrder order.items (length blocks.now)) }
{
    let mut order = Vec::with_capacity(alloc, blocks.len())?;
    for number in 1..65 {
        for place in 0..blocks.len() {
            if blocks[place].client == number {
                order.push(place)?;
            }
        }
    }
    Ok(order)
}

// The clients of these blocks, as the blocks stand, in which order they make their turns, and room for their transcripts.
fn clients_of(
    alloc: Global,
    blocks: &[Block],
) -> Result<(Vec<Client<'_>>, Vec<usize>, Vec<Transcript>), OutOfMemory>
    requires { AreBlocks (map told_of blocks.now) }
    ensures clients { IfOk result (λ made. AreNew blocks.now made.0.items) }
    ensures order { IfOk result (λ made. IsOrder made.1.items (length blocks.now)) }
    ensures room { IfOk result (λ made. (made.2.items ≡ []) × (vec_capacity made.2 ≡ length blocks.now)) }
{
    let mut clients = Vec::with_capacity(alloc, blocks.len())?;
    for block in blocks {
        clients.push(Client::new(alloc, block))?;
    }
    let order = order_of(alloc, blocks)?;
    Ok((clients, order, Vec::with_capacity(alloc, blocks.len())?))
}

// The turn of a client, where it is due; else it goes on later. Where memory is wanting it does no more.
fn make_turn<V: Store, G: Gate>(
    client: &mut Client<'_>,
    due: bool,
    core: &mut Core<V>,
    setting: &Setting<'_, G>,
) -> Result<bool, OutOfMemory>
    requires { HasPlaces V.told client.old.state core.old.regions.items core.old.vault }
    ensures goes { MoveGoes V.Store setting.now.precheck client.old core.old.regions.items core.old.system.state core.old.vault (is_ok result) client.new core.new.regions.items core.new.system.state core.new.vault }
    ensures places { PlacesGo V.told client.old.state core.old.regions.items core.old.vault client.new.state core.new.regions.items core.new.vault }
    ensures idle { result ≡ Ok false → StaysPut core.old.system.state client.old.state client.old client.new × (core.new ≡ core.old) }
    ensures any_moment { TurnLeavesRight V.Store setting.now.precheck client.old core.old.regions.items core.old.system.state core.old.vault core.new.system.state core.new.vault }
{
    if !due {
        return Ok(true);
    }
    match turn(client, core, setting) {
        Ok(moved) => Ok(moved),
        Err(error) => {
            client.leave();
            Err(error)
        }
    }
}

// One turn of each client, in this order. Answers whether any could go on.
fn make_turns<V: Store, G: Gate>(
    clients: &mut [Client<'_>],
    order: &[usize],
    paces: &mut Paces,
    core: &mut Core<V>,
    setting: &Setting<'_, G>,
) -> Result<bool, OutOfMemory>
    requires { MayPlay V.told clients.old order.now core.old.regions.items core.old.vault }
    ensures turns { TurnsGo V.Store (is_ok result) setting.now.precheck clients.old core.old.regions.items core.old.system.state core.old.vault clients.new core.new.regions.items core.new.system.state core.new.vault }
    ensures idle { result ≡ Ok false → AreIdle core.new.system.state clients.new (length clients.new) }
{
    let mut went_on = false;
    for place in order {
        let client = &mut clients[*place];
        let due = paces.is_due(*place, client, core);
        let moved = make_turn(client, due, core, setting)?;
        went_on = went_on || moved;
    }
    Ok(went_on)
}

// Whether each client is done.
fn are_over(clients: &[Client<'_>]) -> bool
    ensures is { result ≡ true → AreOver clients.now }
    ensures always { AreOver clients.now → result ≡ true }
{
    for client in clients {
        if !client.is_over() {
            return false;
        }
    }
    true
}

// Lets the clients make their turns until nobody goes on. Answers whether each is done then: so it is wherever a run has come,
// since a request waits for younger transactions alone, and each open one is a client's.
fn run<V: Store, G: Gate>(
    clients: &mut [Client<'_>],
    order: &[usize],
    core: &mut Core<V>,
    setting: &Setting<'_, G>,
) -> Result<bool, OutOfMemory>
    requires { MayPlay V.told clients.old order.now core.old.regions.items core.old.vault }
    ensures turns { TurnsGo V.Store (is_ok result) setting.now.precheck clients.old core.old.regions.items core.old.system.state core.old.vault clients.new core.new.regions.items core.new.system.state core.new.vault }
    ensures over { result ≡ Ok true → AreOver clients.new }
    ensures stuck { result ≡ Ok false → NoneHasCome V.Store setting.now.precheck clients.old core.old.regions.items core.old.system.state core.old.vault }
{
    let mut paces = Paces::new(clients.len());
    for _ in 0..u64::MAX {
        if !make_turns(clients, order, &mut paces, core, setting)? {
            return Ok(are_over(clients));
        }
    }
    Err(OutOfMemory)
}

// No client makes a step more: each commit that is logged is flushed, or has failed.
fn halt_all<V: Store>(clients: &[Client<'_>], core: &mut Core<V>, alloc: Global)
    requires { HavePlaces V.told clients.now core.old.regions.items core.old.vault }
    ensures goes { (precheck : Bool) → HaltsGo V.Store precheck clients.now core.old.regions.items core.old.system.state core.old.vault core.new.regions.items core.new.system.state core.new.vault }
    ensures places { HavePlaces V.told clients.now core.new.regions.items core.new.vault }
    ensures longer { IsNoShorter V.told core.old.vault core.new.vault }
    ensures any_moment { (precheck : Bool) → HaltsEnd V.Store precheck clients.now core.old.regions.items core.old.system.state core.old.vault core.new.regions.items core.new.system.state core.new.vault }
{
    for client in clients {
        halt(client, core, alloc);
    }
}

// Runs the clients, and ends what was under way where the round is cut: commits are flushed, and a checkpoint makes no image.
fn play<V: Store, G: Gate>(
    clients: &mut [Client<'_>],
    order: &[usize],
    core: &mut Core<V>,
    setting: &Setting<'_, G>,
) -> RoundEnd
    requires { MayPlay V.told clients.old order.now core.old.regions.items core.old.vault }
    ensures goes { EndGoes V.Store setting.now.precheck clients.old core.old.regions.items core.old.system.state core.old.vault (is_done result) clients.new core.new.regions.items core.new.system.state core.new.vault }
    ensures places { IfSome (V.told core.new.vault.store) (HoldsPlaces core.new.regions.items) }
    ensures longer { IsNoShorter V.told core.old.vault core.new.vault }
    ensures any_moment { PlayLeaves V.Store setting.now.precheck clients.old core.old.regions.items core.old.system.state core.old.vault core.new.regions.items core.new.system.state core.new.vault }
{
    match run(clients, order, core, setting) {
        Ok(true) => RoundEnd::Done,
        Ok(false) | Err(_) => {
            halt_all(clients, core, setting.alloc);
            core.system.end_copy();
            RoundEnd::OutOfMemory
        }
    }
}

// The transcripts of the clients of these blocks, in the room that was made for them, each under its block's number: that no
// step changes it follows from a run alone.
fn transcripts_of(
    clients: Vec<Client<'_>>,
    blocks: &[Block],
    room: Vec<Transcript>,
) -> Vec<Transcript>
    requires none { room.items ≡ [] }
    requires room { length clients.items ≡ vec_capacity room }
    requires blocks { length clients.items ≡ length blocks.now }
    ensures { result.items ≡ named blocks.now clients.entry.items }
{
    let mut transcripts = room;
    for client in clients {
        let number = blocks[transcripts.len()].client;
        if transcripts
            .push(client.into_transcript().with_client(number))
            .is_err()
        {
            unreachable!() // there is room
        }
    }
    transcripts
}

/// Runs the blocks of several clients, at most 64 with numbers from 1 to 64 that differ, until each is done. They make their
/// turns by ascending number, which no clause promises. It hands out the core and the transcripts, in the order of the blocks.
/// With `precheck` an operation that goes on with a call first compares its region's codeword with the words, in one step, so
/// that nobody comes in between. The gate is told of each operation of a call behind its last update.
///
/// A call whose lock a younger transaction holds waits. Where an older one holds it the transaction is taken back, and tried
/// again from its begin under a new number when that holder has ended, up to 1,000 times. A dead transaction whose lock or
/// latch is in the way is cleaned up. Where the engine stops each client goes on, and its commands are refused.
///
/// It takes any core, whatever log it has: what is promised of a run is so where one has come to it, as behind a format, a
/// restart, or a round that ended with `Done`. It ends with `OutOfMemory` where memory for a step, a line or a client was
/// refused, or where a core that no run has come to has no step. No clause says so, and tests show that it doesn't come with
/// ample memory. Where there are no transcripts memory for the clients was refused, and nothing was done.
pub fn round<V: Store, G: Gate>(
    alloc: Global,
    core: Core<V>,
    blocks: &[Block],
    precheck: bool,
    gate: &G,
) -> (Core<V>, Vec<Transcript>, RoundEnd)
    requires placed { AreBlocks (map told_of blocks.now) }
    requires files { IfSome (V.told core.vault.store) (HoldsPlaces core.regions.items) }
    ensures leads { RoundGoes V.Store precheck blocks.now core.regions.items core.system.state core.vault result.2 result.1.items result.0.regions.items result.0.system.state result.0.vault }
    ensures clients { (map (λ t. t.client) result.1.items ≡ map (λ b. b.client) blocks.now) ⊎ (result.1.items ≡ []) }
    ensures nothing { length result.1.items < length blocks.now → result.0 ≡ core }
    ensures files { IfSome (V.told result.0.vault.store) (HoldsPlaces result.0.regions.items) }
    ensures longer { IsNoShorter V.told core.vault result.0.vault }
    ensures any_moment { RoundLeavesRight V.Store core.regions.items core.system.state core.vault result.0.regions.items result.0.system.state result.0.vault }
{
    let mut core = core;
    let Ok((mut clients, order, room)) = clients_of(alloc, blocks) else {
        return (core, Vec::new(alloc), RoundEnd::OutOfMemory);
    };
    let setting = Setting {
        alloc,
        precheck,
        gate,
    };
    let end = play(&mut clients, &order, &mut core, &setting);
    (core, transcripts_of(clients, blocks, room), end)
}
