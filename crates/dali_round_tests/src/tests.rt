//! What no clause says: rounds of one and of several clients, from their commands to their lines.
ghost use Rattle.std.specs.Prelude.{◌≡◌, IfOk, IfSome};
ghost use Rattle.dali_core.specs.Cores.{HoldsPlaces};

use crate::blocks::{are_blocks, block, may_be_beside};
use crate::tables::FULL_LOGS;
use crate::texts::text_of;
use anyhow::Result;
use dali_core::Core;
use dali_fuse::Fuse;
use dali_geometry::Geometry;
use dali_locks::{LockAnswer, Mode};
use dali_memstore::MemoryStore;
use dali_restart::{format, restart};
use dali_round::{Block, Gate, OpenGate, RoundEnd, Transcript, round};
use dali_store::Store;
use std::alloc::Global;
use std::cell::Cell;
use std::process::Abort;

// A gate that writes down what it is told.
#[derive(Drop)]
struct Recorder {
    alloc: Global,
    told: Cell<Vec<(u32, u32)>>,
}

impl Gate for Recorder {
    fn pass(&self, client: u32, point: u32) {
        let mut told = self.told.replace(Vec::new(self.alloc));
        let _noted = told.push((client, point)); // where memory is refused, the test fails
        self.told.set(told);
    }
}

impl Recorder {
    fn new(alloc: Global) -> Self {
        Recorder {
            alloc,
            told: Cell::new(Vec::new(alloc)),
        }
    }

    // The points that it was told of for this client.
    fn points_of(self, client: u32) -> Result<Vec<u32>> {
        let mut points = Vec::new(self.alloc);
        for (operator, point) in self.told.into_inner() {
            if operator == client {
                points.push(point)?;
            }
        }
        Ok(points)
    }
}

// A store in memory that never fails.
fn whole_store(alloc: Global) -> Fuse<MemoryStore> {
    Fuse::new(MemoryStore::new(alloc, Vec::new(alloc)), None)
}

// The core of a new database of so many index and heap regions.
fn core_of<V: Store + Drop>(
    alloc: Global,
    store: V,
    sizes: (u32, u32),
    limit: u64,
) -> Result<Core<V>>
    ensures { IfOk result (λ core. IfSome (V.told core.vault.store) (HoldsPlaces core.regions.items)) }
{
    if limit > 268_435_456 {
        anyhow::bail!("no limit");
    }
    let geometry = Geometry::new(sizes.0, sizes.1)?;
    match format(alloc, store, geometry, limit) {
        Ok(core) => Ok(core),
        Err(_) => anyhow::bail!("no core"),
    }
}

// The parts of a text in front of a mark and behind it.
fn parted(text: &str, mark: char) -> (&str, &str) {
    match text.split_once(mark) {
        Some(parts) => parts,
        None => (text, ""),
    }
}

// The blocks of a round, of clients 1, 2 and so on: `-` stands for one that has none.
fn blocks_of(alloc: Global, texts: &str) -> Result<Vec<Block>> {
    let mut blocks = Vec::new(alloc);
    for (text, client) in texts.split('|').zip(1..=64) {
        if text.trim() != "-" {
            blocks.push(block(alloc, client, text)?)?;
        }
    }
    Ok(blocks)
}

// Whether each record of a round, from one number on and below another, has one owner.
fn have_one_owner(
    alloc: Global,
    first: u64,
    behind: u64,
    transcripts: &[Transcript],
) -> Result<bool> {
    let mut owners: Vec<u8> = Vec::new(alloc);
    for _ in first..behind {
        owners.push(0)?;
    }
    for transcript in transcripts {
        for number in transcript.receipts() {
            if *number < first {
                return Ok(false);
            }
            match owners.get_mut((*number - first) as usize) {
                Some(count) => *count = count.saturating_add(1),
                None => return Ok(false),
            }
        }
    }
    Ok(owners.iter().all(|count| *count == 1))
}

// Whether each record of a round has one owner, and no live hold and no checkpoint's flag is left.
fn is_left_clean<V: Store>(
    alloc: Global,
    core: &mut Core<V>,
    first: u64,
    transcripts: &[Transcript],
) -> Result<bool>
    ensures regions { core.new.regions ≡ core.old.regions }
    ensures vault { core.new.vault ≡ core.old.vault }
{
    if !have_one_owner(alloc, first, core.system.records(), transcripts)? {
        return Ok(false);
    }
    for region in &core.regions {
        if let Some(hold) = region.hold() {
            if !hold.dead {
                return Ok(false);
            }
        }
    }
    if !core.system.start_copy() {
        return Ok(false);
    }
    core.system.end_copy();
    Ok(true)
}

// A round of these blocks that ends with each client done, and leaves nothing open.
fn done<V: Store + Drop, G: Gate>(
    alloc: Global,
    core: Core<V>,
    texts: &str,
    gate: &G,
) -> Result<(Core<V>, Vec<Transcript>)>
    requires { IfSome (V.told core.vault.store) (HoldsPlaces core.regions.items) }
    ensures { IfOk result (λ done. IfSome (V.told done.0.vault.store) (HoldsPlaces done.0.regions.items)) }
{
    let blocks = blocks_of(alloc, texts)?;
    if !are_blocks(&blocks) {
        anyhow::bail!("no blocks");
    }
    let first = core.system.records();
    let (mut core, transcripts, end) = round(alloc, core, &blocks, false, gate);
    if end != RoundEnd::Done {
        anyhow::bail!("the round ended early");
    }
    if !is_left_clean(alloc, &mut core, first, &transcripts)? {
        anyhow::bail!("not left clean");
    }
    Ok((core, transcripts))
}

// What the clients of a round say.
fn play<V: Store + Drop>(alloc: Global, core: Core<V>, texts: &str) -> Result<(Core<V>, String)>
    requires { IfSome (V.told core.vault.store) (HoldsPlaces core.regions.items) }
    ensures { IfOk result (λ played. IfSome (V.told played.0.vault.store) (HoldsPlaces played.0.regions.items)) }
{
    let (core, transcripts) = done(alloc, core, texts, &OpenGate)?;
    Ok((core, text_of(alloc, &transcripts)?))
}

// Rounds over a database of one index and one heap region with this limit of its log, and what their clients say.
fn check<V: Store + Drop>(
    rt: &impl Abort,
    alloc: Global,
    store: V,
    limit: u64,
    rounds: &str,
) -> Result<()> {
    let mut core = core_of(alloc, store, (1, 1), limit)?;
    for text in rounds.split(';') {
        let (texts, wanted) = parted(text, '=');
        let (next, said) = play(alloc, core, texts)?;
        core = next;
        assert_eq!(rt; said.as_str(), wanted.trim());
    }
    Ok(())
}

// Checks what was said.
fn check_said(rt: &impl Abort, said: Result<String>, wanted: &str) -> Result<()> {
    let said = said?;
    assert_eq!(rt; said.as_str(), wanted);
    Ok(())
}

#[test]
fn full_logs(rt: HostRuntime) -> Result<()> {
    let alloc = rt.alloc();
    for (limit, rounds) in FULL_LOGS {
        check(&rt, alloc, whole_store(alloc), limit, rounds)?;
    }
    Ok(())
}

// What is said in a round that waits at last for a transaction which no client of it has: nobody goes on, and it is cut.
fn said_beside_a_stranger<V: Store + Drop>(alloc: Global, store: V, texts: &str) -> Result<String> {
    let mut core = core_of(alloc, store, (1, 1), 1_000_000)?;
    let Ok((stranger, _)) = core.system.begin() else {
        anyhow::bail!("no begin");
    };
    let Ok(LockAnswer::Granted) = core.system.request(stranger, 5, Mode::Exclusive) else {
        anyhow::bail!("no lock");
    };
    let blocks = blocks_of(alloc, texts)?;
    if !are_blocks(&blocks) {
        anyhow::bail!("no blocks");
    }
    let first = core.system.records();
    let (mut core, transcripts, end) = round(alloc, core, &blocks, false, &OpenGate);
    if end != RoundEnd::OutOfMemory {
        anyhow::bail!("the round wasn't cut");
    }
    if !is_left_clean(alloc, &mut core, first, &transcripts)? {
        anyhow::bail!("not left clean");
    }
    text_of(alloc, &transcripts)
}

// The second client and the third one are done, and the first one waits.
#[test]
fn a_round_is_cut_where_nobody_goes_on(rt: HostRuntime) -> Result<()> {
    let alloc = rt.alloc();
    let said = said_beside_a_stranger(
        alloc,
        whole_store(alloc),
        "begin / insert 5 a / commit | begin / insert 6 b / commit | checkpoint",
    );
    check_said(
        &rt,
        said,
        "1 begin 2 / 1 aborted / 2 begin 3 / 2 insert ok / 2 commit ok / 3 checkpoint 1",
    )
}

// What is said behind a restart with a smaller limit, over a log to which a transaction with so many gets of a missing key
// was added.
fn said_over_a_long_log<V: Store + Drop>(
    alloc: Global,
    store: V,
    gets: u64,
    limit: u64,
    texts: &str,
) -> Result<String> {
    if limit > 268_435_456 {
        anyhow::bail!("no limit");
    }
    let mut before = String::new(alloc);
    before.push_str("begin")?;
    for _ in 0..gets {
        before.push_str(" / get 5")?;
    }
    before.push_str(" / commit")?;
    let core = core_of(alloc, store, (1, 1), 10_000_000)?;
    let (core, _said) = play(alloc, core, &before)?;
    match restart(alloc, core.into_store(), limit) {
        Ok((core, _report)) => {
            let (_core, said) = play(alloc, core, texts)?;
            Ok(said)
        }
        Err(_) => anyhow::bail!("no restart"),
    }
}

// 10 bytes, a begin of 9, 68 for each get, a commit of 9, whose end isn't flushed, and the restart with 9; the begin of an audit
// may go 1,048,576 bytes past the limit.
#[test]
fn an_audit_is_refused_a_megabyte_past_the_limit(rt: HostRuntime) -> Result<()> {
    let alloc = rt.alloc();
    let said = said_over_a_long_log(
        alloc,
        whole_store(alloc),
        15_500,
        1_000,
        "begin / get 5 / commit / audit / checkpoint",
    );
    check_said(
        &rt,
        said,
        "1 begin log full 1054037 1000 / 1 audit log full 1054037 1049576 / 1 checkpoint log full 1054037 1049576",
    )
}

// The last of these points, which are the numbers from 1 on; none where they aren't.
fn last_of(points: &[u32]) -> Option<u32> {
    let mut last: u32 = 0;
    for point in points {
        if *point != last.saturating_add(1) {
            return None;
        }
        last = *point;
    }
    Some(last)
}

// The last point that a gate is told of for a client alone.
fn last_in<V: Store + Drop>(
    alloc: Global,
    store: V,
    limit: u64,
    text: &str,
) -> Result<Option<u32>> {
    let core = core_of(alloc, store, (1, 1), limit)?;
    let gate = Recorder::new(alloc);
    let (_core, _transcripts) = done(alloc, core, text, &gate)?;
    let points = gate.points_of(1)?;
    Ok(last_of(&points))
}

#[test]
fn the_gate_is_told_of_each_operation(rt: HostRuntime) -> Result<()> {
    let alloc = rt.alloc();
    for (limit, text, passed) in [
        // three of the insert, and two of the get
        (1_000_000, "begin / insert 5 a / get 5 / commit", 5),
        // the one in which the client dies is told of
        (1_000_000, "begin / die 2 / insert 5 a / get 5 / commit", 2),
        // what an abort takes back isn't
        (1_000_000, "begin / insert 5 a / abort", 3),
        // the log has no room for the insert's third one, and a fourth one takes back the second one
        (200, "begin / insert 1 a / commit", 4),
    ] {
        let last = last_in(alloc, whole_store(alloc), limit, text)?;
        assert_eq!(rt; last, Some(passed), "{text}");
    }
    Ok(())
}

// What the clients of two blocks say that stand in this order, and the last point that a gate is told of for one of them.
fn said_beside<V: Store + Drop>(
    alloc: Global,
    store: V,
    first: Block,
    second: Block,
    client: u32,
) -> Result<(String, Option<u32>)> {
    let core = core_of(alloc, store, (1, 1), 1_000_000)?;
    if !may_be_beside(&first, &second) {
        anyhow::bail!("no blocks");
    }
    let gate = Recorder::new(alloc);
    let number = core.system.records();
    let (mut core, transcripts, end) = round(alloc, core, &[first, second], false, &gate);
    if end != RoundEnd::Done {
        anyhow::bail!("the round ended early");
    }
    if !is_left_clean(alloc, &mut core, number, &transcripts)? {
        anyhow::bail!("not left clean");
    }
    let points = gate.points_of(client)?;
    Ok((text_of(alloc, &transcripts)?, last_of(&points)))
}

// So where the block with the greater number stands first.
fn said_in_any_order(alloc: Global, client: u32) -> Result<(String, Option<u32>)> {
    // three operations of the insert, and two of the get
    let first = block(alloc, 9, "begin / insert 5 a / get 5 / commit")?;
    let second = block(alloc, 4, "begin / insert 6 b / commit")?;
    said_beside(alloc, whole_store(alloc), first, second, client)
}

// Each client goes through its own block, and the gate counts each one's operations by themselves.
#[test]
fn blocks_stand_in_any_order(rt: HostRuntime) -> Result<()> {
    for (client, operations) in [(9, 5), (4, 3), (1, 0)] {
        let (said, last) = said_in_any_order(rt.alloc(), client)?;
        assert_eq!(rt;
            (
                last,
                said.starts_with("4 begin "),
                said.contains(" / 4 insert ok / 4 commit ok / 9 begin "),
                said.ends_with(" / 9 insert ok / 9 got a / 9 commit ok")
            ),
            (Some(operations), true, true, true),
            "{client} {said}"
        );
    }
    Ok(())
}
