//! A restart: what a log says of its records is recovered, written, and handed out as a core.
ghost use Rattle.std.specs.Prelude.{◌≡◌, ◌≤◌, ◌<◌, ◌^◌, ◌⊎◌, ◌↔◌, ℕ, IfOk, IfErr, IfSome, IsErrOf, MatchResult, None};
ghost use Rattle.std.specs.List.{AllByRecursion};
ghost use Rattle.dali_record.specs.Blocks.{AreWords, AllAreWords};
ghost use Rattle.dali_store.specs.declared.store.FileName.{FileName as Name};
ghost use Rattle.dali_store.specs.Faults.{Rose};
ghost use Rattle.dali_store.specs.Store.{Files};
ghost use Rattle.dali_log.specs.Batch.{IsUnformatted};
ghost use Rattle.dali_log.specs.Reads.{OnlyReads, ReadsOrFails};
ghost use Rattle.dali_core.specs.Cores.{IsWholeCore};
ghost use Rattle.dali_recovery.specs.Standing.{IsOrdered};
ghost use Rattle.dali_resume.specs.Again.{Outcome};
ghost use Rattle.dali_restart.specs.Renewal.Logged.{restart_length};
ghost use Rattle.dali_restart.specs.Renewal.Renewed.{AreReady};
ghost use Rattle.dali_restart.specs.declared.error.RestartError.TheVariants as errors;
ghost use Rattle.dali_restart.specs.declared.restarting.Due.TheVariants as dues;
ghost use Rattle.dali_restart.specs.Opening.{IsBadStore};
ghost use Rattle.dali_restart.specs.Restarting.{outcome, Gives, IsReadAs, IsBadAnywhere, IsFresh, IsLeft, BeginsRun, LeavesAtRest, StaysIdle, StopsAlike, StopsAppending};
ghost use Rattle.dali_restart.specs.Short.{DoesNotFit};
ghost use Rattle.dali_restart.specs.Deciding.{IsInRoom, IsBegunIn, IsReadIn, IsInOrder, FindsNext, IfRead, IfLost, at_end, due_of, resting_of, record_of, image_of, LogsRecord, WritesImage, IsSmallRest, IsWritten, WritesOrFails, Settles};

use crate::error::{Refused, RestartError};
use crate::opening::{Opened, open};
use crate::renewal::{Standing, renew};
use crate::rise::{Resting, rise};
use dali_core::Core;
use dali_geometry::Geometry;
use dali_image::Header;
use dali_log::LogReader;
use dali_recovery::reload::{Pass, Reloaded, read_scanned};
use dali_recovery::{Damage, Recovered, Recovery};
use dali_store::Store;
use std::alloc::Global;

/// What a restart did to the transactions that its log's last epoch leaves, or what the last restart did, where no record stands
/// behind its own.
#[derive(Drop)]
pub struct Report {
    /// Those that had neither committed nor ended, ascending.
    pub rolled_back: Vec<u64>,
    /// Those that had committed and read corrupt data, ascending.
    pub deleted: Vec<u64>,
}

// The image that a restart begins with.
#[derive(Clone, Copy)]
pub(crate) struct Base {
    geometry: Geometry,
    // the number of the image, and its header
    current: u64,
    header: Header,
}

// What a pass over the log begins with.
#[derive(Drop)]
pub(crate) struct Begun {
    base: Base,
    reader: LogReader,
    recovery: Recovery,
}

// What the log behind the image comes to.
#[derive(Drop)]
pub(crate) struct Found {
    base: Base,
    reloaded: Reloaded,
}

// What is to be written.
#[derive(Clone, Copy)]
pub(crate) enum Due {
    // nothing: no record stands from the image's place on, or that of a restart alone
    Nothing,
    // the restart's record at the log's end, and the image
    Record,
    // the image alone, at this place: before the restart's record that ends the log
    Image { standing: Standing },
}

// Words fit their type.
fn tell_each(words: &[u64])
    ensures { AllByRecursion (λ w. w < 2 ^ 64) words.now }
{}

// Those of a region.
fn tell_words(words: &[u64; 64])
    ensures { AreWords words.now }
{
    tell_each(words);
}

// Those of all regions.
fn tell_all(regions: &[[u64; 64]])
    ensures { AllAreWords regions.now }
{
    for words in regions {
        tell_words(words);
    }
}

// The current image, a reader at its place, and a recovery behind it. All files are synced first.
fn begin<V: Store>(alloc: Global, store: &mut V) -> Result<Begun, RestartError>
    ensures ok { IfOk result (λ begun. IfSome (V.told store.old) (λ fs. IsBegunIn fs (V.may_leave store.new) begun.base begun.reader begun.recovery)) }
    ensures in_order { IfOk result (λ begun. IsInRoom begun.base × IsOrdered begun.base.geometry begun.recovery) }
    ensures bad { IfErr result (λ e. (file : Name) (at : ℕ) → e ≡ errors.BadStore file at → IfSome (V.told store.old) (λ fs. IsBadStore fs file at)) }
    ensures unformatted { IsErrOf result errors.Unformatted → IfSome (V.told store.old) (λ fs. IsUnformatted fs.log) }
    ensures formatted { IsErrOf result errors.Formatted → ⊥ }
    ensures long { IsErrOf result errors.TooLong → ⊥ }
    ensures steady { IsErrOf result errors.Unsteady → ⊥ }
    ensures store { ReadsOrFails V.Store (IsErrOf result errors.Fault) store.old store.new }
{
    let opened = match open(alloc, store) {
        Ok(opened) => opened,
        Err(error) => return Err(error),
    };
    let Opened {
        geometry,
        current,
        header,
        regions,
        table,
        reader,
    } = opened;
    tell_all(&regions);
    let first = header.first;
    let next = header.next;
    let base = Base {
        geometry,
        current,
        header,
    };
    let recovery = Recovery::new(alloc, geometry, first, regions, table, next);
    Ok(Begun {
        base,
        reader,
        recovery,
    })
}

// What a pass comes to.
#[derive(Drop)]
pub(crate) enum Step {
    // the log was read to its end
    Whole(Found),
    // the damage of an epoch wasn't known
    Damaged(Damage),
}

// Reads image and log, where the damage of some epochs is known.
fn pass<V: Store>(alloc: Global, store: &mut V, known: &[Damage]) -> Result<Step, RestartError>
    ensures ok { IfOk result (λ step. IfRead step (λ found. IfSome (V.told store.old) (λ fs. IsReadIn fs (V.may_leave store.new) found))) }
    ensures damaged { IfOk result (λ step. IfLost step (λ damage. IfSome (V.told store.old) (λ fs. FindsNext fs known.now damage))) }
    ensures in_order { IfOk result (λ step. IfRead step IsInOrder) }
    ensures bad { IfErr result (λ e. (file : Name) (at : ℕ) → e ≡ errors.BadStore file at → IfSome (V.told store.old) (λ fs. IsBadAnywhere fs file at)) }
    ensures unformatted { IsErrOf result errors.Unformatted → IfSome (V.told store.old) (λ fs. IsUnformatted fs.log) }
    ensures formatted { IsErrOf result errors.Formatted → ⊥ }
    ensures long { IsErrOf result errors.TooLong → ⊥ }
    ensures steady { IsErrOf result errors.Unsteady → ⊥ }
    ensures store { ReadsOrFails V.Store (IsErrOf result errors.Fault) store.old store.new }
{
    let begun = match begin(alloc, store) {
        Ok(begun) => begun,
        Err(error) => return Err(error),
    };
    let Begun {
        base,
        mut reader,
        recovery,
    } = begun;
    match read_scanned(store, &mut reader, recovery, known) {
        Ok(Pass::Whole(reloaded)) => Ok(Step::Whole(Found { base, reloaded })),
        Ok(Pass::Damaged(damage)) => Ok(Step::Damaged(damage)),
        Err(error) => Err(error.into()),
    }
}

// Reads image and log, once more for each epoch with a failed audit behind the image. A store that reads otherwise the next time,
// so that a pass gets no further, is unsteady: none that tells its contents does so.
fn read<V: Store>(alloc: Global, store: &mut V) -> Result<Found, RestartError>
    ensures ok { IfOk result (λ found. IfSome (V.told store.old) (λ fs. IsReadIn fs (V.may_leave store.new) found)) }
    ensures in_order { IfOk result (λ found. IsInOrder found) }
    ensures bad { IfErr result (λ e. (file : Name) (at : ℕ) → e ≡ errors.BadStore file at → IfSome (V.told store.old) (λ fs. IsBadAnywhere fs file at)) }
    ensures unformatted { IsErrOf result errors.Unformatted → IfSome (V.told store.old) (λ fs. IsUnformatted fs.log) }
    ensures formatted { IsErrOf result errors.Formatted → ⊥ }
    ensures long { IsErrOf result errors.TooLong → ⊥ }
    ensures steady { IsErrOf result errors.Unsteady → V.told store.old ≡ None }
    ensures store { ReadsOrFails V.Store (IsErrOf result errors.Fault) store.old store.new }
{
    let mut known: Vec<Damage> = Vec::new(alloc);
    let mut last = 0;
    'passes: loop {
        match pass(alloc, store, &known) {
            Ok(Step::Whole(found)) => return Ok(found),
            Ok(Step::Damaged(damage)) => {
                let first = damage.first;
                if first <= last {
                    return Err(RestartError::Unsteady);
                }
                last = first;
                match known.push(damage) {
                    Ok(()) => {}
                    Err(_) => return Err(RestartError::OutOfMemory),
                }
            }
            Err(error) => return Err(error),
        }
    }
}

// Where the log ends that was read, as a restart stands there.
fn end_of(found: &Found) -> Standing
    requires in_order { IsInOrder found.now }
    ensures { result ≡ at_end found.now }
{
    let Base {
        geometry,
        current,
        header,
    } = found.base;
    Standing {
        geometry,
        current,
        place: found.reloaded.end,
        first: header.first + found.reloaded.counts.records,
        weight: header.weight + found.reloaded.counts.bytes,
        next: found.reloaded.recovered.next,
    }
}

// What is to be written behind it.
fn decide(found: &Found) -> Due
    requires in_order { IsInOrder found.now }
    ensures { result ≡ due_of found.now }
{
    let whole = end_of(found);
    let counts = found.reloaded.counts;
    match counts.restarted {
        None if counts.records == 0 => Due::Nothing,
        None => Due::Record,
        Some(_) if counts.records <= 1 => Due::Nothing,
        Some(before) => Due::Image {
            standing: Standing {
                place: before.place,
                first: whole.first - 1,
                weight: found.base.header.weight + before.bytes,
                ..whole
            },
        },
    }
}

// Where a core begins over a log that ends so.
fn rest_at(end: &Standing) -> Resting
    ensures { result ≡ resting_of end.now }
{
    Resting {
        geometry: end.geometry,
        records: end.first,
        weight: end.weight,
        next: end.next,
        end: end.place,
        current: end.current,
    }
}

// Logs the restart, and makes what it came to the current image.
fn log_record<V: Store>(
    alloc: Global,
    store: &mut V,
    found: &Found,
) -> Result<Resting, RestartError>
    requires in_order { IsInOrder found.now }
    requires read { IfSome (V.told store.old) (λ fs. IsReadIn fs (V.may_leave store.old) found.now) }
    ensures ok { IfOk result (λ rest. LogsRecord found.now rest) }
    ensures small { IfOk result (λ rest. IsSmallRest found.now rest) }
    ensures ready { IfOk result (λ rest. IfSome (V.told store.old) (λ _. AreReady (V.may_leave store.new) rest.end rest.current)) }
    ensures written { IsWritten V.Store (record_of found.now) store.old store.new result }
    ensures errors { IfErr result (λ e. (e ≡ errors.Fault) ⊎ (e ≡ errors.OutOfMemory) ⊎ (e ≡ errors.TooLong)) }
    ensures long { IsErrOf result errors.TooLong ↔ (2 ^ 30 < restart_length found.now.reloaded.recovered.rolled_back.items found.now.reloaded.recovered.deleted.items) }
    ensures store { WritesOrFails V.Store (IsErrOf result errors.Fault) store.old store.new result }
{
    let whole = end_of(found);
    let Recovered {
        regions,
        rolled_back,
        deleted,
        ..
    } = &found.reloaded.recovered;
    match renew(alloc, store, &whole, None, rolled_back, deleted, regions) {
        Ok(end) => Ok(Resting {
            records: whole.first + 1,
            weight: whole.weight + (end - whole.place - 5),
            end,
            current: whole.current + 1,
            ..rest_at(&whole)
        }),
        Err(error) => Err(error.into()),
    }
}

// Makes what the restart came to the current image, which stands before the record that ends the log.
fn write_image<V: Store>(
    alloc: Global,
    store: &mut V,
    found: &Found,
    standing: &Standing,
) -> Result<Resting, RestartError>
    requires in_order { IsInOrder found.now }
    requires due { due_of found.now ≡ dues.Image standing.now }
    requires read { IfSome (V.told store.old) (λ fs. IsReadIn fs (V.may_leave store.old) found.now) }
    ensures ok { IfOk result (λ rest. WritesImage found.now rest) }
    ensures small { IfOk result (λ rest. IsSmallRest found.now rest) }
    ensures ready { IfOk result (λ rest. IfSome (V.told store.old) (λ _. AreReady (V.may_leave store.new) rest.end rest.current)) }
    ensures written { IsWritten V.Store (image_of standing.now found.now) store.old store.new result }
    ensures errors { IfErr result (λ e. (e ≡ errors.Fault) ⊎ (e ≡ errors.OutOfMemory)) }
    ensures store { WritesOrFails V.Store (IsErrOf result errors.Fault) store.old store.new result }
{
    let whole = end_of(found);
    let regions = &found.reloaded.recovered.regions;
    match renew(alloc, store, standing, Some(whole.place), &[], &[], regions) {
        Ok(end) => Ok(Resting {
            end,
            current: whole.current + 1,
            ..rest_at(&whole)
        }),
        Err(error) => Err(error.into()),
    }
}

// Writes what is due, and answers where a core begins behind it.
fn settle<V: Store>(alloc: Global, store: &mut V, found: &Found) -> Result<Resting, RestartError>
    requires in_order { IsInOrder found.now }
    requires read { IfSome (V.told store.old) (λ fs. IsReadIn fs (V.may_leave store.old) found.now) }
    ensures ready { IfOk result (λ rest. IfSome (V.told store.old) (λ _. AreReady (V.may_leave store.new) rest.end rest.current)) }
    ensures small { IfOk result (λ rest. IsSmallRest found.now rest) }
    ensures idle { due_of found.now ≡ dues.Nothing → store.new ≡ store.old }
    ensures settles { IfOk result (λ rest. IfSome (V.told store.old) (λ fs. Settles fs found.now rest (V.may_leave store.new))) }
    ensures any_moment { IfSome (V.told store.old) (λ fs. StopsAlike V.may_leave V.moment V.left_since fs store.old store.new) }
    ensures errors { IfErr result (λ e. (e ≡ errors.Fault) ⊎ (e ≡ errors.OutOfMemory) ⊎ (e ≡ errors.TooLong)) }
    ensures appends { IfSome (V.told store.old) (λ fs. StopsAppending V.may_leave V.moment V.left_since fs store.old store.new) }
    ensures long { IsErrOf result errors.TooLong ↔ ((due_of found.now ≡ dues.Record)
        × (2 ^ 30 < restart_length found.now.reloaded.recovered.rolled_back.items found.now.reloaded.recovered.deleted.items)) }
    ensures store { WritesOrFails V.Store (IsErrOf result errors.Fault) store.old store.new result }
{
    tell_all(&found.reloaded.recovered.regions);
    match decide(found) {
        Due::Nothing => Ok(rest_at(&end_of(found))),
        Due::Record => log_record(alloc, store, found),
        Due::Image { standing } => write_image(alloc, store, found, &standing),
    }
}

/// Restarts a database from its store, whatever a crash left of it: the core over the regions that its log comes to, and who was
/// rolled back and who deleted. From the current checkpoint's image on each record is tested and made again. Where an audit of an
/// epoch failed, image and log are read once more, and the blocks that a chain of logged reads or undone changes links to a region
/// that failed are left out. Who had not committed is rolled back, who committed such blocks is deleted (the idea is that of
/// Bohannon et al., TKDE 2003). Where the last epoch has a record the restart logs its own; what it came to becomes the current
/// image, unless no record stands behind that one, or a restart's alone. The limit is that of the records' bytes, at most
/// 268,435,456.
///
/// Of files that a crash of a run left in which no audit missed a stray write, or another restart at any of its calls, it hands
/// out what their log says. Where that is a history the records are exactly those of the surviving transactions, replayed one
/// after another in commit order. It names exactly the rolled back and the deleted of the last epoch that has a record (`gives`).
/// A stop at any moment of it leaves files of which a restart hands out the same, or what a crash might have left before it. The
/// store that comes back, with an error or in the core, reads as files of which a restart hands out the same (`any_moment`). Of
/// files that are such but for the words of their image, as where an audit missed a stray write, the log is only added to: it
/// stays, or has the record of the restart behind it, at each moment and whatever is answered (`appends`).
///
/// `Unformatted` exactly where the log has fewer than two bytes or its first gate is closed; such files are only read, whatever is
/// answered (`none`). `BadStore` exactly where the files are bad: in the log's first batch, else in the anchor, else in the
/// current image, else in the log from the image's place on. `Fault` exactly where the store's count of faults rose. `TooLong`
/// only where the restart's record would have more than the 2^30 bytes of a batch; then the store was only read. Where it would
/// there is no core (`fits`), and once the files are read there is no other answer. `Unsteady` where
/// a store gave other bytes when it was read again, which none does that tells its contents. `OutOfMemory` where memory is
/// refused. It takes memory for the regions, once more for their words and twice while the image is read, and for what the last
/// epoch's transactions and marked words need; not for the log.
pub fn restart<V: Store>(
    alloc: Global,
    store: V,
    limit: u64,
) -> Result<(Core<V>, Report), Refused<V>>
    requires limit { limit ≤ 268435456 }
    // Of lawful files what their log says; of a history the records of the survivors.
    ensures gives { IfOk result (λ made.
        IfSome (V.told store) (λ fs. Gives fs (outcome made.0.regions.items made.1))) }
    // Of any files, what stands in them.
    ensures read { IfOk result (λ made.
        IfSome (V.told store) (λ fs. IsReadAs fs (outcome made.0.regions.items made.1))) }
    ensures fresh { IfOk result (λ made. IsFresh limit made.0.regions.items made.0.system made.0.vault) }
    ensures whole { IfOk result (λ made. IsWholeCore V.told made.0.regions.items made.0.system.state made.0.vault) }
    // The first steps of a run may follow.
    ensures begins { IfOk result (λ made. IfSome (V.told store) (λ fs.
        BeginsRun V.Store limit fs made.0.regions.items made.0.system.state made.0.vault)) }
    ensures rests { IfOk result (λ made. IfSome (V.told store) (λ fs. (c : Files) →
        V.may_leave made.0.vault.store c → LeavesAtRest fs c)) }
    // Files at rest stay as they are.
    ensures idle { IfOk result (λ made. IfSome (V.told store) (λ fs.
        StaysIdle V.told V.may_leave V.moment V.left_since fs store made.0.vault.store)) }
    ensures bad { IfErr result (λ refused. (file : Name) (at : ℕ) → refused.error ≡ errors.BadStore file at →
        IfSome (V.told store) (λ fs. IsBadAnywhere fs file at)) }
    ensures unformatted { IfErr result (λ refused. refused.error ≡ errors.Unformatted →
        IfSome (V.told store) (λ fs. IsUnformatted fs.log)) }
    ensures formatted { IfErr result (λ refused. refused.error ≡ errors.Formatted → ⊥) }
    ensures long { IfErr result (λ refused. refused.error ≡ errors.TooLong →
        IfSome (V.told store) (λ fs. (o : Outcome) × IsReadAs fs o × (2 ^ 30 < restart_length o.rolled o.deleted))) }
    // Where that record doesn't fit a batch no core is handed out.
    ensures fits { IfOk result (λ made. IfSome (V.told store) (λ fs. (o : Outcome) → DoesNotFit fs o → ⊥)) }
    ensures steady { IfErr result (λ refused. refused.error ≡ errors.Unsteady → V.told store ≡ None) }
    ensures reads { IfErr result (λ refused. (refused.error ≡ errors.Fault → ⊥) →
        (refused.error ≡ errors.OutOfMemory → ⊥) → OnlyReads V.told V.moment V.left_since V.may_leave store refused.store) }
    // Files without a database are only read, whatever is answered, and no core is handed out.
    ensures none { MatchResult result
        (λ made. IfSome (V.told store) (λ fs. IsUnformatted fs.log → ⊥))
        (λ refused. IfSome (V.told store) (λ fs. IsUnformatted fs.log →
        OnlyReads V.told V.moment V.left_since V.may_leave store refused.store)) }
    ensures fault { IfErr result (λ refused. refused.error ≡ errors.Fault →
        Rose (V.faults store) (V.faults refused.store)) }
    ensures kept { MatchResult result (λ made. V.faults made.0.vault.store ≡ V.faults store)
        (λ refused. (refused.error ≡ errors.Fault → ⊥) → V.faults refused.store ≡ V.faults store) }
    ensures any_moment { MatchResult result
        (λ made. IsLeft V.Store store made.0.vault.store)
        (λ refused. IsLeft V.Store store refused.store) }
{
    let mut store = store;
    let found = match read(alloc, &mut store) {
        Ok(found) => found,
        Err(error) => return Err(Refused { store, error }),
    };
    let resting = match settle(alloc, &mut store, &found) {
        Ok(resting) => resting,
        Err(error) => return Err(Refused { store, error }),
    };
    let Recovered {
        regions,
        rolled_back,
        deleted,
        ..
    } = found.reloaded.recovered;
    match rise(alloc, store, &resting, &regions, limit) {
        Ok(core) => Ok((
            core,
            Report {
                rolled_back,
                deleted,
            },
        )),
        Err(refused) => Err(Refused {
            store: refused.store,
            error: RestartError::OutOfMemory,
        }),
    }
}
