//! Where a log in segments ends.
ghost use Rattle.std.specs.Prelude.{◌≡◌, ◌≤◌, ◌<◌, ℕ, ◌+◌, ◌-◌, false, length, IfOk, IfErr, OnOk, IfSome};
ghost use Rattle.dali_store.specs.Faults.{HasCause, Rose};
ghost use Rattle.dali_files.specs.Files.{Contents};
ghost use Rattle.dali_files.specs.declared.key.FileKey.TheVariants.{Segment};
ghost use Rattle.dali_segments.specs.Quiet.{IsQuiet};
ghost use Rattle.std.specs.Option.{ForSome};
ghost use Rattle.dali_store.specs.Store.{Files as StoreFiles};
ghost use Rattle.dali_segments.specs.Less.{LeavesLess};
ghost use Rattle.dali_segments.specs.Segments.{mark, told_of, LeavesWhere, IsSound};
ghost use Rattle.dali_segments.specs.Extents.{piece_from, IsLast, Measures, StopsIn, IsFixed, key_at};

use crate::calls::{LIMIT, MARK, clear};
use dali_files::{FileKey, Files};
use dali_store::StoreFault;
use thiserror::Error;

/// Why segments can't be opened as one log.
#[derive(Clone, Copy, Debug, PartialEq, Eq, Error)]
pub enum SegmentError {
    /// A call on the files failed: their count of faults rose.
    #[error("store fault")]
    Fault,
    /// The first segment is longer than a segment: the log is kept in one piece.
    #[error("the log is kept in one piece")]
    Whole,
    /// Another segment is longer than a segment.
    #[error("a segment is too long")]
    Long,
    /// More segments are dropped than the log has.
    #[error("more segments are dropped than the log has")]
    Mark,
}

/// Where a log in segments ends, and how many of its segments, from 1 on, are dropped.
#[derive(Clone, Copy)]
pub struct Extent {
    /// The segment in which it ends.
    pub last: u32,
    /// So many are dropped.
    pub dropped: u32,
}

// What was measured of a log, and how long its last segment is.
#[derive(Clone, Copy)]
struct Measure {
    last: u32,
    dropped: u32,
    behind: u64,
}

// The length of a segment as the log counts it: a dropped one is full.
fn length_of<F: Files>(
    files: &mut F,
    size: u64,
    dropped: u32,
    number: u32,
) -> Result<u64, StoreFault>
    requires { number < 4095 }
    ensures quiet { IsQuiet (F.told files.old) (F.told files.new) (F.may_leave files.old) (F.may_leave files.new) (F.is_going files.old) (F.is_going files.new) (F.moment files.old) (F.moment files.new) (F.left_since files.old) (F.left_since files.new) }
    ensures length { IfOk result (λ n. IfSome (F.told files.old) (λ fs. n ≡ length (piece_from size dropped fs number))) }
    ensures cause { HasCause (F.faults files.old) (F.faults files.new) result }
{
    if number > 0 && number <= dropped {
        return Ok(size);
    }
    files.length(FileKey::Segment { number })
}

// The first segment that isn't full, or the last one of all.
fn last_of<F: Files>(files: &mut F, size: u64, dropped: u32) -> Result<u32, StoreFault>
    ensures quiet { IsQuiet (F.told files.old) (F.told files.new) (F.may_leave files.old) (F.may_leave files.new) (F.is_going files.old) (F.is_going files.new) (F.moment files.old) (F.moment files.new) (F.left_since files.old) (F.left_since files.new) }
    ensures few { IfOk result (λ n. n < 4095) }
    ensures last { IfOk result (λ n. IfSome (F.told files.old) (λ fs. IsLast size dropped n fs)) }
    ensures cause { HasCause (F.faults files.old) (F.faults files.new) result }
{
    for number in 0..LIMIT {
        let length = length_of(files, size, dropped, number)?;
        if length != size {
            return Ok(number);
        }
    }
    Ok(LIMIT - 1)
}

fn measure_log<F: Files>(files: &mut F, size: u64) -> Result<Measure, StoreFault>
    ensures quiet { IsQuiet (F.told files.old) (F.told files.new) (F.may_leave files.old) (F.may_leave files.new) (F.is_going files.old) (F.is_going files.new) (F.moment files.old) (F.moment files.new) (F.left_since files.old) (F.left_since files.new) }
    ensures few { IfOk result (λ m. m.last < 4095) }
    ensures measured { IfOk result (λ m. IfSome (F.told files.old) (λ fs. Measures size m.dropped m.last m.behind fs)) }
    ensures cause { HasCause (F.faults files.old) (F.faults files.new) result }
{
    let marked = files.length(MARK)?;
    let most = marked.min(LIMIT as u64);
    let dropped = most as u32;
    let last = last_of(files, size, dropped)?;
    let behind = length_of(files, size, dropped, last)?;
    Ok(Measure {
        last,
        dropped,
        behind,
    })
}

/// Where the log ends: in the first segment that isn't full, dropped ones counted as full.
#[tactic(auto, using(crate::proofs::Extents::told_stops, crate::proofs::Extents::told_whole))]
pub fn extent_of<F: Files>(files: &mut F, size: u64) -> Result<Extent, SegmentError>
    ensures quiet { IsQuiet (F.told files.old) (F.told files.new) (F.may_leave files.old) (F.may_leave files.new) (F.is_going files.old) (F.is_going files.new) (F.moment files.old) (F.moment files.new) (F.left_since files.old) (F.left_since files.new) }
    ensures few { IfOk result (λ e. (e.last < 4095) × (e.dropped ≤ e.last - 1)) }
    ensures stops { IfOk result (λ e. IfSome (F.told files.old) (λ fs. StopsIn size e.last e.dropped fs)) }
    ensures whole { IfErr result (λ e. e ≡ SegmentError.Whole → IfSome (F.told files.old) (λ fs. size < length (fs (Segment 0)))) }
    ensures fault { IfErr result (λ e. e ≡ SegmentError.Fault → Rose (F.faults files.old) (F.faults files.new)) }
    ensures later { F.faults files.old ≤ F.faults files.new }
    ensures kept { OnOk result (F.faults files.new ≡ F.faults files.old) }
{
    let measure = match measure_log(files, size) {
        Ok(measure) => measure,
        Err(_) => return Err(SegmentError::Fault),
    };
    if measure.behind > size && measure.last == 0 {
        return Err(SegmentError::Whole);
    }
    if measure.behind > size {
        return Err(SegmentError::Long);
    }
    if measure.dropped > measure.last.saturating_sub(1) {
        return Err(SegmentError::Mark);
    }
    Ok(Extent {
        last: measure.last,
        dropped: measure.dropped,
    })
}

// The images, and then the segments of the log.
#[tactic(auto, using(crate::proofs::Fixings::key_far))]
fn file_at(number: u32) -> FileKey
    ensures { result ≡ key_at number }
{
    match number {
        0 => FileKey::ImageA,
        1 => FileKey::ImageB,
        2 => FileKey::Anchor,
        _ => FileKey::Segment { number: number - 3 },
    }
}

/// Keeps all that stands in the images, the mark, and the segments up to this one.
pub fn sync_all<F: Files>(files: &mut F, last: u32) -> Result<(), StoreFault>
    requires { last < 4095 }
    ensures quiet { IsQuiet (F.told files.old) (F.told files.new) (F.may_leave files.old) (F.may_leave files.new) (F.is_going files.old) (F.is_going files.new) (F.moment files.old) (F.moment files.new) (F.left_since files.old) (F.left_since files.new) }
    ensures fixed { OnOk result (IfSome (F.told files.old) (λ fs. IsFixed last (F.may_leave files.new) (F.is_going files.new) fs)) }
    ensures cause { HasCause (F.faults files.old) (F.faults files.new) result }
{
    for number in 0..last + 4 {
        let file = file_at(number);
        files.sync(file)?;
    }
    sync_mark(files)?;
    Ok(())
}

// Keeps the mark.
fn sync_mark<F: Files>(files: &mut F) -> Result<(), StoreFault>
    ensures quiet { IsQuiet (F.told files.old) (F.told files.new) (F.may_leave files.old) (F.may_leave files.new) (F.is_going files.old) (F.is_going files.new) (F.moment files.old) (F.moment files.new) (F.left_since files.old) (F.left_since files.new) }
    ensures durable { OnOk result (IfSome (F.told files.old) (λ fs. (c : Contents) → F.may_leave files.new c → c mark ≡ fs mark)) }
    ensures gone { OnOk result (F.is_going files.new mark → ⊥) }
    ensures cause { HasCause (F.faults files.old) (F.faults files.new) result }
{
    files.sync(MARK)
}

/// Finds where the log ends, keeps all that stands in the files, and removes what stands behind the end.
pub fn prepare<F: Files>(files: &mut F, size: u64) -> Result<Extent, SegmentError>
    requires { 64 ≤ size }
    ensures told { told_of size (F.told files.new) ≡ told_of size (F.told files.old) }
    ensures less { LeavesLess (told_of size (F.told files.old)) (told_of size (F.told files.new)) (LeavesWhere size (F.told files.old) (F.may_leave files.old)) (LeavesWhere size (F.told files.new) (F.may_leave files.new)) (F.moment files.old) (F.moment files.new) (λ t. LeavesWhere size (F.told files.old) (F.left_since files.old t)) (λ t. LeavesWhere size (F.told files.new) (F.left_since files.new t)) }
    ensures only { OnOk result (IfSome (told_of size (F.told files.new)) (λ log. (c : StoreFiles) → LeavesWhere size (F.told files.new) (F.may_leave files.new) c → c ≡ log)) }
    ensures few { IfOk result (λ e. (e.last < 4095) × (e.dropped ≤ e.last - 1)) }
    ensures sound { IfOk result (λ e. ForSome (F.told files.new) (λ fs. IsSound false size e.last e.dropped (e.last + 1) (F.may_leave files.new) (F.is_going files.new) fs)) }
    ensures whole { IfErr result (λ e. e ≡ SegmentError.Whole → IfSome (F.told files.old) (λ fs. size < length (fs (Segment 0)))) }
    ensures fault { IfErr result (λ e. e ≡ SegmentError.Fault → Rose (F.faults files.old) (F.faults files.new)) }
{
    let extent = extent_of(files, size)?;
    match sync_all(files, extent.last) {
        Ok(()) => {}
        Err(_) => return Err(SegmentError::Fault),
    }
    match clear(files, extent.last + 1, LIMIT) {
        Ok(()) => Ok(extent),
        Err(_) => Err(SegmentError::Fault),
    }
}
