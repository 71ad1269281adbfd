//! The segments of a log as one file.
ghost use Rattle.std.specs.Prelude.{◌≡◌, ◌≤◌, ◌<◌, ℕ, ◌+◌, ◌-◌, ◌*◌, ◌^◌, max, min, true, false, length, IfOk, IfErr, OnOk, IfSome, IsErr};
ghost use Rattle.dali_store.specs.Faults.{HasCause, Rose, one_more};
ghost use Rattle.dali_store.specs.Drops.{IsSynced};
ghost use Rattle.dali_segments.specs.LogDrops.{DropsLog};
ghost use Rattle.dali_store.specs.Store.{Files as StoreFiles, HoldsIn, TornIn, TornTold, ReadsAt, Follows, Elapses, file_of};
ghost use Rattle.dali_store.specs.declared.store.FileName.TheVariants.{Log};
ghost use Rattle.dali_segments.specs.Images.{key_for};
ghost use Rattle.dali_files.specs.Files.{Contents};
ghost use Rattle.dali_segments.specs.Segments.{is_dropped, piece, told_of, LeavesWhere, IsSound, FullBelow, droppable_of, dropped_to_of};
ghost use Rattle.dali_files.specs.declared.key.FileKey.TheVariants.{Segment};
ghost use Rattle.dali_segments.specs.Less.{LeavesLess};
ghost use Rattle.dali_segments.specs.Writes.{Writes, CanWrite};
ghost use Rattle.std.specs.Option.{ForSome};

use crate::calls::{LIMIT, clear, drop_segments, part_of, sync_segments};
use crate::extent::{SegmentError, extent_of, prepare};
use crate::reading::read_log;
use dali_files::{FileKey, Files};
use dali_store::{FileName, Store, StoreFault};

/// A store over files whose log is kept in segments of `size` bytes: the byte of the log at place p is the byte
/// `p % size` of segment `p / size`.
///
/// The log goes up to the end of the first segment, from 0 on, that isn't full. The last number of a segment isn't one of
/// the log: the length of that file, the mark, is how many segments, from 1 on, are dropped. They count as full and read
/// as 00, whatever stands in their files. A write over a segment's end writes part after part, and a sync of the log syncs
/// each segment that was written since the last one, the lowest first. A write to a dropped segment, behind the log's end
/// or past the last number writes nothing and counts as a fault. Behind a fault in a drop or a cut each call on the log
/// counts as a fault, until a cut succeeds.
#[derive(Drop)]
pub struct Segmented<F: Files + Drop> {
    files: F,
    size: u64,
    // The segment in which the log ends.
    last: u32,
    // So many segments, from 1 on, are dropped, or were to be.
    dropped: u32,
    // Below this segment nothing waits for a sync.
    settled: u32,
    // A drop or a cut failed.
    lost: bool,
    // The calls that failed here.
    refused: u64,
    ghost in_range: { (64 ≤ size) × ((last < 4095) × ((settled ≤ last + 1) × (dropped ≤ last - 1))) },
    ghost sound: { ForSome (F.told files) (λ fs. IsSound lost size last dropped settled (F.may_leave files) (F.is_going files) fs) },
}

// The first and the last segment of some bytes of a log, and their place in the first one.
#[derive(Clone, Copy)]
struct Span {
    first: u32,
    last: u32,
    offset: u64,
}

// A call that fails here.
fn refuse<T>(refused: &mut u64) -> Result<T, StoreFault>
    ensures more { refused.new ≡ one_more refused.old }
    ensures err { IsErr result }
    ensures fits { refused.old < 2 ^ 64 }
{
    *refused = refused.saturating_add(1);
    Err(StoreFault)
}

// The key of a file that isn't the log.
fn key_of(file: FileName) -> Option<FileKey>
    ensures { result ≡ key_for file }
{
    match file {
        FileName::Log => None,
        FileName::ImageA => Some(FileKey::ImageA),
        FileName::ImageB => Some(FileKey::ImageB),
        FileName::Anchor => Some(FileKey::Anchor),
    }
}

// Whether none of these segments is dropped.
fn are_kept(dropped: u32, first: u64, last: u64) -> bool
    ensures { result ≡ true → (n : ℕ) → first ≤ n → n ≤ last → is_dropped dropped n ≡ false }
{
    first > dropped as u64 || first == 0 && (last == 0 || dropped == 0)
}

impl<F: Files + Drop> Segmented<F> {
    /// Opens the segments as one log: removes those after its end, and syncs each file. Where that fails the files come
    /// back. Takes no memory.
    ///
    /// - `Fault` only where the files' count of faults rose.
    /// - `Whole` only where the first segment is longer than `size`.
    /// - `Long` where another one is, up to the one in which the log ends.
    /// - `Mark` where more segments are dropped than stand before the last one.
    pub fn open(files: F, size: u64) -> Result<Segmented<F>, (F, SegmentError)>
        requires { 64 ≤ size }
        ensures told { IfOk result (λ s. told_of s.size (F.told s.files) ≡ told_of size (F.told files)) }
        ensures less { IfOk result (λ s. LeavesLess (told_of size (F.told files)) (told_of s.size (F.told s.files)) (LeavesWhere size (F.told files) (F.may_leave files)) (LeavesWhere s.size (F.told s.files) (F.may_leave s.files)) (F.moment files) (F.moment s.files) (λ t. LeavesWhere size (F.told files) (F.left_since files t)) (λ t. LeavesWhere s.size (F.told s.files) (F.left_since s.files t))) }
        ensures durable { IfOk result (λ s. IfSome (told_of s.size (F.told s.files)) (λ log. (c : StoreFiles) → LeavesWhere s.size (F.told s.files) (F.may_leave s.files) c → c ≡ log)) }
        ensures whole { IfErr result (λ e. e.1 ≡ SegmentError.Whole → IfSome (F.told files) (λ fs. size < length (fs (Segment 0)))) }
        ensures fault { IfErr result (λ e. e.1 ≡ SegmentError.Fault → Rose (F.faults files) (F.faults e.0)) }
        ensures returned { IfErr result (λ e. told_of size (F.told e.0) ≡ told_of size (F.told files)) }
    {
        let mut files = files;
        match prepare(&mut files, size) {
            Ok(extent) => Ok(Segmented {
                files,
                size,
                last: extent.last,
                dropped: extent.dropped,
                settled: extent.last + 1,
                lost: false,
                refused: 0,
            }),
            Err(error) => Err((files, error)),
        }
    }

    /// The files.
    pub fn into_inner(self) -> F
        ensures { result ≡ self.files }
    {
        self.files
    }

    /// The first place after segment 0 that isn't dropped: `size` where nothing is.
    pub fn kept(&self) -> u64
        ensures { result ≡ min ((self.now.dropped + 1) * self.now.size) (2 ^ 64 - 1) }
    {
        (self.dropped as u64 + 1).saturating_mul(self.size)
    }

    // The end of the last segment that is dropped, or 0.
    #[tactic(auto, using(crate::proofs::Quiets::cause_here))]
    fn end_of_dropped(&mut self) -> Result<u64, StoreFault>
        ensures place { IfOk result (λ n. n ≡ dropped_to_of self.old.size self.old.dropped) }
        ensures files { (self.new.files ≡ self.old.files) × ((self.new.size ≡ self.old.size) × (self.new.dropped ≡ self.old.dropped)) }
        ensures cause { HasCause (F.faults self.old.files + self.old.refused) (F.faults self.new.files + self.new.refused) result }
    {
        if self.dropped == 0 {
            return Ok(0);
        }
        match (self.dropped as u64 + 1).checked_mul(self.size) {
            Some(end) => Ok(end),
            None => refuse(&mut self.refused),
        }
    }

    #[tactic(auto, using(crate::proofs::Quiets::cause_here, crate::proofs::Quiets::cause_plus))]
    fn log_length(&mut self) -> Result<u64, StoreFault>
        ensures bound { IfOk result (λ n. n < 2 ^ 62) }
        ensures length { IfOk result (λ n. IfSome (told_of self.old.size (F.told self.old.files)) (λ fs. n ≡ length fs.log)) }
        ensures told { told_of self.new.size (F.told self.new.files) ≡ told_of self.old.size (F.told self.old.files) }
        ensures crash { (c : StoreFiles) → LeavesWhere self.new.size (F.told self.new.files) (F.may_leave self.new.files) c → LeavesWhere self.old.size (F.told self.old.files) (F.may_leave self.old.files) c }
        ensures time { Elapses (F.moment self.old.files) (F.moment self.new.files) (λ t. LeavesWhere self.old.size (F.told self.old.files) (F.left_since self.old.files t)) (λ t. LeavesWhere self.new.size (F.told self.new.files) (F.left_since self.new.files t)) (LeavesWhere self.new.size (F.told self.new.files) (F.may_leave self.new.files)) }
        ensures cause { HasCause (F.faults self.old.files + self.old.refused) (F.faults self.new.files + self.new.refused) result }
        ensures extent { (self.new.size ≡ self.old.size) × ((self.new.last ≡ self.old.last) × ((self.new.dropped ≡ self.old.dropped) × (self.new.lost ≡ self.old.lost))) }
    {
        if self.lost {
            return refuse(&mut self.refused);
        }
        let (number, size) = (self.last, self.size);
        let behind = self.files.length(FileKey::Segment { number })?;
        match (number as u64).checked_mul(size) {
            Some(before) if before < 1 << 61 && behind < 1 << 61 => Ok(before + behind),
            _ => refuse(&mut self.refused),
        }
    }

    #[tactic(auto, using(crate::proofs::Quiets::cause_here, crate::proofs::Quiets::cause_plus, crate::proofs::Sounds::told_quiet, crate::proofs::Sounds::crash_quiet, crate::proofs::Sounds::time_quiet))]
    fn read_from(&mut self, at: u64, into: &mut [u8]) -> Result<usize, StoreFault>
        ensures count { IfOk result (λ n. n ≤ length into.old) }
        ensures bytes { IfOk result (λ n. IfSome (told_of self.old.size (F.told self.old.files)) (λ fs. ReadsAt fs.log at into.old n into.new)) }
        ensures told { told_of self.new.size (F.told self.new.files) ≡ told_of self.old.size (F.told self.old.files) }
        ensures crash { (c : StoreFiles) → LeavesWhere self.new.size (F.told self.new.files) (F.may_leave self.new.files) c → LeavesWhere self.old.size (F.told self.old.files) (F.may_leave self.old.files) c }
        ensures time { Elapses (F.moment self.old.files) (F.moment self.new.files) (λ t. LeavesWhere self.old.size (F.told self.old.files) (F.left_since self.old.files t)) (λ t. LeavesWhere self.new.size (F.told self.new.files) (F.left_since self.new.files t)) (LeavesWhere self.new.size (F.told self.new.files) (F.may_leave self.new.files)) }
        ensures cause { HasCause (F.faults self.old.files + self.old.refused) (F.faults self.new.files + self.new.refused) result }
        ensures extent { (self.new.size ≡ self.old.size) × (self.new.dropped ≡ self.old.dropped) }
    {
        if self.lost {
            return refuse(&mut self.refused);
        }
        let count = read_log(
            &mut self.files,
            self.size,
            self.last,
            self.dropped,
            at,
            into,
        )?;
        Ok(count)
    }

    // Where so many bytes at a place are, if they may be written: not behind the log's last segment and the next one, and
    // to none that is dropped.
    #[tactic(auto, using(crate::proofs::Turns::can_write))]
    fn span_of(&self, at: u64, count: usize) -> Option<Span>
        requires { 0 < count }
        ensures { IfSome result (λ s. CanWrite self.now.size self.now.dropped at count s.first s.last s.offset) }
    {
        let end = at.checked_add(count as u64)?;
        let first = at / self.size;
        let last = (end - 1) / self.size;
        if last >= LIMIT as u64 || first > self.last as u64 + 1 {
            return None;
        }
        if !are_kept(self.dropped, first, last) {
            return None;
        }
        Some(Span {
            first: first as u32,
            last: last as u32,
            offset: at % self.size,
        })
    }

    // Writes to one segment, or begins it.
    fn write_segment(&mut self, number: u32, at: u64, bytes: &[u8]) -> Result<(), StoreFault>
        requires found { self.old.lost ≡ false }
        requires number { (number < 4095) × (is_dropped self.old.dropped number ≡ false) }
        requires inside { at + length bytes.now ≤ self.old.size }
        requires place { IfSome (told_of self.old.size (F.told self.old.files)) (λ fs. number * self.old.size + at ≤ length fs.log) }
        requires full { IfSome (F.told self.old.files) (λ fs. number < self.old.last → (d : Contents) → F.may_leave self.old.files d → length (piece self.old.size d number) ≡ self.old.size) }
        ensures writes { Writes (number * self.old.size + at) (length bytes.now) (told_of self.old.size (F.told self.old.files)) (told_of self.new.size (F.told self.new.files)) (LeavesWhere self.old.size (F.told self.old.files) (F.may_leave self.old.files)) (LeavesWhere self.new.size (F.told self.new.files) (F.may_leave self.new.files)) (F.moment self.old.files) (F.moment self.new.files) (λ t. LeavesWhere self.old.size (F.told self.old.files) (F.left_since self.old.files t)) (λ t. LeavesWhere self.new.size (F.told self.new.files) (F.left_since self.new.files t)) }
        ensures written { OnOk result (HoldsIn Log (number * self.old.size + at) bytes.now (told_of self.old.size (F.told self.old.files)) (told_of self.new.size (F.told self.new.files))) }
        ensures full { (l : ℕ) → FullBelow self.old.size l (F.told self.old.files) (F.may_leave self.old.files) → FullBelow self.new.size l (F.told self.new.files) (F.may_leave self.new.files) }
        ensures extent { (self.new.size ≡ self.old.size) × ((self.new.last ≡ max self.old.last number) × ((self.new.dropped ≡ self.old.dropped) × ((self.new.lost ≡ self.old.lost) × (self.new.refused ≡ self.old.refused)))) }
        ensures cause { HasCause (F.faults self.old.files) (F.faults self.new.files) result }
    {
        let settled = self.settled.min(number);
        let last = self.last.max(number);
        self.settled = settled;
        self.last = last;
        self.files.write_at(FileKey::Segment { number }, at, bytes)
    }

    // Writes part after part, from a place of a segment on. All segments but the last one are synced before: so each
    // byte that a crash may change stands in what this call writes, or behind the end at the last sync.
    fn write_parts(
        &mut self,
        first: u32,
        last: u32,
        at: u64,
        bytes: &[u8],
    ) -> Result<(), StoreFault>
        requires found { self.old.lost ≡ false }
        requires inside { (at < self.old.size) × ((first ≤ last) × (last < 4095)) }
        requires span { (last * self.old.size < first * self.old.size + at + length bytes.now) × (first * self.old.size + at + length bytes.now ≤ (last + 1) * self.old.size) }
        requires kept { (n : ℕ) → first ≤ n → n ≤ last → is_dropped self.old.dropped n ≡ false }
        requires place { IfSome (told_of self.old.size (F.told self.old.files)) (λ fs. first * self.old.size + at ≤ length fs.log) }
        requires full { FullBelow self.old.size self.old.last (F.told self.old.files) (F.may_leave self.old.files) }
        ensures writes { Writes (first * self.old.size + at) (length bytes.now) (told_of self.old.size (F.told self.old.files)) (told_of self.new.size (F.told self.new.files)) (LeavesWhere self.old.size (F.told self.old.files) (F.may_leave self.old.files)) (LeavesWhere self.new.size (F.told self.new.files) (F.may_leave self.new.files)) (F.moment self.old.files) (F.moment self.new.files) (λ t. LeavesWhere self.old.size (F.told self.old.files) (F.left_since self.old.files t)) (λ t. LeavesWhere self.new.size (F.told self.new.files) (F.left_since self.new.files t)) }
        ensures written { OnOk result (HoldsIn Log (first * self.old.size + at) bytes.now (told_of self.old.size (F.told self.old.files)) (told_of self.new.size (F.told self.new.files))) }
        ensures extent { (self.new.size ≡ self.old.size) × ((self.new.dropped ≡ self.old.dropped) × (self.new.refused ≡ self.old.refused)) }
        ensures cause { HasCause (F.faults self.old.files) (F.faults self.new.files) result }
    {
        let mut offset = at;
        let mut done = 0;
        for number in first..last + 1 {
            let most = ((bytes.len() - done) as u64).min(self.size - offset) as usize;
            let part = part_of(bytes, done, most);
            self.write_segment(number, offset, part)?;
            done += most;
            offset = 0;
        }
        Ok(())
    }

    // Syncs what waits below the last segment.
    #[tactic(auto, using(crate::proofs::Written::settled_full, crate::proofs::Quiets::cause_here, dali_store::proofs::Drops::elapses_none))]
    fn settle_below(&mut self) -> Result<(), StoreFault>
        ensures full { OnOk result (FullBelow self.new.size self.new.last (F.told self.new.files) (F.may_leave self.new.files)) }
        ensures found { OnOk result (self.new.lost ≡ false) }
        ensures told { told_of self.new.size (F.told self.new.files) ≡ told_of self.old.size (F.told self.old.files) }
        ensures crash { (c : StoreFiles) → LeavesWhere self.new.size (F.told self.new.files) (F.may_leave self.new.files) c → LeavesWhere self.old.size (F.told self.old.files) (F.may_leave self.old.files) c }
        ensures time { Elapses (F.moment self.old.files) (F.moment self.new.files) (λ t. LeavesWhere self.old.size (F.told self.old.files) (F.left_since self.old.files t)) (λ t. LeavesWhere self.new.size (F.told self.new.files) (F.left_since self.new.files t)) (LeavesWhere self.new.size (F.told self.new.files) (F.may_leave self.new.files)) }
        ensures cause { HasCause (F.faults self.old.files + self.old.refused) (F.faults self.new.files + self.new.refused) result }
        ensures extent { (self.new.size ≡ self.old.size) × (self.new.dropped ≡ self.old.dropped) }
    {
        if self.lost {
            return refuse(&mut self.refused);
        }
        if self.settled >= self.last {
            return Ok(());
        }
        self.sync_log()?;
        Ok(())
    }

    // Writes where no dropped segment is, and not behind the log's end.
    #[tactic(auto, using(crate::proofs::Quiets::cause_here, crate::proofs::Runs::holds_none, crate::proofs::Runs::torn_told_same, crate::proofs::Runs::torn_told_eq, crate::proofs::Runs::follows_same, crate::proofs::Runs::follows_fewer, dali_store::proofs::Drops::elapses_none))]
    fn write_log(&mut self, at: u64, bytes: &[u8]) -> Result<(), StoreFault>
        requires { IfSome (told_of self.old.size (F.told self.old.files)) (λ fs. at ≤ length fs.log) }
        ensures written { OnOk result (HoldsIn Log at bytes.now (told_of self.old.size (F.told self.old.files)) (told_of self.new.size (F.told self.new.files))) }
        ensures torn { TornTold Log at (length bytes.now) (told_of self.old.size (F.told self.old.files)) (told_of self.new.size (F.told self.new.files)) }
        ensures crash { Follows (TornIn Log at (length bytes.now)) (LeavesWhere self.old.size (F.told self.old.files) (F.may_leave self.old.files)) (LeavesWhere self.new.size (F.told self.new.files) (F.may_leave self.new.files)) }
        ensures time { Elapses (F.moment self.old.files) (F.moment self.new.files) (λ t. LeavesWhere self.old.size (F.told self.old.files) (F.left_since self.old.files t)) (λ t. LeavesWhere self.new.size (F.told self.new.files) (F.left_since self.new.files t)) (LeavesWhere self.new.size (F.told self.new.files) (F.may_leave self.new.files)) }
        ensures cause { HasCause (F.faults self.old.files + self.old.refused) (F.faults self.new.files + self.new.refused) result }
        ensures extent { (self.new.size ≡ self.old.size) × (self.new.dropped ≡ self.old.dropped) }
    {
        if bytes.is_empty() {
            return Ok(());
        }
        let Some(span) = self.span_of(at, bytes.len()) else {
            return refuse(&mut self.refused);
        };
        self.settle_below()?;
        self.write_parts(span.first, span.last, span.offset, bytes)?;
        Ok(())
    }

    // Syncs what the log has that no sync kept, the lowest segment first.
    #[tactic(auto, using(crate::proofs::Quiets::cause_here, crate::proofs::Quiets::cause_plus, crate::proofs::Sounds::told_quiet, crate::proofs::Sounds::crash_quiet, crate::proofs::Sounds::time_quiet))]
    fn sync_log(&mut self) -> Result<(), StoreFault>
        ensures durable { OnOk result (IfSome (told_of self.old.size (F.told self.old.files)) (λ fs. (c : StoreFiles) → LeavesWhere self.new.size (F.told self.new.files) (F.may_leave self.new.files) c → file_of Log c ≡ file_of Log fs)) }
        ensures told { told_of self.new.size (F.told self.new.files) ≡ told_of self.old.size (F.told self.old.files) }
        ensures crash { (c : StoreFiles) → LeavesWhere self.new.size (F.told self.new.files) (F.may_leave self.new.files) c → LeavesWhere self.old.size (F.told self.old.files) (F.may_leave self.old.files) c }
        ensures time { Elapses (F.moment self.old.files) (F.moment self.new.files) (λ t. LeavesWhere self.old.size (F.told self.old.files) (F.left_since self.old.files t)) (λ t. LeavesWhere self.new.size (F.told self.new.files) (F.left_since self.new.files t)) (LeavesWhere self.new.size (F.told self.new.files) (F.may_leave self.new.files)) }
        ensures cause { HasCause (F.faults self.old.files + self.old.refused) (F.faults self.new.files + self.new.refused) result }
        ensures extent { (self.new.size ≡ self.old.size) × ((self.new.last ≡ self.old.last) × ((self.new.dropped ≡ self.old.dropped) × (self.new.lost ≡ self.old.lost))) }
        ensures settled { OnOk result ((self.new.settled ≡ self.new.last + 1) × (self.new.lost ≡ false)) }
    {
        if self.lost {
            return refuse(&mut self.refused);
        }
        sync_segments(&mut self.files, self.settled, self.last + 1)?;
        self.settled = self.last + 1;
        Ok(())
    }

    // Drops the segments that end at a place or before it, but for the first one and for those that are dropped.
    fn drop_below(&mut self, below: u64) -> Result<u64, StoreFault>
        ensures drops { DropsLog below self.old.size self.new.size self.old.dropped self.new.dropped (told_of self.old.size (F.told self.old.files)) (told_of self.new.size (F.told self.new.files)) (LeavesWhere self.old.size (F.told self.old.files) (F.may_leave self.old.files)) (LeavesWhere self.new.size (F.told self.new.files) (F.may_leave self.new.files)) (F.moment self.old.files) (F.moment self.new.files) (λ t. LeavesWhere self.old.size (F.told self.old.files) (F.left_since self.old.files t)) (λ t. LeavesWhere self.new.size (F.told self.new.files) (F.left_since self.new.files t)) }
        ensures count { IfOk result (λ n. n ≡ droppable_of self.old.size self.old.dropped below) }
        ensures none_left { OnOk result (droppable_of self.new.size self.new.dropped below ≡ 0) }
        ensures reaches { IfOk result (λ n. n ≤ dropped_to_of self.new.size self.new.dropped) }
        ensures durable { OnOk result (0 < droppable_of self.old.size self.old.dropped below → IsSynced Log (told_of self.new.size (F.told self.new.files)) (LeavesWhere self.new.size (F.told self.new.files) (F.may_leave self.new.files))) }
        ensures cause { HasCause (F.faults self.old.files + self.old.refused) (F.faults self.new.files + self.new.refused) result }
    {
        self.sync_log()?;
        let wanted = (below / self.size).saturating_sub(1);
        let before = self.dropped;
        if wanted <= before as u64 {
            return Ok(0);
        }
        if wanted >= self.last as u64 {
            return refuse(&mut self.refused);
        }
        match (wanted - before as u64).checked_mul(self.size) {
            Some(bytes) => {
                let dropped = wanted as u32;
                self.dropped = dropped;
                self.lost = true;
                drop_segments(&mut self.files, before, dropped)?;
                self.lost = false;
                Ok(bytes)
            }
            None => refuse(&mut self.refused),
        }
    }

    // Behind a crash the log ends where it does, and what stands behind that is removed.
    fn cut_all(&mut self, choice: u32) -> Result<(), StoreFault>
        ensures less { LeavesLess (told_of self.old.size (F.told self.old.files)) (told_of self.new.size (F.told self.new.files)) (LeavesWhere self.old.size (F.told self.old.files) (F.may_leave self.old.files)) (LeavesWhere self.new.size (F.told self.new.files) (F.may_leave self.new.files)) (F.moment self.old.files) (F.moment self.new.files) (λ t. LeavesWhere self.old.size (F.told self.old.files) (F.left_since self.old.files t)) (λ t. LeavesWhere self.new.size (F.told self.new.files) (F.left_since self.new.files t)) }
        ensures chosen { OnOk result (told_of self.new.size (F.told self.new.files) ≡ told_of self.old.size (F.cuts self.old.files choice)) }
        ensures durable { OnOk result (IfSome (told_of self.new.size (F.told self.new.files)) (λ log. (c : StoreFiles) → LeavesWhere self.new.size (F.told self.new.files) (F.may_leave self.new.files) c → c ≡ log)) }
        ensures cause { HasCause (F.faults self.old.files + self.old.refused) (F.faults self.new.files + self.new.refused) result }
    {
        self.lost = true;
        self.files.cut(choice)?;
        let extent = match extent_of(&mut self.files, self.size) {
            Ok(extent) => extent,
            Err(_) => return refuse(&mut self.refused),
        };
        clear(&mut self.files, extent.last + 1, LIMIT)?;
        self.last = extent.last;
        self.dropped = extent.dropped;
        self.settled = extent.last + 1;
        self.lost = false;
        Ok(())
    }
}

impl<F: Files + Drop> Store for Segmented<F> {
    ghost use Rattle.std.specs.Prelude.{None, ◌+◌};
    ghost use Rattle.dali_segments.specs.Segments.{told_of, LeavesWhere, droppable_of, dropped_to_of};
    ghost use Rattle.dali_segments.specs.Laws.{reads_law, tells_law, cuts_law, leaves_more, no_longer_law};

    ghost told = { λ s. told_of s.size (F.told s.files) };

    ghost may_leave = { λ s. LeavesWhere s.size (F.told s.files) (F.may_leave s.files) };

    ghost moment = { λ s. F.moment s.files };

    ghost left_since = { λ s t. LeavesWhere s.size (F.told s.files) (F.left_since s.files t) };

    ghost faults = { λ s. F.faults s.files + s.refused };

    ghost lets_pass = { λ s. None };

    ghost cuts = { λ s choice. told_of s.size (F.cuts s.files choice) };

    ghost droppable = { λ s below. droppable_of s.size s.dropped below };

    ghost dropped_to = { λ s. dropped_to_of s.size s.dropped };

    ghost reads_now = { λ s. reads_law s.size (F.told s.files) (F.may_leave s.files) (F.reads_now s.files) };

    ghost no_longer = { λ s. no_longer_law s.lost s.size s.last s.dropped s.settled (F.told s.files) (F.may_leave s.files) (F.is_going s.files) s.sound (F.no_longer s.files) };

    ghost tells_cuts = { λ s choice. tells_law s.size (F.told s.files) (F.cuts s.files choice) (F.tells_cuts s.files choice) };

    ghost cuts_leave = { λ s choice. cuts_law s.size (F.told s.files) (F.cuts s.files choice) (F.may_leave s.files) (F.tells_cuts s.files choice) (F.cuts_leave s.files choice) };

    ghost counts_now = { λ s t c le. leaves_more s.size (F.told s.files) (F.may_leave s.files) (F.left_since s.files t) c (λ d. F.counts_now s.files t d le) };

    ghost only_now = { λ s c. leaves_more s.size (F.told s.files) (F.left_since s.files (F.moment s.files)) (F.may_leave s.files) c (λ d. F.only_now s.files d) };

    #[tactic(auto, using(crate::proofs::Quiets::cause_plus))]
    fn length(&mut self, file: FileName) -> Result<u64, StoreFault> {
        match key_of(file) {
            Some(key) => self.files.length(key),
            None => self.log_length(),
        }
    }

    #[tactic(auto, using(crate::proofs::Quiets::cause_plus))]
    fn read_at(&mut self, file: FileName, at: u64, into: &mut [u8]) -> Result<usize, StoreFault> {
        match key_of(file) {
            Some(key) => self.files.read_at(key, at, into),
            None => self.read_from(at, into),
        }
    }

    #[tactic(auto, using(crate::proofs::Quiets::cause_plus))]
    fn write_at(&mut self, file: FileName, at: u64, bytes: &[u8]) -> Result<(), StoreFault> {
        match key_of(file) {
            Some(key) => self.files.write_at(key, at, bytes),
            None => self.write_log(at, bytes),
        }
    }

    #[tactic(auto, using(crate::proofs::Quiets::cause_plus))]
    fn sync(&mut self, file: FileName) -> Result<(), StoreFault> {
        match key_of(file) {
            Some(key) => self.files.sync(key),
            None => self.sync_log(),
        }
    }

    fn cut(&mut self, choice: u32) -> Result<(), StoreFault> {
        self.cut_all(choice)
    }

    fn drop_log(&mut self, below: u64) -> Result<u64, StoreFault> {
        self.drop_below(below)
    }

    fn first_kept(&mut self) -> Result<u64, StoreFault> {
        self.end_of_dropped()
    }
}
