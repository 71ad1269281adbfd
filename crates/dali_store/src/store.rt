//! The trait of a store of four files.
ghost use Rattle.std.specs.Prelude.{◌≡◌, ◌≤◌, ◌<◌, ◌^◌, Option, List, ℕ, length, max, IfOk, OnOk, IfSome, is_some};
ghost use Rattle.dali_store.specs.Calls.{one_less};
ghost use Rattle.dali_store.specs.Faults.{HasCause};
ghost use Rattle.dali_store.specs.Drops.{DroppedIn, DroppedTold, IsIdle, IsSynced, After, LogStays};
ghost use Rattle.dali_store.specs.Store.{Files, file_of, NoLonger, Only, Follows, TornIn, TornTold, HoldsIn, ReadsAt, Elapses};

use std::fmt;
use thiserror::Error;

/// The four files of a store.
#[derive(Clone, Copy, Debug, PartialEq, Eq)]
pub enum FileName {
    /// The log: batches of records behind gates.
    Log,
    /// The image that the checkpoints of odd number write.
    ImageA,
    /// The image that the checkpoints of even number write.
    ImageB,
    /// The anchor: one gate for each completed checkpoint or image of a restart.
    Anchor,
}

impl fmt::Display for FileName {
    ghost use Rattle.std.specs.Prelude.{Some};
    ghost use Rattle.dali_store.specs.Store.{name_of};

    ghost output = { λ f. Some (name_of f) };

    fn fmt<W: fmt::Write>(&self, f: &mut fmt::Formatter<W>) -> fmt::Result {
        f.write_str(match self {
            FileName::Log => "log",
            FileName::ImageA => "a",
            FileName::ImageB => "b",
            FileName::Anchor => "anchor",
        })
    }
}

/// A call of a store failed. It is answered exactly where the store's count of faults rose in that call.
#[derive(Clone, Copy, Debug, PartialEq, Eq, Error)]
#[error("store fault")]
pub struct StoreFault;

/// Four files under one clock. A file that was never written has length 0.
///
/// Between two syncs of a file each written range, and the part past the old end, may hold any bytes after a crash. The
/// length is anything from the one at the last sync to the present one. All other bytes stay. A write that fails counts
/// as written in any part. After a sync that succeeds, a crash leaves what reads give.
///
/// A store tells what its reads give, as one in memory does, or it doesn't, as one over real files. Every call, one
/// that fails among them, leaves this as it is. What is said of a crash is of use only where a store tells what its
/// reads give: a store that doesn't tell may name all files as what a crash may leave, so that a caller learns nothing
/// of it. That real files behave like a store that tells them is trusted.
///
/// A call answers Ok exactly where the count of faults stayed, and an error where it rose (or stands at its type's
/// end). So a fault that a second try hides isn't Ok: a second sync may answer Ok for pages that were lost.
///
/// A store may count the calls that it still makes before it fails each, as a fuse does. Each call takes one off the
/// count, which stands still at 0. Where it stood above four, a clause that four are fewer says that just four calls
/// were made, and one of at most four that no more were made. Else, and of a store that counts nothing, neither says
/// how many.
///
/// A store may keep its log in segments, and drop those before a place. Dropped bytes read as 00 and stay part of the
/// log, whose length and whose first 64 bytes no drop changes. A store that keeps its log in one piece drops nothing.
pub trait Store {
    /// What reads of the four files give, where the store tells it.
    ghost told: { Self → Option Files };

    /// What a crash at this moment may leave of the four files.
    ghost may_leave: { Self → Files → Type 0 };

    /// The moment, as a number that doesn't fall.
    ghost moment: { Self → ℕ };

    /// What a crash at some moment from that one on might have left, during a call or between two.
    ghost left_since: { Self → ℕ → Files → Type 0 };

    /// How often a call has failed. The count never falls, and stands still at its type's end.
    ghost faults: { Self → ℕ };

    /// A number, where the store keeps one, that each call takes one off, also a call that fails; it stands still at 0.
    /// A fuse keeps how many calls it still makes before it fails each; that a store fails at 0 is said here of none.
    ghost lets_pass: { Self → Option ℕ };

    /// What a cut with this choice makes of the four files, where the store tells what its reads give.
    ghost cuts: { Self → ℕ → Option Files };

    /// How many bytes a drop of the log below a place would drop now: none of a store that keeps its log in one piece.
    ghost droppable: { Self → ℕ → ℕ };

    /// The place from which on no byte of the log is dropped: the end of the last part that is, or 0. A call changes no
    /// byte there but by what it writes, and `cut` alone says nothing of it.
    ghost dropped_to: { Self → ℕ };

    /// The length of a file in bytes. A length of 2^62 or more counts as a fault. Takes no memory.
    fn length(&mut self, file: FileName) -> Result<u64, StoreFault>
        ensures bound { IfOk result (λ n. n < 2 ^ 62) }
        ensures length { IfOk result (λ n. IfSome (told self.old) (λ fs. n ≡ length (file_of file fs))) }
        ensures told { told self.new ≡ told self.old }
        ensures crash { (c : Files) → may_leave self.new c → may_leave self.old c }
        ensures time { Elapses (moment self.old) (moment self.new) (left_since self.old) (left_since self.new) (may_leave self.new) }
        ensures cause { HasCause (faults self.old) (faults self.new) result }
        ensures calls { lets_pass self.new ≡ one_less (lets_pass self.old) }
        ensures droppable { droppable self.new ≡ droppable self.old }
        ensures dropped { dropped_to self.new ≡ dropped_to self.old };

    /// Reads from a place on into the front of a buffer, and answers how many bytes. Fewer than asked come only at the end.
    /// After a fault the buffer may hold anything. Takes no memory.
    fn read_at(&mut self, file: FileName, at: u64, into: &mut [u8]) -> Result<usize, StoreFault>
        ensures count { IfOk result (λ n. n ≤ length into.old) }
        ensures bytes { IfOk result (λ n. IfSome (told self.old) (λ fs. ReadsAt (file_of file fs) at into.old n into.new)) }
        ensures told { told self.new ≡ told self.old }
        ensures crash { (c : Files) → may_leave self.new c → may_leave self.old c }
        ensures time { Elapses (moment self.old) (moment self.new) (left_since self.old) (left_since self.new) (may_leave self.new) }
        ensures cause { HasCause (faults self.old) (faults self.new) result }
        ensures calls { lets_pass self.new ≡ one_less (lets_pass self.old) }
        ensures droppable { droppable self.new ≡ droppable self.old }
        ensures dropped { dropped_to self.new ≡ dropped_to self.old };

    /// Writes over what is there, and past the end. Until a sync, a crash may leave any bytes in the range.
    /// After a fault any part of it may be written. It may take memory.
    fn write_at(&mut self, file: FileName, at: u64, bytes: &[u8]) -> Result<(), StoreFault>
        requires { IfSome (told self.old) (λ fs. at ≤ length (file_of file fs)) }
        ensures tells { is_some (told self.new) ≡ is_some (told self.old) }
        ensures written { OnOk result (HoldsIn file at bytes.now (told self.old) (told self.new)) }
        ensures torn { TornTold file at (length bytes.now) (told self.old) (told self.new) }
        ensures crash { Follows (TornIn file at (length bytes.now)) (may_leave self.old) (may_leave self.new) }
        ensures time { Elapses (moment self.old) (moment self.new) (left_since self.old) (left_since self.new) (may_leave self.new) }
        ensures cause { HasCause (faults self.old) (faults self.new) result }
        ensures calls { lets_pass self.new ≡ one_less (lets_pass self.old) }
        ensures droppable { IfSome (told self.old) (λ fs. LogStays (length fs.log) (droppable self.old) (droppable self.new)) }
        ensures dropped { dropped_to self.new ≡ dropped_to self.old };

    /// Keeps what was written to a file: after Ok a crash leaves of it what reads give. Takes no memory.
    fn sync(&mut self, file: FileName) -> Result<(), StoreFault>
        ensures durable { OnOk result (IfSome (told self.old) (λ fs. (c : Files) → may_leave self.new c → file_of file c ≡ file_of file fs)) }
        ensures told { told self.new ≡ told self.old }
        ensures crash { (c : Files) → may_leave self.new c → may_leave self.old c }
        ensures time { Elapses (moment self.old) (moment self.new) (left_since self.old) (left_since self.new) (may_leave self.new) }
        ensures cause { HasCause (faults self.old) (faults self.new) result }
        ensures calls { lets_pass self.new ≡ one_less (lets_pass self.old) }
        ensures droppable { droppable self.new ≡ droppable self.old }
        ensures dropped { dropped_to self.new ≡ dropped_to self.old };

    /// A crash: afterwards reads give one of the things that a crash might have left, and a crash leaves just this.
    /// Which one, the store and `choice` determine. Takes no memory.
    fn cut(&mut self, choice: u32) -> Result<(), StoreFault>
        ensures tells { is_some (told self.new) ≡ is_some (told self.old) }
        ensures chosen { OnOk result (told self.new ≡ cuts self.old choice) }
        ensures cut { OnOk result (IfSome (told self.new) (λ fs. may_leave self.old fs)) }
        ensures durable { OnOk result (IfSome (told self.new) (λ fs. Only fs (may_leave self.new))) }
        ensures crash { (c : Files) → may_leave self.new c → may_leave self.old c }
        ensures time { Elapses (moment self.old) (moment self.new) (left_since self.old) (left_since self.new) (may_leave self.new) }
        ensures cause { HasCause (faults self.old) (faults self.new) result }
        ensures calls { lets_pass self.new ≡ one_less (lets_pass self.old) };

    /// Drops the segments of the log that end at a place or before it, all but the first one, and answers how many bytes
    /// they had: none where the log is kept in one piece. The place is to be below the log's length. What is dropped
    /// reads as 00, and all from `first_kept` on reads as before, after a fault too. After Ok nothing is left to drop there, and where something was dropped, a crash leaves of the log
    /// what reads give. A crash inside the call leaves each byte below the place as it was or dropped, and so may a fault.
    /// Takes no memory.
    fn drop_log(&mut self, below: u64) -> Result<u64, StoreFault>
        requires { IfSome (told self.old) (λ fs. below < length fs.log) }
        ensures count { IfOk result (λ n. n ≡ droppable self.old below) }
        ensures none_left { OnOk result (droppable self.new below ≡ 0) }
        ensures fewer { (place : ℕ) → droppable self.new place ≤ droppable self.old place }
        ensures reaches { IfOk result (λ n. n ≤ dropped_to self.new) }
        ensures further { dropped_to self.old ≤ dropped_to self.new }
        ensures within { dropped_to self.new ≤ max (dropped_to self.old) below }
        ensures idle { droppable self.old below ≡ 0 → IsIdle (told self.old) (told self.new) (may_leave self.old) (may_leave self.new) }
        ensures durable { OnOk result (0 < droppable self.old below → IsSynced FileName.Log (told self.new) (may_leave self.new)) }
        ensures dropped { DroppedTold below (told self.old) (told self.new) }
        ensures kept { DroppedTold (dropped_to self.new) (told self.old) (told self.new) }
        ensures crash { Follows (DroppedIn below) (may_leave self.old) (may_leave self.new) }
        ensures time { Elapses (moment self.old) (moment self.new) (left_since self.old) (left_since self.new) (After (DroppedIn below) (may_leave self.old)) }
        ensures cause { HasCause (faults self.old) (faults self.new) result }
        ensures calls { lets_pass self.new ≡ one_less (lets_pass self.old) };

    /// The place from which on no byte of the log is dropped: 0 where none is. Takes no memory.
    fn first_kept(&mut self) -> Result<u64, StoreFault>
        ensures place { IfOk result (λ n. n ≡ dropped_to self.old) }
        ensures told { told self.new ≡ told self.old }
        ensures crash { (c : Files) → may_leave self.new c → may_leave self.old c }
        ensures time { Elapses (moment self.old) (moment self.new) (left_since self.old) (left_since self.new) (may_leave self.new) }
        ensures cause { HasCause (faults self.old) (faults self.new) result }
        ensures calls { lets_pass self.new ≡ one_less (lets_pass self.old) }
        ensures droppable { droppable self.new ≡ droppable self.old }
        ensures dropped { dropped_to self.new ≡ dropped_to self.old };

    /// The files as they read are one of the things that a crash may leave.
    ghost reads_now: { (s : Self) → IfSome (told s) (λ fs. may_leave s fs) };

    /// What a crash leaves of a file is never longer than the file is now.
    ghost no_longer: { (s : Self) → IfSome (told s) (λ fs. (c : Files) → may_leave s c → NoLonger c fs) };

    /// What a cut makes of the files is told exactly where it is told what reads give.
    ghost tells_cuts: { (s : Self) (choice : ℕ) → is_some (cuts s choice) ≡ is_some (told s) };

    /// What a cut makes of the files is one of the things that a crash may leave.
    ghost cuts_leave: { (s : Self) (choice : ℕ) → IfSome (cuts s choice) (λ fs. may_leave s fs) };

    /// This moment is one of those since an earlier one.
    ghost counts_now: { (s : Self) (t : ℕ) (c : Files) → t ≤ moment s → may_leave s c → left_since s t c };

    /// Since this moment there is no other.
    ghost only_now: { (s : Self) (c : Files) → left_since s (moment s) c → may_leave s c };
}
