//! The trait of the files of a store whose log is kept in segments.
ghost use Rattle.std.specs.Prelude.{◌≡◌, ◌≤◌, ◌<◌, ◌^◌, ◌⊎◌, Option, ℕ, length, IfOk, OnOk, IfSome, is_some};
ghost use Rattle.dali_store.specs.Faults.{HasCause};
ghost use Rattle.dali_store.specs.Store.{ReadsAt};
ghost use Rattle.dali_files.specs.Keys.{IsKey};
ghost use Rattle.dali_files.specs.Files.{Contents, HoldsIn, TornIn, TornTold, RemovedIn, EmptiedIn, EmptiedTold, Follows, Only, Elapses};
ghost use Rattle.dali_files.specs.declared.key.FileKey.{FileKey};

use crate::FileKey;
use dali_store::StoreFault;

/// The files of a store whose log is kept in segments, under one clock. A file that was never written has length 0, and
/// so has one that was removed.
///
/// Between two syncs of a file each written range, and the part past the old end, may hold any bytes after a crash. The
/// length is anything from the one at the last sync to the present one. All other bytes stay. A write that fails counts
/// as written in any part. After a removal, one that fails too, and until the next sync of that file a crash leaves the
/// file as it was or empty. After a sync that succeeds, a crash leaves what reads give.
///
/// What reads give is told, as by files in memory, or it isn't, as by real ones. Every call, one that fails among them,
/// leaves this as it is. What is said of a crash is of use only where it is told what reads give; that real files behave
/// like files that tell it is trusted.
///
/// A call answers Ok exactly where the count of faults stayed, and an error where it rose (or stands at its type's end).
///
/// Each call asks that the number of a segment is below [`SEGMENTS`](crate::SEGMENTS).
pub trait Files {
    /// What reads of the files give, where it is told.
    ghost told: { Self → Option Contents };

    /// What a crash at this moment may leave of the files.
    ghost may_leave: { Self → Contents → Type 0 };

    /// The moment, as a number that doesn't fall.
    ghost moment: { Self → ℕ };

    /// What a crash at some moment from that one on might have left, during a call or between two.
    ghost left_since: { Self → ℕ → Contents → Type 0 };

    /// How often a call has failed. The count never falls, and stands still at its type's end.
    ghost faults: { Self → ℕ };

    /// What a cut with this choice makes of the files, where it is told what reads give.
    ghost cuts: { Self → ℕ → Option Contents };

    /// The file was removed, and not synced since: a crash may leave it longer than it is.
    ghost is_going: { Self → FileKey → Type 0 };

    /// The length of a file in bytes. A length of 2^62 or more counts as a fault. Takes no memory.
    fn length(&mut self, file: FileKey) -> Result<u64, StoreFault>
        requires { IsKey file }
        ensures bound { IfOk result (λ n. n < 2 ^ 62) }
        ensures length { IfOk result (λ n. IfSome (told self.old) (λ fs. n ≡ length (fs file))) }
        ensures told { told self.new ≡ told self.old }
        ensures crash { (c : Contents) → may_leave self.new c → may_leave self.old c }
        ensures going { (g : FileKey) → is_going self.new g → is_going self.old g }
        ensures time { Elapses (moment self.old) (moment self.new) (left_since self.old) (left_since self.new) (may_leave self.new) }
        ensures cause { HasCause (faults self.old) (faults self.new) result };

    /// Reads from a place on into the front of a buffer, and answers how many bytes. Fewer than asked come only at the end.
    /// After a fault the buffer may hold anything. Takes no memory.
    fn read_at(&mut self, file: FileKey, at: u64, into: &mut [u8]) -> Result<usize, StoreFault>
        requires { IsKey file }
        ensures count { IfOk result (λ n. n ≤ length into.old) }
        ensures bytes { IfOk result (λ n. IfSome (told self.old) (λ fs. ReadsAt (fs file) at into.old n into.new)) }
        ensures told { told self.new ≡ told self.old }
        ensures crash { (c : Contents) → may_leave self.new c → may_leave self.old c }
        ensures going { (g : FileKey) → is_going self.new g → is_going self.old g }
        ensures time { Elapses (moment self.old) (moment self.new) (left_since self.old) (left_since self.new) (may_leave self.new) }
        ensures cause { HasCause (faults self.old) (faults self.new) result };

    /// Writes over what is there, and past the end. Until a sync, a crash may leave any bytes in the range, and all that it
    /// might have left before. After a fault any part of it may be written. It may take memory.
    fn write_at(&mut self, file: FileKey, at: u64, bytes: &[u8]) -> Result<(), StoreFault>
        requires key { IsKey file }
        requires place { IfSome (told self.old) (λ fs. at ≤ length (fs file)) }
        ensures tells { is_some (told self.new) ≡ is_some (told self.old) }
        ensures written { OnOk result (HoldsIn file at bytes.now (told self.old) (told self.new)) }
        ensures torn { TornTold file at (length bytes.now) (told self.old) (told self.new) }
        ensures crash { Follows (TornIn file at (length bytes.now)) (may_leave self.old) (may_leave self.new) }
        ensures more { (c : Contents) → may_leave self.old c → may_leave self.new c }
        ensures going { (g : FileKey) → is_going self.new g → is_going self.old g }
        ensures time { Elapses (moment self.old) (moment self.new) (left_since self.old) (left_since self.new) (may_leave self.new) }
        ensures cause { HasCause (faults self.old) (faults self.new) result };

    /// Keeps what was written to a file, or its removal: after Ok a crash leaves of it what reads give. Takes no memory.
    fn sync(&mut self, file: FileKey) -> Result<(), StoreFault>
        requires { IsKey file }
        ensures durable { OnOk result (IfSome (told self.old) (λ fs. (c : Contents) → may_leave self.new c → c file ≡ fs file)) }
        ensures told { told self.new ≡ told self.old }
        ensures crash { (c : Contents) → may_leave self.new c → may_leave self.old c }
        ensures going { (g : FileKey) → is_going self.new g → is_going self.old g }
        ensures gone { OnOk result (is_going self.new file → ⊥) }
        ensures time { Elapses (moment self.old) (moment self.new) (left_since self.old) (left_since self.new) (may_leave self.new) }
        ensures cause { HasCause (faults self.old) (faults self.new) result };

    /// Removes a file: after Ok it has length 0. Until its next sync a crash leaves it as it was or empty. After a fault it
    /// is as it was or empty. Takes no memory.
    fn remove(&mut self, file: FileKey) -> Result<(), StoreFault>
        requires { IsKey file }
        ensures tells { is_some (told self.new) ≡ is_some (told self.old) }
        ensures removed { OnOk result (RemovedIn file (told self.old) (told self.new)) }
        ensures emptied { EmptiedTold file (told self.old) (told self.new) }
        ensures crash { Follows (EmptiedIn file) (may_leave self.old) (may_leave self.new) }
        ensures going { (g : FileKey) → is_going self.new g → (g ≡ file) ⊎ is_going self.old g }
        ensures time { Elapses (moment self.old) (moment self.new) (left_since self.old) (left_since self.new) (may_leave self.new) }
        ensures cause { HasCause (faults self.old) (faults self.new) result };

    /// A crash: afterwards reads give one of the things that a crash might have left, and a crash leaves just this.
    /// Which one, the files and `choice` determine. Takes no memory.
    fn cut(&mut self, choice: u32) -> Result<(), StoreFault>
        ensures tells { is_some (told self.new) ≡ is_some (told self.old) }
        ensures chosen { OnOk result (told self.new ≡ cuts self.old choice) }
        ensures cut { OnOk result (IfSome (told self.new) (λ fs. may_leave self.old fs)) }
        ensures durable { OnOk result (IfSome (told self.new) (λ fs. Only fs (may_leave self.new))) }
        ensures crash { (c : Contents) → may_leave self.new c → may_leave self.old c }
        ensures going { (g : FileKey) → is_going self.new g → is_going self.old g }
        ensures gone { OnOk result ((g : FileKey) → is_going self.new g → ⊥) }
        ensures time { Elapses (moment self.old) (moment self.new) (left_since self.old) (left_since self.new) (may_leave self.new) }
        ensures cause { HasCause (faults self.old) (faults self.new) result };

    /// The files as they read are one of the things that a crash may leave.
    ghost reads_now: { (s : Self) → IfSome (told s) (λ fs. may_leave s fs) };

    /// What a crash leaves of a file that isn't going is never longer than the file is now.
    ghost no_longer: { (s : Self) → IfSome (told s) (λ fs. (c : Contents) → may_leave s c → (f : FileKey) → (is_going s f → ⊥) → length (c f) ≤ length (fs f)) };

    /// What a cut makes of the files is told exactly where it is told what reads give.
    ghost tells_cuts: { (s : Self) (choice : ℕ) → is_some (cuts s choice) ≡ is_some (told s) };

    /// What a cut makes of the files is one of the things that a crash may leave.
    ghost cuts_leave: { (s : Self) (choice : ℕ) → IfSome (cuts s choice) (λ fs. may_leave s fs) };

    /// This moment is one of those since an earlier one.
    ghost counts_now: { (s : Self) (t : ℕ) (c : Contents) → t ≤ moment s → may_leave s c → left_since s t c };

    /// Since this moment there is no other.
    ghost only_now: { (s : Self) (c : Contents) → left_since s (moment s) c → may_leave s c };
}
