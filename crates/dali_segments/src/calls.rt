//! Several calls on the files, one after another.
ghost use Rattle.std.specs.Prelude.{◌≡◌, ◌≤◌, ◌<◌, ℕ, ◌+◌, length, take, drop, OnOk, IfSome};
ghost use Rattle.dali_segments.specs.Segments.{mark};
ghost use Rattle.dali_store.specs.Faults.{HasCause};
ghost use Rattle.dali_files.specs.Files.{Contents};
ghost use Rattle.dali_files.specs.declared.key.FileKey.TheVariants.{Segment};
ghost use Rattle.dali_segments.specs.Clears.{Clears, AreGone};
ghost use Rattle.dali_segments.specs.Drops.{Drops, AreMarked};
ghost use Rattle.dali_segments.specs.Quiet.{IsQuiet};

use dali_files::{FileKey, Files, SEGMENTS};
use dali_store::StoreFault;

/// The file whose length is how many segments, from 1 on, are dropped.
pub const MARK: FileKey = FileKey::Segment {
    number: SEGMENTS - 1,
};

/// The segments of a log have numbers below this one.
pub const LIMIT: u32 = SEGMENTS - 1;

/// Keeps what was written to the segments from one number on and below another one.
pub fn sync_segments<F: Files>(files: &mut F, from: u32, below: u32) -> Result<(), StoreFault>
    requires { below ≤ 4096 }
    ensures quiet { IsQuiet (F.told files.old) (F.told files.new) (F.may_leave files.old) (F.may_leave files.new) (F.is_going files.old) (F.is_going files.new) (F.moment files.old) (F.moment files.new) (F.left_since files.old) (F.left_since files.new) }
    ensures durable { OnOk result (IfSome (F.told files.old) (λ fs. (c : Contents) → F.may_leave files.new c → (n : ℕ) → from ≤ n → n < below → c (Segment n) ≡ fs (Segment n))) }
    ensures cause { HasCause (F.faults files.old) (F.faults files.new) result }
{
    for number in from..below {
        files.sync(FileKey::Segment { number })?;
    }
    Ok(())
}

/// Removes the segments from one number on and below another one, and keeps that.
pub fn clear<F: Files>(files: &mut F, from: u32, below: u32) -> Result<(), StoreFault>
    requires { below ≤ 4096 }
    ensures clears { Clears from below (F.told files.old) (F.told files.new) (F.may_leave files.old) (F.may_leave files.new) (F.is_going files.old) (F.is_going files.new) (F.moment files.old) (F.moment files.new) (F.left_since files.old) (F.left_since files.new) }
    ensures gone { OnOk result (AreGone from below (F.told files.new) (F.may_leave files.new) (F.is_going files.new)) }
    ensures cause { HasCause (F.faults files.old) (F.faults files.new) result }
{
    for number in from..below {
        let file = FileKey::Segment { number };
        files.remove(file)?;
        files.sync(file)?;
    }
    Ok(())
}

/// Says that the segments above the first of these numbers, up to the other one, are dropped too, and removes them: the
/// mark is written and synced first, and from then on they count for nothing.
pub fn drop_segments<F: Files>(files: &mut F, from: u32, to: u32) -> Result<(), StoreFault>
    requires numbers { (from < to) × (to < 4095) }
    requires marked { IfSome (F.told files.old) (λ fs. length (fs mark) ≡ from) }
    requires left { IfSome (F.told files.old) (λ fs. (c : Contents) → F.may_leave files.old c → length (c mark) ≡ from) }
    ensures drops { Drops from to (F.told files.old) (F.told files.new) (F.may_leave files.old) (F.may_leave files.new) (F.is_going files.old) (F.is_going files.new) (F.moment files.old) (F.moment files.new) (F.left_since files.old) (F.left_since files.new) }
    ensures done { OnOk result (AreMarked to (F.told files.new) (F.may_leave files.new)) }
    ensures cause { HasCause (F.faults files.old) (F.faults files.new) result }
{
    let zeros = [0; LIMIT as usize];
    let bytes = part_of(&zeros, 0, (to - from) as usize);
    files.write_at(MARK, from as u64, bytes)?;
    files.sync(MARK)?;
    clear(files, from + 1, to + 1)?;
    Ok(())
}

/// So many bytes from a place on.
pub fn part_of(bytes: &[u8], at: usize, count: usize) -> &[u8]
    requires { at + count ≤ length bytes.now }
    ensures part { result.now ≡ take count (drop at bytes.now) }
    ensures length { length result.now ≡ count }
{
    &bytes[at..at + count]
}
