//! Reads of a log in segments.
ghost use Rattle.std.specs.Prelude.{◌≡◌, ◌⊎◌, true, false, ◌≤◌, ◌<◌, ◌+◌, ◌-◌, List, ◌++◌, length, take, drop, min, IfOk, OnOk, IfSome};
ghost use Rattle.dali_store.specs.Faults.{HasCause};
ghost use Rattle.dali_store.specs.Store.{ReadsAt};
ghost use Rattle.dali_segments.specs.Quiet.{IsQuiet};
ghost use Rattle.dali_segments.specs.Segments.{mark, piece, log_of, EndsIn};

use dali_files::{FileKey, Files};
use dali_store::StoreFault;

/// Reads from one segment, where so many above the first one read as 00.
pub fn read_segment<F: Files>(
    files: &mut F,
    size: u64,
    dropped: u32,
    number: u32,
    at: u64,
    into: &mut [u8],
) -> Result<usize, StoreFault>
    requires number { number < 4095 }
    requires inside { at + length into.old ≤ size }
    ensures quiet { IsQuiet (F.told files.old) (F.told files.new) (F.may_leave files.old) (F.may_leave files.new) (F.is_going files.old) (F.is_going files.new) (F.moment files.old) (F.moment files.new) (F.left_since files.old) (F.left_since files.new) }
    ensures count { IfOk result (λ n. n ≤ length into.old) }
    ensures bytes { IfOk result (λ n. IfSome (F.told files.old) (λ fs. length (fs mark) ≡ dropped → ReadsAt (piece size fs number) at into.old n into.new)) }
    ensures cause { HasCause (F.faults files.old) (F.faults files.new) result }
{
    if number > 0 && number <= dropped {
        into.fill(0);
        return Ok(into.len());
    }
    files.read_at(FileKey::Segment { number }, at, into)
}

// Reads what one segment has of a part of a buffer.
fn read_part<F: Files>(
    files: &mut F,
    size: u64,
    dropped: u32,
    number: u32,
    at: u64,
    into: &mut [u8],
    from: usize,
    count: usize,
) -> Result<usize, StoreFault>
    requires number { number < 4095 }
    requires inside { (at + count ≤ size) × (from + count ≤ length into.old) }
    ensures quiet { IsQuiet (F.told files.old) (F.told files.new) (F.may_leave files.old) (F.may_leave files.new) (F.is_going files.old) (F.is_going files.new) (F.moment files.old) (F.moment files.new) (F.left_since files.old) (F.left_since files.new) }
    ensures count { IfOk result (λ n. n ≤ count) }
    ensures bytes { IfOk result (λ n. IfSome (F.told files.old) (λ fs. length (fs mark) ≡ dropped → (n ≡ min count (length (piece size fs number) - at)) × (into.new ≡ take from into.old ++ take n (drop at (piece size fs number)) ++ drop (from + n) into.old))) }
    ensures length { length into.new ≡ length into.old }
    ensures cause { HasCause (F.faults files.old) (F.faults files.new) result }
{
    let more = read_segment(
        files,
        size,
        dropped,
        number,
        at,
        &mut into[from..from + count],
    )?;
    Ok(more)
}

// Whether a part gave less than was asked, or nothing more was asked.
fn is_end(more: usize, most: usize, count: usize, room: usize) -> bool
    ensures goes_on { result ≡ false → (most ≤ more) × (count < room) }
    ensures ends { result ≡ true → (more < most) ⊎ (room ≤ count) }
{
    more < most || count >= room
}

/// Reads from a log that ends in segment `last`, where so many above the first one read as 00.
pub fn read_log<F: Files>(
    files: &mut F,
    size: u64,
    last: u32,
    dropped: u32,
    at: u64,
    into: &mut [u8],
) -> Result<usize, StoreFault>
    requires { (64 ≤ size) × (last < 4095) }
    ensures quiet { IsQuiet (F.told files.old) (F.told files.new) (F.may_leave files.old) (F.may_leave files.new) (F.is_going files.old) (F.is_going files.new) (F.moment files.old) (F.moment files.new) (F.left_since files.old) (F.left_since files.new) }
    ensures count { IfOk result (λ n. n ≤ length into.old) }
    ensures bytes { IfOk result (λ n. IfSome (F.told files.old) (λ fs. EndsIn size last dropped fs → ReadsAt (log_of size fs) at into.old n into.new)) }
    ensures cause { HasCause (F.faults files.old) (F.faults files.new) result }
{
    let first = at / size;
    if first > last as u64 {
        return Ok(0);
    }
    let mut offset = at % size;
    let mut count = 0;
    for number in first as u32..last + 1 {
        let most = ((into.len() - count) as u64).min(size - offset) as usize;
        let more = read_part(files, size, dropped, number, offset, into, count, most)?;
        count += more;
        offset = 0;
        if is_end(more, most, count, into.len()) {
            return Ok(count);
        }
    }
    Ok(count)
}
