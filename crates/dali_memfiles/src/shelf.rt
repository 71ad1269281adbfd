//! All files, each at its number: 0 is the log's first segment, 1 and 2 are the images, 3 is the anchor, and 4 and a number
//! is any other segment.
ghost use Rattle.std.specs.Prelude.{◌≡◌, ◌≤◌, ◌<◌, length, OnOk, OnErr};
ghost use Rattle.dali_memfiles.specs.Held.{no_file, held_wrote, held_kept, held_removed, held_cut};
ghost use Rattle.dali_memfiles.specs.Shelf.{number_of, reads, with_file};

use crate::held::Held;
use dali_files::FileKey;
use std::alloc::{AllocError, Global};

/// The number of a file.
pub fn number_of(file: FileKey) -> usize
    ensures { result ≡ number_of file }
{
    match file {
        FileKey::ImageA => 1,
        FileKey::ImageB => 2,
        FileKey::Anchor => 3,
        FileKey::Segment { number: 0 } => 0,
        FileKey::Segment { number } => number as usize + 4,
    }
}

// Adds files that aren't there, up to a number.
fn grow(files: &mut Vec<Held>, alloc: Global, number: usize) -> Result<(), AllocError>
    ensures long { OnOk result (number < length files.new.items) }
    ensures same { reads files.new.items ≡ reads files.old.items }
{
    while files.len() <= number {
        files.push(Held::new(alloc))?;
    }
    Ok(())
}

/// What reads of a file give.
pub fn bytes_of(files: &[Held], number: usize) -> &[u8]
    ensures { result.now ≡ (reads files.now number).file.seen }
{
    match files.get(number) {
        Some(held) => held.bytes(),
        None => &[],
    }
}

/// Writes to a file. Each file reads as before where memory is refused.
pub fn write_to(
    files: &mut Vec<Held>,
    alloc: Global,
    number: usize,
    at: usize,
    bytes: &[u8],
) -> Result<(), AllocError>
    requires { at ≤ length (reads files.old.items number).file.seen }
    ensures ok { OnOk result (reads files.new.items ≡ with_file number (held_wrote at bytes.now (reads files.old.items number)) (reads files.old.items)) }
    ensures err { OnErr result (reads files.new.items ≡ reads files.old.items) }
{
    grow(files, alloc, number)?;
    files[number].write(alloc, at, bytes)
}

/// Keeps what was written to a file, or its removal.
pub fn sync_of(files: &mut [Held], number: usize)
    ensures size { length files.new ≡ length files.old }
    ensures reads { reads files.new ≡ with_file number (held_kept (reads files.old number)) (reads files.old) }
{
    if number < files.len() {
        files[number].sync();
    }
}

/// Removes a file.
pub fn remove_of(files: &mut [Held], alloc: Global, number: usize)
    requires { number < length files.old }
    ensures size { length files.new ≡ length files.old }
    ensures reads { reads files.new ≡ with_file number (held_removed (reads files.old number)) (reads files.old) }
{
    files[number].remove(alloc);
}

/// A crash of all files.
pub fn cut_all(files: &mut [Held], choice: u32)
    ensures size { length files.new ≡ length files.old }
    ensures reads { reads files.new ≡ (λ n. held_cut choice n (reads files.old n)) }
{
    for number in 0..files.len() {
        files[number].cut(choice, number);
    }
}
