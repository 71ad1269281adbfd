//! What no clause says of the files of a store whose log is kept in segments.
ghost use Rattle.dali_files.specs.Keys.{IsKey};

mod folder;
mod memory;

use dali_files::{FileKey, Files, SEGMENTS};
use dali_store::StoreFault;

// The same file, of which the prover knows that its number is a segment's.
fn checked(file: FileKey) -> FileKey
    ensures { IsKey result }
{
    match file {
        FileKey::Segment { number } => FileKey::Segment {
            number: number % SEGMENTS,
        },
        other => other,
    }
}

// Writes at the front of a file, and keeps it.
fn fill<F: Files>(files: &mut F, file: FileKey, bytes: &[u8]) -> Result<(), StoreFault> {
    let file = checked(file);
    files.write_at(file, 0, bytes)?;
    files.sync(file)
}

// The length of a file, how many bytes a read of four gives, and these, with 99 behind them.
fn seen<F: Files>(files: &mut F, file: FileKey) -> Result<(u64, usize, [u8; 4]), StoreFault> {
    let file = checked(file);
    let mut read = [99; 4];
    let length = files.length(file)?;
    let count = files.read_at(file, 0, &mut read)?;
    Ok((length, count, read))
}

// Removes a file, and keeps that.
fn take_away<F: Files>(files: &mut F, file: FileKey) -> Result<(), StoreFault> {
    let file = checked(file);
    files.remove(file)?;
    files.sync(file)
}
