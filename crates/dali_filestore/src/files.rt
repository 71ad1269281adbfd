//! The four files, opened, and the calls on them.
ghost use Rattle.std.specs.Prelude.{◌≡◌, ◌≤◌, ◌<◌, ◌^◌, length, Some, Ok, IfOk, IfErr, IsNone, IsErr, is_some};
ghost use Rattle.dali_filestore.specs.Failures.{cause_of, file_in};
ghost use Rattle.dali_filestore.specs.Folder.{opened};

use crate::failure::cause_of;
use crate::{Cause, Failure, Guard};
use dali_store::FileName;
use std::fs::OpenFile;
use std::io::{self, ErrorKind};
use std::os::unix::fs::FileExt;

// A length of this and more counts as a fault.
const LIMIT: u64 = 1 << 62;

/// What holds the descriptors of standard streams that were closed.
#[derive(Drop)]
pub struct Streams<F: Drop> {
    /// In place of standard input.
    pub input: Option<F>,
    /// In place of standard output.
    pub output: Option<F>,
    /// In place of standard error.
    pub error: Option<F>,
}

/// The four files of a store, opened. Where one is None, it is absent and counts as empty.
#[derive(Drop)]
pub struct FourFiles<F: OpenFile + FileExt + Drop> {
    /// The log.
    pub log: Option<F>,
    /// The image of odd checkpoints.
    pub a: Option<F>,
    /// The image of even checkpoints.
    pub b: Option<F>,
    /// The anchor, on which the lock is.
    pub anchor: Option<F>,
    /// What keeps other programs away.
    pub guard: Guard,
    /// What the standard streams that were closed are now.
    pub streams: Streams<F>,
}

// The failure that an error at a file is.
pub(crate) fn failure_at(file: FileName, error: io::Error) -> Failure
    ensures { result ≡ Failure.File file (cause_of error) }
{
    Failure::File {
        file,
        cause: cause_of(&error),
    }
}

// The length of a file, if it is below the limit.
pub(crate) fn length_of<F: OpenFile>(file: &F) -> io::Result<u64>
    ensures { IfOk result (λ n. n < 2 ^ 62) }
{
    let length = file.metadata()?.len();
    if length >= LIMIT {
        return Err(io::Error::from(ErrorKind::FileTooLarge));
    }
    Ok(length)
}

// Fills the buffer from a place on, up to the end of the file.
pub(crate) fn read_from<F: FileExt>(file: &F, at: u64, into: &mut [u8]) -> io::Result<usize>
    ensures { IfOk result (λ n. n ≤ length into.old) }
{
    let mut count = 0;
    for _ in 0..u64::MAX {
        // A full buffer needs no further call to see the end.
        if count == into.len() {
            return Ok(count);
        }
        let place = at.saturating_add(count as u64);
        match file.read_at(&mut into[count..], place) {
            Ok(0) => return Ok(count),
            Ok(more) => count += more,
            Err(error) if error.kind() == ErrorKind::Interrupted => {}
            Err(error) => return Err(error),
        }
    }
    Err(io::Error::from(ErrorKind::TimedOut))
}

impl<F: OpenFile + FileExt + Drop> FourFiles<F> {
    fn file(&self, file: FileName) -> Option<&F>
        ensures { is_some result ≡ is_some (opened file self.now) }
    {
        match file {
            FileName::Log => self.log.as_ref(),
            FileName::ImageA => self.a.as_ref(),
            FileName::ImageB => self.b.as_ref(),
            FileName::Anchor => self.anchor.as_ref(),
        }
    }

    // The length of a file; a failure where it is 2^62 or more.
    pub(crate) fn length(&self, file: FileName) -> Result<u64, Failure>
        ensures bound { IfOk result (λ n. n < 2 ^ 62) }
        ensures absent { IsNone (opened file self.now) → result ≡ Ok 0 }
        ensures named { IfErr result (λ failure. file_in failure ≡ Some file) }
    {
        let Some(found) = self.file(file) else {
            return Ok(0);
        };
        match length_of(found) {
            Ok(length) => Ok(length),
            Err(error) => Err(failure_at(file, error)),
        }
    }

    // Fills the buffer from a place of a file on, up to its end.
    pub(crate) fn read_at(&self, file: FileName, at: u64, into: &mut [u8]) -> Result<usize, Failure>
        ensures count { IfOk result (λ n. n ≤ length into.old) }
        ensures absent { IsNone (opened file self.now) → result ≡ Ok 0 }
        ensures named { IfErr result (λ failure. file_in failure ≡ Some file) }
    {
        let Some(found) = self.file(file) else {
            return Ok(0);
        };
        match read_from(found, at, into) {
            Ok(count) => Ok(count),
            Err(error) => Err(failure_at(file, error)),
        }
    }

    // Writes all the bytes at a place of a file.
    pub(crate) fn write_at(&self, file: FileName, at: u64, bytes: &[u8]) -> Result<(), Failure>
        ensures absent { IsNone (opened file self.now) → IsErr result }
        ensures named { IfErr result (λ failure. file_in failure ≡ Some file) }
    {
        let Some(found) = self.file(file) else {
            return Err(absent(file));
        };
        match found.write_all_at(bytes, at) {
            Ok(()) => Ok(()),
            Err(error) => Err(failure_at(file, error)),
        }
    }

    // Makes the bytes and the length of a file last, and no time of it.
    pub(crate) fn sync(&self, file: FileName) -> Result<(), Failure>
        ensures absent { IsNone (opened file self.now) → IsErr result }
        ensures named { IfErr result (λ failure. file_in failure ≡ Some file) }
    {
        let Some(found) = self.file(file) else {
            return Err(absent(file));
        };
        match found.sync_data() {
            Ok(()) => Ok(()),
            Err(error) => Err(failure_at(file, error)),
        }
    }

    // Cuts the length of a file to 0.
    pub(crate) fn empty(&self, file: FileName) -> Result<(), Failure>
        ensures absent { IsNone (opened file self.now) → IsErr result }
        ensures named { IfErr result (λ failure. file_in failure ≡ Some file) }
    {
        let Some(found) = self.file(file) else {
            return Err(absent(file));
        };
        match found.set_len(0) {
            Ok(()) => Ok(()),
            Err(error) => Err(failure_at(file, error)),
        }
    }
}

// The failure where a file isn't there to be written.
fn absent(file: FileName) -> Failure
    ensures { result ≡ Failure.File file Cause.NotFound }
{
    Failure::File {
        file,
        cause: Cause::NotFound,
    }
}
