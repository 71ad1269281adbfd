//! Files in a folder of the system.
ghost use Rattle.std.specs.Prelude.{◌≡◌, Some, IfOk, IfErr};
ghost use Rattle.dali_filestore.specs.Failures.{cause_of, file_in};
ghost use Rattle.dali_filestore.specs.Folder.{path_of};
ghost use Rattle.dali_filestore.specs.Guards.{IsGuarded};
ghost use Rattle.dali_filestore.specs.Images.{is_log_missing};

use crate::failure::cause_of;
use crate::files::{failure_at, read_from};
use crate::guard::lock;
use crate::{Access, Failure, FourFiles, Guard, LockFile, Place, Streams};
use arrayvec::ArrayString;
use dali_store::FileName;
use std::fmt::Write;
use std::fs::{self, OpenFile, OpenOptions};
use std::io::{self, ErrorKind};
use std::os::fd::{AsRawFd, RawFd};
use std::os::unix::fs::FileExt;
use std::rt::Files;

// No path is longer.
pub(crate) const PATH_MAX: usize = 4096;

// The first descriptor that is no standard stream's.
pub(crate) const FIRST_FREE: RawFd = 3;

// An open gate of the anchor: a checkpoint was completed.
const OPEN_GATE: u8 = 0xA5;

/// A folder of the system, in which the files `dali.log`, `dali.a`, `dali.b` and `dali.anchor` are.
#[derive(Drop)]
pub struct Folder<'a, R: Files> {
    pub(crate) rt: &'a R,
    pub(crate) path: &'a str,
}

// The path of one of the files. It takes no memory.
fn path_in(folder: &str, file: FileName) -> io::Result<ArrayString<PATH_MAX>>
    ensures { IfOk result (λ path. path.bytes ≡ path_of folder.now file) }
{
    let mut path = ArrayString::new();
    match write!(path, "{folder}/dali.{file}") {
        Ok(()) => Ok(path),
        Err(_) => Err(io::Error::from(ErrorKind::InvalidFilename)),
    }
}

// Opens one of the files as the access says. A folder is refused, which could be opened for reading, and so is a file that
// got the descriptor of a standard stream, since what is printed there would be written into it.
fn open_in<F: OpenFile + AsRawFd + Drop, R: Files<File = F>>(
    rt: &R,
    folder: &str,
    access: Access,
    file: FileName,
) -> io::Result<F> {
    let path = path_in(folder, file)?;
    let opened = access.options().open(rt, path.as_str())?;
    if opened.metadata()?.is_dir() {
        return Err(io::Error::from(ErrorKind::IsADirectory));
    }
    if opened.as_raw_fd() < FIRST_FREE {
        return Err(io::Error::from(ErrorKind::ResourceBusy));
    }
    Ok(opened)
}

// Opens one of the files for reading and writing, and makes it where it is absent.
fn open_or_make<F: OpenFile + AsRawFd + Drop, R: Files<File = F>>(
    rt: &R,
    folder: &str,
    file: FileName,
) -> Result<F, Failure>
    ensures { IfErr result (λ failure. file_in failure ≡ Some file) }
{
    match open_in(rt, folder, Access::Writing, file) {
        Ok(opened) => Ok(opened),
        Err(error) => Err(failure_at(file, error)),
    }
}

// Opens one of the files for reading, where it is there.
fn open_if_there<F: OpenFile + AsRawFd + Drop, R: Files<File = F>>(
    rt: &R,
    folder: &str,
    file: FileName,
) -> Result<Option<F>, Failure>
    ensures { IfErr result (λ failure. file_in failure ≡ Some file) }
{
    match open_in(rt, folder, Access::Reading, file) {
        Ok(opened) => Ok(Some(opened)),
        Err(error) if error.kind() == ErrorKind::NotFound => Ok(None),
        Err(error) => Err(failure_at(file, error)),
    }
}

// Opens the null device, and keeps it where it got a descriptor below this one.
fn hold<R: Files>(rt: &R, how: &OpenOptions, below: RawFd) -> Option<R::File>
where
    R::File: AsRawFd,
{
    match how.open(rt, "/dev/null") {
        Ok(null) if null.as_raw_fd() < below => Some(null),
        _ => None,
    }
}

// The null device in place of each standard stream that is closed, so that reading from and writing to them still fails.
fn hold_streams<R: Files>(rt: &R) -> Streams<R::File>
where
    R::File: AsRawFd,
{
    let mut writing = OpenOptions::new();
    writing.write(true);
    let mut reading = OpenOptions::new();
    reading.read(true);
    let input = hold(rt, &writing, 1);
    let output = hold(rt, &reading, FIRST_FREE);
    let error = hold(rt, &reading, FIRST_FREE);
    Streams {
        input,
        output,
        error,
    }
}

// Looks whether the folder is there, since an absent file counts as empty only in a folder.
fn find_folder<R: Files>(rt: &R, folder: &str) -> Result<(), Failure> {
    match fs::metadata(rt, folder) {
        Ok(_) => Ok(()),
        Err(error) => Err(failure_of_folder(error)),
    }
}

// Makes it last that the files stand in the folder.
pub(crate) fn sync_folder<R: Files>(rt: &R, folder: &str) -> Result<(), Failure> {
    match fs::open(rt, folder) {
        Ok(opened) => match opened.sync_all() {
            Ok(()) => Ok(()),
            Err(error) => Err(failure_of_folder(error)),
        },
        Err(error) => Err(failure_of_folder(error)),
    }
}

// The failure that an error at the folder is.
fn failure_of_folder(error: io::Error) -> Failure
    ensures { result ≡ Failure.Folder (cause_of error) }
{
    Failure::Folder {
        cause: cause_of(&error),
    }
}

// Locks the anchor's file for reading, where it is there.
fn lock_if_there<F: LockFile>(anchor: &Option<F>) -> Result<Guard, Failure>
    ensures { IfOk result (λ guard. IsGuarded F.excludes F.shares F.lacks Access.Reading guard anchor.now) }
{
    match anchor {
        Some(file) => lock(file, Access::Reading),
        None => Ok(Guard::NoAnchor),
    }
}

// Looks again for an anchor's file where there was none to be locked: who made it meanwhile may write.
fn find_no_new_anchor<F: OpenFile + AsRawFd + Drop, R: Files<File = F>>(
    rt: &R,
    folder: &str,
    guard: Guard,
) -> Result<(), Failure> {
    if guard == Guard::NoAnchor && open_if_there(rt, folder, FileName::Anchor)?.is_some() {
        return Err(Failure::InUse);
    }
    Ok(())
}

// The length of a file that may be absent.
fn length_in<R: Files>(rt: &R, folder: &str, file: FileName) -> Result<u64, Failure> {
    match path_in(folder, file) {
        Ok(path) => match fs::metadata(rt, path.as_str()) {
            Ok(metadata) => Ok(metadata.len()),
            Err(error) if error.kind() == ErrorKind::NotFound => Ok(0),
            Err(error) => Err(failure_at(file, error)),
        },
        Err(error) => Err(failure_at(file, error)),
    }
}

// Whether the anchor's first gate is open.
fn has_open_gate<F: FileExt>(anchor: &F) -> Result<bool, Failure> {
    let mut gate = [0];
    match read_from(anchor, 0, &mut gate) {
        Ok(_) => Ok(gate == [OPEN_GATE]),
        Err(error) => Err(failure_at(FileName::Anchor, error)),
    }
}

// Whether something stands without a log that no store has without one: an image of these lengths, or an open gate.
fn is_log_missing(log: u64, a: u64, b: u64, gate: bool) -> bool
    ensures { result ≡ is_log_missing log a b gate }
{
    log == 0 && (a != 0 || b != 0 || gate)
}

// Refuses a folder whose log was lost: with a new one all that the images hold would be lost too.
fn find_log<R: Files>(rt: &R, folder: &str, gate: bool) -> Result<(), Failure> {
    let log = length_in(rt, folder, FileName::Log)?;
    let a = length_in(rt, folder, FileName::ImageA)?;
    let b = length_in(rt, folder, FileName::ImageB)?;
    if is_log_missing(log, a, b, gate) {
        return Err(Failure::LogMissing);
    }
    Ok(())
}

// Opens the files for reading and writing. The lock comes before all that is read, made or written.
fn open_for_writing<F: OpenFile + FileExt + LockFile + AsRawFd + Drop, R: Files<File = F>>(
    rt: &R,
    folder: &str,
) -> Result<FourFiles<F>, Failure>
    ensures { IfOk result (λ files. IsGuarded F.excludes F.shares F.lacks Access.Writing files.guard files.anchor) }
{
    let streams = hold_streams(rt);
    find_folder(rt, folder)?;
    let anchor = open_or_make(rt, folder, FileName::Anchor)?;
    let guard = lock(&anchor, Access::Writing)?;
    let gate = has_open_gate(&anchor)?;
    find_log(rt, folder, gate)?;
    let log = open_or_make(rt, folder, FileName::Log)?;
    let a = open_or_make(rt, folder, FileName::ImageA)?;
    let b = open_or_make(rt, folder, FileName::ImageB)?;
    sync_folder(rt, folder)?;
    Ok(FourFiles {
        log: Some(log),
        a: Some(a),
        b: Some(b),
        anchor: Some(anchor),
        guard,
        streams,
    })
}

// Opens the files for reading, those that are there. Where no anchor's file is found, no writer had begun.
fn open_for_reading<F: OpenFile + FileExt + LockFile + AsRawFd + Drop, R: Files<File = F>>(
    rt: &R,
    folder: &str,
) -> Result<FourFiles<F>, Failure>
    ensures { IfOk result (λ files. IsGuarded F.excludes F.shares F.lacks Access.Reading files.guard files.anchor) }
{
    let streams = hold_streams(rt);
    find_folder(rt, folder)?;
    let anchor = open_if_there(rt, folder, FileName::Anchor)?;
    let guard = lock_if_there(&anchor)?;
    let log = open_if_there(rt, folder, FileName::Log)?;
    let a = open_if_there(rt, folder, FileName::ImageA)?;
    let b = open_if_there(rt, folder, FileName::ImageB)?;
    find_no_new_anchor(rt, folder, guard)?;
    Ok(FourFiles {
        log,
        a,
        b,
        anchor,
        guard,
        streams,
    })
}

impl<'a, F: OpenFile + FileExt + LockFile + AsRawFd + Drop, R: Files<File = F>> Place<F>
    for Folder<'a, R> {
    /// Before a file is opened, the null device takes the descriptors of standard streams that are closed, so that
    /// reading from and writing to them still fails.
    fn open(&self, access: Access) -> Result<FourFiles<F>, Failure> {
        match access {
            Access::Writing => open_for_writing(self.rt, self.path),
            Access::Reading => open_for_reading(self.rt, self.path),
        }
    }
}
