//! The segments of a log, all but the first, in a folder of the system.
ghost use Rattle.std.specs.Prelude.{◌≡◌, Some, IfOk, IfErr};
ghost use Rattle.dali_filestore.specs.Failures.{cause_of, segment_in};
ghost use Rattle.dali_filestore.specs.Segments.{segment_path};

use crate::failure::cause_of;
use crate::folder::{FIRST_FREE, PATH_MAX, sync_folder};
use crate::{Access, Failure, Folder, LockFile, Place};
use arrayvec::ArrayString;
use std::fmt::Write;
use std::fs::{self, OpenFile, OpenOptions};
use std::io::{self, ErrorKind};
use std::os::fd::AsRawFd;
use std::os::unix::fs::FileExt;
use std::rt::Files as System;

/// Where the files of a store are whose log is kept in segments: the first segment is the log's file of a [`Place`].
pub trait SegmentPlace<F: OpenFile + FileExt + LockFile + Drop>: Place<F> {
    /// Opens a segment as the access says, where it is there. Takes no memory.
    fn find(&self, access: Access, number: u32) -> Result<Option<F>, Failure>
        ensures { IfErr result (λ failure. segment_in failure ≡ Some number) };

    /// Makes a segment, and opens it for reading and writing. Takes no memory.
    fn make(&self, number: u32) -> Result<F, Failure>
        ensures { IfErr result (λ failure. segment_in failure ≡ Some number) };

    /// Removes a segment. One that is absent is gone already. Takes no memory.
    fn remove(&self, number: u32) -> Result<(), Failure>
        ensures { IfErr result (λ failure. segment_in failure ≡ Some number) };

    /// Makes it last which files stand in the folder. Takes no memory.
    fn sync_folder(&self) -> Result<(), Failure>;
}

// The failure that an error at a segment is.
pub(crate) fn failure_of_segment(number: u32, error: io::Error) -> Failure
    ensures { result ≡ Failure.Segment number (cause_of error) }
{
    Failure::Segment {
        number,
        cause: cause_of(&error),
    }
}

// The path of a segment. It takes no memory.
fn segment_path(folder: &str, number: u32) -> io::Result<ArrayString<PATH_MAX>>
    ensures { IfOk result (λ path. path.bytes ≡ segment_path folder.now number) }
{
    let mut path = ArrayString::new();
    match write!(path, "{folder}/dali.log.{number}") {
        Ok(()) => Ok(path),
        Err(_) => Err(io::Error::from(ErrorKind::InvalidFilename)),
    }
}

// How a segment is opened: one that is absent is made only where it is to be.
fn options_to(access: Access, make: bool) -> OpenOptions {
    let mut options = OpenOptions::new();
    options.read(true);
    if access == Access::Writing {
        options.write(true);
        options.create(make);
    }
    options
}

// Opens a segment. A folder is refused, which could be opened for reading, and so is a file that got the descriptor of a
// standard stream, since what is printed there would be written into it.
fn open_segment<F: OpenFile + AsRawFd + Drop, R: System<File = F>>(
    rt: &R,
    folder: &str,
    number: u32,
    options: &OpenOptions,
) -> io::Result<F> {
    let path = segment_path(folder, number)?;
    let opened = options.open(rt, path.as_str())?;
    if opened.metadata()?.is_dir() {
        return Err(io::Error::from(ErrorKind::IsADirectory));
    }
    if opened.as_raw_fd() < FIRST_FREE {
        return Err(io::Error::from(ErrorKind::ResourceBusy));
    }
    Ok(opened)
}

fn remove_segment<R: System>(rt: &R, folder: &str, number: u32) -> io::Result<()> {
    let path = segment_path(folder, number)?;
    match fs::remove_file(rt, path.as_str()) {
        Err(error) if error.kind() == ErrorKind::NotFound => Ok(()),
        removed => removed,
    }
}

impl<'a, F: OpenFile + FileExt + LockFile + AsRawFd + Drop, R: System<File = F>> SegmentPlace<F>
    for Folder<'a, R> {
    fn find(&self, access: Access, number: u32) -> Result<Option<F>, Failure> {
        match open_segment(self.rt, self.path, number, &options_to(access, false)) {
            Ok(opened) => Ok(Some(opened)),
            Err(error) if error.kind() == ErrorKind::NotFound => Ok(None),
            Err(error) => Err(failure_of_segment(number, error)),
        }
    }

    fn make(&self, number: u32) -> Result<F, Failure> {
        match open_segment(
            self.rt,
            self.path,
            number,
            &options_to(Access::Writing, true),
        ) {
            Ok(opened) => Ok(opened),
            Err(error) => Err(failure_of_segment(number, error)),
        }
    }

    fn remove(&self, number: u32) -> Result<(), Failure> {
        match remove_segment(self.rt, self.path, number) {
            Ok(()) => Ok(()),
            Err(error) => Err(failure_of_segment(number, error)),
        }
    }

    fn sync_folder(&self) -> Result<(), Failure> {
        sync_folder(self.rt, self.path)
    }
}
