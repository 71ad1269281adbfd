//! The edge to the outside for a log in segments: what real files hold is known to no clause, so these tell no contents.
ghost use Rattle.std.specs.Prelude.{◌≡◌, ◌≤◌, ◌<◌, ◌^◌, length, Ok, Err, Some, None, IfOk, IfErr, OnOk, IsErr, true};
ghost use Rattle.dali_store.specs.Faults.{one_more};
ghost use Rattle.dali_filestore.specs.Segments.{faults_of, failure_of, access_of, has_no_locks, IsCounted, IsSameBut};

use crate::files::{length_of, read_from};
use crate::segments::failure_of_segment;
use crate::{Access, Cause, Failure, Folder, FourFiles, LockFile, SegmentPlace};
use dali_files::{FileKey, Files};
use dali_store::{FileName, StoreFault};
use std::fs::OpenFile;
use std::io;
use std::os::fd::AsRawFd;
use std::os::unix::fs::FileExt;
use std::rt::Files as System;

// The segment that was used last, opened.
#[derive(Drop)]
struct OpenSegment<F: Drop> {
    number: u32,
    file: F,
}

// Which of the files that are open from the first call on, or which segment.
#[derive(Clone, Copy)]
enum Part {
    Fixed(FileName),
    Segment(u32),
}

fn part_of(file: FileKey) -> Part {
    match file {
        FileKey::ImageA => Part::Fixed(FileName::ImageA),
        FileKey::ImageB => Part::Fixed(FileName::ImageB),
        FileKey::Anchor => Part::Fixed(FileName::Anchor),
        FileKey::Segment { number: 0 } => Part::Fixed(FileName::Log),
        FileKey::Segment { number } => Part::Segment(number),
    }
}

// What came of a call on a segment.
fn at_segment<T>(number: u32, outcome: io::Result<T>) -> Result<T, Failure>
    ensures { IfOk result (λ x. outcome ≡ Ok x) }
{
    match outcome {
        Ok(value) => Ok(value),
        Err(error) => Err(failure_of_segment(number, error)),
    }
}

/// The files of a folder whose log is kept in segments: `dali.a`, `dali.b`, `dali.anchor`, `dali.log` for segment 0 and
/// `dali.log.1`, `dali.log.2` and so on. The first call opens the first four as [`FileStore`](crate::FileStore) does, with
/// the lock on the anchor's file; a segment is opened when it is used, and made when it is first written.
///
/// Each call that fails counts one fault and tells why; while the files can't be opened each call fails, and the next one
/// tries again. For reading, nothing is made, removed or changed, and an absent file counts as empty. A segment is removed
/// with its file, any other file by cutting its length to 0. A sync of a segment makes its name or its removal last too. A
/// cut does nothing but open the files, since a crash of the machine is what cuts real files. No call takes memory.
#[derive(Drop)]
pub struct FolderFiles<F: OpenFile + FileExt + LockFile + Drop, P: SegmentPlace<F> + Drop> {
    place: P,
    access: Access,
    files: Option<FourFiles<F>>,
    segment: Option<OpenSegment<F>>,
    unsynced: bool,
    faults: u64,
    failure: Option<Failure>,
}

impl<'a, F: OpenFile + FileExt + LockFile + AsRawFd + Drop, R: System<File = F>> FolderFiles<
    F,
    Folder<'a, R>,
> {
    /// The files of this folder, for writing. Takes no memory.
    pub fn in_folder(rt: &'a R, path: &'a str) -> Self
        ensures faults { faults_of result ≡ 0 }
        ensures failure { failure_of result ≡ None }
        ensures access { access_of result ≡ Access.Writing }
    {
        FolderFiles::over(Folder { rt, path }, Access::Writing)
    }

    /// The files of this folder, for reading. Takes no memory.
    pub fn reading_folder(rt: &'a R, path: &'a str) -> Self
        ensures faults { faults_of result ≡ 0 }
        ensures failure { failure_of result ≡ None }
        ensures access { access_of result ≡ Access.Reading }
    {
        FolderFiles::over(Folder { rt, path }, Access::Reading)
    }
}

impl<F: OpenFile + FileExt + LockFile + Drop, P: SegmentPlace<F> + Drop> FolderFiles<F, P> {
    /// The files of this place. Takes no memory.
    pub fn over(place: P, access: Access) -> Self
        ensures faults { faults_of result ≡ 0 }
        ensures failure { failure_of result ≡ None }
        ensures access { access_of result ≡ access }
    {
        FolderFiles {
            place,
            access,
            files: None,
            segment: None,
            unsynced: false,
            faults: 0,
            failure: None,
        }
    }

    /// What may be done with the files.
    pub fn access(&self) -> Access
        ensures { result ≡ access_of self.now }
    {
        self.access
    }

    /// Why the last of the calls that failed has failed. None where none has. Takes no memory.
    pub fn failure(&self) -> Option<Failure>
        ensures { result ≡ failure_of self.now }
    {
        self.failure
    }

    /// Whether the files are open on a file system that has no locks, so that nothing keeps a second program away.
    pub fn has_no_locks(&self) -> bool
        ensures { result ≡ has_no_locks self.now }
    {
        match &self.files {
            Some(files) => files.guard.is_no_locks(),
            None => false,
        }
    }

    // Opens the files that are open from the first call on.
    fn open(&mut self) -> Result<(), Failure>
        ensures { IsSameBut self.old self.new }
    {
        if self.files.is_none() {
            let files = self.place.open(self.access)?;
            self.files = Some(files);
        }
        Ok(())
    }

    // The files that are open from the first call on.
    fn opened(&self) -> Result<&FourFiles<F>, Failure> {
        match &self.files {
            Some(files) => Ok(files),
            None => Err(Failure::Folder {
                cause: Cause::NotFound,
            }),
        }
    }

    // Opens a segment, where it is there and isn't open.
    fn look(&mut self, number: u32) -> Result<(), Failure>
        ensures { IsSameBut self.old self.new }
    {
        if self.found(number).is_none() {
            self.segment = match self.place.find(self.access, number)? {
                Some(file) => Some(OpenSegment { number, file }),
                None => None,
            };
        }
        Ok(())
    }

    // A segment, where it is open.
    fn found(&self, number: u32) -> Option<&F> {
        match &self.segment {
            Some(open) if open.number == number => Some(&open.file),
            _ => None,
        }
    }

    // Makes a segment where it is absent.
    fn make(&mut self, number: u32) -> Result<(), Failure>
        ensures { IsSameBut self.old self.new }
    {
        self.look(number)?;
        if self.found(number).is_none() {
            self.unsynced = true;
            let file = self.place.make(number)?;
            self.segment = Some(OpenSegment { number, file });
        }
        Ok(())
    }

    // Makes it last which segments there are.
    fn sync_names(&mut self) -> Result<(), Failure>
        ensures { IsSameBut self.old self.new }
    {
        if self.unsynced {
            self.place.sync_folder()?;
            self.unsynced = false;
        }
        Ok(())
    }

    fn try_length(&mut self, file: FileKey) -> Result<u64, Failure>
        ensures bound { IfOk result (λ n. n < 2 ^ 62) }
        ensures same { IsSameBut self.old self.new }
    {
        self.open()?;
        match part_of(file) {
            Part::Fixed(name) => self.opened()?.length(name),
            Part::Segment(number) => {
                self.look(number)?;
                match self.found(number) {
                    Some(found) => at_segment(number, length_of(found)),
                    None => Ok(0),
                }
            }
        }
    }

    fn try_read_at(&mut self, file: FileKey, at: u64, into: &mut [u8]) -> Result<usize, Failure>
        ensures count { IfOk result (λ n. n ≤ length into.old) }
        ensures same { IsSameBut self.old self.new }
    {
        self.open()?;
        match part_of(file) {
            Part::Fixed(name) => self.opened()?.read_at(name, at, into),
            Part::Segment(number) => {
                self.look(number)?;
                match self.found(number) {
                    Some(found) => at_segment(number, read_from(found, at, into)),
                    None => Ok(0),
                }
            }
        }
    }

    fn try_write_at(&mut self, file: FileKey, at: u64, bytes: &[u8]) -> Result<(), Failure>
        ensures reading { access_of self.old ≡ Access.Reading → result ≡ Err Failure.ReadingAlone }
        ensures same { IsSameBut self.old self.new }
    {
        if self.access == Access::Reading {
            return Err(Failure::ReadingAlone);
        }
        self.open()?;
        match part_of(file) {
            Part::Fixed(name) => self.opened()?.write_at(name, at, bytes),
            Part::Segment(number) => {
                self.make(number)?;
                match self.found(number) {
                    Some(found) => at_segment(number, found.write_all_at(bytes, at)),
                    None => Err(Failure::Segment {
                        number,
                        cause: Cause::NotFound,
                    }),
                }
            }
        }
    }

    fn try_sync(&mut self, file: FileKey) -> Result<(), Failure>
        ensures reading { access_of self.old ≡ Access.Reading → result ≡ Err Failure.ReadingAlone }
        ensures same { IsSameBut self.old self.new }
    {
        if self.access == Access::Reading {
            return Err(Failure::ReadingAlone);
        }
        self.open()?;
        match part_of(file) {
            Part::Fixed(name) => self.opened()?.sync(name),
            Part::Segment(number) => {
                self.look(number)?;
                if let Some(found) = self.found(number) {
                    at_segment(number, found.sync_data())?;
                }
                self.sync_names()
            }
        }
    }

    fn try_remove(&mut self, file: FileKey) -> Result<(), Failure>
        ensures reading { access_of self.old ≡ Access.Reading → result ≡ Err Failure.ReadingAlone }
        ensures same { IsSameBut self.old self.new }
    {
        if self.access == Access::Reading {
            return Err(Failure::ReadingAlone);
        }
        self.open()?;
        match part_of(file) {
            Part::Fixed(name) => self.opened()?.empty(name),
            Part::Segment(number) => {
                self.segment = None;
                self.unsynced = true;
                self.place.remove(number)
            }
        }
    }

    // Counts a call that failed, and keeps why.
    fn counted<T>(&mut self, outcome: Result<T, Failure>) -> Result<T, StoreFault>
        ensures value { IfOk result (λ x. outcome ≡ Ok x) }
        ensures passed { OnOk result (self.new ≡ self.old) }
        ensures told { IfErr outcome (λ why. failure_of self.new ≡ Some why) }
        ensures refused { IfErr outcome (λ why. IsErr result) }
        ensures counted { IsCounted self.old self.new result }
    {
        match outcome {
            Ok(value) => Ok(value),
            Err(why) => {
                self.faults = self.faults.saturating_add(1);
                self.failure = Some(why);
                Err(StoreFault)
            }
        }
    }

    /// The length of a file in bytes; 0 where it isn't there. A length of 2^62 or more counts as a fault. Takes no memory.
    pub fn length(&mut self, file: FileKey) -> Result<u64, StoreFault>
        ensures bound { IfOk result (λ n. n < 2 ^ 62) }
        ensures counted { IsCounted self.old self.new result }
    {
        let length = self.try_length(file);
        self.counted(length)
    }

    /// Reads from a place on into the front of a buffer, and answers how many bytes. Fewer than asked come only at the
    /// end. Takes no memory.
    pub fn read_at(&mut self, file: FileKey, at: u64, into: &mut [u8]) -> Result<usize, StoreFault>
        ensures count { IfOk result (λ n. n ≤ length into.old) }
        ensures counted { IsCounted self.old self.new result }
    {
        let count = self.try_read_at(file, at, into);
        self.counted(count)
    }

    /// Writes over what is there, and past the end. Files for reading refuse it. Takes no memory.
    pub fn write_at(&mut self, file: FileKey, at: u64, bytes: &[u8]) -> Result<(), StoreFault>
        ensures counted { IsCounted self.old self.new result }
        ensures reading { access_of self.old ≡ Access.Reading → failure_of self.new ≡ Some Failure.ReadingAlone }
        ensures refused { access_of self.old ≡ Access.Reading → IsErr result }
    {
        let written = self.try_write_at(file, at, bytes);
        self.counted(written)
    }

    /// Keeps what was written to a file, and of a segment also that it was made or removed. Files for reading refuse it.
    /// Takes no memory.
    pub fn sync(&mut self, file: FileKey) -> Result<(), StoreFault>
        ensures counted { IsCounted self.old self.new result }
        ensures reading { access_of self.old ≡ Access.Reading → failure_of self.new ≡ Some Failure.ReadingAlone }
        ensures refused { access_of self.old ≡ Access.Reading → IsErr result }
    {
        let synced = self.try_sync(file);
        self.counted(synced)
    }

    /// Removes a segment, and empties any other file. Files for reading refuse it. Takes no memory.
    pub fn remove(&mut self, file: FileKey) -> Result<(), StoreFault>
        ensures counted { IsCounted self.old self.new result }
        ensures reading { access_of self.old ≡ Access.Reading → failure_of self.new ≡ Some Failure.ReadingAlone }
        ensures refused { access_of self.old ≡ Access.Reading → IsErr result }
    {
        let removed = self.try_remove(file);
        self.counted(removed)
    }

    /// Opens the files, and does nothing more: a crash of the machine is what cuts real files. Takes no memory.
    pub fn cut(&mut self, _choice: u32) -> Result<(), StoreFault>
        ensures counted { IsCounted self.old self.new result }
    {
        let opened = self.open();
        self.counted(opened)
    }
}

impl<F: OpenFile + FileExt + LockFile + Drop, P: SegmentPlace<F> + Drop> Files
    for FolderFiles<F, P> {
    ghost use Rattle.std.specs.Prelude.{⊤, None, refl};

    ghost told = { λ s. None };

    ghost may_leave = { λ s c. ⊤ };

    ghost moment = { λ s. 0 };

    ghost left_since = { λ s t c. ⊤ };

    ghost faults = { λ s. s.faults };

    ghost cuts = { λ s choice. None };

    ghost is_going = { λ s f. ⊥ };

    ghost reads_now = { λ s. tt };

    ghost no_longer = { λ s. tt };

    ghost tells_cuts = { λ s choice. refl };

    ghost cuts_leave = { λ s choice. tt };

    ghost counts_now = { λ s t c le left. left };

    ghost only_now = { λ s c left. left };

    fn length(&mut self, file: FileKey) -> Result<u64, StoreFault> {
        self.length(file)
    }

    fn read_at(&mut self, file: FileKey, at: u64, into: &mut [u8]) -> Result<usize, StoreFault> {
        self.read_at(file, at, into)
    }

    fn write_at(&mut self, file: FileKey, at: u64, bytes: &[u8]) -> Result<(), StoreFault> {
        self.write_at(file, at, bytes)
    }

    fn sync(&mut self, file: FileKey) -> Result<(), StoreFault> {
        self.sync(file)
    }

    fn remove(&mut self, file: FileKey) -> Result<(), StoreFault> {
        self.remove(file)
    }

    fn cut(&mut self, choice: u32) -> Result<(), StoreFault> {
        self.cut(choice)
    }
}
