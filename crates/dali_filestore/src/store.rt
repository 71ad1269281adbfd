//! The edge to the outside: what a real file holds is known to no clause, so this store tells no contents.
ghost use Rattle.std.specs.Prelude.{◌≡◌, ◌≤◌, ◌<◌, ◌^◌, length, Ok, Err, Some, None, IfOk, IfErr, IfSome, OnOk, OnErr, IsOk, IsErr, true, false};
ghost use Rattle.dali_store.specs.Faults.{one_more};
ghost use Rattle.dali_filestore.specs.Failures.{file_in};
ghost use Rattle.dali_filestore.specs.Folder.{faults_of, failure_of, access_of, is_open, has_no_locks, IsCounted, IsSameBut};
ghost use Rattle.dali_filestore.specs.Guards.{IsGuarded, AreGuarded};

use crate::{Access, Cause, Failure, Folder, FourFiles, LockFile};
use dali_store::{FileName, Store, StoreFault};
use std::fs::OpenFile;
use std::os::fd::AsRawFd;
use std::os::unix::fs::FileExt;
use std::rt::Files;

/// Where the four files are.
pub trait Place<F: OpenFile + FileExt + LockFile + Drop> {
    /// Locks the anchor's file and opens the files. For writing it makes those that are absent; for reading it makes
    /// none. Takes no memory.
    fn open(&self, access: Access) -> Result<FourFiles<F>, Failure>
        ensures { IfOk result (λ files. IsGuarded F.excludes F.shares F.lacks access files.guard files.anchor) };
}

/// A store over four files, which are opened by the first call: the files `dali.log`, `dali.a`, `dali.b` and
/// `dali.anchor` of a folder. From then on a lock on the anchor's file keeps other programs away: all of them from a store
/// for writing, those that write from one for reading.
///
/// Each call that fails counts one fault and tells why; while the files can't be opened each call fails, and the next one
/// tries again. A store for reading makes and changes nothing, and an absent file counts as empty. A cut does nothing but
/// open the files, since a crash of the machine is what cuts real files.
#[derive(Drop)]
pub struct FileStore<F: OpenFile + FileExt + LockFile + Drop, P: Place<F> + Drop> {
    place: P,
    access: Access,
    files: Option<FourFiles<F>>,
    faults: u64,
    failure: Option<Failure>,
}

impl<'a, F: OpenFile + FileExt + LockFile + AsRawFd + Drop, R: Files<File = F>> FileStore<
    F,
    Folder<'a, R>,
> {
    /// A store for writing over the files of this folder, `FOLDER/dali.log` and so on. The first call locks the anchor's
    /// file, opens all of them, makes those that are absent, and syncs the folder; it fails where one of these can't be
    /// done, another program has the store, or the log is lost. Takes no memory.
    pub fn in_folder(rt: &'a R, path: &'a str) -> Self
        ensures faults { faults_of result ≡ 0 }
        ensures failure { failure_of result ≡ None }
        ensures access { access_of result ≡ Access.Writing }
    {
        FileStore::over(Folder { rt, path }, Access::Writing)
    }

    /// A store for reading over the files of this folder. The first call opens those that are there, and fails where one
    /// of them can't be read or another program writes. Takes no memory.
    pub fn reading_folder(rt: &'a R, path: &'a str) -> Self
        ensures faults { faults_of result ≡ 0 }
        ensures failure { failure_of result ≡ None }
        ensures access { access_of result ≡ Access.Reading }
    {
        FileStore::over(Folder { rt, path }, Access::Reading)
    }
}

impl<F: OpenFile + FileExt + LockFile + Drop, P: Place<F> + Drop> FileStore<F, P> {
    /// A store over the files of this place. Takes no memory.
    pub fn over(place: P, access: Access) -> Self
        ensures faults { faults_of result ≡ 0 }
        ensures failure { failure_of result ≡ None }
        ensures access { access_of result ≡ access }
    {
        FileStore {
            place,
            access,
            files: None,
            faults: 0,
            failure: None,
        }
    }

    /// What the store may do.
    pub fn access(&self) -> Access
        ensures { result ≡ access_of self.now }
    {
        self.access
    }

    /// Why the last of the calls that failed has failed. None where none has. Takes no memory.
    pub fn failure(&self) -> Option<Failure>
        ensures { result ≡ failure_of self.now }
    {
        self.failure
    }

    /// Whether the files are open on a file system that has no locks, so that nothing keeps a second program away.
    pub fn has_no_locks(&self) -> bool
        ensures { result ≡ has_no_locks self.now }
    {
        match &self.files {
            Some(files) => files.guard.is_no_locks(),
            None => false,
        }
    }

    // Opens the files where they aren't yet.
    fn open(&mut self) -> Result<(), Failure>
        ensures same { IsSameBut self.old self.new }
        ensures open { OnOk result (is_open self.new ≡ true) }
        ensures already { is_open self.old ≡ true → IsOk result }
        ensures guarded { is_open self.old ≡ false → OnOk result (AreGuarded F.excludes F.shares F.lacks (access_of self.old) self.new.files) }
    {
        if self.files.is_none() {
            let files = self.place.open(self.access)?;
            self.files = Some(files);
        }
        Ok(())
    }

    // The files, where they were opened.
    fn opened(&self) -> Result<&FourFiles<F>, Failure>
        ensures { is_open self.now ≡ true → IsOk result }
    {
        match &self.files {
            Some(files) => Ok(files),
            None => Err(Failure::Folder {
                cause: Cause::NotFound,
            }),
        }
    }

    fn try_length(&mut self, file: FileName) -> Result<u64, Failure>
        ensures bound { IfOk result (λ n. n < 2 ^ 62) }
        ensures named { is_open self.old ≡ true → IfErr result (λ why. file_in why ≡ Some file) }
        ensures same { IsSameBut self.old self.new }
    {
        self.open()?;
        self.opened()?.length(file)
    }

    fn try_read_at(&mut self, file: FileName, at: u64, into: &mut [u8]) -> Result<usize, Failure>
        ensures count { IfOk result (λ n. n ≤ length into.old) }
        ensures named { is_open self.old ≡ true → IfErr result (λ why. file_in why ≡ Some file) }
        ensures same { IsSameBut self.old self.new }
    {
        self.open()?;
        self.opened()?.read_at(file, at, into)
    }

    fn try_write_at(&mut self, file: FileName, at: u64, bytes: &[u8]) -> Result<(), Failure>
        ensures reading { access_of self.old ≡ Access.Reading → result ≡ Err Failure.ReadingAlone }
        ensures named { is_open self.old ≡ true → access_of self.old ≡ Access.Writing → IfErr result (λ why. file_in why ≡ Some file) }
        ensures same { IsSameBut self.old self.new }
    {
        if self.access == Access::Reading {
            return Err(Failure::ReadingAlone);
        }
        self.open()?;
        self.opened()?.write_at(file, at, bytes)
    }

    fn try_sync(&mut self, file: FileName) -> Result<(), Failure>
        ensures reading { access_of self.old ≡ Access.Reading → result ≡ Err Failure.ReadingAlone }
        ensures named { is_open self.old ≡ true → access_of self.old ≡ Access.Writing → IfErr result (λ why. file_in why ≡ Some file) }
        ensures same { IsSameBut self.old self.new }
    {
        if self.access == Access::Reading {
            return Err(Failure::ReadingAlone);
        }
        self.open()?;
        self.opened()?.sync(file)
    }

    // Counts a call that failed, and keeps why.
    fn counted<T>(&mut self, outcome: Result<T, Failure>) -> Result<T, StoreFault>
        ensures value { IfOk result (λ x. outcome ≡ Ok x) }
        ensures handed { IfOk outcome (λ x. result ≡ Ok x) }
        ensures passed { OnOk result (self.new ≡ self.old) }
        ensures failed { IfErr outcome (λ why. self.new ≡ record self.old { faults = one_more self.old.faults; failure = Some why }) }
        ensures told { IfErr outcome (λ why. failure_of self.new ≡ Some why) }
        ensures refused { IfErr outcome (λ why. IsErr result) }
        ensures counted { IsCounted self.old self.new result }
    {
        match outcome {
            Ok(value) => Ok(value),
            Err(why) => {
                self.faults = self.faults.saturating_add(1);
                self.failure = Some(why);
                Err(StoreFault)
            }
        }
    }

    /// The length of a file in bytes; 0 where a store for reading finds none. A length of 2^62 or more counts as a fault.
    /// Takes no memory.
    pub fn length(&mut self, file: FileName) -> Result<u64, StoreFault>
        ensures bound { IfOk result (λ n. n < 2 ^ 62) }
        ensures named { is_open self.old ≡ true → OnErr result (IfSome (failure_of self.new) (λ why. file_in why ≡ Some file)) }
        ensures counted { IsCounted self.old self.new result }
    {
        let length = self.try_length(file);
        self.counted(length)
    }

    /// Reads from a place on into the front of a buffer, and answers how many bytes. Fewer than asked come only at the
    /// end. Takes no memory.
    pub fn read_at(&mut self, file: FileName, at: u64, into: &mut [u8]) -> Result<usize, StoreFault>
        ensures count { IfOk result (λ n. n ≤ length into.old) }
        ensures named { is_open self.old ≡ true → OnErr result (IfSome (failure_of self.new) (λ why. file_in why ≡ Some file)) }
        ensures counted { IsCounted self.old self.new result }
    {
        let count = self.try_read_at(file, at, into);
        self.counted(count)
    }

    /// Writes over what is there, and past the end. A store for reading refuses it. Takes no memory.
    pub fn write_at(&mut self, file: FileName, at: u64, bytes: &[u8]) -> Result<(), StoreFault>
        ensures counted { IsCounted self.old self.new result }
        ensures reading { access_of self.old ≡ Access.Reading → failure_of self.new ≡ Some Failure.ReadingAlone }
        ensures refused { access_of self.old ≡ Access.Reading → IsErr result }
        ensures named { is_open self.old ≡ true → access_of self.old ≡ Access.Writing → OnErr result (IfSome (failure_of self.new) (λ why. file_in why ≡ Some file)) }
    {
        let written = self.try_write_at(file, at, bytes);
        self.counted(written)
    }

    /// Keeps what was written to a file. A store for reading refuses it. Takes no memory.
    pub fn sync(&mut self, file: FileName) -> Result<(), StoreFault>
        ensures counted { IsCounted self.old self.new result }
        ensures reading { access_of self.old ≡ Access.Reading → failure_of self.new ≡ Some Failure.ReadingAlone }
        ensures refused { access_of self.old ≡ Access.Reading → IsErr result }
        ensures named { is_open self.old ≡ true → access_of self.old ≡ Access.Writing → OnErr result (IfSome (failure_of self.new) (λ why. file_in why ≡ Some file)) }
    {
        let synced = self.try_sync(file);
        self.counted(synced)
    }

    /// Opens the files, and does nothing more: a crash of the machine is what cuts real files. Takes no memory.
    pub fn cut(&mut self, _choice: u32) -> Result<(), StoreFault>
        ensures counted { IsCounted self.old self.new result }
    {
        let opened = self.open();
        self.counted(opened)
    }
}

impl<F: OpenFile + FileExt + LockFile + Drop, P: Place<F> + Drop> Store for FileStore<F, P> {
    ghost use Rattle.std.specs.Prelude.{⊤, None, refl};

    ghost told = { λ s. None };

    ghost may_leave = { λ s c. ⊤ };

    ghost moment = { λ s. 0 };

    ghost left_since = { λ s t c. ⊤ };

    ghost faults = { λ s. s.faults };

    ghost lets_pass = { λ s. None };

    ghost cuts = { λ s choice. None };

    ghost droppable = { λ s below. 0 };

    ghost dropped_to = { λ s. 0 };

    ghost reads_now = { λ s. tt };

    ghost no_longer = { λ s. tt };

    ghost tells_cuts = { λ s choice. refl };

    ghost cuts_leave = { λ s choice. tt };

    ghost counts_now = { λ s t c le left. left };

    ghost only_now = { λ s c left. left };

    fn length(&mut self, file: FileName) -> Result<u64, StoreFault> {
        self.length(file)
    }

    fn read_at(&mut self, file: FileName, at: u64, into: &mut [u8]) -> Result<usize, StoreFault> {
        self.read_at(file, at, into)
    }

    fn write_at(&mut self, file: FileName, at: u64, bytes: &[u8]) -> Result<(), StoreFault> {
        self.write_at(file, at, bytes)
    }

    fn sync(&mut self, file: FileName) -> Result<(), StoreFault> {
        self.sync(file)
    }

    fn cut(&mut self, choice: u32) -> Result<(), StoreFault> {
        self.cut(choice)
    }

    fn drop_log(&mut self, _below: u64) -> Result<u64, StoreFault> {
        Ok(0) // The log is one file.
    }

    fn first_kept(&mut self) -> Result<u64, StoreFault> {
        Ok(0)
    }
}
