//! The lock that keeps other programs away from a store.
ghost use Rattle.std.specs.Prelude.{◌≡◌, true, Some, OnOk, IfOk, IfErr};
ghost use Rattle.dali_filestore.specs.Guards.{guard_of, is_no_locks, is_lack, is_lack_number, is_lack_of_locks, IsGuarded};

use crate::failure::cause_of;
use crate::{Access, Failure};
use dali_store::FileName;
use std::fs::{File, TryLockError};
use std::io::{self, ErrorKind};

// Linux's number of a lock that can't be had on this file system. It has no kind of its own.
const NO_LOCK: i32 = 37;

/// What is to be told where nothing keeps a second program away.
pub const NO_LOCKS: &str = "this file system has no locks: nothing keeps a second program away";

/// A file that a program can lock. The lock is advisory, and is given back when the file is closed.
pub trait LockFile {
    /// The file has a lock beside which there was no other.
    ghost excludes: { Self → Type 0 };

    /// The file has a lock beside which there were only such locks.
    ghost shares: { Self → Type 0 };

    /// The file is on a file system that has no locks.
    ghost lacks: { Self → Type 0 };

    /// Takes the lock that excludes others, and doesn't wait for it. Takes no memory.
    fn try_lock(&self) -> Result<(), TryLockError>
        ensures locked { OnOk result (excludes self.now) }
        ensures lacking { IfErr result (λ error. is_lack_of_locks error ≡ true → lacks self.now) };

    /// Takes the lock that is shared with others, and doesn't wait for it. Takes no memory.
    fn try_lock_shared(&self) -> Result<(), TryLockError>
        ensures locked { OnOk result (shares self.now) }
        ensures lacking { IfErr result (λ error. is_lack_of_locks error ≡ true → lacks self.now) };
}

impl LockFile for File {
    ghost use Rattle.std.specs.Prelude.{⊤};

    ghost excludes = { λ f. ⊤ };

    ghost shares = { λ f. ⊤ };

    ghost lacks = { λ f. ⊤ };

    fn try_lock(&self) -> Result<(), TryLockError> {
        File::try_lock(self)
    }

    fn try_lock_shared(&self) -> Result<(), TryLockError> {
        File::try_lock_shared(self)
    }
}

/// What keeps other programs away from the files of a store.
#[derive(Clone, Copy, PartialEq, Eq)]
pub enum Guard {
    /// A lock on the anchor's file.
    Locked,
    /// Nothing: the file system has no locks.
    NoLocks,
    /// Nothing: there is no anchor's file to be locked. So it may be in a store for reading alone.
    NoAnchor,
}

impl Guard {
    // Whether the file system has no locks.
    pub(crate) fn is_no_locks(self) -> bool
        ensures { result ≡ is_no_locks self }
    {
        match self {
            Guard::NoLocks => true,
            Guard::Locked | Guard::NoAnchor => false,
        }
    }
}

// Whether this is the system's number of a lock that can't be had.
fn is_lack_number(number: Option<i32>) -> bool
    ensures { result ≡ is_lack_number number }
{
    match number {
        Some(number) => number == NO_LOCK,
        None => false,
    }
}

// Whether an error says that the file system has no locks.
fn is_lack(error: &io::Error) -> bool
    ensures { result ≡ is_lack error.now }
{
    match error.kind() {
        ErrorKind::Unsupported => true,
        _ => is_lack_number(error.raw_os_error()),
    }
}

// What a try to take a lock came to. Any other error may be that of a lock which another program has.
fn guard_of(tried: Result<(), TryLockError>) -> Result<Guard, Failure>
    ensures { result ≡ guard_of tried }
{
    match tried {
        Ok(()) => Ok(Guard::Locked),
        Err(TryLockError::WouldBlock) => Err(Failure::InUse),
        Err(TryLockError::Error(error)) if is_lack(&error) => Ok(Guard::NoLocks),
        Err(TryLockError::Error(error)) => Err(Failure::File {
            file: FileName::Anchor,
            cause: cause_of(&error),
        }),
    }
}

// Takes the lock of this access, where the file system has locks.
pub(crate) fn lock<F: LockFile>(file: &F, access: Access) -> Result<Guard, Failure>
    ensures { IfOk result (λ guard. IsGuarded F.excludes F.shares F.lacks access guard (Some file.now)) }
{
    match access {
        Access::Writing => guard_of(file.try_lock()),
        Access::Reading => guard_of(file.try_lock_shared()),
    }
}
