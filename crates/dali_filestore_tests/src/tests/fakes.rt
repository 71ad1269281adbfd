//! A store over files that are none, which count their syncs.
use dali_filestore::{Access, Failure, FileStore, FourFiles, Guard, LockFile, Place, Streams};
use dali_store::FileName;
use std::cell::Cell;
use std::fs::{Metadata, OpenFile, TryLockError};
use std::io::{self, ErrorKind};
use std::os::unix::fs::FileExt;
use std::process::Abort;
use std::test::Fail;

// Counts how often each file was synced.
#[derive(Drop)]
struct Fakes {
    log: Cell<u8>,
    a: Cell<u8>,
    b: Cell<u8>,
    anchor: Cell<u8>,
    broken: bool,
}

// A file that holds nothing and can't be locked, and whose sync fails where it is broken.
#[derive(Drop)]
struct Fake<'a> {
    syncs: &'a Cell<u8>,
    broken: bool,
}

impl<'a> FileExt for Fake<'a> {
    fn read_at(&self, _buf: &mut [u8], _offset: u64) -> io::Result<usize> {
        Ok(0)
    }

    fn write_at(&self, _buf: &[u8], _offset: u64) -> io::Result<usize> {
        Ok(0)
    }
}

impl<'a> OpenFile for Fake<'a> {
    fn metadata(&self) -> io::Result<Metadata> {
        Err(io::Error::from(ErrorKind::Unsupported))
    }

    fn set_len(&self, _size: u64) -> io::Result<()> {
        Err(io::Error::from(ErrorKind::Unsupported))
    }

    fn sync_all(&self) -> io::Result<()> {
        Err(io::Error::from(ErrorKind::Unsupported))
    }

    fn sync_data(&self) -> io::Result<()> {
        self.syncs.set(self.syncs.get().wrapping_add(1));
        if self.broken {
            return Err(io::Error::from(ErrorKind::Other));
        }
        Ok(())
    }
}

impl<'a> LockFile for Fake<'a> {
    ghost use Rattle.std.specs.Prelude.{⊤};

    ghost excludes = { λ f. ⊤ };

    ghost shares = { λ f. ⊤ };

    ghost lacks = { λ f. ⊤ };

    fn try_lock(&self) -> Result<(), TryLockError> {
        Err(TryLockError::Error(io::Error::from(ErrorKind::Unsupported)))
    }

    fn try_lock_shared(&self) -> Result<(), TryLockError> {
        Err(TryLockError::Error(io::Error::from(ErrorKind::Unsupported)))
    }
}

impl<'a> Place<Fake<'a>> for &'a Fakes {
    fn open(&self, _access: Access) -> Result<FourFiles<Fake<'a>>, Failure> {
        let broken = self.broken;
        Ok(FourFiles {
            log: Some(Fake {
                syncs: &self.log,
                broken,
            }),
            a: Some(Fake {
                syncs: &self.a,
                broken,
            }),
            b: Some(Fake {
                syncs: &self.b,
                broken,
            }),
            anchor: Some(Fake {
                syncs: &self.anchor,
                broken,
            }),
            guard: Guard::NoLocks,
            streams: Streams {
                input: None,
                output: None,
                error: None,
            },
        })
    }
}

// A sync reaches just its own file, once, also where it fails. Nothing keeps a second program away from such files.
fn syncs_once(rt: &impl Abort, file: FileName, broken: bool, wanted: u32) {
    let fakes = Fakes {
        log: Cell::new(0),
        a: Cell::new(0),
        b: Cell::new(0),
        anchor: Cell::new(0),
        broken,
    };
    let mut store = FileStore::over(&fakes, Access::Writing);
    assert!(rt; !store.has_no_locks());
    let failed = store.sync(file).is_err();
    assert!(rt; store.has_no_locks());
    drop(store);
    let counts = u32::from_be_bytes([
        fakes.log.get(),
        fakes.a.get(),
        fakes.b.get(),
        fakes.anchor.get(),
    ]);
    assert!(rt; failed == broken);
    assert!(rt; counts == wanted);
}

#[test]
fn a_sync_reaches_its_file_once(rt: HostRuntime) -> Result<(), Fail> {
    for broken in [false, true] {
        syncs_once(&rt, FileName::Log, broken, 0x0100_0000);
        syncs_once(&rt, FileName::ImageA, broken, 0x0001_0000);
        syncs_once(&rt, FileName::ImageB, broken, 0x0000_0100);
        syncs_once(&rt, FileName::Anchor, broken, 0x0000_0001);
    }
    Ok(())
}
