//! What is told of a failure.
use dali_filestore::{Cause, Failure, FileStore};
use dali_store::{FileName, StoreFault};
use std::fs;
use std::os::unix::fs::symlink;
use std::test::Fail;

#[test]
fn a_failure_is_told_with_its_file(rt: HostRuntime) -> Result<(), Fail> {
    let file = FileName::Log;
    for (failure, text) in [
        (Failure::InUse, "the store is in use by another program"),
        (
            Failure::LogMissing,
            "there are images but no log: the log was lost or moved",
        ),
        (Failure::ReadingAlone, "the store is open for reading alone"),
        (
            Failure::Folder {
                cause: Cause::NotFound,
            },
            "the folder: no such file or folder",
        ),
        (
            Failure::File {
                file,
                cause: Cause::PermissionDenied,
            },
            "dali.log: permission denied",
        ),
        (
            Failure::File {
                file,
                cause: Cause::NoSpaceLeft,
            },
            "dali.log: no space left",
        ),
        (
            Failure::File {
                file,
                cause: Cause::InputOutput,
            },
            "dali.log: input/output error",
        ),
        (
            Failure::File {
                file,
                cause: Cause::System { number: 24 },
            },
            "dali.log: system error 24",
        ),
    ] {
        let told = format!(in rt.alloc(); "{failure}")?;
        assert_eq!(rt; told.as_str(), text);
    }
    Ok(())
}

#[test]
fn what_the_system_says_is_told(rt: HostRuntime) -> Result<(), Fail> {
    fs::create_dir_all(&rt, "dali_reasons/dali.log")?;
    let anchor = FileName::Anchor;
    let log = FileName::Log;
    for (folder, wanted) in [
        (
            "dali_nowhere",
            Failure::Folder {
                cause: Cause::NotFound,
            },
        ),
        (
            "/proc",
            Failure::File {
                file: anchor,
                cause: Cause::NotFound,
            },
        ),
        (
            "/dev/null",
            Failure::File {
                file: anchor,
                cause: Cause::IsNoFolder,
            },
        ),
        (
            "dali_reasons",
            Failure::File {
                file: log,
                cause: Cause::IsFolder,
            },
        ),
    ] {
        let mut store = FileStore::in_folder(&rt, folder);
        assert_eq!(rt; store.cut(0), Err(StoreFault));
        assert_eq!(rt; store.failure(), Some(wanted));
    }
    fs::remove_dir_all(&rt, "dali_reasons")?;

    fs::create_dir(&rt, "dali_full")?;
    symlink(&rt, "/dev/full", "dali_full/dali.log")?;
    let mut store = FileStore::in_folder(&rt, "dali_full");
    assert_eq!(rt; store.sync(log), Err(StoreFault));
    assert_eq!(rt;
        store.failure(),
        Some(Failure::File {
            file: log,
            cause: Cause::NotSupported
        })
    );
    assert_eq!(rt; store.write_at(log, 0, &[1]), Err(StoreFault));
    assert_eq!(rt;
        store.failure(),
        Some(Failure::File {
            file: log,
            cause: Cause::NoSpaceLeft
        })
    );
    fs::remove_dir_all(&rt, "dali_full")?;
    Ok(())
}
