//! What real files keep, when they can't be opened, and what a store for reading leaves alone.
use dali_filestore::{Access, Failure, FileStore};
use dali_store::{FileName, Store, StoreFault};
use std::fs;
use std::test::Fail;

const FILES: [(FileName, &str, [u8; 3]); 4] = [
    (FileName::Log, "dali_files/dali.log", [1, 2, 3]),
    (FileName::ImageA, "dali_files/dali.a", [4, 5, 6]),
    (FileName::ImageB, "dali_files/dali.b", [7, 8, 9]),
    (FileName::Anchor, "dali_files/dali.anchor", [10, 11, 12]),
];

#[test]
fn files_keep_what_was_written(rt: HostRuntime) -> Result<(), Fail> {
    fs::create_dir(&rt, "dali_files")?;
    let mut store = FileStore::in_folder(&rt, "dali_files");
    for (file, _, bytes) in FILES {
        assert_eq!(rt; store.length(file), Ok(0));
        store.write_at(file, 0, &bytes)?;
        store.write_at(file, 1, &bytes)?;
        store.sync(file)?;
    }
    store.cut(1)?;
    let dropped = (store.drop_log(3), store.first_kept());
    assert_eq!(rt; dropped, (Ok(0), Ok(0)));
    drop(store);

    let mut store = FileStore::reading_folder(&rt, "dali_files");
    for (file, path, [one, two, three]) in FILES {
        let mut read = [0; 4];
        assert_eq!(rt; store.length(file), Ok(4));
        assert_eq!(rt; store.read_at(file, 0, &mut read), Ok(4));
        assert_eq!(rt; read, [one, one, two, three]);
        assert_eq!(rt; store.read_at(file, 3, &mut read), Ok(1));
        assert_eq!(rt; read, [three, one, two, three]);
        assert_eq!(rt; store.read_at(file, 4, &mut read), Ok(0));
        let whole = fs::read(&rt, path)?;
        assert_eq!(rt; whole.as_slice(), [one, one, two, three].as_slice());
    }
    fs::remove_dir_all(&rt, "dali_files")?;
    Ok(())
}

#[test]
fn files_that_cannot_be_opened_fail_each_call(rt: HostRuntime) -> Result<(), Fail> {
    // A folder stands where a file should.
    fs::create_dir_all(&rt, "dali_other/dali.anchor")?;
    for folder in ["/proc", "dali_nowhere", "dali_other"] {
        let mut store = FileStore::in_folder(&rt, folder);
        for (file, _, bytes) in FILES {
            let mut read = [0; 3];
            assert_eq!(rt; store.length(file), Err(StoreFault));
            assert_eq!(rt; store.read_at(file, 0, &mut read), Err(StoreFault));
            assert_eq!(rt; store.write_at(file, 0, &bytes), Err(StoreFault));
            assert_eq!(rt; store.sync(file), Err(StoreFault));
            assert_eq!(rt; store.cut(0), Err(StoreFault));
        }
    }
    fs::remove_dir_all(&rt, "dali_other")?;
    Ok(())
}

#[test]
fn nothing_is_made_before_the_first_call(rt: HostRuntime) -> Result<(), Fail> {
    fs::create_dir(&rt, "dali_empty")?;
    let mut store = FileStore::in_folder(&rt, "dali_empty");
    assert!(rt; fs::metadata(&rt, "dali_empty/dali.log").is_err());
    store.length(FileName::Log)?;
    assert!(rt; fs::metadata(&rt, "dali_empty/dali.log").is_ok());
    fs::remove_dir_all(&rt, "dali_empty")?;
    Ok(())
}

#[test]
fn a_store_for_reading_makes_nothing(rt: HostRuntime) -> Result<(), Fail> {
    fs::create_dir(&rt, "dali_read")?;
    let mut store = FileStore::reading_folder(&rt, "dali_read");
    for (file, _, bytes) in FILES {
        let mut read = [0; 3];
        assert_eq!(rt; store.length(file), Ok(0));
        assert_eq!(rt; store.read_at(file, 0, &mut read), Ok(0));
        assert_eq!(rt; store.failure(), None);
        assert_eq!(rt; store.write_at(file, 0, &bytes), Err(StoreFault));
        assert_eq!(rt; store.sync(file), Err(StoreFault));
        assert_eq!(rt; store.failure(), Some(Failure::ReadingAlone));
        store = FileStore::reading_folder(&rt, "dali_read");
    }
    assert!(rt; store.access() == Access::Reading);
    drop(store);
    // It is removed only where it is empty.
    fs::remove_dir(&rt, "dali_read")?;
    Ok(())
}

#[test]
fn a_lost_log_is_not_made_anew(rt: HostRuntime) -> Result<(), Fail> {
    for (file, bytes) in [
        (FileName::ImageA, [1, 2]),
        (FileName::ImageB, [0, 0]),
        (FileName::Anchor, [0xA5, 0]),
    ] {
        fs::create_dir(&rt, "dali_lost")?;
        let mut store = FileStore::in_folder(&rt, "dali_lost");
        store.write_at(file, 0, &bytes)?;
        drop(store);
        fs::remove_file(&rt, "dali_lost/dali.log")?;

        let mut store = FileStore::in_folder(&rt, "dali_lost");
        assert_eq!(rt; store.length(FileName::Log), Err(StoreFault));
        assert_eq!(rt; store.failure(), Some(Failure::LogMissing));
        assert!(rt; fs::metadata(&rt, "dali_lost/dali.log").is_err());
        drop(store);
        let mut store = FileStore::reading_folder(&rt, "dali_lost");
        assert_eq!(rt; store.length(file), Ok(2));
        drop(store);
        fs::remove_dir_all(&rt, "dali_lost")?;
    }
    Ok(())
}

#[test]
fn a_closed_gate_stands_without_a_log(rt: HostRuntime) -> Result<(), Fail> {
    fs::create_dir(&rt, "dali_gate")?;
    fs::write(&rt, "dali_gate/dali.anchor", b"\0")?;
    let mut store = FileStore::in_folder(&rt, "dali_gate");
    assert_eq!(rt; store.length(FileName::Log), Ok(0));
    fs::remove_dir_all(&rt, "dali_gate")?;
    Ok(())
}
