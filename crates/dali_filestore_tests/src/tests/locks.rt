//! Who is kept away from a folder.
use dali_filestore::{Access, Failure, FileStore};
use dali_store::{FileName, StoreFault};
use std::fs;
use std::test::Fail;

#[test]
fn who_writes_is_alone(rt: HostRuntime) -> Result<(), Fail> {
    fs::create_dir(&rt, "dali_lock")?;
    let mut first = FileStore::in_folder(&rt, "dali_lock");
    first.length(FileName::Log)?;
    assert!(rt; !first.has_no_locks());
    assert!(rt; first.access() == Access::Writing);

    let mut second = FileStore::in_folder(&rt, "dali_lock");
    let mut reader = FileStore::reading_folder(&rt, "dali_lock");
    assert_eq!(rt; second.write_at(FileName::Log, 0, &[1]), Err(StoreFault));
    assert_eq!(rt; second.failure(), Some(Failure::InUse));
    assert_eq!(rt; reader.length(FileName::Log), Err(StoreFault));
    assert_eq!(rt; reader.failure(), Some(Failure::InUse));

    // The next call tries again.
    drop(first);
    reader.length(FileName::Log)?;
    assert_eq!(rt; second.length(FileName::Log), Err(StoreFault));
    let mut other = FileStore::reading_folder(&rt, "dali_lock");
    other.length(FileName::Log)?;
    drop(reader);
    assert_eq!(rt; second.length(FileName::Log), Err(StoreFault));
    drop(other);
    assert_eq!(rt; second.length(FileName::Log), Ok(0));
    fs::remove_dir_all(&rt, "dali_lock")?;
    Ok(())
}
