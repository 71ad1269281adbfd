//! Real files: what they keep, and what files for reading leave alone.
use super::{fill, seen, take_away};
use dali_files::{FileKey, Files};
use dali_filestore::{Cause, Failure, FolderFiles};
use dali_store::StoreFault;
use std::fs;
use std::test::Fail;

const FIRST: FileKey = FileKey::Segment { number: 0 };

const SECOND: FileKey = FileKey::Segment { number: 1 };

const LATER: FileKey = FileKey::Segment { number: 12 };

// Writes to five files, each with bytes of its own.
fn fill_all<F: Files>(files: &mut F) -> Result<(), StoreFault> {
    for (file, byte) in [
        (FIRST, 1),
        (SECOND, 2),
        (LATER, 3),
        (FileKey::ImageA, 4),
        (FileKey::Anchor, 5),
    ] {
        fill(files, file, &[byte, 7, byte])?;
    }
    files.cut(0)
}

// Whether these files are in a folder: `dali.log`, `dali.log.1` and `dali.log.12`.
fn there(rt: &HostRuntime, names: [&str; 3]) -> [bool; 3] {
    let [first, second, later] = names;
    [
        fs::metadata(rt, first).is_ok(),
        fs::metadata(rt, second).is_ok(),
        fs::metadata(rt, later).is_ok(),
    ]
}

// A folder keeps what was written.
fn is_kept(rt: &HostRuntime) -> Result<bool, Fail> {
    fs::create_dir(rt, "dali_segments")?;
    let mut files = FolderFiles::in_folder(rt, "dali_segments");
    fill_all(&mut files)?;
    drop(files);
    let mut files = FolderFiles::reading_folder(rt, "dali_segments");
    let logs = (
        seen(&mut files, FIRST),
        seen(&mut files, SECOND),
        seen(&mut files, LATER),
    );
    let others = (
        seen(&mut files, FileKey::ImageA),
        seen(&mut files, FileKey::ImageB),
        seen(&mut files, FileKey::Anchor),
    );
    drop(files);
    fs::remove_dir_all(rt, "dali_segments")?;
    let of_logs = (
        Ok((3, 3, [1, 7, 1, 99])),
        Ok((3, 3, [2, 7, 2, 99])),
        Ok((3, 3, [3, 7, 3, 99])),
    );
    let of_others = (
        Ok((3, 3, [4, 7, 4, 99])),
        Ok((0, 0, [99; 4])),
        Ok((3, 3, [5, 7, 5, 99])),
    );
    Ok(logs == of_logs && others == of_others)
}

// Segments are files of their names.
fn is_named(rt: &HostRuntime) -> Result<bool, Fail> {
    let names = [
        "dali_names/dali.log",
        "dali_names/dali.log.1",
        "dali_names/dali.log.12",
    ];
    fs::create_dir(rt, "dali_names")?;
    let mut files = FolderFiles::in_folder(rt, "dali_names");
    let unwritten = seen(&mut files, SECOND);
    let before = there(rt, names);
    fill_all(&mut files)?;
    let filled = there(rt, names);
    // A file that is open from the first call on stays, without bytes.
    let removed = (
        take_away(&mut files, FIRST),
        take_away(&mut files, LATER),
        take_away(&mut files, LATER),
        seen(&mut files, FIRST),
    );
    let after = there(rt, names);
    drop(files);
    fs::remove_dir_all(rt, "dali_names")?;
    let is_there = ([true, false, false], [true; 3], [true, true, false]);
    Ok(
        unwritten == Ok((0, 0, [99; 4]))
            && (before, filled, after) == is_there
            && removed == (Ok(()), Ok(()), Ok(()), Ok((0, 0, [99; 4]))),
    )
}

// For reading nothing is changed.
fn is_left_alone(rt: &HostRuntime) -> Result<bool, Fail> {
    fs::create_dir(rt, "dali_reading")?;
    let mut files = FolderFiles::in_folder(rt, "dali_reading");
    fill_all(&mut files)?;
    drop(files);
    let mut files = FolderFiles::reading_folder(rt, "dali_reading");
    let refused = (
        fill(&mut files, LATER, &[9]),
        take_away(&mut files, SECOND),
        files.sync(FIRST),
        files.failure(),
    );
    let kept = (seen(&mut files, SECOND), seen(&mut files, LATER));
    drop(files);
    fs::remove_dir_all(rt, "dali_reading")?;
    let none = Err(StoreFault);
    Ok(
        refused == (none, none, none, Some(Failure::ReadingAlone))
            && kept == (Ok((3, 3, [2, 7, 2, 99])), Ok((3, 3, [3, 7, 3, 99]))),
    )
}

// A folder in a segment's place is no segment, and the reason names it.
fn is_refused(rt: &HostRuntime) -> Result<bool, Fail> {
    fs::create_dir_all(rt, "dali_blocked/dali.log.1")?;
    let mut files = FolderFiles::in_folder(rt, "dali_blocked");
    let refused = (seen(&mut files, SECOND), fill(&mut files, SECOND, &[1]));
    let failure = files.failure();
    let other = fill(&mut files, LATER, &[1]);
    drop(files);
    fs::remove_dir_all(rt, "dali_blocked")?;
    let Some(failure) = failure else {
        return Ok(false);
    };
    let text = format!(in rt.alloc(); "{failure}")?;
    let is_folder = Failure::Segment {
        number: 1,
        cause: Cause::IsFolder,
    };
    Ok(
        refused == (Err(StoreFault), Err(StoreFault))
            && other == Ok(())
            && failure == is_folder
            && text.as_str() == "dali.log.1: is a folder",
    )
}

// Where no folder is, there are no files.
fn is_absent(rt: &HostRuntime) -> Result<bool, Fail> {
    let mut files = FolderFiles::in_folder(rt, "dali_absent");
    let refused = (seen(&mut files, FIRST), fill(&mut files, SECOND, &[1]));
    let no_folder = Failure::Folder {
        cause: Cause::NotFound,
    };
    Ok(refused == (Err(StoreFault), Err(StoreFault)) && files.failure() == Some(no_folder))
}

#[test]
fn a_folder_keeps_segments(rt: HostRuntime) -> Result<(), Fail> {
    let cases = (is_kept(&rt)?, is_named(&rt)?, is_left_alone(&rt)?);
    assert_eq!(rt; cases, (true, true, true));
    Ok(())
}

#[test]
fn a_reason_is_told(rt: HostRuntime) -> Result<(), Fail> {
    assert_eq!(rt; (is_refused(&rt)?, is_absent(&rt)?), (true, true));
    Ok(())
}
