//! A log in segments over files in memory.
use super::{drop_below, write};
use dali_files::{FileKey, Files, SEGMENTS};
use dali_memfiles::MemoryFiles;
use dali_segments::{SegmentError, Segmented};
use dali_store::{FileName, Store, StoreFault};
use std::alloc::Global;
use std::test::Fail;

const SIZE: u64 = 64;

fn files(alloc: Global) -> MemoryFiles {
    MemoryFiles::new(alloc, Vec::new(alloc))
}

fn opened(files: MemoryFiles) -> Result<Segmented<MemoryFiles>, StoreFault> {
    match Segmented::open(files, SIZE) {
        Ok(store) => Ok(store),
        Err(_) => Err(StoreFault),
    }
}

// Byte i of the log is i + 1 modulo 256.
fn filled(alloc: Global, count: usize) -> Result<Segmented<MemoryFiles>, StoreFault> {
    let mut bytes = [0; 300];
    for i in 0..300usize {
        bytes[i] = ((i + 1) % 256) as u8;
    }
    let mut store = opened(files(alloc))?;
    write(&mut store, 0, &bytes[..count.min(300)])?;
    Ok(store)
}

fn read<const N: usize>(
    store: &mut Segmented<MemoryFiles>,
    at: u64,
) -> Result<(usize, [u8; N]), StoreFault> {
    let mut bytes = [0; N];
    let count = store.read_at(FileName::Log, at, &mut bytes)?;
    Ok((count, bytes))
}

// A log goes over segments.
fn goes_over(alloc: Global) -> Result<bool, StoreFault> {
    let mut store = filled(alloc, 300)?;
    let before = (
        store.length(FileName::Log)?,
        read::<8>(&mut store, 60)?,
        read::<8>(&mut store, 296)?,
    );
    write(&mut store, 62, &[9, 9, 9, 9])?;
    let within = read::<8>(&mut store, 60)?;
    write(&mut store, 300, &[7; 20])?;
    let after = store.length(FileName::Log)?;
    let mut inner = store.into_inner();
    let lengths = (
        inner.length(FileKey::Segment { number: 4 })?,
        inner.length(FileKey::Segment { number: 5 })?,
    );
    Ok(
        before
            == (
                300,
                (8, [61, 62, 63, 64, 65, 66, 67, 68]),
                (4, [41, 42, 43, 44, 0, 0, 0, 0]),
            )
            && within == (8, [61, 62, 9, 9, 9, 9, 67, 68])
            && after == 320
            && lengths == (64, 0),
    )
}

// Segments below a place are dropped, also where the log is opened anew.
fn is_dropped(alloc: Global) -> Result<bool, StoreFault> {
    let mut store = filled(alloc, 300)?;
    let drops = (
        (drop_below(&mut store, 255)?, store.first_kept()?),
        (drop_below(&mut store, 256)?, store.first_kept()?),
        (
            drop_below(&mut store, 299)?,
            store.length(FileName::Log)?,
            store.kept(),
        ),
    );
    let reads = (read::<4>(&mut store, 62)?, read::<4>(&mut store, 254)?);
    let writes = (
        write(&mut store, 100, &[1]),
        write(&mut store, 63, &[1, 1]),
        write(&mut store, 63, &[1]),
        write(&mut store, 300, &[1]),
    );
    let mut again = opened(store.into_inner())?;
    let after = (again.length(FileName::Log)?, again.first_kept()?);
    Ok(
        drops == ((128, 192), (64, 256), (0, 300, 256))
            && reads == ((4, [63, 64, 0, 0]), (4, [0, 0, 1, 2]))
            && writes == (Err(StoreFault), Err(StoreFault), Ok(()), Ok(()))
            && after == (301, 256),
    )
}

// Files of which these segments have so many bytes.
fn with_lengths(alloc: Global, lengths: &[(u32, usize)]) -> Result<MemoryFiles, StoreFault> {
    let mut inner = files(alloc);
    for pair in lengths {
        let (number, count) = *pair;
        if number < SEGMENTS {
            inner.write_at(FileKey::Segment { number }, 0, &[1; 80][..count.min(80)])?;
        }
    }
    Ok(inner)
}

// A log in one piece, one with a segment that is too long, and one of which more is dropped than there is.
fn is_refused(alloc: Global) -> Result<bool, StoreFault> {
    let whole = Segmented::open(with_lengths(alloc, &[(0, 65)])?, SIZE);
    let long = Segmented::open(with_lengths(alloc, &[(0, 64), (1, 65)])?, SIZE);
    let mark = Segmented::open(with_lengths(alloc, &[(0, 63), (4095, 1)])?, SIZE);
    Ok(
        matches!(whole, Err((_, SegmentError::Whole)))
            && matches!(long, Err((_, SegmentError::Long)))
            && matches!(mark, Err((_, SegmentError::Mark))),
    )
}

// What stands behind the first segment that isn't full is removed.
fn is_cleared(alloc: Global) -> Result<bool, StoreFault> {
    let inner = with_lengths(alloc, &[(0, 64), (1, 63), (2, 64), (4, 3)])?;
    let mut store = opened(inner)?;
    let length = store.length(FileName::Log)?;
    store.cut(1)?;
    let after = store.length(FileName::Log)?;
    let mut inner = store.into_inner();
    Ok(
        (
            length,
            after,
            inner.length(FileKey::Segment { number: 2 })?,
            inner.length(FileKey::Segment { number: 4 })?,
        ) == (127, 127, 0, 0),
    )
}

// A crash behind a write over several segments leaves some part of it, to which writes can go on.
fn goes_on(alloc: Global, choice: u32) -> Result<bool, StoreFault> {
    let mut store = filled(alloc, 50)?;
    store.sync(FileName::Log)?;
    write(&mut store, 50, &[7; 250])?;
    store.cut(choice)?;
    let length = store.length(FileName::Log)?;
    write(&mut store, 50, &[8; 200])?;
    store.sync(FileName::Log)?;
    store.cut(1)?;
    let kept = read::<4>(&mut store, 248)?;
    Ok(
        50 <= length
            && length <= 300
            && kept.1[..2] == [8, 8]
            && store.length(FileName::Log)? >= 250,
    )
}

// A crash behind a drop leaves the length, and the drop.
fn stays_dropped(alloc: Global, choice: u32) -> Result<bool, StoreFault> {
    let mut store = filled(alloc, 300)?;
    drop_below(&mut store, 260)?;
    store.cut(choice)?;
    Ok(
        (
            store.length(FileName::Log)?,
            store.first_kept()?,
            drop_below(&mut store, 260)?,
        ) == (300, 256, 0),
    )
}

#[test]
fn a_log_in_segments(rt: HostRuntime) -> Result<(), Fail> {
    let alloc = rt.alloc();
    let cases = (
        goes_over(alloc),
        is_dropped(alloc),
        is_refused(alloc),
        is_cleared(alloc),
    );
    assert_eq!(rt; cases, (Ok(true), Ok(true), Ok(true), Ok(true)));
    Ok(())
}

#[test]
fn behind_a_crash(rt: HostRuntime) -> Result<(), Fail> {
    let alloc = rt.alloc();
    for choice in 0..5 {
        assert_eq!(rt;
            (goes_on(alloc, choice), stays_dropped(alloc, choice)),
            (Ok(true), Ok(true))
        );
    }
    Ok(())
}
