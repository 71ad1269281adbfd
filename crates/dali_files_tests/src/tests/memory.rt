//! Files in memory: that calls succeed where there is memory, and bytes after a cut that were worked out by hand.
use super::{checked, fill, seen, take_away};
use dali_files::{FileKey, Files};
use dali_memfiles::MemoryFiles;
use dali_store::StoreFault;
use std::test::Fail;

// What a segment has where four bytes were written over three that were kept, and the files are cut.
fn cut_segment<F: Files>(files: &mut F, number: u32, choice: u32) -> Result<[u8; 4], StoreFault> {
    let file = checked(FileKey::Segment { number });
    fill(files, file, &[1, 2, 3])?;
    files.write_at(file, 0, &[7, 8, 9, 10])?;
    files.cut(choice)?;
    let (_, _, read) = seen(files, file)?;
    Ok(read)
}

// A file is filled, read and removed, and the removal kept.
fn each_call<F: Files>(files: &mut F, file: FileKey) -> Result<(u64, u64), StoreFault> {
    fill(files, file, &[5, 6, 7])?;
    let (before, _, _) = seen(files, file)?;
    take_away(files, file)?;
    files.cut(1)?;
    let (after, _, _) = seen(files, file)?;
    Ok((before, after))
}

#[test]
fn calls_succeed_and_a_cut_gives_the_bytes_of_its_formula(rt: HostRuntime) -> Result<(), Fail> {
    let alloc = rt.alloc();
    // 31 choice + 17 file + 7 place, at the places 0 to 3, are for choice 2
    // 62, 69, 76, 83 for segment 0: 2 + 0, the old byte, the new one, 2 + 3
    // 147, 154, 161, 168 for segment 1, whose number is 5: the old byte, the new one, 2 + 2, and 0 past the old end
    let mut files = MemoryFiles::new(alloc, Vec::new(alloc));
    let bytes = (
        cut_segment(&mut files, 0, 2),
        cut_segment(&mut files, 1, 2),
        cut_segment(&mut files, 2, 0),
        cut_segment(&mut files, 3, 1),
    );
    let lengths = (
        each_call(&mut files, FileKey::ImageB),
        each_call(&mut files, FileKey::Segment { number: 9 }),
    );
    assert_eq!(rt;
        (bytes, lengths),
        (
            (
                Ok([2, 2, 9, 5]),
                Ok([1, 8, 4, 0]),
                Ok([7, 8, 9, 10]),
                Ok([1, 2, 3, 99])
            ),
            (Ok((3, 0)), Ok((3, 0)))
        )
    );
    Ok(())
}
