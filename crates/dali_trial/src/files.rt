//! The four files of the current folder.
use anyhow::Result;
use dali_memstore::MemoryStore;
use dali_store::FileName;
use std::fs;
use std::io::{self, ErrorKind};
use std::rt::Files;

// The name of a file.
fn name_of<'a>(file: FileName) -> &'a str {
    match file {
        FileName::Log => "dali.log",
        FileName::ImageA => "dali.a",
        FileName::ImageB => "dali.b",
        FileName::Anchor => "dali.anchor",
    }
}

// The bytes of a file; none where it is absent.
fn read<R: AllocGlobal + Files>(rt: &R, file: FileName) -> io::Result<Vec<u8>> {
    match fs::read(rt, name_of(file)) {
        Ok(bytes) => Ok(bytes),
        Err(error) if error.kind() == ErrorKind::NotFound => Ok(Vec::new(rt.alloc())),
        Err(error) => Err(error),
    }
}

/// The bytes of the log, both images and the anchor.
pub fn read_all<R: AllocGlobal + Files>(rt: &R) -> io::Result<[Vec<u8>; 4]> {
    Ok([
        read(rt, FileName::Log)?,
        read(rt, FileName::ImageA)?,
        read(rt, FileName::ImageB)?,
        read(rt, FileName::Anchor)?,
    ])
}

// Writes a file. Where it has no bytes it is removed.
fn write<R: Files>(rt: &R, file: FileName, bytes: &[u8]) -> io::Result<()> {
    let name = name_of(file);
    if !bytes.is_empty() {
        return fs::write(rt, name, bytes);
    }
    match fs::remove_file(rt, name) {
        Err(error) if error.kind() == ErrorKind::NotFound => Ok(()),
        removed => removed,
    }
}

/// Writes the files that a store has.
pub fn write_all<R: Files>(rt: &R, store: &MemoryStore) -> io::Result<()> {
    for file in [
        FileName::Log,
        FileName::ImageA,
        FileName::ImageB,
        FileName::Anchor,
    ] {
        write(rt, file, store.file(file))?;
    }
    Ok(())
}
