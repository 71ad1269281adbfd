//! The standard streams, or any reader and writer of the system: the trusted edge.
ghost use Rattle.std.specs.Prelude.{◌≡◌, ◌≤◌, ◌<◌, Ok, length, IfOk, OnErr};
ghost use Rattle.dali_store.specs.Faults.{HasCause, one_more};

use crate::{Failed, Sink, Source};
use std::io::{self, ErrorKind, Read, Write};

// Counts a read or a write that failed.
fn counted(faults: &mut u64, outcome: io::Result<usize>) -> Result<usize, Failed>
    ensures value { IfOk result (λ n. outcome ≡ Ok n) }
    ensures failed { OnErr result (faults.new ≡ one_more faults.old) }
    ensures cause { HasCause faults.old faults.new result }
{
    match outcome {
        Ok(count) => Ok(count),
        Err(_) => {
            *faults = faults.saturating_add(1);
            Err(Failed)
        }
    }
}

/// Reads from a reader, such as standard input, and counts its failures. It tells nothing of what it reads.
#[derive(Drop)]
pub struct StdSource<R: Read + Drop> {
    reader: R,
    faults: u64,
}

// One read, which asks again where it is interrupted.
fn read_some<R: Read>(reader: &mut R, into: &mut [u8]) -> io::Result<usize>
    ensures { IfOk result (λ n. n ≤ length into.old) }
{
    for _ in 0..u64::MAX {
        match reader.read(into) {
            Ok(count) => return Ok(count),
            Err(error) if error.kind() == ErrorKind::Interrupted => {}
            Err(error) => return Err(error),
        }
    }
    Err(io::Error::from(ErrorKind::TimedOut))
}

impl<R: Read + Drop> StdSource<R> {
    /// A source that reads from this reader. It takes no memory.
    pub fn new(reader: R) -> Self
        ensures { result ≡ record { reader = reader; faults = 0 } }
    {
        StdSource { reader, faults: 0 }
    }
}

impl<R: Read + Drop> Source for StdSource<R> {
    ghost left = { λ s. None };

    ghost faults = { λ s. s.faults };

    ghost use Rattle.std.specs.Prelude.{None};

    /// One read of the reader, which is made again where it is interrupted. Each other error is a fault.
    fn read(&mut self, into: &mut [u8]) -> Result<usize, Failed> {
        let outcome = read_some(&mut self.reader, into);
        counted(&mut self.faults, outcome)
    }
}

/// Writes to a writer, such as standard output, and counts its failures. It tells nothing of what it wrote.
#[derive(Drop)]
pub struct StdSink<W: Write + Drop> {
    writer: W,
    faults: u64,
}

// One write, which asks again where it is interrupted. It fails where it takes nothing of bytes that aren't empty.
fn write_some<W: Write>(writer: &mut W, bytes: &[u8]) -> io::Result<usize>
    ensures count { IfOk result (λ n. n ≤ length bytes.now) }
    ensures some { IfOk result (λ n. 0 < length bytes.now → 0 < n) }
{
    for _ in 0..u64::MAX {
        match writer.write(bytes) {
            Ok(count) if count > 0 || bytes.is_empty() => return Ok(count),
            Ok(_) => return Err(io::Error::from(ErrorKind::WriteZero)),
            Err(error) if error.kind() == ErrorKind::Interrupted => {}
            Err(error) => return Err(error),
        }
    }
    Err(io::Error::from(ErrorKind::TimedOut))
}

impl<W: Write + Drop> StdSink<W> {
    /// A sink that writes to this writer. It takes no memory.
    pub fn new(writer: W) -> Self
        ensures { result ≡ record { writer = writer; faults = 0 } }
    {
        StdSink { writer, faults: 0 }
    }
}

impl<W: Write + Drop> Sink for StdSink<W> {
    ghost taken = { λ s. None };

    ghost faults = { λ s. s.faults };

    ghost use Rattle.std.specs.Prelude.{None};

    /// One write of the writer, which is made again where it is interrupted. Each other error is a fault, and so is a
    /// write that takes nothing of bytes that aren't empty.
    fn write(&mut self, bytes: &[u8]) -> Result<usize, Failed> {
        let outcome = write_some(&mut self.writer, bytes);
        counted(&mut self.faults, outcome)
    }
}
