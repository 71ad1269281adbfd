//! Streams: which bytes pass through the standard ones, and that a failure isn't an end.
use dali_streams::{
    Failed, MemorySink, MemorySource, ReadError, StdSink, StdSource, read_all, write_all,
};
use std::alloc::{AllocError, Global};
use std::io::{self, ErrorKind, Read, Write};
use std::test::Fail;

// What a reader or writer does in one call after another: `.` a call that is interrupted, `x` one that fails, any other byte
// a call that takes this byte. Then it is at its end.
#[derive(Drop)]
struct Steps {
    steps: &'static [u8],
    at: usize,
}

impl Steps {
    fn new(steps: &'static str) -> Self {
        Steps {
            steps: steps.as_bytes(),
            at: 0,
        }
    }

    fn next(&mut self) -> io::Result<Option<u8>> {
        if self.at >= self.steps.len() {
            return Ok(None);
        }
        let step = self.steps[self.at];
        self.at += 1;
        match step {
            b'.' => Err(io::Error::from(ErrorKind::Interrupted)),
            b'x' => Err(io::Error::from(ErrorKind::BrokenPipe)),
            byte => Ok(Some(byte)),
        }
    }
}

impl Read for Steps {
    fn read(&mut self, buf: &mut [u8]) -> io::Result<usize> {
        if buf.is_empty() {
            return Ok(0);
        }
        match self.next()? {
            Some(byte) => {
                buf[0] = byte;
                Ok(1)
            }
            None => Ok(0),
        }
    }
}

// Takes a byte where its next step is this byte.
impl Write for Steps {
    fn write(&mut self, buf: &[u8]) -> io::Result<usize> {
        if buf.is_empty() {
            return Ok(0);
        }
        match self.next()? {
            Some(byte) if byte == buf[0] => Ok(1),
            _ => Ok(0),
        }
    }

    fn flush(&mut self) -> io::Result<()> {
        Ok(())
    }
}

// Whether all of these steps, up to ten bytes, is read so.
fn is_read(alloc: Global, steps: &'static str, wanted: Result<&str, ReadError>) -> bool {
    let mut source = StdSource::new(Steps::new(steps));
    match (read_all(alloc, &mut source, 10), wanted) {
        (Ok(bytes), Ok(wanted)) => bytes.as_slice() == wanted.as_bytes(),
        (Err(error), Err(wanted)) => error == wanted,
        _ => false,
    }
}

// Where two reads fail, the first one is told; no read behind a failed one counts.
#[test]
fn a_failed_read_is_no_end(rt: HostRuntime) -> Result<(), Fail> {
    let fault = Err(ReadError::Fault);
    for (steps, wanted) in [
        ("123", Ok("123")),
        ("1..23.", Ok("123")),
        ("", Ok("")),
        ("x123", fault),
        ("1x23", fault),
        ("12x3", fault),
        ("123x", fault),
        ("1.x.2x3", fault),
        ("1234567890", Ok("1234567890")),
        ("123456789012", Err(ReadError::TooLong)),
        ("1234567890x", fault),
    ] {
        assert!(rt; is_read(rt.alloc(), steps, wanted), "{steps}");
    }
    Ok(())
}

#[test]
fn a_short_write_is_not_whole(rt: HostRuntime) -> Result<(), Fail> {
    for (steps, wanted) in [
        ("123", Ok(())),
        ("1..2.3", Ok(())),
        ("x123", Err(Failed)),
        ("1x23", Err(Failed)),
        ("12x3", Err(Failed)),
        ("1x2x3", Err(Failed)),
        ("12", Err(Failed)),
        ("", Err(Failed)),
    ] {
        let mut sink = StdSink::new(Steps::new(steps));
        assert!(rt; write_all(&mut sink, b"123") == wanted, "{steps}");
    }
    Ok(())
}

// What is read of a source in memory, and written to a sink there, in pieces of so many bytes; whether both succeed, and
// whether the sink has all, where these calls of each fail.
fn through_memory(
    alloc: Global,
    piece: usize,
    failing: &[u64],
) -> Result<(bool, bool, bool), AllocError> {
    if piece == 0 {
        return Ok((false, false, false));
    }
    let bytes = Vec::from_slice(alloc, b"12345")?;
    let mut source = MemorySource::new(bytes, piece, Vec::from_slice(alloc, failing)?);
    let mut sink = MemorySink::new(alloc, piece, Vec::from_slice(alloc, failing)?);
    let read = match read_all(alloc, &mut source, 5) {
        Ok(read) => read.as_slice() == b"12345".as_slice(),
        Err(_) => false,
    };
    let written = write_all(&mut sink, b"12345").is_ok();
    Ok((read, written, sink.taken() == b"12345".as_slice()))
}

// Five bytes in pieces of two are three writes, and three reads before the one that finds the end.
#[test]
fn bytes_pass_through_memory(rt: HostRuntime) -> Result<(), Fail> {
    for (failing, read, written) in [
        (99, true, true),
        (0, false, false),
        (1, false, false),
        (2, false, false),
        (3, false, true),
        (4, true, true),
    ] {
        assert_eq!(rt;
            through_memory(rt.alloc(), 2, &[failing])?,
            (read, written, written)
        );
    }
    Ok(())
}
