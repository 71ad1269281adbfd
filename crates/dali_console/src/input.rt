//! Standard input, of which is kept what was read.
ghost use Rattle.std.specs.Prelude.{◌≡◌, ◌++◌, ◌-◌, Some, None, length, take, OnOk};
ghost use Rattle.dali_console.specs.Inputs.{inner, failure_kept};

use crate::StreamFailure;
use crate::failure::failure_behind;
use std::alloc::{AllocError, Global};
use std::io::{self, Read};

/// How many bytes are kept at most: the first ones.
pub const INPUT_LIMIT: usize = 1_048_576;

// Keeps bytes behind those that were kept, as many as there is room for.
fn keep(kept: &mut Vec<u8>, bytes: &[u8]) -> Result<(), AllocError>
    ensures { OnOk result (kept.new.items ≡ kept.old.items ++ take (1048576 - length kept.old.items) bytes.now) }
{
    let room = INPUT_LIMIT.saturating_sub(kept.len());
    if bytes.len() > room {
        kept.extend_from_slice(&bytes[..room])?;
    } else {
        kept.extend_from_slice(bytes)?;
    }
    Ok(())
}

/// Reads from a reader, and keeps the first bytes that were read, and why the last failed read has failed. The bytes are
/// given up where there is no memory for them.
#[derive(Drop)]
pub struct KeptInput<R: Read + Drop> {
    reader: R,
    kept: Option<Vec<u8>>,
    failure: Option<StreamFailure>,
}

impl<R: Read + Drop> KeptInput<R> {
    /// Reads from this reader. It takes no memory before the first read.
    pub fn new(alloc: Global, reader: R) -> Self
        ensures reader { inner result ≡ reader }
        ensures failure { failure_kept result ≡ None }
    {
        KeptInput {
            reader,
            kept: Some(Vec::new(alloc)),
            failure: None,
        }
    }

    /// The first bytes that were read, at most `INPUT_LIMIT`. None where there was no memory for them.
    pub fn kept(&self) -> Option<&[u8]> {
        match &self.kept {
            Some(kept) => Some(kept.as_slice()),
            None => None,
        }
    }

    /// Why the last read that failed has failed. None where none has.
    pub fn failure(&self) -> Option<StreamFailure>
        ensures { result ≡ failure_kept self.now }
    {
        self.failure
    }

    // Keeps these bytes.
    fn keep(&mut self, bytes: &[u8])
        ensures { inner self.new ≡ inner self.old }
    {
        if let Some(kept) = &mut self.kept {
            if keep(kept, bytes).is_err() {
                self.kept = None;
            }
        }
    }
}

impl<R: Read + Drop> Read for KeptInput<R> {
    ghost remaining = { λ k. R.remaining k.reader };

    fn read(&mut self, buf: &mut [u8]) -> io::Result<usize> {
        let outcome = self.reader.read(buf);
        match outcome {
            Ok(count) => self.keep(&buf[..count]),
            Err(error) => self.failure = failure_behind(&error, self.failure),
        }
        outcome
    }
}
