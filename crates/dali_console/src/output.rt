//! Standard output, before which the line that tells how far a run is goes away.
ghost use Rattle.std.specs.Prelude.{◌≡◌, None};
ghost use Rattle.dali_console.specs.Inputs.{written_to, failure_met};

use crate::failure::failure_behind;
use crate::{Progress, StreamFailure};
use std::io::{self, IsTerminal, Print, Write};

/// Writes to a writer, takes the line that tells how far a run is away before, and keeps why the last failed write has failed.
#[derive(Drop)]
pub struct KeptOutput<'a, W: Write + Drop, E: Print + IsTerminal + Drop> {
    writer: W,
    progress: &'a Progress<E>,
    failure: Option<StreamFailure>,
}

impl<'a, W: Write + Drop, E: Print + IsTerminal + Drop> KeptOutput<'a, W, E> {
    /// Writes to this writer. It takes no memory.
    pub fn new(writer: W, progress: &'a Progress<E>) -> Self
        ensures writer { written_to result ≡ writer }
        ensures failure { failure_met result ≡ None }
    {
        KeptOutput {
            writer,
            progress,
            failure: None,
        }
    }

    /// Why the last write that failed has failed. None where none has.
    pub fn failure(&self) -> Option<StreamFailure>
        ensures { result ≡ failure_met self.now }
    {
        self.failure
    }
}

impl<W: Write + Drop, E: Print + IsTerminal + Drop> Write for KeptOutput<'_, W, E> {
    ghost contents = { λ o. W.contents o.writer };

    fn write(&mut self, buf: &[u8]) -> io::Result<usize> {
        self.progress.clear();
        let outcome = self.writer.write(buf);
        match outcome {
            Ok(0) if !buf.is_empty() => self.failure = Some(StreamFailure::TakesNoMore),
            Ok(_) => {}
            Err(error) => self.failure = failure_behind(&error, self.failure),
        }
        outcome
    }

    fn flush(&mut self) -> io::Result<()> {
        self.writer.flush()
    }
}
