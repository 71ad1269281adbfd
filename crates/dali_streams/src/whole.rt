//! Reading to the end, and writing all.
ghost use Rattle.std.specs.Prelude.{◌≡◌, ◌≤◌, ◌<◌, ◌^◌, ℕ, length, IfOk, OnOk, OnErr, IsErrOf};
ghost use Rattle.dali_store.specs.Faults.{Rose, HasCause};
ghost use Rattle.dali_streams.specs.Streams.{ReadAll, ReadTooMany, Appends, AppendsSome};
ghost use Rattle.dali_streams.specs.declared.whole.ReadError.TheVariants.{OutOfMemory};

use crate::{Failed, Sink, Source};
use std::alloc::{AllocError, Global};
use thiserror::Error;

/// Why a source wasn't read to its end.
#[derive(Clone, Copy, Debug, PartialEq, Eq, Error)]
pub enum ReadError {
    #[error("the source failed")]
    Fault,
    #[error("the source has more bytes than the limit")]
    TooLong,
    #[error("out of memory")]
    OutOfMemory,
}

impl From<AllocError> for ReadError {
    ghost from_gives = { λ _ e. e ≡ OutOfMemory };

    fn from(_: AllocError) -> Self {
        ReadError::OutOfMemory
    }
}

// How many bytes are asked for at once.
const PIECE: usize = 4096;

/// All that a source has left, which is at most `limit` bytes. Where it has more, `TooLong` comes once `limit + 1` bytes were read.
/// It takes memory for the bytes.
pub fn read_all<S: Source>(
    alloc: Global,
    source: &mut S,
    limit: usize,
) -> Result<Vec<u8>, ReadError>
    requires { limit < 2 ^ 62 }
    ensures all { IfOk result (λ v. ReadAll (S.left source.old) v.items (S.left source.new)) }
    ensures short { IfOk result (λ v. length v.items ≤ limit) }
    ensures too_long { IsErrOf result ReadError.TooLong → ReadTooMany (S.left source.old) limit (S.left source.new) }
    ensures fault { IsErrOf result ReadError.Fault → Rose (S.faults source.old) (S.faults source.new) }
    ensures kept { (IsErrOf result ReadError.Fault → ⊥) → S.faults source.new ≡ S.faults source.old }
    ensures later { S.faults source.old ≤ S.faults source.new }
{
    let mut bytes = Vec::new(alloc);
    let mut buffer = [0; PIECE];
    while bytes.len() <= limit {
        let room = PIECE.min(limit + 1 - bytes.len());
        let count = match source.read(&mut buffer[..room]) {
            Ok(count) => count,
            Err(Failed) => return Err(ReadError::Fault),
        };
        if count == 0 {
            return Ok(bytes);
        }
        bytes.extend_from_slice(&buffer[..count])?;
    }
    Err(ReadError::TooLong)
}

/// Writes all the bytes. Where it fails, some of the first of them were taken. It takes no memory but the sink's own.
pub fn write_all<K: Sink>(sink: &mut K, bytes: &[u8]) -> Result<(), Failed>
    ensures all { OnOk result (Appends (K.taken sink.old) bytes.now (K.taken sink.new)) }
    ensures some { AppendsSome (K.taken sink.old) bytes.now (K.taken sink.new) }
    ensures cause { HasCause (K.faults sink.old) (K.faults sink.new) result }
{
    let mut rest = bytes;
    while !rest.is_empty() {
        let count = sink.write(rest)?;
        rest = &rest[count..];
    }
    Ok(())
}
