//! What no run leaves.
ghost use Rattle.std.specs.Prelude.{IsErr};

use dali_bytes::OutOfMemory;

/// What no run leaves, as a core of files that another program wrote: the round ends as where memory is wanting.
pub(crate) fn no_run<T>() -> Result<T, OutOfMemory>
    ensures { IsErr result }
{
    Err(OutOfMemory)
}
