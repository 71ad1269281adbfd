use thiserror::Error;

/// Why `decode` answered no record.
#[derive(Clone, Copy, Debug, PartialEq, Eq, Error)]
pub enum DecodeError {
    /// No record's spelling begins at this byte.
    #[error("no record begins at byte {at}")]
    BadRecord { at: usize },
    /// A list wanted memory that was refused.
    #[error("out of memory")]
    OutOfMemory,
}
