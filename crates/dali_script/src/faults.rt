//! Why a script is refused.
ghost use Rattle.std.specs.Prelude.{◌≡◌};
ghost use Rattle.dali_script.specs.Faults.{text_of};

use std::alloc::{AllocError, AllocFailed};
use std::fmt;
use thiserror::Error;

/// What is wrong with a line of a script, in the order in which a line is tested.
#[derive(Clone, Copy, Debug, PartialEq, Eq)]
pub enum Kind {
    /// The first command is neither `size` nor `open`, or there is none.
    SizeOrOpenWanted,
    /// The first word is no command.
    Unknown,
    /// The command may not stand here.
    Place,
    /// The command has another count of words.
    Arguments,
    /// The leftmost argument that is wrong is a number or mask outside its form or range.
    Number,
    /// The leftmost argument that is wrong is a value.
    Value,
    /// The client has a block in this round already.
    Client,
    /// The last block has no `end`.
    Unended,
}

impl Kind {
    /// The kind as it is printed.
    pub fn text(self) -> &'static str
        ensures { result.now ≡ text_of self }
    {
        match self {
            Kind::SizeOrOpenWanted => "size or open wanted",
            Kind::Unknown => "unknown",
            Kind::Place => "place",
            Kind::Arguments => "arguments",
            Kind::Number => "number",
            Kind::Value => "value",
            Kind::Client => "client",
            Kind::Unended => "unended",
        }
    }
}

impl fmt::Display for Kind {
    ghost use Rattle.std.specs.Prelude.{Some};

    ghost output = { λ kind. Some (text_of kind) };

    fn fmt<W: fmt::Write>(&self, f: &mut fmt::Formatter<W>) -> fmt::Result {
        f.write_str(self.text())
    }
}

/// Why there is no script.
#[derive(Debug, Drop, Error)]
pub enum ScriptError {
    /// The first line that is wrong, counted from 1, and the first test that it fails.
    #[error("line {line}: {kind}")]
    BadLine { line: u64, kind: Kind },
    /// Memory ran out.
    #[error("out of memory")]
    OutOfMemory,
}

impl From<AllocError> for ScriptError {
    ghost use Rattle.dali_script.specs.declared.faults.ScriptError.TheVariants.{OutOfMemory};

    ghost from_gives = { λ _ e. e ≡ OutOfMemory };

    fn from(_error: AllocError) -> Self {
        ScriptError::OutOfMemory
    }
}

impl<T: Drop> From<AllocFailed<T>> for ScriptError {
    ghost use Rattle.dali_script.specs.declared.faults.ScriptError.TheVariants.{OutOfMemory};

    ghost from_gives = { λ _ e. e ≡ OutOfMemory };

    fn from(_error: AllocFailed<T>) -> Self {
        ScriptError::OutOfMemory
    }
}
