//! The modes of a lock, and what a request is answered.

ghost use Rattle.std.specs.Prelude.{◌≡◌, not};
ghost use Rattle.dali_locks.specs.Locks.{both_shared, stronger_mode};

/// How a transaction holds a key.
#[derive(Clone, Copy, PartialEq, Eq)]
pub enum Mode {
    /// Beside others that share it.
    Shared,
    /// Alone.
    Exclusive,
}

impl Mode {
    // Whether two transactions cannot hold one key in these modes.
    pub(crate) fn conflicts_with(self, other: Mode) -> bool
        ensures { result ≡ not (both_shared self other) }
    {
        self == Mode::Exclusive || other == Mode::Exclusive
    }

    // The stronger of this mode and of one that is held.
    pub(crate) fn or_held(self, held: Option<Mode>) -> Mode
        ensures { result ≡ stronger_mode held self }
    {
        match held {
            Some(Mode::Exclusive) => Mode::Exclusive,
            _ => self,
        }
    }
}

/// What a request for a lock is answered.
#[derive(Clone, Copy, PartialEq, Eq)]
pub enum LockAnswer {
    /// The transaction holds the key in the mode that it asked for, or in a stronger one.
    Granted,
    /// The request may wait: each transaction in its way is younger. `holder` is the oldest of them.
    Wait { holder: u64 },
    /// The request is refused: an older transaction is in its way. `holder` is the oldest one in its way.
    Busy { holder: u64 },
}
