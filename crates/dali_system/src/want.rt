//! What a plan needs next.

/// What a plan needs next, be it of a call, of a taking back or of a clean-up.
#[derive(Clone, Copy, PartialEq, Eq)]
pub enum Want {
    /// This region: its latch, its updates and the operation's commit.
    Region { region: u32 },
    /// The call's answer, or the end of the clean-up.
    Done,
    /// Nothing: all is done.
    Nothing,
}
