//! Why the engine stopped.

/// Why the engine stopped: no record may follow before a restart.
#[derive(Clone, Copy, Debug, PartialEq, Eq)]
pub enum Cause {
    /// An audit of this epoch failed, and this is the first region that it names.
    Damage { region: u32 },
    /// The store failed.
    Store,
}
