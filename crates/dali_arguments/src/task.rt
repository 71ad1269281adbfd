//! What the command line asks for.
ghost use Rattle.std.specs.Prelude.{◌≡◌};
ghost use Rattle.dali_arguments.specs.Tasks.{only_reads};

/// What the command line asks for.
#[derive(Clone, Copy, PartialEq, Eq)]
pub enum Task {
    /// Runs the script on standard input.
    Run {
        /// Whether a region is checked before it is read or written.
        precheck: bool,
        /// The bytes that the log may have, from 4,096 to 268,435,456.
        limit: u64,
    },
    /// Runs a generated script.
    Generate {
        /// How many clients it has, from 1 to 64.
        clients: u32,
        /// How many transactions each client has, from 1 to 1,000.
        size: u32,
        /// What its choices are drawn from.
        number: u64,
    },
    /// Prints the records of the store's log.
    Dump,
    /// Prints the database's records.
    Show,
    /// Prints what the store holds.
    Status,
    /// Makes a database that holds the records on standard input.
    Load {
        /// How many index regions it has, from 1 to 32,768.
        index: u32,
        /// How many heap regions it has, from 1 to 65,536.
        heap: u32,
    },
}

impl Task {
    /// Whether the task only reads the store.
    pub fn only_reads(self) -> bool
        ensures { result ≡ only_reads self }
    {
        match self {
            Task::Run { .. } | Task::Generate { .. } | Task::Load { .. } => false,
            Task::Dump | Task::Show | Task::Status => true,
        }
    }
}
