//! What clients are told to do.
ghost use Rattle.std.specs.Prelude.{◌≡◌};
ghost use Rattle.dali_transcripts.specs.Words.{closes};
ghost use Rattle.dali_transcripts.specs.Clients.Told.{act_of};

use dali_record::Call;

/// A command of a client.
#[derive(Clone, Copy, PartialEq, Eq)]
pub enum Command {
    /// Begins a transaction.
    Begin,
    /// A call of the transaction on one record.
    Call { call: Call },
    /// The client dies in the operation with this number, counted from 1 and from here on, between its last update and
    /// its record. Operations that take something back aren't counted. A second one in a transaction replaces the first.
    Die { operation: u64 },
    /// Commits the transaction.
    Commit,
    /// Takes the transaction back.
    Abort,
    /// Changes a word of a region to its exclusive-or with the mask.
    Poke { region: u32, word: u8, mask: u64 },
    /// Compares the codeword of each region with its words.
    Audit,
    /// Writes an image of the regions, and makes it the current one.
    Checkpoint,
}

impl Command {
    /// Whether it ends a transaction.
    pub fn closes(&self) -> bool
        ensures { result ≡ closes (act_of self.now) }
    {
        matches!(self, Command::Commit | Command::Abort)
    }
}

/// What a client does in a round.
#[derive(Drop)]
pub struct Block {
    /// The client's number, 1 to 64.
    pub client: u32,
    /// Its commands in order. A transaction goes from a begin to the next commit or abort, or to the end.
    pub commands: Vec<Command>,
}
