//! A script that was read: its commands.
ghost use Rattle.std.specs.Prelude.{◌≡◌};

use dali_words::Value;
use std::marker::Model;
use std::mem::size_of;

// A command of a block takes a line of at least six bytes, and a block two lines of at least thirteen.
const _: () = prove!(
    size_of::<ClientCommand>() <= 64 && size_of::<Block>() <= 64 && size_of::<Command>() <= 64
);

/// A command of a client's block.
#[derive(Clone, Copy)]
pub enum ClientCommand {
    /// Begins a transaction.
    Begin,
    /// Stores a record with this key and value.
    Insert { key: u64, value: Value },
    /// Gives the record with this key this value.
    Update { key: u64, value: Value },
    /// Takes the record with this key away.
    Delete { key: u64 },
    /// Asks for the value of the record with this key.
    Get { key: u64 },
    /// The client dies in the operation with this number, counted from 1 and from here on, between its last update and
    /// its record. A second one in a transaction replaces the first.
    Die { operation: u64 },
    /// Commits the transaction.
    Commit,
    /// Takes the transaction back.
    Abort,
    /// Changes a word of a region to its exclusive-or with the mask.
    Poke { region: u32, word: u8, mask: u64 },
    /// Compares the codeword of each region with its words.
    Audit,
    /// Writes an image of the regions, and makes it the current one.
    Checkpoint,
}

/// The commands of a block. Contracts see a list.
#[derive(Drop)]
pub struct ClientCommands {
    commands: Vec<ClientCommand>,
}

impl Model for ClientCommands {
    ghost use Rattle.std.specs.Prelude.{List};
    ghost use Rattle.dali_script.specs.declared.commands.ClientCommand.{ClientCommand};

    ghost Value = { List ClientCommand };

    ghost view = { λ c. c.commands.items };
}

impl ClientCommands {
    /// These commands. It takes no memory.
    pub fn new(commands: Vec<ClientCommand>) -> Self
        ensures { result ≡ commands.items }
    {
        ClientCommands { commands }
    }

    /// The commands in order.
    pub fn as_slice(&self) -> &[ClientCommand]
        ensures { result.now ≡ self.now }
    {
        self.commands.as_slice()
    }
}

/// A client's block of a round.
#[derive(Drop)]
pub struct Block {
    /// The client's number.
    pub client: u32,
    /// The commands between `client` and `end`.
    pub commands: ClientCommands,
}

/// The blocks of a round. Contracts see a list.
#[derive(Drop)]
pub struct Blocks {
    blocks: Vec<Block>,
}

impl Model for Blocks {
    ghost use Rattle.std.specs.Prelude.{List};
    ghost use Rattle.dali_script.specs.declared.commands.Block.{Block};

    ghost Value = { List Block };

    ghost view = { λ b. b.blocks.items };
}

impl Blocks {
    /// These blocks. It takes no memory.
    pub fn new(blocks: Vec<Block>) -> Self
        ensures { result ≡ blocks.items }
    {
        Blocks { blocks }
    }

    /// The blocks in order.
    pub fn as_slice(&self) -> &[Block]
        ensures { result.now ≡ self.now }
    {
        self.blocks.as_slice()
    }
}

/// A command of a script: a single command, or a round with all its blocks.
#[derive(Drop)]
pub enum Command {
    /// Formats the store: so many index regions and heap regions.
    Size { index: u32, heap: u32 },
    /// Opens a store that was formatted before.
    Open,
    /// The blocks of clients that follow each other with no single command between them.
    Round { blocks: Blocks },
    /// Changes a word of a region to its exclusive-or with the mask.
    Poke { region: u32, word: u8, mask: u64 },
    /// Compares the codeword of each region with its words.
    Audit,
    /// Writes an image of the regions, and makes it the current one.
    Checkpoint,
    /// Takes back what dead clients left.
    Cleanup,
    /// Leaves the crash image with this number.
    Crash { choice: u32 },
    /// Gives the memory up and recovers it from the store.
    Restart,
    /// Lists the records.
    Show,
    /// Compares records, answers and deleted transactions with a replay of the log.
    Verify,
    /// Does nothing but end a round.
    Next,
    /// Lets so many store calls pass, and fails all later ones.
    Fuse { passes: u64 },
}

/// A script. Contracts see the list of its commands.
#[derive(Drop)]
pub struct Script {
    commands: Vec<Command>,
}

impl Model for Script {
    ghost use Rattle.std.specs.Prelude.{List};
    ghost use Rattle.dali_script.specs.declared.commands.Command.{Command};

    ghost Value = { List Command };

    ghost view = { λ s. s.commands.items };
}

impl Script {
    /// The script of these commands. It takes no memory.
    pub fn new(commands: Vec<Command>) -> Self
        ensures { result ≡ commands.items }
    {
        Script { commands }
    }

    /// The commands in order; a round with its blocks is one.
    pub fn commands(&self) -> &[Command]
        ensures { result.now ≡ self.now }
    {
        self.commands.as_slice()
    }
}
