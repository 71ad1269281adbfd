//! Reading a script line after line.
ghost use Rattle.std.specs.Prelude.{◌≡◌, ◌⊎◌, ℕ, List, IfOk, OnOk, map};
ghost use Rattle.dali_script.specs.declared.faults.Kind.{Kind};
ghost use Rattle.dali_script.specs.declared.commands.Command.{Command};
ghost use Rattle.dali_script.specs.Grammar.{verdict, is_new_here, IsSpelled, IsWrong};
ghost use Rattle.dali_script.specs.Reading.{at_start, context_of, taken, read_line, finished, outcome, step_of, single_of, with_round_ended, Gives};
ghost use Rattle.dali_script.specs.Parser.{state_of};

use crate::commands::{Block, Blocks, ClientCommand, ClientCommands, Command, Script};
use crate::faults::{Kind, ScriptError};
use crate::items::{Item, make_item};
use crate::lines::{first_line, is_a_comment, put_words};
use crate::names::Name;
use crate::places::Place;
use std::alloc::{AllocError, Global};
use std::mem;

// What was read so far.
#[derive(Drop)]
struct Parser {
    place: Place,
    // the line and the number of the last `client`
    opened: u64,
    client: u32,
    // those of the round that may still go on, and its blocks that have ended
    clients: Vec<u32>,
    blocks: Vec<Block>,
    // the commands of the block that is open
    steps: Vec<ClientCommand>,
    commands: Vec<Command>,
}

// The line as a command of a block.
fn client_command(item: Item) -> Option<ClientCommand>
    ensures { result ≡ step_of item }
{
    match item {
        Item::Begin => Some(ClientCommand::Begin),
        Item::Insert { key, value } => Some(ClientCommand::Insert { key, value }),
        Item::Update { key, value } => Some(ClientCommand::Update { key, value }),
        Item::Delete { key } => Some(ClientCommand::Delete { key }),
        Item::Get { key } => Some(ClientCommand::Get { key }),
        Item::Die { operation } => Some(ClientCommand::Die { operation }),
        Item::Commit => Some(ClientCommand::Commit),
        Item::Abort => Some(ClientCommand::Abort),
        Item::Poke { region, word, mask } => Some(ClientCommand::Poke { region, word, mask }),
        Item::Audit => Some(ClientCommand::Audit),
        Item::Checkpoint => Some(ClientCommand::Checkpoint),
        _ => None,
    }
}

// The line as a single command.
fn single_command(item: Item) -> Option<Command>
    ensures { result ≡ single_of item }
{
    match item {
        Item::Size { index, heap } => Some(Command::Size { index, heap }),
        Item::Open => Some(Command::Open),
        Item::Poke { region, word, mask } => Some(Command::Poke { region, word, mask }),
        Item::Audit => Some(Command::Audit),
        Item::Checkpoint => Some(Command::Checkpoint),
        Item::Cleanup => Some(Command::Cleanup),
        Item::Crash { choice } => Some(Command::Crash { choice }),
        Item::Restart => Some(Command::Restart),
        Item::Show => Some(Command::Show),
        Item::Verify => Some(Command::Verify),
        Item::Next => Some(Command::Next),
        Item::Fuse { passes } => Some(Command::Fuse { passes }),
        _ => None,
    }
}

impl Parser {
    fn new(alloc: Global) -> Self
        ensures { state_of result ≡ at_start }
    {
        Parser {
            place: Place::Start,
            opened: 0,
            client: 0,
            clients: Vec::new(alloc),
            steps: Vec::new(alloc),
            blocks: Vec::new(alloc),
            commands: Vec::new(alloc),
        }
    }

    // Takes a command line that may stand here.
    fn take(&mut self, alloc: Global, line: u64, item: Item) -> Result<(), AllocError>
        ensures { OnOk result (state_of self.new ≡ taken line item (state_of self.old)) }
    {
        let place = self.place.after(&item);
        match item {
            Item::Client { number } => {
                self.clients.push(number)?;
                self.client = number;
                self.opened = line;
            }
            Item::End => {
                let commands = ClientCommands::new(mem::replace(&mut self.steps, Vec::new(alloc)));
                self.blocks.push(Block {
                    client: self.client,
                    commands,
                })?;
            }
            _ if self.place.is_in_block() => {
                if let Some(command) = client_command(item) {
                    self.steps.push(command)?;
                }
            }
            _ => {
                if let Some(command) = single_command(item) {
                    self.end_round(alloc)?;
                    self.commands.push(command)?;
                }
            }
        }
        self.place = place;
        Ok(())
    }

    // The round that may still go on becomes a command.
    fn end_round(&mut self, alloc: Global) -> Result<(), AllocError>
        ensures { OnOk result (state_of self.new ≡ with_round_ended (state_of self.old)) }
    {
        self.clients.clear();
        if !self.blocks.is_empty() {
            let blocks = Blocks::new(mem::replace(&mut self.blocks, Vec::new(alloc)));
            self.commands.push(Command::Round { blocks })?;
        }
        Ok(())
    }

    // Whether the round has no block of this client yet.
    fn is_new_here(&self, item: &Item) -> bool
        ensures { result ≡ is_new_here (context_of (state_of self.now)) item.now }
    {
        match item {
            Item::Client { number } => !self.clients.contains(number),
            _ => true,
        }
    }

    fn verdict(&self, words: &[&[u8]]) -> Result<Item, Kind>
        ensures { result ≡ verdict (context_of (state_of self.now)) (map (λ word. word.now) words.now) }
    {
        let [word, arguments @ ..] = words else {
            return Err(Kind::Unknown);
        };
        let name = Name::of(word);
        if self.place == Place::Start && !matches!(name, Some(Name::Size | Name::Open)) {
            return Err(Kind::SizeOrOpenWanted);
        }
        let name = name.ok_or(Kind::Unknown)?;
        if !self.place.allows(name) {
            return Err(Kind::Place);
        }
        let item = make_item(name, arguments)?;
        if !self.is_new_here(&item) {
            return Err(Kind::Client);
        }
        Ok(item)
    }

    // Reads a line, whose words take the place of the last one's.
    fn read_line<'a>(
        &mut self,
        alloc: Global,
        line: u64,
        text: &'a [u8],
        words: &mut Vec<&'a [u8]>,
    ) -> Result<(), ScriptError>
        ensures { Gives (λ _. state_of self.new) result (read_line line text.now (state_of self.old)) }
    {
        if is_a_comment(text) {
            return Ok(());
        }
        put_words(text, words)?;
        if words.is_empty() {
            return Ok(());
        }
        match self.verdict(words) {
            Ok(item) => Ok(self.take(alloc, line, item)?),
            Err(kind) => Err(ScriptError::BadLine { line, kind }),
        }
    }

    // The script at the end of so many lines.
    fn finish(mut self, alloc: Global, lines: u64) -> Result<Script, ScriptError>
        ensures { Gives (λ script. script) result (finished lines (state_of self)) }
    {
        match self.place {
            Place::Start => Err(ScriptError::BadLine {
                line: lines,
                kind: Kind::SizeOrOpenWanted,
            }),
            Place::Outside => {
                self.end_round(alloc)?;
                Ok(Script::new(self.commands))
            }
            Place::InBlock | Place::InTransaction => Err(ScriptError::BadLine {
                line: self.opened,
                kind: Kind::Unended,
            }),
        }
    }
}

fn read(alloc: Global, bytes: &[u8]) -> Result<Script, ScriptError>
    ensures { Gives (λ script. script) result (outcome bytes.now) }
{
    let mut parser = Parser::new(alloc);
    let mut words = Vec::new(alloc);
    let mut rest = Some(bytes);
    let mut line = 0;
    while let Some(text) = rest {
        let (first, behind) = first_line(text);
        line += 1;
        parser.read_line(alloc, line, first, &mut words)?;
        rest = behind;
    }
    parser.finish(alloc, line)
}

/// The script that the bytes spell.
///
/// `BadLine` names the first line that is wrong, from 1 on, and the first test that it fails, in the order of `Kind`.
/// A script without a command is wrong behind its last line feed, and an unended block at its `client`.
///
/// It takes time in proportion to the bytes, and at most 64 bytes of memory for each; no clause says so.
pub fn parse(alloc: Global, bytes: &[u8]) -> Result<Script, ScriptError>
    // A script is given only where the bytes spell it, and where they do, unless memory runs out.
    ensures spelled { IfOk result (λ script. IsSpelled bytes.now script) }
    ensures only { (script : List Command) → IsSpelled bytes.now script
        → (result ≡ Ok script) ⊎ (result ≡ Err ScriptError.OutOfMemory) }

    // So is a fault.
    ensures wrong { (line : ℕ) (kind : Kind) → result ≡ Err (ScriptError.BadLine line kind) → IsWrong bytes.now line kind }
    ensures refused { (line : ℕ) (kind : Kind) → IsWrong bytes.now line kind
        → (result ≡ Err (ScriptError.BadLine line kind)) ⊎ (result ≡ Err ScriptError.OutOfMemory) }
{
    read(alloc, bytes)
}
