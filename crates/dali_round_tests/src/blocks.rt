//! Blocks, read from their text, and whether a round may run them.
ghost use Rattle.std.specs.Prelude.{◌≡◌, ◌∷◌, [], false, true, map, IfSome};
ghost use Rattle.dali_record.specs.Spelling.{IsCall};
ghost use Rattle.dali_transcripts.specs.Rounds.{IsPlaced, AreBlocks};
ghost use Rattle.dali_transcripts.specs.Clients.Told.{act_of, told_of};
ghost use Rattle.dali_round_tests.specs.Placing.{Leads, IsBlock};

use anyhow::Result;
use dali_record::Call;
use dali_round::{Block, Command};
use dali_words::Value;
use std::alloc::Global;

// The command of these words.
fn command(words: &[&str]) -> Option<Command> {
    Some(match words {
        ["begin"] => Command::Begin,
        ["insert", key, value] => Command::Call {
            call: Call::Insert {
                key: key.parse().ok()?,
                value: Value::from_bytes(value.as_bytes())?,
            },
        },
        ["update", key, value] => Command::Call {
            call: Call::Update {
                key: key.parse().ok()?,
                value: Value::from_bytes(value.as_bytes())?,
            },
        },
        ["delete", key] => Command::Call {
            call: Call::Delete {
                key: key.parse().ok()?,
            },
        },
        ["get", key] => Command::Call {
            call: Call::Get {
                key: key.parse().ok()?,
            },
        },
        ["die", operation] => Command::Die {
            operation: operation.parse().ok()?,
        },
        ["commit"] => Command::Commit,
        ["abort"] => Command::Abort,
        ["poke", region, word, mask] => Command::Poke {
            region: region.parse().ok()?,
            word: word.parse().ok()?,
            mask: u64::from_str_radix(mask, 16).ok()?,
        },
        ["audit"] => Command::Audit,
        ["checkpoint"] => Command::Checkpoint,
        _ => return None,
    })
}

// The words of a text.
fn words_of<'a>(alloc: Global, text: &'a str) -> Result<Vec<&'a str>> {
    let mut words = Vec::new(alloc);
    for word in text.split_whitespace() {
        words.push(word)?;
    }
    Ok(words)
}

// The command of a text.
fn read(alloc: Global, text: &str) -> Option<Command> {
    match words_of(alloc, text) {
        Ok(words) => command(&words),
        Err(_) => None,
    }
}

fn add(commands: &mut Vec<Command>, more: &[Command]) -> Result<()> {
    for command in more {
        commands.push(*command)?;
    }
    Ok(())
}

/// The block of a client: its commands have ` / ` between them.
pub fn block(alloc: Global, client: u32, text: &str) -> Result<Block> {
    let mut commands = Vec::new(alloc);
    for part in text.split('/') {
        match read(alloc, part) {
            Some(command) => add(&mut commands, &[command])?,
            None => anyhow::bail!("no command"),
        }
    }
    Ok(Block { client, commands })
}

// A call has a key and a value that records can have.
fn look_at(call: &Call)
    ensures { IsCall call.now }
{
    match call {
        Call::Insert { key, value } | Call::Update { key, value } => {
            let _key = *key;
            let _count = value.bytes().len();
        }
        Call::Delete { key } | Call::Get { key } => {
            let _key = *key;
        }
    }
}

// Whether a transaction is open behind a command that stands outside of one, if it may stand there.
fn behind_outside(command: &Command) -> Option<bool>
    ensures { IfSome result (Leads false (act_of command.now)) }
{
    match command {
        Command::Begin => Some(true),
        Command::Poke { word, mask, .. } if *word < 64 && *mask >= 1 => Some(false),
        Command::Audit => Some(false),
        Command::Checkpoint => Some(false),
        _ => None,
    }
}

// So for one that stands in a transaction.
fn behind_within(command: &Command) -> Option<bool>
    ensures { IfSome result (Leads true (act_of command.now)) }
{
    match command {
        Command::Call { call } => {
            look_at(call);
            Some(true)
        }
        Command::Die { operation } if *operation >= 1 => Some(true),
        Command::Commit => Some(false),
        Command::Abort => Some(false),
        _ => None,
    }
}

// Whether each command of a block may stand where it does.
fn is_placed(commands: &[Command]) -> bool
    ensures { result ≡ true → IsPlaced false (map act_of commands.now) }
{
    let mut within = false;
    for command in commands {
        let behind = if within {
            behind_within(command)
        } else {
            behind_outside(command)
        };
        match behind {
            Some(open) => within = open,
            None => return false,
        }
    }
    true
}

/// Whether a round may run these blocks, by ascending number.
pub fn are_blocks(blocks: &[Block]) -> bool
    ensures { result ≡ true → AreBlocks (map told_of blocks.now) }
{
    let mut last = 0;
    for block in blocks {
        if block.client <= last || block.client > 64 || !is_placed(&block.commands) {
            return false;
        }
        last = block.client;
    }
    true
}

// Whether a round may run this block.
fn is_block(block: &Block) -> bool
    ensures { result ≡ true → IsBlock (told_of block.now) }
{
    if block.client == 0 || block.client > 64 {
        return false;
    }
    is_placed(&block.commands)
}

/// Whether a round may run these two blocks, in this order.
pub fn may_be_beside(first: &Block, second: &Block) -> bool
    ensures { result ≡ true → AreBlocks (told_of first.now ∷ told_of second.now ∷ []) }
{
    if !is_block(first) || !is_block(second) {
        return false;
    }
    first.client != second.client
}
