//! The script that stores rows.
ghost use Rattle.std.specs.Prelude.{◌≡◌, ◌<◌, IfOk, length};
ghost use Rattle.dali_load.specs.Scripts as specs;

use dali_listing::Listed;
use dali_script::{Block, Blocks, ClientCommand, ClientCommands, Command, Script};
use std::alloc::{AllocError, Global};

/// How many rows a transaction stores: as many as a heap region has cells.
pub const GROUP: usize = 7;

/// How many groups so many rows make.
pub fn groups(count: usize) -> usize
    ensures { result ≡ specs.groups count }
{
    count / GROUP + (count % GROUP).min(1)
}

fn group_at(rows: &[Listed], number: usize) -> &[Listed]
    requires { number < specs.groups (length rows.now) }
    ensures { result.now ≡ specs.group_at rows.now number }
{
    let rest = &rows[GROUP * number..];
    &rest[..GROUP.min(rest.len())]
}

// The round of one transaction that stores these rows.
fn round_of(alloc: Global, rows: &[Listed]) -> Result<Command, AllocError>
    ensures { IfOk result (λ round. round ≡ specs.round_of rows.now) }
{
    let mut commands = Vec::new(alloc);
    commands.push(ClientCommand::Begin)?;
    for row in rows {
        commands.push(ClientCommand::Insert {
            key: row.key,
            value: row.value,
        })?;
    }
    commands.push(ClientCommand::Commit)?;
    let mut blocks = Vec::new(alloc);
    blocks.push(Block {
        client: 1,
        commands: ClientCommands::new(commands),
    })?;
    Ok(Command::Round {
        blocks: Blocks::new(blocks),
    })
}

/// The script that makes a database of so many regions, stores the rows in transactions of seven, each a round of its own,
/// and makes a checkpoint. It takes memory for the script, and is refused only where that is.
pub fn script_of(
    alloc: Global,
    index: u32,
    heap: u32,
    rows: &[Listed],
) -> Result<Script, AllocError>
    ensures { IfOk result (λ script. script ≡ specs.script_of index heap rows.now) }
{
    let mut commands = Vec::new(alloc);
    commands.push(Command::Size { index, heap })?;
    for number in 0..groups(rows.len()) {
        commands.push(round_of(alloc, group_at(rows, number))?)?;
    }
    commands.push(Command::Checkpoint)?;
    Ok(Script::new(commands))
}
