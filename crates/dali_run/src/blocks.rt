//! The blocks of a script as clients take them.
ghost use Rattle.std.specs.Prelude.{◌≡◌, ◌∷◌, [], IfOk, map};
ghost use Rattle.dali_transcripts.specs.Clients.Told.{act_of, told_of};
ghost use Rattle.dali_run.specs.Told.{act_by, told_by, alone};

use dali_record::Call;
use dali_script::ClientCommand;
use dali_transcripts::clients::{Block, Command};
use std::alloc::{AllocError, Global};

fn command_of(told: &ClientCommand) -> Command
    ensures { act_of result ≡ act_by told.now }
{
    match *told {
        ClientCommand::Begin => Command::Begin,
        ClientCommand::Insert { key, value } => Command::Call {
            call: Call::Insert { key, value },
        },
        ClientCommand::Update { key, value } => Command::Call {
            call: Call::Update { key, value },
        },
        ClientCommand::Delete { key } => Command::Call {
            call: Call::Delete { key },
        },
        ClientCommand::Get { key } => Command::Call {
            call: Call::Get { key },
        },
        ClientCommand::Die { operation } => Command::Die { operation },
        ClientCommand::Commit => Command::Commit,
        ClientCommand::Abort => Command::Abort,
        ClientCommand::Poke { region, word, mask } => Command::Poke { region, word, mask },
        ClientCommand::Audit => Command::Audit,
        ClientCommand::Checkpoint => Command::Checkpoint,
    }
}

// They are copied, one by one.
fn commands_of(alloc: Global, told: &[ClientCommand]) -> Result<Vec<Command>, AllocError>
    ensures { IfOk result (λ commands. map act_of commands.items ≡ map act_by told.now) }
{
    let mut commands = Vec::with_capacity(alloc, told.len())?;
    for command in told {
        commands.extend_from_slice(&[command_of(command)])?;
    }
    Ok(commands)
}

fn block_of(alloc: Global, told: &dali_script::Block) -> Result<Block, AllocError>
    ensures { IfOk result (λ block. told_of block ≡ told_by told.now) }
{
    Ok(Block {
        client: told.client,
        commands: commands_of(alloc, told.commands.as_slice())?,
    })
}

/// The blocks of a round.
pub fn blocks_of(alloc: Global, told: &[dali_script::Block]) -> Result<Vec<Block>, AllocError>
    ensures { IfOk result (λ blocks. map told_of blocks.items ≡ map told_by told.now) }
{
    let mut blocks = Vec::with_capacity(alloc, told.len())?;
    for block in told {
        blocks.push(block_of(alloc, block)?)?;
    }
    Ok(blocks)
}

/// The block of one client that does this alone.
pub fn block_alone(alloc: Global, command: &Command) -> Result<Block, AllocError>
    ensures { IfOk result (λ block. told_of block ∷ [] ≡ alone (act_of command.now)) }
{
    let mut commands = Vec::new(alloc);
    commands.extend_from_slice(&[*command])?;
    Ok(Block {
        client: 1,
        commands,
    })
}
