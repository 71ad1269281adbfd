//! The blocks of a generated round.
ghost use Rattle.std.specs.Prelude.{◌≡◌, ◌++◌, IfOk, OnOk, option_to_list};
ghost use Rattle.dali_generator.specs.Generated;

use crate::numbers::{key_of, next};
use dali_script::{Block, ClientCommand, ClientCommands};
use dali_words::Value;
use itoa::Buffer;
use std::alloc::{AllocError, Global};

fn value_of(drawn: u64) -> Value
    ensures { result ≡ Generated.value_of drawn }
{
    let mut buffer = Buffer::new();
    let digits = buffer.format(drawn % 1_000_000).as_bytes();
    let mut text = [b'v'; 7];
    text[1..=digits.len()].copy_from_slice(digits);
    let Some(value) = Value::from_bytes(&text[..=digits.len()]) else {
        unreachable!()
    };
    value
}

fn second_call(kind: u64, key: u64, value: Value) -> Option<ClientCommand>
    ensures { option_to_list result ≡ Generated.second_call kind key value }
{
    match kind {
        1 => Some(ClientCommand::Update { key, value }),
        2 => Some(ClientCommand::Delete { key }),
        3 => Some(ClientCommand::Get { key }),
        _ => None,
    }
}

// The second call of a transaction, on the key before its own.
fn on_the_key_before(client: u32, transaction: u32, drawn: u64) -> Option<ClientCommand>
    ensures { option_to_list result ≡ Generated.on_the_key_before client transaction drawn }
{
    if transaction == 0 {
        return None;
    }
    second_call(drawn % 4, key_of(client, transaction - 1), value_of(drawn))
}

// Adds one transaction of a client, for which this number was drawn.
fn add_transaction(
    client: u32,
    transaction: u32,
    drawn: u64,
    commands: &mut Vec<ClientCommand>,
) -> Result<(), AllocError>
    ensures { OnOk result (commands.new.items ≡ commands.old.items ++ Generated.transaction client transaction drawn) }
{
    let insert = ClientCommand::Insert {
        key: key_of(client, transaction),
        value: value_of(drawn),
    };
    commands.extend_from_slice(&[ClientCommand::Begin, insert])?;
    if let Some(call) = on_the_key_before(client, transaction, drawn) {
        commands.push(call)?;
    }
    commands.push(ClientCommand::Commit)?;
    Ok(())
}

fn commands_of(
    alloc: Global,
    client: u32,
    size: u32,
    number: u64,
) -> Result<Vec<ClientCommand>, AllocError>
    ensures { IfOk result (λ commands. commands.items ≡ Generated.commands_of number size client) }
{
    let mut commands = Vec::new(alloc);
    let mut state = number ^ u64::from(client);
    for transaction in 0..size {
        state = next(state);
        add_transaction(client, transaction, state >> 33, &mut commands)?;
    }
    Ok(commands)
}

fn block(alloc: Global, client: u32, size: u32, number: u64) -> Result<Block, AllocError>
    ensures { IfOk result (λ block. block ≡ Generated.block number size client) }
{
    Ok(Block {
        client,
        commands: ClientCommands::new(commands_of(alloc, client, size, number)?),
    })
}

/// The blocks of a round that this number generates, of the clients from 1 on, with `size` transactions each. It takes
/// memory for them, and is refused only where that is.
pub fn blocks(alloc: Global, clients: u32, size: u32, number: u64) -> Result<Vec<Block>, AllocError>
    ensures { IfOk result (λ blocks. blocks.items ≡ Generated.generated clients size number) }
{
    let mut blocks = Vec::new(alloc);
    for client in 1..=clients {
        blocks.push(block(alloc, client, size, number)?)?;
    }
    Ok(blocks)
}
