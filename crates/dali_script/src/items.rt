//! What a command line says on its own, wherever it stands.
ghost use Rattle.std.specs.Prelude.{◌≡◌, map};
ghost use Rattle.dali_script.specs.Items.{none, poke_of, item_of};

use crate::faults::Kind;
use crate::forms::{CHOICE, CLIENT, HEAP, INDEX, OPERATION, PASSES, REGION, WORD, ranged};
use crate::names::Name;
use crate::texts::{mask, number, value};
use dali_words::Value;

/// A command line.
#[derive(Clone, Copy)]
pub enum Item {
    Size { index: u32, heap: u32 },
    Open,
    Client { number: u32 },
    End,
    Begin,
    Insert { key: u64, value: Value },
    Update { key: u64, value: Value },
    Delete { key: u64 },
    Get { key: u64 },
    Die { operation: u64 },
    Commit,
    Abort,
    Poke { region: u32, word: u8, mask: u64 },
    Audit,
    Checkpoint,
    Cleanup,
    Crash { choice: u32 },
    Restart,
    Show,
    Verify,
    Next,
    Fuse { passes: u64 },
}

fn alone(item: Item, arguments: &[&[u8]]) -> Result<Item, Kind>
    ensures { result ≡ none item (map (λ text. text.now) arguments.now) }
{
    match arguments {
        [] => Ok(item),
        _ => Err(Kind::Arguments),
    }
}

fn size(arguments: &[&[u8]]) -> Result<Item, Kind>
    ensures { result ≡ item_of Name.Size (map (λ text. text.now) arguments.now) }
{
    let [index, heap] = arguments else {
        return Err(Kind::Arguments);
    };
    Ok(Item::Size {
        index: ranged(index, INDEX)? as u32,
        heap: ranged(heap, HEAP)? as u32,
    })
}

fn client(arguments: &[&[u8]]) -> Result<Item, Kind>
    ensures { result ≡ item_of Name.Client (map (λ text. text.now) arguments.now) }
{
    let [number] = arguments else {
        return Err(Kind::Arguments);
    };
    Ok(Item::Client {
        number: ranged(number, CLIENT)? as u32,
    })
}

fn insert(arguments: &[&[u8]]) -> Result<Item, Kind>
    ensures { result ≡ item_of Name.Insert (map (λ text. text.now) arguments.now) }
{
    let [key, text] = arguments else {
        return Err(Kind::Arguments);
    };
    Ok(Item::Insert {
        key: number(key).ok_or(Kind::Number)?,
        value: value(text).ok_or(Kind::Value)?,
    })
}

fn update(arguments: &[&[u8]]) -> Result<Item, Kind>
    ensures { result ≡ item_of Name.Update (map (λ text. text.now) arguments.now) }
{
    let [key, text] = arguments else {
        return Err(Kind::Arguments);
    };
    Ok(Item::Update {
        key: number(key).ok_or(Kind::Number)?,
        value: value(text).ok_or(Kind::Value)?,
    })
}

fn delete(arguments: &[&[u8]]) -> Result<Item, Kind>
    ensures { result ≡ item_of Name.Delete (map (λ text. text.now) arguments.now) }
{
    let [key] = arguments else {
        return Err(Kind::Arguments);
    };
    Ok(Item::Delete {
        key: number(key).ok_or(Kind::Number)?,
    })
}

fn get(arguments: &[&[u8]]) -> Result<Item, Kind>
    ensures { result ≡ item_of Name.Get (map (λ text. text.now) arguments.now) }
{
    let [key] = arguments else {
        return Err(Kind::Arguments);
    };
    Ok(Item::Get {
        key: number(key).ok_or(Kind::Number)?,
    })
}

fn die(arguments: &[&[u8]]) -> Result<Item, Kind>
    ensures { result ≡ item_of Name.Die (map (λ text. text.now) arguments.now) }
{
    let [operation] = arguments else {
        return Err(Kind::Arguments);
    };
    Ok(Item::Die {
        operation: ranged(operation, OPERATION)?,
    })
}

fn poke_at(region: &[u8], word: &[u8], text: &[u8]) -> Result<Item, Kind>
    ensures { result ≡ poke_of region.now word.now text.now }
{
    Ok(Item::Poke {
        region: ranged(region, REGION)? as u32,
        word: ranged(word, WORD)? as u8,
        mask: mask(text).ok_or(Kind::Number)?,
    })
}

fn poke(arguments: &[&[u8]]) -> Result<Item, Kind>
    ensures { result ≡ item_of Name.Poke (map (λ text. text.now) arguments.now) }
{
    match arguments {
        [region, word, text] => poke_at(region, word, text),
        _ => Err(Kind::Arguments),
    }
}

fn crash(arguments: &[&[u8]]) -> Result<Item, Kind>
    ensures { result ≡ item_of Name.Crash (map (λ text. text.now) arguments.now) }
{
    let [choice] = arguments else {
        return Err(Kind::Arguments);
    };
    Ok(Item::Crash {
        choice: ranged(choice, CHOICE)? as u32,
    })
}

fn fuse(arguments: &[&[u8]]) -> Result<Item, Kind>
    ensures { result ≡ item_of Name.Fuse (map (λ text. text.now) arguments.now) }
{
    let [passes] = arguments else {
        return Err(Kind::Arguments);
    };
    Ok(Item::Fuse {
        passes: ranged(passes, PASSES)?,
    })
}

/// The command line that a command's name and arguments make.
pub fn make_item(name: Name, arguments: &[&[u8]]) -> Result<Item, Kind>
    ensures { result ≡ item_of name (map (λ text. text.now) arguments.now) }
{
    match name {
        Name::Size => size(arguments),
        Name::Open => alone(Item::Open, arguments),
        Name::Client => client(arguments),
        Name::End => alone(Item::End, arguments),
        Name::Begin => alone(Item::Begin, arguments),
        Name::Insert => insert(arguments),
        Name::Update => update(arguments),
        Name::Delete => delete(arguments),
        Name::Get => get(arguments),
        Name::Die => die(arguments),
        Name::Commit => alone(Item::Commit, arguments),
        Name::Abort => alone(Item::Abort, arguments),
        Name::Poke => poke(arguments),
        Name::Audit => alone(Item::Audit, arguments),
        Name::Checkpoint => alone(Item::Checkpoint, arguments),
        Name::Cleanup => alone(Item::Cleanup, arguments),
        Name::Crash => crash(arguments),
        Name::Restart => alone(Item::Restart, arguments),
        Name::Show => alone(Item::Show, arguments),
        Name::Verify => alone(Item::Verify, arguments),
        Name::Next => alone(Item::Next, arguments),
        Name::Fuse => fuse(arguments),
    }
}
