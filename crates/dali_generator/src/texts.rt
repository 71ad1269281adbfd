//! What is printed of a generated round.
ghost use Rattle.std.specs.Prelude.{◌≡◌, ◌++◌, IfOk, OnOk};
ghost use Rattle.dali_generator.specs.Summary.{line_of, summary_of};

use itoa::Buffer;
use std::alloc::{AllocError, Global};

fn put_line(word: &[u8], number: u64, text: &mut Vec<u8>) -> Result<(), AllocError>
    ensures { OnOk result (text.new.items ≡ text.old.items ++ line_of word.now number) }
{
    text.extend_from_slice(word)?;
    text.extend_from_slice(b" ")?;
    text.extend_from_slice(Buffer::new().format(number).as_bytes())?;
    text.extend_from_slice(b"\n")?;
    Ok(())
}

/// The lines that are printed behind a generated round: how many clients and transactions it had, how many records there
/// are, and the sum of their keys modulo 2^64. It takes memory for the text, and is refused only where that is.
pub fn summary(
    alloc: Global,
    clients: u32,
    size: u32,
    records: u64,
    keys: u64,
) -> Result<Vec<u8>, AllocError>
    ensures { IfOk result (λ text. text.items ≡ summary_of clients size records keys) }
{
    let mut text = Vec::new(alloc);
    put_line(b"clients", u64::from(clients), &mut text)?;
    put_line(
        b"transactions",
        u64::from(clients) * u64::from(size),
        &mut text,
    )?;
    put_line(b"records", records, &mut text)?;
    put_line(b"keys", keys, &mut text)?;
    Ok(text)
}
