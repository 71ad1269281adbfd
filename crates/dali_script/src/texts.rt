//! Numbers, masks and values as they stand in a script.
ghost use Rattle.std.specs.Prelude.{◌≡◌, ◌<◌, ◌≤◌, IfSome, IfOk};
ghost use Rattle.dali_script.specs.Texts.{number_of, mask_of, value_in, hex_of, first_of, seen_first};

use dali_words::Value;

const DIGITS: usize = 20;

const MASK_DIGITS: usize = 16;

const VALUE_BYTES: usize = 40;

/// The number below 2^64 that one to twenty ASCII digits spell, where leading zeros count as digits. None for any other
/// text. Takes no memory.
pub fn number(text: &[u8]) -> Option<u64>
    ensures { result ≡ number_of text.now }
{
    if text.is_empty() || text.len() > DIGITS {
        return None;
    }
    let mut number: u64 = 0;
    for byte in text {
        if *byte < b'0' || *byte > b'9' {
            return None;
        }
        let tens = number.checked_mul(10)?;
        number = tens.checked_add((*byte - b'0') as u64)?;
    }
    Some(number)
}

fn hex_digit(byte: u8) -> Option<u8>
    ensures digit { result ≡ hex_of byte }
    ensures small { IfSome result (λ n. n < 16) }
{
    let digit = char::from(byte).to_digit(16)?;
    Some(digit as u8)
}

/// One to sixteen hexadecimal digits of either case that spell a number other than 0.
pub fn mask(text: &[u8]) -> Option<u64>
    ensures { result ≡ mask_of text.now }
{
    if text.is_empty() || text.len() > MASK_DIGITS {
        return None;
    }
    let mut mask: u64 = 0;
    for byte in text {
        mask = 16 * mask + hex_digit(*byte)? as u64;
    }
    if mask == 0 { None } else { Some(mask) }
}

// The first byte that a text stands for, and the text behind it.
fn first(text: &[u8]) -> Option<(u8, &[u8])>
    ensures { seen_first (λ x. (x.0, x.1.now)) result ≡ first_of text.now }
{
    match text {
        [b'\\', b'x', high, low, rest @ ..] => {
            let high = hex_digit(*high)?;
            let low = hex_digit(*low)?;
            Some((16 * high + low, rest))
        }
        [b'\\', ..] => None,
        [byte @ 0x21..=0x7e, rest @ ..] => Some((*byte, rest)),
        _ => None,
    }
}

/// The value of one to forty bytes that a text spells: a byte from `!` to `~` other than the backslash stands for itself,
/// and a backslash, `x` and two hexadecimal digits of either case stand for a byte. None for any other text. Takes no memory.
pub fn value(text: &[u8]) -> Option<Value>
    ensures { result ≡ value_in text.now }
{
    let mut space = [0; VALUE_BYTES];
    let mut count = 0;
    let mut rest = text;
    while !rest.is_empty() {
        if count == VALUE_BYTES {
            return None;
        }
        let (byte, behind) = first(rest)?;
        space[count] = byte;
        count += 1;
        rest = behind;
    }
    Value::from_bytes(&space[..count])
}
