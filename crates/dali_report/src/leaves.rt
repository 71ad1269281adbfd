//! The parts of a line. Where memory is refused, what stood before is still the front of the text.
ghost use Rattle.std.specs.Prelude.{◌≡◌, ◌<◌, ◌++◌, flat_map, OnOk, OnErr};
ghost use Rattle.std.specs.Char.{digit_char};
ghost use Rattle.std.specs.Fmt.{decimal};
ghost use Rattle.dali_script.specs.Names.{text_of as name_text};
ghost use Rattle.dali_report.specs.Texts.{hex_byte, hex_text, byte_text, value_text, list_of, list_text, IsFront};

use byteorder::{BigEndian, ByteOrder};
use dali_record::{Numbers, Regions};
use dali_script::Name;
use dali_words::Value;
use itoa::{Buffer, Integer};
use std::alloc::AllocError;

/// Adds a text.
pub fn put_text(text: &[u8], into: &mut Vec<u8>) -> Result<(), AllocError>
    ensures ok { OnOk result (into.new.items ≡ into.old.items ++ text.now) }
    ensures err { OnErr result (IsFront into.old.items into.new.items) }
{
    into.extend_from_slice(text)
}

pub fn put_number(number: u64, into: &mut Vec<u8>) -> Result<(), AllocError>
    ensures ok { OnOk result (into.new.items ≡ into.old.items ++ decimal number) }
    ensures err { OnErr result (IsFront into.old.items into.new.items) }
{
    put_text(Buffer::new().format(number).as_bytes(), into)
}

fn hex(digit: u8) -> u8
    requires { digit < 16 }
    ensures { result ≡ digit_char digit }
{
    char::from_digit(digit as u32, 16).unwrap() as u8
}

fn put_hex_byte(byte: u8, into: &mut Vec<u8>) -> Result<(), AllocError>
    ensures ok { OnOk result (into.new.items ≡ into.old.items ++ hex_byte byte) }
    ensures err { OnErr result (IsFront into.old.items into.new.items) }
{
    put_text(&[hex(byte / 16), hex(byte % 16)], into)
}

fn put_hex_bytes(bytes: &[u8], into: &mut Vec<u8>) -> Result<(), AllocError>
    ensures ok { OnOk result (into.new.items ≡ into.old.items ++ flat_map hex_byte bytes.now) }
    ensures err { OnErr result (IsFront into.old.items into.new.items) }
{
    for byte in bytes {
        put_hex_byte(*byte, into)?;
    }
    Ok(())
}

#[tactic(auto, unfolding(dali_bytes::specs::Fields::number64))]
fn put_hex(number: u64, into: &mut Vec<u8>) -> Result<(), AllocError>
    ensures ok { OnOk result (into.new.items ≡ into.old.items ++ hex_text number) }
    ensures err { OnErr result (IsFront into.old.items into.new.items) }
{
    let mut bytes = [0; 8];
    BigEndian::write_u64(&mut bytes, number);
    put_hex_bytes(&bytes, into)
}

fn put_byte(byte: u8, into: &mut Vec<u8>) -> Result<(), AllocError>
    ensures ok { OnOk result (into.new.items ≡ into.old.items ++ byte_text byte) }
    ensures err { OnErr result (IsFront into.old.items into.new.items) }
{
    match byte {
        b'\\' => put_text(&[b'\\', b'x', hex(byte / 16), hex(byte % 16)], into),
        0x21..=0x7e => put_text(&[byte], into),
        _ => put_text(&[b'\\', b'x', hex(byte / 16), hex(byte % 16)], into),
    }
}

pub fn put_value(value: &Value, into: &mut Vec<u8>) -> Result<(), AllocError>
    ensures ok { OnOk result (into.new.items ≡ into.old.items ++ value_text value.now) }
    ensures err { OnErr result (IsFront into.old.items into.new.items) }
{
    for byte in value.bytes() {
        put_byte(*byte, into)?;
    }
    Ok(())
}

pub fn put_list<N: Integer>(numbers: &[N], into: &mut Vec<u8>) -> Result<(), AllocError>
    ensures ok { OnOk result (into.new.items ≡ into.old.items ++ list_of N.text numbers.now) }
    ensures err { OnErr result (IsFront into.old.items into.new.items) }
{
    let [first, rest @ ..] = numbers else {
        return put_text(b"none", into);
    };
    put_text(Buffer::new().format(*first).as_bytes(), into)?;
    for number in rest {
        put_text(b" ", into)?;
        put_text(Buffer::new().format(*number).as_bytes(), into)?;
    }
    Ok(())
}

/// Adds a text and a decimal number.
pub fn put_with_number(text: &[u8], number: u64, into: &mut Vec<u8>) -> Result<(), AllocError>
    ensures ok { OnOk result (into.new.items ≡ into.old.items ++ (text.now ++ decimal number)) }
    ensures err { OnErr result (IsFront into.old.items into.new.items) }
{
    put_text(text, into)?;
    put_number(number, into)?;
    Ok(())
}

/// Adds a text and a number's sixteen hexadecimal digits.
pub fn put_with_hex(text: &[u8], number: u64, into: &mut Vec<u8>) -> Result<(), AllocError>
    ensures ok { OnOk result (into.new.items ≡ into.old.items ++ (text.now ++ hex_text number)) }
    ensures err { OnErr result (IsFront into.old.items into.new.items) }
{
    put_text(text, into)?;
    put_hex(number, into)?;
    Ok(())
}

pub fn put_with_value(text: &[u8], value: &Value, into: &mut Vec<u8>) -> Result<(), AllocError>
    ensures ok { OnOk result (into.new.items ≡ into.old.items ++ (text.now ++ value_text value.now)) }
    ensures err { OnErr result (IsFront into.old.items into.new.items) }
{
    put_text(text, into)?;
    put_value(value, into)?;
    Ok(())
}

/// Adds a text and a list of numbers.
pub fn put_with_numbers(
    text: &[u8],
    numbers: &Numbers,
    into: &mut Vec<u8>,
) -> Result<(), AllocError>
    ensures ok { OnOk result (into.new.items ≡ into.old.items ++ (text.now ++ list_text numbers.now)) }
    ensures err { OnErr result (IsFront into.old.items into.new.items) }
{
    put_text(text, into)?;
    put_list(numbers.as_slice(), into)?;
    Ok(())
}

/// Adds a text and a list of regions.
pub fn put_with_regions(
    text: &[u8],
    regions: &Regions,
    into: &mut Vec<u8>,
) -> Result<(), AllocError>
    ensures ok { OnOk result (into.new.items ≡ into.old.items ++ (text.now ++ list_text regions.now)) }
    ensures err { OnErr result (IsFront into.old.items into.new.items) }
{
    put_text(text, into)?;
    put_list(regions.as_slice(), into)?;
    Ok(())
}

pub fn put_with_name(name: Name, text: &[u8], into: &mut Vec<u8>) -> Result<(), AllocError>
    ensures ok { OnOk result (into.new.items ≡ into.old.items ++ (name_text name ++ text.now)) }
    ensures err { OnErr result (IsFront into.old.items into.new.items) }
{
    put_text(name.text().as_bytes(), into)?;
    put_text(text, into)?;
    Ok(())
}
