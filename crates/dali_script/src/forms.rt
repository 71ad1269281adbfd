//! The forms of commands' arguments.
ghost use Rattle.std.specs.Prelude.{◌≡◌, ◌≤◌, IfOk};
ghost use Rattle.dali_script.specs.Items.{number_in};
ghost use Rattle.dali_script.specs.Forms.{fits, forms_of};

use crate::faults::Kind;
use crate::names::Name;
use crate::texts::{mask, number, value};

/// From where to where a number may go, both ends among them.
#[derive(Clone, Copy, PartialEq, Eq)]
pub struct Range {
    /// The least number.
    pub low: u64,
    /// The greatest number.
    pub high: u64,
}

pub const INDEX: Range = Range {
    low: 1,
    high: 32_768,
};

pub const HEAP: Range = Range {
    low: 1,
    high: 65_536,
};

pub const CLIENT: Range = Range { low: 1, high: 64 };

pub const OPERATION: Range = Range {
    low: 1,
    high: 1_000_000,
};

pub const REGION: Range = Range {
    low: 0,
    high: 4_294_967_295,
};

pub const WORD: Range = Range { low: 0, high: 63 };

pub const CHOICE: Range = Range {
    low: 0,
    high: 1_000_000,
};

pub const PASSES: Range = Range {
    low: 0,
    high: 1_000_000_000,
};

/// The number in this range that a text spells.
pub fn ranged(text: &[u8], range: Range) -> Result<u64, Kind>
    ensures value { result ≡ number_in range.low range.high text.now }
    ensures bound { IfOk result (λ n. n ≤ range.high) }
{
    match number(text) {
        Some(number) if range.low <= number && number <= range.high => Ok(number),
        _ => Err(Kind::Number),
    }
}

/// The form of an argument.
#[derive(Clone, Copy, PartialEq, Eq)]
pub enum Form {
    /// A number in this range, of 1 to 20 decimal digits.
    Number(Range),
    /// A number below 2^64, of 1 to 20 decimal digits.
    Key,
    /// 1 to 16 hexadecimal digits that aren't all 0.
    Mask,
    /// A value of 1 to 40 bytes.
    Value,
}

impl Form {
    /// Whether a word has this form.
    pub fn fits(self, word: &[u8]) -> bool
        ensures { result ≡ fits self word.now }
    {
        match self {
            Form::Number(range) => ranged(word, range).is_ok(),
            Form::Key => number(word).is_some(),
            Form::Mask => mask(word).is_some(),
            Form::Value => value(word).is_some(),
        }
    }
}

/// The forms of a command's arguments, one for each.
pub fn forms(name: Name) -> &'static [Form]
    ensures { result.now ≡ forms_of name }
{
    match name {
        Name::Size => &[Form::Number(INDEX), Form::Number(HEAP)],
        Name::Client => &[Form::Number(CLIENT)],
        Name::Insert | Name::Update => &[Form::Key, Form::Value],
        Name::Delete | Name::Get => &[Form::Key],
        Name::Die => &[Form::Number(OPERATION)],
        Name::Poke => &[Form::Number(REGION), Form::Number(WORD), Form::Mask],
        Name::Crash => &[Form::Number(CHOICE)],
        Name::Fuse => &[Form::Number(PASSES)],
        Name::Open
        | Name::End
        | Name::Begin
        | Name::Commit
        | Name::Abort
        | Name::Audit
        | Name::Checkpoint
        | Name::Cleanup
        | Name::Restart
        | Name::Show
        | Name::Verify
        | Name::Next => &[],
    }
}
