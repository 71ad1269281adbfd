//! Reading rows line after line.
ghost use Rattle.std.specs.Prelude.{◌≡◌, ◌⊎◌, ℕ, List, Err, IfOk, IsOkAnd, OnOk, map};
ghost use Rattle.dali_listing.specs.declared.Listed.{Listed as Row};
ghost use Rattle.dali_script.specs.Reading.{Gives};
ghost use Rattle.dali_script.specs.declared.faults.Kind.{Kind};
ghost use Rattle.dali_load.specs.Reader.{state_of};
ghost use Rattle.dali_load.specs.Reading.{at_start, outcome, read_line, says, told};
ghost use Rattle.dali_load.specs.Rows.{Spelled, IsWrong, verdict};
ghost use Rattle.dali_load.specs.Rows as specs;

use dali_listing::Listed;
use dali_script::{Kind, ScriptError, first_line, is_a_comment, number, put_words, value};
use std::alloc::{AllocError, Global};

/// The word of the line that says that the rows end.
const END: &str = "records";

fn is_above(rows: &[Listed], key: u64) -> bool
    ensures { result ≡ specs.is_above rows.now key }
{
    match rows.last() {
        Some(row) => row.key < key,
        None => true,
    }
}

fn row_of(rows: &[Listed], key: &[u8], text: &[u8]) -> Result<Option<Listed>, Kind>
    ensures { result ≡ specs.row_of rows.now key.now text.now }
{
    let key = number(key).ok_or(Kind::Number)?;
    if !is_above(rows, key) {
        return Err(Kind::Number);
    }
    Ok(Some(Listed {
        key,
        value: value(text).ok_or(Kind::Value)?,
    }))
}

fn end_of(rows: &[Listed], text: &[u8]) -> Result<Option<Listed>, Kind>
    ensures { result ≡ specs.end_of rows.now text.now }
{
    let count = number(text).ok_or(Kind::Number)?;
    if count != rows.len() as u64 {
        return Err(Kind::Number);
    }
    Ok(None)
}

// What a line says behind these rows: a row, or that they end.
fn said(rows: &[Listed], words: &[&[u8]]) -> Result<Option<Listed>, Kind>
    ensures { result ≡ verdict rows.now (map (λ word. word.now) words.now) }
{
    let [word, text] = words else {
        return Err(Kind::Arguments);
    };
    if *word == END.as_bytes() {
        end_of(rows, text)
    } else {
        row_of(rows, word, text)
    }
}

// What was read so far.
#[derive(Drop)]
struct Reader {
    rows: Vec<Listed>,
    is_ended: bool,
}

impl Reader {
    fn new(alloc: Global) -> Self
        ensures { state_of result ≡ at_start }
    {
        Reader {
            rows: Vec::new(alloc),
            is_ended: false,
        }
    }

    fn says(&self, words: &[&[u8]]) -> Result<Option<Listed>, Kind>
        ensures { result ≡ says (map (λ word. word.now) words.now) (state_of self.now) }
    {
        if self.is_ended {
            return Err(Kind::Place);
        }
        said(&self.rows, words)
    }

    // Takes what a line says.
    fn take(&mut self, said: Option<Listed>) -> Result<(), AllocError>
        ensures { OnOk result (state_of self.new ≡ told said (state_of self.old)) }
    {
        match said {
            Some(row) => self.rows.push(row)?,
            None => self.is_ended = true,
        }
        Ok(())
    }

    // Reads a line, whose words take the place of the last one's.
    fn read_line<'a>(
        &mut self,
        line: u64,
        text: &'a [u8],
        words: &mut Vec<&'a [u8]>,
    ) -> Result<(), ScriptError>
        ensures { Gives (λ _. state_of self.new) result (read_line line text.now (state_of self.old)) }
    {
        if is_a_comment(text) {
            return Ok(());
        }
        put_words(text, words)?;
        if words.is_empty() {
            return Ok(());
        }
        match self.says(words) {
            Ok(said) => Ok(self.take(said)?),
            Err(kind) => Err(ScriptError::BadLine { line, kind }),
        }
    }
}

fn read(alloc: Global, bytes: &[u8]) -> Result<Vec<Listed>, ScriptError>
    ensures { Gives (λ rows. rows.items) result (outcome bytes.now) }
{
    let mut reader = Reader::new(alloc);
    let mut words = Vec::new(alloc);
    let mut rest = Some(bytes);
    let mut line = 0;
    while let Some(text) = rest {
        let (first, behind) = first_line(text);
        line += 1;
        reader.read_line(line, first, &mut words)?;
        rest = behind;
    }
    Ok(reader.rows)
}

/// The rows that the bytes spell.
///
/// `BadLine` names the first line that is wrong, from 1 on, and the first test that it fails: `Place`, behind the end of
/// the rows; `Arguments`, if it hasn't two words; `Number`, where the key isn't a number above the key before it, or N
/// isn't the number of the rows; `Value`. It takes memory for the rows.
pub fn rows(alloc: Global, bytes: &[u8]) -> Result<Vec<Listed>, ScriptError>
    // Rows are given only where the bytes spell them, and where they do, unless memory runs out.
    ensures spelled { IfOk result (λ rows. Spelled bytes.now rows.items) }
    ensures only { (rows : List Row) → Spelled bytes.now rows
        → IsOkAnd result (λ read. read.items ≡ rows) ⊎ (result ≡ Err ScriptError.OutOfMemory) }

    // So is a fault.
    ensures wrong { (line : ℕ) (kind : Kind) → result ≡ Err (ScriptError.BadLine line kind) → IsWrong bytes.now line kind }
    ensures refused { (line : ℕ) (kind : Kind) → IsWrong bytes.now line kind
        → (result ≡ Err (ScriptError.BadLine line kind)) ⊎ (result ≡ Err ScriptError.OutOfMemory) }
{
    read(alloc, bytes)
}
