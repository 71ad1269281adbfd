//! What a faulty line lacked, told for people.
ghost use Rattle.std.specs.Prelude.{◌≡◌, IsSome};
ghost use Rattle.dali_script.specs.Grammar.{IsWrong};
ghost use Rattle.dali_script.specs.Lines.{words_of};
ghost use Rattle.dali_script.specs.Forms.{unfit, runs_out};
ghost use Rattle.dali_script.specs.Reasons.{line_in, command_words, count_wanted, told_of, told, reason_in, seen_line, seen_unfit, seen_told, seen_reason};
ghost use Rattle.dali_script.specs.Reasons.{places_text, form_text, count_text, wanted_text};

use crate::faults::Kind;
use crate::forms::{Form, forms};
use crate::lines::{first_line, first_word, is_a_comment};
use crate::names::Name;
use crate::places::Place;
use std::fmt;

/// How many bytes of a word are shown.
const SHOWN: usize = 40;

/// What was wanted of a faulty line.
#[derive(Clone, Copy, PartialEq, Eq)]
pub enum Wanted {
    /// `size` or `open`, as the first command.
    SizeOrOpen,
    /// A word that begins a command.
    Command,
    /// Another place for this command.
    Place(Name),
    /// More arguments; the command has so many.
    More(usize),
    /// Fewer arguments; the command has so many.
    Fewer(usize),
    /// An argument of this form.
    Argument(Form),
    /// A client that has no block in this round yet.
    OtherClient,
    /// An `end` of the block.
    End,
}

/// Why a line of a script is refused: the word that is wrong, and what was wanted.
#[derive(Clone, Copy)]
pub struct Reason<'a> {
    /// The line, counted from 1.
    pub line: u64,
    /// The word of it that is wrong: of a faulty number or value this argument; of a client twice, and of a block without
    /// `end`, the client's number; else the line's first word. None where the script has no command.
    pub word: Option<&'a [u8]>,
    /// What was wanted.
    pub wanted: Wanted,
}

// The line with this number, counted from 1; 0 stands for 1.
fn line_at(script: &[u8], line: u64) -> Option<&[u8]>
    ensures { seen_line result ≡ line_in line script.now }
{
    let mut left = line;
    let mut rest = Some(script);
    while let Some(text) = rest {
        let (first, behind) = first_line(text);
        if left <= 1 {
            return Some(first);
        }
        left -= 1;
        rest = behind;
    }
    None
}

// Whether the text has fewer words than these forms are.
fn runs_out(forms: &[Form], text: &[u8]) -> bool
    ensures { result ≡ runs_out forms.now (words_of text.now) }
{
    let [_, forms @ ..] = forms else {
        return false;
    };
    match first_word(text) {
        Some((_, behind)) => runs_out(forms, behind),
        None => true,
    }
}

// What is wanted where a command with arguments of these forms has another count of them.
fn count_wanted(forms: &[Form], text: &[u8]) -> Wanted
    ensures { result ≡ count_wanted forms.now (words_of text.now) }
{
    if runs_out(forms, text) {
        Wanted::More(forms.len())
    } else {
        Wanted::Fewer(forms.len())
    }
}

// The first word that hasn't its form.
fn unfit<'a>(forms: &[Form], text: &'a [u8]) -> Option<(&'a [u8], Form)>
    ensures { seen_unfit result ≡ unfit forms.now (words_of text.now) }
{
    let [form, forms @ ..] = forms else {
        return None;
    };
    let (word, behind) = first_word(text)?;
    if form.fits(word) {
        unfit(forms, behind)
    } else {
        Some((word, *form))
    }
}

// The word that is wrong, and what was wanted, of a command with this text behind its word.
fn told_of<'a>(word: &'a [u8], text: &'a [u8], kind: Kind) -> Option<(Option<&'a [u8]>, Wanted)>
    ensures { seen_told result ≡ told_of kind word.now (words_of text.now) }
{
    match kind {
        Kind::SizeOrOpenWanted => Some((Some(word), Wanted::SizeOrOpen)),
        Kind::Unknown => Some((Some(word), Wanted::Command)),
        Kind::Place => Some((Some(word), Wanted::Place(Name::of(word)?))),
        Kind::Arguments => {
            let forms = forms(Name::of(word)?);
            Some((Some(word), count_wanted(forms, text)))
        }
        Kind::Number | Kind::Value => {
            let (argument, form) = unfit(forms(Name::of(word)?), text)?;
            Some((Some(argument), Wanted::Argument(form)))
        }
        Kind::Client => {
            let (client, _) = first_word(text)?;
            Some((Some(client), Wanted::OtherClient))
        }
        Kind::Unended => {
            let (client, _) = first_word(text)?;
            Some((Some(client), Wanted::End))
        }
    }
}

// The same of a line. One that has no words, or is a comment, lacks a command at most.
fn told_in(line: &[u8], kind: Kind) -> Option<(Option<&[u8]>, Wanted)>
    ensures { seen_told result ≡ told kind (command_words line.now) }
{
    if !is_a_comment(line) {
        if let Some((word, behind)) = first_word(line) {
            return told_of(word, behind, kind);
        }
    }
    if kind == Kind::SizeOrOpenWanted {
        Some((None, Wanted::SizeOrOpen))
    } else {
        None
    }
}

/// Why the script is refused at this line with this kind, as `parse` tells them: looks at the line once more. There is a
/// reason for each fault that `parse` tells of the same bytes; None for some others. Takes no memory, and time in
/// proportion to the bytes up to the line's end.
pub fn explain<'a>(script: &'a [u8], line: u64, kind: Kind) -> Option<Reason<'a>>
    ensures reason { seen_reason result ≡ reason_in script.now line kind }
    ensures told { IsWrong script.now line kind → IsSome result }
{
    let text = line_at(script, line)?;
    let (word, wanted) = told_in(text, kind)?;
    Some(Reason { line, word, wanted })
}

// Where this command may stand.
fn places(name: Name) -> &'static str
    ensures { result.now ≡ places_text name }
{
    if Place::Start.allows(name) {
        "as the first command"
    } else if Place::InTransaction.allows(name) {
        if Place::InBlock.allows(name) {
            "in a block"
        } else {
            "in a transaction"
        }
    } else if Place::InBlock.allows(name) {
        if Place::Outside.allows(name) {
            "outside a transaction"
        } else {
            "in a block outside a transaction"
        }
    } else {
        "outside a block"
    }
}

impl fmt::Display for Form {
    ghost use Rattle.std.specs.Prelude.{Some};

    ghost output = { λ form. Some (form_text form) };

    fn fmt<W: fmt::Write>(&self, f: &mut fmt::Formatter<W>) -> fmt::Result {
        match self {
            Form::Number(range) => {
                let (low, high) = (range.low, range.high);
                write!(f, "a number from {low} to {high} is wanted")
            }
            Form::Key => f.write_str("a number from 0 to 18446744073709551615 is wanted"),
            Form::Mask => f.write_str("1 to 16 hexadecimal digits that aren't all 0 are wanted"),
            Form::Value => f.write_str(
                "a value of 1 to 40 bytes is wanted, in which a backslash and bytes outside `!` to `~` are written by a backslash, `x` and two hexadecimal digits",
            ),
        }
    }
}

// So many arguments, in words.
#[derive(Clone, Copy)]
struct Count(usize);

impl fmt::Display for Count {
    ghost use Rattle.std.specs.Prelude.{Some};

    ghost output = { λ count. Some (count_text count.0) };

    fn fmt<W: fmt::Write>(&self, f: &mut fmt::Formatter<W>) -> fmt::Result {
        match self.0 {
            0 => f.write_str("it takes none"),
            1 => f.write_str("it takes one"),
            count => write!(f, "it takes {count}"),
        }
    }
}

impl fmt::Display for Wanted {
    ghost use Rattle.std.specs.Prelude.{Some};

    ghost output = { λ wanted. Some (wanted_text wanted) };

    fn fmt<W: fmt::Write>(&self, f: &mut fmt::Formatter<W>) -> fmt::Result {
        match self {
            Wanted::SizeOrOpen => f.write_str("the first command is to be `size` or `open`"),
            Wanted::Command => f.write_str("no command has this name"),
            Wanted::Place(name) => {
                let places = places(*name);
                write!(f, "this command stands only {places}")
            }
            Wanted::More(count) => {
                let count = Count(*count);
                write!(f, "too few words behind this command, {count}")
            }
            Wanted::Fewer(count) => {
                let count = Count(*count);
                write!(f, "too many words behind this command, {count}")
            }
            Wanted::Argument(form) => write!(f, "{form}"),
            Wanted::OtherClient => f.write_str(
                "this client has a block in the round already; `next` or another single command ends a round",
            ),
            Wanted::End => f.write_str("the block of this client has no `end`"),
        }
    }
}

// A word between backticks: bytes that aren't printed are escaped, and a long word is cut.
#[derive(Clone, Copy)]
struct Quoted<'a>(&'a [u8]);

impl fmt::Display for Quoted<'_> {
    fn fmt<W: fmt::Write>(&self, f: &mut fmt::Formatter<W>) -> fmt::Result {
        let shown = self.0.len().min(SHOWN);
        let escaped = self.0[..shown].escape_ascii();
        let dots = if shown < self.0.len() { "..." } else { "" };
        write!(f, "`{escaped}{dots}`")
    }
}

impl fmt::Display for Reason<'_> {
    fn fmt<W: fmt::Write>(&self, f: &mut fmt::Formatter<W>) -> fmt::Result {
        let (line, wanted) = (self.line, self.wanted);
        match self.word {
            Some(word) => {
                let word = Quoted(word);
                write!(f, "line {line}: {word}: {wanted}")
            }
            None => write!(f, "line {line}: there is no command; {wanted}"),
        }
    }
}
