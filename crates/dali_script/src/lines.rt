//! The lines of a script, and the words of a line.
ghost use Rattle.std.specs.Prelude.{◌≡◌, ◌<◌, ◌==◌, [], ◌∷◌, OnOk, IfSome, IfNone, map, length, position};
ghost use Rattle.dali_script.specs.Lines;
ghost use Rattle.dali_script.specs.Lines.{words_of, lines_of, lines_left, is_comment};

use std::alloc::AllocError;

fn is_blank(byte: u8) -> bool
    ensures { result ≡ Lines.is_blank byte }
{
    byte <= b' ' && matches!(byte, b' ' | b'\t' | b'\r') // few bytes need more than the first test
}

/// Puts the words of a line in place of what was there: so one vector serves all lines. Takes memory; AllocError where it
/// was wanted and refused.
pub fn put_words<'a>(line: &'a [u8], words: &mut Vec<&'a [u8]>) -> Result<(), AllocError>
    ensures { OnOk result (map (λ word. word.now) words.new.items ≡ words_of line.now) }
{
    words.clear();
    words.extend(
        line.split(|byte| is_blank(*byte))
            .filter(|word| !word.is_empty()),
    )
}

/// Whether a line is a comment.
pub fn is_a_comment(line: &[u8]) -> bool
    ensures { result ≡ is_comment line.now }
{
    line.first() == Some(&b'#')
}

fn end_of_line(text: &[u8]) -> Option<usize>
    ensures { result ≡ position (λ byte. byte == 10) text.now }
{
    text.iter().position(|byte| *byte == b'\n')
}

/// The first line of a text, and the text behind its line feed where it has one.
pub fn first_line(text: &[u8]) -> (&[u8], Option<&[u8]>)
    ensures lines { lines_of text.now ≡ result.0.now ∷ lines_left result.1 }
    ensures shorter { IfSome result.1 (λ rest. length rest.now < length text.now) }
{
    match end_of_line(text) {
        Some(end) => (&text[..end], Some(&text[end + 1..])),
        None => (text, None),
    }
}

fn end_of_word(text: &[u8]) -> Option<usize>
    ensures { result ≡ position Lines.is_blank text.now }
{
    text.iter().position(|byte| is_blank(*byte))
}

/// The first word of a line, and the text behind it, where it has words.
pub fn first_word(line: &[u8]) -> Option<(&[u8], &[u8])>
    ensures some { IfSome result (λ x. words_of line.now ≡ x.0.now ∷ words_of x.1.now) }
    ensures none { IfNone result (words_of line.now ≡ []) }
{
    let mut text = line;
    while let Some(end) = end_of_word(text) {
        if end > 0 {
            return Some((&text[..end], &text[end + 1..]));
        }
        text = &text[1..];
    }
    if text.is_empty() {
        None
    } else {
        Some((text, &[]))
    }
}
