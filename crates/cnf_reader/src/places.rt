//! Places in a text, and how far the words go from there.

ghost use Rattle.std.specs.Prelude.{◌≡◌, ◌<◌, ◌≤◌, ◌∷◌, true, false, IfOk, IfErr, IfSome, length};
ghost use Rattle.tsl_text.specs.Numbers.{signed_number_in};
ghost use Rattle.cnf_reader.specs.internal.RestOfText.{begins_with_blank, HasFewLines};
ghost use Rattle.cnf_reader.specs.internal.Places.{GoesOn, HasNext, IsInWord, IsKept};

use crate::stages::Stage;
use crate::walk::{front_number, is_blank, line_len, plain_number};
use refutation_check::is_comment;
use tsl_text::MOST_DIGITS;

/// A place in a text: what comes next, the number of its line, and the bytes from there on. They are the rest of
/// a piece, and the rest of the text comes after them.
#[derive(Clone, Copy)]
pub(crate) struct Rest<'a> {
    pub stage: Stage,
    pub number: u32,
    pub text: &'a [u8],
}

/// A word, the number that it means, if it means one, and the number of its line.
#[derive(Clone, Copy)]
pub(crate) struct Word<'a> {
    pub line: u32,
    pub bytes: &'a [u8],
    pub number: Option<i64>,
}

/// The next word, and the place after it. An `Err` has the place where no whole word is left, and of its bytes those
/// that have to be kept.
pub(crate) fn next_word(rest: Rest<'_>) -> Result<(Word<'_>, Rest<'_>), Rest<'_>>
    requires { HasFewLines rest.number rest.text.now }
    ensures next { IfOk result (λ found. HasNext rest.entry found.0 found.1) }
    ensures number { IfOk result (λ found. found.0.number ≡ signed_number_in found.0.bytes.now) }
    ensures shorter { IfOk result (λ found. length found.1.text.now < length rest.entry.text.now) }
    ensures left { IfErr result (GoesOn rest.entry) }
    ensures kept { IfErr result (λ left. IsKept left.text.now) }
{
    let start = word_start(rest)?;
    let (number, len) = front_number(start.text);
    if len == start.text.len() {
        return Err(kept_word(start));
    }
    let word = Word {
        line: start.number,
        bytes: &start.text[..len],
        number,
    };
    let text = &start.text[len..];
    Ok((word, Rest { text, ..start }))
}

/// The next word, and the place after it, where it is one of the numbers behind the header and stands behind one blank.
/// None where it does not, or where that is not seen at once.
#[inline(always)]
pub(crate) fn plain_word(rest: Rest<'_>) -> Option<(Word<'_>, Rest<'_>)>
    requires { HasFewLines rest.number rest.text.now }
    ensures next { IfSome result (λ found. HasNext rest.entry found.0 found.1) }
    ensures number { IfSome result (λ found. found.0.number ≡ signed_number_in found.0.bytes.now) }
    ensures shorter { IfSome result (λ found. length found.1.text.now < length rest.entry.text.now) }
    ensures stage { IfSome result (λ found. found.1.stage ≡ Stage.Numbers) }
{
    if !begins_with_blank(rest.text) {
        return None;
    }
    let Ok(start) = after_blank(rest) else {
        return None;
    };
    let Stage::Numbers = start.stage else {
        return None;
    };
    let (number, len) = plain_number(start.text)?;
    let word = Word {
        line: start.number,
        bytes: &start.text[..len],
        number: Some(number),
    };
    let text = &start.text[len..];
    Some((word, Rest { text, ..start }))
}

/// The place where the next word begins. An `Err` has the place where none begins.
fn word_start(rest: Rest<'_>) -> Result<Rest<'_>, Rest<'_>>
    requires { HasFewLines rest.number rest.text.now }
    ensures goes_on { IfOk result (GoesOn rest.entry) }
    ensures word { IfOk result (λ start. begins_with_blank start.text.now ≡ false) }
    ensures within { IfOk result (λ start. length start.text.now ≤ length rest.entry.text.now) }
    ensures left { IfErr result (GoesOn rest.entry) }
    ensures kept { IfErr result (λ left. IsKept left.text.now) }
{
    let mut rest = rest;
    while begins_with_blank(rest.text) {
        rest = after_blank(rest)?;
    }
    Ok(rest)
}

/// Whether the first byte is a blank.
pub(crate) fn begins_with_blank(text: &[u8]) -> bool
    ensures { result ≡ begins_with_blank text.now }
{
    !text.is_empty() && is_blank(text[0])
}

/// The place after the blank at the front. An `Err` has the place where the bytes do not show what line begins, or
/// where its comment ends.
fn after_blank(rest: Rest<'_>) -> Result<Rest<'_>, Rest<'_>>
    requires blank { begins_with_blank rest.text.now ≡ true }
    requires few { HasFewLines rest.number rest.text.now }
    ensures goes_on { IfOk result (GoesOn rest.entry) }
    ensures shorter { IfOk result (λ later. length later.text.now < length rest.entry.text.now) }
    ensures left { IfErr result (GoesOn rest.entry) }
    ensures kept { IfErr result (λ left. IsKept left.text.now) }
{
    let text = &rest.text[1..];
    if rest.text[0] == b'\n' {
        line_start(rest, text)
    } else {
        Ok(Rest { text, ..rest })
    }
}

/// The place where this line begins, after the line feed at the front. Where it is a comment, it is the end of the line.
fn line_start<'a>(rest: Rest<'a>, line: &'a [u8]) -> Result<Rest<'a>, Rest<'a>>
    requires feed { rest.text.now ≡ 10 ∷ line.now }
    requires few { HasFewLines rest.number rest.text.now }
    ensures goes_on { IfOk result (GoesOn rest.entry) }
    ensures within { IfOk result (λ later. length later.text.now ≤ length line.entry.now) }
    ensures left { IfErr result (GoesOn rest.entry) }
    ensures kept { IfErr result (λ left. IsKept left.text.now) }
{
    if line.is_empty() {
        return Err(rest);
    }
    let number = rest.number + 1;
    if !is_comment(line) {
        let stage = rest.stage.at_data_line(rest.number);
        return Ok(Rest {
            stage,
            number,
            text: line,
        });
    }
    let len = line_len(line);
    if len == line.len() {
        let text = &rest.text[..2];
        return Err(Rest { text, ..rest });
    }
    let stage = rest.stage.at_comment(rest.number);
    let text = &line[len..];
    Ok(Rest {
        stage,
        number,
        text,
    })
}

/// The place of a beginning of a word, with its bytes; without them where it is longer than any right word.
fn kept_word(start: Rest<'_>) -> Rest<'_>
    requires whole { IsInWord start.text.now }
    requires few { HasFewLines start.number start.text.now }
    ensures goes_on { GoesOn start.entry result }
    ensures kept { IsKept result.text.now }
{
    if start.text.len() <= MOST_DIGITS + 1 {
        return start;
    }
    Rest {
        stage: start.stage.after_long_word(start.number),
        text: &start.text[..0],
        ..start
    }
}
