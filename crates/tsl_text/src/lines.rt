//! The lines of a text one after another, and the words and the fields of a line. Nothing is copied.

ghost use Rattle.std.specs.Prelude.{◌≡◌, ◌+◌, ◌<◌, ◌≤◌, ◌^◌, [], ◌∷◌, not, length, IfSome, IfNone};
ghost use Rattle.std.specs.List.{prefix_len};
ghost use Rattle.tsl_text.specs.Lines.{lines, lines_from, is_blank, is_space, words, fields};
ghost use Rattle.tsl_text.specs.Cursor.{line_view, lines_left, IsCountable};

use crate::front::line_len;

/// A line of a text.
#[derive(Clone, Copy)]
pub struct Line<'a> {
    /// Its number, from 1.
    pub number: u32,
    /// Its bytes, without the line feed.
    pub bytes: &'a [u8],
    /// Whether its line feed follows it; where none does, the text ends.
    pub ended: bool,
}

/// What is left of a text, from the beginning of a line on.
#[derive(Clone, Copy)]
pub struct Lines<'a> {
    /// The number of the first line that is left.
    pub number: u32,
    /// The text that is left.
    pub text: &'a [u8],
}

/// All lines of a text.
pub fn lines_of(text: &[u8]) -> Lines<'_>
    ensures lines { lines_left result ≡ lines_from 1 text.now }
    ensures number { result.number ≡ 1 }
    ensures text { result.text.now ≡ text.now }
{
    Lines { number: 1, text }
}

/// The first line that is left, and what is left after it. `None` where no line is left.
#[tactic(auto, using(crate::proofs::LineLaws::feed_lines, crate::proofs::LineLaws::feed_numbered, crate::proofs::LineLaws::cut_lines, crate::proofs::LineLaws::cut_to_end))]
pub fn first_line(left: Lines<'_>) -> Option<(Line<'_>, Lines<'_>)>
    requires { IsCountable left }
    ensures some { IfSome result (λ found. lines_left left.entry ≡ line_view found.0 ∷ lines_left found.1) }
    ensures lines { IfSome result (λ found. lines left.entry.text.now ≡ found.0.bytes.now ∷ lines found.1.text.now) }
    ensures number { IfSome result (λ found. found.0.number ≡ left.entry.number) }
    ensures next { IfSome result (λ found. found.1.number ≡ left.entry.number + 1) }
    ensures countable { IfSome result (λ found. IsCountable found.1) }
    ensures within { IfSome result (λ found. length found.0.bytes.now + length found.1.text.now ≤ length left.entry.text.now) }
    ensures shorter { IfSome result (λ found. length found.1.text.now < length left.entry.text.now) }
    ensures none { IfNone result (left.entry.text.now ≡ []) }
{
    let text = left.text;
    if text.is_empty() {
        return None;
    }
    let len = line_len(text);
    if len < text.len() {
        let line = Line {
            number: left.number,
            bytes: &text[..len],
            ended: true,
        };
        let after = Lines {
            number: left.number + 1,
            text: &text[len + 1..],
        };
        Some((line, after))
    } else {
        let line = Line {
            number: left.number,
            bytes: text,
            ended: false,
        };
        let after = Lines {
            number: left.number + 1,
            text: &text[len..],
        };
        Some((line, after))
    }
}

/// How many lines a text has.
pub fn line_count(text: &[u8]) -> u32
    requires { length text.now + 1 < 2 ^ 32 }
    ensures value { result ≡ length (lines text.now) }
    ensures bound { result ≤ length text.now }
{
    let mut left = lines_of(text);
    while let Some((_, after)) = first_line(left) {
        left = after;
    }
    left.number - 1
}

/// The first word of a line, and what stands after it. `None` where the line has no word.
#[tactic(auto, using(crate::proofs::FieldLaws::word_none, crate::proofs::FieldLaws::word_some))]
pub fn first_word(line: &[u8]) -> Option<(&[u8], &[u8])>
    ensures some { IfSome result (λ found. words line.now ≡ found.0.now ∷ words found.1.now) }
    ensures none { IfNone result (words line.now ≡ []) }
    ensures shorter { IfSome result (λ found. length found.1.now < length line.now) }
{
    let rest = &line[blank_len(line)..];
    let len = word_len(rest);
    if len == 0 {
        None
    } else {
        Some((&rest[..len], &rest[len..]))
    }
}

/// The first field of a line, and what stands after the space that ends it. There is nothing after the last field.
#[tactic(auto, using(crate::proofs::FieldLaws::field_more, crate::proofs::FieldLaws::field_last))]
pub fn first_field(line: &[u8]) -> (&[u8], Option<&[u8]>)
    ensures more { IfSome result.1 (λ after. fields line.now ≡ result.0.now ∷ fields after.now) }
    ensures last { IfNone result.1 (fields line.now ≡ result.0.now ∷ []) }
    ensures shorter { IfSome result.1 (λ after. length after.now < length line.now) }
{
    let len = field_len(line);
    if len < line.len() {
        (&line[..len], Some(&line[len + 1..]))
    } else {
        (line, None)
    }
}

/// How many bytes at the front are blanks.
fn blank_len(line: &[u8]) -> usize
    ensures value { result ≡ prefix_len is_blank line.now }
    ensures bound { result ≤ length line.now }
{
    line.iter().take_while(|byte| is_blank(**byte)).count()
}

/// How many bytes at the front are no blanks.
fn word_len(line: &[u8]) -> usize
    ensures value { result ≡ prefix_len (λ byte. not (is_blank byte)) line.now }
    ensures bound { result ≤ length line.now }
{
    line.iter().take_while(|byte| !is_blank(**byte)).count()
}

/// How many bytes stand before the first space, or in all where there is none.
fn field_len(line: &[u8]) -> usize
    ensures value { result ≡ prefix_len (λ byte. not (is_space byte)) line.now }
    ensures bound { result ≤ length line.now }
{
    line.iter().take_while(|byte| **byte != b' ').count()
}

/// Whether the byte is a blank: a space, a tab, a carriage return or a line feed.
fn is_blank(byte: u8) -> bool
    ensures { result ≡ is_blank byte }
{
    byte == b' ' || byte == b'\t' || byte == b'\r' || byte == b'\n'
}
