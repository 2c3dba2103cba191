//! The lines of a text, part by part.

ghost use Rattle.std.specs.Prelude.{◌≡◌, ◌+◌, ◌<◌, ◌≤◌, length, option_map, true, false, Some, None, is_some, IfSome, IfNone};
ghost use Rattle.std.specs.List.{prefix_len};
ghost use Rattle.line_formats.specs.Format.{has, read, strip};
ghost use Rattle.line_formats.specs.Leaves.{first_run};
ghost use Rattle.automaton_text.specs.HoaText.{quotable};
ghost use Rattle.automaton_text.specs.HoaLines.{PartValue, leaves, any, within_brackets, word_line, states_line, quoted_name, bit_texts, bits_line, edge_line, state_line, mark, line_value};
ghost use Rattle.automaton_text.specs.internal.Marks.{mark_value};

use line_formats::{first_number, past};

/// Whether a line has these very words.
#[tactic(auto, using(crate::proofs::BitLines::says_all, crate::proofs::BitLines::says_more, crate::proofs::BitLines::says_none))]
pub(crate) fn says(line: &[u8], words: &[u8]) -> bool
    ensures yes { result ≡ true → line_value (word_line words.now) line.now ≡ Some tt }
    ensures no { result ≡ false → line_value (word_line words.now) line.now ≡ None }
{
    let Some(rest) = past(line, words) else {
        return false;
    };
    rest.is_empty()
}

/// Whether a line begins with these bytes.
pub(crate) fn begins(line: &[u8], word: &[u8]) -> bool
    ensures { result ≡ is_some (strip word.now line.now) }
{
    past(line, word).is_some()
}

/// How many states a line says that there are.
pub(crate) fn states_in(line: &[u8]) -> Option<u64>
    ensures some { IfSome result (λ n. line_value states_line line.now ≡ Some (n, tt)) }
    ensures none { IfNone result (line_value states_line line.now ≡ None) }
{
    let rest = past(line, b"States: ")?;
    let (number, rest) = first_number(rest)?;
    match rest {
        [] => Some(number),
        [_, ..] => None,
    }
}

/// The state that a line begins.
pub(crate) fn state_in(line: &[u8]) -> Option<u64>
    ensures some { IfSome result (λ n. line_value state_line line.now ≡ Some (n, tt)) }
    ensures none { IfNone result (line_value state_line line.now ≡ None) }
{
    let rest = past(line, b"State: ")?;
    let (number, rest) = first_number(rest)?;
    match rest {
        [] => Some(number),
        [_, ..] => None,
    }
}

/// What stands before the first quote, and the rest.
fn before_quote(bytes: &[u8]) -> (&[u8], &[u8])
    ensures value { first_run quotable any bytes.now ≡ Some (result.0.now, result.1.now) }
    ensures rest { length result.1.now ≤ length bytes.now }
{
    let len = quotable_len(bytes);
    (&bytes[..len], &bytes[len..])
}

/// How many bytes at the front may stand between quotes.
fn quotable_len(bytes: &[u8]) -> usize
    ensures value { result ≡ prefix_len (has quotable) bytes.now }
    ensures bound { result ≤ length bytes.now }
{
    bytes.iter().take_while(|byte| is_quotable(**byte)).count()
}

/// Whether a byte may stand between quotes.
fn is_quotable(byte: u8) -> bool
    ensures { result ≡ has quotable byte }
{
    byte <= 9 || (11 <= byte && byte <= 33) || 35 <= byte
}

/// What stands before the first closing bracket, and the rest.
fn before_bracket(bytes: &[u8]) -> (&[u8], &[u8])
    ensures { first_run within_brackets any bytes.now ≡ Some (result.0.now, result.1.now) }
{
    let len = bracketed_len(bytes);
    (&bytes[..len], &bytes[len..])
}

/// How many bytes at the front may stand between brackets.
fn bracketed_len(bytes: &[u8]) -> usize
    ensures value { result ≡ prefix_len (has within_brackets) bytes.now }
    ensures bound { result ≤ length bytes.now }
{
    bytes
        .iter()
        .take_while(|byte| is_within_brackets(**byte))
        .count()
}

/// Whether a byte may stand between brackets.
fn is_within_brackets(byte: u8) -> bool
    ensures { result ≡ has within_brackets byte }
{
    byte <= 9 || (11 <= byte && byte <= 92) || 94 <= byte
}

/// What stands between quotes at the front, and what is left after it.
fn first_quoted(bytes: &[u8]) -> Option<(&[u8], &[u8])>
    ensures some { IfSome result (λ found. read PartValue leaves quoted_name bytes.now
        ≡ Some ((found.0.now, tt), found.1.now)) }
    ensures none { IfNone result (read PartValue leaves quoted_name bytes.now ≡ None) }
    ensures shorter { IfSome result (λ found. length found.1.now < length bytes.now) }
{
    let rest = past(bytes, b" \"")?;
    let (name, rest) = before_quote(rest);
    let rest = past(rest, b"\"")?;
    Some((name, rest))
}

/// How many texts in quotes stand to the end of a line.
#[tactic(auto, using(crate::proofs::BitLines::one_more, crate::proofs::BitLines::none_more, crate::proofs::BitLines::all_read))]
fn quoted_count(bytes: &[u8]) -> Option<u64>
    ensures { option_map (λ v. length v.0) (line_value bit_texts bytes.now) ≡ result }
{
    let mut count = 0u64;
    let mut rest = bytes;
    while !rest.is_empty() {
        let Some((_, after)) = first_quoted(rest) else {
            return None;
        };
        count += 1;
        rest = after;
    }
    Some(count)
}

/// How many bits a line says that there are, and how many it names.
pub(crate) fn bits_in(line: &[u8]) -> Option<(u64, u64)>
    ensures { option_map (λ v. (v.0, length v.1.0)) (line_value bits_line line.now) ≡ result }
{
    let rest = past(line, b"AP: ")?;
    let (number, rest) = first_number(rest)?;
    let count = quoted_count(rest)?;
    Some((number, count))
}

/// The label of an edge, the state that it leads to, and whether it is marked.
pub(crate) fn edge_in(line: &[u8]) -> Option<(&[u8], u64, bool)>
    ensures some { IfSome result (λ found. line_value edge_line line.now
        ≡ Some (found.0.now, (found.1, mark_value found.2))) }
    ensures none { IfNone result (line_value edge_line line.now ≡ None) }
{
    let rest = past(line, b"[")?;
    let (label, rest) = before_bracket(rest);
    let rest = past(rest, b"] ")?;
    let (to, rest) = first_number(rest)?;
    let marked = mark_in(rest)?;
    Some((label, to, marked))
}

/// Whether the end of a line is the mark of a rejecting edge; `None` where it is neither empty nor
/// the mark.
#[tactic(auto, using(crate::proofs::BitLines::marked, crate::proofs::BitLines::wrong_mark, crate::proofs::BitLines::no_mark))]
fn mark_in(bytes: &[u8]) -> Option<bool>
    ensures some { IfSome result (λ found. line_value mark bytes.now ≡ Some (mark_value found)) }
    ensures none { IfNone result (line_value mark bytes.now ≡ None) }
{
    if bytes.is_empty() {
        return Some(false);
    }
    if says(bytes, b" {0}") {
        return Some(true);
    }
    None
}
