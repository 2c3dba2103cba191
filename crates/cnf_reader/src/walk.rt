//! What stands at the front of a text, found in one walk over its bytes.

ghost use Rattle.std.specs.Prelude.{◌≡◌, ◌+◌, ◌<◌, ◌≤◌, ◌^◌, not, ◌∷◌, Some, IfSome, length, take};
ghost use Rattle.std.specs.List.{prefix_len};
ghost use Rattle.tsl_text.specs.Lines.{is_blank, is_line_byte};
ghost use Rattle.tsl_text.specs.Numbers.{number_in, opposite, signed_number_in};

use tsl_text::{MOST_DIGITS, signed_number_in};

/// The number that the word at the front means, and how many bytes the word has. No number stands for a word that
/// means none.
#[inline(always)]
pub fn front_number(text: &[u8]) -> (Option<i64>, usize)
    ensures len { result.1 ≡ prefix_len (λ byte. not (is_blank byte)) text.now }
    ensures bound { result.1 ≤ length text.now }
    ensures number { result.0 ≡ signed_number_in (take result.1 text.now) }
{
    match plain_number(text) {
        Some((number, len)) => (Some(number), len),
        None => {
            let len = word_len(text);
            (signed_number_in(&text[..len]), len)
        }
    }
}

/// The same in one walk, where the word is a number. `None` where it is none, or where that is not seen in this walk.
#[inline(always)]
pub fn plain_number(text: &[u8]) -> Option<(i64, usize)>
    ensures len { IfSome result (λ found. found.1 ≡ prefix_len (λ byte. not (is_blank byte)) text.now) }
    ensures bound { IfSome result (λ found. found.1 < length text.now) }
    ensures some { IfSome result (λ found. 0 < found.1) }
    ensures number { IfSome result (λ found. signed_number_in (take found.1 text.now) ≡ Some found.0) }
{
    match text {
        [b'-', digits @ ..] => negative_number(digits),
        _ => match plain_digits(text) {
            None => None,
            Some((value, len)) => Some((value as i64, len)),
        },
    }
}

/// The same where a `-` stands before these bytes.
#[inline(always)]
fn negative_number(digits: &[u8]) -> Option<(i64, usize)>
    ensures len { IfSome result (λ found. found.1 ≡ prefix_len (λ byte. not (is_blank byte)) (45 ∷ digits.now)) }
    ensures bound { IfSome result (λ found. found.1 < length digits.now + 1) }
    ensures number { IfSome result (λ found. signed_number_in (take found.1 (45 ∷ digits.now)) ≡ Some found.0) }
{
    let (value, len) = plain_digits(digits)?;
    let number = opposite(value)?;
    Some((number, len + 1))
}

/// The opposite of a number from 1 on.
fn opposite(value: u64) -> Option<i64>
    requires { value < 10 ^ 18 }
    ensures { result ≡ opposite value }
{
    match value {
        0 => None,
        _ => Some(-(value as i64)),
    }
}

/// The number that the digits at the front spell, and how many they are, where 1 to 18 of them stand before a blank. `None`
/// also where the text is too short for 18 digits and a blank, so that no digit needs a test whether the text ends.
#[inline(always)]
fn plain_digits(text: &[u8]) -> Option<(u64, usize)>
    ensures len { IfSome result (λ found. found.1 ≡ prefix_len (λ byte. not (is_blank byte)) text.now) }
    ensures bound { IfSome result (λ found. found.1 < length text.now) }
    ensures some { IfSome result (λ found. 0 < found.1) }
    ensures number { IfSome result (λ found. number_in (take found.1 text.now) ≡ Some found.0) }
    ensures small { IfSome result (λ found. found.0 < 10 ^ 18) }
{
    if text.len() <= MOST_DIGITS {
        return None;
    }
    let mut value = 0;
    let mut len = 0;
    while len < MOST_DIGITS && text[len].is_ascii_digit() {
        value = value * 10 + u64::from(text[len] - b'0');
        len += 1;
    }
    if len > 0 && is_blank(text[len]) {
        Some((value, len))
    } else {
        None
    }
}

/// How many bytes at the front are no blanks.
fn word_len(text: &[u8]) -> usize
    ensures value { result ≡ prefix_len (λ byte. not (is_blank byte)) text.now }
    ensures bound { result ≤ length text.now }
{
    text.iter().take_while(|byte| !is_blank(**byte)).count()
}

/// How many bytes stand before the first line feed, or in all where there is none.
pub fn line_len(text: &[u8]) -> usize
    ensures value { result ≡ prefix_len is_line_byte text.now }
    ensures bound { result ≤ length text.now }
{
    text.iter().take_while(|byte| **byte != b'\n').count()
}

/// Whether the byte is a blank: a space, a tab, a carriage return or a line feed.
pub fn is_blank(byte: u8) -> bool
    ensures { result ≡ is_blank byte }
{
    byte == b' ' || byte == b'\t' || byte == b'\r' || byte == b'\n'
}
