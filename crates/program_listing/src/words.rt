//! The bytes, names and numbers that stand at the front of what is left of a line.

ghost use Rattle.std.specs.Prelude.{◌≡◌, ◌≤◌, length, option_map, Some, IfOk, IfErr};
ghost use Rattle.std.specs.List.{prefix_len, list_all, list_any};
ghost use Rattle.std.specs.Str.{bytes_eq};
ghost use Rattle.std.specs.Char.{is_ascii_digit};
ghost use Rattle.tsl_text.specs.Names.{is_name_start, is_name_byte, is_name_text, is_reserved, is_usable};
ghost use Rattle.program_listing.specs.internal.LineReading.{left_place, skipped, past, first_name, first_number};
ghost use Rattle.program_listing.specs.internal.LineReading.{IsReadAs, IsUnread, IsMisread, long_words, letters};

use crate::listing::Name;
use crate::rest::{LineError, Reading, Rest};
use tsl_text::plain_number_in;

/// What is left after so many bytes.
fn skip(left: Rest<'_>, len: usize) -> Rest<'_>
    requires { len ≤ length left.bytes.now }
    ensures { left_place result ≡ skipped len (left_place left.entry) }
{
    Rest {
        at: left.at + len as u32,
        bytes: &left.bytes[len..],
    }
}

/// What is left past these bytes, where they stand at the front.
pub fn past<'a>(left: Rest<'a>, word: &[u8]) -> Option<Rest<'a>>
    ensures { option_map left_place result ≡ past word.now (left_place left.entry) }
{
    match left.bytes.strip_prefix(word) {
        Some(bytes) => Some(Rest {
            at: left.at + word.len() as u32,
            bytes,
        }),
        None => None,
    }
}

/// What is left past these bytes, which have to stand at the front.
pub fn expect<'a>(left: Rest<'a>, word: &[u8]) -> Result<Rest<'a>, LineError>
    ensures ok { IfOk result (λ later.
        past word.now (left_place left.entry) ≡ Some (left_place later)) }
    ensures wrong { IfErr result (IsMisread (past word.now (left_place left.entry))) }
{
    match past(left, word) {
        Some(later) => Ok(later),
        None => Err(LineError::Form),
    }
}

/// The longest name at the front, if it is no reserved word.
pub fn first_name(left: Rest<'_>) -> Reading<'_, Name>
    ensures ok { IfOk result (IsReadAs (λ name. name) first_name left.entry) }
    ensures wrong { IfErr result (IsUnread first_name left.entry) }
{
    let len = name_len(left.bytes);
    if !is_usable(&left.bytes[..len]) {
        return Err(LineError::Form);
    }
    let name = Name {
        start: left.at,
        end: left.at + len as u32,
    };
    Ok((name, skip(left, len)))
}

/// The longest number at the front, without leading zeros and with at most 18 digits.
pub fn first_number(left: Rest<'_>) -> Reading<'_, u64>
    ensures ok { IfOk result (IsReadAs (λ number. number) first_number left.entry) }
    ensures wrong { IfErr result (IsUnread first_number left.entry) }
{
    let len = number_len(left.bytes);
    match plain_number_in(&left.bytes[..len]) {
        Some(number) => Ok((number, skip(left, len))),
        None => Err(LineError::Form),
    }
}

/// How many bytes at the front a name may go on with.
pub fn name_len(bytes: &[u8]) -> usize
    ensures value { result ≡ prefix_len is_name_byte bytes.now }
    ensures bound { result ≤ length bytes.now }
{
    bytes.iter().take_while(|byte| is_name_byte(**byte)).count()
}

/// How many bytes at the front are digits.
fn number_len(bytes: &[u8]) -> usize
    ensures value { result ≡ prefix_len is_ascii_digit bytes.now }
    ensures bound { result ≤ length bytes.now }
{
    bytes
        .iter()
        .take_while(|byte| byte.is_ascii_digit())
        .count()
}

/// Whether a name may begin with the byte: an ASCII letter or `_`.
pub fn is_name_start(byte: u8) -> bool
    ensures { result ≡ is_name_start byte }
{
    byte.is_ascii_alphabetic() || byte == b'_'
}

/// Whether a name may go on with the byte: an ASCII letter, a digit, `_` or `'`.
fn is_name_byte(byte: u8) -> bool
    ensures { result ≡ is_name_byte byte }
{
    byte.is_ascii_alphanumeric() || byte == b'_' || byte == b'\''
}

/// Whether the bytes are a name and no reserved word.
fn is_usable(bytes: &[u8]) -> bool
    ensures { result ≡ is_usable bytes.now }
{
    is_name(bytes) && !is_reserved(bytes)
}

/// Whether the bytes are a name.
fn is_name(bytes: &[u8]) -> bool
    ensures { result ≡ is_name_text bytes.now }
{
    match bytes {
        [] => false,
        [first, rest @ ..] => is_name_start(*first) && are_name_bytes(rest),
    }
}

/// Whether a name may go on with each of the bytes.
fn are_name_bytes(bytes: &[u8]) -> bool
    ensures { result ≡ list_all is_name_byte bytes.now }
{
    bytes.iter().all(|byte| is_name_byte(*byte))
}

/// Whether the bytes are a reserved word.
fn is_reserved(bytes: &[u8]) -> bool
    ensures { result ≡ is_reserved bytes.now }
{
    is_word_of_sections(bytes) || is_operator(bytes)
}

/// Whether the bytes are a reserved word of more than one letter.
fn is_word_of_sections(bytes: &[u8]) -> bool
    ensures { result ≡ list_any (bytes_eq bytes.now) long_words }
{
    bytes == b"assume".as_slice()
        || bytes == b"guarantee".as_slice()
        || bytes == b"always".as_slice()
        || bytes == b"initially".as_slice()
        || bytes == b"true".as_slice()
        || bytes == b"false".as_slice()
}

/// Whether the bytes are a reserved word of one letter.
fn is_operator(bytes: &[u8]) -> bool
    ensures { result ≡ list_any (bytes_eq bytes.now) letters }
{
    matches!(bytes, [b'X' | b'F' | b'G' | b'U' | b'W' | b'R' | b'A'])
}
