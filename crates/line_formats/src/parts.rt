//! The parts that stand at the front of what is left of a line.

ghost use Rattle.std.specs.Prelude.{◌≡◌, ◌≤◌, ◌<◌, ◌^◌, length, Some, None, IfSome, IfNone};
ghost use Rattle.std.specs.List.{prefix_len};
ghost use Rattle.std.specs.Char.{is_ascii_digit};
ghost use Rattle.line_formats.specs.Format.{strip};
ghost use Rattle.line_formats.specs.Leaves.{first_number};

use tsl_text::plain_number_in;

/// What is left after these bytes, where they stand at the front.
pub fn past<'a>(bytes: &'a [u8], word: &[u8]) -> Option<&'a [u8]>
    ensures some { IfSome result (λ rest. strip word.now bytes.now ≡ Some rest.now) }
    ensures none { IfNone result (strip word.now bytes.now ≡ None) }
{
    match bytes.strip_prefix(word) {
        Some(rest) => Some(rest),
        None => None,
    }
}

/// The longest number at the front, without leading zeros and with at most 18 digits, and what is
/// left after it.
pub fn first_number(bytes: &[u8]) -> Option<(u64, &[u8])>
    ensures some { IfSome result (λ read. first_number bytes.now ≡ Some (read.0, read.1.now)) }
    ensures none { IfNone result (first_number bytes.now ≡ None) }
    ensures bound { IfSome result (λ read. read.0 < 10 ^ 18) }
{
    let len = number_len(bytes);
    match plain_number_in(&bytes[..len]) {
        Some(number) => Some((number, &bytes[len..])),
        None => None,
    }
}

/// How many bytes at the front are digits.
fn number_len(bytes: &[u8]) -> usize
    ensures value { result ≡ prefix_len is_ascii_digit bytes.now }
    ensures bound { result ≤ length bytes.now }
{
    bytes
        .iter()
        .take_while(|byte| byte.is_ascii_digit())
        .count()
}
