//! Numbers that words mean.

ghost use Rattle.std.specs.Prelude.{◌≡◌, ◌<◌, ◌≤◌, ◌^◌, true, length, IfSome};
ghost use Rattle.std.specs.List.{list_all};
ghost use Rattle.std.specs.Char.{is_ascii_digit};
ghost use Rattle.tsl_text.specs.Lines.{has_bytes};
ghost use Rattle.tsl_text.specs.Numbers.{is_digits, has_leading_zero, number_in, plain_number_in, signed_number_in, value_of};

/// How many digits a number has at most where it is read.
pub const MOST_DIGITS: usize = 18;

/// The number that a word means: what its digits spell, where it has 1 to 18 bytes and each is a digit.
pub fn number_in(word: &[u8]) -> Option<u64>
    ensures value { result ≡ number_in word.now }
    ensures bound { IfSome result (λ n. n < 10 ^ 18) }
{
    if is_digits(word) && word.len() <= MOST_DIGITS {
        Some(value_of(word))
    } else {
        None
    }
}

/// The number that a word means where no leading zeros are allowed.
pub fn plain_number_in(word: &[u8]) -> Option<u64>
    ensures value { result ≡ plain_number_in word.now }
    ensures bound { IfSome result (λ n. n < 10 ^ 18) }
{
    match word {
        [b'0', _, ..] => None,
        _ => number_in(word),
    }
}

/// The number that a word means where a `-` may stand before a number other than 0.
pub fn signed_number_in(word: &[u8]) -> Option<i64>
    ensures { result ≡ signed_number_in word.now }
{
    match word {
        [] => None,
        [b'-', digits @ ..] => match number_in(digits) {
            None | Some(0) => None,
            Some(value) => Some(-(value as i64)),
        },
        _ => match number_in(word) {
            None => None,
            Some(value) => Some(value as i64),
        },
    }
}

/// Whether the word is one ASCII digit or more.
fn is_digits(word: &[u8]) -> bool
    ensures { result ≡ is_digits word.now }
{
    has_bytes(word) && are_digits(word)
}

/// Whether each byte is an ASCII digit.
fn are_digits(word: &[u8]) -> bool
    ensures { result ≡ list_all is_ascii_digit word.now }
{
    word.iter().all(|byte| byte.is_ascii_digit())
}

/// Whether the word has a byte.
fn has_bytes(word: &[u8]) -> bool
    ensures { result ≡ has_bytes word.now }
{
    !matches!(word, [])
}

/// The number that at most 18 digits spell.
fn value_of(digits: &[u8]) -> u64
    requires digits { is_digits digits.now ≡ true }
    requires few { length digits.now ≤ 18 }
    ensures value { result ≡ value_of digits.now }
    ensures bound { result < 10 ^ 18 }
{
    let mut value = 0;
    for digit in digits {
        value = value * 10 + u64::from(*digit - b'0');
    }
    value
}
