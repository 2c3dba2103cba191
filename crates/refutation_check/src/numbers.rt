//! Numbers that words mean.

ghost use Rattle.std.specs.Prelude.{◌≡◌, ◌<◌, true, Some, pos, is_some, IfSome};
ghost use Rattle.base_library.specs.Options.{passes};
ghost use Rattle.clause_core.specs.Literals.{signed_number_of};
ghost use Rattle.tsl_text.specs.Numbers.{signed_number_in};
ghost use Rattle.refutation_check.specs.Numbers.{is_zero};
ghost use Rattle.refutation_check.specs.internal.Reading.{begins_with_zero};
ghost use Rattle.refutation_check.specs.LogText.{is_literal, is_hint};

use clause_core::Literal;
use tsl_text::signed_number_in;

/// Whether the word means 0, which ends a list.
pub fn ends_list(word: &[u8]) -> bool
    ensures value { result ≡ passes is_zero (signed_number_in word.now) }
    ensures zero { result ≡ true → signed_number_in word.now ≡ Some (pos 0) }
{
    if begins_with_zero(word) {
        matches!(signed_number_in(word), Some(0))
    } else {
        false
    }
}

/// Whether the word begins with a `0`, as each does that means 0.
fn begins_with_zero(word: &[u8]) -> bool
    ensures { result ≡ begins_with_zero word.now }
{
    matches!(word, [b'0', ..])
}

/// The literal whose number the word means. `None` where it means none, or no literal has its number.
pub fn literal_in(word: &[u8]) -> Option<Literal>
    ensures value { IfSome result (λ literal. signed_number_in word.now ≡ Some (signed_number_of literal)) }
    ensures some { is_some result ≡ passes is_literal (signed_number_in word.now) }
{
    match signed_number_in(word) {
        None => None,
        Some(number) => literal_of(number),
    }
}

/// The literal of the number. `None` where none has it.
pub fn literal_of(number: i64) -> Option<Literal>
    ensures value { IfSome result (λ literal. number ≡ signed_number_of literal) }
    ensures some { is_some result ≡ is_literal number }
{
    if number.unsigned_abs() < 2_147_483_648 {
        Literal::new(number as i32)
    } else {
        None
    }
}

/// The hint that the word means: a number from 1 on.
pub fn hint_in(word: &[u8]) -> Option<u64>
    ensures value { IfSome result (λ hint. signed_number_in word.now ≡ Some (pos hint)) }
    ensures positive { IfSome result (λ hint. 0 < hint) }
    ensures some { is_some result ≡ passes is_hint (signed_number_in word.now) }
{
    match signed_number_in(word) {
        None => None,
        Some(number) => {
            if number > 0 {
                Some(number as u64)
            } else {
                None
            }
        }
    }
}
