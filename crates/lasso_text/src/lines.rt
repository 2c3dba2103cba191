//! The numbers of a line.

ghost use Rattle.std.specs.Prelude.{◌≡◌, ◌<◌, ◌^◌, option_map, Some, None, IfOk, IfSome, IfNone};
ghost use Rattle.line_formats.specs.Format.{read};
ghost use Rattle.lasso_text.specs.LetterText.{Numbers, leaves, spaced, numbers, back_line, line_value, as_members, rise};

use base_library::NoMemory;
use line_formats::{first_number, past};
use std::alloc::Global;

/// The numbers that stand to the end of a line, each after a space.
#[tactic(auto, using(crate::proofs::LetterLines::front_nil, crate::proofs::LetterLines::one_more, crate::proofs::LetterLines::none_more, crate::proofs::LetterLines::all_read,))]
pub(crate) fn spaced_numbers(alloc: Global, bytes: &[u8]) -> Result<Option<Vec<u64>>, NoMemory>
    ensures { IfOk result (λ found.
        line_value numbers bytes.now ≡ option_map (λ ns. (as_members ns.items, tt)) found) }
{
    let mut numbers = Vec::new(alloc);
    let mut rest = bytes;
    while !rest.is_empty() {
        let Some((number, after)) = spaced_number(rest) else {
            return Ok(None);
        };
        numbers.push(number)?;
        rest = after;
    }
    Ok(Some(numbers))
}

/// A number after a space, and what is left after it.
fn spaced_number(bytes: &[u8]) -> Option<(u64, &[u8])>
    ensures some { IfSome result (λ found.
        read Numbers leaves spaced bytes.now ≡ Some ((found.0, tt), found.1.now)) }
    ensures none { IfNone result (read Numbers leaves spaced bytes.now ≡ None) }
{
    let rest = past(bytes, b" ")?;
    first_number(rest)
}

/// Whether the numbers rise and are below a bound.
pub(crate) fn rise(bits: u32, numbers: &[u64]) -> bool
    ensures { result ≡ rise bits 0 numbers.now }
{
    let mut least = 0u64;
    for number in numbers {
        if *number < least || *number >= u64::from(bits) {
            return false;
        }
        least = *number + 1;
    }
    true
}

/// The number of the last line.
pub(crate) fn back_number(line: &[u8]) -> Option<u64>
    ensures some { IfSome result (λ n. line_value back_line line.now ≡ Some (n, tt)) }
    ensures none { IfNone result (line_value back_line line.now ≡ None) }
{
    let rest = past(line, b"back ")?;
    let (number, rest) = first_number(rest)?;
    match rest {
        [] => Some(number),
        [_, ..] => None,
    }
}
