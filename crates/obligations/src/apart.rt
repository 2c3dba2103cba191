//! Lists of choices that have nothing in common.

ghost use Rattle.std.specs.Prelude.{◌≡◌};
ghost use Rattle.obligations.specs.Numbers.{choice_key, choice_keys};
ghost use Rattle.obligations.specs.internal.Antichains.{gathered, cares, mark, marks_of, all_marks, have_nothing_in_common};

use crate::numbered::NumberedChoice;
use crate::rounds::are_rising;

/// All bits that the choices of a list ask for.
#[tactic(auto, using(crate::proofs::CaresLemmas::none_first, crate::proofs::CaresLemmas::cares_step))]
fn cares_of(choices: &[NumberedChoice]) -> u64
    ensures { result ≡ cares (choice_keys choices.now) }
{
    let mut all = 0;
    for choice in choices {
        all = all | choice.care;
    }
    all
}

/// The bit that stands for a number; numbers with the same remainder have the same one.
fn mark(number: u32) -> u64
    ensures { result ≡ mark number }
{
    1u64 << (number % 64)
}

/// The bits that stand for some numbers.
#[tactic(auto, using(crate::proofs::CaresLemmas::none_first))]
fn marks_of_numbers(numbers: &[u32]) -> u64
    ensures { result ≡ gathered mark numbers.now }
{
    let mut all = 0;
    for number in numbers {
        all = all | mark(*number);
    }
    all
}

/// The bits that stand for what a choice leaves and puts off.
fn marks_of(choice: &NumberedChoice) -> u64
    ensures { result ≡ marks_of (choice_key choice.now) }
{
    marks_of_numbers(&choice.next) | marks_of_numbers(&choice.postponed)
}

/// The bits that stand for what the choices of a list leave and put off.
#[tactic(auto, using(crate::proofs::CaresLemmas::none_first, crate::proofs::CaresLemmas::marks_step))]
fn all_marks(choices: &[NumberedChoice]) -> u64
    ensures { result ≡ all_marks (choice_keys choices.now) }
{
    let mut all = 0;
    for choice in choices {
        all = all | marks_of(choice);
    }
    all
}

/// Whether no bit is asked for in both lists, and none stands for something that both leave or put off.
/// The joins of two such lists need not be reduced where the lists are.
pub(crate) fn have_nothing_in_common(left: &[NumberedChoice], right: &[NumberedChoice]) -> bool
    ensures { result ≡ have_nothing_in_common (choice_keys left.now) (choice_keys right.now) }
{
    cares_of(left) & cares_of(right) == 0
        && all_marks(left) & all_marks(right) == 0
        && are_rising(left)
        && are_rising(right)
}
