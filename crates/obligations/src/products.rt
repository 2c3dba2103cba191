//! Products and sums of lists of choices, reduced.

ghost use Rattle.std.specs.Prelude.{◌≡◌, ◌∷◌, ◌++◌, [], Some, None, IfOk, IfErr, nat_eq, true};
ghost use Rattle.std.specs.Ordering.{nat_cmp};
ghost use Rattle.obligations.specs.Choices.{formed, product, empty_choice};
ghost use Rattle.obligations.specs.Numbers.{choice_keys};
ghost use Rattle.obligations.specs.internal.Antichains.{IsAntichain};

use crate::apart::have_nothing_in_common;
use crate::joining::joins_of;
use crate::numbered::NumberedChoice;
use crate::reducing::reduced;
use crate::rounds::are_rising;
use crate::step_error::{MOST_CHOICES, StepError};
use std::alloc::Global;

/// A list that was formed, reduced.
#[tactic(auto, using(crate::proofs::Antichains::reduced_is_antichain))]
fn formed(alloc: Global, choices: Vec<NumberedChoice>) -> Result<Vec<NumberedChoice>, StepError>
    ensures choices { IfOk result (λ kept. formed nat_eq (choice_keys choices.items) ≡ Some (choice_keys kept.items)) }
    ensures antichain { IfOk result (λ kept. IsAntichain (choice_keys kept.items)) }
    ensures many { IfErr result (λ e. e ≡ StepError.Choices → formed nat_eq (choice_keys choices.items) ≡ None) }
{
    if choices.len() > MOST_CHOICES {
        return Err(StepError::Choices);
    }
    Ok(reduced(alloc, choices)?)
}

/// The product of two reduced lists, reduced. Where they have nothing in common their joins are.
#[tactic(auto, using(crate::proofs::Antichains::reduced_is_antichain, crate::proofs::ApartJoins::apart_joins_antichain, crate::proofs::ApartJoins::apart_product))]
pub(crate) fn product(
    alloc: Global,
    left: &[NumberedChoice],
    right: &[NumberedChoice],
) -> Result<Vec<NumberedChoice>, StepError>
    requires left { IsAntichain (choice_keys left.now) }
    requires right { IsAntichain (choice_keys right.now) }
    ensures choices { IfOk result (λ kept. product nat_eq nat_cmp (choice_keys left.now) (choice_keys right.now) ≡ Some (choice_keys kept.items)) }
    ensures antichain { IfOk result (λ kept. IsAntichain (choice_keys kept.items)) }
    ensures many { IfErr result (λ e. e ≡ StepError.Choices →
        product nat_eq nat_cmp (choice_keys left.now) (choice_keys right.now) ≡ None) }
{
    let list = joins_of(alloc, left, right)?;
    if have_nothing_in_common(left, right) {
        return Ok(list);
    }
    Ok(reduced(alloc, list)?)
}

/// Whether a list is that of the choice alone that asks for nothing and leaves nothing.
fn is_unit(choices: &[NumberedChoice]) -> bool
    ensures { result ≡ true → choice_keys choices.now ≡ empty_choice ∷ [] }
{
    match choices {
        [only] => {
            only.care == 0 && only.want == 0 && only.next.is_empty() && only.postponed.is_empty()
        }
        _ => false,
    }
}

/// The product of two reduced lists, reduced, where the right one may be used up.
pub(crate) fn product_of(
    alloc: Global,
    left: &[NumberedChoice],
    right: Vec<NumberedChoice>,
) -> Result<Vec<NumberedChoice>, StepError>
    requires left { IsAntichain (choice_keys left.now) }
    requires right { IsAntichain (choice_keys right.items) }
    ensures choices { IfOk result (λ kept. product nat_eq nat_cmp (choice_keys left.now) (choice_keys right.items) ≡ Some (choice_keys kept.items)) }
    ensures antichain { IfOk result (λ kept. IsAntichain (choice_keys kept.items)) }
    ensures many { IfErr result (λ e. e ≡ StepError.Choices →
        product nat_eq nat_cmp (choice_keys left.now) (choice_keys right.items) ≡ None) }
{
    if right.len() <= MOST_CHOICES && is_unit(left) && are_rising(right.as_slice()) {
        return Ok(right);
    }
    product(alloc, left, right.as_slice())
}

/// One list after the other, reduced.
pub(crate) fn sum(
    alloc: Global,
    mut left: Vec<NumberedChoice>,
    mut right: Vec<NumberedChoice>,
) -> Result<Vec<NumberedChoice>, StepError>
    ensures choices { IfOk result (λ kept. formed nat_eq (choice_keys left.items ++ choice_keys right.items) ≡ Some (choice_keys kept.items)) }
    ensures antichain { IfOk result (λ kept. IsAntichain (choice_keys kept.items)) }
    ensures many { IfErr result (λ e. e ≡ StepError.Choices →
        formed nat_eq (choice_keys left.items ++ choice_keys right.items) ≡ None) }
{
    if left.is_empty() {
        return formed(alloc, right);
    }
    left.append(&mut right)?;
    formed(alloc, left)
}
