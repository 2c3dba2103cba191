//! Lists of choices that are joined.

ghost use Rattle.std.specs.Prelude.{◌≡◌, ◌∷◌, [], ◌++◌, ◌<◌, ◌≤◌, ◌↔◌, IfOk, OnOk, IfErr, OnErr, length, nat_eq, option_map, IsTrue, List};
ghost use Rattle.std.specs.List.{filter_map};
ghost use Rattle.std.specs.Ordering.{nat_cmp};
ghost use Rattle.obligations.specs.Choices.{joined, joins, most_choices};
ghost use Rattle.obligations.specs.Numbers.{choice_key, choice_keys};

use crate::numbered::NumberedChoice;
use crate::sets::union_of;
use crate::step_error::{MOST_CHOICES, StepError};
use base_library::NoMemory;
use std::alloc::Global;

/// Both choices together, or `None` where their literals contradict each other.
fn join(
    alloc: Global,
    left: &NumberedChoice,
    right: &NumberedChoice,
) -> Result<Option<NumberedChoice>, NoMemory>
    ensures { IfOk result (λ both. option_map choice_key both ≡ joined nat_eq nat_cmp (choice_key left.now) (choice_key right.now)) }
{
    if (left.want ^ right.want) & (left.care & right.care) != 0 {
        return Ok(None);
    }
    Ok(Some(NumberedChoice {
        care: left.care | right.care,
        want: left.want | right.want,
        next: union_of(alloc, &left.next, &right.next)?,
        postponed: union_of(alloc, &left.postponed, &right.postponed)?,
    }))
}

/// Adds a choice at the end of a list, unless there is no room.
fn add(list: &mut Vec<NumberedChoice>, choice: NumberedChoice) -> Result<(), StepError>
    requires { length list.old.items ≤ most_choices }
    ensures choices { OnOk result (choice_keys list.new.items ≡ choice_keys list.old.items ++ choice_key choice ∷ []) }
    ensures few { OnOk result (length list.new.items ≤ most_choices) }
    ensures full { IfErr result (λ e. e ≡ StepError.Choices → length list.old.items ≡ most_choices) }
{
    if list.len() >= MOST_CHOICES {
        return Err(StepError::Choices);
    }
    list.push(choice)?;
    Ok(())
}

/// Adds the join of two choices, where there is one.
fn add_join(
    alloc: Global,
    list: &mut Vec<NumberedChoice>,
    left: &NumberedChoice,
    right: &NumberedChoice,
) -> Result<(), StepError>
    requires { length list.old.items ≤ most_choices }
    ensures choices { OnOk result (choice_keys list.new.items
        ≡ choice_keys list.old.items ++ filter_map (joined nat_eq nat_cmp (choice_key left.now)) (choice_key right.now ∷ [])) }
    ensures few { OnOk result (length list.new.items ≤ most_choices) }
    ensures many { IfErr result (λ e. e ≡ StepError.Choices → most_choices
        < length (choice_keys list.old.items ++ filter_map (joined nat_eq nat_cmp (choice_key left.now)) (choice_key right.now ∷ []))) }
{
    match join(alloc, left, right)? {
        None => Ok(()),
        Some(both) => add(list, both),
    }
}

/// Adds the joins of a choice with each of a list, in order.
fn add_joins(
    alloc: Global,
    list: &mut Vec<NumberedChoice>,
    left: &NumberedChoice,
    right: &[NumberedChoice],
) -> Result<(), StepError>
    requires { length list.old.items ≤ most_choices }
    ensures choices { OnOk result (choice_keys list.new.items
        ≡ choice_keys list.old.items ++ filter_map (joined nat_eq nat_cmp (choice_key left.now)) (choice_keys right.now)) }
    ensures few { OnOk result (length list.new.items ≤ most_choices) }
    ensures many { IfErr result (λ e. e ≡ StepError.Choices →
        most_choices < length (choice_keys list.old.items ++ filter_map (joined nat_eq nat_cmp (choice_key left.now)) (choice_keys right.now))) }
{
    for choice in right {
        add_join(alloc, list, left, choice)?;
    }
    Ok(())
}

/// The most joins that room is made for beforehand.
const MOST_ROOM: usize = 16;

/// How many joins room is made for beforehand.
fn room_for_joins(left: &[NumberedChoice], right: &[NumberedChoice]) -> usize {
    left.len().saturating_mul(right.len()).min(MOST_ROOM)
}

/// Each choice of the left list joined with each of the right one, left first.
pub(crate) fn joins_of(
    alloc: Global,
    left: &[NumberedChoice],
    right: &[NumberedChoice],
) -> Result<Vec<NumberedChoice>, StepError>
    ensures choices { IfOk result (λ list. choice_keys list.items ≡ joins nat_eq nat_cmp (choice_keys left.now) (choice_keys right.now)) }
    ensures few { IfOk result (λ list. length list.items ≤ most_choices) }
    ensures many { IfErr result (λ e. e ≡ StepError.Choices →
        most_choices < length (joins nat_eq nat_cmp (choice_keys left.now) (choice_keys right.now))) }
{
    let mut list = Vec::with_capacity(alloc, room_for_joins(left, right))?;
    for choice in left {
        add_joins(alloc, &mut list, choice, right)?;
    }
    Ok(list)
}
