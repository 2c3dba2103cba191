//! Lists of choices without repeats, and without choices that another one lies within.

ghost use Rattle.std.specs.Prelude.{◌≡◌, ◌∷◌, ◌++◌, [], IfOk, OnOk, nat_eq, cond, not, ◌&&◌, length, map};
ghost use Rattle.std.specs.List.{list_all};
ghost use Rattle.base_library.specs.Kept.{is_kept, with_new};
ghost use Rattle.obligations.specs.Choices.{is_within, same_choice, without_repeats, is_larger, without_larger, reduced};
ghost use Rattle.obligations.specs.internal.Antichains.{are_apart, is_antichain};
ghost use Rattle.obligations.specs.internal.Rounds.{flagged_members};
ghost use Rattle.obligations.specs.Numbers.{choice_key, choice_keys};

use crate::numbered::NumberedChoice;
use crate::rounds::{are_rising, without_larger_by_rounds};
use base_library::NoMemory;
use indexmap::IndexSet;
use std::alloc::Global;

/// The choices of a list, equal ones once, in the order in which they first appear.
fn without_repeats(
    alloc: Global,
    choices: Vec<NumberedChoice>,
) -> Result<IndexSet<NumberedChoice>, NoMemory>
    ensures { IfOk result (λ kept. choice_keys kept.keys ≡ without_repeats nat_eq (choice_keys choices.items)) }
{
    let mut kept = IndexSet::new(alloc);
    for choice in choices {
        kept.insert(choice)?;
    }
    Ok(kept)
}

/// Whether a choice lies within another one and differs from it.
fn lies_within(small: &NumberedChoice, large: &NumberedChoice) -> bool
    ensures { result ≡ (is_within nat_eq (choice_key small.now) (choice_key large.now)
        && not (same_choice nat_eq (choice_key small.now) (choice_key large.now))) }
{
    small.is_within(large) && small != large
}

/// Whether a different choice of a list lies within one.
fn is_larger(choices: &[NumberedChoice], choice: &NumberedChoice) -> bool
    ensures { result ≡ is_larger nat_eq (choice_keys choices.now) (choice_key choice.now) }
{
    for other in choices {
        if lies_within(other, choice) {
            return true;
        }
    }
    false
}

/// Adds an equal choice at the end of a list where a test says so.
pub(crate) fn add_if(
    alloc: Global,
    list: &mut Vec<NumberedChoice>,
    choice: &NumberedChoice,
    test: bool,
) -> Result<(), NoMemory>
    ensures { OnOk result (choice_keys list.new.items
        ≡ choice_keys list.old.items ++ cond test (choice_key choice.now ∷ []) []) }
{
    if test {
        list.push(choice.copy(alloc)?)?;
    }
    Ok(())
}

/// The choices of a list that no different one lies within.
fn without_larger(
    alloc: Global,
    choices: &[NumberedChoice],
) -> Result<Vec<NumberedChoice>, NoMemory>
    ensures { IfOk result (λ kept. choice_keys kept.items ≡ without_larger nat_eq (choice_keys choices.now)) }
{
    let mut kept = Vec::new(alloc);
    for choice in choices {
        add_if(alloc, &mut kept, choice, !is_larger(choices, choice))?;
    }
    Ok(kept)
}

/// Whether an equal choice is in a list.
fn is_there(kept: &[NumberedChoice], choice: &NumberedChoice) -> bool
    ensures { result ≡ is_kept (λ k c. same_choice nat_eq c k) (choice_keys kept.now) (choice_key choice.now) }
{
    for other in kept {
        if choice == other {
            return true;
        }
    }
    false
}

/// Adds a choice at the end of a list where a test says so.
fn push_choice_if(
    list: &mut Vec<NumberedChoice>,
    choice: NumberedChoice,
    test: bool,
) -> Result<(), NoMemory>
    ensures { OnOk result (choice_keys list.new.items
        ≡ choice_keys list.old.items ++ cond test (choice_key choice ∷ []) []) }
{
    if test {
        list.push(choice)?;
    }
    Ok(())
}

/// The choices of a list, equal ones once, where each is compared with those before it.
fn without_few_repeats(
    alloc: Global,
    choices: Vec<NumberedChoice>,
) -> Result<Vec<NumberedChoice>, NoMemory>
    ensures { IfOk result (λ kept. choice_keys kept.items ≡ without_repeats nat_eq (choice_keys choices.items)) }
{
    let mut kept = Vec::with_capacity(alloc, choices.len())?;
    for choice in choices {
        let is_new = !is_there(kept.as_slice(), &choice);
        push_choice_if(&mut kept, choice, is_new)?;
    }
    Ok(kept)
}

/// For each choice of a list, whether no different one lies within it.
fn small_flags(alloc: Global, choices: &[NumberedChoice]) -> Result<Vec<bool>, NoMemory>
    ensures { IfOk result (λ flags. flags.items ≡ map (λ c. not (is_larger nat_eq (choice_keys choices.now) c)) (choice_keys choices.now)) }
{
    let mut flags = Vec::with_capacity(alloc, choices.len())?;
    for choice in choices {
        flags.push(!is_larger(choices, choice))?;
    }
    Ok(flags)
}

/// The choices whose flags are set, in order.
fn take_flagged(
    alloc: Global,
    choices: Vec<NumberedChoice>,
    flags: &[bool],
) -> Result<Vec<NumberedChoice>, NoMemory>
    requires { length flags.now ≡ length choices.items }
    ensures { IfOk result (λ kept. choice_keys kept.items ≡ flagged_members (choice_keys choices.items) flags.now) }
{
    let mut kept = Vec::with_capacity(alloc, choices.len())?;
    let mut place = 0;
    for choice in choices {
        push_choice_if(&mut kept, choice, flags[place])?;
        place += 1;
    }
    Ok(kept)
}

/// The choices of a list, equal ones once, that no different one lies within, by comparing each pair.
fn reduced_by_pairs(
    alloc: Global,
    choices: Vec<NumberedChoice>,
) -> Result<Vec<NumberedChoice>, NoMemory>
    ensures { IfOk result (λ kept. choice_keys kept.items ≡ reduced nat_eq (choice_keys choices.items)) }
{
    let distinct = without_few_repeats(alloc, choices)?;
    let flags = small_flags(alloc, distinct.as_slice())?;
    let kept = take_flagged(alloc, distinct, flags.as_slice())?;
    Ok(kept)
}

/// Whether two choices differ, and neither lies within the other.
fn are_apart(left: &NumberedChoice, right: &NumberedChoice) -> bool
    ensures { result ≡ are_apart (choice_key left.now) (choice_key right.now) }
{
    !left.is_within(right) && !right.is_within(left) && left != right
}

/// Whether a choice is apart from each of a list.
fn is_apart_from(choice: &NumberedChoice, others: &[NumberedChoice]) -> bool
    ensures { result ≡ list_all (are_apart (choice_key choice.now)) (choice_keys others.now) }
{
    for other in others {
        if !are_apart(choice, other) {
            return false;
        }
    }
    true
}

/// Whether the choices of a list are apart from each other.
fn is_antichain(choices: &[NumberedChoice]) -> bool
    ensures { result ≡ is_antichain (choice_keys choices.now) }
{
    for place in 0..choices.len() {
        if !is_apart_from(&choices[place], &choices[place + 1..]) {
            return false;
        }
    }
    true
}

/// The most choices of a list that are compared with each other, and neither looked up nor put by their weights.
const FEW: usize = 64;

/// The choices of a list, equal ones once, that no different one lies within: by rising weight where the sets rise,
/// as those of expansions do, and otherwise by comparing each pair.
pub(crate) fn reduced(
    alloc: Global,
    choices: Vec<NumberedChoice>,
) -> Result<Vec<NumberedChoice>, NoMemory>
    ensures { IfOk result (λ kept. choice_keys kept.items ≡ reduced nat_eq (choice_keys choices.items)) }
{
    if choices.len() <= FEW {
        if is_antichain(choices.as_slice()) {
            return Ok(choices);
        }
        return reduced_by_pairs(alloc, choices);
    }
    let distinct = without_repeats(alloc, choices)?;
    if are_rising(distinct.as_slice()) {
        return without_larger_by_rounds(alloc, distinct.as_slice());
    }
    without_larger(alloc, distinct.as_slice())
}
