//! The choices that no different one lies within, found by rising weight.
//!
//! A different choice that lies within another one is lighter, and within it lies a choice that is kept.
//! So a choice is dropped exactly where a lighter one that is kept lies within it: each round looks at
//! the choices of one weight, and compares them with the lighter ones that were kept alone. Flags of the
//! places give the order of the list back, so this is the list that comparing all pairs would give.

ghost use Rattle.std.specs.Prelude.{◌≡◌, ◌+◌, ◌<◌, ◌^◌, ◌∷◌, ◌++◌, [], filter, IfOk, OnOk, if◌then◌else◌, length, map, false, true, ◌≤◌};
ghost use Rattle.std.specs.List.{list_all, AllByRecursion};
ghost use Rattle.obligations.specs.Choices.{without_larger};
ghost use Rattle.obligations.specs.Numbers.{choice_key, choice_keys};
ghost use Rattle.std.specs.Prelude.{nat_eq};
ghost use Rattle.obligations.specs.internal.Rounds.{weight, has_within, is_kept, with_flags, flags_after, lent_keys, rises_after, numbers_rise, is_rising, flagged_members};

use crate::numbered::NumberedChoice;
use crate::reducing::add_if;
use base_library::NoMemory;
use std::alloc::Global;

/// How much a choice asks for and leaves.
pub(crate) fn weight(choice: &NumberedChoice) -> u64
    requires { length choice.now.next.items + length choice.now.postponed.items + 64 < 2 ^ 64 }
    ensures { result ≡ weight (choice_key choice.now) }
{
    u64::from(choice.care.count_ones()) + choice.next.len() as u64 + choice.postponed.len() as u64
}

/// Whether one of some choices lies within another.
fn has_within(lighter: &[&NumberedChoice], choice: &NumberedChoice) -> bool
    ensures { result ≡ has_within (lent_keys lighter.now) (choice_key choice.now) }
{
    for other in lighter {
        if other.is_within(choice) {
            return true;
        }
    }
    false
}

/// Whether a choice is of a weight, and none of the lighter ones lies within it.
fn is_kept(choice: &NumberedChoice, own: u64, round: u64, lighter: &[&NumberedChoice]) -> bool
    requires { own ≡ weight (choice_key choice.now) }
    ensures { result ≡ is_kept (lent_keys lighter.now) round (choice_key choice.now) }
{
    own == round && !has_within(lighter, choice)
}

/// Adds a choice where a test says so.
fn push_if<'a>(
    found: &mut Vec<&'a NumberedChoice>,
    choice: &'a NumberedChoice,
    test: bool,
) -> Result<(), NoMemory>
    ensures { OnOk result
        (lent_keys found.new.items ≡ (if test then lent_keys found.old.items ++ choice_key choice.now ∷ [] else lent_keys found.old.items)) }
{
    if test {
        found.push(choice)?;
    }
    Ok(())
}

/// Puts the choices of one weight that no lighter one lies within after those found, and flags them.
fn keep<'a>(
    choices: &'a [NumberedChoice],
    weights: &[u64],
    round: u64,
    lighter: &[&'a NumberedChoice],
    flags: &mut [bool],
    found: &mut Vec<&'a NumberedChoice>,
) -> Result<(), NoMemory>
    requires weights { weights.now ≡ map weight (choice_keys choices.now) }
    requires flags { length flags.old ≡ length choices.now }
    ensures found { OnOk result (lent_keys found.new.items
        ≡ lent_keys found.old.items ++ filter (is_kept (lent_keys lighter.now) round) (choice_keys choices.now)) }
    ensures flags { OnOk result (flags.new ≡ with_flags (is_kept (lent_keys lighter.now) round) 0 (choice_keys choices.now) flags.old) }
{
    for place in 0..choices.len() {
        let choice = &choices[place];
        let kept = is_kept(choice, weights[place], round, lighter);
        flags[place] = flags[place] | kept;
        push_if(found, choice, kept)?;
    }
    Ok(())
}

/// Sets the flags of the choices that no different one lies within, of those that weigh less than a
/// bound.
pub(crate) fn run_rounds(
    alloc: Global,
    choices: &[NumberedChoice],
    weights: &[u64],
    bound: u64,
    flags: &mut [bool],
) -> Result<(), NoMemory>
    requires weights { weights.now ≡ map weight (choice_keys choices.now) }
    requires flags { length flags.old ≡ length choices.now }
    ensures { OnOk result (flags.new ≡ flags_after (choice_keys choices.now) bound flags.old) }
{
    let mut lighter = Vec::new(alloc);
    for round in 0..bound {
        let mut found = Vec::new(alloc);
        keep(
            choices,
            weights,
            round,
            lighter.as_slice(),
            flags,
            &mut found,
        )?;
        lighter.append(&mut found)?;
    }
    Ok(())
}

/// Whether numbers rise after a first one.
fn rises_after(first: u32, numbers: &[u32]) -> bool
    ensures { result ≡ rises_after first numbers.now }
{
    let mut last = first;
    for number in numbers {
        if last >= *number {
            return false;
        }
        last = *number;
    }
    true
}

/// Whether numbers rise.
fn rises(numbers: &[u32]) -> bool
    ensures { result ≡ numbers_rise numbers.now }
{
    match numbers {
        [] => true,
        [first, rest @ ..] => rises_after(*first, rest),
    }
}

/// Whether a cube wants no bit that it does not ask for, and both sets rise.
fn is_rising(choice: &NumberedChoice) -> bool
    ensures { result ≡ is_rising (choice_key choice.now) }
{
    choice.want & choice.care == choice.want && rises(&choice.next) && rises(&choice.postponed)
}

/// Whether each choice of a list does so.
pub(crate) fn are_rising(choices: &[NumberedChoice]) -> bool
    ensures { result ≡ list_all is_rising (choice_keys choices.now) }
{
    for choice in choices {
        if !is_rising(choice) {
            return false;
        }
    }
    true
}

/// The most members of a set, and the greatest weight, that rounds are run for: memory ends before.
const MOST_MEMBERS: usize = 1 << 32;

const MOST_WEIGHT: u64 = 1 << 40;

/// How much a choice asks for and leaves.
fn weight_of(choice: &NumberedChoice) -> Result<u64, NoMemory>
    ensures weight { IfOk result (λ w. w ≡ weight (choice_key choice.now)) }
    ensures small { IfOk result (λ w. w ≤ 2 ^ 40) }
{
    if choice.next.len() > MOST_MEMBERS || choice.postponed.len() > MOST_MEMBERS {
        return Err(NoMemory);
    }
    let own = weight(choice);
    if own > MOST_WEIGHT {
        return Err(NoMemory);
    }
    Ok(own)
}

/// A bound that is above a weight too.
fn bound_above(bound: u64, own: u64) -> u64
    requires { own ≤ 2 ^ 40 }
    ensures more { bound ≤ result }
    ensures above { own < result }
    ensures small { bound ≤ 2 ^ 40 + 1 → result ≤ 2 ^ 40 + 1 }
{
    if own < bound { bound } else { own + 1 }
}

/// The weights of the choices of a list, and a number above them.
fn weights_of(alloc: Global, choices: &[NumberedChoice]) -> Result<(Vec<u64>, u64), NoMemory>
    ensures weights { IfOk result (λ found. found.0.items ≡ map weight (choice_keys choices.now)) }
    ensures bound { IfOk result (λ found. AllByRecursion (λ c. weight c < found.1) (choice_keys choices.now)) }
{
    let mut weights = Vec::new(alloc);
    let mut bound = 0;
    for choice in choices {
        let own = weight_of(choice)?;
        weights.push(own)?;
        bound = bound_above(bound, own);
    }
    Ok((weights, bound))
}

/// Copies of the choices whose flags are set, in order.
fn copy_flagged(
    alloc: Global,
    choices: &[NumberedChoice],
    flags: &[bool],
) -> Result<Vec<NumberedChoice>, NoMemory>
    requires { length flags.now ≡ length choices.now }
    ensures { IfOk result (λ kept. choice_keys kept.items ≡ flagged_members (choice_keys choices.now) flags.now) }
{
    let mut kept = Vec::new(alloc);
    for place in 0..choices.len() {
        add_if(alloc, &mut kept, &choices[place], flags[place])?;
    }
    Ok(kept)
}

/// No flag for each choice.
fn no_flags(alloc: Global, choices: &[NumberedChoice]) -> Result<Vec<bool>, NoMemory>
    ensures { IfOk result (λ flags. flags.items ≡ map (λ c. false) (choice_keys choices.now)) }
{
    let mut flags = Vec::new(alloc);
    for _choice in choices {
        flags.push(false)?;
    }
    Ok(flags)
}

/// The choices of a list that no different one lies within, by their weights.
fn kept_by_rounds(
    alloc: Global,
    choices: &[NumberedChoice],
    weights: &[u64],
    bound: u64,
    flags: &mut [bool],
) -> Result<Vec<NumberedChoice>, NoMemory>
    requires rising { list_all is_rising (choice_keys choices.now) ≡ true }
    requires weights { weights.now ≡ map weight (choice_keys choices.now) }
    requires bound { AllByRecursion (λ c. weight c < bound) (choice_keys choices.now) }
    requires flags { flags.old ≡ map (λ c. false) (choice_keys choices.now) }
    ensures { IfOk result (λ kept. choice_keys kept.items ≡ without_larger nat_eq (choice_keys choices.now)) }
{
    run_rounds(alloc, choices, weights, bound, flags)?;
    let kept = copy_flagged(alloc, choices, flags)?;
    Ok(kept)
}

/// The choices of a list that no different one lies within, where each of them is well formed.
pub(crate) fn without_larger_by_rounds(
    alloc: Global,
    choices: &[NumberedChoice],
) -> Result<Vec<NumberedChoice>, NoMemory>
    requires { list_all is_rising (choice_keys choices.now) ≡ true }
    ensures { IfOk result (λ kept. choice_keys kept.items ≡ without_larger nat_eq (choice_keys choices.now)) }
{
    let (weights, bound) = weights_of(alloc, choices)?;
    let mut flags = no_flags(alloc, choices)?;
    kept_by_rounds(
        alloc,
        choices,
        weights.as_slice(),
        bound,
        flags.as_mut_slice(),
    )
}
