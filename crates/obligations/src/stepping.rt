//! The choices of a set of formulas.

ghost use Rattle.std.specs.Prelude.{◌≡◌, ◌<◌, ◌^◌, ◌∷◌, [], Some, None, IfOk, IfErr, map, length, nat_eq};
ghost use Rattle.std.specs.List.{AllByRecursion};
ghost use Rattle.std.specs.Ordering.{nat_cmp};
ghost use Rattle.ltl_formula.specs.LtlTree.{ltl_tree};
ghost use Rattle.ltl_formula.specs.LtlOrder.{tree_cmp};
ghost use Rattle.ltl_formula.specs.Increasing.{IsIncreasing};
ghost use Rattle.obligations.specs.Choices.{empty_choice};
ghost use Rattle.obligations.specs.Expansion.{choices, choices_from, ChoiceTree};
ghost use Rattle.obligations.specs.Numbers.{choice_key, choice_keys, lent_trees, formula_number};
ghost use Rattle.obligations.specs.Named.{choice_named, formula_named, IsWell};
ghost use Rattle.obligations.specs.Obligations.{closure_of};
ghost use Rattle.obligations.specs.Chosen.{choice_tree, choice_trees};

use crate::expanding::{expand, literal};
use crate::naming::names_of;
use crate::numbered::NumberedChoice;
use crate::products::product;
use crate::set::{Set, set_named};
use crate::step_error::StepError;
use base_library::NoMemory;
use ltl_formula::{Cube, Ltl};
use std::alloc::Global;

/// What one step asks of the letter, and what it leaves for the next one.
#[derive(Drop)]
pub struct Choice {
    /// What it asks of the letter.
    pub cube: Cube,
    /// What has to hold at the next position.
    pub next: Set,
    /// The untils that are put off.
    pub postponed: Set,
}

/// The product of the members' choices, over numbers.
fn numbered_choices(
    alloc: Global,
    members: &[Ltl],
    names: &[&Ltl],
) -> Result<Vec<NumberedChoice>, StepError>
    requires few { length names.now < 2 ^ 32 }
    requires rising { IsIncreasing tree_cmp (lent_trees names.now) }
    ensures choices { IfOk result (λ list.
        choices_from nat_eq nat_cmp (formula_number (lent_trees names.now)) (empty_choice ∷ []) (map ltl_tree members.now) ≡ Some (choice_keys list.items)) }
    ensures many { IfErr result (λ e. e ≡ StepError.Choices →
        choices_from nat_eq nat_cmp (formula_number (lent_trees names.now)) (empty_choice ∷ []) (map ltl_tree members.now) ≡ None) }
{
    let mut so_far = literal(alloc, 0, 0)?;
    for member in members {
        let found = expand(alloc, member, names)?;
        so_far = product(alloc, &so_far, &found)?;
    }
    Ok(so_far)
}

/// A choice over numbers as a choice of formulas.
fn choice_of(alloc: Global, names: &[&Ltl], choice: &NumberedChoice) -> Result<Choice, NoMemory>
    requires rising { IsIncreasing tree_cmp (lent_trees names.now) }
    requires well { IsWell (lent_trees names.now) (choice_key choice.now) }
    ensures { IfOk result (λ made. choice_tree made ≡ choice_named (lent_trees names.now) (choice_key choice.now)) }
{
    Ok(Choice {
        cube: Cube {
            care: choice.care,
            want: choice.want,
        },
        next: set_named(alloc, names, &choice.next)?,
        postponed: set_named(alloc, names, &choice.postponed)?,
    })
}

/// Choices over numbers as choices of formulas, in order.
fn choices_of(
    alloc: Global,
    names: &[&Ltl],
    choices: &[NumberedChoice],
) -> Result<Vec<Choice>, NoMemory>
    requires rising { IsIncreasing tree_cmp (lent_trees names.now) }
    requires well { AllByRecursion (IsWell (lent_trees names.now)) (choice_keys choices.now) }
    ensures { IfOk result (λ made. choice_trees made.items ≡ map (choice_named (lent_trees names.now)) (choice_keys choices.now)) }
{
    let mut made = Vec::new(alloc);
    for choice in choices {
        made.push(choice_of(alloc, names, choice)?)?;
    }
    Ok(made)
}

/// The choices of formulas whose names are given.
fn step_with(alloc: Global, members: &[Ltl], names: &[&Ltl]) -> Result<Vec<Choice>, StepError>
    requires { lent_trees names.now ≡ closure_of (map ltl_tree members.now) }
    ensures choices { IfOk result (λ made. choices (map ltl_tree members.now) ≡ Some (choice_trees made.items)) }
    ensures many { IfErr result (λ e. e ≡ StepError.Choices → choices (map ltl_tree members.now) ≡ None) }
{
    if names.len() > u32::MAX as usize {
        return Err(StepError::NoMemory);
    }
    let numbered = numbered_choices(alloc, members, names)?;
    Ok(choices_of(alloc, names, numbered.as_slice())?)
}

/// The choices of a set: what one step asks of the letter for all members to hold, and what it leaves. `Choices`
/// comes exactly where a list that is formed on the way has more than 65,536 members before it is reduced.
pub fn step(alloc: Global, set: &Set) -> Result<Vec<Choice>, StepError>
    ensures choices { IfOk result (λ made. choices (map ltl_tree set.now) ≡ Some (choice_trees made.items)) }
    ensures many { IfErr result (λ e. e ≡ StepError.Choices → choices (map ltl_tree set.now) ≡ None) }
{
    let names = names_of(alloc, set.members())?;
    step_with(alloc, set.members(), names.as_slice())
}
