//! The choices of formulas that go by numbers, with the expansion of each made once.

ghost use Rattle.std.specs.Prelude.{◌≡◌, ◌<◌, ◌^◌, ◌∷◌, [], Some, None, IfOk, IfErr, map, length, nat_eq};
ghost use Rattle.std.specs.List.{AllByRecursion};
ghost use Rattle.std.specs.Ordering.{nat_cmp};
ghost use Rattle.ltl_formula.specs.LtlTree.{LtlTree};
ghost use Rattle.ltl_formula.specs.LtlOrder.{tree_cmp};
ghost use Rattle.ltl_formula.specs.Increasing.{IsIncreasing};
ghost use Rattle.obligations.specs.Choices.{empty_choice, then_list, product};
ghost use Rattle.obligations.specs.Expansion.{choices, choices_from};
ghost use Rattle.obligations.specs.Numbers.{choice_keys, lent_trees, formula_number, numbered_expansion};
ghost use Rattle.obligations.specs.Named.{formula_named, choice_named, IsWell};
ghost use Rattle.obligations.specs.Obligations.{closure_of};
ghost use Rattle.obligations.specs.Expansions.{AreExpansions};
ghost use Rattle.obligations.specs.internal.Antichains.{IsAntichain};

use crate::expanding::{expand, literal};
use crate::numbered::NumberedChoice;
use crate::products::product;
use crate::step_error::StepError;
use base_library::NoMemory;
use ltl_formula::Ltl;
use std::alloc::Global;

/// A place for the expansion of each of some formulas, with none made yet.
pub fn no_expansions(
    alloc: Global,
    names: &[&Ltl],
) -> Result<Vec<Option<Vec<NumberedChoice>>>, NoMemory>
    ensures { IfOk result (λ made. AreExpansions (lent_trees names.now) made.items) }
{
    let mut expansions = Vec::with_capacity(alloc, names.len())?;
    for _name in names {
        expansions.push(None)?;
    }
    Ok(expansions)
}

/// The product of some choices with those of the formula with a number, whose expansion is kept.
fn product_with(
    alloc: Global,
    names: &[&Ltl],
    expansions: &mut [Option<Vec<NumberedChoice>>],
    so_far: &[NumberedChoice],
    number: usize,
) -> Result<Vec<NumberedChoice>, StepError>
    requires few { length names.now < 2 ^ 32 }
    requires rising { IsIncreasing tree_cmp (lent_trees names.now) }
    requires within { number < length names.now }
    requires antichain { IsAntichain (choice_keys so_far.now) }
    requires expansions { AreExpansions (lent_trees names.now) expansions.old }
    ensures expansions { AreExpansions (lent_trees names.now) expansions.new }
    ensures antichain { IfOk result (λ list. IsAntichain (choice_keys list.items)) }
    ensures choices { IfOk result (λ list. then_list (numbered_expansion (lent_trees names.now) (formula_named (lent_trees names.now) number))
        (λ cs. product nat_eq nat_cmp (choice_keys so_far.now) cs) ≡ Some (choice_keys list.items)) }
    ensures many { IfErr result (λ e. e ≡ StepError.Choices →
        then_list (numbered_expansion (lent_trees names.now) (formula_named (lent_trees names.now) number))
        (λ cs. product nat_eq nat_cmp (choice_keys so_far.now) cs) ≡ None) }
{
    if let Some(own) = &expansions[number] {
        return product(alloc, so_far, own);
    }
    let own = expand(alloc, names[number], names)?;
    let list = product(alloc, so_far, &own)?;
    expansions[number] = Some(own);
    Ok(list)
}

/// The product of the choices of the formulas with these numbers, in order.
fn products_of(
    alloc: Global,
    names: &[&Ltl],
    expansions: &mut [Option<Vec<NumberedChoice>>],
    members: &[u32],
) -> Result<Vec<NumberedChoice>, StepError>
    requires few { length names.now < 2 ^ 32 }
    requires rising { IsIncreasing tree_cmp (lent_trees names.now) }
    requires members { AllByRecursion (λ n. n < length names.now) members.now }
    requires expansions { AreExpansions (lent_trees names.now) expansions.old }
    ensures expansions { AreExpansions (lent_trees names.now) expansions.new }
    ensures choices { IfOk result (λ list.
        choices_from nat_eq nat_cmp (formula_number (lent_trees names.now)) (empty_choice ∷ []) (map (formula_named (lent_trees names.now)) members.now)
        ≡ Some (choice_keys list.items)) }
    ensures many { IfErr result (λ e. e ≡ StepError.Choices →
        choices_from nat_eq nat_cmp (formula_number (lent_trees names.now)) (empty_choice ∷ []) (map (formula_named (lent_trees names.now)) members.now)
        ≡ None) }
{
    let mut so_far = literal(alloc, 0, 0)?;
    for member in members {
        so_far = product_with(alloc, names, expansions, &so_far, *member as usize)?;
    }
    Ok(so_far)
}

/// The choices of the set of the formulas with these numbers, over the numbers of a formula and of what steps from it
/// may leave. The expansion of each member is kept for the next call. `Choices` comes exactly where a list that is
/// formed on the way has more than 65,536 members before it is reduced.
pub fn choices_of_numbers(
    alloc: Global,
    names: &[&Ltl],
    expansions: &mut [Option<Vec<NumberedChoice>>],
    members: &[u32],
) -> Result<Vec<NumberedChoice>, StepError>
    requires names { (f : LtlTree) × (lent_trees names.now ≡ closure_of (f ∷ [])) }
    requires few { length names.now < 2 ^ 32 }
    requires members { AllByRecursion (λ n. n < length (lent_trees names.now)) members.now }
    requires expansions { AreExpansions (lent_trees names.now) expansions.old }
    ensures expansions { AreExpansions (lent_trees names.now) expansions.new }
    ensures choices { IfOk result (λ list. choices (map (formula_named (lent_trees names.now)) members.now)
        ≡ Some (map (choice_named (lent_trees names.now)) (choice_keys list.items))) }
    ensures well { IfOk result (λ list. AllByRecursion (IsWell (lent_trees names.now)) (choice_keys list.items)) }
    ensures many { IfErr result (λ e. e ≡ StepError.Choices → choices (map (formula_named (lent_trees names.now)) members.now) ≡ None) }
{
    let list = products_of(alloc, names, expansions, members)?;
    Ok(list)
}
