//! The expansion of a formula by one step.

ghost use Rattle.std.specs.Prelude.{◌≡◌, ◌<◌, ◌≤◌, ◌^◌, ◌∷◌, ◌++◌, [], Some, None, IfOk, IfErr, nat_eq, length, false, true, cond};
ghost use Rattle.std.specs.Ordering.{nat_cmp};
ghost use Rattle.ltl_formula.specs.LtlTree.{ltl_tree, ltl_trees};
ghost use Rattle.ltl_formula.specs.LtlOrder.{tree_cmp};
ghost use Rattle.ltl_formula.specs.Increasing.{IsIncreasing};
ghost use Rattle.obligations.specs.Choices.{formed, product, then_list, goes_on, puts_off, empty_choice, bit_choices, not_bit_choices};
ghost use Rattle.obligations.specs.Expansion.{all_choices_by, any_choices_by};
ghost use Rattle.obligations.specs.internal.Antichains.{IsAntichain};
ghost use Rattle.obligations.specs.Numbers.{choice_key, choice_keys, lent_trees, formula_number, numbered_expansion};

use crate::numbered::NumberedChoice;
use crate::products::{product, product_of, sum};
use crate::searching::find;
use crate::step_error::StepError;
use base_library::NoMemory;
use ltl_formula::{Ltl, LtlList};
use std::alloc::Global;

/// How many bits a letter has.
pub const LETTER_BITS: u32 = 64;

/// The number of a formula: its place among rising formulas, or their count where it is not there.
pub fn number_of(names: &[&Ltl], formula: &Ltl) -> u32
    requires few { length names.now < 2 ^ 32 }
    requires rising { IsIncreasing tree_cmp (lent_trees names.now) }
    ensures { result ≡ formula_number (lent_trees names.now) (ltl_tree formula.now) }
{
    match find(names, formula) {
        Ok(place) => place as u32,
        Err(_) => names.len() as u32,
    }
}

/// The list of one choice.
fn one(alloc: Global, choice: NumberedChoice) -> Result<Vec<NumberedChoice>, NoMemory>
    ensures choices { IfOk result (λ list. choice_keys list.items ≡ choice_key choice ∷ []) }
    ensures antichain { IfOk result (λ list. IsAntichain (choice_keys list.items)) }
{
    let mut list = Vec::with_capacity(alloc, 1)?;
    list.push(choice)?;
    Ok(list)
}

/// The list of the choice that asks for these bits and leaves nothing.
pub(crate) fn literal(alloc: Global, care: u64, want: u64) -> Result<Vec<NumberedChoice>, NoMemory>
    ensures choices { IfOk result (λ list. choice_keys list.items
        ≡ record { care = care; want = want; next_set = []; postponed = [] } ∷ []) }
    ensures antichain { IfOk result (λ list. IsAntichain (choice_keys list.items)) }
{
    one(
        alloc,
        NumberedChoice {
            care,
            want,
            next: Vec::new(alloc),
            postponed: Vec::new(alloc),
        },
    )
}

/// The choices of a bit that is to be set.
fn bit_choices(alloc: Global, bit: u32) -> Result<Vec<NumberedChoice>, NoMemory>
    ensures choices { IfOk result (λ list. choice_keys list.items ≡ bit_choices bit) }
    ensures antichain { IfOk result (λ list. IsAntichain (choice_keys list.items)) }
{
    if bit < LETTER_BITS {
        let mask = 1u64 << bit;
        literal(alloc, mask, mask)
    } else {
        Ok(Vec::new(alloc))
    }
}

/// The choices of a bit that is not to be set.
fn not_bit_choices(alloc: Global, bit: u32) -> Result<Vec<NumberedChoice>, NoMemory>
    ensures choices { IfOk result (λ list. choice_keys list.items ≡ not_bit_choices bit) }
    ensures antichain { IfOk result (λ list. IsAntichain (choice_keys list.items)) }
{
    if bit < LETTER_BITS {
        literal(alloc, 1u64 << bit, 0)
    } else {
        literal(alloc, 0, 0)
    }
}

/// The list of the numbers with one member.
fn singleton(alloc: Global, number: u32) -> Result<Vec<u32>, NoMemory>
    ensures { IfOk result (λ list. list.items ≡ number ∷ []) }
{
    let mut list = Vec::with_capacity(alloc, 1)?;
    list.push(number)?;
    Ok(list)
}

/// The choice that goes on with a formula.
fn going_on(alloc: Global, number: u32) -> Result<Vec<NumberedChoice>, NoMemory>
    ensures choices { IfOk result (λ list. choice_keys list.items ≡ goes_on number ∷ []) }
    ensures antichain { IfOk result (λ list. IsAntichain (choice_keys list.items)) }
{
    one(
        alloc,
        NumberedChoice {
            care: 0,
            want: 0,
            next: singleton(alloc, number)?,
            postponed: Vec::new(alloc),
        },
    )
}

/// The choice that puts off an until.
fn putting_off(alloc: Global, number: u32) -> Result<Vec<NumberedChoice>, NoMemory>
    ensures choices { IfOk result (λ list. choice_keys list.items ≡ puts_off number ∷ []) }
    ensures antichain { IfOk result (λ list. IsAntichain (choice_keys list.items)) }
{
    one(
        alloc,
        NumberedChoice {
            care: 0,
            want: 0,
            next: singleton(alloc, number)?,
            postponed: singleton(alloc, number)?,
        },
    )
}

/// The choices of an until, from those of its right side and of its left one.
fn until_choices(
    alloc: Global,
    number: u32,
    now: Vec<NumberedChoice>,
    later: &[NumberedChoice],
) -> Result<Vec<NumberedChoice>, StepError>
    requires { IsAntichain (choice_keys later.now) }
    ensures choices { IfOk result (λ list. then_list (product nat_eq nat_cmp (choice_keys later.now) (puts_off number ∷ []))
        (λ put_off. formed nat_eq (choice_keys now.items ++ put_off)) ≡ Some (choice_keys list.items)) }
    ensures antichain { IfOk result (λ list. IsAntichain (choice_keys list.items)) }
    ensures many { IfErr result (λ e. e ≡ StepError.Choices → then_list (product nat_eq nat_cmp (choice_keys later.now) (puts_off number ∷ []))
        (λ put_off. formed nat_eq (choice_keys now.items ++ put_off)) ≡ None) }
{
    let own = putting_off(alloc, number)?;
    let put_off = product_of(alloc, later, own)?;
    sum(alloc, now, put_off)
}

/// The choices of a release, from those of its right side and of its left one.
fn release_choices(
    alloc: Global,
    number: u32,
    held: &[NumberedChoice],
    freed: Vec<NumberedChoice>,
) -> Result<Vec<NumberedChoice>, StepError>
    requires { IsAntichain (choice_keys held.now) }
    ensures choices { IfOk result (λ list. then_list (formed nat_eq (choice_keys freed.items ++ goes_on number ∷ []))
        (λ ends. product nat_eq nat_cmp (choice_keys held.now) ends) ≡ Some (choice_keys list.items)) }
    ensures antichain { IfOk result (λ list. IsAntichain (choice_keys list.items)) }
    ensures many { IfErr result (λ e. e ≡ StepError.Choices → then_list (formed nat_eq (choice_keys freed.items ++ goes_on number ∷ []))
        (λ ends. product nat_eq nat_cmp (choice_keys held.now) ends) ≡ None) }
{
    let own = going_on(alloc, number)?;
    let ends = sum(alloc, freed, own)?;
    product(alloc, held, &ends)
}

/// The choices of a formula: what one step asks of the letter for it to hold, and what it leaves,
/// over the numbers that a list of formulas gives. `Choices` comes exactly where a list that is
/// formed on the way has more than 65,536 members.
#[cycle(expand)]
pub fn expand(
    alloc: Global,
    formula: &Ltl,
    names: &[&Ltl],
) -> Result<Vec<NumberedChoice>, StepError>
    requires few { length names.now < 2 ^ 32 }
    requires rising { IsIncreasing tree_cmp (lent_trees names.now) }
    ensures choices { IfOk result (λ list. numbered_expansion (lent_trees names.now) (ltl_tree formula.now) ≡ Some (choice_keys list.items)) }
    ensures antichain { IfOk result (λ list. IsAntichain (choice_keys list.items)) }
    ensures many { IfErr result (λ e. e ≡ StepError.Choices →
        numbered_expansion (lent_trees names.now) (ltl_tree formula.now) ≡ None) }
{
    match formula {
        Ltl::True => Ok(literal(alloc, 0, 0)?),
        Ltl::False => Ok(Vec::new(alloc)),
        Ltl::Bit(bit) => Ok(bit_choices(alloc, *bit)?),
        Ltl::NotBit(bit) => Ok(not_bit_choices(alloc, *bit)?),
        Ltl::All(members) => expand_all(alloc, members, names),
        Ltl::Any(members) => expand_any(alloc, members, names),
        Ltl::Next(part) => Ok(going_on(alloc, number_of(names, part))?),
        Ltl::Until(left, right) => {
            let now = expand(alloc, right, names)?;
            let later = expand(alloc, left, names)?;
            until_choices(alloc, number_of(names, formula), now, &later)
        }
        Ltl::Release(left, right) => {
            let held = expand(alloc, right, names)?;
            let freed = expand(alloc, left, names)?;
            release_choices(alloc, number_of(names, formula), &held, freed)
        }
    }
}

/// The product of the members' choices, in order.
#[cycle(expand)]
fn expand_all(
    alloc: Global,
    formulas: &LtlList,
    names: &[&Ltl],
) -> Result<Vec<NumberedChoice>, StepError>
    requires few { length names.now < 2 ^ 32 }
    requires rising { IsIncreasing tree_cmp (lent_trees names.now) }
    ensures choices { IfOk result (λ list.
        all_choices_by nat_eq nat_cmp (formula_number (lent_trees names.now)) (empty_choice ∷ []) (ltl_trees formulas.now) ≡ Some (choice_keys list.items)) }
    ensures antichain { IfOk result (λ list. IsAntichain (choice_keys list.items)) }
    ensures many { IfErr result (λ e. e ≡ StepError.Choices →
        all_choices_by nat_eq nat_cmp (formula_number (lent_trees names.now)) (empty_choice ∷ []) (ltl_trees formulas.now) ≡ None) }
{
    let mut so_far = literal(alloc, 0, 0)?;
    let mut rest = formulas;
    while let LtlList::More(formula, next) = rest {
        let found = expand(alloc, formula, names)?;
        so_far = product_of(alloc, &so_far, found)?;
        rest = next;
    }
    Ok(so_far)
}

/// The members' choices, one list after the other.
#[cycle(expand)]
fn expand_any(
    alloc: Global,
    formulas: &LtlList,
    names: &[&Ltl],
) -> Result<Vec<NumberedChoice>, StepError>
    requires few { length names.now < 2 ^ 32 }
    requires rising { IsIncreasing tree_cmp (lent_trees names.now) }
    ensures choices { IfOk result (λ list.
        any_choices_by nat_eq nat_cmp (formula_number (lent_trees names.now)) [] (ltl_trees formulas.now) ≡ Some (choice_keys list.items)) }
    ensures antichain { IfOk result (λ list. IsAntichain (choice_keys list.items)) }
    ensures many { IfErr result (λ e. e ≡ StepError.Choices →
        any_choices_by nat_eq nat_cmp (formula_number (lent_trees names.now)) [] (ltl_trees formulas.now) ≡ None) }
{
    let mut so_far = Vec::new(alloc);
    let mut rest = formulas;
    while let LtlList::More(formula, next) = rest {
        let found = expand(alloc, formula, names)?;
        so_far = sum(alloc, so_far, found)?;
        rest = next;
    }
    Ok(so_far)
}
