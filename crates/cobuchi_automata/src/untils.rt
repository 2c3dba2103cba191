//! The untils of a formula.

ghost use Rattle.std.specs.Prelude.{◌≡◌, ◌∷◌, [], ◌<◌, ◌^◌, IfOk, OnOk, length, map};
ghost use Rattle.base_library.specs.Kept.{is_kept, with_new};
ghost use Rattle.ltl_formula.specs.LtlTree.{ltl_tree, ltl_trees};
ghost use Rattle.ltl_formula.specs.LtlOrder.{tree_cmp};
ghost use Rattle.ltl_formula.specs.Increasing.{IsIncreasing};
ghost use Rattle.obligations.specs.Expansion.{same_formula};
ghost use Rattle.obligations.specs.Numbers.{lent_trees, formula_number};
ghost use Rattle.cobuchi_automata.specs.Automata.{untils_in, untils_in_all, untils_of};

use base_library::NoMemory;
use ltl_formula::{Ltl, LtlList, compare};
use obligations::number_of;
use std::alloc::Global;

/// Whether a formula stands among others.
fn is_among(formulas: &[&Ltl], formula: &Ltl) -> bool
    ensures { result ≡ is_kept same_formula (lent_trees formulas.now) (ltl_tree formula.now) }
{
    for other in formulas {
        if compare(other, formula).is_eq() {
            return true;
        }
    }
    false
}

/// Adds a formula at the end of others, unless it is there.
fn add_new<'a>(formulas: &mut Vec<&'a Ltl>, formula: &'a Ltl) -> Result<(), NoMemory>
    ensures { OnOk result (lent_trees formulas.new.items
        ≡ with_new same_formula (lent_trees formulas.old.items) (ltl_tree formula.now ∷ [])) }
{
    if !is_among(formulas, formula) {
        formulas.push(formula)?;
    }
    Ok(())
}

/// Adds the untils in a formula that are not there.
#[cycle(untils)]
#[tactic(auto, using(crate::proofs::UntilLemmas::untils_append))]
fn add_untils<'a>(formula: &'a Ltl, untils: &mut Vec<&'a Ltl>) -> Result<(), NoMemory>
    ensures { OnOk result (lent_trees untils.new.items
        ≡ with_new same_formula (lent_trees untils.old.items) (untils_in (ltl_tree formula.now))) }
{
    match formula {
        Ltl::True | Ltl::False | Ltl::Bit(_) | Ltl::NotBit(_) => Ok(()),
        Ltl::All(members) | Ltl::Any(members) => add_untils_of_all(members, untils),
        Ltl::Next(part) => add_untils(part, untils),
        Ltl::Until(left, right) => {
            add_new(untils, formula)?;
            add_untils(left, untils)?;
            add_untils(right, untils)
        }
        Ltl::Release(left, right) => {
            add_untils(left, untils)?;
            add_untils(right, untils)
        }
    }
}

/// Adds the untils in the members of a list that are not there.
#[cycle(untils)]
#[tactic(auto, using(crate::proofs::UntilLemmas::untils_append))]
fn add_untils_of_all<'a>(formulas: &'a LtlList, untils: &mut Vec<&'a Ltl>) -> Result<(), NoMemory>
    ensures { OnOk result (lent_trees untils.new.items
        ≡ with_new same_formula (lent_trees untils.old.items) (untils_in_all (ltl_trees formulas.now))) }
{
    let mut rest = formulas;
    while let LtlList::More(formula, next) = rest {
        add_untils(formula, untils)?;
        rest = next;
    }
    Ok(())
}

/// The untils of a formula, each once, in the order in which they first appear from the left, outer ones first.
fn untils_of(alloc: Global, formula: &Ltl) -> Result<Vec<&Ltl>, NoMemory>
    ensures { IfOk result (λ untils. lent_trees untils.items ≡ untils_of (ltl_tree formula.now)) }
{
    let mut untils = Vec::new(alloc);
    add_untils(formula, &mut untils)?;
    Ok(untils)
}

/// The numbers of some formulas.
fn numbers_of(alloc: Global, names: &[&Ltl], formulas: &[&Ltl]) -> Result<Vec<u32>, NoMemory>
    requires few { length names.now < 2 ^ 32 }
    requires rising { IsIncreasing tree_cmp (lent_trees names.now) }
    ensures { IfOk result (λ numbers. numbers.items ≡ map (formula_number (lent_trees names.now)) (lent_trees formulas.now)) }
{
    let mut numbers = Vec::with_capacity(alloc, formulas.len())?;
    for formula in formulas {
        numbers.push(number_of(names, formula))?;
    }
    Ok(numbers)
}

/// The numbers of the untils of a formula, in the order of the untils.
pub(crate) fn until_numbers(
    alloc: Global,
    names: &[&Ltl],
    formula: &Ltl,
) -> Result<Vec<u32>, NoMemory>
    requires few { length names.now < 2 ^ 32 }
    requires rising { IsIncreasing tree_cmp (lent_trees names.now) }
    ensures { IfOk result (λ numbers.
        numbers.items ≡ map (formula_number (lent_trees names.now)) (untils_of (ltl_tree formula.now))) }
{
    let untils = untils_of(alloc, formula)?;
    numbers_of(alloc, names, untils.as_slice())
}
