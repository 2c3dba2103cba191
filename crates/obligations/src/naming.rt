//! The formulas that steps may leave, in order: their places are their numbers.

ghost use Rattle.std.specs.Prelude.{◌≡◌, ◌≤◌, ◌∷◌, ◌++◌, [], take, drop, IfOk, IfSome, OnOk, MatchOption, length, map};
ghost use Rattle.ltl_formula.specs.LtlTree.{ltl_tree, ltl_trees};
ghost use Rattle.ltl_formula.specs.LtlOrder.{tree_cmp};
ghost use Rattle.ltl_formula.specs.Increasing.{IsIncreasing, with_member, union};
ghost use Rattle.obligations.specs.Numbers.{lent_trees};
ghost use Rattle.obligations.specs.Obligations.{obligations, obligations_of_all, reachable, closure_of};

use crate::searching::find;
use base_library::NoMemory;
use ltl_formula::{Ltl, LtlList};
use std::alloc::Global;

/// Puts a formula in its place among rising ones, unless it is there.
fn insert_name<'a>(names: &mut Vec<&'a Ltl>, formula: &'a Ltl) -> Result<(), NoMemory>
    requires { IsIncreasing tree_cmp (lent_trees names.old.items) }
    ensures rises { OnOk result (IsIncreasing tree_cmp (lent_trees names.new.items)) }
    ensures names { OnOk result (lent_trees names.new.items ≡ with_member tree_cmp (ltl_tree formula.now) (lent_trees names.old.items)) }
{
    if let Err(place) = find(names, formula) {
        names.insert(place, formula)?;
    }
    Ok(())
}

/// Adds what steps from a formula may leave.
#[cycle(naming)]
#[tactic(auto, using(crate::proofs::NamingLemmas::names_append))]
fn add_obligations<'a>(formula: &'a Ltl, names: &mut Vec<&'a Ltl>) -> Result<(), NoMemory>
    requires { IsIncreasing tree_cmp (lent_trees names.old.items) }
    ensures rises { OnOk result (IsIncreasing tree_cmp (lent_trees names.new.items)) }
    ensures names { OnOk result (lent_trees names.new.items ≡ union tree_cmp (lent_trees names.old.items) (obligations (ltl_tree formula.now))) }
{
    match formula {
        Ltl::True | Ltl::False | Ltl::Bit(_) | Ltl::NotBit(_) => Ok(()),
        Ltl::All(members) | Ltl::Any(members) => add_obligations_of_all(members, names),
        Ltl::Next(part) => {
            insert_name(names, part)?;
            add_obligations(part, names)
        }
        Ltl::Until(left, right) | Ltl::Release(left, right) => {
            insert_name(names, formula)?;
            add_obligations(left, names)?;
            add_obligations(right, names)
        }
    }
}

/// Adds what steps from the members of a list may leave.
#[cycle(naming)]
#[tactic(auto, using(crate::proofs::NamingLemmas::names_append))]
fn add_obligations_of_all<'a>(
    formulas: &'a LtlList,
    names: &mut Vec<&'a Ltl>,
) -> Result<(), NoMemory>
    requires { IsIncreasing tree_cmp (lent_trees names.old.items) }
    ensures rises { OnOk result (IsIncreasing tree_cmp (lent_trees names.new.items)) }
    ensures names { OnOk result (lent_trees names.new.items ≡ union tree_cmp (lent_trees names.old.items) (obligations_of_all (ltl_trees formulas.now))) }
{
    let mut rest = formulas;
    while let LtlList::More(formula, next) = rest {
        add_obligations(formula, names)?;
        rest = next;
    }
    Ok(())
}

/// Adds a formula and what steps from it may leave.
fn add_formula<'a>(formula: &'a Ltl, names: &mut Vec<&'a Ltl>) -> Result<(), NoMemory>
    requires { IsIncreasing tree_cmp (lent_trees names.old.items) }
    ensures rises { OnOk result (IsIncreasing tree_cmp (lent_trees names.new.items)) }
    ensures names { OnOk result (lent_trees names.new.items
        ≡ union tree_cmp (lent_trees names.old.items) (ltl_tree formula.now ∷ obligations (ltl_tree formula.now))) }
{
    insert_name(names, formula)?;
    add_obligations(formula, names)
}

/// A formula and what steps from it may leave, in order, each once.
pub fn names_of_formula(alloc: Global, formula: &Ltl) -> Result<Vec<&Ltl>, NoMemory>
    ensures { IfOk result (λ names. lent_trees names.items ≡ closure_of (ltl_tree formula.now ∷ [])) }
{
    let mut names = Vec::new(alloc);
    add_formula(formula, &mut names)?;
    Ok(names)
}

/// Some formulas and what steps from them may leave, in order, each once.
#[tactic(auto, using(crate::proofs::NamingLemmas::names_append))]
pub fn names_of(alloc: Global, formulas: &[Ltl]) -> Result<Vec<&Ltl>, NoMemory>
    ensures { IfOk result (λ names. lent_trees names.items ≡ closure_of (map ltl_tree formulas.now)) }
{
    let mut names = Vec::new(alloc);
    for formula in formulas {
        add_formula(formula, &mut names)?;
    }
    Ok(names)
}
