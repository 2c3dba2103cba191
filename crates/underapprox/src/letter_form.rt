//! The letter form of formulas.

ghost use Rattle.std.specs.Prelude.{◌≡◌, ℕ, map, IfOk};
ghost use Rattle.tsl_terms.specs.FormulaTree.{formula_tree, formula_trees};
ghost use Rattle.tsl_meaning.specs.Lasso.{meets};
ghost use Rattle.ltl_formula.specs.LtlTree.{ltl_tree, ltl_formulas_in};
ghost use Rattle.ltl_formula.specs.LetterLoop.{LetterLoop, holds};
ghost use Rattle.letter_space.specs.SpaceView.{space_tree};
ghost use Rattle.underapprox.specs.LetterForm.{letter_form, not_letter_form, letter_forms, not_letter_forms};
ghost use Rattle.underapprox.specs.LetterLasso.{letter_lasso};

use crate::making::{all_of, any_of, bit, both, either, next, not_bit, release, until};
use base_library::NoMemory;
use letter_space::Space;
use ltl_formula::Ltl;
use std::alloc::Global;
use tsl_terms::{Formula, FormulaList};

/// The letter form of a formula: negations stand at bits alone, and each test and update is its bit. An atom that has
/// no bit holds nowhere. On each loop of letters the form holds exactly where the formula does, its atoms read from
/// their bits.
pub fn to_letters(alloc: Global, formula: &Formula, space: &Space) -> Result<Ltl, NoMemory>
    ensures form { IfOk result
        (λ made. ltl_tree made ≡ letter_form (space_tree space.now) (formula_tree formula.now)) }
    ensures meaning { IfOk result (λ made. (loop : LetterLoop) (i : ℕ) →
        holds loop (ltl_tree made) i
        ≡ meets (letter_lasso (space_tree space.now) loop) (formula_tree formula.now) i) }
{
    let made = form_of(alloc, formula, space)?;
    Ok(made)
}

/// The letter form of a formula.
#[cycle(letter_form)]
#[tactic(auto, using(ltl_formula::proofs::ListLemmas::formulas_of_members))]
fn form_of(alloc: Global, formula: &Formula, space: &Space) -> Result<Ltl, NoMemory>
    ensures { IfOk result
        (λ made. ltl_tree made ≡ letter_form (space_tree space.now) (formula_tree formula.now)) }
{
    match formula {
        Formula::True => Ok(Ltl::True),
        Formula::False => Ok(Ltl::False),
        Formula::Test(probe) => Ok(bit(space.test_bit(probe))),
        Formula::Update(signal, term) => Ok(bit(space.update_bit(*signal, term))),
        Formula::Not(part) => not_form_of(alloc, part, space),
        Formula::Next(part) => next(alloc, form_of(alloc, part, space)?),
        Formula::Finally(part) => until(alloc, Ltl::True, form_of(alloc, part, space)?),
        Formula::Globally(part) => release(alloc, Ltl::False, form_of(alloc, part, space)?),
        Formula::Implies(left, right) => either(
            alloc,
            not_form_of(alloc, left, space)?,
            form_of(alloc, right, space)?,
        ),
        Formula::Iff(left, right) => {
            let hold = both(
                alloc,
                form_of(alloc, left, space)?,
                form_of(alloc, right, space)?,
            )?;
            let fail = both(
                alloc,
                not_form_of(alloc, left, space)?,
                not_form_of(alloc, right, space)?,
            )?;
            either(alloc, hold, fail)
        }
        Formula::Until(left, right) => until(
            alloc,
            form_of(alloc, left, space)?,
            form_of(alloc, right, space)?,
        ),
        Formula::Weak(left, right) => {
            let some = either(
                alloc,
                form_of(alloc, right, space)?,
                form_of(alloc, left, space)?,
            )?;
            release(alloc, form_of(alloc, right, space)?, some)
        }
        Formula::Release(left, right) => release(
            alloc,
            form_of(alloc, left, space)?,
            form_of(alloc, right, space)?,
        ),
        Formula::All(members) => all_of(alloc, forms_of(alloc, members, space)?),
        Formula::Any(members) => any_of(alloc, forms_of(alloc, members, space)?),
    }
}

/// The letter form of a formula's negation.
#[cycle(letter_form)]
#[tactic(auto, using(ltl_formula::proofs::ListLemmas::formulas_of_members))]
fn not_form_of(alloc: Global, formula: &Formula, space: &Space) -> Result<Ltl, NoMemory>
    ensures { IfOk result
        (λ made. ltl_tree made ≡ not_letter_form (space_tree space.now) (formula_tree formula.now)) }
{
    match formula {
        Formula::True => Ok(Ltl::False),
        Formula::False => Ok(Ltl::True),
        Formula::Test(probe) => Ok(not_bit(space.test_bit(probe))),
        Formula::Update(signal, term) => Ok(not_bit(space.update_bit(*signal, term))),
        Formula::Not(part) => form_of(alloc, part, space),
        Formula::Next(part) => next(alloc, not_form_of(alloc, part, space)?),
        Formula::Finally(part) => release(alloc, Ltl::False, not_form_of(alloc, part, space)?),
        Formula::Globally(part) => until(alloc, Ltl::True, not_form_of(alloc, part, space)?),
        Formula::Implies(left, right) => both(
            alloc,
            form_of(alloc, left, space)?,
            not_form_of(alloc, right, space)?,
        ),
        Formula::Iff(left, right) => {
            let left_holds = both(
                alloc,
                form_of(alloc, left, space)?,
                not_form_of(alloc, right, space)?,
            )?;
            let right_holds = both(
                alloc,
                not_form_of(alloc, left, space)?,
                form_of(alloc, right, space)?,
            )?;
            either(alloc, left_holds, right_holds)
        }
        Formula::Until(left, right) => release(
            alloc,
            not_form_of(alloc, left, space)?,
            not_form_of(alloc, right, space)?,
        ),
        Formula::Weak(left, right) => {
            let none = both(
                alloc,
                not_form_of(alloc, right, space)?,
                not_form_of(alloc, left, space)?,
            )?;
            until(alloc, not_form_of(alloc, right, space)?, none)
        }
        Formula::Release(left, right) => until(
            alloc,
            not_form_of(alloc, left, space)?,
            not_form_of(alloc, right, space)?,
        ),
        Formula::All(members) => any_of(alloc, not_forms_of(alloc, members, space)?),
        Formula::Any(members) => all_of(alloc, not_forms_of(alloc, members, space)?),
    }
}

/// The letter forms of the members of a list, in order.
#[cycle(letter_form)]
#[tactic(auto, using(ltl_formula::proofs::ListLemmas::made_push, ltl_formula::proofs::ListLemmas::made_end))]
fn forms_of(alloc: Global, formulas: &FormulaList, space: &Space) -> Result<Vec<Ltl>, NoMemory>
    ensures { IfOk result (λ made. map ltl_tree made.items
        ≡ ltl_formulas_in (letter_forms (space_tree space.now) (formula_trees formulas.now))) }
{
    let mut made = Vec::new(alloc);
    let mut rest = formulas;
    while let FormulaList::More(formula, next) = rest {
        made.push(form_of(alloc, formula, space)?)?;
        rest = next;
    }
    Ok(made)
}

/// The letter forms of the negations of the members of a list, in order.
#[cycle(letter_form)]
#[tactic(auto, using(ltl_formula::proofs::ListLemmas::made_push, ltl_formula::proofs::ListLemmas::made_end))]
fn not_forms_of(alloc: Global, formulas: &FormulaList, space: &Space) -> Result<Vec<Ltl>, NoMemory>
    ensures { IfOk result (λ made. map ltl_tree made.items
        ≡ ltl_formulas_in (not_letter_forms (space_tree space.now) (formula_trees formulas.now))) }
{
    let mut made = Vec::new(alloc);
    let mut rest = formulas;
    while let FormulaList::More(formula, next) = rest {
        made.push(not_form_of(alloc, formula, space)?)?;
        rest = next;
    }
    Ok(made)
}
