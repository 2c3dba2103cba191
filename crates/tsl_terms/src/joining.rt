//! The whole formula of a specification.

ghost use Rattle.std.specs.Prelude.{◌≡◌, ◌++◌, map, IfOk};
ghost use Rattle.tsl_terms.specs.declared.operator.UnaryOperator.TheVariants.{Globally};
ghost use Rattle.tsl_terms.specs.FormulaTree.{unary, formula_tree, member_trees};
ghost use Rattle.tsl_terms.specs.SpecTree.{conjunction_of, under_assumptions, whole_formula};
ghost use Rattle.tsl_terms.specs.SpecView.{spec_tree};

use crate::copy::{copy_members, copy_part};
use crate::formula::{Formula, FormulaList};
use crate::spec::Spec;
use base_library::NoMemory;
use std::alloc::Global;

/// The formula that a specification stands for: what is guaranteed, under what is assumed where something is. What
/// holds always stands under `Globally`, after what holds at first. A conjunction is `True` for no formula and the
/// formula itself for one.
pub fn whole(alloc: Global, spec: &Spec) -> Result<Formula, NoMemory>
    ensures { IfOk result
        (λ formula. formula_tree formula ≡ whole_formula (spec_tree spec.now)) }
{
    let assumed = section(alloc, &spec.assume_first, &spec.assume_always)?;
    let guaranteed = section(alloc, &spec.guarantee_first, &spec.guarantee_always)?;
    under_assumptions(alloc, assumed, conjunction(alloc, guaranteed)?)
}

/// A formula under the conjunction of formulas, where there are some.
pub(crate) fn under_assumptions(
    alloc: Global,
    assumed: Vec<Formula>,
    guarantee: Formula,
) -> Result<Formula, NoMemory>
    ensures { IfOk result (λ formula. formula_tree formula
        ≡ under_assumptions (map formula_tree assumed.items) (formula_tree guarantee)) }
{
    if assumed.is_empty() {
        return Ok(guarantee);
    }
    let assumption = conjunction(alloc, assumed)?;
    Ok(Formula::Implies(Box::new(alloc, assumption)?, Box::new(alloc, guarantee)?))
}

/// The conjunction of formulas.
pub(crate) fn conjunction(alloc: Global, mut formulas: Vec<Formula>) -> Result<Formula, NoMemory>
    ensures { IfOk result
        (λ formula. formula_tree formula ≡ conjunction_of (map formula_tree formulas.items)) }
{
    if formulas.len() > 1 {
        return Ok(Formula::All(FormulaList::from_vec(alloc, formulas)?));
    }
    match formulas.pop() {
        Some(only) => Ok(only),
        None => Ok(Formula::True),
    }
}

/// Copies of the formulas that hold at first, followed by those that hold always, each under
/// `Globally`.
fn section(
    alloc: Global,
    first: &FormulaList,
    always: &FormulaList,
) -> Result<Vec<Formula>, NoMemory>
    ensures { IfOk result (λ formulas. map formula_tree formulas.items
        ≡ member_trees first.now ++ map (unary Globally) (member_trees always.now)) }
{
    let mut formulas = copy_members(alloc, first)?;
    let mut rest = always;
    while let FormulaList::More(formula, next) = rest {
        formulas.push(Formula::Globally(copy_part(alloc, formula)?))?;
        rest = next;
    }
    Ok(formulas)
}
