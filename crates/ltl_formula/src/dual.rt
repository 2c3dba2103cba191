//! The formula that holds where another one fails.

ghost use Rattle.std.specs.Prelude.{◌≡◌, ℕ, map, not, IfOk};
ghost use Rattle.ltl_formula.specs.LtlTree.{ltl_tree, ltl_trees, ltl_formulas_in};
ghost use Rattle.ltl_formula.specs.Dual.{dual, duals};
ghost use Rattle.ltl_formula.specs.LetterLoop.{LetterLoop, holds};

use crate::formula::{Ltl, LtlList};
use base_library::NoMemory;
use std::alloc::Global;

/// The formula that holds on exactly the letter loops, and at exactly the positions, at which this one fails: each
/// form is exchanged with its opposite.
pub fn negate(alloc: Global, formula: &Ltl) -> Result<Ltl, NoMemory>
    ensures dual { IfOk result (λ made. ltl_tree made ≡ dual (ltl_tree formula.now)) }
    ensures fails { IfOk result (λ made. (loop : LetterLoop) (i : ℕ) →
        holds loop (ltl_tree made) i ≡ not (holds loop (ltl_tree formula.now) i)) }
{
    let made = dual_of(alloc, formula)?;
    Ok(made)
}

/// Each form exchanged with its opposite.
#[cycle(dual)]
#[tactic(auto, using(crate::proofs::ListLemmas::formulas_of_members))]
fn dual_of(alloc: Global, formula: &Ltl) -> Result<Ltl, NoMemory>
    ensures { IfOk result (λ made. ltl_tree made ≡ dual (ltl_tree formula.now)) }
{
    match formula {
        Ltl::True => Ok(Ltl::False),
        Ltl::False => Ok(Ltl::True),
        Ltl::Bit(bit) => Ok(Ltl::NotBit(*bit)),
        Ltl::NotBit(bit) => Ok(Ltl::Bit(*bit)),
        Ltl::All(members) => Ok(Ltl::Any(LtlList::from_vec(alloc, dual_members(alloc, members)?)?)),
        Ltl::Any(members) => Ok(Ltl::All(LtlList::from_vec(alloc, dual_members(alloc, members)?)?)),
        Ltl::Next(part) => Ok(Ltl::Next(dual_part(alloc, part)?)),
        Ltl::Until(left, right) => Ok(Ltl::Release(
            dual_part(alloc, left)?,
            dual_part(alloc, right)?,
        )),
        Ltl::Release(left, right) => Ok(Ltl::Until(
            dual_part(alloc, left)?,
            dual_part(alloc, right)?,
        )),
    }
}

/// The dual of a formula's part.
#[cycle(dual)]
fn dual_part(alloc: Global, part: &Ltl) -> Result<Box<Ltl>, NoMemory>
    ensures { IfOk result (λ made. ltl_tree made.value ≡ dual (ltl_tree part.now)) }
{
    Ok(Box::new(alloc, dual_of(alloc, part)?)?)
}

/// The duals of the members of a list, in order.
#[cycle(dual)]
#[tactic(auto, using(crate::proofs::ListLemmas::made_push, crate::proofs::ListLemmas::made_end))]
fn dual_members(alloc: Global, formulas: &LtlList) -> Result<Vec<Ltl>, NoMemory>
    ensures { IfOk result
        (λ made. map ltl_tree made.items ≡ ltl_formulas_in (duals (ltl_trees formulas.now))) }
{
    let mut made = Vec::new(alloc);
    let mut rest = formulas;
    while let LtlList::More(formula, next) = rest {
        made.push(dual_of(alloc, formula)?)?;
        rest = next;
    }
    Ok(made)
}
