//! The rules, at each level of a formula.

ghost use Rattle.std.specs.Prelude.{◌≡◌, map, IfOk};
ghost use Rattle.ltl_formula.specs.LtlTree.{ltl_tree, ltl_trees, ltl_formulas_of};
ghost use Rattle.ltl_rewriting.specs.SameMeaning.{MeansSame};
ghost use Rattle.ltl_rewriting.specs.internal.Members.{MeanSame};

use crate::parting::{merged_all, merged_any};
use base_library::NoMemory;
use ltl_formula::{Ltl, LtlList};
use std::alloc::Global;

/// A formula that holds at the same positions of every letter loop. An `Err` says that memory ran out.
#[cycle(simplified)]
#[tactic(auto, using(crate::proofs::SameParts::same_conjunction, crate::proofs::SameParts::same_disjunction, crate::proofs::SameParts::same_next, crate::proofs::SameParts::same_until, crate::proofs::SameParts::same_release))]
pub fn simplified(alloc: Global, formula: &Ltl) -> Result<Ltl, NoMemory>
    ensures { IfOk result (λ made. MeansSame (ltl_tree made) (ltl_tree formula.now)) }
{
    match formula {
        Ltl::True => Ok(Ltl::True),
        Ltl::False => Ok(Ltl::False),
        Ltl::Bit(bit) => Ok(Ltl::Bit(*bit)),
        Ltl::NotBit(bit) => Ok(Ltl::NotBit(*bit)),
        Ltl::All(members) => {
            let made = merged_all(alloc, simplified_members(alloc, members)?)?;
            Ok(made)
        }
        Ltl::Any(members) => {
            let made = merged_any(alloc, simplified_members(alloc, members)?)?;
            Ok(made)
        }
        Ltl::Next(part) => Ok(Ltl::Next(simplified_part(alloc, part)?)),
        Ltl::Until(left, right) => Ok(Ltl::Until(
            simplified_part(alloc, left)?,
            simplified_part(alloc, right)?,
        )),
        Ltl::Release(left, right) => Ok(Ltl::Release(
            simplified_part(alloc, left)?,
            simplified_part(alloc, right)?,
        )),
    }
}

/// A formula's part, simplified.
#[cycle(simplified)]
fn simplified_part(alloc: Global, part: &Ltl) -> Result<Box<Ltl>, NoMemory>
    ensures { IfOk result (λ made. MeansSame (ltl_tree made.value) (ltl_tree part.now)) }
{
    Ok(Box::new(alloc, simplified(alloc, part)?)?)
}

/// The members of a list, each simplified.
#[cycle(simplified)]
#[tactic(auto, using(crate::proofs::SameParts::same_begun, crate::proofs::SameParts::same_step, crate::proofs::SameParts::same_ended))]
fn simplified_members(alloc: Global, formulas: &LtlList) -> Result<Vec<Ltl>, NoMemory>
    ensures { IfOk result (λ made. MeanSame (ltl_formulas_of (map ltl_tree made.items)) (ltl_trees formulas.now)) }
{
    let mut made = Vec::new(alloc);
    let mut rest = formulas;
    while let LtlList::More(formula, next) = rest {
        made.push(simplified(alloc, formula)?)?;
        rest = next;
    }
    Ok(made)
}
