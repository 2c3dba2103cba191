//! Copies of formulas.

ghost use Rattle.std.specs.Prelude.{◌≡◌, map, IfOk};
ghost use Rattle.ltl_formula.specs.LtlTree.{ltl_tree, ltl_member_trees};

use crate::formula::{Ltl, LtlList};
use base_library::NoMemory;
use std::alloc::Global;

/// An equal formula.
#[cycle(copy)]
#[tactic(auto, using(crate::proofs::ListLemmas::formulas_of_members))]
pub fn copy_ltl(alloc: Global, formula: &Ltl) -> Result<Ltl, NoMemory>
    ensures { IfOk result (λ copy. ltl_tree copy ≡ ltl_tree formula.now) }
{
    match formula {
        Ltl::True => Ok(Ltl::True),
        Ltl::False => Ok(Ltl::False),
        Ltl::Bit(bit) => Ok(Ltl::Bit(*bit)),
        Ltl::NotBit(bit) => Ok(Ltl::NotBit(*bit)),
        Ltl::All(members) => Ok(Ltl::All(LtlList::from_vec(alloc, copy_members(alloc, members)?)?)),
        Ltl::Any(members) => Ok(Ltl::Any(LtlList::from_vec(alloc, copy_members(alloc, members)?)?)),
        Ltl::Next(part) => Ok(Ltl::Next(copy_part(alloc, part)?)),
        Ltl::Until(left, right) => Ok(Ltl::Until(
            copy_part(alloc, left)?,
            copy_part(alloc, right)?,
        )),
        Ltl::Release(left, right) => Ok(Ltl::Release(
            copy_part(alloc, left)?,
            copy_part(alloc, right)?,
        )),
    }
}

/// A formula's part, copied.
#[cycle(copy)]
fn copy_part(alloc: Global, part: &Ltl) -> Result<Box<Ltl>, NoMemory>
    ensures { IfOk result (λ copy. ltl_tree copy.value ≡ ltl_tree part.now) }
{
    Ok(Box::new(alloc, copy_ltl(alloc, part)?)?)
}

/// Copies of the members of a list, in order.
#[cycle(copy)]
#[tactic(auto, using(crate::proofs::ListLemmas::made_push, crate::proofs::ListLemmas::made_end))]
fn copy_members(alloc: Global, formulas: &LtlList) -> Result<Vec<Ltl>, NoMemory>
    ensures { IfOk result (λ copies. map ltl_tree copies.items ≡ ltl_member_trees formulas.now) }
{
    let mut copies = Vec::new(alloc);
    let mut rest = formulas;
    while let LtlList::More(formula, next) = rest {
        copies.push(copy_ltl(alloc, formula)?)?;
        rest = next;
    }
    Ok(copies)
}
