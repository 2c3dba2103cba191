//! Formulas that are made of parts.

ghost use Rattle.std.specs.Prelude.{◌≡◌, ◌∷◌, [], map, IfOk};
ghost use Rattle.ltl_formula.specs.LtlTree.{ltl_tree, ltl_trees, ltl_formulas_of, next, until, release, conjunction, disjunction};
ghost use Rattle.underapprox.specs.LetterForm.{atom_form, not_atom_form, both_of, either_of};

use base_library::NoMemory;
use ltl_formula::{Ltl, LtlList};
use std::alloc::Global;

/// The form of an atom with this bit, if it has one.
pub(crate) fn bit(bit: Option<u32>) -> Ltl
    ensures { ltl_tree result ≡ atom_form bit }
{
    match bit {
        Some(bit) => Ltl::Bit(bit),
        None => Ltl::False,
    }
}

/// The form of the negation of an atom with this bit, if it has one.
pub(crate) fn not_bit(bit: Option<u32>) -> Ltl
    ensures { ltl_tree result ≡ not_atom_form bit }
{
    match bit {
        Some(bit) => Ltl::NotBit(bit),
        None => Ltl::True,
    }
}

/// A formula at the next position.
pub(crate) fn next(alloc: Global, part: Ltl) -> Result<Ltl, NoMemory>
    ensures { IfOk result (λ made. ltl_tree made ≡ next (ltl_tree part)) }
{
    Ok(Ltl::Next(Box::new(alloc, part)?))
}

/// The left one until the right one.
pub(crate) fn until(alloc: Global, left: Ltl, right: Ltl) -> Result<Ltl, NoMemory>
    ensures { IfOk result (λ made. ltl_tree made ≡ until (ltl_tree left) (ltl_tree right)) }
{
    Ok(Ltl::Until(Box::new(alloc, left)?, Box::new(alloc, right)?))
}

/// The right one until and with the left one.
pub(crate) fn release(alloc: Global, left: Ltl, right: Ltl) -> Result<Ltl, NoMemory>
    ensures { IfOk result (λ made. ltl_tree made ≡ release (ltl_tree left) (ltl_tree right)) }
{
    Ok(Ltl::Release(Box::new(alloc, left)?, Box::new(alloc, right)?))
}

/// Both formulas.
pub(crate) fn both(alloc: Global, left: Ltl, right: Ltl) -> Result<Ltl, NoMemory>
    ensures { IfOk result (λ made. ltl_tree made ≡ both_of (ltl_tree left) (ltl_tree right)) }
{
    Ok(Ltl::All(pair(alloc, left, right)?))
}

/// One of the formulas.
pub(crate) fn either(alloc: Global, left: Ltl, right: Ltl) -> Result<Ltl, NoMemory>
    ensures { IfOk result (λ made. ltl_tree made ≡ either_of (ltl_tree left) (ltl_tree right)) }
{
    Ok(Ltl::Any(pair(alloc, left, right)?))
}

/// All formulas of a list.
pub(crate) fn all_of(alloc: Global, members: Vec<Ltl>) -> Result<Ltl, NoMemory>
    ensures { IfOk result
        (λ made. ltl_tree made ≡ conjunction (ltl_formulas_of (map ltl_tree members.items))) }
{
    Ok(Ltl::All(LtlList::from_vec(alloc, members)?))
}

/// Some formula of a list.
pub(crate) fn any_of(alloc: Global, members: Vec<Ltl>) -> Result<Ltl, NoMemory>
    ensures { IfOk result
        (λ made. ltl_tree made ≡ disjunction (ltl_formulas_of (map ltl_tree members.items))) }
{
    Ok(Ltl::Any(LtlList::from_vec(alloc, members)?))
}

/// The list of two formulas.
fn pair(alloc: Global, left: Ltl, right: Ltl) -> Result<LtlList, NoMemory>
    ensures { IfOk result (λ list. ltl_trees list ≡ ltl_formulas_of (ltl_tree left ∷ ltl_tree right ∷ [])) }
{
    let last = LtlList::More(Box::new(alloc, right)?, Box::new(alloc, LtlList::Empty)?);
    Ok(LtlList::More(Box::new(alloc, left)?, Box::new(alloc, last)?))
}
