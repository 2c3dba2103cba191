//! The atoms of formulas: what they test and what they update, from the left.

ghost use Rattle.std.specs.Prelude.{◌≡◌, ◌++◌, map, IfOk, OnOk};
ghost use Rattle.tsl_terms.specs.FormulaTree.{formula_tree, formula_trees};
ghost use Rattle.tsl_terms.specs.Atoms.{atoms, atoms_of_members};
ghost use Rattle.tsl_terms.specs.AtomView.{atom_tree};
ghost use Rattle.tsl_terms.specs.SpecTree.{whole_formula};
ghost use Rattle.tsl_terms.specs.SpecView.{spec_tree};

use crate::formula::{Formula, FormulaList};
use crate::spec::Spec;
use crate::term::{Probe, Term};
use base_library::NoMemory;
use std::alloc::Global;

/// What a formula is made of, lent from it.
#[derive(Clone, Copy)]
pub enum AtomRef<'a> {
    /// A predicate's truth.
    Test(&'a Probe),
    /// `[s <- t]`: the signal takes the term.
    Update(u32, &'a Term),
}

/// The atoms of a formula, from the left.
pub fn atoms<'a>(alloc: Global, formula: &'a Formula) -> Result<Vec<AtomRef<'a>>, NoMemory>
    ensures { IfOk result
        (λ list. map atom_tree list.items ≡ atoms (formula_tree formula.now)) }
{
    let mut list = Vec::new(alloc);
    add_atoms(&mut list, formula)?;
    Ok(list)
}

/// The atoms of a specification's whole formula, from the left.
pub fn atoms_of_spec<'a>(alloc: Global, spec: &'a Spec) -> Result<Vec<AtomRef<'a>>, NoMemory>
    ensures { IfOk result (λ list. map atom_tree list.items
        ≡ atoms (whole_formula (spec_tree spec.now))) }
{
    let mut list = Vec::new(alloc);
    add_member_atoms(&mut list, &spec.assume_first)?;
    add_member_atoms(&mut list, &spec.assume_always)?;
    add_member_atoms(&mut list, &spec.guarantee_first)?;
    add_member_atoms(&mut list, &spec.guarantee_always)?;
    Ok(list)
}

/// Adds the atoms of a formula.
#[cycle(add_atoms)]
fn add_atoms<'a>(list: &mut Vec<AtomRef<'a>>, formula: &'a Formula) -> Result<(), NoMemory>
    ensures { OnOk result (map atom_tree list.new.items
        ≡ map atom_tree list.old.items ++ atoms (formula_tree formula.now)) }
{
    match formula {
        Formula::True | Formula::False => Ok(()),
        Formula::Test(probe) => {
            list.push(AtomRef::Test(probe))?;
            Ok(())
        }
        Formula::Update(signal, term) => {
            list.push(AtomRef::Update(*signal, term))?;
            Ok(())
        }
        Formula::Not(part)
        | Formula::Next(part)
        | Formula::Finally(part)
        | Formula::Globally(part) => add_atoms(list, part),
        Formula::All(members) | Formula::Any(members) => add_member_atoms(list, members),
        Formula::Implies(left, right)
        | Formula::Iff(left, right)
        | Formula::Until(left, right)
        | Formula::Weak(left, right)
        | Formula::Release(left, right) => {
            add_atoms(list, left)?;
            add_atoms(list, right)
        }
    }
}

/// Adds the atoms of the members of a list.
#[cycle(add_atoms)]
fn add_member_atoms<'a>(
    list: &mut Vec<AtomRef<'a>>,
    formulas: &'a FormulaList,
) -> Result<(), NoMemory>
    ensures { OnOk result (map atom_tree list.new.items
        ≡ map atom_tree list.old.items ++ atoms_of_members (formula_trees formulas.now)) }
{
    let mut rest = formulas;
    while let FormulaList::More(formula, next) = rest {
        add_atoms(list, formula)?;
        rest = next;
    }
    Ok(())
}
