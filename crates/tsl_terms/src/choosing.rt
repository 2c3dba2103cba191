//! The choices of a signal.

ghost use Rattle.std.specs.Prelude.{◌≡◌, ◌&&◌, [], ◌∷◌, map, flat_map, if◌then◌else◌, IfOk, OnOk};
ghost use Rattle.std.specs.List.{list_any};
ghost use Rattle.tsl_terms.specs.TermTree.{signal, term_tree, term_trees};
ghost use Rattle.tsl_terms.specs.AtomView.{atom_tree};
ghost use Rattle.tsl_terms.specs.SameTree.{same_tree};
ghost use Rattle.tsl_terms.specs.SpecView.{spec_tree};
ghost use Rattle.tsl_terms.specs.Signals.{term_reads, some_term_reads, atom_reads, atom_updates, term_for, choices_of};
ghost use Rattle.base_library.specs.Kept.{with_new};

use crate::atom::{AtomRef, atoms_of_spec};
use crate::copy::copy_term;
use crate::same::same_term;
use crate::spec::Spec;
use crate::term::{Term, TermList};
use base_library::NoMemory;
use std::alloc::Global;

/// The choices of a cell or an output: the terms that its updates name, by first appearance in the whole formula from
/// the left, without repeats, and for a cell the cell itself, last unless an update names it. A signal that no update
/// names on its left has none. It compares each term with those before.
pub fn choices(alloc: Global, spec: &Spec, signal: u32) -> Result<Vec<Term>, NoMemory>
    ensures { IfOk result
        (λ terms. map term_tree terms.items ≡ choices_of (spec_tree spec.now) signal) }
{
    let atoms = atoms_of_spec(alloc, spec)?;
    let mut terms = terms_for(alloc, &atoms, signal)?;
    add_cell(alloc, &mut terms, signal, is_cell(&atoms, signal))?;
    Ok(terms)
}

/// The terms that the updates of a signal name, without repeats.
fn terms_for(alloc: Global, atoms: &[AtomRef], signal: u32) -> Result<Vec<Term>, NoMemory>
    ensures { IfOk result (λ terms. map term_tree terms.items
        ≡ with_new same_tree [] (flat_map (term_for signal) (map atom_tree atoms.now))) }
{
    let mut terms = Vec::new(alloc);
    for atom in atoms {
        add_term_for(alloc, &mut terms, atom, signal)?;
    }
    Ok(terms)
}

/// Adds the term that an update of a signal names, where it was not found before.
fn add_term_for(
    alloc: Global,
    terms: &mut Vec<Term>,
    atom: &AtomRef,
    signal: u32,
) -> Result<(), NoMemory>
    ensures { OnOk result (map term_tree terms.new.items
        ≡ with_new same_tree (map term_tree terms.old.items) (term_for signal (atom_tree atom.now))) }
{
    match atom {
        AtomRef::Update(updated, term) if *updated == signal => add_term(alloc, terms, term),
        _ => Ok(()),
    }
}

/// Adds a term, where it was not found before.
fn add_term(alloc: Global, terms: &mut Vec<Term>, term: &Term) -> Result<(), NoMemory>
    ensures { OnOk result (map term_tree terms.new.items
        ≡ with_new same_tree (map term_tree terms.old.items) (term_tree term.now ∷ [])) }
{
    if !is_term_among(terms, term) {
        terms.push(copy_term(alloc, term)?)?;
    }
    Ok(())
}

/// Whether a term is among some.
fn is_term_among(terms: &[Term], term: &Term) -> bool
    ensures { result ≡ list_any (λ t. same_tree (term_tree t) (term_tree term.now)) terms.now }
{
    terms.iter().any(|t| same_term(t, term))
}

/// Adds the signal itself where it is a cell, unless it was found before.
fn add_cell(alloc: Global, terms: &mut Vec<Term>, cell: u32, is_cell: bool) -> Result<(), NoMemory>
    ensures { OnOk result (map term_tree terms.new.items
        ≡ with_new same_tree (map term_tree terms.old.items)
        (if is_cell then signal cell ∷ [] else [])) }
{
    if !is_cell {
        return Ok(());
    }
    add_term(alloc, terms, &Term::Signal(cell))
}

/// Whether some atom updates a signal and some reads it.
fn is_cell(atoms: &[AtomRef], signal: u32) -> bool
    ensures { result ≡ (list_any (λ a. atom_updates signal (atom_tree a)) atoms.now
        && list_any (λ a. atom_reads signal (atom_tree a)) atoms.now) }
{
    is_updated(atoms, signal) && is_read(atoms, signal)
}

/// Whether some atom updates a signal.
fn is_updated(atoms: &[AtomRef], signal: u32) -> bool
    ensures { result ≡ list_any (λ a. atom_updates signal (atom_tree a)) atoms.now }
{
    atoms.iter().any(|atom| updates(atom, signal))
}

/// Whether some atom reads a signal.
fn is_read(atoms: &[AtomRef], signal: u32) -> bool
    ensures { result ≡ list_any (λ a. atom_reads signal (atom_tree a)) atoms.now }
{
    atoms.iter().any(|atom| reads(atom, signal))
}

/// Whether an atom updates a signal.
fn updates(atom: &AtomRef, signal: u32) -> bool
    ensures { result ≡ atom_updates signal (atom_tree atom.now) }
{
    match atom {
        AtomRef::Test(_) => false,
        AtomRef::Update(updated, _) => *updated == signal,
    }
}

/// Whether an atom reads a signal.
fn reads(atom: &AtomRef, signal: u32) -> bool
    ensures { result ≡ atom_reads signal (atom_tree atom.now) }
{
    match atom {
        AtomRef::Test(probe) => some_term_reads(&probe.arguments, signal),
        AtomRef::Update(_, term) => term_reads(term, signal),
    }
}

/// Whether a term reads a signal.
#[cycle(term_reads)]
pub fn term_reads(term: &Term, signal: u32) -> bool
    ensures { result ≡ term_reads signal (term_tree term.now) }
{
    match term {
        Term::Signal(read) => *read == signal,
        Term::Apply(_, arguments) => some_term_reads(arguments, signal),
    }
}

/// Whether some term of a list reads a signal.
#[cycle(term_reads)]
pub fn some_term_reads(terms: &TermList, signal: u32) -> bool
    ensures { result ≡ some_term_reads signal (term_trees terms.now) }
{
    let mut rest = terms;
    while let TermList::More(term, next) = rest {
        if term_reads(term, signal) {
            return true;
        }
        rest = next;
    }
    false
}
