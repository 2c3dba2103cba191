//! Marks on the names that formulas update and read.

ghost use Rattle.std.specs.Prelude.{◌≡◌, ◌==◌, false, length, replicate, IfOk};
ghost use Rattle.tsl_terms.specs.TermTree.{term_tree, term_trees};
ghost use Rattle.tsl_terms.specs.AtomView.{atom_tree};
ghost use Rattle.tsl_terms.specs.SpecTree.{whole_formula};
ghost use Rattle.tsl_terms.specs.SpecView.{spec_tree};
ghost use Rattle.tsl_terms.specs.internal.Marked.{marked};
ghost use Rattle.tsl_terms.specs.Signals.{term_reads, some_term_reads, atom_reads, atom_updates, formula_reads, formula_updates};

use crate::atom::{AtomRef, atoms_of_spec};
use crate::spec::Spec;
use crate::term::{Term, TermList};
use base_library::NoMemory;
use std::alloc::Global;

/// Which names are updated and which are read, by their numbers.
#[derive(Drop)]
pub(crate) struct Marks {
    pub(crate) updated: Vec<bool>,
    pub(crate) read: Vec<bool>,
}

/// The marks of a specification's formulas, one for each name.
pub(crate) fn marks_of(alloc: Global, spec: &Spec) -> Result<Marks, NoMemory>
    ensures updated { IfOk result (λ marks. marks.updated.items
        ≡ marked (λ s. formula_updates s (whole_formula (spec_tree spec.now)))
        (replicate (length spec.now.names) false)) }
    ensures read { IfOk result (λ marks. marks.read.items
        ≡ marked (λ s. formula_reads s (whole_formula (spec_tree spec.now)))
        (replicate (length spec.now.names) false)) }
{
    let count = spec.names.count() as usize;
    let mut marks = Marks {
        updated: vec![in alloc; false; count]?,
        read: vec![in alloc; false; count]?,
    };
    let atoms = atoms_of_spec(alloc, spec)?;
    for atom in &atoms {
        marks.mark_atom(atom);
    }
    Ok(marks)
}

impl Marks {
    /// Marks what an atom updates and what it reads.
    fn mark_atom(&mut self, atom: &AtomRef)
        ensures updated { self.new.updated.items
            ≡ marked (λ s. atom_updates s (atom_tree atom.now)) self.old.updated.items }
        ensures read { self.new.read.items
            ≡ marked (λ s. atom_reads s (atom_tree atom.now)) self.old.read.items }
    {
        match atom {
            AtomRef::Test(probe) => mark_terms(&mut self.read, &probe.arguments),
            AtomRef::Update(signal, term) => {
                mark(&mut self.updated, *signal);
                mark_term(&mut self.read, term);
            }
        }
    }
}

/// Marks the signals that a term reads.
#[cycle(mark_terms)]
fn mark_term(read: &mut Vec<bool>, term: &Term)
    ensures { read.new.items ≡ marked (λ s. term_reads s (term_tree term.now)) read.old.items }
{
    match term {
        Term::Signal(signal) => mark(read, *signal),
        Term::Apply(_, arguments) => mark_terms(read, arguments),
    }
}

/// Marks the signals that the members of a list read.
#[cycle(mark_terms)]
fn mark_terms(read: &mut Vec<bool>, terms: &TermList)
    ensures { read.new.items
        ≡ marked (λ s. some_term_reads s (term_trees terms.now)) read.old.items }
{
    let mut rest = terms;
    while let TermList::More(term, next) = rest {
        mark_term(read, term);
        rest = next;
    }
}

/// Marks one name, where it has a mark.
fn mark(marks: &mut Vec<bool>, signal: u32)
    ensures { marks.new.items ≡ marked (λ s. signal == s) marks.old.items }
{
    let place = signal as usize;
    if place < marks.len() {
        marks[place] = true;
    }
}
