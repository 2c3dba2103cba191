//! The arguments of predicate terms, which are what is labelled.

ghost use Rattle.std.specs.Prelude.{◌≡◌, ◌++◌, map, length, IfOk, OnOk};
ghost use Rattle.tsl_terms.specs.TermTree.{term_tree, term_trees, probe_tree, terms_in};
ghost use Rattle.letter_space.specs.SpaceView.{space_tree};
ghost use Rattle.branch_finder.specs.internal.Arguments.{arguments_of, AreStarts};

use base_library::NoMemory;
use letter_space::Space;
use std::alloc::Global;
use tsl_terms::{Term, TermList, copy_term};

/// The arguments of predicate terms, one after the other.
#[derive(Drop)]
pub(crate) struct Arguments {
    /// The terms.
    pub(crate) terms: Vec<Term>,
    /// For each predicate term where its arguments begin, and then where the last one's end.
    pub(crate) starts: Vec<usize>,
}

/// Adds equal terms at the end of others.
fn add_terms(alloc: Global, copies: &mut Vec<Term>, terms: &TermList) -> Result<(), NoMemory>
    ensures { OnOk result (map term_tree copies.new.items ≡ map term_tree copies.old.items ++ terms_in (term_trees terms.now)) }
{
    let mut rest = terms;
    while let TermList::More(term, next) = rest {
        copies.push(copy_term(alloc, term)?)?;
        rest = next;
    }
    Ok(())
}

/// The arguments of the predicate terms of a space.
pub(crate) fn arguments_of(alloc: Global, space: &Space) -> Result<Arguments, NoMemory>
    ensures terms { IfOk result (λ a. map term_tree a.terms.items ≡ arguments_of (space_tree space.now).predicates) }
    ensures starts { IfOk result (λ a. AreStarts (space_tree space.now).predicates a.starts.items) }
{
    let mut terms = Vec::new(alloc);
    let mut starts = Vec::new(alloc);
    for probe in space.predicates.as_slice() {
        starts.push(terms.len())?;
        add_terms(alloc, &mut terms, &probe.arguments)?;
    }
    starts.push(terms.len())?;
    Ok(Arguments { terms, starts })
}
