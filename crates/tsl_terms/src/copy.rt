//! Copies of terms, probes, formulas and windows.

ghost use Rattle.std.specs.Prelude.{◌≡◌, map, option_map, IfOk};
ghost use Rattle.tsl_terms.specs.TermTree.{term_tree, term_trees, probe_tree};
ghost use Rattle.tsl_terms.specs.FormulaTree.{formula_tree, member_trees};
ghost use Rattle.tsl_terms.specs.WindowTree.{listed_tree, equated_tree, window_tree};

use crate::formula::{Formula, FormulaList};
use crate::term::{Probe, Term, TermList};
use crate::window::{Equated, Listed, Window};
use base_library::{NoMemory, Sequence};
use std::alloc::Global;

/// An equal term.
#[cycle(copy_terms)]
pub fn copy_term(alloc: Global, term: &Term) -> Result<Term, NoMemory>
    ensures { IfOk result (λ copy. term_tree copy ≡ term_tree term.now) }
{
    match term {
        Term::Signal(signal) => Ok(Term::Signal(*signal)),
        Term::Apply(function, arguments) => {
            Ok(Term::Apply(*function, copy_terms(alloc, arguments)?))
        }
    }
}

/// An equal list of terms.
#[tactic(auto, using(crate::proofs::TermLemmas::with_front_none, crate::proofs::TermLemmas::with_front_push))]
#[cycle(copy_terms)]
pub(crate) fn copy_terms(alloc: Global, terms: &TermList) -> Result<TermList, NoMemory>
    ensures { IfOk result (λ copy. term_trees copy ≡ term_trees terms.now) }
{
    let mut copies = Vec::new(alloc);
    let mut rest = terms;
    while let TermList::More(term, next) = rest {
        copies.push(copy_term(alloc, term)?)?;
        rest = next;
    }
    TermList::from_vec(alloc, copies)
}

/// An equal probe.
pub fn copy_probe(alloc: Global, probe: &Probe) -> Result<Probe, NoMemory>
    ensures { IfOk result (λ copy. probe_tree copy ≡ probe_tree probe.now) }
{
    Ok(Probe {
        predicate: probe.predicate,
        arguments: copy_terms(alloc, &probe.arguments)?,
    })
}

/// An equal formula.
#[cycle(copy_formulas)]
#[tactic(auto, using(crate::proofs::FormulaLemmas::formulas_of_members))]
pub fn copy_formula(alloc: Global, formula: &Formula) -> Result<Formula, NoMemory>
    ensures { IfOk result (λ copy. formula_tree copy ≡ formula_tree formula.now) }
{
    match formula {
        Formula::True => Ok(Formula::True),
        Formula::False => Ok(Formula::False),
        Formula::Test(probe) => Ok(Formula::Test(copy_probe(alloc, probe)?)),
        Formula::Update(signal, term) => Ok(Formula::Update(*signal, copy_term(alloc, term)?)),
        Formula::Not(part) => Ok(Formula::Not(copy_part(alloc, part)?)),
        Formula::All(members) => Ok(Formula::All(FormulaList::from_vec(
            alloc,
            copy_members(alloc, members)?,
        )?)),
        Formula::Any(members) => Ok(Formula::Any(FormulaList::from_vec(
            alloc,
            copy_members(alloc, members)?,
        )?)),
        Formula::Implies(left, right) => Ok(Formula::Implies(
            copy_part(alloc, left)?,
            copy_part(alloc, right)?,
        )),
        Formula::Iff(left, right) => Ok(Formula::Iff(
            copy_part(alloc, left)?,
            copy_part(alloc, right)?,
        )),
        Formula::Next(part) => Ok(Formula::Next(copy_part(alloc, part)?)),
        Formula::Finally(part) => Ok(Formula::Finally(copy_part(alloc, part)?)),
        Formula::Globally(part) => Ok(Formula::Globally(copy_part(alloc, part)?)),
        Formula::Until(left, right) => Ok(Formula::Until(
            copy_part(alloc, left)?,
            copy_part(alloc, right)?,
        )),
        Formula::Weak(left, right) => Ok(Formula::Weak(
            copy_part(alloc, left)?,
            copy_part(alloc, right)?,
        )),
        Formula::Release(left, right) => Ok(Formula::Release(
            copy_part(alloc, left)?,
            copy_part(alloc, right)?,
        )),
    }
}

/// A formula's part, copied.
#[cycle(copy_formulas)]
pub(crate) fn copy_part(alloc: Global, part: &Formula) -> Result<Box<Formula>, NoMemory>
    ensures { IfOk result (λ copy. formula_tree copy.value ≡ formula_tree part.now) }
{
    Ok(Box::new(alloc, copy_formula(alloc, part)?)?)
}

/// Copies of the members of a list, in order.
#[cycle(copy_formulas)]
#[tactic(auto, using(crate::proofs::FormulaLemmas::map_push_front, crate::proofs::FormulaLemmas::copies_end))]
pub(crate) fn copy_members(alloc: Global, formulas: &FormulaList) -> Result<Vec<Formula>, NoMemory>
    ensures { IfOk result
        (λ copies. map formula_tree copies.items ≡ member_trees formulas.now) }
{
    let mut copies = Vec::new(alloc);
    let mut rest = formulas;
    while let FormulaList::More(formula, next) = rest {
        copies.push(copy_formula(alloc, formula)?)?;
        rest = next;
    }
    Ok(copies)
}

/// An equal window.
pub fn copy_window(alloc: Global, window: &Window) -> Result<Window, NoMemory>
    ensures { IfOk result (λ copy. window_tree copy ≡ window_tree window.now) }
{
    let updates = copy_updates(alloc, window.updates.as_slice())?;
    let equalities = copy_equalities(alloc, window.equalities.as_slice())?;
    Ok(Window {
        left: copy_left(alloc, &window.left)?,
        left_at: window.left_at,
        right: copy_probe(alloc, &window.right)?,
        length: window.length,
        updates: Sequence::from_vec(updates),
        equalities: Sequence::from_vec(equalities),
    })
}

/// A copy of the left probe, where there is one.
fn copy_left(alloc: Global, left: &Option<Probe>) -> Result<Option<Probe>, NoMemory>
    ensures { IfOk result (λ copy. option_map probe_tree copy ≡ option_map probe_tree left.now) }
{
    match left {
        None => Ok(None),
        Some(probe) => Ok(Some(copy_probe(alloc, probe)?)),
    }
}

/// Copies of the updates that a window lists, in order.
fn copy_updates(alloc: Global, updates: &[Listed]) -> Result<Vec<Listed>, NoMemory>
    ensures { IfOk result (λ copies. map listed_tree copies.items ≡ map listed_tree updates.now) }
{
    let mut copies = Vec::new(alloc);
    for update in updates {
        copies.push(Listed {
            signal: update.signal,
            term: copy_term(alloc, &update.term)?,
            offset: update.offset,
        })?;
    }
    Ok(copies)
}

/// Copies of the equalities that a window lists, in order.
fn copy_equalities(alloc: Global, equalities: &[Equated]) -> Result<Vec<Equated>, NoMemory>
    ensures { IfOk result (λ copies. map equated_tree copies.items ≡ map equated_tree equalities.now) }
{
    let mut copies = Vec::new(alloc);
    for equality in equalities {
        copies.push(Equated {
            probe: copy_probe(alloc, &equality.probe)?,
            offset: equality.offset,
        })?;
    }
    Ok(copies)
}
