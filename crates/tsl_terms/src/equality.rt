//! The predicate that is equality.

ghost use Rattle.std.specs.Prelude.{◌≡◌, ◌↔◌, ◌<◌, ◌==◌, ℕ, length, Some, IsTrue};
ghost use Rattle.tsl_terms.specs.declared.names.NameKind.TheVariants.{Predicate};
ghost use Rattle.tsl_terms.specs.Name.{is_name};
ghost use Rattle.tsl_terms.specs.Equality.{is_equality, equality_in};
ghost use Rattle.tsl_terms.specs.TermTree.{term_trees, probe_tree, count_of_terms};
ghost use Rattle.tsl_terms.specs.Congruence.{IsEquality};

use crate::names::{NameKind, Names};
use crate::term::{Probe, TermList};

/// The number of the predicate named `eq` that takes two arguments, or `None` where there is none. It takes no memory.
pub fn equality_of(names: &Names) -> Option<u32>
    ensures number { result ≡ equality_in names.now }
    ensures exact { (id : ℕ) → (result ≡ Some id) ↔ IsTrue (is_equality names.now id) }
{
    let _count = names.count();
    let id = names.find(b"eq")?;
    if compares_two(names, id) {
        Some(id)
    } else {
        None
    }
}

/// Whether a name is that of a predicate with two arguments.
fn compares_two(names: &Names, id: u32) -> bool
    requires { id < length names.now }
    ensures { result ≡ is_name names.now id Predicate 2 }
{
    names.kind(id) == NameKind::Predicate && names.arity(id) == 2
}

/// Whether a probe is one of two arguments of this predicate, which is equality; none is where there is no such predicate.
pub fn is_equality(equality: Option<u32>, probe: &Probe) -> bool
    ensures { IsTrue result ↔ IsEquality equality (probe_tree probe.now) }
{
    match equality {
        Some(predicate) => predicate == probe.predicate && are_two(&probe.arguments),
        None => false,
    }
}

/// Whether there are two terms.
fn are_two(terms: &TermList) -> bool
    ensures { result ≡ (count_of_terms (term_trees terms.now) == 2) }
{
    match terms {
        TermList::More(_, rest) => is_one(rest),
        TermList::Empty => false,
    }
}

/// Whether there is one term.
fn is_one(terms: &TermList) -> bool
    ensures { result ≡ (count_of_terms (term_trees terms.now) == 1) }
{
    match terms {
        TermList::More(_, rest) => is_none(rest),
        TermList::Empty => false,
    }
}

/// Whether there is no term.
fn is_none(terms: &TermList) -> bool
    ensures { result ≡ (count_of_terms (term_trees terms.now) == 0) }
{
    match terms {
        TermList::More(_, _) => false,
        TermList::Empty => true,
    }
}
