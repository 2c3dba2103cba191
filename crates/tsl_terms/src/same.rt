//! Whether two terms or two probes are equal.

ghost use Rattle.std.specs.Prelude.{◌≡◌, ◌↔◌, IsTrue};
ghost use Rattle.tsl_terms.specs.TermTree.{term_tree, term_trees, probe_tree};
ghost use Rattle.tsl_terms.specs.SameTree.{same_tree, same_trees, same_probe_tree};

use crate::term::{Probe, Term, TermList};

/// Whether two terms are equal. It takes no memory.
#[cycle(same_terms)]
pub fn same_term(a: &Term, b: &Term) -> bool
    ensures test { result ≡ same_tree (term_tree a.now) (term_tree b.now) }
    ensures equal { IsTrue result ↔ (term_tree a.now ≡ term_tree b.now) }
{
    match (a, b) {
        (Term::Signal(r), Term::Signal(s)) => *r == *s,
        (Term::Apply(f, left), Term::Apply(g, right)) => *f == *g && same_terms(left, right),
        _ => false,
    }
}

/// Whether two probes are equal. It takes no memory.
pub fn same_probe(a: &Probe, b: &Probe) -> bool
    ensures test { result ≡ same_probe_tree (probe_tree a.now) (probe_tree b.now) }
    ensures equal { IsTrue result ↔ (probe_tree a.now ≡ probe_tree b.now) }
{
    a.predicate == b.predicate && same_terms(&a.arguments, &b.arguments)
}

/// Whether two lists of terms are equal.
#[cycle(same_terms)]
fn same_terms(a: &TermList, b: &TermList) -> bool
    ensures { result ≡ same_trees (term_trees a.now) (term_trees b.now) }
{
    let mut left = a;
    let mut right = b;
    loop {
        match (left, right) {
            (TermList::Empty, TermList::Empty) => return true,
            (TermList::More(t, ts), TermList::More(u, us)) => {
                if !same_term(t, u) {
                    return false;
                }
                left = ts;
                right = us;
            }
            _ => return false,
        }
    }
}
