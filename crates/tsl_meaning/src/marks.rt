//! Numbers by which equal atoms are found. Atoms that differ have one number hardly ever; whoever finds
//! one compares it, so that which number it is bears on time alone.

use tsl_terms::{AtomRef, Probe, Term, TermList};

/// An odd number whose bits are spread, as hash functions multiply by.
const SPREAD: u64 = 0x9E37_79B9_7F4A_7C15;

/// A number that equal atoms have in common.
pub(crate) fn mark_of(atom: AtomRef) -> u64 {
    match atom {
        AtomRef::Test(probe) => mark_of_probe(probe),
        AtomRef::Update(signal, term) => mark_of_term(mixed(1, signal), term),
    }
}

/// A number that equal probes have in common.
fn mark_of_probe(probe: &Probe) -> u64 {
    mark_of_terms(mixed(2, probe.predicate), &probe.arguments)
}

/// The number so far, and then a term.
#[cycle(marks)]
fn mark_of_term(mark: u64, term: &Term) -> u64 {
    match term {
        Term::Signal(signal) => mixed(mixed(mark, 1), *signal),
        Term::Apply(function, arguments) => {
            mark_of_terms(mixed(mixed(mark, 2), *function), arguments)
        }
    }
}

/// The number so far, and then the terms of a list.
#[cycle(marks)]
fn mark_of_terms(mark: u64, terms: &TermList) -> u64 {
    let mut whole = mark;
    let mut rest = terms;
    while let TermList::More(term, next) = rest {
        whole = mark_of_term(whole, term);
        rest = next;
    }
    mixed(whole, 3)
}

/// The number so far, and then another one.
fn mixed(mark: u64, number: u32) -> u64 {
    (mark ^ u64::from(number))
        .wrapping_mul(SPREAD)
        .rotate_left(29)
}
