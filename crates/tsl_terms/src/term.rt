//! Terms and the probes that are made of them.

ghost use Rattle.std.specs.Prelude.{◌≡◌, map, IfOk};
ghost use Rattle.tsl_terms.specs.TermTree.{term_tree, term_trees, terms_of};

use base_library::NoMemory;
use std::alloc::Global;

/// How deep the brackets of a term may nest where it is written.
pub const DEEPEST_BRACKETS: u32 = 200;

/// A term: a signal, or a function applied to terms. Numbers are those of a list of names.
#[cycle(terms)]
#[derive(Debug, Drop)]
pub enum Term {
    /// A signal, by its number.
    Signal(u32),
    /// A function, by its number, and its arguments. Without arguments it is a constant.
    Apply(u32, TermList),
}

/// A list of terms, in order.
#[cycle(terms)]
#[derive(Debug)]
pub enum TermList {
    /// No term.
    Empty,
    /// A first term and those after it.
    More(Box<Term>, Box<TermList>),
}

impl Drop for TermList {
    #[cycle(terms)]
    fn drop(mut self) {
        loop {
            match self {
                TermList::Empty => return,
                TermList::More(_, rest) => self = Box::into_inner(rest),
            }
        }
    }
}

impl TermList {
    /// The list of these terms, in their order.
    #[tactic(auto, using(crate::proofs::TermLemmas::with_front_none, crate::proofs::TermLemmas::with_front_push))]
    pub fn from_vec(alloc: Global, mut terms: Vec<Term>) -> Result<TermList, NoMemory>
        ensures { IfOk result (λ list. term_trees list ≡ terms_of (map term_tree terms.items)) }
    {
        let mut list = TermList::Empty;
        while let Some(term) = terms.pop() {
            list = TermList::More(Box::new(alloc, term)?, Box::new(alloc, list)?);
        }
        Ok(list)
    }
}

/// A predicate applied to terms.
#[derive(Debug, Drop)]
pub struct Probe {
    /// The predicate, by its number.
    pub predicate: u32,
    /// Its arguments.
    pub arguments: TermList,
}
