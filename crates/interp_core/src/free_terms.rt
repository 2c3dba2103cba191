//! Free terms: what is left of terms where no value of a signal is known.

ghost use Rattle.std.specs.Prelude.{◌≡◌, ◌↔◌, map, IfOk, IsTrue};
ghost use Rattle.interp_core.specs.FreeView.{free_tree, free_trees, frees_of};
ghost use Rattle.tsl_terms.specs.SameFree.{same_free, same_frees};

use base_library::NoMemory;
use std::alloc::Global;

/// A free term: a signal at a step, or a function applied to free terms. Numbers are those of a list of names.
#[cycle(free_terms)]
#[derive(Drop)]
pub enum FreeTerm {
    /// A signal, by its number, and a step.
    Leaf(u32, u32),
    /// A function, by its number, and its arguments.
    Apply(u32, FreeList),
}

/// A list of free terms, in order.
#[cycle(free_terms)]
pub enum FreeList {
    /// No free term.
    Empty,
    /// A first free term and those after it.
    More(Box<FreeTerm>, Box<FreeList>),
}

impl Drop for FreeList {
    #[cycle(free_terms)]
    fn drop(mut self) {
        loop {
            match self {
                FreeList::Empty => return,
                FreeList::More(_, rest) => self = Box::into_inner(rest),
            }
        }
    }
}

impl FreeList {
    /// The list of these free terms, in their order.
    #[tactic(auto, using(crate::proofs::FreeLists::front_of_none, crate::proofs::FreeLists::with_front_push))]
    pub fn from_vec(alloc: Global, mut terms: Vec<FreeTerm>) -> Result<FreeList, NoMemory>
        ensures { IfOk result (λ list. free_trees list ≡ frees_of (map free_tree terms.items)) }
    {
        let mut list = FreeList::Empty;
        while let Some(term) = terms.pop() {
            list = FreeList::More(Box::new(alloc, term)?, Box::new(alloc, list)?);
        }
        Ok(list)
    }
}

/// An equal free term.
#[cycle(copy_free)]
pub(crate) fn copy_free(alloc: Global, free: &FreeTerm) -> Result<FreeTerm, NoMemory>
    ensures { IfOk result (λ copy. free_tree copy ≡ free_tree free.now) }
{
    match free {
        FreeTerm::Leaf(signal, step) => Ok(FreeTerm::Leaf(*signal, *step)),
        FreeTerm::Apply(function, arguments) => {
            Ok(FreeTerm::Apply(*function, copy_frees(alloc, arguments)?))
        }
    }
}

/// An equal list of free terms.
#[tactic(auto, using(crate::proofs::FreeLists::front_of_none, crate::proofs::FreeLists::with_front_push))]
#[cycle(copy_free)]
fn copy_frees(alloc: Global, frees: &FreeList) -> Result<FreeList, NoMemory>
    ensures { IfOk result (λ copy. free_trees copy ≡ free_trees frees.now) }
{
    let mut copies = Vec::new(alloc);
    let mut rest = frees;
    while let FreeList::More(free, next) = rest {
        copies.push(copy_free(alloc, free)?)?;
        rest = next;
    }
    FreeList::from_vec(alloc, copies)
}

/// A list of free terms that equal these.
pub(crate) fn list_of_copies(alloc: Global, frees: &[FreeTerm]) -> Result<FreeList, NoMemory>
    ensures { IfOk result (λ list. free_trees list ≡ frees_of (map free_tree frees.now)) }
{
    let mut copies = Vec::new(alloc);
    for free in frees {
        copies.push(copy_free(alloc, free)?)?;
    }
    FreeList::from_vec(alloc, copies)
}

/// Whether two free terms are equal.
#[cycle(same_free)]
pub(crate) fn are_equal(a: &FreeTerm, b: &FreeTerm) -> bool
    ensures test { result ≡ same_free (free_tree a.now) (free_tree b.now) }
    ensures equal { IsTrue result ↔ (free_tree a.now ≡ free_tree b.now) }
{
    match (a, b) {
        (FreeTerm::Leaf(r, i), FreeTerm::Leaf(s, j)) => *r == *s && *i == *j,
        (FreeTerm::Apply(f, left), FreeTerm::Apply(g, right)) => *f == *g && all_equal(left, right),
        _ => false,
    }
}

/// Whether two lists of free terms are equal.
#[cycle(same_free)]
fn all_equal(a: &FreeList, b: &FreeList) -> bool
    ensures { result ≡ same_frees (free_trees a.now) (free_trees b.now) }
{
    let mut left = a;
    let mut right = b;
    loop {
        match (left, right) {
            (FreeList::Empty, FreeList::Empty) => return true,
            (FreeList::More(x, xs), FreeList::More(y, ys)) => {
                if !are_equal(x, y) {
                    return false;
                }
                left = xs;
                right = ys;
            }
            _ => return false,
        }
    }
}
