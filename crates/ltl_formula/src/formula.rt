//! Formulas of linear temporal logic, and their order.

ghost use Rattle.std.specs.Prelude.{◌≡◌, map, IfOk};
ghost use Rattle.ltl_formula.specs.LtlTree.{ltl_tree, ltl_trees, ltl_formulas_of};
ghost use Rattle.ltl_formula.specs.LtlOrder.{tree_cmp};

use base_library::NoMemory;
use std::alloc::Global;
use std::cmp::Ordering;

/// A formula in negation normal form: a negation stands at a bit alone.
#[cycle(ltl)]
#[derive(Drop, PartialEq, Eq, PartialOrd, Ord, Hash)]
pub enum Ltl {
    /// Holds everywhere.
    True,
    /// Holds nowhere.
    False,
    /// The letter has the bit with this number. A letter is a number below 2^64: it has no bit from 64 on.
    Bit(u32),
    /// The letter does not have the bit with this number.
    NotBit(u32),
    /// All members.
    All(LtlList),
    /// Some member.
    Any(LtlList),
    /// At the next position.
    Next(Box<Ltl>),
    /// The left one until the right one, which comes.
    Until(Box<Ltl>, Box<Ltl>),
    /// The right one until and with the left one, which may never come.
    Release(Box<Ltl>, Box<Ltl>),
}

/// A list of formulas, in order.
#[cycle(ltl)]
#[derive(PartialEq, Eq, PartialOrd, Ord, Hash)]
pub enum LtlList {
    /// No formula.
    Empty,
    /// A first formula and those after it.
    More(Box<Ltl>, Box<LtlList>),
}

impl Drop for LtlList {
    #[cycle(ltl)]
    fn drop(mut self) {
        loop {
            match self {
                LtlList::Empty => return,
                LtlList::More(_, rest) => self = Box::into_inner(rest),
            }
        }
    }
}

impl LtlList {
    /// The list of these formulas, in their order.
    #[tactic(auto, using(crate::proofs::ListLemmas::with_front_none, crate::proofs::ListLemmas::with_front_push))]
    pub fn from_vec(alloc: Global, mut formulas: Vec<Ltl>) -> Result<LtlList, NoMemory>
        ensures { IfOk result (λ list. ltl_trees list ≡ ltl_formulas_of (map ltl_tree formulas.items)) }
    {
        let mut list = LtlList::Empty;
        while let Some(formula) = formulas.pop() {
            list = LtlList::More(Box::new(alloc, formula)?, Box::new(alloc, list)?);
        }
        Ok(list)
    }
}

/// How two formulas are ordered: by their variants, as they are declared, and then by their parts
/// from the left, lists as words in a dictionary. `<` and `sort` go by the same order.
pub fn compare(left: &Ltl, right: &Ltl) -> Ordering
    ensures { result ≡ tree_cmp (ltl_tree left.now) (ltl_tree right.now) }
{
    left.cmp(right)
}
