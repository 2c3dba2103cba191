//! Formulas.

ghost use Rattle.std.specs.Prelude.{◌≡◌, map, IfOk};
ghost use Rattle.tsl_terms.specs.FormulaTree.{formula_tree, formula_trees, formulas_of};

use crate::term::{Probe, Term};
use base_library::NoMemory;
use std::alloc::Global;

/// A formula of Temporal Stream Logic.
#[cycle(formulas)]
#[derive(Debug, Drop)]
pub enum Formula {
    /// Holds everywhere.
    True,
    /// Holds nowhere.
    False,
    /// A predicate's truth.
    Test(Probe),
    /// `[s <- t]`: the signal takes the term.
    Update(u32, Term),
    /// Not.
    Not(Box<Formula>),
    /// All members.
    All(FormulaList),
    /// Some member.
    Any(FormulaList),
    /// The left one implies the right one.
    Implies(Box<Formula>, Box<Formula>),
    /// Both or none.
    Iff(Box<Formula>, Box<Formula>),
    /// At the next position.
    Next(Box<Formula>),
    /// At some position from here on.
    Finally(Box<Formula>),
    /// At every position from here on.
    Globally(Box<Formula>),
    /// The left one until the right one, which comes.
    Until(Box<Formula>, Box<Formula>),
    /// The left one until the right one, which may never come.
    Weak(Box<Formula>, Box<Formula>),
    /// The right one until and with the left one, which may never come.
    Release(Box<Formula>, Box<Formula>),
}

/// A list of formulas, in order.
#[cycle(formulas)]
#[derive(Debug)]
pub enum FormulaList {
    /// No formula.
    Empty,
    /// A first formula and those after it.
    More(Box<Formula>, Box<FormulaList>),
}

impl Drop for FormulaList {
    #[cycle(formulas)]
    fn drop(mut self) {
        loop {
            match self {
                FormulaList::Empty => return,
                FormulaList::More(_, rest) => self = Box::into_inner(rest),
            }
        }
    }
}

impl FormulaList {
    /// The list of these formulas, in their order.
    #[tactic(auto, using(crate::proofs::FormulaLemmas::with_front_none, crate::proofs::FormulaLemmas::with_front_push))]
    pub fn from_vec(alloc: Global, mut formulas: Vec<Formula>) -> Result<FormulaList, NoMemory>
        ensures { IfOk result
            (λ list. formula_trees list ≡ formulas_of (map formula_tree formulas.items)) }
    {
        let mut list = FormulaList::Empty;
        while let Some(formula) = formulas.pop() {
            list = FormulaList::More(Box::new(alloc, formula)?, Box::new(alloc, list)?);
        }
        Ok(list)
    }
}
