//! The clauses on a trail by their numbers.

ghost use Rattle.std.specs.Prelude.{◌≡◌, ◌+◌, ◌<◌, ◌^◌, ◌++◌, ◌∷◌, [], length, Some, slice_get, cond, is_ok};
ghost use Rattle.clause_core.specs.Clauses.{IsIncreasing};

use base_library::NoMemory;
use clause_core::{Clause, ClauseList, Literal};
use std::marker::Model;

/// The clauses of a formula, which are borrowed, and behind them the learnt ones. A contract sees them as
/// one list.
#[derive(Drop)]
pub struct TrailClauses<'f> {
    formula: &'f ClauseList,
    learnt: Vec<Clause>,
}

impl<'f> Model for TrailClauses<'f> {
    ghost use Rattle.std.specs.Prelude.{◌+◌, ◌<◌, ◌^◌, ◌++◌, List, length};
    ghost use Rattle.clause_core.specs.Literals.{Lit};

    ghost Value = { List (List Lit) };

    ghost view = { λ d. d.formula.now ++ d.learnt.items };

    ghost invariant = { λ d. length d.formula.now + length d.learnt.items < 2 ^ 32 };
}

impl<'f> TrailClauses<'f> {
    /// The clauses of a formula, and behind them these.
    pub fn new(formula: &'f ClauseList, learnt: Vec<Clause>) -> TrailClauses<'f>
        requires { length formula.now + length learnt.items < 2 ^ 32 }
        ensures { result ≡ formula.now ++ learnt.items }
    {
        TrailClauses { formula, learnt }
    }

    /// How many clauses there are.
    pub fn len(&self) -> u32
        ensures { result ≡ length self.now }
    {
        (self.formula.len() + self.learnt.len()) as u32
    }

    /// The literals of the clause of a number, by their rising numbers.
    pub fn get(&self, number: u32) -> &[Literal]
        requires { number < length self.now }
        ensures value { slice_get self.now number ≡ Some result.now }
        ensures increasing { IsIncreasing result.now }
    {
        let place = number as usize;
        let count = self.formula.len();
        if place < count {
            self.formula.get(place)
        } else {
            self.learnt[place - count].literals()
        }
    }

    /// Puts a learnt clause at the end.
    pub fn push(&mut self, clause: Clause) -> Result<(), NoMemory>
        requires { length self.old + 1 < 2 ^ 32 }
        ensures { self.new ≡ cond (is_ok result) (self.old ++ clause ∷ []) self.old }
    {
        self.learnt.push(clause)?;
        Ok(())
    }
}
