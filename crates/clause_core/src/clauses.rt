//! Clauses: strictly increasing lists of literals.

ghost use Rattle.std.specs.Prelude.{◌≡◌, ◌↔◌, ◌∷◌, true, IfOk, IsTrue};
ghost use Rattle.clause_core.specs.Clauses.{IsIncreasing, IsOver, in_order, is_contained, has_pair};

use crate::literals::Literal;
use base_library::NoMemory;
use smallvec::SmallVec;
use std::alloc::Global;
use std::marker::Model;

/// A clause: literals, at least one of which is to be true. They rise strictly by their numbers. Up to six of them
/// lie in the clause itself, and only more take memory of their own.
#[derive(Drop)]
pub struct Clause {
    literals: SmallVec<Literal, 6>,
}

impl Model for Clause {
    ghost use Rattle.std.specs.Prelude.{List};
    ghost use Rattle.clause_core.specs.Literals.{Lit};
    ghost use Rattle.clause_core.specs.Clauses.{IsIncreasing};

    ghost Value = { List Lit };

    ghost view = { λ clause. clause.literals.items };

    ghost invariant = { λ clause. IsIncreasing clause.literals.items };
}

impl Clause {
    /// The literals, by rising numbers.
    pub fn literals(&self) -> &[Literal]
        ensures value { result.now ≡ self.now }
        ensures increasing { IsIncreasing self.now }
    {
        self.literals.as_slice()
    }

    /// Whether its variables are at most this one.
    pub fn is_over(&self, variables: u32) -> bool
        ensures { IsTrue result ↔ IsOver variables self.now }
    {
        self.literals
            .iter()
            .all(|literal| literal.variable() <= variables)
    }
}

/// Whether the numbers of literals rise strictly after a first one.
#[inline(always)]
fn rise_after(first: Literal, literals: &[Literal]) -> bool
    ensures { result ≡ true → IsIncreasing (first ∷ literals.now) }
{
    let mut last = first;
    for literal in literals {
        if last < *literal {
            last = *literal;
        } else {
            return false;
        }
    }
    true
}

/// Whether the numbers of literals rise strictly.
#[inline(always)]
fn are_rising(literals: &[Literal]) -> bool
    ensures { result ≡ true → IsIncreasing literals.now }
{
    match literals {
        [] => true,
        [first, rest @ ..] => rise_after(*first, rest),
    }
}

/// The clause of literals that rise strictly.
#[inline(always)]
#[tactic(auto, using(crate::proofs::Sets::in_order_already))]
fn rising_clause(alloc: Global, literals: &[Literal]) -> Result<Clause, NoMemory>
    requires { IsIncreasing literals.now }
    ensures { IfOk result (λ clause. clause ≡ in_order literals.now) }
{
    let literals = SmallVec::from_slice(alloc, literals)?;
    Ok(Clause { literals })
}

/// The clause of literals in any order.
#[inline(never)]
fn sorted_clause(alloc: Global, literals: &[Literal]) -> Result<Clause, NoMemory>
    ensures { IfOk result (λ clause. clause ≡ in_order literals.now) }
{
    let mut literals = SmallVec::from_slice(alloc, literals)?;
    literals.as_mut_slice().sort_unstable();
    literals.dedup();
    Ok(Clause { literals })
}

/// The clause of these literals: by rising numbers, each once.
#[inline(always)]
pub fn clause_of(alloc: Global, literals: &[Literal]) -> Result<Clause, NoMemory>
    ensures { IfOk result (λ clause. clause ≡ in_order literals.now) }
{
    if are_rising(literals) {
        rising_clause(alloc, literals)
    } else {
        sorted_clause(alloc, literals)
    }
}

/// Whether each literal of the small clause is in the large one.
pub fn contains(small: &Clause, large: &Clause) -> bool
    ensures { result ≡ is_contained small.now large.now }
{
    let mut wanted = small.literals();
    let mut offered = large.literals();
    while let Some((first, later)) = wanted.split_first() {
        let Some((found, rest)) = offered.split_first() else {
            return false;
        };
        if first < found {
            return false;
        }
        if first == found {
            wanted = later;
        }
        offered = rest;
    }
    true
}

/// Whether the clause has a literal and its negation.
pub fn is_tautology(clause: &Clause) -> bool
    ensures { result ≡ has_pair clause.now }
{
    have_pair(clause.literals())
}

/// Whether there are a literal and its negation among the literals of a clause, which rise strictly by their numbers.
pub fn have_pair(literals: &[Literal]) -> bool
    requires { IsIncreasing literals.now }
    ensures { result ≡ has_pair literals.now }
{
    let mut rest = literals;
    while rest.len() > 1 {
        let Some((first, after)) = rest.split_first() else {
            return false;
        };
        let Some((last, before)) = rest.split_last() else {
            return false;
        };
        let negative = first.negated();
        if negative == *last {
            return true;
        }
        rest = if negative < *last { before } else { after };
    }
    false
}
