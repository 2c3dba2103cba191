//! What the numbers behind a header tell.

ghost use Rattle.std.specs.Prelude.{◌≡◌, ◌+◌, ◌<◌, ◌≤◌, ℕ, ℤ, nat_abs, cond, [], ◌∷◌, ◌++◌, List, OnOk, All};
ghost use Rattle.clause_core.specs.Clauses.{IsOver};
ghost use Rattle.refutation_check.specs.Numbers.{is_zero};
ghost use Rattle.cnf_reader.specs.internal.Told.{AreWithinLimits, ended_clauses};

use base_library::NoMemory;
use clause_core::{ClauseList, Literal};
use refutation_check::{MOST_CLAUSES, MOST_VARIABLES, literal_of};
use std::alloc::Global;

/// The numbers that a header tells.
#[derive(Clone, Copy)]
pub struct Counts {
    /// How many variables there are.
    pub variables: u64,
    /// How many clauses there are.
    pub clauses: u64,
}

/// The counts of the header, how many clauses were ended, these clauses, and the literals after them. Where the
/// counts pass a limit, no clause is kept.
#[derive(Drop)]
pub(crate) struct Told {
    pub counts: Counts,
    pub ended: u64,
    pub clauses: ClauseList,
    pub literals: Vec<Literal>,
    ghost over: { All (IsOver counts.variables) clauses },
    ghost literals_over: { IsOver counts.variables literals.items },
}

impl Told {
    /// No number is read yet.
    pub fn new(alloc: Global, counts: Counts) -> Told
        ensures counts { result.counts ≡ counts }
        ensures ended { result.ended ≡ 0 }
        ensures clauses { result.clauses ≡ [] }
        ensures literals { result.literals.items ≡ [] }
    {
        Told {
            counts,
            ended: 0,
            clauses: ClauseList::new(alloc),
            literals: Vec::new(alloc),
        }
    }

    /// Adds what one more number tells.
    #[inline(always)]
    pub fn add(&mut self, alloc: Global, number: i64) -> Result<(), NoMemory>
        requires few { self.old.ended < self.old.counts.clauses }
        requires within { nat_abs number ≤ self.old.counts.variables }
        ensures counts { OnOk result (self.new.counts ≡ self.old.counts) }
        ensures ended { OnOk result (self.new.ended ≡ self.old.ended + cond (is_zero number) 1 0) }
        ensures clauses { OnOk result (AreWithinLimits self.old.counts → (ns : List ℤ) →
            self.new.clauses ++ ended_clauses self.new.literals.items ns
            ≡ self.old.clauses ++ ended_clauses self.old.literals.items (number ∷ ns)) }
    {
        self.ended = ended_after(self.ended, self.counts.clauses, number);
        if self.counts.variables > MOST_VARIABLES || self.counts.clauses > MOST_CLAUSES {
            return Ok(());
        }
        match literal_of(number) {
            Some(literal) => self.literals.push(literal)?,
            None => {
                self.clauses.push(alloc, self.literals.as_slice())?;
                self.literals.clear();
            }
        }
        Ok(())
    }
}

/// How many of the clauses are ended after one more number.
fn ended_after(ended: u64, clauses: u64, number: i64) -> u64
    requires { ended < clauses }
    ensures { result ≡ ended + cond (is_zero number) 1 0 }
{
    ended + u64::from(number == 0)
}
