//! Formulas in conjunctive normal form, and assignments.

ghost use Rattle.std.specs.Prelude.{◌≡◌, ◌<◌, ◌^◌, All, length};
ghost use Rattle.clause_core.specs.Clauses.{IsOver, assignment_of, meets};

use crate::clause_list::ClauseList;
use crate::clauses::Clause;
use crate::literals::Literal;
use base_library::Sequence;

/// A formula in conjunctive normal form: clauses over the variables from 1 to a number.
#[derive(Drop)]
pub struct Cnf {
    /// How many variables there are.
    pub variables: u32,
    /// The clauses, in order.
    pub clauses: ClauseList,
    pub ghost few: { variables < 2 ^ 31 },
    pub ghost over: { All (IsOver variables) clauses },
}

/// A truth for each variable, that of variable v at place v - 1.
#[derive(Drop)]
pub struct Assignment {
    /// The truths, in the order of the variables.
    pub truths: Sequence<bool>,
}

impl Assignment {
    /// Whether it meets the clause of these literals: it makes one of them true.
    pub fn meets(&self, literals: &[Literal]) -> bool
        requires { IsOver (length self.now.truths) literals.now }
        ensures { result ≡ meets (assignment_of self.now.truths) literals.now }
    {
        let truths = self.truths.as_slice();
        literals
            .iter()
            .any(|literal| truths[literal.index()] == literal.is_positive())
    }
}

/// Whether the assignment meets the clause: it makes one of its literals true.
pub fn meets(assignment: &Assignment, clause: &Clause) -> bool
    requires { IsOver (length assignment.now.truths) clause.now }
    ensures { result ≡ meets (assignment_of assignment.now.truths) clause.now }
{
    assignment.meets(clause.literals())
}
