//! Logs of steps that refute a formula.

use base_library::Sequence;
use clause_core::Clause;

/// A step: a clause that follows from those before it by unit propagation.
#[derive(Drop)]
pub struct Step {
    /// The number by which later steps name the clause.
    pub number: u64,
    /// The clause.
    pub clause: Clause,
    /// The numbers of the clauses that show it, in the order in which they are to be looked at.
    pub hints: Sequence<u64>,
}

/// The steps of a refutation, in order.
#[derive(Drop)]
pub struct Log {
    /// The steps.
    pub steps: Sequence<Step>,
}
