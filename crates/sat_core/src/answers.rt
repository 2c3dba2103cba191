//! The answers of the solver.

use base_library::Sequence;
use clause_core::{Assignment, Clause};
use refutation_check::Log;

/// What a search came to.
#[derive(Drop)]
pub enum Answer {
    /// This assignment meets all clauses.
    Sat(Assignment),
    /// This log refutes the clauses.
    Unsat(Log),
    /// As many clauses as allowed were learnt, and these are they, in order: a trace.
    Spent(Sequence<Clause>),
}
