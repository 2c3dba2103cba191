//! Answers to the question for an environment.

use annotation_check::Annotation;
use base_library::Sequence;
use clause_core::Clause;
use machines::Environment;
use refutation_check::Log;

/// What a search for an environment came to.
#[derive(Drop)]
pub enum FoundDual {
    /// This environment, with this annotation of it.
    Environment(Environment, Annotation),
    /// There is none: a log that refutes the question's clauses.
    None(Log),
    /// As many clauses as allowed were learnt, and these are they, in order: a trace.
    Spent(Sequence<Clause>),
}
