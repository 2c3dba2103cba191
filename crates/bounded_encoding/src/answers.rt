//! Answers to the question for a controller.

use annotation_check::Annotation;
use base_library::Sequence;
use clause_core::{Clause, Cnf};
use machines::Controller;
use refutation_check::Log;

/// What a search for a controller came to.
#[derive(Drop)]
pub enum Found {
    /// This controller, with this annotation of it.
    Controller(Controller, Annotation),
    /// There is none: the question's clauses, and a log that refutes them.
    None(Cnf, Log),
    /// As many clauses as allowed were learnt, and these are they, in order: a trace.
    Spent(Sequence<Clause>),
}
