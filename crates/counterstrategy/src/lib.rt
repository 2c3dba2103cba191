//! The question for an environment: is there one with so many states that has an annotation within a bound?
//!
//! It is the dual of `bounded_encoding`'s question, asked of the automaton of the formula itself.
//! `specs/EnvironmentQuestion` says what a solution is. `encode_dual` gives the question as clauses, exactly those of
//! `specs/DualEncoding`, or says that its vectors or its clauses are too many; `find_environment`
//! answers it, by an environment with its annotation, by a refutation of the clauses, or by a trace
//! where a budget of learnt clauses is spent (`specs/DualAnswers`). `specs/DualDecoding` says what an
//! assignment says of the variables. Laws are the contracts of functions that do nothing: an
//! assignment that meets the clauses gives a solution, and each solution gives such an assignment.
#![tactic(auto)]

mod dual_answers;
mod dual_asking;
mod dual_encoding;
mod dual_error;
mod environment_finding;
mod environment_reading;
mod environment_side;
mod laws;
mod vector_letters;

pub use dual_answers::FoundDual;
pub use dual_encoding::encode_dual;
pub use dual_error::DualError;
pub use environment_finding::find_environment;
pub use laws::{
    assignments_give_environments, dual_variables_have_one_number, environments_give_assignments,
};
