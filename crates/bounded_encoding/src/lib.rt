//! The question for a controller: is there one with so many states that has an annotation within a bound?
//!
//! `specs/Question` says what a solution is. `encode` gives the question as clauses, exactly those of
//! `specs/Encoding`, or says that they are too many; `find_controller` answers it, by a controller
//! with its annotation, by the clauses with a refutation of them, or by a trace where a budget of learnt
//! clauses is spent (`specs/Answers`). `specs/Decoding` says what an assignment says of the variables. Laws
//! are the contracts of functions that do nothing: an assignment that meets the clauses gives a solution,
//! and each solution gives such an assignment.
#![tactic(auto)]

mod answers;
mod asking;
mod builder;
mod choice_clauses;
mod controller_side;
mod edge_literals;
mod encoding;
mod encoding_laws;
mod errors;
mod finding;
mod frame;
mod grid;
mod laws;
mod reading;
mod side;
mod simple_clauses;
mod transition_clauses;

pub use answers::Found;
pub use builder::Builder;
pub use edge_literals::push_number_if;
pub use encoding::{encode, falling_count};
pub use encoding_laws::clauses_are_over_variables;
pub use errors::EncodeError;
pub use finding::find_controller;
pub use frame::{Frame, variables_in_all};
pub use laws::{
    assignments_give_controllers, controllers_give_assignments, variables_have_one_number,
};
pub use reading::{annotation_read, first_true};
pub use side::Side;
pub use transition_clauses::add_side;
